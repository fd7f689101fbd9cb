//! Lists of addresses and masks.
ghost use Rattle.std.specs.Prelude.{◌≡◌, ◌↔◌, IsTrue};
ghost use Rattle.std.specs.List.{list_any};
ghost use Rattle.protocol.specs.Access.{is_in};
ghost use Rattle.access_list.specs.Tokens.{is_refused, is_separator};

use crate::fault::AccessFault;
use crate::token::Token;
use std::alloc::{AllocError, Global};
use std::marker::Model;
use std::net::Ipv4Addr;

/// A list of addresses and masks. In a contract it is its tokens, in order.
#[derive(Drop)]
pub struct AccessList {
    tokens: Vec<Token>,
}

impl Model for AccessList {
    ghost use Rattle.std.specs.Prelude.{List};
    ghost use Rattle.protocol.specs.Access.{Token as ProtocolToken};

    ghost Value = { List ProtocolToken };

    ghost view = { λ a. a.tokens.items };
}

impl AccessList {
    ghost use Rattle.std.specs.Prelude.{◌≢◌, ℕ, Ok, Err, IfOk, IfErr, option_map};
    ghost use Rattle.std.specs.Net.Addr.{ipv4_bits};
    ghost use Rattle.protocol.specs.Access.{allows, IsAllowed};
    ghost use Rattle.access_list.specs.Tokens.{list_of, first_refused};
    ghost use Rattle.access_list.specs.declared.fault.AccessFault.TheVariants.{OutOfMemory};

    /// The list that a text spells. Any number of spaces and commas separate its tokens, and nothing else does. A token
    /// is an address, which is that address alone, or an address, `/` and a mask: a number 0 to 32 of one or two
    /// digits, which is that many leading one-bits, or four numbers joined by dots.
    ///
    /// It fails with the fault of the first bad token: Address where the part before its first `/` is no address, and
    /// else Mask where the part after it is no mask. It fails with OutOfMemory only where there is no memory.
    ///
    /// The list allows an address exactly where one of its tokens has the same bit as the address in each of the 32
    /// bits in which its mask is one.
    pub fn parse(alloc: Global, text: &[u8]) -> Result<AccessList, AccessFault>
        ensures ok { IfOk result (λ list. list_of text.now ≡ Ok list) }
        ensures words { IfOk result (λ list. (a : ℕ) → IsTrue (allows list a) ↔ IsAllowed list a) }
        ensures err { IfErr result (λ fault. fault ≢ OutOfMemory → list_of text.now ≡ Err fault) }
    {
        let mut tokens = Vec::new(alloc);
        let words = text.split(
            |byte|
                ensures { result ≡ is_separator byte.now }
            { is_separator(*byte) },
        );
        for word in words {
            if !word.is_empty() {
                tokens
                    .push(Token::parse(word)?)
                    .map_err(|_| AccessFault::OutOfMemory)?;
            }
        }
        Ok(AccessList { tokens })
    }

    /// The first entry of a text that is not an address, alone or with a mask: the one for whose fault `parse` refuses
    /// the text. None if all entries are valid.
    pub fn refused_entry(text: &[u8]) -> Option<&[u8]>
        ensures { option_map (λ entry. entry.now) result ≡ first_refused text.now }
    {
        let entries = text.split(
            |byte|
                ensures { result ≡ is_separator byte.now }
            { is_separator(*byte) },
        );
        for entry in entries {
            if is_refused(entry) {
                return Some(entry);
            }
        }
        None
    }

    /// The same list once more. Only memory can lack.
    pub fn copy(&self, alloc: Global) -> Result<AccessList, AllocError>
        ensures { IfOk result (λ copy. copy ≡ self.now) }
    {
        let copy = self.tokens.as_slice().to_vec(alloc)?;
        Ok(AccessList { tokens: copy })
    }

    /// Whether some token of the list has the bits of the address wherever its mask is one. An empty list allows
    /// nobody.
    pub fn allows(&self, address: Ipv4Addr) -> bool
        ensures { result ≡ allows self.now (ipv4_bits address) }
    {
        is_allowed(self.tokens.as_slice(), address.to_bits())
    }

    /// Whether another list has the same tokens in the same order. Then it allows the same addresses; one of other
    /// tokens, or of the same in another order, may also allow the same.
    pub fn is_same(&self, other: &AccessList) -> bool
        ensures { IsTrue result ↔ (self.now ≡ other.now) }
    {
        are_same(self.tokens.as_slice(), other.tokens.as_slice())
    }
}

/// Whether a byte separates the entries of a list: a space or a comma.
pub fn is_separator(byte: u8) -> bool
    ensures { result ≡ is_separator byte }
{
    byte == b' ' || byte == b','
}

/// Whether something stands between two separators, and spells no token.
fn is_refused(entry: &[u8]) -> bool
    ensures { result ≡ is_refused entry.now }
{
    !entry.is_empty() && Token::parse(entry).is_err()
}

/// Whether one of the tokens has the address.
fn is_allowed(tokens: &[Token], address: u32) -> bool
    ensures { result ≡ list_any (is_in address) tokens.now }
{
    tokens.iter().any(|token| token.has(address))
}

/// Whether two lists have the same tokens in the same order.
#[tactic(auto, using(crate::proofs::SameLemmas::same_lemmas))]
fn are_same(tokens: &[Token], others: &[Token]) -> bool
    ensures { IsTrue result ↔ (tokens.now ≡ others.now) }
{
    if tokens.len() != others.len() {
        return false;
    }
    for (place, token) in tokens.iter().enumerate() {
        if !token.is_same(&others[place]) {
            return false;
        }
    }
    true
}
