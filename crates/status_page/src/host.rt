//! By which name a server was asked. A page of another site that was led here by a name of that site tells it. A server
//! may have a name of its own; without one it is empty, which adds nothing, since an empty `Host` is no name.
ghost use Rattle.std.specs.Prelude.{◌≡◌, ◌≤◌, All, length};
ghost use Rattle.std.specs.List.{list_all};
ghost use Rattle.httparse.specs.Spans.{IsHeaderWithin};
ghost use Rattle.status_page.specs.Hosts.{before_port, colon_in, foreign_in, is_address_byte, is_foreign, is_own_host};

use httparse::spans::HeaderSpan;

/// A byte of an address or of a port behind it.
fn is_address_byte(byte: u8) -> bool
    ensures { result ≡ is_address_byte byte }
{
    byte.is_ascii_digit() || byte == b'.' || byte == b':'
}

/// Whether these are bytes of an address alone.
fn is_address(host: &[u8]) -> bool
    ensures { result ≡ list_all is_address_byte host.now }
{
    host.iter().all(|byte| is_address_byte(*byte))
}

/// Where the first colon of a host stands.
fn colon_in(host: &[u8]) -> Option<usize>
    ensures { result ≡ colon_in host.now }
{
    host.iter().position(|byte| *byte == b':')
}

/// A host without its port: what stands before the first colon.
fn before_port(host: &[u8]) -> &[u8]
    ensures { result.now ≡ before_port host.now }
{
    match colon_in(host) {
        Some(end) => &host[..end],
        None => host,
    }
}

/// Whether a value of `Host` is an address, of IPv6 in brackets, `localhost` or a name that was named as this server's,
/// with a port or without one, in large or small letters.
fn is_own_host(host: &[u8], name: &[u8]) -> bool
    ensures { result ≡ is_own_host name.now host.now }
{
    is_address(host)
        || host.starts_with(b"[")
        || before_port(host).eq_ignore_ascii_case(b"localhost")
        || before_port(host).eq_ignore_ascii_case(name)
}

/// Whether a field is a `Host` with another name.
#[tactic(auto, unfolding(crate::specs::Hosts::is_foreign))]
fn is_foreign(field: &[u8], value: &[u8], name: &[u8]) -> bool
    ensures { result ≡ is_foreign name.now field.now value.now }
{
    field.eq_ignore_ascii_case(b"Host") && !is_own_host(value, name)
}

/// Whether there is such a field.
pub fn is_any_foreign(bytes: &[u8], fields: &[HeaderSpan], name: &[u8]) -> bool
    requires { All (IsHeaderWithin (length bytes.now)) fields.now }
    ensures { result ≡ foreign_in name.now bytes.now fields.now }
{
    for field in fields {
        if is_foreign(field.name.of(bytes), field.value.of(bytes), name) {
            return true;
        }
    }
    false
}
