//! Who may use each station, a text each, for those who show stations in a table of their own.
ghost use Rattle.std.specs.Prelude.{◌≡◌, ◌≤◌, IfOk, length, map, option_map};
ghost use Rattle.config_explained.specs.ConfigTexts.{keys_of};
ghost use Rattle.toml.specs.View.{table_view};
ghost use Rattle.protocol.specs.Catalog.{stations_of};
ghost use Rattle.config_explained.specs.Users.{users_from, users_text, users_texts};

use crate::config_text::ConfigText;
use crate::entries::put_list;
use crate::lists::shown_at;
use catalog::Station;
use std::alloc::{AllocError, Global};
use toml::Table;

/// Whom a list admits.
fn users_in(alloc: Global, list: &Option<Vec<u8>>) -> Result<Vec<u8>, AllocError>
    ensures { IfOk result (λ text. text.items ≡ users_text (option_map (λ l. l.items) list.now)) }
{
    match list {
        None => Vec::from_slice(alloc, b"everybody"),
        Some(_) => {
            let mut words = Vec::new(alloc);
            put_list(&mut words, list)?;
            let (_space, text) = words.as_slice().split_at(words.len().min(1));
            Vec::from_slice(alloc, text)
        }
    }
}

/// The texts of all stations.
#[tactic(auto, using(crate::proofs::UserLemmas::user_lemmas))]
fn users_at(alloc: Global, stations: &[Station], table: &Table) -> Result<Vec<Vec<u8>>, AllocError>
    ensures { IfOk result (λ texts. map (λ t. t.items) texts.items
        ≡ users_from (table_view table.now) 0 (map (λ e. e.station) stations.now)) }
{
    let mut texts = Vec::new(alloc);
    for (place, _station) in stations.iter().enumerate() {
        let list = shown_at(alloc, table, place)?;
        texts.push(users_in(alloc, &list)?)?;
    }
    Ok(texts)
}

/// Who may use each station of a configuration, in order: the entries of the access list that holds for it, as they stand
/// in the configuration's text, with a space between two: its own list, else the server's; those of a group have `@` and
/// its name behind them. A list without an entry admits
/// `nobody`; without a list `everybody` may use the station. Only memory can lack.
pub fn users_of(alloc: Global, read: &ConfigText) -> Result<Vec<Vec<u8>>, AllocError>
    ensures { IfOk result (λ texts.
        map (λ t. t.items) texts.items ≡ users_texts (keys_of read.now.text) (stations_of read.now.config)) }
{
    users_at(alloc, read.config().stations(), read.table())
}
