//! How long a station may be silent before its operator is told.
ghost use Rattle.std.specs.Prelude.{◌≡◌, IfOk, map, option_map};
ghost use Rattle.toml.specs.View.{table_view, view};
ghost use Rattle.protocol.specs.Catalog.{stations_of};
ghost use Rattle.config_explained.specs.ConfigTexts.{keys_of};
ghost use Rattle.config_explained.specs.Silences.{silence_by, silence_in, silence_of, silences, silences_from};

use crate::config_text::ConfigText;
use crate::tables::{station_table, value_of};
use catalog::Station;
use std::alloc::{AllocError, Global};
use toml::{Table, Value};

/// The most seconds.
const MOST: u32 = 1_000_000_000;

/// How long a station may be silent: what its key `silent` says.
#[derive(Clone, Copy, Drop)]
pub enum Silence {
    /// It says nothing: as long as the server's `--silent` says.
    AsServer,
    /// It may always be.
    Never,
    /// So many seconds, 1 to 1,000,000,000.
    After(u32),
}

/// The seconds that a value is, 0 to 1,000,000,000.
pub(crate) fn silence_in(value: &Value) -> Option<u32>
    ensures { result ≡ silence_in (view value.now) }
{
    match u32::try_from(value.as_integer()?) {
        Ok(seconds) if seconds <= MOST => Some(seconds),
        _ => None,
    }
}

/// What seconds say, if there are any.
fn silence_by(seconds: Option<u32>) -> Silence
    ensures { result ≡ silence_by seconds }
{
    match seconds {
        None => Silence::AsServer,
        Some(0) => Silence::Never,
        Some(seconds) => Silence::After(seconds),
    }
}

/// What a station's table says.
fn silence_of(table: Option<&Table>) -> Silence
    ensures { result ≡ silence_of (option_map (λ t. table_view t.now) table.entry) }
{
    match table {
        Some(table) => match value_of(table, "silent") {
            Some(value) => silence_by(silence_in(value)),
            None => Silence::AsServer,
        },
        None => Silence::AsServer,
    }
}

/// What the tables of all stations say.
#[tactic(auto, using(crate::proofs::SilenceLemmas::silence_lemmas))]
fn silences_in(
    alloc: Global,
    stations: &[Station],
    table: &Table,
) -> Result<Vec<Silence>, AllocError>
    ensures { IfOk result (λ all.
        all.items ≡ silences_from (table_view table.now) 0 (map (λ e. e.station) stations.now)) }
{
    let mut all = Vec::new(alloc);
    for (place, _station) in stations.iter().enumerate() {
        all.push(silence_of(station_table(table, place)))?;
    }
    Ok(all)
}

/// How long each station of a configuration may be silent, in order, by its key `silent`: a whole number of seconds, 0 to
/// 1,000,000,000, where 0 is never. Any other value counts as none, and is named as a key that is not known. Only memory
/// can lack.
pub fn silences_of(alloc: Global, read: &ConfigText) -> Result<Vec<Silence>, AllocError>
    ensures { IfOk result (λ all. all.items ≡ silences (keys_of read.now.text) (stations_of read.now.config)) }
{
    silences_in(alloc, read.config().stations(), read.table())
}
