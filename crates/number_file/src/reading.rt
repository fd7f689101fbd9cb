//! What a file of numbers says.
ghost use Rattle.std.specs.Prelude.{◌≡◌, ◌≢◌, [], map, All, IfOk, IfErr, OnOk, Ok, Err, Some};
ghost use Rattle.std.specs.Str.{IsUtf8};
ghost use Rattle.toml.specs.Parse.{parse_document};
ghost use Rattle.toml.specs.View.{table_view, view};
ghost use Rattle.number_file.specs.Keeping.{IsKeepable};
ghost use Rattle.number_file.specs.Reading.{next_of, number_in, numbers_after, numbers_of, numbers_read};

use catalog::keys::{elements_at, table_in, table_of, text_at};
use catalog::settings::{code_of, network_of};
use catalog::{ConfigFault, KeptNumber};
use sl_packet::Seq;
use std::alloc::Global;
use toml::{Table, Value};

/// Reads the text of a file of numbers: TOML in UTF-8, in which `station` is an array of tables with `network`, `code`
/// and `next`, as a configuration has them and its `first`. Other keys are ignored. What was read can be kept.
///
/// It fails with Toml where the bytes are no UTF-8 or no TOML; with Missing where a key is missing or has a value of
/// another kind; with Limit where a value is outside its limits; and with OutOfMemory only where there is no memory.
pub fn read_numbers(alloc: Global, bytes: &[u8]) -> Result<Vec<KeptNumber>, ConfigFault>
    ensures ok { IfOk result (λ numbers. numbers_read (parse_document bytes.now) ≡ Ok numbers.items) }
    ensures keepable { IfOk result (λ numbers. All IsKeepable numbers.items) }
    ensures text { OnOk result (IsUtf8 bytes.now) }
    ensures fault { IfErr result (λ e. e ≢ ConfigFault.OutOfMemory → IsUtf8 bytes.now
        → numbers_read (parse_document bytes.now) ≡ Err e) }
    ensures no_text { IfErr result (λ e. e ≢ ConfigFault.OutOfMemory → ¬ IsUtf8 bytes.now → e ≡ ConfigFault.Toml) }
{
    let table = table_of(alloc, bytes)?;
    numbers_of(alloc, &table)
}

/// The numbers that a table has.
#[tactic(auto, unfolding(crate::specs::Reading::numbers_of))]
fn numbers_of(alloc: Global, table: &Table) -> Result<Vec<KeptNumber>, ConfigFault>
    ensures ok { IfOk result (λ numbers. numbers_of (table_view table.now) ≡ Ok numbers.items) }
    ensures fault { IfErr result (λ e. e ≢ ConfigFault.OutOfMemory → numbers_of (table_view table.now) ≡ Err e) }
{
    let values = elements_at(table, "station")?;
    numbers_in(alloc, values)
}

/// The numbers that values describe.
fn numbers_in(alloc: Global, values: &[Value]) -> Result<Vec<KeptNumber>, ConfigFault>
    ensures ok { IfOk result (λ numbers. numbers_after [] (map view values.now) ≡ Ok numbers.items) }
    ensures fault { IfErr result (λ e. e ≢ ConfigFault.OutOfMemory
        → numbers_after [] (map view values.now) ≡ Err e) }
{
    let mut numbers = Vec::new(alloc);
    for value in values {
        let number = number_in(alloc, value)?;
        numbers.push(number).map_err(|_| ConfigFault::OutOfMemory)?;
    }
    Ok(numbers)
}

/// The number that a value describes.
#[tactic(auto, unfolding(crate::specs::Reading::number_in))]
fn number_in(alloc: Global, value: &Value) -> Result<KeptNumber, ConfigFault>
    ensures ok { IfOk result (λ number. number_in (view value.now) ≡ Ok number) }
    ensures fault { IfErr result (λ e. e ≢ ConfigFault.OutOfMemory → number_in (view value.now) ≡ Err e) }
{
    let table = table_in(value)?;
    let network = network_of(alloc, table)?;
    let code = code_of(alloc, table)?;
    let next = next_of(table)?;
    Ok(KeptNumber::new(network, code, next))
}

/// The number that the text of `next` spells in 1 to 6 hexadecimal digits of either case.
#[tactic(auto, unfolding(crate::specs::Reading::next_of))]
fn next_of(table: &Table) -> Result<Seq, ConfigFault>
    ensures { result ≡ next_of (table_view table.now) }
{
    let text = text_at(table, "next")?;
    Seq::parse(text).ok_or(ConfigFault::Limit)
}
