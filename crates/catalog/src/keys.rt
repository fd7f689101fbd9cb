//! The table that a text spells, and what a key of a table holds.
ghost use Rattle.std.specs.Prelude.{◌≡◌, ◌≢◌, ◌≤◌, map, option_map, IfOk, IfErr, OnOk, Ok, Err, Some, None, true};
ghost use Rattle.std.specs.Str.{IsUtf8};
ghost use Rattle.toml.specs.Parse.{parse_document};
ghost use Rattle.toml.specs.View.{table_view, view};
ghost use Rattle.toml.specs.Data.{get_member};
ghost use Rattle.catalog.specs.Steps.{within_if};
ghost use Rattle.catalog.specs.Keys.{text_in, number_in, elements_in, table_in, text_at, text_if_any, number_at};
ghost use Rattle.catalog.specs.Keys.{number_if_any, elements_at, number_up_to};

use crate::fault::ConfigFault;
use std::alloc::Global;
use toml::{Table, Value};

/// The table that a text spells, which is TOML in UTF-8. It fails with Toml if the text is not, and with OutOfMemory
/// only where there is no memory.
pub fn table_of(alloc: Global, text: &[u8]) -> Result<Table, ConfigFault>
    ensures ok { IfOk result (λ table. parse_document text.now ≡ Some (table_view table)) }
    ensures text { OnOk result (IsUtf8 text.now) }
    ensures toml { IfErr result (λ e. e ≢ ConfigFault.OutOfMemory → e ≡ ConfigFault.Toml) }
    ensures fault { IfErr result (λ e. e ≢ ConfigFault.OutOfMemory → IsUtf8 text.now
        → parse_document text.now ≡ None) }
{
    match toml::table_from_slice(alloc, text) {
        Ok(table) => Ok(table),
        Err(error) => {
            if error.is_memory() {
                Err(ConfigFault::OutOfMemory)
            } else {
                Err(ConfigFault::Toml)
            }
        }
    }
}

/// The value at a key.
pub(crate) fn value_at<'a>(table: &'a Table, key: &str) -> Option<&'a Value>
    ensures { option_map (λ v. view v.now) result ≡ get_member key.now (table_view table.now) }
{
    table.get(key)
}

/// The text that a value is.
fn text_in(value: &Value) -> Result<&[u8], ConfigFault>
    ensures ok { IfOk result (λ text. text_in (view value.now) ≡ Ok text.now) }
    ensures fault { IfErr result (λ e. text_in (view value.now) ≡ Err e) }
{
    match value.as_str() {
        Some(text) => Ok(text.as_bytes()),
        None => Err(ConfigFault::Missing),
    }
}

/// The whole number that a value is.
fn number_in(value: &Value) -> Result<i64, ConfigFault>
    ensures { result ≡ number_in (view value.now) }
{
    match value.as_integer() {
        Some(number) => Ok(number),
        None => Err(ConfigFault::Missing),
    }
}

/// The elements of the array that a value is.
#[tactic(auto, using(crate::proofs::ElementLemmas::elements_items))]
fn elements_in(value: &Value) -> Result<&[Value], ConfigFault>
    ensures ok { IfOk result (λ values. elements_in (view value.now) ≡ Ok (map view values.now)) }
    ensures fault { IfErr result (λ e. elements_in (view value.now) ≡ Err e) }
{
    match value.as_array() {
        Some(array) => Ok(array.as_slice()),
        None => Err(ConfigFault::Missing),
    }
}

/// The table that a value is.
pub fn table_in(value: &Value) -> Result<&Table, ConfigFault>
    ensures ok { IfOk result (λ table. table_in (view value.now) ≡ Ok (table_view table.now)) }
    ensures fault { IfErr result (λ e. table_in (view value.now) ≡ Err e) }
{
    match value.as_table() {
        Some(table) => Ok(table),
        None => Err(ConfigFault::Missing),
    }
}

/// The text at a key.
#[tactic(auto, unfolding(crate::specs::Keys::text_at))]
pub fn text_at<'a>(table: &'a Table, key: &str) -> Result<&'a [u8], ConfigFault>
    ensures ok { IfOk result (λ text. text_at key.now (table_view table.now) ≡ Ok text.now) }
    ensures fault { IfErr result (λ e. text_at key.now (table_view table.now) ≡ Err e) }
{
    match value_at(table, key) {
        Some(value) => text_in(value),
        None => Err(ConfigFault::Missing),
    }
}

/// The text at a key that may be missing.
#[tactic(auto, unfolding(crate::specs::Keys::text_if_any))]
pub fn text_if_any<'a>(table: &'a Table, key: &str) -> Result<Option<&'a [u8]>, ConfigFault>
    ensures ok { IfOk result (λ text. text_if_any key.now (table_view table.now) ≡ Ok (option_map (λ t. t.now) text)) }
    ensures fault { IfErr result (λ e. text_if_any key.now (table_view table.now) ≡ Err e) }
{
    match value_at(table, key) {
        Some(value) => Ok(Some(text_in(value)?)),
        None => Ok(None),
    }
}

/// The whole number at a key.
#[tactic(auto, unfolding(crate::specs::Keys::number_at))]
pub fn number_at(table: &Table, key: &str) -> Result<i64, ConfigFault>
    ensures { result ≡ number_at key.now (table_view table.now) }
{
    match value_at(table, key) {
        Some(value) => number_in(value),
        None => Err(ConfigFault::Missing),
    }
}

/// The whole number at a key that may be missing.
#[tactic(auto, unfolding(crate::specs::Keys::number_if_any))]
pub fn number_if_any(table: &Table, key: &str) -> Result<Option<i64>, ConfigFault>
    ensures { result ≡ number_if_any key.now (table_view table.now) }
{
    match value_at(table, key) {
        Some(value) => Ok(Some(number_in(value)?)),
        None => Ok(None),
    }
}

/// The elements of the array at a key.
#[tactic(auto, unfolding(crate::specs::Keys::elements_at))]
pub fn elements_at<'a>(table: &'a Table, key: &str) -> Result<&'a [Value], ConfigFault>
    ensures ok { IfOk result (λ values. elements_at key.now (table_view table.now) ≡ Ok (map view values.now)) }
    ensures fault { IfErr result (λ e. elements_at key.now (table_view table.now) ≡ Err e) }
{
    match value_at(table, key) {
        Some(value) => elements_in(value),
        None => Err(ConfigFault::Missing),
    }
}

/// A whole number from 1 to the greatest allowed.
pub fn number_up_to(most: usize, number: i64) -> Result<usize, ConfigFault>
    ensures value { result ≡ number_up_to most number }
    ensures some { IfOk result (λ n. 1 ≤ n) }
    ensures limit { IfOk result (λ n. n ≤ most) }
{
    match usize::try_from(number) {
        Ok(number) if 1 <= number && number <= most => Ok(number),
        _ => Err(ConfigFault::Limit),
    }
}

/// A copy of a text that is within its limits, where a test says so.
pub fn copied_if(alloc: Global, is_within: bool, text: &[u8]) -> Result<Vec<u8>, ConfigFault>
    ensures ok { IfOk result (λ copy. (is_within ≡ true) × (copy.items ≡ text.now)) }
    ensures fault { IfErr result (λ e. e ≢ ConfigFault.OutOfMemory → within_if is_within text.now ≡ Err e) }
{
    if !is_within {
        return Err(ConfigFault::Limit);
    }
    match text.to_vec(alloc) {
        Ok(copy) => Ok(copy),
        Err(_) => Err(ConfigFault::OutOfMemory),
    }
}
