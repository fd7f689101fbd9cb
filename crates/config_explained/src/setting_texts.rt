//! What a configuration allows at each step of its reading, in words.
ghost use Rattle.std.specs.Prelude.{◌≡◌, option_map};
ghost use Rattle.config_explained.specs.SettingTexts.{allowed_at, key_of, kind_at, limit_of, wanted_of, words_of};

use crate::key::key_at;
use crate::kind::ValueKind;
use catalog::{StationStep, Step};

/// The words for a step that takes no key.
fn words_of(step: Step) -> Option<&'static str>
    ensures { option_map (λ text. text.now) result ≡ words_of step }
{
    match step {
        Step::Station(_, StationStep::Table) => Some("station"),
        Step::Station(_, StationStep::Codes) => Some("network and code"),
        _ => None,
    }
}

/// What a step allows that takes no key.
fn allowed_at(step: Step) -> &'static str
    ensures { result.now ≡ allowed_at step }
{
    match step {
        Step::Station(_, StationStep::Table) => "a table",
        Step::Station(_, StationStep::Codes) => "not those of an earlier station",
        _ => "TOML in UTF-8",
    }
}

/// The kind of value that such a step wants.
fn kind_at(step: Step) -> ValueKind
    ensures { result ≡ kind_at step }
{
    match step {
        Step::Station(_, StationStep::Table) => ValueKind::Table,
        _ => ValueKind::Nothing,
    }
}

/// The key whose value a step takes, or the words for a step that takes none, if there are any.
pub fn key_of(step: Step) -> Option<&'static str>
    ensures { option_map (λ text. text.now) result ≡ key_of step }
{
    match key_at(step) {
        Some(key) => Some(key.name()),
        None => words_of(step),
    }
}

/// What a step allows.
pub fn limit_of(step: Step) -> &'static str
    ensures { result.now ≡ limit_of step }
{
    match key_at(step) {
        Some(key) => key.row().limits,
        None => allowed_at(step),
    }
}

/// The kind of value that a step wants.
pub fn wanted_of(step: Step) -> ValueKind
    ensures { result ≡ wanted_of step }
{
    match key_at(step) {
        Some(key) => key.row().kind,
        None => kind_at(step),
    }
}
