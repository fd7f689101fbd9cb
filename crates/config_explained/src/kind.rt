//! Kinds of values.
ghost use Rattle.std.specs.Prelude.{◌≡◌, option_map};
ghost use Rattle.toml.specs.View.{view};
ghost use Rattle.config_explained.specs.Kinds.{kind_in, kind_of};

use std::fmt::{self, Display, Formatter, Write};
use toml::Value;

/// What a value of TOML is, or that none is there.
#[derive(Clone, Copy, Drop)]
pub enum ValueKind {
    Nothing,
    Text,
    WholeNumber,
    Fraction,
    Truth,
    Moment,
    Array,
    /// An array of tables. No value is found to be one: it is only wanted.
    Tables,
    Table,
}

impl ValueKind {
    /// The kind of a value.
    fn in_value(value: &Value) -> ValueKind
        ensures { result ≡ kind_in (view value.now) }
    {
        if value.is_str() {
            ValueKind::Text
        } else if value.is_integer() {
            ValueKind::WholeNumber
        } else if value.is_float() {
            ValueKind::Fraction
        } else if value.is_bool() {
            ValueKind::Truth
        } else if value.is_datetime() {
            ValueKind::Moment
        } else if value.is_array() {
            ValueKind::Array
        } else {
            ValueKind::Table
        }
    }

    /// The kind of a value, if one is there.
    pub(crate) fn of(value: Option<&Value>) -> ValueKind
        ensures { result ≡ kind_of (option_map (λ v. view v.now) value.entry) }
    {
        match value {
            Some(value) => ValueKind::in_value(value),
            None => ValueKind::Nothing,
        }
    }
}

impl Display for ValueKind {
    fn fmt<W: Write>(&self, f: &mut Formatter<W>) -> fmt::Result {
        f.write_str(match self {
            ValueKind::Nothing => "nothing",
            ValueKind::Text => "a text",
            ValueKind::WholeNumber => "a whole number",
            ValueKind::Fraction => "a number with a fraction",
            ValueKind::Truth => "true or false",
            ValueKind::Moment => "a date or a time",
            ValueKind::Array => "an array",
            ValueKind::Tables => "an array of tables, each under [[station]]",
            ValueKind::Table => "a table",
        })
    }
}
