//! A configuration and the text that spells it, read once.
ghost use Rattle.std.specs.Prelude.{◌≡◌};

use catalog::keys::table_of;
use catalog::{Config, ConfigError, ConfigFault, Step};
use std::alloc::Global;
use std::marker::Model;
use toml::Table;

/// A configuration and the text that spells it, which is read once for all that is said of it. In a contract it is the
/// configuration and the text.
#[derive(Drop)]
pub struct ConfigText {
    config: Config,
    table: Table,
    text: Vec<u8>,
}

impl Model for ConfigText {
    ghost use Rattle.std.specs.Prelude.{◌≡◌, Ok, Some};
    ghost use Rattle.std.specs.Str.{IsUtf8};
    ghost use Rattle.toml.specs.Parse.{parse_document};
    ghost use Rattle.toml.specs.View.{table_view};
    ghost use Rattle.catalog.specs.Reading.{config_of};
    ghost use Rattle.config_explained.specs.ConfigTexts.{ConfigTextValue};

    ghost Value = { ConfigTextValue };

    ghost view = { λ s. record { config = s.config; text = s.text.items } };

    ghost invariant = { λ s. IsUtf8 s.text.items × (parse_document s.text.items ≡ Some (table_view s.table))
        × (config_of (table_view s.table) ≡ Ok s.config) };
}

/// A text that is no configuration, and at which step of its reading it failed.
#[derive(Drop)]
pub struct RefusedText {
    pub error: ConfigError,
    pub text: Vec<u8>,
}

/// A text for whose table there was no memory.
fn unread(text: Vec<u8>) -> RefusedText
    ensures fault { result.error.fault ≡ ConfigFault.OutOfMemory }
    ensures text { result.text.items ≡ text.items }
{
    RefusedText {
        error: ConfigError {
            fault: ConfigFault::OutOfMemory,
            step: Step::Text,
            network: None,
            code: None,
        },
        text,
    }
}

impl ConfigText {
    ghost use Rattle.std.specs.Prelude.{◌≡◌, ◌≢◌, Err, IfErr, IfOk, Ok};
    ghost use Rattle.std.specs.Str.{IsUtf8};
    ghost use Rattle.toml.specs.Parse.{parse_document};
    ghost use Rattle.toml.specs.View.{table_view};
    ghost use Rattle.catalog.specs.Failing.{FailsAt};
    ghost use Rattle.catalog.specs.Reading.{config_read};
    ghost use Rattle.catalog.specs.declared.error.Step.TheVariants.{Text};
    ghost use Rattle.config_explained.specs.ConfigTexts.{keys_of};

    /// Reads the text of a configuration. At a fault it gives the text back, and says which step failed: the first that
    /// does.
    pub fn read(alloc: Global, text: Vec<u8>) -> Result<ConfigText, RefusedText>
        ensures config { IfOk result (λ read. config_read (parse_document text.items) ≡ Ok read.config) }
        ensures text { IfOk result (λ read. read.text ≡ text.items) }
        ensures fault { IfErr result (λ e. e.error.fault ≢ ConfigFault.OutOfMemory → IsUtf8 text.items
            → config_read (parse_document text.items) ≡ Err e.error.fault) }
        ensures no_text { IfErr result (λ e. e.error.fault ≢ ConfigFault.OutOfMemory → ¬ IsUtf8 text.items
            → e.error.fault ≡ ConfigFault.Toml) }
        ensures step { IfErr result (λ e. e.error.fault ≢ ConfigFault.OutOfMemory → IsUtf8 text.items
            → FailsAt (parse_document text.items) e.error) }
        ensures given { IfErr result (λ e. e.text.items ≡ text.items) }
    {
        let config = match Config::read_by_steps(alloc, text.as_slice()) {
            Ok(config) => config,
            Err(error) => return Err(RefusedText { error, text }),
        };
        match table_of(alloc, text.as_slice()) {
            Ok(table) => Ok(ConfigText {
                config,
                table,
                text,
            }),
            Err(_) => Err(unread(text)),
        }
    }

    /// The configuration.
    pub fn config(&self) -> &Config
        ensures { result.now ≡ self.now.config }
    {
        &self.config
    }

    /// The configuration alone.
    pub fn into_config(self) -> Config
        ensures { result ≡ self.config }
    {
        self.config
    }

    /// The text.
    pub fn text(&self) -> &[u8]
        ensures { result.now ≡ self.now.text }
    {
        self.text.as_slice()
    }

    /// The table that the text spells.
    pub(crate) fn table(&self) -> &Table
        ensures { table_view result.now ≡ keys_of self.now.text }
    {
        &self.table
    }
}
