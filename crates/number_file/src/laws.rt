//! What follows of the text that is written and of what it says.
ghost use Rattle.std.specs.Prelude.{◌≡◌, Ok, All, List, Option, map};
ghost use Rattle.toml.specs.Data.{Members};
ghost use Rattle.toml.specs.Parse.{parse_document};
ghost use Rattle.protocol.specs.Catalog.{Config};
ghost use Rattle.catalog.specs.Numbers.{Numbered, config_by, numbered};
ghost use Rattle.catalog.specs.Reading.{config_read};
ghost use Rattle.number_file.specs.Keeping.{AreKeepable, IsKeepable};
ghost use Rattle.number_file.specs.Reading.{numbers_read};
ghost use Rattle.number_file.specs.Text.{text_of};

/// The text that is written of numbers is read as them, if there are any and each can be kept.
pub fn numbers_come_back()
    ensures { (numbers : List Numbered) → AreKeepable numbers →
        numbers_read (parse_document (text_of numbers)) ≡ Ok numbers }
{}

/// The first numbers of the stations of a configuration that was read can be kept, and so can what a file of numbers
/// says, and those of stations that begin with that.
pub fn what_is_read_can_be_kept()
    ensures stations { (text : Option Members) (config : Config) → config_read text ≡ Ok config →
        AreKeepable (map numbered config.entries) }
    ensures numbers { (text : Option Members) (numbers : List Numbered) → numbers_read text ≡ Ok numbers →
        All IsKeepable numbers }
    ensures begun { (kept : List Numbered) (config : Config) → All IsKeepable kept →
        AreKeepable (map numbered config.entries) → AreKeepable (map numbered (config_by kept config).entries) }
{}
