//! The numbers that a server keeps.
ghost use Rattle.std.specs.Prelude.{◌≡◌, ◌<◌, ◌++◌, filter, map, length, slice_set};
ghost use Rattle.std.specs.Prelude.{slice_get, All, IfOk, Ok, OnOk, Some};
ghost use Rattle.toml.specs.Parse.{parse_document};
ghost use Rattle.catalog.specs.Numbers.{Numbered, numbered};
ghost use Rattle.number_file.specs.Keeping.{AreKeepable, IsKeepable};
ghost use Rattle.number_file.specs.Reading.{numbers_read};
ghost use Rattle.number_file.specs.Tables.{is_of_another, with_next};
ghost use Rattle.number_file.specs.Text.{text_of};

use crate::writing::push_numbers;
use catalog::{Config, KeptNumber, Station};
use sl_packet::Seq;
use std::alloc::{AllocError, Global};
use std::marker::Model;

/// The numbers of a file: those of a configuration's stations, in its order, and then those of other stations.
#[derive(Drop)]
pub struct NumberTable {
    numbers: Vec<KeptNumber>,
}

impl Model for NumberTable {
    ghost use Rattle.std.specs.Prelude.{List};
    ghost use Rattle.catalog.specs.Numbers.{Numbered};
    ghost use Rattle.number_file.specs.Keeping.{AreKeepable};

    ghost Value = { List Numbered };

    ghost view = { λ t. t.numbers.items };

    ghost invariant = { λ t. AreKeepable t.numbers.items };
}

impl NumberTable {
    /// The first numbers of a configuration's stations, and of what was kept the numbers of stations that it does not
    /// have. All of them can be kept. Only memory can lack.
    pub fn new(
        alloc: Global,
        config: &Config,
        kept: &[KeptNumber],
    ) -> Result<NumberTable, AllocError>
        requires stations { AreKeepable (map numbered config.now.entries) }
        requires kept { All IsKeepable kept.now }
        ensures { IfOk result (λ table. table
            ≡ map numbered config.now.entries ++ filter (is_of_another config.now) kept.now) }
    {
        let mut numbers = first_numbers(alloc, config.stations())?;
        add_others(alloc, &mut numbers, config, kept)?;
        Ok(NumberTable { numbers })
    }

    /// The number at a place is another one. At a place that is not there nothing changes.
    pub fn set(&mut self, place: usize, next: Seq)
        ensures { self.new ≡ with_next self.old place next }
    {
        let _below = next.value();
        set_next(&mut self.numbers, place, next);
    }

    /// Its text takes the place of another text. It is read as this table. It takes no memory where there is room for it.
    pub fn write(&self, text: &mut Vec<u8>) -> Result<(), AllocError>
        ensures text { OnOk result (text.new.items ≡ text_of self.now) }
        ensures read { OnOk result (numbers_read (parse_document text.new.items) ≡ Ok self.now) }
    {
        text.clear();
        push_numbers(text, self.numbers.as_slice())
    }
}

/// The number at a place is another one, where one is there.
fn set_next(numbers: &mut Vec<KeptNumber>, place: usize, next: Seq)
    ensures { numbers.new.items ≡ with_next numbers.old.items place next }
{
    if place < numbers.len() {
        numbers[place].set_next(next);
    }
}

/// The first numbers of stations.
fn first_numbers(alloc: Global, stations: &[Station]) -> Result<Vec<KeptNumber>, AllocError>
    ensures { IfOk result (λ numbers. numbers.items ≡ map numbered stations.now) }
{
    let mut numbers = Vec::new(alloc);
    for station in stations {
        numbers.push(KeptNumber::of(alloc, station)?)?;
    }
    Ok(numbers)
}

/// Adds the numbers that are kept for stations which a configuration does not have.
fn add_others(
    alloc: Global,
    numbers: &mut Vec<KeptNumber>,
    config: &Config,
    kept: &[KeptNumber],
) -> Result<(), AllocError>
    ensures { OnOk result (numbers.new.items ≡ numbers.old.items ++ filter (is_of_another config.now) kept.now) }
{
    for number in kept {
        if is_of_another(config, number) {
            numbers.push(number.copy(alloc)?)?;
        }
    }
    Ok(())
}

/// Whether a number is kept for a station that a configuration does not have.
fn is_of_another(config: &Config, number: &KeptNumber) -> bool
    ensures { result ≡ is_of_another config.now number.now }
{
    config.place_of(number.network(), number.code()).is_none()
}
