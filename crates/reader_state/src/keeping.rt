//! Where a state is kept, and how it is written anew there.
ghost use Rattle.std.specs.Prelude.{◌≡◌, ℕ, List, IfOk, OnErr, OnOk, Some, option_map};
ghost use Rattle.std.specs.declared.option.Option.{Option};
ghost use Rattle.reader_state.specs.Keeping.{KeepsState, files_after};
ghost use Rattle.reader_state.specs.States.{IsState, StateValue, are_apart, state_text};
ghost use Rattle.std.specs.Prelude.{true};

use crate::reading::{StateFault, read_doubled, read_state};
use crate::state::KeptState;
use crate::writing::write_state;
use continued_files::FileLength;
use slreader::{Tally, Want};
use std::alloc::{AllocError, Global};
use std::io;

/// A place at which the text of a state is kept. It may tell what it has.
pub trait StatePlace {
    // The text that it has, if that is told.
    ghost text: { Self → Option (List ℕ) };

    /// Its text; an empty one if nothing was kept there yet.
    fn read(&mut self) -> io::Result<Vec<u8>>
        ensures same { text self.new ≡ text self.old }
        ensures read { IfOk result (λ read. (t : List ℕ) → text self.old ≡ Some t → read.items ≡ t) };

    /// Another text takes the place of the one that it has. If it fails, that stays.
    fn replace(&mut self, more: &[u8]) -> io::Result<()>
        ensures replaced { OnOk result ((t : List ℕ) → text self.old ≡ Some t → text self.new ≡ Some more.now) }
        ensures stays { OnErr result (text self.new ≡ text self.old) };
}

/// Why a state was not kept.
#[derive(Drop)]
pub enum UnkeptState {
    /// The place can't be read, or takes no text.
    Device(io::Error),
    /// What it has is no state.
    Invalid,
    /// Memory lacks.
    OutOfMemory,
}

/// What a text says, and whether it has several lines of a station, as an earlier version wrote them.
pub fn read_any(alloc: Global, text: &[u8]) -> Result<(KeptState, bool), StateFault>
    ensures apart { IfOk result (λ said. are_apart said.0.lasts ≡ true) }
    ensures back { IfOk result (λ said. (s : StateValue) → IsState s → text.now ≡ state_text s → said.0 ≡ s) }
{
    match read_state(alloc, text) {
        Ok(state) => Ok((state, false)),
        Err(StateFault::OutOfMemory) => Err(StateFault::OutOfMemory),
        Err(StateFault::Invalid) => match read_doubled(alloc, text) {
            Ok(state) => Ok((state, true)),
            Err(fault) => Err(fault),
        },
    }
}

/// What a place has by now.
fn state_at<S: StatePlace>(alloc: Global, place: &mut S) -> Result<KeptState, UnkeptState>
    ensures same { S.text place.new ≡ S.text place.old }
    ensures back { IfOk result (λ before. (t : List ℕ) → S.text place.old ≡ Some t
        → (s : StateValue) → IsState s → t ≡ state_text s → before ≡ s) }
{
    let text = match place.read() {
        Ok(text) => text,
        Err(reason) => return Err(UnkeptState::Device(reason)),
    };
    match read_any(alloc, &text) {
        Ok((state, _)) => Ok(state),
        Err(StateFault::OutOfMemory) => Err(UnkeptState::OutOfMemory),
        Err(StateFault::Invalid) => Err(UnkeptState::Invalid),
    }
}

/// The lengths of the files that are written, or those that were kept before if none are.
fn files_or<'a>(files: &'a Option<Vec<FileLength>>, before: &'a KeptState) -> &'a [FileLength]
    ensures { result.now ≡ files_after (option_map (λ fs. fs.items) files.now) before.now.files }
{
    match files {
        Some(files) => files.as_slice(),
        None => before.files(),
    }
}

/// The state is kept at a place: the last packet of each station of the wants, those of other stations as the place has
/// them by now, and the lengths of files, or those that the place has if no files are written. If it fails, the place
/// has what it had.
pub fn keep_state<S: StatePlace>(
    alloc: Global,
    place: &mut S,
    tally: &Tally,
    wants: &[Want<'_>],
    files: &Option<Vec<FileLength>>,
) -> Result<(), UnkeptState>
    ensures kept { OnOk result (KeepsState (S.text place.old) (S.text place.new) tally.now wants.now
        (option_map (λ fs. fs.items) files.now)) }
    ensures stays { OnErr result (S.text place.new ≡ S.text place.old) }
{
    let before = state_at(alloc, place)?;
    let files = files_or(files, &before);
    let mut text = Vec::new(alloc);
    let Ok(()) = write_state(alloc, &mut text, tally, wants, before.lasts(), files) else {
        return Err(UnkeptState::OutOfMemory);
    };
    match place.replace(&text) {
        Ok(()) => Ok(()),
        Err(reason) => Err(UnkeptState::Device(reason)),
    }
}

/// A place in memory, which tells its text.
#[derive(Drop)]
pub struct MemoryPlace {
    alloc: Global,
    text: Vec<u8>,
}

impl MemoryPlace {
    /// One that has that text.
    pub fn new(alloc: Global, text: Vec<u8>) -> MemoryPlace
        ensures { result.text ≡ text }
    {
        MemoryPlace { alloc, text }
    }

    /// Its text.
    pub fn text(&self) -> &[u8]
        ensures { result.now ≡ self.now.text.items }
    {
        self.text.as_slice()
    }
}

impl StatePlace for MemoryPlace {
    ghost text = { λ p. Some p.text.items };

    fn read(&mut self) -> io::Result<Vec<u8>> {
        match Vec::from_slice(self.alloc, self.text.as_slice()) {
            Ok(text) => Ok(text),
            Err(AllocError) => Err(io::Error::from(io::ErrorKind::OutOfMemory)),
        }
    }

    fn replace(&mut self, more: &[u8]) -> io::Result<()> {
        match Vec::from_slice(self.alloc, more) {
            Ok(text) => {
                self.text = text;
                Ok(())
            }
            Err(AllocError) => Err(io::Error::from(io::ErrorKind::OutOfMemory)),
        }
    }
}
