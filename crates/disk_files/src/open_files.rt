//! The files of records that are open.
//!
//! Each is found by its name. The file behind the one that was found last is tried first, since records of several
//! files come mostly by turns, and then that one, since a file is found more than once a record. If no more may be
//! open, one is let go that was not used for long. A hand goes round over them: it passes over each that was found
//! since it came by last, and the first that was not is let go.
ghost use Rattle.std.specs.Prelude.{◌≡◌, ◌<◌, IfSome, Some, length, string_bytes, true};
ghost use Rattle.disk_files.specs.Opened.{name_at};

use crate::open_file::OpenFile;
use continued_files::place_after;
use std::alloc::{AllocError, Global};
use std::collections::HashMap;
use std::num::NonZeroUsize;

/// A file that is open, by its name and its path.
#[derive(Drop)]
pub(crate) struct NamedFile {
    pub name: String,
    pub path: String,
    pub file: OpenFile,
    /// Whether it was found since the hand passed over it.
    pub is_found: bool,
}

/// Files that are open, up to some number.
#[derive(Drop)]
pub(crate) struct OpenFiles {
    alloc: Global,
    most: usize,
    pub all: Vec<NamedFile>,
    /// Where each stands.
    places: HashMap<String, usize>,
    /// The place of the file that was found last.
    last: usize,
    /// The place at which it is asked next whether a file can be let go.
    hand: usize,
}

impl OpenFiles {
    /// None is open, and so many may be.
    pub(crate) fn new(alloc: Global, most: NonZeroUsize) -> OpenFiles {
        OpenFiles {
            alloc,
            most: most.get(),
            all: Vec::new(alloc),
            places: HashMap::new(alloc),
            last: 0,
            hand: 0,
        }
    }

    /// Whether the file of that name stands at a place.
    fn is_at(&self, place: usize, name: &str) -> bool
        ensures within { result ≡ true → place < length self.now.all.items }
        ensures named { result ≡ true → name_at self.now.all.items place ≡ Some name.now }
    {
        match self.all.get(place) {
            Some(open) => open.name.as_str() == name,
            None => false,
        }
    }

    /// The place of the file of that name, if it is open.
    fn place_of(&self, name: &str) -> Option<usize>
        ensures within { IfSome result (λ at. at < length self.now.all.items) }
        ensures named { IfSome result (λ at. name_at self.now.all.items at ≡ Some name.now) }
    {
        let next = place_after(self.last, self.all.len());
        if self.is_at(next, name) {
            return Some(next);
        }
        if self.is_at(self.last, name) {
            return Some(self.last);
        }
        match self.places.get(name) {
            Some(place) if self.is_at(*place, name) => Some(*place),
            _ => None,
        }
    }

    /// The file of that name, if it is open.
    pub(crate) fn get(&self, name: &str) -> Option<&NamedFile>
        ensures named { IfSome result (λ found. string_bytes found.now.name ≡ name.now) }
    {
        let at = self.place_of(name)?;
        Some(&self.all[at])
    }

    /// The place of the file of that name, if it is open. It was found now.
    pub(crate) fn find(&mut self, name: &str) -> Option<usize>
        ensures within { IfSome result (λ at. at < length self.new.all.items) }
        ensures named { IfSome result (λ at. name_at self.new.all.items at ≡ Some name.now) }
    {
        let at = self.place_of(name)?;
        self.last = at;
        self.all[at].is_found = true;
        Some(at)
    }

    /// The same, where the one that was found last is tried first.
    pub(crate) fn find_again(&mut self, name: &str) -> Option<usize>
        ensures within { IfSome result (λ at. at < length self.new.all.items) }
        ensures named { IfSome result (λ at. name_at self.new.all.items at ≡ Some name.now) }
    {
        if self.is_at(self.last, name) {
            Some(self.last)
        } else {
            self.find(name)
        }
    }

    /// A file is no more one of them.
    fn remove_at(&mut self, at: usize) -> NamedFile
        requires within { at < length self.old.all.items }
        ensures named { name_at self.old.all.items at ≡ Some (string_bytes result.name) }
    {
        let gone = self.all.swap_remove(at);
        self.places.remove(gone.name.as_str());
        if let Some(moved) = self.all.get(at) {
            if let Some(place) = self.places.get_mut(moved.name.as_str()) {
                *place = at;
            }
        }
        gone
    }

    /// The file of that name is no more one of them.
    pub(crate) fn remove(&mut self, name: &str) -> Option<NamedFile>
        ensures named { IfSome result (λ gone. string_bytes gone.name ≡ name.now) }
    {
        let at = self.place_of(name)?;
        Some(self.remove_at(at))
    }

    /// The file at a place is no more one of them, if nothing was added to it for so many milliseconds.
    pub(crate) fn remove_idle(&mut self, at: usize, now: u64, time: u64) -> Option<NamedFile> {
        match self.all.get(at) {
            Some(open) if open.file.is_idle(now, time) => Some(self.remove_at(at)),
            _ => None,
        }
    }

    /// Whether the file under the hand was not found since the hand passed over it. If it was, the hand passes on.
    fn is_let_go(&mut self) -> bool {
        match self.all.get_mut(self.hand) {
            Some(open) if open.is_found => {
                open.is_found = false;
                self.hand = place_after(self.hand, self.all.len());
                false
            }
            Some(_) => true,
            None => {
                self.hand = 0;
                false
            }
        }
    }

    /// One that was not found for long is no more one of them.
    pub(crate) fn remove_old(&mut self) -> Option<NamedFile> {
        for _ in 0..=self.all.len() {
            if self.is_let_go() {
                break;
            }
        }
        let at = if self.hand < self.all.len() {
            self.hand
        } else {
            0
        };
        if at < self.all.len() {
            Some(self.remove_at(at))
        } else {
            None
        }
    }

    /// Whether no more may be open.
    pub(crate) fn is_full(&self) -> bool {
        self.all.len() >= self.most
    }

    /// One more is open.
    pub(crate) fn push(&mut self, open: NamedFile) -> Result<(), AllocError> {
        let name = String::from_str(self.alloc, open.name.as_str())?;
        self.all.reserve(1)?;
        self.places.insert(name, self.all.len())?;
        self.last = self.all.len();
        self.all.push(open)?;
        Ok(())
    }
}
