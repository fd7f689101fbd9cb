//! What a state says.
use crate::writing::put_state;
use continued_files::FileLength;
use slreader::LastPacket;
use std::alloc::{AllocError, Global};
use std::marker::Model;

/// What a state says: how far each station is, and how many records of each file these numbers count.
#[derive(Drop)]
pub struct KeptState {
    pub(crate) lasts: Vec<LastPacket>,
    pub(crate) files: Vec<FileLength>,
}

impl Model for KeptState {
    ghost use Rattle.reader_state.specs.States.{StateValue};

    ghost Value = { StateValue };

    ghost view = { λ s. record { lasts = s.lasts.items; files = s.files.items } };
}

impl KeptState {
    ghost use Rattle.std.specs.Prelude.{◌≡◌, ◌++◌, ◌∷◌, [], OnOk};
    ghost use Rattle.reader_state.specs.States.{state_text};

    /// Nothing.
    pub fn new(alloc: Global) -> KeptState
        ensures { result ≡ record { lasts = []; files = [] } }
    {
        KeptState {
            lasts: Vec::new(alloc),
            files: Vec::new(alloc),
        }
    }

    /// The last packet of each station.
    pub fn lasts(&self) -> &[LastPacket]
        ensures { result.now ≡ self.now.lasts }
    {
        self.lasts.as_slice()
    }

    /// The lengths of files.
    pub fn files(&self) -> &[FileLength]
        ensures { result.now ≡ self.now.files }
    {
        self.files.as_slice()
    }

    /// Both.
    pub fn into_parts(self) -> (Vec<LastPacket>, Vec<FileLength>)
        ensures lasts { result.0.items ≡ self.lasts }
        ensures files { result.1.items ≡ self.files }
    {
        (self.lasts, self.files)
    }

    /// Whether it has the length of the file of that name.
    pub fn names(&self, name: &str) -> bool {
        self.files
            .iter()
            .any(|length| length.name() == name.as_bytes())
    }

    /// Adds the length of a file.
    pub fn put_file(&mut self, alloc: Global, name: &str, count: u64) -> Result<(), AllocError>
        ensures lasts { self.new.lasts ≡ self.old.lasts }
        ensures files { OnOk result (self.new.files
            ≡ self.old.files ++ record { name = name.now; count = count } ∷ []) }
    {
        self.files
            .push(FileLength::new(alloc, name.as_bytes(), count)?)?;
        Ok(())
    }

    /// Its text takes the place of another one.
    pub fn put_text(&self, text: &mut Vec<u8>) -> Result<(), AllocError>
        ensures { OnOk result (text.new.items ≡ state_text self.now) }
    {
        text.clear();
        put_state(text, self.lasts(), self.files())
    }
}
