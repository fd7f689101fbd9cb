//! Where records are written, as far as they can be made to last there.
ghost use Rattle.std.specs.Prelude.{◌≡◌, IfOk, List, None, option_map};
ghost use Rattle.std.specs.declared.option.Option.{Option};
ghost use Rattle.continued_files.specs.Lengths.{LengthValue};

use continued_files::FileLength;
use disk_files::FileFailure;
use reader_run::{Gathered, Nowhere};
use std::io;

/// Where records are written, as far as they can be made to last there.
pub trait Lasting {
    // These lengths are those of the files once all is made to last.
    ghost Lasts: { Self → Option (List LengthValue) → Type 0 };

    /// Makes all records last that were written so far, and then tells how many records of each file don't come again;
    /// None where no files are written.
    fn make_last(&self) -> Result<Option<Vec<FileLength>>, FileFailure>
        ensures { IfOk result (λ lengths. Lasts self.now (option_map (λ fs. fs.items) lengths)) };
}

impl Lasting for Nowhere {
    ghost Lasts = { λ _ lengths. lengths ≡ None };

    fn make_last(&self) -> Result<Option<Vec<FileLength>>, FileFailure> {
        Ok(None)
    }
}

/// What was written has been handed on.
impl<S> Lasting for Gathered<S> {
    ghost Lasts = { λ _ lengths. lengths ≡ None };

    fn make_last(&self) -> Result<Option<Vec<FileLength>>, FileFailure> {
        Ok(None)
    }
}

/// What is said of something that could not be made to last, if the system says nothing.
pub fn unlasting(failure: Option<FileFailure>) -> FileFailure {
    match failure {
        Some(failure) => failure,
        None => FileFailure {
            path: None,
            reason: io::Error::from(io::ErrorKind::Other),
        },
    }
}
