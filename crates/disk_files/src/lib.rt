//! Files of records on the disk: below a folder under their names, or one alone.
#![tactic(auto)]

mod disk_files;
mod new_files;
mod open_file;
mod open_files;
mod output;

pub use disk_files::{DiskFiles, FileFailure, FilePlace};
pub use output::{ContinuedOutput, ONE_FILE};
