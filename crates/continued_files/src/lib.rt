//! Files of records in which readers go on one after the other, each stopped anywhere, so that each record stands in
//! its file once. Where the files lie is left to a trait.
#![tactic(auto)]

mod continued;
mod files;
mod hashes;
mod known;
mod lasting;
mod law;
mod lengths;
mod names;
mod tail;
mod turns;

pub use continued::ContinuedFiles;
pub use files::{FolderFault, RecordFiles};
pub use known::{Known, ShortFile, Unnamed};
pub use law::each_record_stands_once;
pub use lengths::FileLength;
pub use names::FileNames;
pub use tail::{Entry, Tail};
pub use turns::place_after;
