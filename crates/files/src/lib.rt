//! Files that a job keeps: where one is that a word names, its lock, how its text is read and replaced whole, the
//! folders that it lies in, and the clock by which that is done. What a disk holds is in no contract.
#![tactic(auto)]

mod clock;
mod folders;
mod locks;
mod places;
mod replacing;
mod texts;

pub use clock::{microseconds, milliseconds};
pub use folders::{folder_of, make_folders, sync_folder_of};
pub use locks::{LockFault, is_named, lock_at};
pub use places::{not_plain, place_of, plain_at};
pub use replacing::replace;
pub use texts::text_in;
