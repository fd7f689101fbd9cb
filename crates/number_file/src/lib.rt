//! The file in which a server keeps numbers for its next run: for each station the number that its first record is to
//! have then. What the file's text says, and the text that is written.
//!
//! The file of numbers stands for `first`, also where a configuration is read again: what was read at the start is put
//! into the new configuration before it is compared. An empty file is refused, since it may be the rest of one that was
//! lost; one that is not there is a first start.
#![tactic(auto)]

mod laws;
mod reading;
mod table;
mod writing;

pub use laws::{numbers_come_back, what_is_read_can_be_kept};
pub use reading::read_numbers;
pub use table::NumberTable;
