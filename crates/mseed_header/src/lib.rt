//! Headers of data records of 512 bytes: what a record says of itself, read in place, and records made of fields.
//!
//! A record is the fixed section of data header of the SEED Reference Manual 2.4, chapter 8, with a chain of blockettes
//! behind it. No call takes memory.
#![tactic(auto)]

mod chain;
mod codes;
mod extent;
mod fields;
mod header;
mod layout;
mod making;
mod numbers;

pub use codes::trimmed;
pub use fields::Fields;
pub use header::{Header, read};
pub use making::{FieldFault, make};
pub use protocol::record::{ByteOrder, Kind, RecordFault};
