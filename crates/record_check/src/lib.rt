//! Listings of files of records: a line a record, one for each stream, and what is wrong with the file (SEED Reference
//! Manual 2.4, chapter 8).
#![tactic(auto)]

mod check;
mod fault;
mod feed_tally;
mod finding;
mod kinds;
mod listing;
mod options;
mod runs;
mod stations;
mod stream_list;
mod stream_name;
mod streams;
mod texts;

pub use check::{RecordCheck, check_records};
pub use fault::FileFault;
pub use feed_tally::{Detail, FeedTally, PaddedCodes, RefusedRecord};
pub use finding::Finding;
pub use kinds::{FileKind, FoundRecord, kind_of};
pub use options::{ListingOptions, Times};
pub use runs::Extent;
pub use stations::{AllStations, Stations};
pub use stream_name::StreamName;
pub use texts::{kind_letter, put_header};
