//! The job `feed`: records of files go to a server's feed port, until the server has read them all.
#![tactic(auto)]

mod aligned;
mod fault;
mod feed;
mod feeding;
mod feeds;
mod judging;
mod lines;
mod looks;
mod sent;
mod skipping;
mod waiting;

pub use aligned::{Aligned, Stretch, first_beginning};
pub use fault::FeedFault;
pub use feed::SentFeed;
pub use feeding::await_end;
pub use feeds::{FeedProgress, FeedRules, feed_files, send_files};
pub use lines::FeedLine;
pub use sent::{FileRecord, SentRecords};
