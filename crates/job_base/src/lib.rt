//! What the jobs of `seedlinkd` share: servers that words name, files that are read whole, configurations
//! among them, and what stands between a job and its device. It does not know which job does what, and when.
#![tactic(auto)]

mod begun;
mod colours;
mod configured;
mod descriptors;
mod endpoint;
mod faults;
mod found;
mod inputs;
mod lists;
mod misspelled;
mod plain_files;
mod progress;
mod reasons;
mod remarked;
mod servers;
mod several;
mod standard_error;
mod telling;
mod times;

pub use begun::{BegunFile, FirstBytes};
pub use colours::{allows_colours, has_colours, has_output_colours, line_start};
pub use configured::ConfiguredStations;
pub use descriptors::descriptor_limit;
pub use endpoint::Endpoint;
pub use found::refused_records;
pub use inputs::{
    config_at, config_in, judged_config_at, judged_config_in, lines_of, open, text_at, text_in,
    unopened,
};
pub use lists::refused_list;
pub use misspelled::{checked_config_at, refuse_unknown, tell_unknown_keys, unknown_lines};
pub use plain_files::{plain_at, plain_text_at};
pub use progress::{Progress, Watched, is_output_terminal, is_terminal, size_of};
pub use reasons::ReasonKeeper;
pub use remarked::{tell_list_remarks, tell_remarks};
pub use servers::{ServerAddress, connect, connection, server_of, unconnected};
pub use several::Several;
pub use standard_error::ErrorOutput;
pub use telling::{tell_incident, tell_lines};
pub use times::times_of;
