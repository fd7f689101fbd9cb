//! What a configuration's text says to whoever wrote it. Findings: what stands where it is refused, beside what is wanted
//! there, and where two configurations differ first. Keys: those that are not known, since they may be misspelled. View:
//! the stations that an address sees, who may use each station, and what a new configuration changes for whom. The reading
//! itself is that of `catalog`.
#![tactic(auto)]

// what is read
mod config_text;
// findings
mod all_faults;
mod difference;
mod finding;
mod kind;
mod place;
mod refusal;
mod setting;
mod setting_texts;
mod value_line;
mod values;
// keys
mod first_lines;
mod key;
mod key_lines;
mod nearest;
mod owner;
mod shown_keys;
mod tables;
mod unknown;
// view
mod admission;
mod changes;
mod coverage;
mod entries;
mod gains;
mod group_changes;
mod holders;
mod lines;
mod lists;
mod naming;
mod network;
mod network_text;
mod opened;
mod parts;
mod remark;
mod seen;
mod silence;
mod users;

pub use all_faults::faults_of;
pub use changes::changes_of;
pub use config_text::{ConfigText, RefusedText};
pub use difference::{Difference, first_difference};
pub use finding::{ConfigFinding, finding_of, text_at};
pub use holders::{holder_of, holders_of};
pub use key::{Key, TableRow, reads_the_table};
pub use kind::ValueKind;
pub use lists::{ListOwner, list_owner};
pub use naming::unused_groups;
pub use network::Network;
pub use opened::open_to_everybody;
pub use parts::parts_of;
pub use place::{TextPlace, line_from, place_of};
pub use refusal::{FaultLine, RefusedConfig, RefusedEntry, cause_of};
pub use remark::{Remark, Remarked, list_remarks, remarks};
pub use seen::seen_by;
pub use setting::Setting;
pub use setting_texts::{key_of, limit_of, wanted_of};
pub use silence::{Silence, silences_of};
pub use unknown::unknown_keys;
pub use users::users_of;
pub use value_line::line_of;
