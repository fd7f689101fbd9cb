//! An archive of records in folders: each record is put at the end of the file of its stream and day, as the SeisComP
//! Data Structure has them.
#![tactic(auto)]

mod archive;
mod continued;
mod folders;
mod law;
mod locks;
mod path;
mod place;
mod placing;
mod stations;
mod streams;

pub use archive::Archive;
pub use folders::Folders;
pub use law::{are_below_their_station, are_put_apart};
pub use locks::{StationLocks, TopFault, lock_stations};
pub use place::Place;
pub use placing::{ArchiveFault, Placed};
pub use stations::StationCodes;
