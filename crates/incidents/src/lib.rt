//! Why the program ends with status 1, and where that happened: what it reports by a number and a name, and what it
//! explains on request.
#![tactic(auto)]

mod failure;
mod incident;
mod site;

pub use failure::Failure;
pub use incident::{Incident, ToldIncident};
pub use site::{Detail, Place, Site};
