//! A small server, plainly written from docs/PROFILE.md alone, and random lines and records for it. Tests compare the
//! server with it; the two share no code but the making of records.
#![tactic(auto)]

pub mod draws;
mod history;
pub mod lines;
mod moments;
mod patterns;
pub mod plain;
pub mod records;
pub mod sites;
mod visitor;
mod words;

pub use plain::Plain;
