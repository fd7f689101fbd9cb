//! The job `read`: servers that are asked one after the other, the moments that are asked for, where lines and records
//! go, and the file that says how far a reader is. It does not know how a server is spoken with, nor what a line says.
#![tactic(auto)]

mod adding;
mod answers;
mod archiving;
mod asking;
mod begins;
mod connections;
mod course;
mod endings;
mod following;
mod heard_records;
mod hearing;
mod inlet;
mod jumps;
mod keep_time;
mod lasting;
mod locks;
mod moment;
mod notices;
mod part_texts;
mod patience;
mod places;
mod reading;
mod returns;
mod rows;
mod sent;
mod sides;
mod states;
mod together;
mod torn;
mod unplaced;
mod want_lines;
mod wants;
mod windows;

pub use reading::read_servers;
