//! A SeedLink 3 server whose stations are open to stated addresses only, as a program of several jobs. It ends with
//! status 0 if its job was done or help was asked for; with status 1 at an input or device fault, of which the standard
//! error has the line `seedlinkd: N Name`, and on request lines that explain it; and with status 2 if the command line
//! is invalid. Before anything else, each of the three standard descriptors that is closed is opened on `/dev/null`.
#![tactic(auto)]

mod standard;
mod statuses;
mod work;

use incidents::Failure;
use standard::fill_closed;
use statuses::{failed, obey, told};
use std::process::ExitCode;
use std::{env, io};

/// The words of the command line, of which the first is the program's name.
fn given_words(rt: &HostRuntime) -> io::Result<Vec<String>> {
    let words = env::args(rt)?.collect(rt.alloc())?;
    Ok(words)
}

fn main(rt: HostRuntime) -> ExitCode {
    fill_closed(&rt);
    match given_words(&rt) {
        Ok(words) => obey(&rt, words.as_slice()),
        Err(error) => {
            if error.kind() == io::ErrorKind::OutOfMemory {
                failed(&rt, Failure::out_of_memory())
            } else {
                told(&rt, "error: a word is no UTF-8\n", false)
            }
        }
    }
}
