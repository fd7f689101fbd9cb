//! The table of all faults, which `--help faults` prints.

use protocol::reason::Reason;
use std::alloc::{AllocError, Global};

/// What stands above the table.
const HEAD: &str =
    "A fault is the line `seedlinkd: N Name` on standard error, with status 1; -v explains it:\n\n";

/// Whether the words ask for the table: `--help faults`, or `-h faults`, behind the program's name and nothing else.
pub fn asks_for_faults(words: &[String]) -> bool {
    match words {
        [_program, option, topic] => {
            (option.as_str() == "--help" || option.as_str() == "-h") && topic.as_str() == "faults"
        }
        _ => false,
    }
}

/// The table: a line for each reason, in the order of their numbers, with its number, its name and what it means.
pub fn faults_text(alloc: Global) -> Result<String, AllocError> {
    let mut text = String::from_str(alloc, HEAD)?;
    for reason in Reason::all() {
        let line = format!(in alloc;
            "{:>4} {:<14}  {}\n",
            reason.number(),
            reason.name(),
            reason.cause()
        )?;
        text.push_str(line.as_str())?;
    }
    Ok(text)
}
