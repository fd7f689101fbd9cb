//! Plays dialogues with a server, which stand in files: `dialogues FILE..`. For each file it prints `FILE ok`, or the
//! first line that is not answered as it wants, with what came instead. The status is 1 if there is one.
//!
//! A line is empty, a remark that begins with `#`, or a subject, a verb and the rest, with a space between them. `not`
//! before a line says that something else comes than it wants, and `64 times` that it is played so often, or the lines
//! that ` ; ` separates, one after the other.
//!
//! | Line | What it says |
//! |---|---|
//! | `server config FILE` | a new server has the configuration of a file; nobody came to it |
//! | `server reload FILE` | it reads a configuration again, and accepts it |
//! | `server refuse 34 FILE` | it reads a configuration again, and refuses it with that number |
//! | `B open 172.16.0.9` | client B comes from an address |
//! | `B > HELLO` | B sends a line, with a carriage return |
//! | `B >> HEL` | B sends these bytes |
//! | `B refused 31 \1025*A` | B sends these bytes, and they are refused with that number |
//! | `B room 1024` | B may send so many bytes |
//! | `B < OK` | B is handed this line, with a carriage return and a line feed |
//! | `B << END` | B is handed these bytes |
//! | `B packet FFFFFE w1` | B is handed the packet of that number and record |
//! | `B nothing` | B is handed no byte, and its connection goes on |
//! | `B end` | B is handed no byte, and its connection is over |
//! | `B take 2080x1` | B takes one byte, 2,080 times |
//! | `B marked yes` | an offer to B may find something (`no`: it would not) |
//! | `B ready yes` | an offer to B would find something |
//! | `B close` | B's connection ends; its name may be given again |
//! | `B gone yes` | the server knows no open client B, in each of its calls |
//! | `w1 arrive GE WLF -- BHZ 2024,60,0,0,0,0 100` | a record arrives and is called w1: a line of a script, as is `w1
//! arrive-hex HEX` |
//! | `w1 number FFFFFE` | w1 was given that number |
//! | `x refuse 32 arrive GE NONE -- BHZ 2024,60,0,0,0,0 100` | a record arrives, and is refused with that number |
//! | `reader wants GE_WLF:BH? GE_APE` | a reader is to ask for these |
//! | `reader sent SeedLink v3.0\r\n` | its server sends these bytes and no more, whatever it is asked |
//! | `reader asks HELLO\r` | the reader asked this; after a fault perhaps only a beginning of it |
//! | `reader prints refused GE APE\n` | the reader printed this |
//! | `reader fault 42` | this fault ended it; 0 for none |
//! | `records FILE,FILE lines LISTING` | a check of files of records prints what stands in LISTING; `streams` instead
//! of `lines` for the lines of streams alone, `dates` for both with times as dates, `gaps` for gaps and overlaps alone,
//! `all` for all of these with times as dates |
//! | `records FILE fault 4 2 512` | the first fault is number 4, of the second record, which begins after 512 bytes; or
//! `none` |
//! | `list admits yes 10.0.0.7 10.0.0.0/8` | this access list admits the address |
//! | `list refuse 12 10.0.0.0/33` | this access list is refused with that number |
//! | `config refuse 23 FILE` | this configuration is refused with that number |
//!
//! What B is handed is all that it took since it was last compared. If that is shorter than what is wanted, or nothing
//! is wanted, B first takes 520 bytes more: so `B < OK` alone compares a whole answer. Bytes are spelled with `\r`,
//! `\n` and `\\`; `\xff` is any byte by its two hexadecimal digits, and `\251*A` is A 251 times.
#![tactic(auto)]

mod clients;
mod fault;
mod line;
mod listings;
mod lists;
mod playing;
mod readers;
mod records;
mod spelling;
mod stage;

use fault::Fault;
use playing::play_file;
use std::env;
use std::process::ExitCode;

/// Plays the dialogues of the files that the command line names. Whether all are answered as they want.
fn play_all(rt: &HostRuntime) -> Result<bool, Fault> {
    let mut is_right = true;
    for (place, word) in env::args(rt)?.enumerate() {
        if place > 0 && !play_file(rt, word.as_str())? {
            is_right = false;
        }
    }
    Ok(is_right)
}

fn main(rt: HostRuntime) -> ExitCode {
    match play_all(&rt) {
        Ok(true) => ExitCode::SUCCESS,
        _ => ExitCode::FAILURE,
    }
}
