//! A reader of a server that sends what it was told to send, whatever it is asked.
use crate::clients::{DialogueAnswer, compare_numbers};
use crate::fault::Fault;
use crate::line::{DialogueLine, number_of};
use crate::spelling::{shown, spelled};
use reader_run::{Nowhere, PacketLines, Times, read_over};
use sl_io::{MemorySink, MemorySource};
use slreader::{Plan, Want, Window};
use std::alloc::Global;

/// What a reader is to ask for, and what came of it.
#[derive(Drop)]
pub struct DialogueReading {
    wants: String,
    asked: Vec<u8>,
    told: Vec<u8>,
    /// The number of the fault that ended it; 0 if it came to its end.
    fault: u8,
}

/// The plan that words separated by spaces spell, for what the server holds.
fn plan_of<'a>(alloc: Global, words: &'a str) -> Result<Plan<'a>, Fault> {
    let mut wants = Vec::new(alloc);
    for word in words.split(' ') {
        match Want::parse(alloc, word.as_bytes(), Window::Held { begin: None }) {
            Ok(want) => wants.push(want)?,
            Err(_) => return Err(Fault::Step),
        }
    }
    Ok(Plan::Multi(wants))
}

/// What comes of it if the server sends these bytes, so many at a time.
fn read_in(alloc: Global, wants: &str, sent: &[u8], most: usize) -> Result<DialogueReading, Fault> {
    let mut reader = MemorySource::in_pieces(sent, most.max(1));
    let mut writer = MemorySink::new(alloc);
    let mut out = MemorySink::new(alloc);
    let read = read_over(
        alloc,
        PacketLines::Each(Times::Ticks),
        plan_of(alloc, wants)?,
        &mut reader,
        &mut writer,
        &mut out,
        &mut Nowhere::new(),
    );
    let fault = match read {
        Ok(()) => 0,
        Err(fault) => fault.reason().number(),
    };
    Ok(DialogueReading {
        wants: String::from_str(alloc, wants)?,
        asked: writer.into_bytes(),
        told: out.into_bytes(),
        fault,
    })
}

/// Compares bytes with those that are wanted.
fn compare_bytes(alloc: Global, wanted: &[u8], got: &[u8]) -> DialogueAnswer {
    if wanted == got {
        return Ok(None);
    }
    Ok(Some(shown(alloc, got)?))
}

/// Whether the same is told, and the same fault comes, if the server's bytes come in other pieces.
fn is_same_in_pieces(alloc: Global, reading: &DialogueReading, sent: &[u8]) -> Result<bool, Fault> {
    for most in [1, 7] {
        let other = read_in(alloc, reading.wants.as_str(), sent, most)?;
        if other.fault != reading.fault || other.told.as_slice() != reading.told.as_slice() {
            return Ok(false);
        }
    }
    Ok(true)
}

impl DialogueReading {
    /// A reader that is to ask for these wants, and has not begun.
    pub fn new(alloc: Global, wants: &str) -> Result<DialogueReading, Fault> {
        Ok(DialogueReading {
            wants: String::from_str(alloc, wants)?,
            asked: Vec::new(alloc),
            told: Vec::new(alloc),
            fault: 0,
        })
    }

    /// The server sends bytes.
    fn send(&mut self, alloc: Global, text: &str) -> DialogueAnswer {
        let sent = spelled(alloc, text, b"")?;
        let read = read_in(alloc, self.wants.as_str(), sent.as_slice(), 520)?;
        *self = read;
        if is_same_in_pieces(alloc, self, sent.as_slice())? {
            return Ok(None);
        }
        Ok(Some(String::from_str(alloc, "something else in pieces")?))
    }

    /// Compares what the reader asked. After a fault some of it may not have been sent.
    fn compare_asked(&self, alloc: Global, text: &str) -> DialogueAnswer {
        let wanted = spelled(alloc, text, b"")?;
        if self.fault != 0 && wanted.as_slice().starts_with(self.asked.as_slice()) {
            return Ok(None);
        }
        compare_bytes(alloc, wanted.as_slice(), self.asked.as_slice())
    }

    /// Plays a line that is about the reader.
    pub fn play(&mut self, alloc: Global, line: &DialogueLine) -> DialogueAnswer {
        match line.verb {
            "sent" => self.send(alloc, line.rest),
            "asks" => self.compare_asked(alloc, line.rest),
            "prints" => {
                let wanted = spelled(alloc, line.rest, b"")?;
                compare_bytes(alloc, wanted.as_slice(), self.told.as_slice())
            }
            "fault" => compare_numbers(alloc, number_of(line.rest)?, self.fault as usize),
            _ => Err(Fault::Step),
        }
    }
}
