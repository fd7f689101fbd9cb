//! Access lists and configurations by themselves.
use crate::clients::{DialogueAnswer, compare_numbers, compare_words};
use crate::fault::Fault;
use crate::line::{DialogueLine, number_and_rest, word_and_rest};
use access_list::{AccessList, address};
use catalog::Config;
use std::alloc::Global;
use std::fs;

/// Compares whether a list admits an address: `yes 10.0.0.7 10.0.0.0/8`, with the word, the address and the list.
fn compare_admission(alloc: Global, text: &str) -> DialogueAnswer {
    let (wanted, rest) = word_and_rest(text);
    let (word, entries) = word_and_rest(rest);
    let Some(address) = address(word.as_bytes()) else {
        return Err(Fault::Step);
    };
    match AccessList::parse(alloc, entries.as_bytes()) {
        Ok(list) => compare_words(alloc, wanted, list.allows(address)),
        Err(_) => Err(Fault::Step),
    }
}

/// Compares the number with which a list is refused: `12 10.0.0.0/33`.
fn compare_refusal(alloc: Global, text: &str) -> DialogueAnswer {
    let (wanted, entries) = number_and_rest(text)?;
    let got = match AccessList::parse(alloc, entries.as_bytes()) {
        Ok(_) => 0,
        Err(fault) => fault.reason().number(),
    };
    compare_numbers(alloc, wanted as usize, got as usize)
}

/// Plays a line that is about an access list.
pub fn play_list(alloc: Global, line: &DialogueLine) -> DialogueAnswer {
    match line.verb {
        "admits" => compare_admission(alloc, line.rest),
        "refuse" => compare_refusal(alloc, line.rest),
        _ => Err(Fault::Step),
    }
}

/// Plays a line that is about the configuration of a file: `refuse 23 FILE`.
pub fn play_config(rt: &HostRuntime, line: &DialogueLine) -> DialogueAnswer {
    if line.verb != "refuse" {
        return Err(Fault::Step);
    }
    let (wanted, path) = number_and_rest(line.rest)?;
    let text = fs::read(rt, path)?;
    let got = match Config::read(rt.alloc(), text.as_slice()) {
        Ok(_) => 0,
        Err(fault) => fault.reason().number(),
    };
    compare_numbers(rt.alloc(), wanted as usize, got as usize)
}
