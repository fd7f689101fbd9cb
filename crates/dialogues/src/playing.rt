//! A whole dialogue.
use crate::clients::DialogueAnswer;
use crate::fault::Fault;
use crate::line::{DialogueLine, line_of, number_of};
use crate::listings::play_records;
use crate::lists::{play_config, play_list};
use crate::readers::DialogueReading;
use crate::stage::DialogueStage;
use std::fs;

/// The server and the reader of a dialogue, once a line has made them.
#[derive(Drop)]
struct Scene {
    stage: Option<Box<DialogueStage>>,
    reading: Option<Box<DialogueReading>>,
}

/// A new server with the configuration of a file.
fn set_stage(rt: &HostRuntime, scene: &mut Scene, path: &str) -> DialogueAnswer {
    let new = Box::new(rt.alloc(), DialogueStage::new(rt, path)?)?;
    scene.stage = Some(new);
    Ok(None)
}

/// Plays a line at the server that the last `server config FILE` made.
fn play_at_server(rt: &HostRuntime, scene: &mut Scene, line: &DialogueLine) -> DialogueAnswer {
    if line.subject == "server" && line.verb == "config" {
        return set_stage(rt, scene, line.rest);
    }
    match &mut scene.stage {
        Some(stage) => stage.play(rt, line),
        None => Err(Fault::Step),
    }
}

/// Plays a line that is about the reader, which `wants` makes.
fn play_reader(rt: &HostRuntime, scene: &mut Scene, line: &DialogueLine) -> DialogueAnswer {
    if line.verb == "wants" {
        let new = Box::new(rt.alloc(), DialogueReading::new(rt.alloc(), line.rest)?)?;
        scene.reading = Some(new);
        return Ok(None);
    }
    match &mut scene.reading {
        Some(reading) => reading.play(rt.alloc(), line),
        None => Err(Fault::Step),
    }
}

fn play_line(rt: &HostRuntime, scene: &mut Scene, line: &DialogueLine) -> DialogueAnswer {
    match line.subject {
        "reader" => play_reader(rt, scene, line),
        "records" => play_records(rt, line),
        "list" => play_list(rt.alloc(), line),
        "config" => play_config(rt, line),
        _ => play_at_server(rt, scene, line),
    }
}

/// Plays a text that is a line, unless it is empty or a remark.
fn play_text(rt: &HostRuntime, scene: &mut Scene, text: &str) -> DialogueAnswer {
    match line_of(text) {
        Some(line) => play_line(rt, scene, &line),
        None => Ok(None),
    }
}

/// Plays a text that is to be answered otherwise than it wants.
fn play_not(rt: &HostRuntime, scene: &mut Scene, text: &str) -> DialogueAnswer {
    match play_text(rt, scene, text)? {
        Some(_) => Ok(None),
        None => Ok(Some(String::from_str(rt.alloc(), "just that")?)),
    }
}

/// Plays texts that ` ; ` separates, up to the first answer that is not as its text wants.
fn play_all_of(rt: &HostRuntime, scene: &mut Scene, texts: &str) -> DialogueAnswer {
    for text in texts.split(';') {
        if let Some(got) = play_text(rt, scene, text.trim())? {
            return Ok(Some(got));
        }
    }
    Ok(None)
}

/// Plays texts so many times, up to the first answer that is not as its text wants.
fn play_times(rt: &HostRuntime, scene: &mut Scene, texts: &str, times: usize) -> DialogueAnswer {
    for _ in 0..times {
        if let Some(got) = play_all_of(rt, scene, texts)? {
            return Ok(Some(got));
        }
    }
    Ok(None)
}

/// Plays a text, which may begin with `not` or with a number and `times`.
fn play_any(rt: &HostRuntime, scene: &mut Scene, text: &str) -> DialogueAnswer {
    if let Some(rest) = text.strip_prefix("not ") {
        return play_not(rt, scene, rest);
    }
    match text.split_once(" times ") {
        Some((times, rest)) => play_times(rt, scene, rest, number_of(times)?),
        None => play_text(rt, scene, text),
    }
}

/// Reports what came of a line, unless it is as the line wants. Whether it is.
fn report(
    rt: &HostRuntime,
    name: &str,
    number: usize,
    line: &str,
    answer: DialogueAnswer,
) -> Result<bool, Fault> {
    match answer {
        Ok(None) => return Ok(true),
        Ok(Some(got)) => println!(rt; "{name} line {number}: wanted {line}, got {got}")?,
        Err(fault) => println!(rt; "{name} line {number}: {line}: {}", fault.words())?,
    }
    Ok(false)
}

/// Plays the lines of a dialogue up to the first that is not answered as it wants, which is reported. Whether there is
/// none.
fn play_lines(rt: &HostRuntime, scene: &mut Scene, name: &str, text: &str) -> Result<bool, Fault> {
    for (place, line) in text.lines().enumerate() {
        let answer = play_any(rt, scene, line);
        if !report(rt, name, place.saturating_add(1), line, answer)? {
            return Ok(false);
        }
    }
    println!(rt; "{name} ok")?;
    Ok(true)
}

/// Reports that a file can't be played.
fn report_file(rt: &HostRuntime, path: &str, fault: Fault) -> Result<bool, Fault> {
    println!(rt; "{path}: {}", fault.words())?;
    Ok(false)
}

/// Plays the dialogue of a file. Whether all is answered as it wants.
pub fn play_file(rt: &HostRuntime, path: &str) -> Result<bool, Fault> {
    let mut scene = Scene {
        stage: None,
        reading: None,
    };
    match fs::read_to_string(rt, path) {
        Ok(text) => play_lines(rt, &mut scene, path, text.as_str()),
        Err(error) => report_file(rt, path, Fault::from(error)),
    }
}
