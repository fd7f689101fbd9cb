//! Plain files that are read whole.
use crate::inputs::{text_at, unopened};
use files::not_plain;
use incidents::Incident;
use std::fs;

/// Refuses a file that is to be read more than once if it is no plain file, before it is opened: a pipe would give its
/// bytes once, and then wait for a writer.
pub fn plain_at<'a>(rt: &HostRuntime, path: &'a str) -> Result<(), Incident<'a>> {
    match fs::metadata(rt, path) {
        Ok(found) if found.is_file() => Ok(()),
        Ok(_) => Err(unopened(path, not_plain())),
        Err(reason) => Err(unopened(path, reason)),
    }
}

/// The text of a plain file: reading another one may wait for ever.
pub fn plain_text_at<'a>(rt: &HostRuntime, path: &'a str) -> Result<Vec<u8>, Incident<'a>> {
    plain_at(rt, path)?;
    text_at(rt, path)
}
