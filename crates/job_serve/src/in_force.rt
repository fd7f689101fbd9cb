//! What is told of a configuration that is in force: the sum of its text, and what it changes for whom.
ghost use Rattle.std.specs.Prelude.{◌≡◌};
ghost use Rattle.sha2.specs.Sha256.{sha256};

use crate::visits::SharedLines;
use sha2::{Digest, Sha256};
use std::fmt::{self, Display, Formatter, Write};

/// How many lines tell at most what a configuration changes.
const LINES: usize = 64;

/// How many bytes of such a line are told at most.
const LONGEST: usize = 2_000;

/// The SHA-256 of a configuration's text.
#[derive(Clone, Copy, Drop)]
pub struct ConfigSum([u8; 32]);

impl ConfigSum {
    /// That of a text.
    pub fn of(text: &[u8]) -> ConfigSum
        ensures { result.0 ≡ sha256 text.now }
    {
        let mut hasher = Sha256::new();
        hasher.update(text);
        ConfigSum(hasher.finalize())
    }
}

impl Display for ConfigSum {
    /// As `configuration 9f86d081..`, with the digits that `sha256sum` prints.
    fn fmt<W: Write>(&self, f: &mut Formatter<W>) -> fmt::Result {
        f.write_str("configuration ")?;
        for byte in &self.0 {
            write!(f, "{byte:02x}")?;
        }
        Ok(())
    }
}

/// What a line tells of access.
#[derive(Clone, Copy)]
enum AccessLine<'t> {
    /// What changes at a station, and for whom.
    Change(&'t str),
    /// So many more lines that are left out.
    More(usize),
}

impl Display for AccessLine<'_> {
    /// As `access: GE_APE gains 192.0.2.0/24`, or `access: 12 more lines`.
    fn fmt<W: Write>(&self, f: &mut Formatter<W>) -> fmt::Result {
        match self {
            AccessLine::Change(line) => write!(f, "access: {line}"),
            AccessLine::More(count) => write!(f, "access: {count} more lines"),
        }
    }
}

/// Tells one line on what changes. What is longer than a line of the log is cut off.
fn tell_change(lines: &SharedLines, line: &[u8]) {
    let shown = &line[..line.len().min(LONGEST)];
    if let Ok(text) = str::from_utf8(shown) {
        lines.tell(AccessLine::Change(text));
    }
}

/// Tells what a new configuration changes, and for whom, by lines that say it: the first 64 of them, and how many more
/// there are.
pub fn tell_changes(lines: &SharedLines, changes: &[u8]) {
    let mut count: usize = 0;
    for line in changes.split(|byte| *byte == b'\n') {
        if !line.is_empty() {
            count = count.saturating_add(1);
            if count <= LINES {
                tell_change(lines, line);
            }
        }
    }
    if count > LINES {
        lines.tell(AccessLine::More(count - LINES));
    }
}
