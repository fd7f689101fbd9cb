//! Counts with the name of what is counted.
use std::fmt::{self, Display, Formatter, Write};

/// So many of something, as `1 record` or `5 records`.
#[derive(Clone, Copy, Drop)]
pub struct Several {
    pub count: u64,
    /// What one of them is called.
    pub name: &'static str,
}

impl Several {
    /// So many records.
    pub fn records(count: u64) -> Several {
        Several {
            count,
            name: "record",
        }
    }

    /// So many bytes.
    pub fn bytes(count: u64) -> Several {
        Several {
            count,
            name: "byte",
        }
    }
}

impl Display for Several {
    fn fmt<W: Write>(&self, f: &mut Formatter<W>) -> fmt::Result {
        let end = if self.count == 1 { "" } else { "s" };
        write!(f, "{} {}{end}", self.count, self.name)
    }
}
