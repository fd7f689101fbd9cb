//! The value of a key of a configuration.
use sl_packet::Seq;
use std::fmt::{self, Display, Formatter, Write};

/// The value of a key of a configuration.
#[derive(Drop)]
pub enum Setting {
    /// There is no such key.
    Nothing,
    Text(Vec<u8>),
    /// A whole number; of `station`, how many they are.
    Number(usize),
    /// A sequence number.
    Sequence(Seq),
}

impl Display for Setting {
    fn fmt<W: Write>(&self, f: &mut Formatter<W>) -> fmt::Result {
        match self {
            Setting::Nothing => f.write_str("nothing"),
            Setting::Text(text) => match str::from_utf8(text.as_slice()) {
                Ok(text) => f.write_str(text),
                Err(_) => Ok(()),
            },
            Setting::Number(number) => write!(f, "{number}"),
            Setting::Sequence(number) => {
                let number = number.value();
                write!(f, "{number:06X}")
            }
        }
    }
}
