//! Why the numbers of an earlier run are not read.
ghost use Rattle.std.specs.Prelude.{◌≡◌};
ghost use Rattle.protocol.specs.declared.reason.Reason.TheVariants.{Numbers};

use incidents::Failure;
use protocol::reason::Reason;

/// Why the numbers of an earlier run were not read.
#[derive(Clone, Copy, Drop)]
pub enum NumbersFault {
    /// The file can't be opened, or not be read to its end.
    Unread,
    /// Its text is not as it has to be.
    Invalid,
    /// Another server keeps its numbers there.
    Locked,
    /// It is a device, a folder or the like.
    Special,
}

impl NumbersFault {
    /// What it is in a sentence.
    fn cause(self) -> &'static str {
        match self {
            NumbersFault::Unread => "the file of numbers can't be read",
            NumbersFault::Invalid => {
                "the file of numbers is not in TOML with a network, a code and a number for each station"
            }
            NumbersFault::Locked => "another server keeps its numbers in the file of numbers",
            NumbersFault::Special => "the file of numbers is no plain file",
        }
    }

    /// It, as the program reports it: 49 Numbers.
    pub fn failure(self) -> Failure
        ensures { result.reason ≡ Numbers }
    {
        Failure::by(Reason::Numbers, Some(self.cause()))
    }
}
