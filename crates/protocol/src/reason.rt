//! Why something is refused: the one table of the numbers, names and sentences by which the program tells it.
ghost use Rattle.std.specs.Prelude.{◌≡◌, false, true};
ghost use Rattle.protocol.specs.Reason.{name_of, number_of, is_memory, is_output, reasons};

/// Why something is refused, by a row of the table of `docs/PROFILE.md`: the same reason for the same cause, wherever
/// it comes up.
#[derive(Clone, Copy, Drop)]
pub enum Reason {
    Sequence,
    Quality,
    Time,
    Blockettes,
    No1000,
    Length,
    Field,
    NotAPacket,
    Address,
    Mask,
    Toml,
    Missing,
    Limit,
    Duplicate,
    Access,
    OutOfMemory,
    Gone,
    NoRoom,
    UnknownStation,
    Exhausted,
    Different,
    Poll,
    Partial,
    Read,
    Write,
    File,
    Script,
    Listen,
    Connect,
    Device,
    Numbers,
    Refused,
    AllRefused,
    BadReply,
    State,
    Shape,
    Range,
    Full,
}

/// All of them, in the order of their numbers.
static REASONS: [Reason; 38] = [
    Reason::Sequence,
    Reason::Quality,
    Reason::Time,
    Reason::Blockettes,
    Reason::No1000,
    Reason::Length,
    Reason::Field,
    Reason::NotAPacket,
    Reason::Address,
    Reason::Mask,
    Reason::Toml,
    Reason::Missing,
    Reason::Limit,
    Reason::Duplicate,
    Reason::Access,
    Reason::OutOfMemory,
    Reason::Gone,
    Reason::NoRoom,
    Reason::UnknownStation,
    Reason::Exhausted,
    Reason::Different,
    Reason::Poll,
    Reason::Partial,
    Reason::Read,
    Reason::Write,
    Reason::File,
    Reason::Script,
    Reason::Listen,
    Reason::Connect,
    Reason::Device,
    Reason::Numbers,
    Reason::Refused,
    Reason::AllRefused,
    Reason::BadReply,
    Reason::State,
    Reason::Shape,
    Reason::Range,
    Reason::Full,
];

/// A row of the table.
#[derive(Clone, Copy, Drop)]
struct Row {
    number: u8,
    name: &'static str,
    cause: &'static str,
}

/// The row with that number, name and sentence.
fn row_of(number: u8, name: &'static str, cause: &'static str) -> Row
    ensures number { result.number ≡ number }
    ensures name { result.name.now ≡ name.now }
{
    Row {
        number,
        name,
        cause,
    }
}

impl Reason {
    /// All of them, 38, in the order of their numbers.
    pub fn all() -> &'static [Reason]
        ensures { result.now ≡ reasons }
    {
        &REASONS
    }

    /// Its row of the table.
    fn row(self) -> Row
        ensures number { result.number ≡ number_of self }
        ensures name { result.name.now ≡ name_of self }
    {
        match self {
            Reason::Sequence => row_of(
                1,
                "Sequence",
                "the sequence number has a byte that is no digit, no space and not 0",
            ),
            Reason::Quality => row_of(2, "Quality", "the quality is none of D, R, Q and M"),
            Reason::Time => row_of(3, "Time", "the start is no time"),
            Reason::Blockettes => row_of(
                4,
                "Blockettes",
                "the chain of blockettes is not well formed",
            ),
            Reason::No1000 => row_of(5, "No1000", "there is no blockette 1000"),
            Reason::Length => row_of(6, "Length", "the record's length is not 512 bytes"),
            Reason::Field => row_of(8, "Field", "the fields spell no record"),
            Reason::NotAPacket => row_of(
                10,
                "NotAPacket",
                "the server sent something that is not a packet",
            ),
            Reason::Address => row_of(
                11,
                "Address",
                "a token has no address before its first slash",
            ),
            Reason::Mask => row_of(12, "Mask", "a token has no mask behind its first slash"),
            Reason::Toml => row_of(20, "Toml", "the text is no TOML"),
            Reason::Missing => row_of(
                21,
                "Missing",
                "a key is missing or has a value of another kind",
            ),
            Reason::Limit => row_of(22, "Limit", "a value is outside its limits"),
            Reason::Duplicate => row_of(
                23,
                "Duplicate",
                "two stations have the same network and code",
            ),
            Reason::Access => row_of(24, "Access", "an access list is refused"),
            Reason::OutOfMemory => row_of(25, "OutOfMemory", "out of memory"),
            Reason::Gone => row_of(30, "Gone", "no open client has this number"),
            Reason::NoRoom => row_of(31, "NoRoom", "there is no room for so many bytes"),
            Reason::UnknownStation => row_of(
                32,
                "UnknownStation",
                "no station has the record's codes",
            ),
            Reason::Exhausted => row_of(33, "Exhausted", "no more records can be counted"),
            Reason::Different => row_of(
                34,
                "Different",
                "the configuration differs in more than its access lists",
            ),
            Reason::Poll => row_of(40, "Poll", "the ports can't say what happened"),
            Reason::Partial => row_of(41, "Partial", "the input ends inside a record"),
            Reason::Read => row_of(42, "Read", "the input could not be read to its end"),
            Reason::Write => row_of(43, "Write", "not everything could be written"),
            Reason::File => row_of(44, "File", "a file could not be opened"),
            Reason::Script => row_of(45, "Script", "a line of the script is no event"),
            Reason::Listen => row_of(46, "Listen", "an address can't be listened on"),
            Reason::Connect => row_of(47, "Connect", "no connection to the server could be made"),
            Reason::Device => row_of(48, "Device", "the device failed"),
            Reason::Numbers => row_of(49, "Numbers", "the numbers can't be kept"),
            Reason::Refused => row_of(50, "Refused", "the server refused a command"),
            Reason::AllRefused => row_of(
                51,
                "AllRefused",
                "the server refused everything that was asked for",
            ),
            Reason::BadReply => row_of(
                52,
                "BadReply",
                "the server sent a reply that is not one of SeedLink",
            ),
            Reason::State => row_of(53, "State", "how far the reader is can't be kept"),
            Reason::Shape => row_of(60, "Shape", "the text has not the shape of a time"),
            Reason::Range => row_of(
                61,
                "Range",
                "a number of the time is out of range, or there is no such date",
            ),
            Reason::Full => row_of(62, "Full", "no pattern more has room"),
        }
    }

    /// Its number, 1 to 62. No other reason has it.
    pub fn number(self) -> u8
        ensures { result ≡ number_of self }
    {
        self.row().number
    }

    /// Its name: a word of letters and digits, as `OutOfMemory`. No other reason has it.
    pub fn name(self) -> &'static str
        ensures { result.now ≡ name_of self }
    {
        self.row().name
    }

    /// What it means, in a sentence.
    pub fn cause(self) -> &'static str {
        self.row().cause
    }

    /// Whether memory was refused.
    pub fn is_memory(self) -> bool
        ensures { result ≡ is_memory self }
    {
        matches!(self, Reason::OutOfMemory)
    }

    /// Whether an output took no more.
    pub fn is_output(self) -> bool
        ensures { result ≡ is_output self }
    {
        matches!(self, Reason::Write)
    }
}
