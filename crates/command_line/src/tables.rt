//! The arguments of each command, a row each, in the order in which its help lists them. `-v` follows in each.
//!
//! What holds without an option stands at the end of its help, as `(default: 600)`. Lines of help have at most 80
//! columns: those of a longer text are separated here.
use crate::argument::Argument;
use crate::argument::Argument::{Any, Flag, Needed, Several, Spare, Value, Wanted};

/// What `CONFIG` is.
const CONFIG_HELP: &str = "The configuration, in TOML";

/// What `--strict` does to a configuration.
const STRICT_HELP: &str = "Refuses a CONFIG with keys that are not known\n(default: off)";

/// What `--iso` does.
const ISO_HELP: &str = "Writes times as 2024-02-29T00:00:00.0000Z\n(default: ticks of 0.0001 s)";

pub static SERVE: [Argument<'static>; 15] = [
    Wanted("CONFIG", CONFIG_HELP),
    Needed("listen", "A:P", "Address and port for clients"),
    Needed("feed", "A:P", "Address and port for feeds of records"),
    Value(
        "turns",
        "N",
        "Ends after N turns, 1 to 1000000000\n(default: until it is ended)",
    ),
    Value(
        "reread",
        "N|Ns",
        "Reads CONFIG again every N turns, or as often as a\ntime says, as 60s, 10m or 2h (default: never)",
    ),
    Value(
        "report",
        "N|Ns",
        "Writes a line of counts every N turns, or as often\nas a time says, as 60s, 10m or 2h (default: never)",
    ),
    Value(
        "feed-from",
        "LIST",
        "Takes feeds from these addresses alone, as\n10.0.0.7, 10.0.0.0/8 (default: from everybody)",
    ),
    Value(
        "per-address",
        "N",
        "Takes at most N clients of one address,\n1 to 1000000000 (default: no limit)",
    ),
    Value(
        "numbers",
        "FILE",
        "Goes on with the numbers in FILE, and keeps numbers\nthere (default: from first on)",
    ),
    Flag(
        "log",
        "Writes a line for each client and feed that comes\nor goes (default: off)",
    ),
    Value(
        "status",
        "A:P",
        "Address and port where it tells its status, over\nHTTP (default: no status port)",
    ),
    Value(
        "status-from",
        "LIST",
        "Tells it to these addresses alone, as 10.0.0.7,\n10.0.0.0/8 (default: from this machine)",
    ),
    Value(
        "status-name",
        "NAME",
        "Tells it by this name, too\n(default: by addresses and localhost)",
    ),
    Value(
        "silent",
        "N",
        "Calls a station silent there after N seconds, or a\ntime as 10m, without a record (default: 600)",
    ),
    Flag("strict", STRICT_HELP),
];

pub static FEED: [Argument<'static>; 7] = [
    Wanted("SERVER", "Address and port for feeds, as 127.0.0.1:18001"),
    Several(
        "FILE",
        "The files, of records of 512 bytes; - is standard input",
    ),
    Value(
        "from",
        "N",
        "Begins at record N of the first FILE, 1 to 1000000000\n(default: 1)",
    ),
    Value(
        "config",
        "CONFIG",
        "Also counts records of stations that CONFIG does not\nhave (default: not counted)",
    ),
    Flag(
        "strict",
        "Stops at the 16th record in a row that is not valid\n(default: off)",
    ),
    Flag(
        "skip",
        "Goes on at the next place where two valid records\nfollow each other (default: off)",
    ),
    Value(
        "timeout",
        "N",
        "Ends once the server has taken nothing, or has not\nended, for N seconds, or a time as 10m\n\
         (default: waits for as long as it takes)",
    ),
];

pub static READ: [Argument<'static>; 13] = [
    Wanted(
        "SERVER",
        "Addresses and ports for clients, as\n127.0.0.1:18000,127.0.0.2:18000",
    ),
    Any(
        "WANT",
        "NET_STA, NET_STA:PATTERN,.., NET_STA@NUMBER or\nNET_STA:PATTERN,..@NUMBER",
    ),
    Flag(
        "fetch",
        "Ends once the records that the server holds are read\n(default: goes on for ever)",
    ),
    Value(
        "begin",
        "TIME",
        "Reads the records that end at TIME or later, as\n2024-02-29T00:00:00 (default: no begin)",
    ),
    Value(
        "end",
        "TIME",
        "Reads those that start at TIME or earlier, and ends\n(default: no end)",
    ),
    Value(
        "retry",
        "N",
        "Asks again after N seconds, or a time as 10m, when no\n\
         server is there, and after an hour for what is refused\n\
         (default: ends at a fault of the last server)",
    ),
    Value(
        "timeout",
        "N",
        "Leaves a server that owes something and is silent for\n\
         N seconds, or a time as 10m (default: 60 beside --retry\n\
         or --end, or with several servers, else none)",
    ),
    Value(
        "wants",
        "FILE",
        "Asks for the WANTs of FILE too, one a line; - is\nstandard input (default: the WANTs of the command line)",
    ),
    Value(
        "archive",
        "DIR",
        "Adds each record to the file of its stream and day\nbelow DIR (default: no archive)",
    ),
    Value(
        "state",
        "FILE",
        "Goes on after the packets that FILE tells of, and\nkeeps there how far it is; it locks FILE.lock\n\
         (default: no state)",
    ),
    Flag("iso", ISO_HELP),
    Flag(
        "quiet",
        "Writes no lines of packets\n(default: a line for each packet)",
    ),
    Value(
        "output",
        "FILE",
        "Adds each record to FILE; - is standard output\n(default: no file)",
    ),
];

pub static VIEW: [Argument<'static>; 4] = [
    Wanted("CONFIG", CONFIG_HELP),
    Spare(
        "WHO",
        "An address, a network as 10.0.0.0/8, or the file of another\nconfiguration",
    ),
    Value(
        "station",
        "NET_STA",
        "Lists one station, and says whether its list is its\nown, the server's or none (default: all stations)",
    ),
    Flag("strict", STRICT_HELP),
];

pub static CHECK: [Argument<'static>; 6] = [
    Several(
        "FILE",
        "The files, of records of 512 bytes, and folders of such;\n- is standard input",
    ),
    Flag("iso", ISO_HELP),
    Flag(
        "summary",
        "After the lines of records, writes a line for each\nstream (default: off)",
    ),
    Flag("quiet", "Writes no lines of records (default: off)"),
    Flag(
        "gaps",
        "Writes a line for each gap and overlap of a stream\n(default: off)",
    ),
    Value(
        "config",
        "CONFIG",
        "Also refuses records of stations that CONFIG does not\nhave (default: any station)",
    ),
];

pub static REPLAY: [Argument<'static>; 3] = [
    Wanted("CONFIG", CONFIG_HELP),
    Wanted("SCRIPT", "The script, an event a line"),
    Flag(
        "text",
        "Prints the dialogue as text, a line for each event\n(default: bytes, as digits)",
    ),
];

pub static STATUS: [Argument<'static>; 2] = [
    Wanted(
        "SERVER",
        "Address and port of --status of a server, as 127.0.0.1:18002",
    ),
    Flag(
        "silent",
        "Prints the counts and the silent stations alone\n(default: off)",
    ),
];
