//! What the program can be asked to do.

use text_parts::period::Period;

/// What the program is asked to do, with the texts of the command line as they stand there.
#[derive(Drop)]
pub enum Job<'a> {
    /// `check FILE.. ..`: a line for each record of files, as its options say.
    Check {
        files: Vec<&'a str>,
        options: CheckOptions<'a>,
    },
    /// `replay CONFIG SCRIPT [--text]`: the events of a script at a server with that configuration, with `--text` as a
    /// dialogue.
    Replay {
        config: &'a str,
        script: &'a str,
        is_text: bool,
    },
    /// `view CONFIG [WHO] ..`: the stations of a configuration and who may use them, as its options say.
    View(ViewOptions<'a>),
    /// `serve CONFIG --listen A:P --feed A:P ..`: a server over sockets, as its options say.
    Serve(ServeOptions<'a>),
    /// `feed A:P FILE.. ..`: sends the records of files to a server, one file after the other, as its options say.
    Feed {
        server: &'a str,
        files: Vec<&'a str>,
        options: FeedOptions<'a>,
    },
    /// `read A:P WANT.. ..`: asks a server for records, as its options say. Without a want they name a file of wants.
    Read {
        server: &'a str,
        wants: Vec<&'a str>,
        options: ReadOptions<'a>,
    },
    /// `status A:P [--silent]`: how a server stands, by its status port; with `--silent` its silent stations alone.
    Status {
        server: &'a str,
        is_silent: bool,
    },
}

/// The options of `check`.
#[derive(Clone, Copy)]
pub struct CheckOptions<'a> {
    /// `--iso`: times as dates and times of the day.
    pub is_iso: bool,
    /// `--summary`: a line for each stream, after the lines of records.
    pub has_summary: bool,
    /// `--quiet`: no lines of records.
    pub is_quiet: bool,
    /// `--gaps`: a line for each gap and overlap of a stream.
    pub has_gaps: bool,
    /// `--config CONFIG`: records of stations that CONFIG has not are refused too.
    pub config: Option<&'a str>,
}

/// The words of `view`. A word for whom does not stand beside a station.
#[derive(Clone, Copy)]
pub struct ViewOptions<'a> {
    /// `CONFIG`: the file of the configuration.
    pub config: &'a str,
    /// `WHO`: the address or the network whose view is written, or the file of another configuration that it is
    /// compared with. Without it and without a station, all stations are listed.
    pub who: Option<&'a str>,
    /// `--station NET_STA`: the station whose entry is explained.
    pub station: Option<&'a str>,
    /// `--strict`: a configuration with keys that are not known is refused.
    pub is_strict: bool,
}

/// The options of `feed`. `--strict` and `--skip` do not stand together.
#[derive(Clone, Copy)]
pub struct FeedOptions<'a> {
    /// `--from K`: the first record of the first file that is sent, 1 to 1,000,000,000.
    pub from: Option<usize>,
    /// `--config CONFIG`: records of stations that CONFIG does not have are counted, too.
    pub config: Option<&'a str>,
    /// `--strict`: it stops at the 16th record in a row that is not valid.
    pub is_strict: bool,
    /// `--skip`: where records are not valid, it goes on at the next place where two valid headers follow each other.
    pub skips: bool,
    /// `--timeout N`: it ends if the server takes nothing, or does not end the connection, for so many seconds, 1 to
    /// 1,000,000,000.
    pub timeout: Option<usize>,
}

/// The words of `serve`. Each number is 1 to 1,000,000,000.
#[derive(Clone, Copy)]
pub struct ServeOptions<'a> {
    /// `CONFIG`: the file of its configuration.
    pub config: &'a str,
    /// `--listen A:P`: where clients connect.
    pub listen: &'a str,
    /// `--feed A:P`: where feeds connect.
    pub feed: &'a str,
    /// `--turns N`: it ends after so many turns. Without it the server runs until it is ended from outside.
    pub turns: Option<usize>,
    /// `--reread N|Ns`: how often the configuration is read again.
    pub reread: Option<Period>,
    /// `--report N|Ns`: how often it is told what was done.
    pub report: Option<Period>,
    /// `--feed-from LIST`: the addresses that feeds are taken from; all without a list.
    pub feed_from: Option<&'a str>,
    /// `--per-address N`: how many clients of one address are taken; any number without one.
    pub per_address: Option<usize>,
    /// `--numbers FILE`: the stations begin with the numbers in it, and it keeps numbers for the next run.
    pub numbers: Option<&'a str>,
    /// `--status A:P`: where it tells how it stands; nowhere without one.
    pub status: Option<&'a str>,
    /// `--status-from LIST`: the addresses that may ask there; those of this machine without a list. Only beside
    /// `status`.
    pub status_from: Option<&'a str>,
    /// `--status-name NAME`: the name by which it may be asked there, besides addresses and `localhost`. Only beside
    /// `status`.
    pub status_name: Option<&'a str>,
    /// `--silent N`: a station counts as silent there after so many seconds without a record. Only beside `status`.
    pub silent: Option<usize>,
    /// `--log`: it is told who comes and goes.
    pub is_logged: bool,
    /// `--strict`: a configuration with keys that are not known is refused.
    pub is_strict: bool,
}

/// The options of `read`. An end has a begin, and doesn't stand beside `fetch`, `retry` or `state`.
#[derive(Clone, Copy)]
pub struct ReadOptions<'a> {
    /// `--fetch`: ends once the records that the server holds are read.
    pub fetch: bool,
    /// `--begin TIME`: records that end at that moment or later.
    pub begin: Option<&'a str>,
    /// `--end TIME`: records that start at that moment or earlier, and then the end.
    pub last: Option<&'a str>,
    /// `--retry N`: a server that is gone is asked again after so many seconds, 1 to 1,000,000,000.
    pub retry: Option<usize>,
    /// `--timeout N`: a server that owes something is left after so many seconds of silence, 1 to 1,000,000,000.
    pub timeout: Option<usize>,
    /// `--archive DIR`: each record is added to the file of its stream and day. Not beside `output`.
    pub archive: Option<&'a str>,
    /// `--output FILE`: each record is added to that file.
    pub output: Option<&'a str>,
    /// `--wants FILE`: the wants of that file are asked for, too.
    pub wants_file: Option<&'a str>,
    /// `--state FILE`: it goes on after the packets that FILE tells of, and keeps there how far it is.
    pub state: Option<&'a str>,
    /// `--iso`: times as dates and times of the day.
    pub is_iso: bool,
    /// `--quiet`: no lines of packets.
    pub is_quiet: bool,
}

/// A job, and how much is said of what goes wrong with it.
#[derive(Drop)]
pub struct Request<'a> {
    pub job: Job<'a>,
    /// `-v` or `--verbose`, before or after the subcommand: faults are explained.
    pub is_verbose: bool,
}

/// Why a command line asks for no job.
#[derive(Drop)]
pub enum WordsFault {
    /// Out of memory while reading it.
    OutOfMemory,
    /// It is invalid, or asks for help or the version. The text is for the user.
    Refused { text: String, is_help: bool },
}
