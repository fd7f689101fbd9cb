//! Files of records go to a server.
//!
//! `feed -` opens `/dev/stdin`. The toolchain's own standard input reads a byte at a time from a pipe. Standard input
//! that is a socket can't be opened so.
ghost use Rattle.std.specs.Prelude.{◌≡◌, ◌/◌, IfOk, IfSome, OnOk};
ghost use Rattle.feeder.specs.Sending.{send_reason};
ghost use Rattle.job_feed.specs.Skipping.{first_record};

use crate::aligned::Aligned;
use crate::fault::FeedFault;
use crate::feed::{Feed, SentFeed};
use crate::judging::{Judged, finding_of};
use crate::lines::{FeedLine, FoundKind};
use crate::looks::{look_at_each, tell_repeated};
use crate::sent::{FileRecord, SentRecords};
use crate::skipping::{bytes_before, pass_over};
use crate::waiting::WaitingStream;
use command_line::FeedOptions;
use feeder::SendFault;
use incidents::{Failure, Incident, Place};
use job_base::{
    ConfiguredStations, ReasonKeeper, ServerAddress, Watched, checked_config_at, connection,
    is_terminal, lines_of, open, refused_records, server_of, size_of, unconnected,
};
use protocol::reason::Reason;
use record_check::{AllStations, FeedTally, FileKind, Stations};
use sl_io::{DeviceFault, Outer};
use std::fs::File;
use std::io::{self, Read};
use std::net::{SocketAddr, TcpStream};
use std::time::Duration;

/// How the records of files are judged while they are sent.
#[derive(Drop)]
pub struct FeedRules<'s, S> {
    /// The stations of which a server has records.
    pub stations: &'s S,
    /// Whether sixteen records in a row that can't be read end the feed.
    pub is_strict: bool,
    /// Whether what is in no record is passed over.
    pub skips: bool,
    /// For how many seconds at most the server takes nothing, or does not end the connection.
    pub limit: Option<u64>,
    /// Whether somebody is shown that it took nothing for a minute.
    pub is_shown: bool,
}

/// How far a feed is: what was judged, the first file with a record that is refused, and what it is if that is known,
/// and what was sent.
#[derive(Drop)]
pub struct FeedProgress<'a> {
    pub tally: FeedTally,
    pub refused_in: Option<&'a str>,
    pub kind: Option<FileKind>,
    pub sent: SentRecords<'a>,
}

impl<'a> FeedProgress<'a> {
    /// Before the first record.
    pub fn new() -> FeedProgress<'a>
        ensures { result.sent.count ≡ 0 }
    {
        FeedProgress {
            tally: FeedTally::new(),
            refused_in: None,
            kind: None,
            sent: SentRecords::new(),
        }
    }

    /// The records of a file are judged, which may be known for no file of records, and the connection has taken so
    /// many by now.
    fn reach(&mut self, first: FileRecord<'a>, kind: Option<FileKind>, count: u64)
        ensures { self.new.sent.count ≡ count }
    {
        if self.tally.first().is_some() && self.refused_in.is_none() {
            self.refused_in = Some(first.file);
            self.kind = kind;
        }
        self.sent.reach(first, count);
    }
}

/// A file of records, or the standard input if its name is `-`.
fn input<'a>(rt: &HostRuntime, path: &'a str) -> Result<File, Incident<'a>> {
    match path {
        "-" => open(rt, "/dev/stdin"),
        _ => open(rt, path),
    }
}

/// Passes over the records of a file that are before one of them.
fn begin_at<T: Read>(records: &mut T, number: u64) -> Result<(), DeviceFault> {
    pass_over(&mut Outer::new(records), bytes_before(number))
}

/// Sends the records of a file that is open, from one of them on, and says how many records were sent by then.
fn send_input<'a, S: Stations>(
    rt: &HostRuntime,
    feed: &mut Feed<WaitingStream<'_>>,
    rules: &FeedRules<'_, S>,
    progress: &mut FeedProgress<'a>,
    file: File,
    first: FileRecord<'a>,
    server: &'a str,
) -> Result<(), Incident<'a>>
    ensures { progress.new.sent.count ≡ feed.new.taken / 512 }
{
    let size = size_of(&file);
    let mut watched = Watched::new(rt, ReasonKeeper::new(file), size, is_terminal());
    let passed = begin_at(&mut watched, first.number);
    let offset = bytes_before(first.number);
    let aligned = Aligned::new(rt.alloc(), watched, rules.skips, offset);
    progress.tally.begin_file(first.number);
    let judged = Judged::new(
        rt,
        aligned,
        rules.stations,
        &mut progress.tally,
        first.file,
        rules.is_strict,
        offset,
    );
    let mut records = Outer::new(judged);
    let outcome = match passed {
        Ok(()) => feed.send(&mut records),
        Err(_) => Err(SendFault::Read),
    };
    let (watched, is_over, kind) = records.into_inner().into_parts();
    let reason = watched.end().into_reason();
    progress.reach(first, kind, feed.records());
    match outcome {
        Ok(()) => Ok(()),
        Err(_) if is_over => Err(given_up(rt, &progress.tally, first.file, kind)),
        Err(SendFault::Write) if feed.is_open() => {
            Err(FeedFault::Silent.failure().in_feed(first.file, server))
        }
        Err(fault) => {
            let incident = unsent(fault, first.file, server, reason);
            Err(with_kind(rt, incident, kind))
        }
    }
}

/// A file that was not sent to its end.
fn unsent<'a>(
    fault: SendFault,
    file: &'a str,
    server: &'a str,
    reason: Option<io::Error>,
) -> Incident<'a>
    ensures { result.failure.reason ≡ send_reason fault }
{
    Failure::of(fault.reason())
        .in_feed(file, server)
        .at_file(file, reason)
}

/// What is wrong with a file, and if it ends inside a record (41) what it is, if it is known for no file of records.
fn with_kind<'a>(rt: &HostRuntime, incident: Incident<'a>, kind: Option<FileKind>) -> Incident<'a>
    ensures { result.failure ≡ incident.entry.failure }
{
    match (incident.failure.reason, kind) {
        (Reason::Partial, Some(kind)) => incident.with(lines_of(rt.alloc(), FoundKind(kind))),
        _ => incident,
    }
}

/// What ends a feed that is strict: the first of sixteen records of a file that can't be read.
fn given_up<'a>(
    rt: &HostRuntime,
    tally: &FeedTally,
    file: &'a str,
    kind: Option<FileKind>,
) -> Incident<'a> {
    match tally.lost() {
        Some(lost) => refused_records(rt.alloc(), Place::File(file), finding_of(&lost), kind),
        None => Failure::of(SendFault::Read.reason()).in_file(file),
    }
}

/// Sends the records of files, one file after the other.
fn send_each<'a, S: Stations>(
    rt: &HostRuntime,
    feed: &mut Feed<WaitingStream<'_>>,
    rules: &FeedRules<'_, S>,
    progress: &mut FeedProgress<'a>,
    files: &[&'a str],
    server: &'a str,
) -> Result<(), Incident<'a>>
    requires { progress.old.sent.count ≡ feed.old.taken / 512 }
    ensures { progress.new.sent.count ≡ feed.new.taken / 512 }
{
    'files: for path in files {
        let file = input(rt, path)?;
        let first = FileRecord::first_of(path);
        send_input(rt, feed, rules, progress, file, first, server)?;
    }
    Ok(())
}

/// Sends the records of files over a connection, of which the first file is open, from one of its records on, and shuts
/// its sending half.
fn send_over<'r, 'a, S: Stations>(
    rt: &'r HostRuntime,
    mut feed: Feed<WaitingStream<'r>>,
    rules: &FeedRules<'_, S>,
    progress: &mut FeedProgress<'a>,
    file: File,
    first: FileRecord<'a>,
    others: &[&'a str],
    server: &'a str,
) -> Result<SentFeed<'r>, Incident<'a>>
    ensures { IfOk result (λ feed. feed.count ≡ progress.new.sent.count) }
{
    send_input(rt, &mut feed, rules, progress, file, first, server)?;
    send_each(rt, &mut feed, rules, progress, others, server)?;
    match feed.shut() {
        Ok(feed) => Ok(feed),
        Err(fault) => Err(fault.failure().in_feed(first.file, server)),
    }
}

/// A connection to a server, which takes at most so many seconds to be made.
fn made_within<'a>(
    rt: &HostRuntime,
    server: ServerAddress<'a>,
    limit: Option<u64>,
) -> Result<TcpStream, Incident<'a>> {
    let Some(limit) = limit else {
        return connection(rt, server);
    };
    let address = SocketAddr::V4(server.endpoint.socket_address());
    match TcpStream::connect_timeout(rt, &address, Duration::from_secs(limit)) {
        Ok(stream) => Ok(stream),
        Err(reason) => Err(unconnected(server, reason)),
    }
}

/// The same, whose server takes at most as long to take or to end something. That it takes nothing for a minute is
/// shown or not.
fn connected<'r, 'a>(
    rt: &'r HostRuntime,
    server: ServerAddress<'a>,
    limit: Option<u64>,
    is_shown: bool,
) -> Result<WaitingStream<'r>, Incident<'a>> {
    let stream = made_within(rt, server, limit)?;
    match WaitingStream::new(rt, stream, limit, is_shown) {
        Ok(stream) => Ok(stream),
        Err(reason) => Err(unconnected(server, reason)),
    }
}

/// Connects to a server, sends it the records of files, of which the first is open, and shuts the sending half of the
/// connection.
fn send_open<'r, 'a, S: Stations>(
    rt: &'r HostRuntime,
    server: ServerAddress<'a>,
    file: File,
    first: FileRecord<'a>,
    others: &[&'a str],
    rules: &FeedRules<'_, S>,
    progress: &mut FeedProgress<'a>,
) -> Result<SentFeed<'r>, Incident<'a>>
    ensures { IfOk result (λ feed. feed.count ≡ progress.new.sent.count) }
{
    let stream = connected(rt, server, rules.limit, rules.is_shown)?;
    let feed = Feed::new(stream);
    send_over(rt, feed, rules, progress, file, first, others, server.word)
}

/// The same of files of which none is open yet.
fn send_from<'r, 'a, S: Stations>(
    rt: &'r HostRuntime,
    server: ServerAddress<'a>,
    first: FileRecord<'a>,
    others: &[&'a str],
    rules: &FeedRules<'_, S>,
    progress: &mut FeedProgress<'a>,
) -> Result<SentFeed<'r>, Incident<'a>>
    ensures { IfOk result (λ feed. feed.count ≡ progress.new.sent.count) }
{
    let file = input(rt, first.file)?;
    send_open(rt, server, file, first, others, rules, progress)
}

/// Sends the records of files to a server, one file after the other, those of the first file from that record on (1 is
/// its first), and shuts the sending half of the connection. All files are looked at before the connection is made, and
/// the first one is opened. The progress counts the records that the connection has taken whole, also at a fault; what
/// the server has read of them is not known.
pub fn send_files<'r, 'a, S: Stations>(
    rt: &'r HostRuntime,
    server: &'a str,
    files: &[&'a str],
    from: u64,
    rules: &FeedRules<'_, S>,
    progress: &mut FeedProgress<'a>,
) -> Result<Option<SentFeed<'r>>, Incident<'a>>
    ensures { IfOk result (λ feed. IfSome feed (λ feed. feed.count ≡ progress.new.sent.count)) }
{
    let server = server_of(server)?;
    look_at_each(rt, files)?;
    let Some((file, others)) = files.split_first() else {
        return Ok(None);
    };
    let first = FileRecord { file, number: from };
    let feed = send_from(rt, server, first, others, rules, progress)?;
    Ok(Some(feed))
}

/// Sends the records of files to a server, and waits until it has read them.
fn send_and_wait<'a, S: Stations>(
    rt: &HostRuntime,
    server: &'a str,
    files: &[&'a str],
    from: u64,
    rules: &FeedRules<'_, S>,
    progress: &mut FeedProgress<'a>,
) -> Result<(), Incident<'a>> {
    let Some(feed) = send_files(rt, server, files, from, rules, progress)? else {
        return Ok(());
    };
    match feed.wait() {
        Ok(_) => Ok(()),
        Err(fault) => Err(fault.failure().at(Place::Address(server))),
    }
}

/// What is said of a feed that sent nothing: the first file ends before the record at which it was to begin, or no file
/// has a record.
fn none_sent<'a>(first: Option<FileRecord<'a>>) -> FeedLine<'a> {
    match first {
        Some(FileRecord { file, number }) if number > 1 => FeedLine::Short { from: number, file },
        _ => FeedLine::Sent { count: 0 },
    }
}

/// Says how many records were sent, how many of them are refused, and which is the first. If all may be taken, it is
/// said only if somebody is shown it; that none was sent is always said.
fn tell_sent(
    rt: &HostRuntime,
    progress: &FeedProgress<'_>,
    config: Option<&str>,
    first: Option<FileRecord<'_>>,
    is_shown: bool,
) {
    let count = progress.sent.count;
    match (progress.tally.first(), progress.refused_in) {
        (Some(first), Some(file)) => {
            let line = FeedLine::Refused {
                count,
                refused: progress.tally.refused(),
                config,
                file,
                first,
                kind: progress.kind,
            };
            let _ = eprintln!(rt; "{line}");
        }
        _ if count == 0 => {
            let _ = eprintln!(rt; "{}", none_sent(first));
        }
        _ if is_shown => {
            if config.is_none() {
                let _ = eprintln!(rt; "{}", FeedLine::AnyStation);
            }
            let _ = eprintln!(rt; "{}", FeedLine::Sent { count });
        }
        _ => {}
    }
}

/// The record at which a feed begins: the one that was asked for, and otherwise the first.
fn first_record(from: Option<usize>) -> u64
    ensures { result ≡ first_record from }
{
    match from {
        Some(record) => record as u64,
        None => 1,
    }
}

/// The record at which a feed begins, of the first file.
fn beginning_of<'a>(files: &[&'a str], from: u64) -> Option<FileRecord<'a>> {
    match files.first() {
        Some(file) => Some(FileRecord {
            file: *file,
            number: from,
        }),
        None => None,
    }
}

/// The seconds that were asked for.
fn limit_of(timeout: Option<usize>) -> Option<u64> {
    match timeout {
        Some(seconds) => Some(seconds as u64),
        None => None,
    }
}

/// Sends the records of files to a server that has records of these stations, and tells what came of it.
fn feed_by<'a, S: Stations>(
    rt: &HostRuntime,
    server: &'a str,
    files: &[&'a str],
    options: FeedOptions<'a>,
    stations: &S,
    is_verbose: bool,
) -> Result<(), Incident<'a>> {
    let rules = FeedRules {
        stations,
        is_strict: options.is_strict,
        skips: options.skips,
        limit: limit_of(options.timeout),
        is_shown: is_verbose || is_terminal(),
    };
    let mut progress = FeedProgress::new();
    let from = first_record(options.from);
    let sent = send_and_wait(rt, server, files, from, &rules, &mut progress);
    if sent.is_ok() {
        tell_repeated(rt, files);
        let first = beginning_of(files, from);
        tell_sent(rt, &progress, options.config, first, rules.is_shown);
    } else if rules.is_shown {
        let _ = eprintln!(rt; "{}", progress.sent);
    }
    sent
}

/// Sends the records of files to a server, those of the first file from a record on, and waits until it has read them.
///
/// If records are refused by every server, or with `--config` by one with that configuration, if none was sent, or with
/// `is_verbose` or at a terminal, the last line of the standard error says how many records were sent, how many are
/// refused, and which is the first. At a fault, with `is_verbose` or at a terminal, a line says how many records the
/// connection has taken whole, and which was the last. If sixteen records in a row can't be read, a line says so at
/// once; with `--strict` they are the last that is sent, and the fault is that of the first. With `--skip` bytes that
/// are in no record are passed over, and a line tells of them.
pub fn feed_files<'a>(
    rt: &HostRuntime,
    server: &'a str,
    files: &[&'a str],
    options: FeedOptions<'a>,
    is_verbose: bool,
) -> Result<(), Incident<'a>> {
    match options.config {
        Some(path) => {
            let read = checked_config_at(rt, path, false)?;
            let stations = ConfiguredStations::new(read.config());
            feed_by(rt, server, files, options, &stations, is_verbose)
        }
        None => feed_by(rt, server, files, options, &AllStations, is_verbose),
    }
}
