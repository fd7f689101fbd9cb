//! Reads records from a server.
ghost use Rattle.std.specs.Prelude.{◌≡◌, is_some};
ghost use Rattle.job_read.specs.Asking.{is_told};

use crate::adding::{WholeFile, mend_end, output_at};
use crate::archiving::{archive_at, at_archive, unlocked};
use crate::asking::Renewal;
use crate::begins::Begins;
use crate::connections::ServersInTurn;
use crate::endings::{TransferFault, goes_on};
use crate::following::follow_with;
use crate::heard_records::HeardRecords;
use crate::hearing::Listener;
use crate::inlet::Inlet;
use crate::lasting::Lasting;
use crate::moment::Moment;
use crate::patience::{Patience, pause, silence_between, time_limit};
use crate::places::Places;
use crate::returns::LastNumbers;
use crate::states::{SameFile, StateFile, StateKeeper, locked_output, refused_at};
use crate::wants::{wants_of, wants_text};
use crate::windows::Moments;
use command_line::ReadOptions;
use continued_files::FileLength;
use incidents::{Failure, Incident, Place, Site};
use job_base::{
    ErrorOutput, ReasonKeeper, ServerAddress, is_output_terminal, is_terminal, server_of,
    tell_incident, times_of, unopened,
};
use protocol::reason::Reason;
use reader_run::{Break, Gathered, ListingFault, Nowhere, PacketLines, RecordSink};
use sl_io::{Outer, Sink};
use slreader::{Tally, Want, Window};
use std::alloc::{AllocError, Global};
use std::fs::{File, OpenOptions};
use std::time::Duration;
use std::{fs, io, thread};

/// The servers that a word names, with commas between them.
fn servers_of<'a>(alloc: Global, word: &'a str) -> Result<Vec<ServerAddress<'a>>, Incident<'a>> {
    let mut servers = Vec::new(alloc);
    for part in word.split(',') {
        let server = server_of(part)?;
        if servers.push(server).is_err() {
            return Err(Incident::out_of_memory());
        }
    }
    Ok(servers)
}

/// What is read, and of which servers.
#[derive(Drop)]
pub struct Reading<'a, 'w> {
    pub servers: Vec<ServerAddress<'a>>,
    pub wants: Vec<Want<'w>>,
    /// After how long the next server is asked, or the first one again.
    pause: Duration,
    /// Whether the first one is asked again after the last.
    is_retried: bool,
    is_verbose: bool,
    /// Whether it is told what is met.
    pub is_told: bool,
    /// Whether records go to an archive, which says itself how many have no place there.
    pub is_archived: bool,
    /// When wants that are refused are asked again.
    pub renewal: Renewal,
    /// When a server that is silent is left.
    pub patience: Patience,
    /// Which lines tell of packets.
    pub lines: PacketLines,
    /// What connections and files have to say to each other.
    pub moment: Moment,
    /// Whether it is shown how far the reading is.
    pub is_measured: bool,
}

impl<'a> Reading<'a, '_> {
    ghost use Rattle.std.specs.Prelude.{◌≡◌, true, false, IfErr, OnOk};
    ghost use Rattle.job_read.specs.Endings.{goes_on};

    /// Whether somebody wants to know that nothing comes: explanations are asked for, or standard error is a terminal.
    pub fn is_shown(&self) -> bool {
        self.is_verbose || is_terminal()
    }

    /// Tells a failure after which the next server is asked, and waits before that: a server that is a moment behind
    /// the last one would hand out records again. It fails with a failure that ends the reading.
    pub fn pass_over(
        &self,
        rt: &HostRuntime,
        incident: Incident<'a>,
        places: &Places,
    ) -> Result<(), Incident<'a>>
        ensures passed { OnOk result (goes_on incident.entry.failure.reason places.now.place places.now.count
            self.now.is_retried ≡ true) }
        ensures ended { IfErr result (λ ended. (ended ≡ incident.entry)
            × (goes_on incident.entry.failure.reason places.now.place places.now.count self.now.is_retried ≡ false)) }
    {
        if !goes_on(incident.failure.reason, places, self.is_retried) {
            return Err(incident);
        }
        tell_incident(rt, incident, self.is_verbose);
        thread::sleep(rt, self.pause);
        Ok(())
    }
}

/// A file to which records are added.
fn opened_to_add<'a>(rt: &HostRuntime, path: &'a str) -> Result<File, Incident<'a>> {
    let mut options = OpenOptions::new();
    options.append(true);
    options.create(true);
    match options.open(rt, path) {
        Ok(file) => Ok(file),
        Err(reason) => Err(
            Failure::of(Reason::File)
                .at(Place::File(path))
                .because(reason),
        ),
    }
}

/// The same, and once more the same open file, to put what was added on the disk.
fn opened_twice<'a>(rt: &HostRuntime, path: &'a str) -> Result<(File, SameFile<'a>), Incident<'a>> {
    let opened = opened_to_add(rt, path)?;
    match opened.try_clone() {
        Ok(file) => Ok((opened, SameFile { path, file })),
        Err(reason) => Err(unopened(path, reason)),
    }
}

/// Asks one server after the other, and the first one again after a pause if there is one, each of them for what comes
/// after the packets that were written. With a state it begins after what that tells of, and keeps there how far it is.
/// A failure after which it goes on is told.
fn list_on<'a, O: Sink + Drop, P: RecordSink + Lasting>(
    rt: &HostRuntime,
    reading: &Reading<'a, '_>,
    state: Option<Box<StateFile<'a>>>,
    output: Option<SameFile<'a>>,
    out: O,
    records: &mut HeardRecords<'_, 'a, '_, P>,
) -> Result<(), Incident<'a>> {
    match begun_after(rt.alloc(), reading, &state, records) {
        Ok(mut tally) => list_after(rt, reading, &mut tally, state, output, out, records),
        Err(AllocError) => Err(Incident::out_of_memory()),
    }
}

/// What is counted before the first packet. What is met after it is told, if it is to be.
fn begun_after<P>(
    alloc: Global,
    reading: &Reading<'_, '_>,
    state: &Option<Box<StateFile<'_>>>,
    records: &mut HeardRecords<'_, '_, '_, P>,
) -> Result<Tally, AllocError> {
    let tally = tally_after(alloc, &reading.wants, state)?;
    if reading.is_told {
        records.listen(Listener::new(alloc, &reading.wants, &tally)?);
    }
    if reading.is_told || reading.is_shown() {
        records.await_begins(Begins::new(alloc, &reading.wants, &tally)?);
    }
    Ok(tally)
}

/// Ends what is told of records as a reading ended, which is answered. With a state it isn't told that nothing came.
fn finished<'a, P: RecordSink + Lasting>(
    records: &mut HeardRecords<'_, 'a, '_, P>,
    has_state: bool,
    ended: Result<(), Incident<'a>>,
) -> Result<(), Incident<'a>> {
    records.finish(ended.is_ok() && !has_state);
    ended
}

/// The same, after the packets that were counted.
fn list_after<'a, 'r, O: Sink + Drop, P: RecordSink + Lasting>(
    rt: &'r HostRuntime,
    reading: &'r Reading<'a, '_>,
    tally: &mut Tally,
    state: Option<Box<StateFile<'a>>>,
    output: Option<SameFile<'a>>,
    mut out: O,
    records: &mut HeardRecords<'_, 'a, '_, P>,
) -> Result<(), Incident<'a>> {
    let has_state = state.is_some();
    let inlet = Inlet::new();
    let mut servers = ServersInTurn::new(rt, reading, &inlet);
    let mut keeper = StateKeeper::new(
        rt,
        state,
        &reading.wants,
        output,
        &inlet,
        &reading.patience,
        &reading.moment,
    );
    let read = follow_with(
        rt.alloc(),
        reading,
        tally,
        &mut servers,
        &mut out,
        records,
        &mut keeper,
    );
    match read {
        Ok(()) => finished(records, has_state, Ok(())),
        Err(Break::Server(incident)) => {
            finished(records, has_state, server_ended(incident, reading))
        }
        Err(Break::Listing(fault)) => {
            let incident = met_at(fault, servers.server(), keeper.site());
            finished(records, has_state, Err(incident))
        }
    }
}

/// How a reading ended that no server mended: at its end, if nothing more came of its window.
fn server_ended<'a>(incident: Incident<'a>, reading: &Reading<'_, '_>) -> Result<(), Incident<'a>> {
    if reading.patience.is_over() {
        Ok(())
    } else {
        Err(incident)
    }
}

/// What a listing met at a server, or where the state could not be kept.
fn met_at<'a>(
    fault: ListingFault,
    server: Result<ServerAddress<'a>, Incident<'a>>,
    site: Option<Site<'a>>,
) -> Incident<'a> {
    match server {
        Ok(server) => TransferFault::Listing(fault)
            .failure()
            .at_server(server.word)
            .at_site(site),
        Err(incident) => incident,
    }
}

/// What is counted before the first packet: what the state tells of, if there is one.
fn tally_after(
    alloc: Global,
    wants: &[Want<'_>],
    state: &Option<Box<StateFile<'_>>>,
) -> Result<Tally, AllocError> {
    match state {
        Some(state) => Tally::after(alloc, wants, state.before()),
        None => Tally::before(alloc, wants),
    }
}

/// Lists packets on the standard output, and writes no records.
fn list_lines<'a>(
    rt: &HostRuntime,
    reading: &Reading<'a, '_>,
    state: Option<Box<StateFile<'a>>>,
) -> Result<(), Incident<'a>> {
    let lines = Outer::new(io::writer(rt));
    let mut records = HeardRecords::new(rt, reading, Nowhere::new());
    list_on(rt, reading, state, None, lines, &mut records)
}

/// Lists packets on the standard error, and writes their records to the standard output.
fn list_records<'a>(
    rt: &HostRuntime,
    reading: &Reading<'a, '_>,
    state: Option<Box<StateFile<'a>>>,
) -> Result<(), Incident<'a>> {
    let lines = Outer::new(ErrorOutput::new(rt));
    let records = Gathered::new(rt.alloc(), Outer::new(io::writer(rt)));
    let mut records = HeardRecords::new(rt, reading, records);
    let same = standard_output(rt);
    list_on(rt, reading, state, same, lines, &mut records)
}

/// The plain file to which the standard output leads, if it does, once more.
fn standard_output<'a>(rt: &HostRuntime) -> Option<SameFile<'a>> {
    let path = "/dev/stdout";
    if !is_plain(rt, path) {
        return None;
    }
    match OpenOptions::new().append(true).open(rt, path) {
        Ok(file) => Some(SameFile { path: "-", file }),
        Err(_) => None,
    }
}

/// Lists packets on the standard output, and adds their records to a file.
fn list_and_add<'a>(
    rt: &HostRuntime,
    reading: &Reading<'a, '_>,
    state: Option<Box<StateFile<'a>>>,
    path: &'a str,
) -> Result<(), Incident<'a>> {
    if !is_plain(rt, path) {
        return list_and_append(rt, reading, state, path);
    }
    match state {
        Some(state) => list_and_go_on(rt, reading, state, path),
        None => {
            mend_end(rt, path)?;
            list_and_append(rt, reading, None, path)
        }
    }
}

/// The same, to whatever the path names.
fn list_and_append<'a>(
    rt: &HostRuntime,
    reading: &Reading<'a, '_>,
    state: Option<Box<StateFile<'a>>>,
    path: &'a str,
) -> Result<(), Incident<'a>> {
    let (file, same) = opened_twice(rt, path)?;
    let lines = Outer::new(io::writer(rt));
    let file = Outer::new(ReasonKeeper::new(WholeFile::new(file)));
    let mut records = HeardRecords::new(rt, reading, Gathered::new(rt.alloc(), file));
    match list_on(rt, reading, state, Some(same), lines, &mut records) {
        Ok(()) => Ok(()),
        Err(incident) => {
            let records = records.into_inner();
            let reason = records.into_sink().into_inner().into_reason();
            Err(incident.at_file(path, reason))
        }
    }
}

/// The same, to a plain file, in which the reader goes on after what the state says of it: each record is added once.
fn list_and_go_on<'a>(
    rt: &HostRuntime,
    reading: &Reading<'a, '_>,
    mut state: Box<StateFile<'a>>,
    path: &'a str,
) -> Result<(), Incident<'a>> {
    drop_file(opened_to_add(rt, path)?);
    let lock = locked_output(rt, path)?;
    state.name_output(rt, path)?;
    let Ok(lengths) = state.lengths(rt.alloc()) else {
        return Err(Incident::out_of_memory());
    };
    let Ok(numbers) = LastNumbers::new(rt.alloc(), &reading.wants, state.before(), false) else {
        return Err(Incident::out_of_memory());
    };
    let records = output_at(rt, path, lengths, numbers, &reading.moment, lock);
    let mut records = HeardRecords::new(rt, reading, records);
    let lines = Outer::new(io::writer(rt));
    let read = list_on(rt, reading, Some(state), None, lines, &mut records);
    if let (Err(_), Some(reason)) = (&read, records.inner_mut().take_unlocked()) {
        return Err(refused_at(path, reason));
    }
    match read {
        Ok(()) => Ok(()),
        Err(incident) => Err(incident.at_file(path, records.inner_mut().take_reason())),
    }
}

/// A file is closed.
fn drop_file<F: Drop>(_file: F) {}

/// Whether a path names a plain file, or nothing yet.
fn is_plain(rt: &HostRuntime, path: &str) -> bool {
    match fs::metadata(rt, path) {
        Ok(found) => found.is_file(),
        Err(reason) => reason.kind() == io::ErrorKind::NotFound,
    }
}

/// Lists packets on the standard output, and adds their records to an archive.
fn list_and_archive<'a>(
    rt: &HostRuntime,
    reading: &Reading<'a, '_>,
    state: Option<Box<StateFile<'a>>>,
    top: &'a str,
) -> Result<(), Incident<'a>> {
    let lengths = lengths_in(rt.alloc(), &state)?;
    let numbers = numbers_in(rt.alloc(), reading, &state)?;
    let moment = &reading.moment;
    let archive = archive_at(rt, top, lengths, &reading.wants, numbers, moment)?;
    let mut archive = HeardRecords::new(rt, reading, archive);
    let lines = Outer::new(io::writer(rt));
    let read = list_on(rt, reading, state, None, lines, &mut archive);
    let failure = archive.inner_mut().end();
    if let (Err(_), Some(fault)) = (&read, archive.inner_mut().take_unlocked()) {
        return Err(unlocked(top, fault));
    }
    match read {
        Ok(()) => Ok(()),
        Err(incident) => Err(at_archive(incident, failure, top)),
    }
}

/// The numbers of the last packets that a state tells of. Without one, files have no tail, and none are needed.
fn numbers_in<'a>(
    alloc: Global,
    reading: &Reading<'a, '_>,
    state: &Option<Box<StateFile<'a>>>,
) -> Result<LastNumbers, Incident<'a>> {
    let Some(state) = state else {
        return Ok(LastNumbers::none(alloc));
    };
    match LastNumbers::new(alloc, &reading.wants, state.before(), true) {
        Ok(numbers) => Ok(numbers),
        Err(_) => Err(Incident::out_of_memory()),
    }
}

/// The lengths of files that a state tells of, if there is one.
fn lengths_in<'a>(
    alloc: Global,
    state: &Option<Box<StateFile<'a>>>,
) -> Result<Option<Vec<FileLength>>, Incident<'a>> {
    let Some(state) = state else {
        return Ok(None);
    };
    match state.lengths(alloc) {
        Ok(lengths) => Ok(Some(lengths)),
        Err(_) => Err(Incident::out_of_memory()),
    }
}

/// Whether it is told what is met: an archive, a state, another try, no lines of packets or explanations are asked for.
fn is_told(options: ReadOptions<'_>, is_verbose: bool) -> bool
    ensures { result ≡ is_told (is_some options.entry.archive) (is_some options.entry.state)
        (is_some options.entry.retry) options.entry.is_quiet is_verbose }
{
    options.archive.is_some()
        || options.state.is_some()
        || options.retry.is_some()
        || options.is_quiet
        || is_verbose
}

/// Which lines tell of packets.
fn lines_of(options: ReadOptions<'_>) -> PacketLines {
    if options.is_quiet {
        PacketLines::No
    } else {
        PacketLines::Each(times_of(options.is_iso))
    }
}

/// Whether it is shown how far a reading is: one with an end, to files, whose lines don't show it.
fn is_measured(options: ReadOptions<'_>) -> bool {
    let has_files = match options.output {
        Some(output) => output != "-",
        None => options.archive.is_some(),
    };
    options.fetch && has_files && is_terminal() && (options.is_quiet || !is_output_terminal())
}

/// What is said of records that would be written to a terminal.
fn unshown() -> Failure {
    Failure::by(
        Reason::Write,
        Some(
            "records are bytes that a terminal doesn't show: name a file, or lead the output into one",
        ),
    )
}

/// When one of so many servers is left for its silence.
fn patience_of(options: ReadOptions<'_>, count: usize) -> Patience {
    let is_window = options.last.is_some();
    let limit = time_limit(options.timeout, count, options.retry.is_some(), is_window);
    let between = silence_between(options.fetch, is_window);
    Patience::new(limit, between)
}

/// The state in a file, if one is named.
fn state_in<'a>(
    rt: &HostRuntime,
    path: Option<&'a str>,
) -> Result<Option<Box<StateFile<'a>>>, Incident<'a>> {
    let Some(path) = path else {
        return Ok(None);
    };
    match Box::new(rt.alloc(), StateFile::open(rt, path)?) {
        Ok(file) => Ok(Some(file)),
        Err(_) => Err(Incident::out_of_memory()),
    }
}

/// Asks servers for records, and writes a line for each packet to the standard output. With an output each record is
/// added to that file. If the output is `-`, records go to the standard output, and lines to the standard error. With
/// an archive each record is added to the file of its stream and day. With a state the reading goes on after the
/// packets that the state names, and the last packet of each station is kept in it.
pub fn read_servers<'a>(
    rt: &HostRuntime,
    servers: &'a str,
    wants: &[&'a str],
    options: ReadOptions<'a>,
    is_verbose: bool,
) -> Result<(), Incident<'a>> {
    let servers = servers_of(rt.alloc(), servers)?;
    let moments = Moments::read(rt.alloc(), options)?;
    read_between(rt, servers, wants, moments.window(), options, is_verbose)
}

/// The same, in a window.
fn read_between<'a>(
    rt: &HostRuntime,
    servers: Vec<ServerAddress<'a>>,
    wants: &[&'a str],
    window: Window<'_>,
    options: ReadOptions<'a>,
    is_verbose: bool,
) -> Result<(), Incident<'a>> {
    let listed = wants_text(rt, options.wants_file)?;
    let wants = wants_of(rt.alloc(), wants, listed.as_slice(), window, options)?;
    let patience = patience_of(options, servers.len());
    let reading = Reading {
        servers,
        wants,
        pause: Duration::from_secs(pause(options.retry)),
        is_retried: options.retry.is_some(),
        is_verbose,
        is_told: is_told(options, is_verbose),
        is_archived: options.archive.is_some(),
        renewal: Renewal::new(options.retry.is_some()),
        patience,
        lines: lines_of(options),
        moment: Moment::new(),
        is_measured: is_measured(options),
    };
    read_to(rt, &reading, options)
}

/// Reads, with the outputs and the state of the options.
fn read_to<'a>(
    rt: &HostRuntime,
    reading: &Reading<'a, '_>,
    options: ReadOptions<'a>,
) -> Result<(), Incident<'a>> {
    let state = state_in(rt, options.state)?;
    match (options.archive, options.output) {
        (Some(top), _) => list_and_archive(rt, reading, state, top),
        (None, None) => list_lines(rt, reading, state),
        (None, Some("-")) if is_output_terminal() => Err(Incident::from(unshown())),
        (None, Some("-")) => list_records(rt, reading, state),
        (None, Some(path)) => list_and_add(rt, reading, state, path),
    }
}
