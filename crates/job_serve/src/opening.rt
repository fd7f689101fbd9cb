//! What a server has before it listens: where it is to, whom it takes, and what its files say.
ghost use Rattle.std.specs.Prelude.{◌≡◌, IfOk, IfSome, Ok, Some, is_some, map};
ghost use Rattle.toml.specs.Parse.{parse_document};
ghost use Rattle.catalog.specs.Reading.{config_read};
ghost use Rattle.catalog.specs.Numbers.{numbered};
ghost use Rattle.number_file.specs.Keeping.{AreKeepable};
ghost use Rattle.job_base.specs.Endpoints.{endpoint_of, endpoint_value};
ghost use Rattle.job_serve.specs.Admitting.{AsksBy, FromList};

use crate::admitting::admission_of;
use crate::descriptors::tell_missing;
use crate::numbers::NumberFile;
use crate::status::{StatusDoor, status_door};
use catalog::Config;
use command_line::ServeOptions;
use config_explained::{ConfigText, Remarked, open_to_everybody};
use incidents::Incident;
use job_base::{
    ServerAddress, config_at, is_terminal, judged_config_in, plain_at, server_of,
    tell_list_remarks, tell_remarks, tell_unknown_keys, text_at,
};
use ports_socket::Admission;
use std::alloc::Global;
use text_parts::period::Period;

/// Where a server is to be, and whom it takes.
#[derive(Drop)]
pub struct ServerDoors<'a> {
    pub clients: ServerAddress<'a>,
    pub feeds: ServerAddress<'a>,
    pub admission: Admission,
    pub status: Option<StatusDoor<'a>>,
}

/// What the words say of that.
pub fn doors_of<'a>(
    alloc: Global,
    options: &ServeOptions<'a>,
) -> Result<ServerDoors<'a>, Incident<'a>>
    ensures feeds { IfOk result (λ doors. FromList options.now.feed_from doors.admission.feed_from) }
    ensures clients { IfOk result (λ doors. doors.admission.per_address ≡ options.now.per_address) }
    ensures listen { IfOk result (λ doors.
        endpoint_of options.now.listen.now ≡ Some (endpoint_value doors.clients.endpoint)) }
    ensures feed { IfOk result (λ doors.
        endpoint_of options.now.feed.now ≡ Some (endpoint_value doors.feeds.endpoint)) }
    ensures status { IfOk result (λ doors. is_some doors.status ≡ is_some options.now.status) }
    ensures askers { IfOk result (λ doors.
        IfSome doors.status (λ door. FromList options.now.status_from door.list)) }
    ensures name { IfOk result (λ doors.
        IfSome doors.status (λ door. AsksBy options.now.status_name door.name.items)) }
{
    let clients = server_of(options.listen)?;
    let feeds = server_of(options.feed)?;
    let admission = admission_of(alloc, options)?;
    let status = status_door(alloc, options)?;
    Ok(ServerDoors {
        clients,
        feeds,
        admission,
        status,
    })
}

/// What a server serves, and how many of its stations everybody may use, if that is told.
#[derive(Drop)]
pub struct Served<'a> {
    /// The configuration that it begins with: what was read, and the kept numbers.
    pub config: Config,
    pub open: usize,
    pub files: ServedFiles<'a>,
}

/// What the files of a server said when it began.
#[derive(Drop)]
pub struct ServedFiles<'a> {
    /// The configuration that it begins with once more, for whoever compares a new one with it.
    pub in_force: Config,
    /// The same as it was read.
    pub read: ConfigText,
    pub numbers: Option<Box<NumberFile<'a>>>,
}

/// The configuration in a file. If it is refused for several faults, each is named, if faults are explained.
fn config_of<'a>(
    rt: &HostRuntime,
    path: &'a str,
    is_verbose: bool,
) -> Result<ConfigText, Incident<'a>>
    ensures { IfOk result (λ read. config_read (parse_document read.text) ≡ Ok read.config) }
{
    if is_verbose {
        let text = text_at(rt, path)?;
        judged_config_in(rt, path, text)
    } else {
        config_at(rt, path)
    }
}

/// Reads the files that the words name. If the configuration is refused, and faults are explained, each of its faults
/// is named. The keys of the configuration that are not known are named, and so are entries of lists that admit
/// something else than they look like. A configuration that is to be read again has to be a plain file. Where the words
/// name a file of numbers, they are kept there.
pub fn served_by<'a>(
    rt: &HostRuntime,
    options: &ServeOptions<'a>,
    is_verbose: bool,
) -> Result<Served<'a>, Incident<'a>>
    ensures numbers { IfOk result (λ served. is_some served.files.numbers ≡ is_some options.now.numbers) }
    ensures in_force { IfOk result (λ served. served.files.in_force ≡ served.config) }
{
    if options.reread.is_some() {
        plain_at(rt, options.config)?;
    }
    let read = config_of(rt, options.config, is_verbose)?;
    tell_unknown_keys(rt, options.config, &read, options.is_strict)?;
    tell_lists(rt, options, &read);
    tell_periods(rt, options, is_verbose);
    let open = open_for(rt.alloc(), options, &read)?;
    tell_missing(rt, read.config().max_connections());
    let mut config = copy_of(rt.alloc(), read.config())?;
    let numbers = match options.numbers {
        Some(path) => Some(numbers_at(rt, path, &mut config)?),
        None => None,
    };
    let in_force = copy_of(rt.alloc(), &config)?;
    Ok(Served {
        config,
        open,
        files: ServedFiles {
            in_force,
            read,
            numbers,
        },
    })
}

/// Tells that everybody may feed, if nothing keeps others than this machine away.
fn tell_open_feeds(rt: &HostRuntime, options: &ServeOptions<'_>) {
    if options.feed_from.is_none() && !options.feed.starts_with("127.") {
        let feed = options.feed;
        let _ = eprint!(rt; "seedlinkd: without --feed-from everybody may feed at {feed}\n");
    }
}

/// Tells that this machine alone may ask for the status, if others would expect to.
fn tell_closed_status(rt: &HostRuntime, options: &ServeOptions<'_>) {
    let Some(status) = options.status else {
        return;
    };
    if options.status_from.is_none() && !status.starts_with("127.") {
        let _ = eprint!(rt;
            "seedlinkd: without --status-from this machine alone may ask at {status}\n"
        );
    }
}

/// Tells that a number without a unit counts turns, and not seconds.
fn tell_turns(rt: &HostRuntime, option: &str, period: Option<Period>) {
    if let Some(Period::Turns(turns)) = period {
        let _ = eprint!(rt; "seedlinkd: {option} {turns} counts turns: {turns}s is by time\n");
    }
}

/// Tells that of how often something is done, at a terminal or if faults are explained.
fn tell_periods(rt: &HostRuntime, options: &ServeOptions<'_>, is_verbose: bool) {
    if is_verbose || is_terminal() {
        tell_turns(rt, "--reread", options.reread);
        tell_turns(rt, "--report", options.report);
    }
}

/// Names what lists admit that they don't look like: those of the configuration, and those of the words. Entries of the
/// configuration that are `0.0.0.0/0` are not named: a server that is open to everybody would say so of each of its
/// stations.
fn tell_lists(rt: &HostRuntime, options: &ServeOptions<'_>, read: &ConfigText) {
    tell_remarks(rt, Remarked::OddEntries, read);
    tell_list_remarks(rt, "--feed-from", options.feed_from);
    tell_open_feeds(rt, options);
    tell_list_remarks(rt, "--status-from", options.status_from);
    tell_closed_status(rt, options);
}

/// A configuration once more.
pub fn copy_of<'a>(alloc: Global, config: &Config) -> Result<Config, Incident<'a>>
    ensures { IfOk result (λ copy. copy ≡ config.now) }
{
    match config.copy(alloc) {
        Ok(copy) => Ok(copy),
        Err(_) => Err(Incident::out_of_memory()),
    }
}

/// The file of numbers that a word names, with which a configuration begins.
fn numbers_at<'a>(
    rt: &HostRuntime,
    path: &'a str,
    config: &mut Config,
) -> Result<Box<NumberFile<'a>>, Incident<'a>>
    requires { AreKeepable (map numbered config.old.entries) }
{
    match Box::new(rt.alloc(), NumberFile::open(rt, path, config)?) {
        Ok(file) => Ok(file),
        Err(_) => Err(Incident::out_of_memory()),
    }
}

/// Whether it is told where the server listens: it logs, or the standard error is a terminal.
pub fn is_start_told(options: &ServeOptions<'_>) -> bool {
    options.is_logged || is_terminal()
}

/// How many stations everybody may use, if that is told.
fn open_for<'a>(
    alloc: Global,
    options: &ServeOptions<'a>,
    read: &ConfigText,
) -> Result<usize, Incident<'a>> {
    if !is_start_told(options) {
        return Ok(0);
    }
    match open_to_everybody(alloc, read) {
        Ok(open) => Ok(open),
        Err(_) => Err(Incident::out_of_memory()),
    }
}
