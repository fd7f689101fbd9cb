//! The words of the command line: which job they ask for, or what is wrong with them.
//!
//! Which words are taken, and what is found in them, is what `clap` says. That each option comes to its field is tried
//! from outside, by the rows of `tests`.
ghost use Rattle.std.specs.Prelude.{◌≡◌, IfOk, IfSome};
ghost use Rattle.command_line.specs.Jobs.{InRange, IsFeeding, IsJob, goes_on, is_askable, is_spelled, is_without_page};

use crate::amounts::{number_in, period_in, seconds_in};
use crate::commands::program;
use crate::faults::{asks_for_faults, faults_text};
use crate::job::{
    CheckOptions, FeedOptions, Job, ReadOptions, Request, ServeOptions, ViewOptions, WordsFault,
};
use crate::mistakes::{mistake_text, text_of};
use clap::ArgMatches;
use clap::error::ErrorKind;
use std::alloc::{AllocError, Global};

/// The text of an argument, where it has one.
pub fn text_at<'a>(arguments: &ArgMatches<'a>, name: &str) -> Option<&'a str> {
    arguments.get_str(name)
}

/// All texts of an argument, where it has some.
pub fn texts_at<'m, 'a>(arguments: &'m ArgMatches<'a>, name: &str) -> Option<&'m [&'a str]> {
    arguments.get_strs(name)
}

/// Whether a flag was given.
fn has_flag(arguments: &ArgMatches<'_>, name: &str) -> bool {
    text_at(arguments, name) == Some("true")
}

/// The options of `check`.
fn check_options<'a>(arguments: &ArgMatches<'a>) -> CheckOptions<'a> {
    CheckOptions {
        is_iso: has_flag(arguments, "iso"),
        has_summary: has_flag(arguments, "summary"),
        is_quiet: has_flag(arguments, "quiet"),
        has_gaps: has_flag(arguments, "gaps"),
        config: text_at(arguments, "config"),
    }
}

fn check_job<'a>(alloc: Global, arguments: &ArgMatches<'a>) -> Result<Option<Job<'a>>, AllocError>
    ensures { IfOk result (λ job. IfSome job IsJob) }
{
    let Some(names) = texts_at(arguments, "FILE") else {
        return Ok(None);
    };
    let files = names.to_vec(alloc)?;
    Ok(Some(Job::Check {
        files,
        options: check_options(arguments),
    }))
}

fn replay_job<'a>(arguments: &ArgMatches<'a>) -> Option<Job<'a>>
    ensures { IfSome result IsJob }
{
    let config = text_at(arguments, "CONFIG")?;
    let script = text_at(arguments, "SCRIPT")?;
    Some(Job::Replay {
        config,
        script,
        is_text: has_flag(arguments, "text"),
    })
}

fn view_job<'a>(arguments: &ArgMatches<'a>) -> Option<Job<'a>>
    ensures { IfSome result IsJob }
{
    let config = text_at(arguments, "CONFIG")?;
    let options = ViewOptions {
        config,
        who: text_at(arguments, "WHO"),
        station: text_at(arguments, "station"),
        is_strict: has_flag(arguments, "strict"),
    };
    if options.who.is_some() && options.station.is_some() {
        return None;
    }
    Some(Job::View(options))
}

/// Whether they say something of a status page that is not asked for.
fn is_without_page(options: &ServeOptions<'_>) -> bool
    ensures { result ≡ is_without_page options.now }
{
    options.status.is_none()
        && (options.status_from.is_some()
            || options.status_name.is_some()
            || options.silent.is_some())
}

fn serve_job<'a>(arguments: &ArgMatches<'a>) -> Option<Job<'a>>
    ensures { IfSome result IsJob }
{
    let config = text_at(arguments, "CONFIG")?;
    let listen = text_at(arguments, "listen")?;
    let feed = text_at(arguments, "feed")?;
    let turns = number_in(arguments, "turns")?;
    let reread = period_in(arguments, "reread")?;
    let report = period_in(arguments, "report")?;
    let per_address = number_in(arguments, "per-address")?;
    let silent = seconds_in(arguments, "silent")?;
    let is_strict = has_flag(arguments, "strict");
    let options = ServeOptions {
        config,
        listen,
        feed,
        turns,
        reread,
        report,
        feed_from: text_at(arguments, "feed-from"),
        per_address,
        numbers: text_at(arguments, "numbers"),
        status: text_at(arguments, "status"),
        status_from: text_at(arguments, "status-from"),
        status_name: text_at(arguments, "status-name"),
        silent,
        is_logged: has_flag(arguments, "log"),
        is_strict,
    };
    if is_without_page(&options) {
        return None;
    }
    Some(Job::Serve(options))
}

/// The options of `feed`; None if the text of a number or of seconds is not one, or if `--strict` and `--skip` stand
/// together.
fn feed_options<'a>(arguments: &ArgMatches<'a>) -> Option<FeedOptions<'a>>
    ensures { IfSome result IsFeeding }
{
    let from = number_in(arguments, "from")?;
    let limit = seconds_in(arguments, "timeout")?;
    let stops = has_flag(arguments, "strict");
    let skips = has_flag(arguments, "skip");
    if stops && skips {
        return None;
    }
    Some(FeedOptions {
        from,
        config: text_at(arguments, "config"),
        is_strict: stops,
        skips,
        timeout: limit,
    })
}

fn feed_job<'a>(alloc: Global, arguments: &ArgMatches<'a>) -> Result<Option<Job<'a>>, AllocError>
    ensures { IfOk result (λ job. IfSome job IsJob) }
{
    let Some(server) = text_at(arguments, "SERVER") else {
        return Ok(None);
    };
    let Some(texts) = texts_at(arguments, "FILE") else {
        return Ok(None);
    };
    let Some(options) = feed_options(arguments) else {
        return Ok(None);
    };
    let files = texts.to_vec(alloc)?;
    Ok(Some(Job::Feed {
        server,
        files,
        options,
    }))
}

/// The options of `read`; None if the text of a number of seconds is not one.
pub fn read_options<'a>(arguments: &ArgMatches<'a>) -> Option<ReadOptions<'a>>
    ensures { IfSome result (λ o. (InRange o.retry) × (InRange o.timeout)) }
{
    let retry = seconds_in(arguments, "retry")?;
    let timeout = seconds_in(arguments, "timeout")?;
    Some(ReadOptions {
        fetch: text_at(arguments, "fetch") == Some("true"),
        begin: text_at(arguments, "begin"),
        last: text_at(arguments, "end"),
        retry,
        timeout,
        archive: text_at(arguments, "archive"),
        output: text_at(arguments, "output"),
        wants_file: text_at(arguments, "wants"),
        state: text_at(arguments, "state"),
        is_iso: has_flag(arguments, "iso"),
        is_quiet: has_flag(arguments, "quiet"),
    })
}

/// Whether they go on by numbers after a break.
fn goes_on(options: &ReadOptions<'_>) -> bool
    ensures { result ≡ goes_on options.now }
{
    options.retry.is_some() || options.state.is_some()
}

/// Whether SeedLink can spell them: an end stands only beside a begin, and not beside `--fetch`, `--retry` or
/// `--state`.
fn is_spelled(options: &ReadOptions<'_>) -> bool
    ensures { result ≡ is_spelled options.now }
{
    options.last.is_none() || (options.begin.is_some() && !options.fetch && !goes_on(options))
}

/// Whether they can stand together: SeedLink can spell them, and records go to an archive or to an output alone.
fn is_askable(options: &ReadOptions<'_>) -> bool
    ensures { result ≡ is_askable options.now }
{
    is_spelled(options) && (options.archive.is_none() || options.output.is_none())
}

/// The words of wants; None if there is no word, and no file of wants.
fn wants_in<'a>(
    alloc: Global,
    arguments: &ArgMatches<'a>,
    has_file: bool,
) -> Result<Option<Vec<&'a str>>, AllocError> {
    match texts_at(arguments, "WANT") {
        Some(texts) => Ok(Some(texts.to_vec(alloc)?)),
        None if has_file => Ok(Some(Vec::new(alloc))),
        None => Ok(None),
    }
}

fn read_job<'a>(alloc: Global, arguments: &ArgMatches<'a>) -> Result<Option<Job<'a>>, AllocError>
    ensures { IfOk result (λ job. IfSome job IsJob) }
{
    let Some(options) = read_options(arguments) else {
        return Ok(None);
    };
    let Some(server) = text_at(arguments, "SERVER") else {
        return Ok(None);
    };
    let Some(wants) = wants_in(alloc, arguments, options.wants_file.is_some())? else {
        return Ok(None);
    };
    if !is_askable(&options) {
        return Ok(None);
    }
    Ok(Some(Job::Read {
        server,
        wants,
        options,
    }))
}

fn status_job<'a>(arguments: &ArgMatches<'a>) -> Option<Job<'a>>
    ensures { IfSome result IsJob }
{
    let server = text_at(arguments, "SERVER")?;
    Some(Job::Status {
        server,
        is_silent: has_flag(arguments, "silent"),
    })
}

/// Whether an option has no text.
fn is_empty_in(arguments: &ArgMatches<'_>, name: &str) -> bool {
    match text_at(arguments, name) {
        Some(text) => text.is_empty(),
        None => false,
    }
}

/// Whether an option that names a file or a folder names none, as one whose text is a variable that isn't set.
pub fn names_nothing(arguments: &ArgMatches<'_>) -> bool {
    is_empty_in(arguments, "archive")
        || is_empty_in(arguments, "output")
        || is_empty_in(arguments, "state")
        || is_empty_in(arguments, "wants")
        || is_empty_in(arguments, "numbers")
        || is_empty_in(arguments, "config")
}

fn job_in<'a>(alloc: Global, matches: &ArgMatches<'a>) -> Result<Option<Job<'a>>, AllocError>
    ensures { IfOk result (λ job. IfSome job IsJob) }
{
    let Some((name, arguments)) = matches.subcommand() else {
        return Ok(None);
    };
    if names_nothing(arguments) {
        return Ok(None);
    }
    match name {
        "check" => check_job(alloc, arguments),
        "replay" => Ok(replay_job(arguments)),
        "view" => Ok(view_job(arguments)),
        "serve" => Ok(serve_job(arguments)),
        "feed" => feed_job(alloc, arguments),
        "read" => read_job(alloc, arguments),
        "status" => Ok(status_job(arguments)),
        _ => Ok(None),
    }
}

/// Whether the flag `--verbose` stands among the arguments of one command.
fn is_verbose(arguments: &ArgMatches<'_>) -> bool {
    text_at(arguments, "verbose") == Some("true")
}

/// Whether it stands before the subcommand or after it.
fn is_verbose_anywhere(matches: &ArgMatches<'_>) -> bool {
    is_verbose(matches) || is_verbose_below(matches)
}

/// Whether it stands after the subcommand.
fn is_verbose_below(matches: &ArgMatches<'_>) -> bool {
    match matches.subcommand() {
        Some((_, arguments)) => is_verbose(arguments),
        None => false,
    }
}

/// Whether the user asked to be shown help or the version, and made no mistake.
fn is_shown(kind: ErrorKind) -> bool {
    matches!(kind, ErrorKind::DisplayHelp | ErrorKind::DisplayVersion)
}

/// The text for the user of words that `clap` refuses: the table of faults if that is asked for, else what `clap` says.
fn refusal_text(alloc: Global, error: clap::Error, words: &[String]) -> Result<String, AllocError> {
    if is_shown(error.kind()) && asks_for_faults(words) {
        return faults_text(alloc);
    }
    text_of(alloc, error)
}

/// What the user is told of words that `clap` refuses.
fn refused(alloc: Global, error: clap::Error, words: &[String]) -> WordsFault {
    let kind = error.kind();
    if kind == ErrorKind::OutOfMemory {
        return WordsFault::OutOfMemory;
    }
    match refusal_text(alloc, error, words) {
        Ok(text) => WordsFault::Refused {
            text,
            is_help: is_shown(kind),
        },
        Err(_) => WordsFault::OutOfMemory,
    }
}

/// What the user is told of words that `clap` takes and that are no job.
fn mistaken(alloc: Global, matches: &ArgMatches<'_>) -> WordsFault {
    match mistake_text(alloc, matches) {
        Ok(text) => WordsFault::Refused {
            text,
            is_help: false,
        },
        Err(_) => WordsFault::OutOfMemory,
    }
}

/// The job that a command line asks for, and whether faults are to be explained. Its first word is the program's name.
/// The options of the job can stand together, and each of its numbers is in its range.
///
/// It fails with Refused if the words are no job, with the text that `clap` has for the user (for `--help faults` the
/// table of all faults) and whether that is help or the version, and with OutOfMemory if there is no memory.
pub fn read_words<'a>(alloc: Global, words: &'a [String]) -> Result<Request<'a>, WordsFault>
    ensures { IfOk result (λ request. IsJob request.job) }
{
    let Ok(command) = program(alloc) else {
        return Err(WordsFault::OutOfMemory);
    };
    match command.try_get_matches_from(words) {
        Ok(matches) => match job_in(alloc, &matches) {
            Ok(Some(job)) => {
                let is_verbose = is_verbose_anywhere(&matches);
                Ok(Request { job, is_verbose })
            }
            Ok(None) => Err(mistaken(alloc, &matches)),
            Err(_) => Err(WordsFault::OutOfMemory),
        },
        Err(error) => Err(refused(alloc, error, words)),
    }
}
