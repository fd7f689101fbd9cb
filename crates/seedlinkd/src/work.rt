//! What is done for each job.
ghost use Rattle.std.specs.Prelude.{◌≡◌, IfOk, IsErr, Ok, OnErr, OnOk};
ghost use Rattle.seedlinkd.specs.Outcomes.{outcome_of};
ghost use Rattle.seedlinkd.specs.Words.{stations_by, style_by};
ghost use Rattle.seedlinkd.specs.declared.work.Outcome.TheVariants.{Done};

use command_line::Job;
use incidents::Incident;
use job_base::is_terminal;
use job_check::{ReplayStyle, check_files, replay_files, view_file};
use job_feed::feed_files;
use job_read::read_servers;
use job_serve::{ServeRequest, serve_sockets};
use job_status::{Stations, tell_status};

/// How a replay writes what happens, by whether `--text` was given.
fn style_of(is_text: bool) -> ReplayStyle
    ensures { result ≡ style_by is_text }
{
    if is_text {
        ReplayStyle::Dialogue
    } else {
        ReplayStyle::Hexadecimal
    }
}

/// Which stations of a server are told, by whether `--silent` was given.
fn stations_of(is_silent: bool) -> Stations
    ensures { result ≡ stations_by is_silent }
{
    if is_silent {
        Stations::Silent
    } else {
        Stations::All
    }
}

/// What a job that was done came to.
#[derive(Clone, Copy, Drop)]
pub enum Outcome {
    /// Nothing more is to be said.
    Done,
    /// A station of the server that was asked is silent.
    Silent,
}

/// What a job comes to that only ends.
fn done<'a>(ended: Result<(), Incident<'a>>) -> Result<Outcome, Incident<'a>>
    ensures done { OnOk ended.entry (result ≡ Ok Done) }
    ensures fault { OnErr ended.entry (IsErr result) }
{
    ended?;
    Ok(Outcome::Done)
}

/// What a look at a server comes to, by whether a station is silent.
fn looked<'a>(is_silent: Result<bool, Incident<'a>>) -> Result<Outcome, Incident<'a>>
    ensures done { IfOk is_silent.entry (λ silent. result ≡ Ok (outcome_of silent)) }
    ensures fault { OnErr is_silent.entry (IsErr result) }
{
    match is_silent? {
        true => Ok(Outcome::Silent),
        false => Ok(Outcome::Done),
    }
}

/// Does what a job asks. With `is_verbose`, or at a terminal, faults that don't end a server are explained.
pub fn run_job<'a>(
    rt: &HostRuntime,
    job: Job<'a>,
    is_verbose: bool,
) -> Result<Outcome, Incident<'a>> {
    match job {
        Job::Check { files, options } => {
            done(check_files(rt, files.as_slice(), options, is_verbose))
        },
        Job::Replay {
            config,
            script,
            is_text,
        } => {
            let style = style_of(is_text);
            done(replay_files(rt, style, config, script, is_verbose))
        }
        Job::View(options) => done(view_file(rt, options)),
        Job::Serve(options) => {
            let is_verbose = is_verbose || is_terminal();
            done(serve_sockets(
                rt,
                ServeRequest {
                    options,
                    is_verbose,
                },
            ))
        }
        Job::Feed {
            server,
            files,
            options,
        } => done(feed_files(rt, server, files.as_slice(), options, is_verbose)),
        Job::Read {
            server,
            wants,
            options,
        } => done(read_servers(rt, server, wants.as_slice(), options, is_verbose)),
        Job::Status { server, is_silent } => {
            looked(tell_status(rt, server, stations_of(is_silent)))
        }
    }
}
