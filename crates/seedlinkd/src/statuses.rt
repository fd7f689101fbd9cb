//! What the user is told, and the exit status: 0 if the job was done or help was asked for, 1 at a fault of input or of
//! a device, 2 if the command line is invalid, and 3 if a server that was asked for its status has a silent station.
ghost use Rattle.std.specs.Prelude.{◌≡◌, ◌≢◌, ◌⊎◌, false, true, IfErr, IfOk, OnErr, OnOk};
ghost use Rattle.std.specs.Process.{exit_status};
ghost use Rattle.seedlinkd.specs.Outcomes.{is_mistake, status_by};

use crate::work::{Outcome, run_job};
use command_line::{Request, WordsFault, read_words};
use incidents::{Failure, Incident};
use job_base::{is_terminal, tell_incident};
use protocol::reason::Reason;
use shown_lines::ShownText;
use std::process::ExitCode;

/// The status of words that the program does not take.
const REFUSED: u8 = 2;

/// The status of a server with a silent station.
const SILENT: u8 = 3;

/// Tells a failure, in the line `seedlinkd: N Name` of the standard error. The status is 1.
pub fn failed(rt: &HostRuntime, failure: Failure) -> ExitCode
    ensures { exit_status result ≡ 1 }
{
    failed_at(rt, Incident::from(failure), false)
}

/// Tells a failure as `failed` does, and on request explains it. The status is 1.
fn failed_at(rt: &HostRuntime, incident: Incident<'_>, is_verbose: bool) -> ExitCode
    ensures { exit_status result ≡ 1 }
{
    tell_incident(rt, incident, is_verbose);
    ExitCode::FAILURE
}

/// The status of a job: 0 if it was done, 3 if it found a silent station, and 1 at a fault, which is reported, and on
/// request explained.
fn status_of(rt: &HostRuntime, outcome: Result<Outcome, Incident<'_>>, is_verbose: bool) -> ExitCode
    ensures done { IfOk outcome.entry (λ o. exit_status result ≡ status_by o) }
    ensures fault { OnErr outcome.entry (exit_status result ≡ 1) }
{
    match outcome {
        Ok(Outcome::Done) => ExitCode::SUCCESS,
        Ok(Outcome::Silent) => ExitCode::from(SILENT),
        Err(incident) => failed_at(rt, incident, is_verbose),
    }
}

/// What is said if the text of help could not be written.
fn unhelped() -> Failure {
    Failure::by(Reason::Write, Some("help could not be written"))
}

/// Tells the user how words are taken: help on the standard output, or a mistake on the standard error. The status is 2
/// for a mistake. For help it is 0, or 1 where that could not be written.
pub fn told(rt: &HostRuntime, text: &str, is_help: bool) -> ExitCode
    ensures mistake { is_help ≡ false → exit_status result ≡ 2 }
    ensures help { is_help ≡ true → exit_status result ≢ 2 }
{
    if !is_help {
        let _ = eprint!(rt; "{}", ShownText(text));
        return ExitCode::from(REFUSED);
    }
    match rt.print(text) {
        Ok(()) => ExitCode::SUCCESS,
        Err(_) => failed(rt, unhelped()),
    }
}

/// Does what words were read as. The status of a job is 0, 1 or 3, as `status_of` has it, and that of a mistake is 2.
/// Help ends with 0, or with 1 if it could not be written, and want of memory for the words ends with 1. A fault is
/// explained if the words ask for that, or if standard error is a terminal.
fn answered(rt: &HostRuntime, asked: Result<Request<'_>, WordsFault>) -> ExitCode
    ensures job { OnOk asked.entry
        ((exit_status result ≡ 0) ⊎ ((exit_status result ≡ 1) ⊎ (exit_status result ≡ 3))) }
    ensures mistake { IfErr asked.entry (λ fault. is_mistake fault ≡ true → exit_status result ≡ 2) }
    ensures help { IfErr asked.entry (λ fault. is_mistake fault ≡ false → exit_status result ≢ 2) }
{
    match asked {
        Ok(Request { job, is_verbose }) => {
            let outcome = run_job(rt, job, is_verbose);
            status_of(rt, outcome, is_verbose || is_terminal())
        }
        Err(WordsFault::Refused { text, is_help }) => told(rt, text.as_str(), is_help),
        Err(WordsFault::OutOfMemory) => failed(rt, Failure::out_of_memory()),
    }
}

/// Does the job that the words of a command line ask, of which the first is the program's name, or tells why they ask
/// for none.
pub fn obey(rt: &HostRuntime, words: &[String]) -> ExitCode {
    answered(rt, read_words(rt.alloc(), words))
}
