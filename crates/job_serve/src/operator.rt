//! What a server asks and reports between its turns, over the file of its configuration and lines to standard error.
ghost use Rattle.std.specs.Prelude.{◌≡◌, ◌≢◌, ◌∷◌, [], false, true, IfErr, IfOk, IfSome, None, Ok, OnOk};
ghost use Rattle.toml.specs.Parse.{parse_document};
ghost use Rattle.protocol.specs.Catalog.{is_same_but_for_access};
ghost use Rattle.catalog.specs.Reading.{config_read};
ghost use Rattle.serving.specs.Ahead.{ahead_of};
ghost use Rattle.serving.specs.Asked.{Tells};
ghost use Rattle.serving.specs.Asked.Asked.{Keeps, Looks, Refuses};
ghost use Rattle.serving.specs.Paces.{IsPaced, new_pace};
ghost use Rattle.serving.specs.Faults.{serve_reason};
ghost use Rattle.protocol.specs.declared.reason.Reason.TheVariants.{Poll};
ghost use Rattle.job_serve.specs.Serving.{ServedByFile, EndedByFile};
ghost use Rattle.job_serve.specs.Taken.{HasKept, IsReadFrom, begun_by};
ghost use Rattle.job_serve.specs.Timetables.{timetable_of};
ghost use Rattle.incidents.specs.declared.incident.Incident.{Incident};

use crate::in_force::{ConfigSum, tell_changes};
use crate::numbers::NumberFile;
use crate::opening::{ServedFiles, copy_of};
use crate::spare::Spare;
use crate::starting::InForceLine;
use crate::status::StatusDesk;
use crate::timetable::timetable_of;
use crate::told_once::ToldOnce;
use crate::visits::SharedLines;
use catalog::Config;
use command_line::ServeOptions;
use config_explained::{ConfigText, Difference, changes_of, first_difference};
use error_lines::ErrorLine;
use event_loop::Loop;
use files::microseconds;
use incidents::{Detail, Failure, Incident, Place, Site, ToldIncident};
use job_base::{config_in, lines_of, plain_text_at, refuse_unknown, unknown_lines};
use ports::Ports;
use protocol::reason::Reason;
use serving::{
    Activity, Between, Due, NumbersAhead, Pace, Refusal, ServeFault, Timetable, serve_between,
};
use std::alloc::Global;
use std::fmt::Write;
use std::rt::Clock;
use std::time::Duration;

/// What `serve` is asked.
#[derive(Clone, Copy)]
pub struct ServeRequest<'a> {
    pub options: ServeOptions<'a>,
    /// Whether a configuration that is not taken is explained.
    pub is_verbose: bool,
}

/// How the last keep of numbers went.
#[derive(Clone, Copy, Drop)]
enum LastKeep {
    /// None succeeded yet.
    Missing,
    Succeeded,
    /// It failed after one that succeeded, which was told.
    Failed,
}

/// The files of a configuration and of numbers, and lines to standard error, which never wait: whoever reads them can't
/// stop the server.
#[derive(Drop)]
pub struct Operator<'r, 'a, 'l> {
    rt: &'r HostRuntime,
    path: &'a str,
    /// When the server began, by the system's clock, and what is done by it.
    began: Duration,
    reread: Pace,
    report: Pace,
    numbers: Option<Box<NumberFile<'a>>>,
    /// The descriptor for these files, which nobody else gets.
    spare: Spare,
    /// How the last keep of numbers went, and where the first one failed, if it did.
    last_keep: LastKeep,
    unkept: Option<Site<'a>>,
    is_verbose: bool,
    /// Whether a configuration is refused for keys that are not known.
    is_strict: bool,
    /// The lines that named such keys last, of a text that is not the one in force.
    unknown: Vec<u8>,
    errors: &'l SharedLines,
    /// The status port, if there is one.
    status: Option<StatusDesk<'l>>,
    /// Whether it is told when another configuration comes into force, and whether one did since that was told last.
    is_logged: bool,
    has_come: bool,
    /// What that one changes for whom, a line each.
    changes: Vec<u8>,
    /// The text that was found last, if it is strict: another one is looked at once it is found again, since it may be
    /// one that is just being written.
    seen: Vec<u8>,
    /// The configuration that the server began with: one that comes into force differs from it in access lists alone.
    in_force: Config,
    /// The text in force as it was read.
    read: ConfigText,
    /// What the configuration that was read last differs in first, but for access lists.
    difference: Option<Difference>,
    /// Why the one that was read last was refused: told once, and again only after an hour.
    refusal: ToldOnce,
}

impl<'a> Operator<'_, 'a, '_> {
    /// Tells an incident that ends nothing.
    fn tell(&self, incident: &Incident<'_>) {
        self.errors.write_line(&line_of(incident, self.is_verbose));
    }

    /// Tells why a configuration is refused that is read again, unless the same was told within the last hour.
    fn tell_refusal(&mut self, incident: &Incident<'_>) {
        let line = line_of(incident, self.is_verbose);
        let now = self.passed();
        let text = line.as_str().as_bytes();
        if self.refusal.is_due(text, now) {
            self.errors.write_line(&line);
            self.refusal.note(self.rt.alloc(), text, now);
        }
    }

    /// Tells lines that name unknown keys, if they are others than those that were told last.
    fn tell_unknown(&mut self, lines: Vec<u8>)
        ensures { self.new ≡ record self.old { unknown = lines } }
    {
        if lines.as_slice() != self.unknown.as_slice() {
            for line in lines.as_slice().split(|byte| *byte == b'\n') {
                self.tell_text(line);
            }
        }
        self.unknown = lines;
    }

    /// Tells a line that was made already, if it is one.
    fn tell_text(&self, text: &[u8]) {
        let mut line = ErrorLine::new();
        if let Ok(text) = str::from_utf8(text) {
            if !text.is_empty() && line.try_push_str(text).is_ok() {
                self.errors.write_line(&line);
            }
        }
    }

    /// Tells that the configuration that was read last differs in more than access lists.
    fn tell_difference(&mut self) {
        let found = match self.difference.take() {
            Some(difference) => lines_of(self.rt.alloc(), difference),
            None => Detail::Nothing,
        };
        let incident = Failure::of(Reason::Different)
            .at(Place::File(self.path))
            .with(found);
        self.tell_refusal(&incident);
    }

    /// If another configuration came into force since this was told last, it is told now: how many clients it cut, the
    /// sum of its text, and what it changes for whom.
    fn tell_in_force(&mut self) {
        if !self.has_come {
            return;
        }
        self.has_come = false;
        let cut = self.errors.take_cut();
        self.errors.tell(InForceLine { cut });
        self.errors.tell(ConfigSum::of(self.read.text()));
        tell_changes(self.errors, self.changes.as_slice());
        self.changes.clear();
    }

    /// Another configuration is to come into force, which is told then. Without memory it is not told what it changes.
    fn note_changes(&mut self, alloc: Global, read: &ConfigText) {
        self.has_come = true;
        self.changes.clear();
        if let Ok(changes) = changes_of(alloc, &self.read, read) {
            self.changes = changes;
        }
    }

    /// The status port tells who may use each station by the text in force.
    fn take_config(&mut self, alloc: Global) {
        if let Some(status) = &mut self.status {
            status.take_config(alloc, &self.read);
        }
    }

    /// Tells that numbers could not be kept, but not again until they were kept: a keep that fails is tried again after
    /// each turn. Before any were kept, that ends the run, which tells it then.
    fn note_unkept(&mut self, incident: Incident<'a>) {
        match self.last_keep {
            LastKeep::Missing => self.unkept = Some(incident.site),
            LastKeep::Succeeded => {
                self.last_keep = LastKeep::Failed;
                self.tell(&incident);
            }
            LastKeep::Failed => {}
        }
    }
}

/// The want of memory for a server.
pub fn no_memory<'a>() -> Incident<'a> {
    Incident::out_of_memory()
}

impl<'r, 'a, 'l> Operator<'r, 'a, 'l> {
    /// An operator that begins with a configuration now.
    fn new(
        rt: &'r HostRuntime,
        request: ServeRequest<'a>,
        files: ServedFiles<'a>,
        errors: &'l SharedLines,
        status: Option<StatusDesk<'l>>,
    ) -> Operator<'r, 'a, 'l>
        ensures reread { result.reread ≡ new_pace request.entry.options.reread }
        ensures report { result.report ≡ new_pace request.entry.options.report }
        ensures strict { result.is_strict ≡ request.entry.options.is_strict }
        ensures read { result.read ≡ files.entry.read }
        ensures in_force { result.in_force ≡ files.entry.in_force }
        ensures numbers { result.numbers ≡ files.entry.numbers }
    {
        let options = request.options;
        let ServedFiles {
            in_force,
            read,
            numbers,
        } = files;
        Operator {
            rt,
            path: options.config,
            began: rt.monotonic().unwrap_or(Duration::ZERO),
            reread: Pace::new(options.reread),
            report: Pace::new(options.report),
            numbers,
            spare: Spare::new(rt),
            last_keep: LastKeep::Missing,
            unkept: None,
            is_verbose: request.is_verbose,
            is_strict: options.is_strict,
            unknown: Vec::new(rt.alloc()),
            seen: Vec::new(rt.alloc()),
            errors,
            status,
            is_logged: options.is_logged,
            has_come: false,
            changes: Vec::new(rt.alloc()),
            read,
            in_force,
            difference: None,
            refusal: ToldOnce::new(rt.alloc()),
        }
    }

    /// What ended a run, and where, if that is known.
    fn incident_of(self, fault: ServeFault) -> Incident<'a>
        ensures { result.failure.reason ≡ serve_reason fault }
    {
        let unkept = self.unkept;
        let incident = Failure::of(fault.reason()).at(Place::Nowhere);
        match fault {
            ServeFault::Numbers => incident.at_site(unkept),
            _ => incident,
        }
    }

    /// How many milliseconds have passed since the server began, if the system can tell the time.
    fn passed(&self) -> Option<u64> {
        match self.rt.monotonic() {
            Ok(now) => {
                let passed = now.saturating_sub(self.began).as_millis();
                Some(u64::try_from(passed).unwrap_or(u64::MAX))
            }
            Err(_) => None,
        }
    }
}

/// What is told of an incident, without its last line's end. What is too long is left out.
fn line_of(incident: &Incident<'_>, is_verbose: bool) -> ErrorLine {
    let mut line = ErrorLine::new();
    let _ = write!(
        line,
        "{}",
        ToldIncident {
            incident,
            is_verbose
        }
    );
    if line.as_str().ends_with('\n') {
        let _end = line.pop();
    }
    line
}

impl<'a> Operator<'_, 'a, '_> {
    /// The text of the configuration as it is now.
    fn read_text(&mut self) -> Result<Vec<u8>, Incident<'a>> {
        self.spare.let_go();
        let text = plain_text_at(self.rt, self.path);
        self.spare.hold(self.rt);
        text
    }

    /// The configuration that a text spells. Keys that are not known are named if they are others than those that were
    /// named last, and if it is strict, the configuration is refused for them.
    fn config_of(&mut self, text: Vec<u8>) -> Result<ConfigText, Incident<'a>>
        ensures read { IfOk result (λ read. config_read (parse_document text.items) ≡ Ok read.config) }
        ensures numbers { self.new.numbers ≡ self.old.numbers }
        ensures in_force { self.new.in_force ≡ self.old.in_force }
        ensures text { self.new.read ≡ self.old.read }
    {
        let alloc = self.rt.alloc();
        let read = config_in(alloc, self.path, text)?;
        let lines = unknown_lines(alloc, &read)?;
        self.tell_unknown(lines);
        refuse_unknown(self.path, self.unknown.as_slice(), self.is_strict)?;
        Ok(read)
    }

    /// A configuration once more, whose stations begin with what the file of numbers said when the server began.
    fn begun(&self, config: &Config) -> Result<Config, Incident<'a>>
        ensures { IfOk result (λ begun. begun ≡ begun_by self.now.numbers config.now) }
    {
        let mut begun = copy_of(self.rt.alloc(), config)?;
        if let Some(file) = &self.numbers {
            file.begin(&mut begun);
        }
        Ok(begun)
    }

    /// The text is the one in force: there is nothing that it differs in, and no key of another one.
    fn note_unchanged(&mut self) {
        self.difference = None;
        self.refusal.forget();
        self.unknown = Vec::new(self.rt.alloc());
        self.seen = Vec::new(self.rt.alloc());
    }

    /// Compares a configuration of another text with the one in force. If it differs in access lists alone, it comes
    /// into force, and its text with it.
    fn compare(&mut self, config: &Config, read: ConfigText)
        ensures { is_same_but_for_access self.old.in_force config.now ≡ false → self.new.read ≡ self.old.read }
    {
        let alloc = self.rt.alloc();
        match first_difference(alloc, &self.in_force, config) {
            Ok(None) => {
                self.difference = None;
                self.refusal.forget();
                if self.is_logged {
                    self.note_changes(alloc, &read);
                }
                self.read = read;
                self.take_config(alloc);
            }
            Ok(difference) => self.difference = difference,
            Err(_) => self.difference = None,
        }
    }

    /// Whether it is strict and finds a text for the first time.
    fn is_first_found(&self, text: &[u8]) -> bool
        ensures { self.now.is_strict ≡ true → text.now ≢ self.now.seen.items → result ≡ true }
    {
        self.is_strict && text != self.seen.as_slice()
    }

    /// What a text of the configuration comes to: nothing, if it is the one in force, byte for byte, or if it is strict
    /// and finds the text for the first time. Else it is the configuration that it spells, with what the file of
    /// numbers said; the text takes the place of the one in force if they differ in access lists alone.
    fn taken_of(&mut self, text: Vec<u8>) -> Result<Option<Config>, Incident<'a>>
        ensures same { text.items ≡ self.old.read.text → result ≡ Ok None }
        ensures again { self.old.is_strict ≡ true → text.items ≢ self.old.seen.items → result ≡ Ok None }
        ensures new { IfOk result (λ new. IfSome new (IsReadFrom text.items self.old.numbers)) }
        ensures refused { IfOk result (λ new. IfSome new (λ config.
            is_same_but_for_access self.old.in_force config ≡ false → self.new.read ≡ self.old.read)) }
    {
        if text.as_slice() == self.read.text() {
            self.note_unchanged();
            return Ok(None);
        }
        if self.is_first_found(text.as_slice()) {
            self.seen = text;
            return Ok(None);
        }
        let read = self.config_of(text)?;
        let config = self.begun(read.config())?;
        self.compare(&config, read);
        Ok(Some(config))
    }
}

impl<'a> Between for Operator<'_, 'a, '_> {
    type Fault = Incident<'a>;

    // What a clock tells, a file holds and the standard error takes, no contract can say.
    ghost asked = { λ _. None };

    /// By one look at the clock.
    fn due(&mut self) -> Due
        ensures call { Tells {F = Incident} None None (Looks result ∷ []) }
        ensures paced { IsPaced self.old.reread self.old.report result self.new.reread self.new.report }
    {
        let now = self.passed();
        Due {
            reread: self.reread.comes(now),
            report: self.report.comes(now),
        }
    }

    /// By its text: one that is the same, byte for byte, is not read as a configuration again.
    fn configuration(&mut self) -> Result<Option<Config>, Incident<'a>> {
        let text = self.read_text()?;
        self.taken_of(text)
    }

    fn refused(&mut self, refusal: Refusal<Incident<'a>>)
        ensures call { Tells None None (Refuses refusal.entry ∷ []) }
    {
        match refusal {
            Refusal::Unread(incident) => self.tell_refusal(&incident),
            Refusal::Different => self.tell_difference(),
            Refusal::Unkept(incident) => self.note_unkept(incident),
        }
    }

    /// In the line `seedlinkd: clients 3, feeds 1, records 1200, refused 2`, after what came into force.
    fn report(&mut self, activity: Activity) {
        self.tell_in_force();
        let mut line = ErrorLine::new();
        let _ = write!(line, "seedlinkd: {activity}");
        self.errors.write_line(&line);
    }

    fn keep(&mut self, numbers: &NumbersAhead<'_>) -> Result<(), Incident<'a>>
        ensures call { Tells None None (Keeps (ahead_of numbers.now) result ∷ []) }
        ensures kept { OnOk result (HasKept self.old.numbers (ahead_of numbers.now) self.new.numbers) }
    {
        let Some(file) = &mut self.numbers else {
            return Ok(());
        };
        self.spare.let_go();
        let kept = file.keep(self.rt, numbers);
        self.spare.hold(self.rt);
        kept?;
        self.last_keep = LastKeep::Succeeded;
        Ok(())
    }

    /// What came into force is told, and what is asked at the status port is answered. With that the turn ends.
    fn watch<P: Ports>(&mut self, server: &Loop<P>) {
        self.tell_in_force();
        if self.status.is_none() {
            return;
        }
        if let (Some(now), Some(status)) = (self.passed(), &mut self.status) {
            status.look(self.rt.alloc(), now, server);
            status.end_turn(microseconds(self.rt));
        }
    }
}

/// Runs a new server with the configuration that was read from a file over ports, as the words say and its files did,
/// with lines to standard error and a status port, if there is one, and gives the ports back.
pub fn serve_by<'a, 'l, P: Ports + Drop>(
    rt: &HostRuntime,
    request: ServeRequest<'a>,
    config: Config,
    files: ServedFiles<'a>,
    ports: P,
    errors: &'l SharedLines,
    status: Option<StatusDesk<'l>>,
) -> Result<P, Incident<'a>>
    ensures served { IfOk result (λ left.
        ServedByFile (timetable_of request.entry.options) config (P.calls ports) (P.calls left)) }
    ensures ended { IfErr result (λ incident. incident.failure.reason ≡ Poll →
        EndedByFile (timetable_of request.entry.options) config (P.calls ports)) }
{
    let timetable = timetable_of(&request.options);
    let mut operator = Operator::new(rt, request, files, errors, status);
    match serve_between(rt.alloc(), config, ports, &mut operator, timetable) {
        Ok(ports) => Ok(ports),
        Err(fault) => Err(operator.incident_of(fault)),
    }
}
