//! How a session reads what came, line by line: what a line asks, and the steps that it takes by it.
//!
//! Unread bytes lie in a buffer of 2,048 bytes, twice as many as there may be. New bytes are appended after them. Only
//! when the end of the buffer is reached do the unread bytes move to its front, and then at least 1,024 bytes were read
//! since the last move.
ghost use Rattle.std.specs.Prelude.{◌≡◌, ◌≢◌, ◌≤◌, ◌<◌, ◌+◌, ℕ, List, [], ◌∷◌, ◌++◌, length, drop, nat_lt, None, true};
ghost use Rattle.std.specs.Prelude.{false};
ghost use Rattle.std.specs.List.{before_first, list_any};
ghost use Rattle.protocol.specs.Catalog.{Config as ProtocolConfig};
ghost use Rattle.protocol.specs.Lines.{open_after, cut_from, is_line_end};
ghost use Rattle.protocol.specs.History.{Arrival};
ghost use Rattle.protocol.specs.Session.{Negotiated, greeting, ok_line, error_line};
ghost use Rattle.protocol.specs.Client.{read_byte, reads, follow};
ghost use Rattle.std.specs.Prelude.{Some, option_map};
ghost use Rattle.protocol.specs.Catalog.{View as ProtocolView, find_station};
ghost use Rattle.protocol.specs.Command.{command_of};
ghost use Rattle.protocol.specs.Session.{choices_of, choose_station, outcome_of, select};
ghost use Rattle.catalog.specs.Orders.{Fits};
ghost use Rattle.catalog.specs.Places.{view_in};
ghost use Rattle.sl_lines.specs.LineValues.{line_value};
ghost use Rattle.session_state.specs.Asking.{is_bye, is_leaving, outcome_by};
ghost use Rattle.session_state.specs.NewsValues.{asked_by, missed_by, missed_in, missed_of, missing, news_after};
ghost use Rattle.session_state.specs.NewsValues.{news_in};

use super::{Session, State};
use crate::negotiation::Change;
use crate::news::{AskedStation, News};
use crate::waiting::{put_end_line, put_error, put_greeting, put_ok, put_station_line};
use arrayvec::ArrayVec;
use catalog::{Config, View};
use selector::Pattern;
use sl_lines::{Action, Command, Line, command};

/// What a session is to do.
#[derive(Clone, Copy)]
pub(crate) enum Instruction {
    /// Spaces alone, or no line yet.
    Nothing,
    /// HELLO.
    Greeting,
    /// CAT.
    Listing,
    /// BYE.
    Leaving,
    /// STATION: the station at this place of the configuration becomes the current one.
    Name(usize),
    /// STATION of a station that the client doesn't see: none is the current one.
    Unseen(AskedStation),
    /// SELECT without a pattern.
    Clear,
    /// SELECT with a pattern.
    Add(Pattern),
    /// DATA, FETCH or TIME.
    Act(Action),
    /// END.
    Finish,
    /// What is answered ERROR and changes nothing.
    Refused,
}

impl Instruction {
    ghost use Rattle.session_state.specs.Asking.{is_leaving};

    /// Whether it is BYE.
    fn is_leaving(self) -> bool
        ensures { result ≡ is_leaving self }
    {
        matches!(&self, Instruction::Leaving)
    }
}

/// What a line asks.
#[tactic(auto, using(crate::proofs::AskLemmas::asking_lemmas))]
fn instruction_of(view: &View, config: &Config, line: Line<'_>) -> Instruction
    requires { Fits config.now view.now }
    ensures outcome { (n : Negotiated)
        → outcome_of (view_in config.now view.now) n (command_of (line_value line.entry))
        ≡ outcome_by config.now (view_in config.now view.now) n result }
    ensures leaving { is_bye (command_of (line_value line.entry)) ≡ is_leaving result }
    ensures missed { missed_by (view_in config.now view.now) (command_of (line_value line.entry)) ≡ missed_of result }
{
    match command(line) {
        Command::Blank => Instruction::Nothing,
        Command::Hello => Instruction::Greeting,
        Command::Cat => Instruction::Listing,
        Command::Bye => Instruction::Leaving,
        Command::Station { station, network } => naming(view, config, station, network),
        Command::Select { pattern: None } => Instruction::Clear,
        Command::Select {
            pattern: Some(text),
        } => selecting(text),
        Command::End => Instruction::Finish,
        Command::Act(action) => Instruction::Act(action),
        Command::Bad => Instruction::Refused,
    }
}

/// What STATION asks.
#[tactic(auto, using(crate::proofs::AskLemmas::naming_lemmas))]
fn naming(view: &View, config: &Config, station: &[u8], network: Option<&[u8]>) -> Instruction
    requires { Fits config.now view.now }
    ensures outcome { (n : Negotiated) → choose_station (choices_of n)
        (find_station (view_in config.now view.now) station.now (option_map (λ n. n.now) network.entry))
        ≡ outcome_by config.now (view_in config.now view.now) n result }
    ensures stays { is_leaving result ≡ false }
    ensures missed { missing
        (find_station (view_in config.now view.now) station.now (option_map (λ n. n.now) network.entry))
        (asked_by station.now (option_map (λ n. n.now) network.entry)) ≡ missed_of result }
{
    match view.find(config, station, network) {
        Some(place) => Instruction::Name(place),
        None => Instruction::Unseen(AskedStation::of(station, network)),
    }
}

#[tactic(auto, using(crate::proofs::AskLemmas::selecting_lemmas))]
fn selecting(text: &[u8]) -> Instruction
    ensures outcome { (config : ProtocolConfig) (v : ProtocolView) (n : Negotiated)
        → select n (Some text.now) ≡ outcome_by config v n result }
    ensures stays { is_leaving result ≡ false }
    ensures missed { missed_of result ≡ None }
{
    match Pattern::parse(text) {
        Some(pattern) => Instruction::Add(pattern),
        None => Instruction::Refused,
    }
}

/// How it reads.
impl Session {
    ghost use Rattle.session_state.specs.Choices.{negotiated_in};
    ghost use Rattle.session_state.specs.Asking.{outcome_by, outcome_of_lines, says_bye, is_leaving};
    ghost use Rattle.session_state.specs.Sessions.{client_in, session_view, HasPlaces, KeepsTransfer, never_starts};
    ghost use Rattle.session_state.specs.Sessions.{ReadsOnAs};
    ghost use Rattle.session_state.specs.declared.session.State.TheVariants.{Negotiating, Starting, Transfer};

    /// What the line asks that a byte ends, where it ends one.
    #[tactic(auto, using(crate::proofs::LineLemmas::ask_lemmas))]
    fn ask(&mut self, config: &Config, byte: u8) -> Instruction
        requires { HasPlaces config.now self.old }
        ensures line { self.new ≡ record self.old { open_line = open_after self.old.open_line (byte ∷ []) } }
        ensures outcome { (n : Negotiated)
            → outcome_of_lines (session_view config.now self.old) n (cut_from self.old.open_line (byte ∷ []))
            ≡ outcome_by config.now (session_view config.now self.old) n result }
        ensures leaving { says_bye (cut_from self.old.open_line (byte ∷ [])) ≡ is_leaving result }
        ensures missed { missed_in (session_view config.now self.old) (cut_from self.old.open_line (byte ∷ []))
            ≡ missed_of result }
    {
        let _ = &self.state;
        match self.cutter.push(byte) {
            Some(line) => instruction_of(&self.view, config, line),
            None => Instruction::Nothing,
        }
    }

    /// The command is obeyed, while nothing waits in negotiation.
    #[tactic(auto, using(crate::proofs::LineLemmas::answer_lemmas))]
    fn answer(&mut self, config: &Config, instruction: Instruction)
        requires negotiating { self.old.state ≡ Negotiating }
        requires nothing_waits { self.old.waiting ≡ [] }
        ensures client { (h : List Arrival) → client_in config.now h self.new
            ≡ follow (session_view config.now self.old) h (client_in config.now h self.old)
            (negotiated_in config.now self.old.mode)
            (outcome_by config.now (session_view config.now self.old)
            (negotiated_in config.now self.old.mode) instruction) }
        ensures places { self.new.places ≡ self.old.places }
        ensures unread { self.new.unread ≡ self.old.unread }
        ensures elsewhere { (next : ℕ) → self.new.state ≢ Transfer next }
        ensures news { self.new.news ≡ news_after self.old.news (missed_of instruction) }
    {
        match instruction {
            Instruction::Nothing => {}
            Instruction::Greeting => self.greet(config),
            Instruction::Listing => self.turn_to(State::Listing(0)),
            Instruction::Leaving => self.turn_to(State::Ending),
            Instruction::Name(place) => {
                let change = self.mode.name(config, Some(place));
                self.take_change(change);
            }
            Instruction::Unseen(asked) => {
                self.tell(News::NoStation(asked));
                let change = self.mode.name(config, None);
                self.take_change(change);
            }
            Instruction::Clear => {
                let change = self.mode.clear();
                self.take_change(change);
            }
            Instruction::Add(pattern) => {
                let change = self.mode.add(pattern);
                self.take_change(change);
            }
            Instruction::Act(action) => {
                let change = self.mode.act(&self.view, action);
                self.take_change(change);
            }
            Instruction::Finish => {
                let change = self.mode.finish();
                self.take_change(change);
            }
            Instruction::Refused => self.say_error(),
        }
    }

    /// One more byte is read, while nothing waits in negotiation.
    #[tactic(auto, using(crate::proofs::LineLemmas::read_lemmas))]
    fn read_command(&mut self, config: &Config, byte: u8)
        requires places { HasPlaces config.now self.old }
        requires negotiating { self.old.state ≡ Negotiating }
        requires nothing_waits { self.old.waiting ≡ [] }
        ensures client { (h : List Arrival) → client_in config.now h self.new
            ≡ read_byte (session_view config.now self.old) h byte (client_in config.now h self.old) }
        ensures places { self.new.places ≡ self.old.places }
        ensures unread { self.new.unread ≡ self.old.unread }
        ensures elsewhere { (next : ℕ) → self.new.state ≢ Transfer next }
        ensures news { self.new.news ≡ news_after self.old.news
            (missed_in (session_view config.now self.old) (cut_from self.old.open_line (byte ∷ []))) }
    {
        let _ = &self.view;
        let instruction = self.ask(config, byte);
        self.answer(config, instruction);
    }

    /// One more byte is read in a transfer, where BYE alone acts.
    #[tactic(auto, using(crate::proofs::LineLemmas::passing_lemmas))]
    fn read_past(&mut self, config: &Config, byte: u8, next: u64)
        requires places { HasPlaces config.now self.old }
        requires transfer { self.old.state ≡ Transfer next }
        ensures client { (h : List Arrival) → client_in config.now h self.new
            ≡ read_byte (session_view config.now self.old) h byte (client_in config.now h self.old) }
        ensures places { self.new.places ≡ self.old.places }
        ensures unread { self.new.unread ≡ self.old.unread }
        ensures stays { never_starts self.new.state ≡ true }
        ensures kept { KeepsTransfer self.old self.new }
        ensures news { self.new.news ≡ self.old.news }
    {
        let _ = &self.view;
        let instruction = self.ask(config, byte);
        if instruction.is_leaving() {
            self.turn_to(State::Ending);
        }
    }

    #[tactic(auto, using(crate::proofs::LineLemmas::no_bytes))]
    pub(super) fn is_reading(&self) -> bool
        ensures may { result ≡ true → (config : ProtocolConfig) (h : List Arrival)
            → reads (client_in config h self.now).state self.now.waiting ≡ true }
        ensures may_not { result ≡ false → self.now.state ≢ Starting → (config : ProtocolConfig) (h : List Arrival)
            → reads (client_in config h self.now).state self.now.waiting ≡ false }
        ensures negotiating { result ≡ true → self.now.state ≡ Negotiating → self.now.waiting ≡ [] }
        ensures not_starting { result ≡ true → self.now.state ≢ Starting }
    {
        match self.state {
            State::Negotiating => self.is_empty(),
            State::Listing(_) => false,
            State::Starting => false,
            State::Transfer(_) => true,
            State::Ending => false,
        }
    }

    /// One more byte is read, where one may be.
    #[tactic(auto, using(crate::proofs::LineLemmas::byte_lemmas))]
    fn read_byte(&mut self, config: &Config, byte: u8)
        requires places { HasPlaces config.now self.old }
        requires nothing_waits { self.old.state ≡ Negotiating → self.old.waiting ≡ [] }
        requires not_starting { self.old.state ≢ Starting }
        requires reads { (h : List Arrival) → reads (client_in config.now h self.old).state self.old.waiting ≡ true }
        ensures client { (h : List Arrival) → client_in config.now h self.new
            ≡ read_byte (session_view config.now self.old) h byte (client_in config.now h self.old) }
        ensures places { self.new.places ≡ self.old.places }
        ensures unread { self.new.unread ≡ self.old.unread }
        ensures stays { never_starts self.old.state ≡ true → never_starts self.new.state ≡ true }
        ensures kept { KeepsTransfer self.old self.new }
        ensures news { (h : List Arrival) → self.new.news
            ≡ news_in (session_view config.now self.old) (client_in config.now h self.old).state
            (cut_from self.old.open_line (byte ∷ [])) self.old.news }
    {
        match self.state {
            State::Negotiating => self.read_command(config, byte),
            State::Transfer(next) => self.read_past(config, byte, next),
            State::Listing(_) => {}
            State::Starting => {}
            State::Ending => {}
        }
    }

    /// The unread bytes up to the next line end are read, and the line end with them: all that are unread if none ends
    /// a line.
    pub(super) fn read_line(&mut self, config: &Config)
        requires places { HasPlaces config.now self.old }
        requires unread { 0 < length self.old.unread }
        requires nothing_waits { self.old.state ≡ Negotiating → self.old.waiting ≡ [] }
        requires not_starting { self.old.state ≢ Starting }
        requires reads { (h : List Arrival) → reads (client_in config.now h self.old).state self.old.waiting ≡ true }
        ensures reads { ReadsOnAs config.now self.new self.old }
        ensures shorter { length self.new.unread < length self.old.unread }
    {
        self.take_text();
        if self.has_unread() {
            let byte = self.next_byte();
            self.read_byte(config, byte);
        }
    }
}

/// The steps, each of which changes one thing.
impl Session {
    ghost use Rattle.session_state.specs.Sessions.{session_view, after_change, kept_unread, listed_in, line_made};
    ghost use Rattle.session_state.specs.Sessions.{text_taken};
    ghost use Rattle.session_state.specs.Sessions.{HasPlaces};

    pub(super) fn turn_to(&mut self, state: State)
        ensures { self.new ≡ record self.old { state = state } }
    {
        let _ = &self.mode;
        self.state = state;
    }

    pub(super) fn forget_look(&mut self)
        ensures { self.new ≡ record self.old { looked = None } }
    {
        let _ = &self.mode;
        self.looked = None;
    }

    pub(super) fn tell(&mut self, news: News)
        ensures { self.new ≡ record self.old { news = Some news } }
    {
        let _ = &self.mode;
        self.news = Some(news);
    }

    pub(super) fn greet(&mut self, config: &Config)
        ensures { self.new ≡ record self.old { waiting = greeting (session_view config.now self.old) } }
    {
        put_greeting(&mut self.waiting, config, &self.view);
        self.sent = 0;
    }

    pub(super) fn say_ok(&mut self)
        ensures { self.new ≡ record self.old { waiting = ok_line } }
    {
        put_ok(&mut self.waiting);
        self.sent = 0;
    }

    pub(super) fn say_error(&mut self)
        ensures { self.new ≡ record self.old { waiting = error_line } }
    {
        put_error(&mut self.waiting);
        self.sent = 0;
    }

    pub(super) fn take_change(&mut self, change: Change)
        ensures { self.new ≡ after_change self.old change }
    {
        match change {
            Change::Done => self.say_ok(),
            Change::Refused => self.say_error(),
            Change::Starts => self.turn_to(State::Starting),
        }
    }

    pub(super) fn next_byte(&mut self) -> u8
        requires { 0 < length self.old.unread }
        ensures byte { self.old.unread ≡ result ∷ self.new.unread }
        ensures rest { self.new ≡ record self.old { unread = self.new.unread } }
    {
        let byte = self.unread.as_slice()[self.read];
        self.read += 1;
        byte
    }

    /// The bytes before the next line end join the open line: all that are unread if none ends a line.
    pub(super) fn take_text(&mut self)
        ensures taken { self.new ≡ text_taken self.old }
        ensures text { list_any is_line_end (before_first is_line_end self.old.unread) ≡ false }
    {
        let count = self.cutter.take_text(&self.unread.as_slice()[self.read..]);
        self.read += count;
    }

    /// Whether bytes that came are still unread.
    pub fn has_unread(&self) -> bool
        ensures { result ≡ nat_lt 0 (length self.now.unread) }
    {
        self.read < self.unread.len()
    }

    /// In its end a client's unread bytes are dropped.
    pub(super) fn drop_if_ending(&mut self)
        ensures { self.new ≡ record self.old { unread = kept_unread self.old.state self.old.unread } }
    {
        if let State::Ending = self.state {
            self.read = self.unread.len();
        }
    }

    /// Bytes after those that are unread. Only where the buffer's end is reached do the unread ones move to its front.
    pub(super) fn append(&mut self, bytes: &[u8])
        requires { length self.old.unread + length bytes.now ≤ 1024 }
        ensures { self.new ≡ record self.old { unread = self.old.unread ++ bytes.now } }
    {
        if self.unread.try_extend_from_slice(bytes).is_ok() {
            return;
        }
        let mut rest = ArrayVec::new();
        let _ = rest.try_extend_from_slice(&self.unread.as_slice()[self.read..]);
        let _ = rest.try_extend_from_slice(bytes);
        self.unread = rest;
        self.read = 0;
    }

    pub(super) fn skip(&mut self, count: usize)
        requires { count ≤ length self.old.waiting }
        ensures { self.new ≡ record self.old { waiting = drop count self.old.waiting } }
    {
        let _all = self.waiting.len();
        self.sent += count;
    }

    /// The listing is over once its last line was taken.
    pub(super) fn end_listing(&mut self)
        ensures { self.new ≡ record self.old { state = listed_in self.old.places self.old.state } }
    {
        if let State::Listing(made) = self.state {
            if made > self.view.places().len() {
                self.state = State::Negotiating;
            }
        }
    }

    /// The line of a listing after so many is made to wait, where there is one.
    #[tactic(auto, using(crate::proofs::TookLemmas::line_lemmas))]
    pub(super) fn make_line(&mut self, config: &Config, made: usize)
        requires { HasPlaces config.now self.old }
        ensures { self.new ≡ line_made config.now made self.old }
    {
        let places = self.view.places();
        if made < places.len() {
            let place = usize::from(places[made]);
            put_station_line(&mut self.waiting, &config.stations()[place]);
        } else if made == places.len() {
            put_end_line(&mut self.waiting);
        } else {
            return;
        }
        self.sent = 0;
        self.state = State::Listing(made + 1);
    }
}
