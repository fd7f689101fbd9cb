//! The lines that a server sends before a transfer: which one is told if a reader does not take it, and what is told of
//! it.
ghost use Rattle.std.specs.Prelude.{◌≡◌, ◌∷◌, [], codes};
ghost use Rattle.protocol.specs.Lines.{line_end};
ghost use Rattle.job_read.specs.Answers.{begins_reply, has_text, held, is_answer, is_four_alone, remark_of};

use crate::sent::SentPiece;
use arrayvec::ArrayVec;
use protocol::reason::Reason;
use std::fmt::{self, Display, Formatter, Write};
use std::marker::Model;

/// What the first line that answers HELLO begins with.
const GREETING: &[u8] = b"SeedLink v";

/// What it begins with at a server of SeedLink 4.
const FOUR: &[u8] = b"SeedLink v4";

/// How such a server names SeedLink 3, if it speaks that too.
const THREE: &[u8] = b"SLPROTO:3";

/// How many lines answer HELLO.
const HELLO: usize = 2;

/// How many bytes are kept of a line: as many as a reader takes, with their end.
const LINE: usize = 258;

/// The bytes of a line.
type LineBytes = ArrayVec<u8, LINE>;

/// Whether bytes begin with OK or ERROR and the end of a line.
fn begins_reply(bytes: &[u8]) -> bool
    ensures { result ≡ begins_reply bytes.now line_end }
{
    bytes.starts_with(b"OK\r\n") || bytes.starts_with(b"ERROR\r\n")
}

/// Whether bytes begin with OK or ERROR and an LF alone.
fn begins_cut_reply(bytes: &[u8]) -> bool
    ensures { result ≡ begins_reply bytes.now (10 ∷ []) }
{
    bytes.starts_with(b"OK\n") || bytes.starts_with(b"ERROR\n")
}

/// Whether a line is whole with its end, and one that a reader takes behind so many lines that answer HELLO.
fn is_answer(count: usize, line: &[u8]) -> bool
    ensures { result ≡ is_answer count line.now }
{
    match count {
        0 => line.starts_with(GREETING) && line.ends_with(b"\r\n"),
        1 => line.ends_with(b"\r\n"),
        _ => begins_reply(line),
    }
}

/// Whether a line names SeedLink 3 among the versions that its server speaks.
fn names_three(line: &[u8]) -> bool
    ensures { result ≡ has_text (codes "SLPROTO:3") line.now }
{
    let mut left = line;
    'places: while !left.is_empty() {
        if left.starts_with(THREE) {
            return true;
        }
        left = &left[1..];
    }
    false
}

/// Whether the first line of a server names SeedLink 4, and not 3 among the versions that it speaks.
fn is_four_alone(line: &[u8]) -> bool
    ensures { result ≡ is_four_alone line.now }
{
    line.starts_with(FOUR) && !names_three(line)
}

/// Keeps a byte more of a line, if there is room.
fn hold(line: &mut LineBytes, byte: u8)
    ensures { line.new.items ≡ held line.old.items byte }
{
    if !line.is_full() {
        line.push(byte);
    }
}

/// The lines that came before a transfer.
#[derive(Drop)]
pub struct AnswerLines {
    /// How many lines that answer HELLO came.
    count: usize,
    /// What came of the last line.
    line: LineBytes,
    /// Whether that is whole, and one that a reader takes.
    is_whole: bool,
    /// Whether the server speaks SeedLink 4 alone.
    is_four: bool,
}

impl Model for AnswerLines {
    ghost use Rattle.job_read.specs.Answers.{AnswersValue};

    ghost Value = { AnswersValue };

    ghost view = { λ a. record { count = a.count; line = a.line.items; is_whole = a.is_whole; is_four = a.is_four } };
}

impl AnswerLines {
    ghost use Rattle.std.specs.Prelude.{◌≡◌, ◌==◌, ◌&&◌, nat_lt, not};
    ghost use Rattle.job_read.specs.Answers.{after_byte, after_bytes, begun_line, no_answers, with_line};

    /// Nothing came yet.
    pub fn new() -> AnswerLines
        ensures { result ≡ no_answers }
    {
        AnswerLines {
            count: 0,
            line: ArrayVec::new(),
            is_whole: false,
            is_four: false,
        }
    }

    /// Behind a whole line another one begins.
    fn begin(&mut self)
        ensures { self.new ≡ record self.old { line = begun_line self.old } }
    {
        if self.is_whole {
            self.line.clear();
        }
    }

    /// The line is whole, or not.
    fn judge(&mut self, is_whole: bool)
        ensures { self.new ≡ with_line self.old self.old.line is_whole }
    {
        if is_whole && self.count < HELLO {
            let is_first = self.count == 0;
            self.is_four = self.is_four || (is_first && is_four_alone(self.line.as_slice()));
            self.count += 1;
        }
        self.is_whole = is_whole;
    }

    /// A byte came.
    fn receive_byte(&mut self, byte: u8)
        ensures { self.new ≡ after_byte self.old byte }
    {
        self.begin();
        hold(&mut self.line, byte);
        let is_whole = byte == b'\n' && is_answer(self.count, self.line.as_slice());
        self.judge(is_whole);
    }

    /// Bytes came.
    pub fn receive(&mut self, bytes: &[u8])
        ensures { self.new ≡ after_bytes self.old bytes.now }
    {
        for byte in bytes {
            self.receive_byte(*byte);
        }
    }

    /// Whether both lines came that answer HELLO.
    pub fn is_greeted(&self) -> bool
        ensures { result ≡ not (nat_lt self.now.count 2) }
    {
        self.count >= HELLO
    }

    /// Whether the server speaks SeedLink 4 alone.
    pub fn is_four(&self) -> bool
        ensures { result ≡ self.now.is_four }
    {
        self.is_four
    }

    /// The beginning of the last line.
    pub fn last(&self) -> SentPiece {
        SentPiece::of(self.line.as_slice())
    }
}

/// What is wrong with an answer that looks right.
#[derive(Clone, Copy, Drop)]
pub enum Remark {
    /// It came where packets are due: no command was left to answer.
    Unasked,
    /// LF alone ends it.
    OtherEnd,
}

impl Display for Remark {
    fn fmt<W: Write>(&self, f: &mut Formatter<W>) -> fmt::Result {
        match self {
            Remark::Unasked => f.write_str("an answer too many: all commands were answered before"),
            Remark::OtherEnd => f.write_str("an answer that ends with LF, where CR LF is taken"),
        }
    }
}

/// What is told of bytes at which a reading fails for that reason.
fn remark_of(reason: Reason, bytes: &[u8]) -> Option<Remark>
    ensures { result ≡ remark_of reason bytes.now }
{
    match reason {
        Reason::NotAPacket if begins_reply(bytes) => Some(Remark::Unasked),
        Reason::BadReply if begins_cut_reply(bytes) => Some(Remark::OtherEnd),
        _ => None,
    }
}

/// What a server sent, as far as it is told of a failure.
#[derive(Clone, Copy, Drop)]
pub struct ServerText {
    sent: Option<SentPiece>,
    remark: Option<Remark>,
    is_four: bool,
}

impl ServerText {
    /// What is told of a failure for that reason, by what was sent last, and whether the server speaks SeedLink 4
    /// alone.
    pub fn of(reason: Reason, sent: SentPiece, is_four: bool) -> ServerText {
        let is_sent = matches!(reason, Reason::BadReply | Reason::NotAPacket);
        ServerText {
            sent: if is_sent { Some(sent) } else { None },
            remark: remark_of(reason, sent.bytes()),
            is_four,
        }
    }

    /// Whether nothing is told.
    pub fn is_empty(&self) -> bool {
        self.sent.is_none() && !self.is_four
    }
}

impl Display for ServerText {
    /// The lines that tell it, each with two spaces before it.
    fn fmt<W: Write>(&self, f: &mut Formatter<W>) -> fmt::Result {
        if let Some(sent) = self.sent {
            write!(f, "{sent}")?;
        }
        if let Some(remark) = self.remark {
            writeln!(f, "  found: {remark}")?;
        }
        if self.is_four {
            f.write_str("  found: SeedLink 4, where SeedLink 3 is taken\n")?;
        }
        Ok(())
    }
}
