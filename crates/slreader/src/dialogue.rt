//! The dialogue of a reader.
use crate::agenda::{Agenda, size_behind};
use crate::came::What;
use crate::commands::commands_of;
use crate::fault::ReaderFault;
use crate::outbox::Outbox;
use crate::packets::read_packet;
use crate::pieces::{LinePiece, ReplyPiece, line_piece, reply_piece};
use crate::stage::{PieceStep, ReaderStage, StageEvent};
use crate::tally::Tally;
use crate::want::Plan;
use sl_packet::{PacketCutter, Seq};
use std::alloc::{AllocError, Global};
use std::marker::Model;

/// The first line that is asked.
const HELLO: &[u8] = b"HELLO";

/// What the first line that answers HELLO begins with.
const GREETING: &[u8] = b"SeedLink v";

/// A reader but for the buffer of the packet that it lends.
#[derive(Drop)]
pub(crate) struct Dialogue {
    stage: ReaderStage,
    cutter: PacketCutter,
    agenda: Agenda,
    kept: usize,
    outbox: Outbox,
    tally: Tally,
}

impl Model for Dialogue {
    ghost use Rattle.std.specs.Prelude.{◌≤◌};
    ghost use Rattle.slreader.specs.Dialogue.{ReaderValue};
    ghost use Rattle.slreader.specs.Lines.{size_of};
    ghost use Rattle.slreader.specs.ReaderViews.{reader_value};

    ghost Value = { ReaderValue };

    ghost view = { λ d. reader_value d.stage d.cutter d.agenda d.kept d.outbox d.tally };

    ghost invariant = { λ d. size_of d.agenda ≤ d.outbox.room };
}

/// What is there before the first byte, and what is told of it.
impl Dialogue {
    ghost use Rattle.std.specs.Prelude.{◌≡◌, ◌≤◌, ◌+◌, length, drop, IfOk};
    ghost use Rattle.slreader.specs.Views.{plan_value};
    ghost use Rattle.slreader.specs.Tallies.{next_of};
    ghost use Rattle.slreader.specs.GoingOn.{begun_at};

    /// A reader that was sent nothing, and counts on.
    pub(crate) fn new(alloc: Global, plan: &Plan<'_>, tally: Tally) -> Result<Dialogue, AllocError>
        ensures { IfOk result (λ d. d ≡ begun_at (plan_value plan.now) tally) }
    {
        let lines = commands_of(alloc, plan)?;
        let Some(room) = size_behind(HELLO.len() + 1, &lines) else {
            return Err(AllocError);
        };
        let mut outbox = Outbox::new(alloc, room)?;
        outbox.ask(HELLO);
        Ok(Dialogue {
            stage: ReaderStage::FirstLine {
                count: 0,
                after_cr: false,
            },
            cutter: PacketCutter::new(),
            agenda: Agenda::new(lines),
            kept: plan.len(),
            outbox,
            tally,
        })
    }

    /// The bytes that are to be sent.
    pub(crate) fn outgoing(&self) -> &[u8]
        ensures { result.now ≡ drop self.now.sent self.now.asked }
    {
        self.outbox.waiting()
    }

    /// The first `count` of the bytes that are to be sent were sent.
    pub(crate) fn sent(&mut self, count: usize)
        requires { count ≤ length (drop self.old.sent self.old.asked) }
        ensures { self.new ≡ record self.old { sent = self.old.sent + count } }
    {
        self.outbox.confirm(count);
    }

    /// How many packets were given.
    pub(crate) fn records(&self) -> u64
        ensures { result ≡ self.now.tally.records }
    {
        self.tally.records()
    }

    /// What was counted.
    pub(crate) fn tally(&self) -> &Tally
        ensures { result.now ≡ self.now.tally }
    {
        &self.tally
    }

    /// The same, of a reader that is let go.
    pub(crate) fn into_tally(self) -> Tally
        ensures { result ≡ self.tally }
    {
        self.tally
    }

    /// Where a want goes on.
    pub(crate) fn next_wanted(&self, want: usize) -> Option<Seq>
        ensures { result ≡ next_of self.now.tally want }
    {
        self.tally.next(want)
    }
}

/// What is done at one byte.
impl Dialogue {
    ghost use Rattle.std.specs.Prelude.{◌≡◌, ◌≤◌, ◌+◌, ◌<◌, ◌^◌, ℕ, Bool, List, true, length};
    ghost use Rattle.slreader.specs.Dialogue.{after_byte, answered, ask_next, fails, first_line, given_by, hello_given};
    ghost use Rattle.slreader.specs.Dialogue.{refusal_given, refuse, second_line};
    ghost use Rattle.slreader.specs.ReaderViews.{given_list, is_talk};

    /// Asks the next command: its answer comes next, or the transfer.
    fn ask_next(&mut self)
        ensures { self.new ≡ ask_next self.old }
    {
        match self.agenda.first() {
            Some(command) => {
                self.outbox.ask(&command.line);
                self.stage = match command.want {
                    Some(want) => ReaderStage::Answer {
                        want,
                        count: 0,
                        is_error: false,
                    },
                    None => ReaderStage::Transfer,
                };
            }
            None => self.stage = ReaderStage::Transfer,
        }
        self.agenda.advance();
        self.cutter = PacketCutter::new();
    }

    /// Reads nothing more.
    fn fail(&mut self, fault: ReaderFault)
        ensures { self.new ≡ fails self.old fault }
    {
        self.stage = ReaderStage::Failed(fault);
    }

    /// A command of the want was answered ERROR.
    #[tactic(auto, using(crate::proofs::AgendaLemmas::size_without))]
    fn refuse(&mut self, want: usize)
        ensures { self.new ≡ refuse self.old want }
    {
        self.agenda.skip(want);
        self.kept = self.kept.saturating_sub(1);
        if self.kept == 0 {
            self.fail(ReaderFault::AllRefused);
        } else {
            self.ask_next();
        }
    }

    /// One more byte of the first line.
    fn first_line(&mut self, count: usize, byte: u8, piece: LinePiece)
        requires { piece ≡ LinePiece.Open → count ≤ 256 }
        ensures { self.new ≡ first_line self.old count byte piece }
    {
        match piece {
            LinePiece::Whole => {
                self.stage = ReaderStage::SecondLine {
                    count: 0,
                    after_cr: false,
                };
            }
            LinePiece::Open => {
                self.stage = ReaderStage::FirstLine {
                    count: count + 1,
                    after_cr: byte == b'\r',
                };
            }
            LinePiece::Other => self.fail(ReaderFault::BadReply),
        }
    }

    /// One more byte of the second line.
    fn second_line(&mut self, count: usize, byte: u8, piece: LinePiece) -> Option<StageEvent>
        requires { piece ≡ LinePiece.Open → count ≤ 256 }
        ensures read { self.new ≡ second_line self.old count byte piece }
        ensures given { (packet : List ℕ) → given_list result packet ≡ hello_given piece }
    {
        match piece {
            LinePiece::Whole => {
                self.ask_next();
                Some(StageEvent::Hello)
            }
            LinePiece::Open => {
                self.stage = ReaderStage::SecondLine {
                    count: count + 1,
                    after_cr: byte == b'\r',
                };
                None
            }
            LinePiece::Other => {
                self.fail(ReaderFault::BadReply);
                None
            }
        }
    }

    /// One more byte of an answer.
    fn answer(&mut self, want: usize, count: usize, piece: ReplyPiece) -> Option<StageEvent>
        requires { (e : Bool) → piece ≡ ReplyPiece.Open e → count ≤ 256 }
        ensures read { self.new ≡ answered self.old want count piece }
        ensures given { (packet : List ℕ) → given_list result packet ≡ refusal_given want piece }
    {
        match piece {
            ReplyPiece::Whole { is_error: true } => {
                self.refuse(want);
                Some(StageEvent::Refused(want))
            }
            ReplyPiece::Whole { is_error: false } => {
                self.ask_next();
                None
            }
            ReplyPiece::Open { is_error } => {
                self.stage = ReaderStage::Answer {
                    want,
                    count: count + 1,
                    is_error,
                };
                None
            }
            ReplyPiece::Other => {
                self.fail(ReaderFault::BadReply);
                None
            }
        }
    }

    /// One more byte of a line or of an answer.
    #[tactic(auto, unfolding(crate::specs::Dialogue::after_byte, crate::specs::Dialogue::given_by))]
    fn read_byte(&mut self, byte: u8) -> Option<StageEvent>
        requires { is_talk self.old.stage ≡ true }
        ensures read { self.new ≡ after_byte self.old byte }
        ensures given { (packet : List ℕ) → given_list result packet ≡ given_by self.old byte }
    {
        match self.stage {
            ReaderStage::FirstLine { count, after_cr } => {
                self.first_line(count, byte, line_piece(GREETING, count, after_cr, byte));
                None
            }
            ReaderStage::SecondLine { count, after_cr } => {
                self.second_line(count, byte, line_piece(b"", count, after_cr, byte))
            }
            ReaderStage::Answer {
                want,
                count,
                is_error,
            } => self.answer(want, count, reply_piece(count, is_error, byte)),
            ReaderStage::Transfer | ReaderStage::Failed(_) => unreachable!(),
        }
    }

    /// Whether a line or an answer comes next.
    fn is_talking(&self) -> bool
        ensures { result ≡ is_talk self.now.stage }
    {
        match self.stage {
            ReaderStage::FirstLine { .. }
            | ReaderStage::SecondLine { .. }
            | ReaderStage::Answer { .. } => true,
            ReaderStage::Transfer | ReaderStage::Failed(_) => false,
        }
    }
}

/// What is read of a piece.
impl Dialogue {
    ghost use Rattle.std.specs.Prelude.{◌≡◌, ◌≤◌, ◌+◌, ◌<◌, ◌^◌, Bool, List, true, length};
    ghost use Rattle.slreader.specs.Dialogue.{behind, outcome_of, read_first};
    ghost use Rattle.slreader.specs.ReaderViews.{is_talk, step_outcome};
    ghost use Rattle.slreader.specs.Reads.{TalkedOf, tally_given, with_given};
    ghost use Rattle.slreader.specs.Whats.{what_value};

    /// Reads lines and answers, up to the first that gives something.
    fn talk(&mut self, piece: &[u8]) -> PieceStep
        ensures talked { TalkedOf self.old piece.now result.used result.event self.new }
        ensures within { result.used ≤ length piece.now }
    {
        for (index, byte) in piece.iter().enumerate() {
            if !self.is_talking() {
                return PieceStep {
                    used: index,
                    event: None,
                };
            }
            let event = self.read_byte(*byte);
            if event.is_some() {
                return PieceStep {
                    used: index + 1,
                    event,
                };
            }
        }
        PieceStep {
            used: piece.len(),
            event: None,
        }
    }

    /// Counts what was given, if it is a packet.
    pub(crate) fn count(&mut self, what: &What<'_>)
        ensures { self.new ≡ record self.old { tally = tally_given self.old.tally (what_value what.now) } }
    {
        if let What::Packet(packet) = what {
            self.tally.count(packet);
        }
    }

    /// Reads what follows the lines and answers: the first `before` bytes of a piece were read already. What is given is
    /// not counted yet.
    fn receive(
        &mut self,
        before: usize,
        piece: &[u8],
        packet: &mut [u8; 520],
    ) -> Result<PieceStep, ReaderFault>
        requires fits { before + length piece.now < 2 ^ 64 }
        requires talked { is_talk self.old.stage ≡ true → length piece.now ≡ 0 }
        ensures outcome { step_outcome result packet.new ≡ outcome_of (behind before (read_first self.old piece.now)) }
        ensures read { with_given self.new result packet.new ≡ (read_first self.old piece.now).reader }
    {
        match self.stage {
            ReaderStage::FirstLine { .. }
            | ReaderStage::SecondLine { .. }
            | ReaderStage::Answer { .. } => Ok(PieceStep {
                used: before,
                event: None,
            }),
            ReaderStage::Transfer => match read_packet(&mut self.cutter, piece, packet) {
                Ok(step) => Ok(PieceStep {
                    used: before + step.used,
                    event: step.event,
                }),
                Err(_) => {
                    self.fail(ReaderFault::NotAPacket);
                    Err(ReaderFault::NotAPacket)
                }
            },
            ReaderStage::Failed(fault) => Err(fault),
        }
    }

    /// Reads the piece up to the first thing that it gives, else to its end. A packet that is given is copied to
    /// `packet`. What is given is not counted yet.
    pub(crate) fn read(
        &mut self,
        piece: &[u8],
        packet: &mut [u8; 520],
    ) -> Result<PieceStep, ReaderFault>
        ensures outcome { step_outcome result packet.new ≡ outcome_of (read_first self.old piece.now) }
        ensures read { with_given self.new result packet.new ≡ (read_first self.old piece.now).reader }
    {
        let talked = self.talk(piece);
        if talked.event.is_some() {
            return Ok(talked);
        }
        self.receive(talked.used, &piece[talked.used..], packet)
    }
}
