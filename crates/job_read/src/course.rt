//! How far a connection is, by the bytes that went over it: whether the server owes something.
//!
//! Silence is a fault only if something is owed. A server between two packets may have no record for days. It owes an
//! answer to each command but the last one, and the rest of a packet that has begun: the bytes of a connection are
//! counted to know that, and the dialogue below knows no time. A connection that takes no command is over: the next
//! read says that it ended. So a fault of writing is one of an output, and never one that another server could mend.
ghost use Rattle.std.specs.Prelude.{◌≡◌};
ghost use Rattle.job_read.specs.Waiting.{is_end, lengthened};

use sl_packet::PACKET;
use std::marker::Model;

/// The command that is being sent, as far as it may be END.
#[derive(Clone, Copy, PartialEq, Eq, Drop)]
pub enum SentCommand {
    /// No byte of it yet.
    Begun,
    /// `E`.
    E,
    /// `EN`.
    En,
    /// `END`.
    End,
    /// Something else.
    Other,
}

impl SentCommand {
    /// A byte more.
    fn lengthened(self, byte: u8) -> SentCommand
        ensures { result ≡ lengthened self byte }
    {
        match self {
            SentCommand::Begun if byte == b'E' => SentCommand::E,
            SentCommand::E if byte == b'N' => SentCommand::En,
            SentCommand::En if byte == b'D' => SentCommand::End,
            _ => SentCommand::Other,
        }
    }

    /// Whether it asks for the transfer.
    fn is_end(self) -> bool
        ensures { result ≡ is_end self }
    {
        match self {
            SentCommand::End => true,
            _ => false,
        }
    }
}

/// How far a connection is.
#[derive(Clone, Copy, Drop)]
pub struct Course {
    command: SentCommand,
    is_transfer: bool,
    packet: usize,
}

impl Model for Course {
    ghost use Rattle.job_read.specs.Waiting.{CourseValue};

    ghost Value = { CourseValue };

    ghost view = { λ c. record { command = c.command; is_transfer = c.is_transfer; packet = c.packet } };

    ghost inverse = { λ c. record { command = c.command; is_transfer = c.is_transfer; packet = c.packet } };
}

impl Course {
    ghost use Rattle.std.specs.Prelude.{◌≡◌};
    ghost use Rattle.job_read.specs.Waiting.{after_received, after_sent, after_sent_byte, completes, is_owed, started};

    /// No byte went over it.
    pub fn new() -> Course
        ensures { result ≡ started }
    {
        Course {
            command: SentCommand::Begun,
            is_transfer: false,
            packet: 0,
        }
    }

    /// A byte was sent.
    fn send_byte(&mut self, byte: u8)
        ensures { self.new ≡ after_sent_byte self.old byte }
    {
        if byte == b'\r' {
            self.is_transfer = self.is_transfer || self.command.is_end();
            self.command = SentCommand::Begun;
        } else {
            self.command = self.command.lengthened(byte);
        }
    }

    /// Bytes were sent.
    pub fn send(&mut self, bytes: &[u8])
        ensures { self.new ≡ after_sent self.old bytes.now }
    {
        for byte in bytes {
            self.send_byte(*byte);
        }
    }

    /// So many bytes came.
    pub fn receive(&mut self, count: usize)
        ensures { self.new ≡ after_received self.old count }
    {
        if self.is_transfer {
            self.packet = (self.packet % PACKET + count % PACKET) % PACKET;
        }
    }

    /// Whether the transfer was asked for.
    pub fn is_transfer(&self) -> bool
        ensures { result ≡ self.now.is_transfer }
    {
        self.is_transfer
    }

    /// Whether so many bytes more bring a packet to its end.
    pub fn completes(&self, count: usize) -> bool
        ensures { result ≡ completes self.now count }
    {
        self.is_transfer && count >= PACKET - self.packet % PACKET
    }

    /// Whether the server owes something: an answer, or the rest of a packet.
    pub fn is_owed(&self) -> bool
        ensures { result ≡ is_owed self.now }
    {
        !self.is_transfer || self.packet != 0
    }
}
