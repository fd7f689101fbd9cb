//! Servers that are asked one after the other.
ghost use Rattle.std.specs.Prelude.{List, [], ◌∷◌, MatchResult};
ghost use Rattle.std.specs.declared.option.Option.{Option};
ghost use Rattle.reader_run.specs.Calls.{Call, connection};
ghost use Rattle.reader_run.specs.Calls.Call.{Closes, Connects, Fails, PassesOver};
ghost use Rattle.reader_run.specs.Keeping.{Tells};

use crate::fault::ListingFault;
use sl_io::{Sink, Source};

/// Servers that are asked one after the other, each over a connection of its own. They may tell all calls that were
/// made, in order, with what went over each connection.
pub trait Servers {
    /// What comes over a connection.
    type Reader: Source + Drop;

    /// Where commands go.
    type Writer: Sink + Drop;

    /// Why no server is asked any more.
    type Fault: Drop;

    // All calls, in order, if they are told.
    ghost told: { Self → Option (List (Call Self.Fault)) };

    /// A connection to the next server.
    fn connect(&mut self) -> Result<(Self::Reader, Self::Writer), Self::Fault>
        ensures call { MatchResult result
            (λ c. Tells (told self.old) (told self.new) (Connects (connection
            (Self.Reader.left c.0) (Self.Reader.failures c.0) (Self.Reader.calls c.0)
            (Self.Writer.written c.1) (Self.Writer.failures c.1) (Self.Writer.empty_writes c.1)) ∷ []))
            (λ fault. Tells (told self.old) (told self.new) (Fails fault ∷ [])) };

    /// A connection ended for that reason, and all that came over it is written. Unless this fails, the next server is
    /// asked.
    fn pass_over(
        &mut self,
        fault: ListingFault,
        reader: Self::Reader,
        writer: Self::Writer,
    ) -> Result<(), Self::Fault>
        ensures call { Tells (told self.old) (told self.new) (PassesOver fault (connection
            (Self.Reader.left reader) (Self.Reader.failures reader) (Self.Reader.calls reader)
            (Self.Writer.written writer) (Self.Writer.failures writer) (Self.Writer.empty_writes writer))
            result ∷ []) };

    /// A connection is over, and no other server is asked.
    fn close(&mut self, reader: Self::Reader, writer: Self::Writer)
        ensures call { Tells (told self.old) (told self.new) (Closes (connection
            (Self.Reader.left reader) (Self.Reader.failures reader) (Self.Reader.calls reader)
            (Self.Writer.written writer) (Self.Writer.failures writer) (Self.Writer.empty_writes writer)) ∷ []) };
}
