//! Why a feed ends before all of it is read.
ghost use Rattle.std.specs.Prelude.{◌≡◌};
ghost use Rattle.job_feed.specs.Faults.{feed_reason};

use feeder::SendFault;
use incidents::Failure;
use protocol::reason::Reason;

/// Why a feed ends before the server has read all of it.
#[derive(Clone, Copy, Drop)]
pub enum FeedFault {
    /// Not all of it was sent.
    Send(SendFault),
    /// The server ended the connection before it had read everything.
    Untaken,
    /// The server took nothing, or did not end the connection, for too long.
    Silent,
    /// The server answered, which a feed port never does.
    Answered,
}

impl FeedFault {
    /// The reason by which the program reports it: 41, 42, 43 or 52.
    pub fn reason(self) -> Reason
        ensures { result ≡ feed_reason self }
    {
        match self {
            FeedFault::Send(fault) => fault.reason(),
            FeedFault::Untaken | FeedFault::Silent => Reason::Write,
            FeedFault::Answered => Reason::BadReply,
        }
    }

    /// What it is in a sentence, if its reason's own sentence doesn't say it.
    fn cause(self) -> Option<&'static str> {
        match self {
            FeedFault::Send(_) => None,
            FeedFault::Untaken => Some(
                "the server ended the connection: it takes no feed from here, or has 16; perhaps it read nothing",
            ),
            FeedFault::Silent => Some(
                "the server took nothing, or did not end the connection, for the time of --timeout",
            ),
            FeedFault::Answered => Some(
                "the server answered, which a feed port never does; perhaps this is its port for clients",
            ),
        }
    }

    /// It, as the program reports it.
    pub fn failure(self) -> Failure
        ensures { result.reason ≡ feed_reason self }
    {
        Failure::by(self.reason(), self.cause())
    }
}
