//! Why bytes are not taken.
ghost use Rattle.std.specs.Prelude.{◌≡◌, codes};

use protocol::reason::Reason;

/// There are more bytes than there is room for: 1,024 less the unread ones.
#[derive(Clone, Copy, Drop)]
pub struct NoRoom;

impl NoRoom {
    /// The reason by which the program reports it: 31 NoRoom.
    pub fn reason(self) -> Reason
        ensures { result ≡ Reason.NoRoom }
    {
        Reason::NoRoom
    }
}
