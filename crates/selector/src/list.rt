//! What a list of patterns lets pass.
ghost use Rattle.std.specs.Prelude.{◌≡◌, codes};
ghost use Rattle.selector.specs.Matching.{passes_parts};

use crate::pattern::Pattern;
use protocol::reason::Reason;
use protocol::record::Kind;

/// There is no room for a pattern more.
#[derive(Clone, Copy, Drop)]
pub struct Full;

impl Full {
    /// The reason by which the program reports it: 62 Full.
    pub fn reason(self) -> Reason
        ensures { result ≡ Reason.Full }
    {
        Reason::Full
    }
}

/// Whether a record with that location, channel and type passes patterns: there is none that isn't negated, or one
/// matches, and no negated one matches.
pub(crate) fn passes_among(
    patterns: &[Pattern],
    location: &[u8; 2],
    channel: &[u8; 3],
    kind: Kind,
) -> bool
    ensures { result ≡ passes_parts location.now channel.now kind patterns.now }
{
    if patterns.is_empty() {
        return true;
    }
    let mut is_chosen = false;
    let mut chooses = false;
    for pattern in patterns {
        if pattern.negated() {
            if pattern.matches(location, channel, kind) {
                return false;
            }
        } else {
            chooses = true;
            is_chosen = is_chosen || pattern.matches(location, channel, kind);
        }
    }
    is_chosen || !chooses
}
