//! Which records are wanted of every station, besides the number in its word.
ghost use Rattle.std.specs.Prelude.{◌≡◌, option_map};
ghost use Rattle.slreader.specs.WantTexts.{action_value, window_value};
ghost use Rattle.slreader.specs.Words.{action_of};

use crate::want::WantedAction;
use sl_packet::Seq;

/// Which records are wanted (SeedLink 3: DATA, FETCH and TIME). Moments are texts that `sl_time::parse` accepts.
#[derive(Clone, Copy)]
pub enum Window<'a> {
    /// Records as they come, and with a begin those that end at that moment or later.
    Following { begin: Option<&'a [u8]> },
    /// The same of the records that the server holds, and then the end. A begin can be asked for beside a number only.
    Held { begin: Option<&'a [u8]> },
    /// Those that end at the first moment or later, and start at the second or earlier; then the end. They can't be
    /// asked for beside a number.
    Between { begin: &'a [u8], last: &'a [u8] },
}

/// The action that asks for them, with or without a number; None where SeedLink 3 has none.
pub(crate) fn action_of<'a>(window: Window<'a>, number: Option<Seq>) -> Option<WantedAction<'a>>
    ensures { option_map action_value result ≡ action_of (window_value window.entry) number }
{
    match window {
        Window::Following { begin: None } => Some(WantedAction::Data {
            number,
            begin: None,
        }),
        Window::Following { begin } if number.is_none() => Some(WantedAction::Time {
            begin,
            last: None,
        }),
        Window::Following { begin } => Some(WantedAction::Data { number, begin }),
        Window::Held { begin } => Some(WantedAction::Fetch { number, begin }),
        Window::Between { begin, last } if number.is_none() => Some(WantedAction::Time {
            begin: Some(begin),
            last: Some(last),
        }),
        Window::Between { .. } => None,
    }
}
