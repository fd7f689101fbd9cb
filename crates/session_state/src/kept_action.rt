//! What is asked of a station, if anything, as it is kept.
ghost use Rattle.std.specs.Prelude.{◌≡◌, is_some, not};
ghost use Rattle.session_state.specs.KeptActions.{begin_of, end_of};

use sl_lines::Action;
use sl_packet::Seq;
use sl_time::Tick;
use std::marker::Model;

/// The cases of a kept action.
#[derive(Clone, Copy)]
enum Case {
    /// Nothing is asked.
    Nothing,
    /// DATA.
    Data {
        number: Option<Seq>,
        begin: Option<Tick>,
    },
    /// FETCH.
    Fetch {
        number: Option<Seq>,
        begin: Option<Tick>,
    },
    /// TIME without an end.
    From {
        begin: Option<Tick>,
    },
    /// TIME with an end.
    Between {
        begin: Option<Tick>,
        last: Tick,
    },
}

/// What is asked of a station, if anything. It stands for an `Option<Action>`, and takes 32 bytes in place of 48, since
/// one tag tells all its cases apart.
#[derive(Clone, Copy)]
pub struct KeptAction {
    case: Case,
}

impl Model for KeptAction {
    ghost use Rattle.std.specs.Prelude.{Option, refl};
    ghost use Rattle.sl_lines.specs.declared.actions.Action.{Action};
    ghost use Rattle.session_state.specs.KeptActions.{action_of, case_of, case-again};

    ghost Value = { Option Action };

    ghost view = { λ k. action_of k.case };

    ghost inverse = { λ a. record { case = case_of a } };

    ghost inverse_ok = { λ k h. rw (case-again k.case) refl };
}

impl KeptAction {
    /// The kept action that stands for an action, or for none.
    pub fn of(action: Option<Action>) -> KeptAction
        ensures { result ≡ action }
    {
        match action {
            None => KeptAction {
                case: Case::Nothing,
            },
            Some(Action::Data { number, begin }) => KeptAction {
                case: Case::Data { number, begin },
            },
            Some(Action::Fetch { number, begin }) => KeptAction {
                case: Case::Fetch { number, begin },
            },
            Some(Action::Time { begin, last: None }) => KeptAction {
                case: Case::From { begin },
            },
            Some(
                Action::Time {
                    begin,
                    last: Some(last),
                },
            ) => KeptAction {
                case: Case::Between { begin, last },
            },
        }
    }

    /// What it stands for.
    pub fn to_option(self) -> Option<Action>
        ensures { result ≡ self }
    {
        match self.case {
            Case::Nothing => None,
            Case::Data { number, begin } => Some(Action::Data { number, begin }),
            Case::Fetch { number, begin } => Some(Action::Fetch { number, begin }),
            Case::From { begin } => Some(Action::Time { begin, last: None }),
            Case::Between { begin, last } => Some(Action::Time {
                begin,
                last: Some(last),
            }),
        }
    }

    /// The moment before which no wanted record ends, if one is given.
    pub fn begin(&self) -> Option<Tick>
        ensures { result ≡ begin_of self.now }
    {
        match self.case {
            Case::Nothing => None,
            Case::Data { begin, .. } => begin,
            Case::Fetch { begin, .. } => begin,
            Case::From { begin } => begin,
            Case::Between { begin, .. } => begin,
        }
    }

    /// The moment after which no wanted record starts: the end of TIME, if it has one.
    pub fn end(&self) -> Option<Tick>
        ensures { result ≡ end_of self.now }
    {
        match self.case {
            Case::Nothing => None,
            Case::Data { .. } => None,
            Case::Fetch { .. } => None,
            Case::From { .. } => None,
            Case::Between { last, .. } => Some(last),
        }
    }

    /// Whether something is asked.
    pub fn is_some(&self) -> bool
        ensures { result ≡ is_some self.now }
    {
        !self.is_none()
    }

    /// Whether nothing is asked.
    pub fn is_none(&self) -> bool
        ensures { is_some self.now ≡ not result }
    {
        matches!(self.case, Case::Nothing)
    }
}
