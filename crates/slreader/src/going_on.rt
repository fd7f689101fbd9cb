//! Wants that go on after the packets that were given.
//!
//! `next_wanted` goes by the codes of the records that can be read. In a plan of one want each packet counts, also one
//! whose record can't be read.
ghost use Rattle.std.specs.Prelude.{◌≡◌, ◌++◌, IfOk, OnOk};
ghost use Rattle.slreader.specs.GoingOn.{action_after, after, plan_on, want_on, wants_on};
ghost use Rattle.slreader.specs.Views.{plan_value};
ghost use Rattle.slreader.specs.WantTexts.{action_value};

use crate::tally::Tally;
use crate::want::{Plan, Want, WantedAction};
use sl_packet::Seq;
use std::alloc::{AllocError, Global};

/// The number to go on with, or else the one that there was.
fn number_after(next: Option<Seq>, number: Option<Seq>) -> Option<Seq>
    ensures { result ≡ after next number }
{
    match next {
        Some(next) => Some(next),
        None => number,
    }
}

/// The action that asks for the same records, from a number on if there is one. TIME with an end takes no number, and
/// stays as it is.
fn action_after<'a>(action: &WantedAction<'a>, next: Option<Seq>) -> WantedAction<'a>
    ensures { action_value result ≡ action_after (action_value action.now) next }
{
    match *action {
        WantedAction::Data { number, begin } => WantedAction::Data {
            number: number_after(next, number),
            begin,
        },
        WantedAction::Fetch { number, begin } => WantedAction::Fetch {
            number: number_after(next, number),
            begin,
        },
        WantedAction::Time { begin, last: None } if next.is_some() => WantedAction::Data {
            number: next,
            begin,
        },
        WantedAction::Time { begin, last } => WantedAction::Time { begin, last },
    }
}

/// The want, from a number on if there is one.
fn want_on<'a>(alloc: Global, want: &Want<'a>, next: Option<Seq>) -> Result<Want<'a>, AllocError>
    ensures { IfOk result (λ w. w ≡ want_on want.now next) }
{
    Ok(Want {
        network: want.network,
        station: want.station,
        patterns: want.patterns.as_slice().to_vec(alloc)?,
        action: action_after(&want.action, next),
    })
}

/// Adds the wants as they go on.
fn put_wants<'a>(
    alloc: Global,
    going_on: &mut Vec<Want<'a>>,
    tally: &Tally,
    wants: &[Want<'a>],
) -> Result<(), AllocError>
    ensures { OnOk result (going_on.new.items ≡ going_on.old.items ++ wants_on tally.now 0 wants.now) }
{
    for (index, want) in wants.iter().enumerate() {
        going_on.push(want_on(alloc, want, tally.next(index))?)?;
    }
    Ok(())
}

impl<'a> Plan<'a> {
    /// The plan by which wants go on after the packets that were counted: each want of whose station a packet was given
    /// asks for the records from the number after its last one on, with the begin that it had. So DATA and FETCH keep
    /// their names, and TIME without an end becomes DATA. The others, and TIME with an end, ask as they did.
    pub fn going_on(
        alloc: Global,
        wants: &[Want<'a>],
        tally: &Tally,
    ) -> Result<Plan<'a>, AllocError>
        ensures { IfOk result (λ plan. plan_value plan ≡ plan_on tally.now wants.now) }
    {
        let mut going_on = Vec::new(alloc);
        put_wants(alloc, &mut going_on, tally, wants)?;
        Ok(Plan::Multi(going_on))
    }
}
