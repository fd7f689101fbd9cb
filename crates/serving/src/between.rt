//! What a server asks and reports between its turns.
ghost use Rattle.std.specs.Prelude.{◌≡◌, List, [], ◌∷◌, None};
ghost use Rattle.std.specs.declared.option.Option.{Option};
ghost use Rattle.serving.specs.Asked.{Asked, Tells};
ghost use Rattle.serving.specs.Asked.Asked.{Configuration, Keeps, Looks, Refuses, Reports};
ghost use Rattle.serving.specs.Ahead.{ahead_of};

use crate::activity::Activity;
use crate::ahead::NumbersAhead;
use catalog::Config;
use event_loop::Loop;
use ports::Ports;

/// What a server could not do: why a configuration did not come into force, or numbers were not kept.
#[derive(Drop)]
pub enum Refusal<F> {
    /// It could not be read.
    Unread(F),
    /// It differs from the present one in more than the lists of addresses.
    Different,
    /// It is none: the numbers of the stations could not be kept.
    Unkept(F),
}

/// What is due by time.
#[derive(Clone, Copy, Drop)]
pub struct Due {
    /// The configuration is to be read again.
    pub reread: bool,
    /// It is to be reported what was done.
    pub report: bool,
}

/// Whoever answers a server between its turns. It may tell all calls that were made, with their answers.
pub trait Between {
    /// Why there is no configuration.
    type Fault: Drop;

    // All calls and their answers, if they are told.
    ghost asked: { Self → Option (List (Asked Self.Fault)) };

    /// What is due by time, after a turn. What is answered so is done before the next turn.
    fn due(&mut self) -> Due
        ensures call { Tells (asked self.old) (asked self.new) (Looks result ∷ []) };

    /// The configuration as it is now. None if it is as it was when it came into force last.
    fn configuration(&mut self) -> Result<Option<Config>, Self::Fault>
        ensures call { Tells (asked self.old) (asked self.new) (Configuration result ∷ []) };

    /// A configuration did not come into force, or numbers were not kept.
    fn refused(&mut self, refusal: Refusal<Self::Fault>)
        ensures call { Tells (asked self.old) (asked self.new) (Refuses refusal ∷ []) };

    /// What the server has done so far.
    fn report(&mut self, activity: Activity)
        ensures call { Tells (asked self.old) (asked self.new) (Reports activity ∷ []) };

    /// The numbers of the stations are to be kept, for a server that is begun later.
    fn keep(&mut self, numbers: &NumbersAhead<'_>) -> Result<(), Self::Fault>
        ensures call { Tells (asked self.old) (asked self.new) (Keeps (ahead_of numbers.now) result ∷ []) };

    /// Lends the server, after a turn and what was due: whoever wants to tell others how it stands may look at it. This
    /// is no call that is told, and nothing of the server changes.
    fn watch<P: Ports>(&mut self, server: &Loop<P>)
        ensures untold { asked self.new ≡ asked self.old };
}

/// There is no other configuration.
#[derive(Clone, Copy, Drop)]
pub struct NoConfiguration;

/// Nothing between turns: nothing is due by time, there is never another configuration, and reports and numbers go
/// nowhere.
#[derive(Clone, Copy, Drop)]
pub struct NothingBetween;

impl Between for NothingBetween {
    type Fault = NoConfiguration;

    ghost asked = { λ _. None };

    fn due(&mut self) -> Due {
        Due {
            reread: false,
            report: false,
        }
    }

    fn configuration(&mut self) -> Result<Option<Config>, NoConfiguration> {
        Err(NoConfiguration)
    }

    fn refused(&mut self, _refusal: Refusal<NoConfiguration>)
        ensures call { Tells None None (Refuses _refusal ∷ []) }
    {}

    fn report(&mut self, _activity: Activity) {}

    fn keep(&mut self, _numbers: &NumbersAhead<'_>) -> Result<(), NoConfiguration> {
        Ok(())
    }

    fn watch<P: Ports>(&mut self, _server: &Loop<P>) {}
}
