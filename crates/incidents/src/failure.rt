//! Why the program ends with status 1.
ghost use Rattle.std.specs.Prelude.{◌≡◌, None, Some};
ghost use Rattle.protocol.specs.declared.reason.Reason.TheVariants.{OutOfMemory};

use protocol::reason::Reason;

/// Why the program ends with status 1: the reason that it reports, and the texts that explain it on request. Each of
/// these stands beside the fault that it explains.
#[derive(Clone, Copy, Drop)]
pub struct Failure {
    pub reason: Reason,
    /// What happened, in a sentence without its end, if the reason's own sentence doesn't say it.
    pub cause: Option<&'static str>,
    /// What may stand there, if something else may.
    pub allowed: Option<&'static str>,
}

impl Failure {
    /// One that its reason explains.
    pub fn of(reason: Reason) -> Failure
        ensures { result ≡ record { reason = reason; cause = None; allowed = None } }
    {
        Failure {
            reason,
            cause: None,
            allowed: None,
        }
    }

    /// One with a sentence of its own, if the fault has one.
    pub fn by(reason: Reason, cause: Option<&'static str>) -> Failure
        ensures { result ≡ record { reason = reason; cause = cause.entry; allowed = None } }
    {
        Failure {
            reason,
            cause,
            allowed: None,
        }
    }

    /// The same, at a place where something else may stand.
    pub fn allowing(self, allowed: &'static str) -> Failure
        ensures { result ≡ record self { allowed = Some allowed.entry } }
    {
        Failure {
            reason: self.reason,
            cause: self.cause,
            allowed: Some(allowed),
        }
    }

    /// Memory was refused.
    pub fn out_of_memory() -> Failure
        ensures { result.reason ≡ OutOfMemory }
    {
        Failure::of(Reason::OutOfMemory)
    }

    /// What happened, in a sentence without its end.
    pub(crate) fn sentence(self) -> &'static str {
        match self.cause {
            Some(cause) => cause,
            None => self.reason.cause(),
        }
    }
}
