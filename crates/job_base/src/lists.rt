//! Words of the command line that are no access lists.
ghost use Rattle.std.specs.Prelude.{◌≡◌, ◌≢◌};
ghost use Rattle.access_list.specs.declared.fault.AccessFault.TheVariants.{OutOfMemory as ListMemory};
ghost use Rattle.protocol.specs.declared.reason.Reason.TheVariants.{Access, OutOfMemory};
ghost use Rattle.incidents.specs.declared.site.Place.TheVariants.{Word};

use crate::inputs::lines_of;
use access_list::{AccessFault, AccessList};
use catalog::{ConfigFault, Step};
use config_explained::{RefusedEntry, cause_of, limit_of};
use incidents::{Detail, Failure, Incident, Place};
use std::alloc::Global;

/// A word of the command line that is no access list, and its first entry that is invalid.
pub fn refused_list<'a>(alloc: Global, word: &'a str, fault: AccessFault) -> Incident<'a>
    ensures memory { fault ≡ ListMemory → result.failure.reason ≡ OutOfMemory }
    ensures refused { fault ≢ ListMemory → result.failure.reason ≡ Access }
    ensures word { fault ≢ ListMemory → result.site.place ≡ Word word.entry }
{
    if fault == AccessFault::OutOfMemory {
        return Incident::out_of_memory();
    }
    let fault = ConfigFault::Access(fault);
    let found = match AccessList::refused_entry(word.as_bytes()) {
        Some(entry) => lines_of(alloc, RefusedEntry(entry)),
        None => Detail::Nothing,
    };
    Failure::by(fault.reason(), cause_of(fault))
        .allowing(limit_of(Step::Access))
        .at(Place::Word(word))
        .with(found)
}
