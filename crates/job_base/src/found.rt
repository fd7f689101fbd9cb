//! Files of records in which something is wrong.
ghost use Rattle.std.specs.Prelude.{◌≡◌};
ghost use Rattle.record_check.specs.Listing.{file_reason};

use crate::inputs::lines_of;
use incidents::{Failure, Incident, Place};
use record_check::{FileKind, Finding, FoundRecord};
use std::alloc::Global;

/// A file of records in which something is wrong, and what it is, if it is known for no file of records.
pub fn refused_records<'a>(
    alloc: Global,
    place: Place<'a>,
    finding: Finding,
    kind: Option<FileKind>,
) -> Incident<'a>
    ensures { result.failure.reason ≡ file_reason finding.fault }
{
    let failure = Failure::by(finding.fault.reason(), finding.fault.cause());
    let found = FoundRecord { finding, kind };
    failure.at(place).with(lines_of(alloc, found))
}
