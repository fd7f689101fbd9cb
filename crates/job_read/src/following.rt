//! Servers that are asked for what a reading wants.
ghost use Rattle.std.specs.Prelude.{◌≡◌, IfErr, OnOk};
ghost use Rattle.reader_run.specs.Breaks.{StopsVisits};
ghost use Rattle.reader_run.specs.Following.{Follows};
ghost use Rattle.reader_run.specs.Keeping.{KeepsBehind};
ghost use Rattle.reader_run.specs.Visits.{EndsVisits, asking, progress};

use crate::reading::Reading;
use reader_run::{Break, Keeper, RecordSink, Servers, follow};
use sl_io::Sink;
use slreader::Tally;
use std::alloc::Global;

/// Asks servers for what a reading wants.
pub fn follow_with<S: Servers, O: Sink, P: RecordSink, K: Keeper<P>>(
    alloc: Global,
    reading: &Reading<'_, '_>,
    tally: &mut Tally,
    servers: &mut S,
    out: &mut O,
    records: &mut P,
    keeper: &mut K,
) -> Result<(), Break<S::Fault>>
    ensures ends { OnOk result (EndsVisits (asking reading.now.wants.items reading.now.lines)
        (progress tally.old (O.written out.old) (O.failures out.old) (O.empty_writes out.old)
        (P.written records.old) (P.failures records.old) (P.empty_writes records.old) (K.failures keeper.old))
        (progress tally.new (O.written out.new) (O.failures out.new) (O.empty_writes out.new)
        (P.written records.new) (P.failures records.new) (P.empty_writes records.new) (K.failures keeper.new))
        (S.told servers.old) (S.told servers.new)) }
    ensures stops { IfErr result (λ why. StopsVisits why (asking reading.now.wants.items reading.now.lines)
        (progress tally.old (O.written out.old) (O.failures out.old) (O.empty_writes out.old)
        (P.written records.old) (P.failures records.old) (P.empty_writes records.old) (K.failures keeper.old))
        (progress tally.new (O.written out.new) (O.failures out.new) (O.empty_writes out.new)
        (P.written records.new) (P.failures records.new) (P.empty_writes records.new) (K.failures keeper.new))
        (S.told servers.old) (S.told servers.new)) }
    ensures behind { KeepsBehind (λ t w. Follows reading.now.wants.items tally.old (P.written records.old) t w)
        (K.done keeper.old) (K.done keeper.new) }
{
    follow(
        alloc,
        reading.lines,
        &reading.wants,
        tally,
        servers,
        out,
        records,
        keeper,
    )
}
