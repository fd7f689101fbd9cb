//! Runs of records, and what lies between them in the order of time.
//!
//! A file in the order of arrival has records of one hour behind those of another one, where a hole was filled. So gaps
//! are looked for in the order of time, between runs of records that came one after the other without a gap: what is
//! kept grows by these, and not by records.
ghost use Rattle.std.specs.Prelude.{◌≡◌, ◌+◌, ◌<◌, ◌^◌, min, OnOk, OnErr, drop};
ghost use Rattle.record_check.specs.Streams.{more_if as spec_more_if, runs_with, ticks_after as spec_ticks_after};
ghost use Rattle.record_check.specs.Streams.{is_double, is_hole, seam_count, seams_from};

use mseed_header::Header;
use sl_time::Tick;
use std::alloc::AllocError;
use std::marker::Model;

/// The time that a record takes, and how many samples it has.
#[derive(Clone, Copy)]
pub struct Extent {
    start: Tick,
    end: Tick,
    samples: u16,
}

impl Model for Extent {
    ghost use Rattle.record_check.specs.Streams.{Extent as ExtentValue};

    ghost Value = { ExtentValue };

    ghost view = { λ e. record { start = e.start; stop = e.end; samples = e.samples } };

    ghost inverse = { λ e. record { start = e.start; end = e.stop; samples = e.samples } };
}

/// By how many ticks a moment is after another one; 0 if it is not.
pub(crate) fn ticks_after(earlier: Tick, later: Tick) -> u128
    ensures value { result ≡ spec_ticks_after earlier later }
    ensures bound { result < 2 ^ 64 }
{
    let (earlier, later) = (earlier.value(), later.value());
    if earlier < later {
        u128::from(later.abs_diff(earlier))
    } else {
        0
    }
}

impl Extent {
    ghost use Rattle.std.specs.Prelude.{◌≡◌};
    ghost use Rattle.record_check.specs.Streams.{extent_of, is_gap, is_longer, is_overlap, reached_with, seam_before};
    ghost use Rattle.record_check.specs.Streams.{missing_before, shared};

    /// That of a record.
    pub fn of(header: &Header<'_>) -> Extent
        ensures { result ≡ extent_of header.now }
    {
        Extent {
            start: header.start(),
            end: header.end(),
            samples: header.samples(),
        }
    }

    /// Whether so many ticks are more than half a sample of it.
    fn is_longer(self, ticks: u128) -> bool
        requires { ticks < 2 ^ 64 }
        ensures { result ≡ is_longer self ticks }
    {
        2 * u128::from(self.samples) * ticks > ticks_after(self.start, self.end)
    }

    /// Whether a record that starts then leaves a gap after it.
    fn is_gap(self, start: Tick) -> bool
        ensures { result ≡ is_gap self start }
    {
        self.is_longer(ticks_after(self.end, start))
    }

    /// Whether it overlaps a record that starts then.
    fn is_overlap(self, start: Tick) -> bool
        ensures { result ≡ is_overlap self start }
    {
        self.is_longer(ticks_after(start, self.end))
    }

    /// By how many ticks a record that starts then leaves a gap after it, of more than half a sample; 0 if it leaves
    /// none.
    pub fn missing_before(&self, start: Tick) -> u128
        ensures { result ≡ missing_before self.now start }
    {
        if self.is_gap(start) {
            ticks_after(self.end, start)
        } else {
            0
        }
    }

    /// What a run and the records before it have both, of which this is the one that ends last.
    fn shared(&self, run: &Run) -> Seam
        ensures { result ≡ shared self.now run.now }
    {
        let (from, to) = (run.start, run.latest.end);
        if self.end.value() < to.value() {
            Seam::Overlap { from, to: self.end }
        } else {
            Seam::Twice { from, to }
        }
    }

    /// What lies between this record, which ends last of all before, and a run that comes next.
    fn seam_before(&self, run: &Run) -> Seam
        ensures { result ≡ seam_before self.now run.now }
    {
        if self.is_gap(run.start) {
            Seam::Gap {
                from: self.end,
                to: run.start,
            }
        } else if self.is_overlap(run.start) {
            self.shared(run)
        } else {
            Seam::Even
        }
    }

    /// The record that ends last, with a run more.
    fn reached_with(&self, run: &Run) -> Extent
        ensures { result ≡ reached_with self.now run.now }
    {
        if self.end.value() < run.latest.end.value() {
            run.latest
        } else {
            *self
        }
    }
}

/// Records of a stream that came one after the other, each where the one before it ends, within half a sample.
#[derive(Clone, Copy)]
pub(crate) struct Run {
    /// Where the first starts.
    start: Tick,
    /// The last.
    latest: Extent,
}

impl Model for Run {
    ghost use Rattle.record_check.specs.Streams.{RunValue};

    ghost Value = { RunValue };

    ghost view = { λ r. record { start = r.start; latest = r.latest } };

    ghost inverse = { λ r. record { start = r.start; latest = r.latest } };
}

impl Run {
    ghost use Rattle.std.specs.Prelude.{◌≡◌};
    ghost use Rattle.record_check.specs.Streams.{extent_of, goes_on, run_of};

    /// The run that begins with a record.
    pub(crate) fn of(header: &Header<'_>) -> Run
        ensures { result ≡ run_of header.now }
    {
        Run {
            start: header.start(),
            latest: Extent::of(header),
        }
    }

    /// Where it starts, in ticks.
    pub(crate) fn start(self) -> i64
        ensures { result ≡ self.start }
    {
        self.start.value()
    }

    /// Whether a record that starts then goes on with it, which has data or not.
    fn goes_on(self, is_data: bool, start: Tick) -> bool
        ensures { result ≡ goes_on is_data self start }
    {
        !(is_data && (self.latest.is_gap(start) || self.latest.is_overlap(start)))
    }

    /// The same with that record.
    fn with(self, header: &Header<'_>) -> Run
        ensures { result ≡ record self { latest = extent_of header.now } }
    {
        Run {
            start: self.start,
            latest: Extent::of(header),
        }
    }
}

/// One record more of a stream, which has data or not: it goes on with the last run, or begins one. It fails only if
/// memory can't be allocated, and then nothing changes.
pub(crate) fn put_record(
    runs: &mut Vec<Run>,
    is_data: bool,
    header: &Header<'_>,
) -> Result<(), AllocError>
    ensures put { OnOk result (runs.new.items ≡ runs_with is_data header.now runs.old.items) }
    ensures kept { OnErr result (runs.new.items ≡ runs.old.items) }
{
    if let Some(last) = runs.last() {
        let last = *last;
        if last.goes_on(is_data, header.start()) {
            let at = runs.len() - 1;
            runs[at] = last.with(header);
            return Ok(());
        }
    }
    runs.push(Run::of(header))?;
    Ok(())
}

/// What lies between the records before a run and the run, in the order of time.
#[derive(Clone, Copy)]
pub enum Seam {
    /// Nothing: it starts where the others end, within half a sample.
    Even,
    /// A time of which there is no record.
    Gap { from: Tick, to: Tick },
    /// A time of which there are two: the run goes on behind it.
    Overlap { from: Tick, to: Tick },
    /// The same, and it is all of the run.
    Twice { from: Tick, to: Tick },
}

impl Seam {
    /// Whether it is a gap.
    fn is_hole(&self) -> bool
        ensures { result ≡ is_hole self.now }
    {
        match self {
            Seam::Gap { .. } => true,
            Seam::Even | Seam::Overlap { .. } | Seam::Twice { .. } => false,
        }
    }

    /// Whether there are two records of a time.
    fn is_double(&self) -> bool
        ensures { result ≡ is_double self.now }
    {
        match self {
            Seam::Overlap { .. } | Seam::Twice { .. } => true,
            Seam::Even | Seam::Gap { .. } => false,
        }
    }
}

/// A count, with one more if that is so.
fn more_if(is_so: bool, count: u64) -> u64
    ensures { result ≡ spec_more_if is_so count }
{
    if is_so {
        count.saturating_add(1)
    } else {
        count
    }
}

/// How many gaps there are, and how many overlaps.
#[derive(Clone, Copy)]
pub(crate) struct SeamCount {
    pub(crate) gaps: u64,
    pub(crate) overlaps: u64,
}

impl Model for SeamCount {
    ghost use Rattle.record_check.specs.Streams.{SeamCountValue};

    ghost Value = { SeamCountValue };

    ghost view = { λ c. record { gaps = c.gaps; overlaps = c.overlaps } };

    ghost inverse = { λ c. record { gaps = c.gaps; overlaps = c.overlaps } };
}

impl SeamCount {
    ghost use Rattle.record_check.specs.Streams.{seam_count, with_seam, with_seams};

    /// One more.
    fn with(&self, seam: &Seam) -> SeamCount
        ensures { result ≡ with_seam self.now seam.now }
    {
        SeamCount {
            gaps: more_if(seam.is_hole(), self.gaps),
            overlaps: more_if(seam.is_double(), self.overlaps),
        }
    }

    /// With those before each of some runs.
    fn with_all(&self, reached: SeamWalk, runs: &[Run]) -> SeamCount
        ensures { result ≡ with_seams self.now (seams_from reached runs.now) }
    {
        let mut count = *self;
        let mut walk = reached;
        for run in runs {
            count = count.with(&walk.step(run));
        }
        count
    }

    /// Those of runs, which are in order.
    pub(crate) fn of(runs: &[Run]) -> SeamCount
        ensures { result ≡ seam_count runs.now }
    {
        let none = SeamCount {
            gaps: 0,
            overlaps: 0,
        };
        match runs.split_first() {
            Some((first, others)) => none.with_all(SeamWalk::behind(first), others),
            None => none,
        }
    }
}

/// What lies before each run, one after the other in the order of time.
#[derive(Clone, Copy)]
pub(crate) struct SeamWalk {
    reached: Extent,
}

impl Model for SeamWalk {
    ghost use Rattle.record_check.specs.Streams.{Extent as ExtentValue};

    ghost Value = { ExtentValue };

    ghost view = { λ w. w.reached };

    ghost inverse = { λ w. record { reached = w } };
}

impl SeamWalk {
    ghost use Rattle.record_check.specs.Streams.{reached_with, seam_before};

    /// Behind the first run.
    pub(crate) fn behind(first: &Run) -> SeamWalk
        ensures { result ≡ first.now.latest }
    {
        SeamWalk {
            reached: first.latest,
        }
    }

    /// What lies before the next one.
    pub(crate) fn step(&mut self, run: &Run) -> Seam
        ensures seam { result ≡ seam_before self.old run.now }
        ensures reached { self.new ≡ reached_with self.old run.now }
    {
        let seam = self.reached.seam_before(run);
        self.reached = self.reached.reached_with(run);
        seam
    }
}
