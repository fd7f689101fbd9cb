//! What a check lists.
ghost use Rattle.std.specs.Prelude.{◌≡◌, true, false};

/// How a listing writes times.
#[derive(Clone, Copy, Drop)]
pub enum Times {
    /// In ticks of 0.0001 s since 1970, in decimal.
    Ticks,
    /// As `2024-02-29T00:00:00.0000Z` (ISO 8601, UTC); in ticks outside the years 1 to 9999.
    Iso,
}

/// What a check lists.
#[derive(Clone, Copy)]
pub struct ListingOptions {
    /// How it writes times.
    pub times: Times,
    /// A line for each record, and one for the bytes that are left over.
    pub has_lines: bool,
    /// After those a line for each stream.
    pub has_summary: bool,
    /// A line for each gap and each overlap between two records of a stream, before the line of the second one.
    pub has_gaps: bool,
}

impl ListingOptions {
    ghost use Rattle.record_check.specs.Listing.{has_streams};

    /// A line for each record, with times in ticks.
    pub fn lines() -> ListingOptions
        ensures { result ≡ record { times = Times.Ticks; has_lines = true; has_summary = false; has_gaps = false } }
    {
        ListingOptions {
            times: Times::Ticks,
            has_lines: true,
            has_summary: false,
            has_gaps: false,
        }
    }

    /// Whether it is noted which records belong to a stream.
    pub(crate) fn has_streams(&self) -> bool
        ensures { result ≡ has_streams self.now }
    {
        self.has_summary || self.has_gaps
    }
}
