//! Servers by their places, one after the other.
ghost use Rattle.std.specs.Prelude.{◌≡◌, nat_lt};
ghost use Rattle.job_read.specs.Places.{is_last_place, place_after};

/// The place of the server that is asked, among so many.
#[derive(Clone, Copy)]
pub struct Places {
    place: usize,
    count: usize,
}

impl Places {
    /// The first.
    pub fn new(count: usize) -> Places
        ensures { (result.place ≡ 0) × (result.count ≡ count) }
    {
        Places { place: 0, count }
    }

    /// Its place.
    pub fn place(&self) -> usize
        ensures { result ≡ self.now.place }
    {
        self.place
    }

    /// Whether none comes after it.
    pub fn is_last(&self) -> bool
        ensures { result ≡ is_last_place self.now.place self.now.count }
    {
        self.count.saturating_sub(self.place) <= 1
    }

    /// Whether there are others.
    pub fn has_others(&self) -> bool
        ensures { result ≡ nat_lt 1 self.now.count }
    {
        self.count > 1
    }

    /// The next one, and after the last the first.
    pub fn advance(&mut self)
        ensures { self.new ≡ record self.old { place = place_after self.old.place self.old.count } }
    {
        self.place = if self.is_last() { 0 } else { self.place + 1 };
    }

    /// The first one again.
    pub fn restart(&mut self)
        ensures { self.new ≡ record self.old { place = 0 } }
    {
        self.place = 0;
    }
}
