//! All records that came to stations, the oldest first, and questions about them. A position is an index into the list.
use crate::patterns::let_pass;
use crate::records::{Arrival, Facts};
use crate::sites::Site;
use crate::words::{Action, Verb};
use std::alloc::{AllocError, Global};

#[derive(Drop)]
pub struct Came {
    site: usize,
    /// How many records of its station came before.
    before: usize,
    facts: Facts,
    bytes: [u8; 512],
}

/// A station that a client asks for.
#[derive(Drop)]
pub struct Request {
    pub site: usize,
    pub patterns: Vec<Vec<u8>>,
    pub action: Option<Action>,
    /// The position of its first record.
    pub from: usize,
}

/// Whether a record is one of the moments that an action asks for.
fn is_within(action: &Action, facts: &Facts) -> bool {
    let is_late = match action.begin {
        Some(begin) => facts.end >= begin,
        None => true,
    };
    let is_early = match action.end {
        Some(end) => facts.start <= end,
        None => true,
    };
    is_late && is_early
}

/// The six hexadecimal digits of a number.
pub fn push_digits(text: &mut Vec<u8>, number: usize) -> Result<(), AllocError> {
    for unit in [0x100000, 0x10000, 0x1000, 0x100, 0x10, 1] {
        let digit = number.checked_div(unit).unwrap_or(0) % 16;
        text.push(b"0123456789ABCDEF".get(digit).copied().unwrap_or(b'?'))?;
    }
    Ok(())
}

#[derive(Drop)]
pub struct History {
    pub sites: &'static [Site],
    came: Vec<Came>,
}

impl History {
    pub fn new(alloc: Global, sites: &'static [Site]) -> Self {
        History {
            sites,
            came: Vec::new(alloc),
        }
    }

    /// The station of the codes in a record.
    fn site_of(&self, facts: &Facts) -> Option<usize> {
        for (place, site) in self.sites.iter().enumerate() {
            if *site.network == *facts.network && *site.code == *facts.code {
                return Some(place);
            }
        }
        None
    }

    /// A record comes. It counts if it has facts and a station has its codes; the answer says whether.
    pub fn add(&mut self, arrival: &Arrival) -> Result<bool, AllocError> {
        let Some(facts) = arrival.facts else {
            return Ok(false);
        };
        let Some(site) = self.site_of(&facts) else {
            return Ok(false);
        };
        let before = self.count(site);
        self.came.push(Came {
            site,
            before,
            facts,
            bytes: arrival.bytes,
        })?;
        Ok(true)
    }

    /// The next position.
    pub fn end(&self) -> usize {
        self.came.len()
    }

    fn capacity(&self, site: usize) -> usize {
        match self.sites.get(site) {
            Some(site) => site.capacity,
            None => 0,
        }
    }

    /// How many records of a station came.
    fn count(&self, site: usize) -> usize {
        for came in self.came.iter().rev() {
            if came.site == site {
                return came.before.saturating_add(1);
            }
        }
        0
    }

    /// The number of a station's record that has so many before it.
    fn number(&self, site: usize, before: usize) -> usize {
        match self.sites.get(site) {
            Some(site) => site.first.saturating_add(before) % 0x1000000,
            None => 0,
        }
    }

    /// Whether the record at a position is one of a station, and fewer later ones came than are held.
    fn is_held_of(&self, site: usize, position: usize) -> bool {
        match self.came.get(position) {
            Some(came) => {
                came.site == site
                    && self.count(site).saturating_sub(came.before) <= self.capacity(site)
            }
            None => false,
        }
    }

    /// Whether the record at a position is one of a station, is held and has a number.
    fn is_held_as(&self, site: usize, position: usize, number: usize) -> bool {
        match self.came.get(position) {
            Some(came) => {
                self.is_held_of(site, position) && self.number(site, came.before) == number
            }
            None => false,
        }
    }

    /// The oldest held record of a station, or the next to arrive.
    fn oldest(&self, site: usize) -> usize {
        for position in 0..self.end() {
            if self.is_held_of(site, position) {
                return position;
            }
        }
        self.end()
    }

    /// Where a DATA or FETCH with a number begins.
    fn numbered(&self, site: usize, number: usize) -> usize {
        if number == self.number(site, self.count(site)) {
            return self.end();
        }
        for position in 0..self.end() {
            if self.is_held_as(site, position, number) {
                return position;
            }
        }
        self.oldest(site)
    }

    /// The position of the first record that an action wants.
    pub fn first(&self, site: usize, action: &Action) -> usize {
        match action.number {
            Some(number) => self.numbered(site, number),
            None if action.verb == Verb::Data => self.end(),
            None => self.oldest(site),
        }
    }

    /// Whether a request wants the record at a position, and it is held.
    fn is_wanted(&self, request: &Request, position: usize) -> bool {
        let (Some(came), Some(action)) = (self.came.get(position), request.action) else {
            return false;
        };
        self.is_held_of(request.site, position)
            && position >= request.from
            && let_pass(request.patterns.as_slice(), &came.facts)
            && is_within(&action, &came.facts)
    }

    /// Whether some request wants the record at a position.
    fn is_wanted_by_one(&self, requests: &[Request], position: usize) -> bool {
        for request in requests {
            if self.is_wanted(request, position) {
                return true;
            }
        }
        false
    }

    /// The first position from one on that some request wants.
    pub fn next(&self, requests: &[Request], from: usize) -> Option<usize> {
        for position in from..self.end() {
            if self.is_wanted_by_one(requests, position) {
                return Some(position);
            }
        }
        None
    }

    /// Whether a record of a station is held that starts after a moment.
    fn starts_after(&self, site: usize, end: u64) -> bool {
        for (place, came) in self.came.iter().enumerate() {
            if came.facts.start > end && self.is_held_of(site, place) {
                return true;
            }
        }
        false
    }

    /// Whether a request wants nothing more to come.
    fn is_ending(&self, request: &Request) -> bool {
        let Some(action) = request.action else {
            return true;
        };
        match (action.verb, action.end) {
            (Verb::Fetch, _) => true,
            (Verb::Time, Some(end)) => self.starts_after(request.site, end),
            _ => false,
        }
    }

    /// Whether all requests want nothing more to come.
    pub fn are_ending(&self, requests: &[Request]) -> bool {
        for request in requests {
            if !self.is_ending(request) {
                return false;
            }
        }
        true
    }

    /// The packet of the record at a position.
    pub fn packet(&self, alloc: Global, position: usize) -> Result<Vec<u8>, AllocError> {
        let mut packet = Vec::new(alloc);
        let Some(came) = self.came.get(position) else {
            return Ok(packet);
        };
        let number = self.number(came.site, came.before);
        packet.extend_from_slice(b"SL")?;
        push_digits(&mut packet, number)?;
        packet.extend_from_slice(&came.bytes)?;
        Ok(packet)
    }
}
