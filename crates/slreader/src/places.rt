//! The wants of a station, found by its codes.
//!
//! A packet counts for the wants of its station. The first of them is found in a map from codes to places (the kit's
//! `HashMap`), and from each want it is known where the next one of the same station stands. Both are made with the
//! tally, so that a packet of one of 255 wants allocates nothing, and takes no more instructions than one of two.
//! Wants of codes that are longer than a record's may be are found nowhere.
ghost use Rattle.std.specs.Prelude.{◌≡◌, ◌≤◌, IfOk, IfSome, cond, length, slice_index_or, Some, None, false};
ghost use Rattle.std.specs.HashMap.{get};
ghost use Rattle.protocol.specs.Reading.{Not};
ghost use Rattle.slreader.specs.Placing.{codes_eq, is_same_name, key, name_by, names, Finds, Follows, IsShort, Name};

use crate::tally::Resume;
use std::alloc::{AllocError, Global};
use std::collections::HashMap;
use text_parts::code_numbers::spelled;

/// The codes of a network and of a station in it, each spelled as a number.
#[derive(Clone, Copy, PartialEq, Eq, Hash)]
pub(crate) struct WantCodes {
    network: u64,
    station: u64,
}

impl WantCodes {
    /// The codes, if they are no longer than a record's may be.
    fn of(network: &[u8], station: &[u8]) -> Option<WantCodes>
        ensures some { IfSome result (λ codes. codes ≡ key (name_by network.now station.now)) }
        ensures short { IfSome result (λ codes. IsShort (name_by network.now station.now)) }
        ensures none { result ≡ None → Not (IsShort (name_by network.now station.now)) }
    {
        if network.len() > 2 || station.len() > 5 {
            return None;
        }
        Some(WantCodes {
            network: spelled(network),
            station: spelled(station),
        })
    }
}

/// Where wants stand, by the codes of their stations.
#[derive(Drop)]
pub(crate) struct WantPlaces {
    firsts: HashMap<WantCodes, usize>,
    nexts: Vec<Option<usize>>,
}

/// Puts in the place of a want that stands before all that are in. Answers the place of the next one of its station.
fn put(
    firsts: &mut HashMap<WantCodes, usize>,
    network: &[u8],
    station: &[u8],
    place: usize,
) -> Result<Option<usize>, AllocError>
    ensures next { let name = name_by network.now station.now in
        IfOk result (λ next. IsShort name → next ≡ get codes_eq firsts.old (key name)) }
    ensures firsts { let name = name_by network.now station.now in
        IfOk result (λ next. (n : Name) → IsShort n → get codes_eq firsts.new (key n)
        ≡ cond (is_same_name name n) (Some place) (get codes_eq firsts.old (key n))) }
{
    match WantCodes::of(network, station) {
        Some(codes) => {
            let next = firsts.insert(codes, place)?;
            Ok(next)
        }
        None => Ok(None),
    }
}

impl WantPlaces {
    /// The places of wants, from the last to the first.
    pub(crate) fn of(alloc: Global, resumes: &[Resume]) -> Result<WantPlaces, AllocError>
        ensures finds { IfOk result (λ places. Finds places.firsts 0 (names resumes.now)) }
        ensures follows { IfOk result (λ places. Follows places.nexts.items 0 (names resumes.now)) }
    {
        let mut firsts = HashMap::new(alloc);
        let mut nexts = vec![in alloc; None; resumes.len()]?;
        let mut place = resumes.len();
        while place > 0 {
            place -= 1;
            let resume = &resumes[place];
            nexts[place] = put(&mut firsts, resume.network(), resume.station(), place)?;
        }
        Ok(WantPlaces { firsts, nexts })
    }

    /// The place of the first want of a station.
    pub(crate) fn first(&self, network: &[u8], station: &[u8]) -> Option<usize>
        requires network { length network.now ≤ 2 }
        requires station { length station.now ≤ 5 }
        ensures first { let name = name_by network.now station.now in
            result ≡ get codes_eq self.now.firsts (key name) }
        ensures short { IsShort (name_by network.now station.now) }
    {
        let codes = WantCodes {
            network: spelled(network),
            station: spelled(station),
        };
        self.firsts.get(&codes).copied()
    }

    /// The place of the next want of the same station.
    pub(crate) fn after(&self, place: usize) -> Option<usize>
        ensures { result ≡ slice_index_or self.now.nexts.items place None }
    {
        match self.nexts.get(place) {
            Some(next) => *next,
            None => None,
        }
    }
}
