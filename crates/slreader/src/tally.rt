//! What is counted of the packets.
ghost use Rattle.std.specs.Prelude.{◌≡◌, ◌++◌, map, option_and_then, option_map, IfOk, OnOk, Some};
ghost use Rattle.std.specs.List.{list_any};
ghost use Rattle.slreader.specs.Placing.{ArePlaces, HasPlaces};
ghost use Rattle.slreader.specs.Tallies.{has_codes as spec_has_codes, passed};
ghost use Rattle.slreader.specs.Tallies.{resume_of};
ghost use Rattle.slreader.specs.Lasts.{resume_after};
ghost use Rattle.slreader.specs.Tallies.{resumes_of as spec_resumes_of};

use crate::given_number::GivenNumber;
use crate::given_packet::GivenPacket;
use crate::last_packet::{LastPacket, last_at};
use crate::places::WantPlaces;
use crate::want::{Plan, Want};
use mseed_header::Header;
use sl_packet::Seq;
use sl_time::Tick;
use std::alloc::{AllocError, Global};
use std::marker::Model;

/// The last packet of a want.
#[derive(Clone, Copy)]
pub struct Reached {
    /// Its number.
    pub number: Seq,
    /// The end of its record, if that can be read.
    pub end: Option<Tick>,
}

impl Model for Reached {
    ghost use Rattle.slreader.specs.Tallies.{ReachedValue};

    ghost Value = { ReachedValue };

    ghost view = { λ r. record { number = r.number; end = r.end } };

    ghost inverse = { λ r. record { number = r.number; end = r.end } };
}

/// The last packet of a want as it came: its number is read where somebody asks for it, and not with each packet. In a
/// contract it is the packet, or None if its number is none.
#[derive(Drop)]
struct LastSeen {
    number: GivenNumber,
    end: Option<Tick>,
}

impl Model for LastSeen {
    ghost use Rattle.std.specs.Prelude.{Option, option_map};
    ghost use Rattle.slreader.specs.Tallies.{ReachedValue};

    ghost Value = { Option ReachedValue };

    ghost view = { λ l. option_map (λ number. record { number = number; end = l.end }) l.number };
}

impl LastSeen {
    ghost use Rattle.std.specs.Prelude.{◌≡◌, Some};

    /// The packet that was reached.
    fn of(reached: Reached) -> LastSeen
        ensures { result ≡ Some reached }
    {
        LastSeen {
            number: GivenNumber::of(reached.number),
            end: reached.end,
        }
    }

    /// Another one that says the same.
    fn copy(&self) -> LastSeen
        ensures { result ≡ self.now }
    {
        LastSeen {
            number: self.number.copy(),
            end: self.end,
        }
    }

    /// The packet, by its number.
    fn read(&self) -> Option<Reached>
        ensures { result ≡ self.now }
    {
        let number = self.number.read()?;
        Some(Reached {
            number,
            end: self.end,
        })
    }
}

/// How far a want is: the last packet of its station, or of any station.
#[derive(Drop)]
pub(crate) struct Resume {
    is_any: bool,
    network: Vec<u8>,
    station: Vec<u8>,
    last: Option<LastSeen>,
}

impl Model for Resume {
    ghost use Rattle.std.specs.Prelude.{option_and_then};
    ghost use Rattle.slreader.specs.Tallies.{Resume as ResumeValue};

    ghost Value = { ResumeValue };

    ghost view = { λ r. record {
      is_any = r.is_any;
      network = r.network.items;
      station = r.station.items;
      last = option_and_then (λ l. l) r.last;
    } };
}

/// Whether a record has those codes; one that can't be read has none.
fn has_codes(network: &[u8], station: &[u8], header: &Option<Header<'_>>) -> bool
    ensures { result ≡ spec_has_codes network.now station.now header.now }
{
    match header {
        Some(header) => header.station() == station && header.network() == network,
        None => false,
    }
}

/// The end of a record, if it can be read.
fn end_of(header: &Option<Header<'_>>) -> Option<Tick>
    ensures { result ≡ option_map (λ x. x.stop) header.now }
{
    match header {
        Some(header) => Some(header.end()),
        None => None,
    }
}

/// The packet with that number, if it has one, and that end of its record.
fn reached_at(end: Option<Tick>, number: &GivenNumber) -> LastSeen
    ensures { result ≡ option_map (λ number. record { number = number; end = end }) number.now }
{
    LastSeen {
        number: number.copy(),
        end,
    }
}

impl Resume {
    ghost use Rattle.slreader.specs.Tallies.{resume_of};
    ghost use Rattle.slreader.specs.Lasts.{resume_after};

    /// Before the first packet.
    fn new(alloc: Global, is_any: bool, want: &Want<'_>) -> Result<Resume, AllocError>
        ensures { IfOk result (λ r. r ≡ resume_of is_any want.now) }
    {
        Ok(Resume {
            is_any,
            network: Vec::from_slice(alloc, want.network)?,
            station: Vec::from_slice(alloc, want.station)?,
            last: None,
        })
    }

    /// After the last packet of its station, if there is one, whatever number the want asks for.
    fn after(alloc: Global, want: &Want<'_>, lasts: &[LastPacket]) -> Result<Resume, AllocError>
        ensures { IfOk result (λ r. r ≡ resume_after lasts.now want.now) }
    {
        let first = Resume::new(alloc, false, want)?;
        let last = match last_at(want.network, want.station, lasts) {
            Some(reached) => Some(LastSeen::of(reached)),
            None => None,
        };
        Ok(Resume { last, ..first })
    }

    /// The network's code.
    pub(crate) fn network(&self) -> &[u8]
        ensures { result.now ≡ self.now.network }
    {
        self.network.as_slice()
    }

    /// The station's code.
    pub(crate) fn station(&self) -> &[u8]
        ensures { result.now ≡ self.now.station }
    {
        self.station.as_slice()
    }

    /// Its last packet, or none.
    fn last_seen(&self) -> Option<LastSeen>
        ensures { option_and_then (λ l. l) result ≡ self.now.last }
    {
        match &self.last {
            Some(last) => Some(last.copy()),
            None => None,
        }
    }

    /// Its last packet, by its number.
    fn reached(&self) -> Option<Reached>
        ensures { result ≡ self.now.last }
    {
        match &self.last {
            Some(last) => last.read(),
            None => None,
        }
    }

    /// Another one that says the same.
    fn copy(&self, alloc: Global) -> Result<Resume, AllocError>
        ensures { IfOk result (λ r. r ≡ self.now) }
    {
        Ok(Resume {
            is_any: self.is_any,
            network: Vec::from_slice(alloc, &self.network)?,
            station: Vec::from_slice(alloc, &self.station)?,
            last: self.last_seen(),
        })
    }

    /// Its last packet is another one.
    fn put(&mut self, last: &LastSeen)
        ensures { self.new ≡ record self.old { last = last.now } }
    {
        self.last = Some(last.copy());
    }

    /// A packet with that number and that record.
    fn pass(&mut self, number: &GivenNumber, header: &Option<Header<'_>>)
        ensures { self.new ≡ passed number.now header.now self.old }
    {
        if self.is_any || has_codes(&self.network, &self.station, header) {
            self.last = Some(reached_at(end_of(header), number));
        }
    }
}

/// Each of the wants is one that goes on with a packet, or is not.
fn pass_all(resumes: &mut Vec<Resume>, number: &GivenNumber, header: &Option<Header<'_>>)
    ensures { resumes.new.items ≡ map (passed number.now header.now) resumes.old.items }
{
    for index in 0..resumes.len() {
        let resume = &mut resumes[index];
        resume.pass(number, header);
    }
}

/// A packet with that number and a record that can be read: the wants of its station are at it.
fn pass_station(
    resumes: &mut Vec<Resume>,
    places: &WantPlaces,
    number: &GivenNumber,
    facts: &Header<'_>,
)
    requires { ArePlaces places.now.firsts places.now.nexts.items resumes.old.items }
    ensures { resumes.new.items ≡ map (passed number.now (Some facts.now)) resumes.old.items }
{
    let last = reached_at(Some(facts.end()), number);
    let mut next = places.first(facts.network(), facts.station());
    'places: while let Some(place) = next {
        let resume = &mut resumes[place];
        resume.put(&last);
        next = places.after(place);
    }
}

/// Each of the wants, whose places are known, is one that goes on with a packet, or is not.
fn pass_found(
    resumes: &mut Vec<Resume>,
    places: &WantPlaces,
    number: &GivenNumber,
    header: &Option<Header<'_>>,
)
    requires { ArePlaces places.now.firsts places.now.nexts.items resumes.old.items }
    ensures { resumes.new.items ≡ map (passed number.now header.now) resumes.old.items }
{
    match header {
        Some(facts) => pass_station(resumes, places, number, facts),
        None => {}
    }
}

/// Whether one of the wants is of any station.
fn is_of_any(resumes: &[Resume]) -> bool
    ensures { result ≡ list_any (λ r. r.is_any) resumes.now }
{
    resumes.iter().any(|resume| resume.is_any)
}

/// Where wants stand, if there are several, none of which is of any station.
#[tactic(auto, using(crate::proofs::PlacingLemmas::has_places))]
fn places_of(alloc: Global, resumes: &[Resume]) -> Result<Option<WantPlaces>, AllocError>
    ensures { IfOk result (λ kept. HasPlaces kept resumes.now) }
{
    if resumes.len() < 2 || is_of_any(resumes) {
        return Ok(None);
    }
    let places = WantPlaces::of(alloc, resumes)?;
    Ok(Some(places))
}

/// Where wants go on before the first packet.
fn put_resumes(
    alloc: Global,
    resumes: &mut Vec<Resume>,
    is_any: bool,
    wants: &[Want<'_>],
) -> Result<(), AllocError>
    ensures { OnOk result (resumes.new.items ≡ resumes.old.items ++ map (resume_of is_any) wants.now) }
{
    for want in wants {
        resumes.push(Resume::new(alloc, is_any, want)?)?;
    }
    Ok(())
}

/// Where wants go on after the last packets of their stations.
fn put_resumes_after(
    alloc: Global,
    resumes: &mut Vec<Resume>,
    wants: &[Want<'_>],
    lasts: &[LastPacket],
) -> Result<(), AllocError>
    ensures { OnOk result (resumes.new.items ≡ resumes.old.items ++ map (resume_after lasts.now) wants.now) }
{
    for want in wants {
        resumes.push(Resume::after(alloc, want, lasts)?)?;
    }
    Ok(())
}

/// Adds what others say.
fn put_copies(alloc: Global, resumes: &mut Vec<Resume>, others: &[Resume]) -> Result<(), AllocError>
    ensures { OnOk result (resumes.new.items ≡ resumes.old.items ++ others.now) }
{
    for other in others {
        resumes.push(other.copy(alloc)?)?;
    }
    Ok(())
}

/// How many packets were given, and how far each want is. It goes on from one connection to the next.
#[derive(Drop)]
pub struct Tally {
    records: u64,
    resumes: Vec<Resume>,
    places: Option<WantPlaces>,
}

impl Model for Tally {
    ghost use Rattle.slreader.specs.Placing.{HasPlaces};
    ghost use Rattle.slreader.specs.Tallies.{TallyValue};

    ghost Value = { TallyValue };

    ghost view = { λ t. record { records = t.records; resumes = t.resumes.items } };

    ghost invariant = { λ t. HasPlaces t.places t.resumes.items };
}

impl Tally {
    ghost use Rattle.std.specs.Prelude.{◌≡◌, IfOk};
    ghost use Rattle.slreader.specs.Tallies.{counted, next_of, reached_of, tally_of};
    ghost use Rattle.slreader.specs.Lasts.{tally_after};
    ghost use Rattle.slreader.specs.Views.{plan_value};
    ghost use Rattle.slreader.specs.Wants.PlanValue.{Multi};

    /// So many packets, and so far is each want.
    fn of(alloc: Global, records: u64, resumes: Vec<Resume>) -> Result<Tally, AllocError>
        ensures { IfOk result (λ t. t ≡ record { records = records; resumes = resumes.items }) }
    {
        let places = places_of(alloc, &resumes)?;
        Ok(Tally {
            records,
            resumes,
            places,
        })
    }

    /// Before the first packet.
    pub fn new(alloc: Global, plan: &Plan<'_>) -> Result<Tally, AllocError>
        ensures { IfOk result (λ t. t ≡ tally_of (plan_value plan.now)) }
    {
        let mut resumes = Vec::new(alloc);
        match plan {
            Plan::Uni(want) => resumes.push(Resume::new(alloc, true, want)?)?,
            Plan::Multi(wants) => put_resumes(alloc, &mut resumes, false, wants)?,
        }
        Tally::of(alloc, 0, resumes)
    }

    /// Before the first packet of several wants.
    pub fn before(alloc: Global, wants: &[Want<'_>]) -> Result<Tally, AllocError>
        ensures { IfOk result (λ t. t ≡ tally_of (Multi wants.now)) }
    {
        let mut resumes = Vec::new(alloc);
        put_resumes(alloc, &mut resumes, false, wants)?;
        Tally::of(alloc, 0, resumes)
    }

    /// Before the first packet of several wants that comes after those of an earlier reader, by the last packets of
    /// stations that it was given: each want goes on after the last packet of its station. One whose station has none
    /// asks for its own number, if it has one. So a reader begins by it as one that goes on after a break.
    pub fn after(
        alloc: Global,
        wants: &[Want<'_>],
        lasts: &[LastPacket],
    ) -> Result<Tally, AllocError>
        ensures { IfOk result (λ t. t ≡ tally_after lasts.now wants.now) }
    {
        let mut resumes = Vec::new(alloc);
        put_resumes_after(alloc, &mut resumes, wants, lasts)?;
        Tally::of(alloc, 0, resumes)
    }

    /// Another one that says the same.
    pub fn copy(&self, alloc: Global) -> Result<Tally, AllocError>
        ensures { IfOk result (λ t. t ≡ self.now) }
    {
        let mut resumes = Vec::new(alloc);
        put_copies(alloc, &mut resumes, &self.resumes)?;
        Tally::of(alloc, self.records, resumes)
    }

    /// One packet more.
    pub(crate) fn count(&mut self, packet: &GivenPacket<'_>)
        ensures { self.new ≡ counted self.old packet.now }
    {
        self.records = self.records.saturating_add(1);
        let number = GivenNumber::in_packet(packet.bytes());
        let header = packet.header();
        match &self.places {
            Some(places) => pass_found(&mut self.resumes, places, &number, header),
            None => pass_all(&mut self.resumes, &number, header),
        }
    }

    /// How many packets were given, at most 2^64 - 1.
    pub fn records(&self) -> u64
        ensures { result ≡ self.now.records }
    {
        self.records
    }

    /// The last packet of the want's station, of those whose records can be read; of a plan of one want the last
    /// packet. None before the first, and for a want that is not there.
    pub fn reached(&self, want: usize) -> Option<Reached>
        ensures { result ≡ reached_of self.now want }
    {
        match self.resumes.get(want) {
            Some(resume) => resume.reached(),
            None => None,
        }
    }

    /// The number after that of the last packet.
    pub fn next(&self, want: usize) -> Option<Seq>
        ensures { result ≡ next_of self.now want }
    {
        match self.reached(want) {
            Some(last) => Some(last.number.next()),
            None => None,
        }
    }
}
