//! One client of the plain server.
use crate::history::{History, Request};
use crate::patterns::is_pattern;
use crate::plain::Waiting;
use crate::sites::Seen;
use crate::words::{Action, Command, command_of};
use std::alloc::{AllocError, Global};
use std::collections::VecDeque;
use std::mem;

/// How many stations a client may name.
const STATIONS: usize = 255;

/// How many patterns a station may have.
const PATTERNS: usize = 64;

/// How many patterns the stations of a client may have together.
const TOGETHER: usize = 1024;

#[derive(Clone, Copy, Drop)]
enum Stage {
    /// It asks and is answered.
    Asking,
    Transfer,
    /// The connection is to end.
    Over,
    Closed,
}

#[derive(Drop)]
pub struct Visitor {
    alloc: Global,
    address: usize,
    /// Who could use the stations when it came.
    seen: Seen,
    stage: Stage,
    /// What it sent and was not read.
    unread: VecDeque<u8>,
    /// The begin of a line.
    line: Vec<u8>,
    /// What waits to be taken.
    answers: VecDeque<Vec<u8>>,
    /// The lines of CAT that are still to wait.
    listing: VecDeque<Vec<u8>>,
    is_multi: bool,
    /// The patterns of uni-station mode.
    patterns: Vec<Vec<u8>>,
    requests: Vec<Request>,
    current: Option<usize>,
    /// What comes before this position was handed or passed over.
    position: usize,
}

/// Adds a pattern to those of a station, or takes all of these away. False if it is not valid, or if there is no room
/// while all stations have so many together.
fn is_changed(
    alloc: Global,
    patterns: &mut Vec<Vec<u8>>,
    together: usize,
    pattern: Option<&[u8]>,
) -> Result<bool, AllocError> {
    let Some(text) = pattern else {
        patterns.clear();
        return Ok(true);
    };
    let has_room = patterns.len() < PATTERNS && together < TOGETHER;
    if !has_room || !is_pattern(text) {
        return Ok(false);
    }
    patterns.push(text.to_vec(alloc)?)?;
    Ok(true)
}

/// Whether one of the three addresses may use a station.
fn may_use(seen: Seen, site: usize, address: usize) -> bool {
    match seen.get(site) {
        Some(addresses) => addresses.get(address).copied().unwrap_or(false),
        None => false,
    }
}

/// Whether a word is a code, where one is given.
fn is_meant(word: Option<&[u8]>, code: &[u8]) -> bool {
    match word {
        Some(word) => *word == *code,
        None => true,
    }
}

fn line_of(alloc: Global, parts: &[&[u8]]) -> Result<Vec<u8>, AllocError> {
    let mut line = Vec::new(alloc);
    for part in parts {
        line.extend_from_slice(part)?;
    }
    line.extend_from_slice(b"\r\n")?;
    Ok(line)
}

impl Visitor {
    pub fn new(alloc: Global, address: usize, seen: Seen) -> Self {
        Visitor {
            alloc,
            address,
            seen,
            stage: Stage::Asking,
            unread: VecDeque::new(alloc),
            line: Vec::new(alloc),
            answers: VecDeque::new(alloc),
            listing: VecDeque::new(alloc),
            is_multi: false,
            patterns: Vec::new(alloc),
            requests: Vec::new(alloc),
            current: None,
            position: 0,
        }
    }

    pub fn close(&mut self) {
        self.stage = Stage::Closed;
        self.answers.clear();
        self.listing.clear();
    }

    fn answer(&mut self, parts: &[&[u8]]) -> Result<(), AllocError> {
        self.answers.push_back(line_of(self.alloc, parts)?)?;
        Ok(())
    }

    /// A line of CAT, which waits once it is its turn.
    fn answer_later(&mut self, parts: &[&[u8]]) -> Result<(), AllocError> {
        self.listing.push_back(line_of(self.alloc, parts)?)?;
        Ok(())
    }

    fn answer_whether(&mut self, is_done: bool) -> Result<(), AllocError> {
        if is_done {
            self.answer(&[b"OK"])
        } else {
            self.answer(&[b"ERROR"])
        }
    }

    fn sees(&self, site: usize) -> bool {
        may_use(self.seen, site, self.address)
    }

    fn list(&mut self, history: &History) -> Result<(), AllocError> {
        for (place, site) in history.sites.iter().enumerate() {
            if self.sees(place) {
                let network = b"  ".get(site.network.len()..).unwrap_or(b"");
                let code = b"     ".get(site.code.len()..).unwrap_or(b"");
                self.answer_later(&[
                    site.network,
                    network,
                    b" ",
                    site.code,
                    code,
                    b" ",
                    site.description,
                ])?;
            }
        }
        self.answer_later(&[b"END"])
    }

    /// The first station of a code that the client may use, or the first of all where no code is given.
    fn find(
        &self,
        history: &History,
        code: Option<&[u8]>,
        network: Option<&[u8]>,
    ) -> Option<usize> {
        for (place, site) in history.sites.iter().enumerate() {
            if is_meant(code, site.code) && is_meant(network, site.network) && self.sees(place) {
                return Some(place);
            }
        }
        None
    }

    /// The place of a station among those that were named.
    fn named(&self, site: usize) -> Option<usize> {
        for (place, request) in self.requests.iter().enumerate() {
            if request.site == site {
                return Some(place);
            }
        }
        None
    }

    /// How many patterns the stations that were named have together.
    fn together(&self) -> usize {
        let mut count: usize = 0;
        for request in self.requests.as_slice() {
            count = count.saturating_add(request.patterns.len());
        }
        count
    }

    fn add_request(&mut self, site: usize) -> Result<(), AllocError> {
        self.requests.push(Request {
            site,
            patterns: Vec::new(self.alloc),
            action: None,
            from: 0,
        })?;
        Ok(())
    }

    fn name_station(
        &mut self,
        history: &History,
        code: &[u8],
        network: Option<&[u8]>,
    ) -> Result<(), AllocError> {
        self.is_multi = true;
        self.patterns.clear();
        let mut current = None;
        if let Some(site) = self.find(history, Some(code), network) {
            if self.named(site).is_none() && self.requests.len() < STATIONS {
                self.add_request(site)?;
            }
            current = self.named(site);
        }
        self.current = current;
        self.answer_whether(current.is_some())
    }

    fn select(&mut self, pattern: Option<&[u8]>) -> Result<(), AllocError> {
        let together = self.together();
        let mut is_done = false;
        if !self.is_multi {
            is_done = is_changed(self.alloc, &mut self.patterns, together, pattern)?;
        } else if let Some(place) = self.current
            && let Some(request) = self.requests.get_mut(place)
        {
            is_done = is_changed(self.alloc, &mut request.patterns, together, pattern)?;
        }
        self.answer_whether(is_done)
    }

    fn begin(&mut self, history: &History) {
        self.stage = Stage::Transfer;
        self.position = 0;
        for request in self.requests.as_mut_slice() {
            if let Some(action) = request.action {
                request.from = history.first(request.site, &action);
            }
        }
    }

    fn act_at_once(&mut self, history: &History, action: Action) -> Result<(), AllocError> {
        let Some(site) = self.find(history, None, None) else {
            return self.answer_whether(false);
        };
        let mut patterns = Vec::new(self.alloc);
        for pattern in self.patterns.as_slice() {
            patterns.push(pattern.as_slice().to_vec(self.alloc)?)?;
        }
        self.requests.push(Request {
            site,
            patterns,
            action: Some(action),
            from: 0,
        })?;
        self.begin(history);
        Ok(())
    }

    fn act(&mut self, history: &History, action: Action) -> Result<(), AllocError> {
        if !self.is_multi {
            return self.act_at_once(history, action);
        }
        let mut is_done = false;
        if let Some(place) = self.current
            && let Some(request) = self.requests.get_mut(place)
        {
            request.action = Some(action);
            is_done = true;
        }
        self.answer_whether(is_done)
    }

    /// Whether something is asked for of a station that was named.
    fn has_action(&self) -> bool {
        for request in self.requests.as_slice() {
            if request.action.is_some() {
                return true;
            }
        }
        false
    }

    fn finish(&mut self, history: &History) -> Result<(), AllocError> {
        if self.has_action() {
            self.begin(history);
            return Ok(());
        }
        self.answer_whether(false)
    }

    /// The line is over, and what it asks is done.
    fn obey(&mut self, history: &History, title: &[u8]) -> Result<(), AllocError> {
        let line = mem::replace(&mut self.line, Vec::new(self.alloc));
        self.carry_out(history, title, command_of(line.as_slice()))
    }

    fn carry_out(
        &mut self,
        history: &History,
        title: &[u8],
        asked: Command<'_>,
    ) -> Result<(), AllocError> {
        if matches!(self.stage, Stage::Transfer) && !matches!(asked, Command::Bye) {
            return Ok(());
        }
        match asked {
            Command::Nothing => Ok(()),
            Command::Hello => { self.answer(&[b"SeedLink v3.0 (station access)\r\n", title]) }
            Command::Cat => self.list(history),
            Command::Bye => {
                self.stage = Stage::Over;
                Ok(())
            }
            Command::End => self.finish(history),
            Command::Station(code, network) => self.name_station(history, code, network),
            Command::Select(pattern) => self.select(pattern),
            Command::Act(action) => self.act(history, action),
            Command::Other => self.answer_whether(false),
        }
    }

    /// Whether nothing waits, and no line of CAT is to come.
    fn is_idle(&self) -> bool {
        self.answers.is_empty() && self.listing.is_empty()
    }

    /// Reads on while it may: until an answer waits, and always in a transfer.
    fn read(&mut self, history: &History, title: &[u8]) -> Result<(), AllocError> {
        for _ in 0..self.unread.len() {
            let is_reading = match self.stage {
                Stage::Transfer => true,
                Stage::Asking => self.is_idle(),
                _ => false,
            };
            if !is_reading {
                return Ok(());
            }
            match self.unread.pop_front() {
                Some(b'\r' | b'\n') => self.obey(history, title)?,
                Some(byte) => self.line.push(byte)?,
                None => {}
            }
        }
        Ok(())
    }

    /// How many bytes it may send. What comes after its end is dropped.
    pub fn room(&self) -> usize {
        match self.stage {
            Stage::Over | Stage::Closed => 1024,
            _ => 1024usize.saturating_sub(self.unread.len()),
        }
    }

    pub fn receive(
        &mut self,
        history: &History,
        title: &[u8],
        bytes: &[u8],
    ) -> Result<(), AllocError> {
        if bytes.len() > self.room() || matches!(self.stage, Stage::Over | Stage::Closed) {
            return Ok(());
        }
        for byte in bytes {
            self.unread.push_back(*byte)?;
        }
        self.read(history, title)
    }

    /// What waits where nothing did: a line of CAT, a packet or the end of a transfer.
    fn offer(&mut self, history: &History) -> Result<(), AllocError> {
        if !self.answers.is_empty() {
            return Ok(());
        }
        if let Some(line) = self.listing.pop_front() {
            self.answers.push_back(line)?;
            return Ok(());
        }
        match self.stage {
            Stage::Transfer => self.offer_packet(history),
            _ => Ok(()),
        }
    }

    /// The next packet that is wanted waits, or the end.
    fn offer_packet(&mut self, history: &History) -> Result<(), AllocError> {
        let requests = self.requests.as_slice();
        if let Some(position) = history.next(requests, self.position) {
            self.answers
                .push_back(history.packet(self.alloc, position)?)?;
            self.position = position.saturating_add(1);
        } else if history.are_ending(requests) {
            self.answers.push_back(b"END".to_vec(self.alloc)?)?;
            self.stage = Stage::Over;
        }
        Ok(())
    }

    /// What waits, where something is offered if nothing did.
    pub fn waiting(&mut self, history: &History) -> Result<Waiting, AllocError> {
        self.offer(history)?;
        match self.answers.front() {
            Some(piece) => Ok(Waiting::Bytes(piece.as_slice().to_vec(self.alloc)?)),
            None if matches!(self.stage, Stage::Over | Stage::Closed) => Ok(Waiting::TheEnd),
            None => Ok(Waiting::Nothing),
        }
    }

    /// At most so many of the bytes that wait, and whether the client is told the end.
    pub fn take(
        &mut self,
        history: &History,
        title: &[u8],
        count: usize,
    ) -> Result<(Vec<u8>, bool), AllocError> {
        self.offer(history)?;
        let Some(piece) = self.answers.pop_front() else {
            let is_over = matches!(self.stage, Stage::Over | Stage::Closed);
            return Ok((Vec::new(self.alloc), is_over));
        };
        let all = piece.as_slice();
        let length = count.min(all.len());
        let taken = all.get(..length).unwrap_or(b"").to_vec(self.alloc)?;
        let left = all.get(length..).unwrap_or(b"");
        if !left.is_empty() {
            self.answers.push_front(left.to_vec(self.alloc)?)?;
        }
        self.read(history, title)?;
        Ok((taken, false))
    }
}
