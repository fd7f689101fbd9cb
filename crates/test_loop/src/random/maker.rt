//! Random scenes.
use super::scripts::{Finds, Happens, Line, Scene, Takes};
use oracle_server::draws::Draws;
use oracle_server::lines;
use oracle_server::records::{self, Arrival};
use oracle_server::sites::{self, Site};
use std::alloc::{AllocError, Global};

/// Ports that give and take something have lower numbers.
pub const PORTS: u64 = 14;

/// How long the pieces of a client are.
static SHORT_PIECES: [usize; 6] = [1, 5, 17, 40, 200, 2000];

/// How long the pieces of a feed are.
static FEED_PIECES: [usize; 8] = [1, 100, 511, 512, 513, 600, 1024, 1500];

#[derive(Drop)]
struct Maker {
    alloc: Global,
    draws: Draws,
    sites: &'static [Site],
    /// The ports that join.
    ports: Vec<u64>,
    lines: Vec<Line>,
    arrivals: Vec<Arrival>,
}

impl Maker {
    fn add(&mut self, line: Line) -> Result<(), AllocError> {
        self.lines.push(line)?;
        Ok(())
    }

    /// One of the ports that join, or seldom another one.
    fn port(&mut self) -> u64 {
        let place = self.draws.below(self.ports.len());
        match self.ports.get(place) {
            Some(port) if !self.draws.is_one_of(20) => *port,
            _ => 13,
        }
    }

    /// Bytes that a port gives in pieces, now and then with nothing for a while between them.
    fn gives(&mut self, port: u64, bytes: &[u8], sizes: &[usize]) -> Result<(), AllocError> {
        let mut left = bytes;
        for _ in 0..bytes.len() {
            if left.is_empty() {
                return Ok(());
            }
            let size = self.draws.number(sizes).min(left.len());
            let piece = left.get(..size).unwrap_or(b"").to_vec(self.alloc)?;
            left = left.get(size..).unwrap_or(b"");
            self.add(Line::Reads(port, Finds::Bytes(piece)))?;
            if self.draws.is_one_of(4) {
                self.add(Line::Reads(port, Finds::Later))?;
            }
        }
        Ok(())
    }

    /// How a port's reads end, where they do.
    fn ends(&mut self, port: u64) -> Result<(), AllocError> {
        match self.draws.below(16) {
            0..=2 => self.add(Line::Reads(port, Finds::TheEnd)),
            3 => self.add(Line::Reads(port, Finds::Failure)),
            _ => Ok(()),
        }
    }

    /// What a client sends: requests with END, single lines, or very many bytes.
    fn words(&mut self, out: &mut Vec<u8>) -> Result<(), AllocError> {
        match self.draws.below(10) {
            0 => lines::many(&mut self.draws, out),
            1..=3 => lines::line(&mut self.draws, self.sites, out),
            _ => {
                for _ in 0..self.draws.number(&[1, 1, 2]) {
                    lines::request(&mut self.draws, self.sites, out)?;
                }
                lines::end(&mut self.draws, out)
            }
        }
    }

    fn takes(&mut self, port: u64) -> Result<(), AllocError> {
        for _ in 0..self.draws.below(24) {
            let takes = match self.draws.below(40) {
                0 => Takes::Failure,
                1..=6 => Takes::Later,
                _ => Takes::Upto(self.draws.number(&[0, 1, 7, 100, 519, 520, 520, 520, 1000])),
            };
            self.add(Line::Writes(port, takes))?;
        }
        Ok(())
    }

    fn client(&mut self, port: u64) -> Result<(), AllocError> {
        let mut text = Vec::new(self.alloc);
        for _ in 0..self.draws.number(&[1, 1, 2, 3]) {
            self.words(&mut text)?;
        }
        self.gives(port, text.as_slice(), &SHORT_PIECES)?;
        self.ends(port)?;
        self.takes(port)
    }

    fn feed(&mut self, port: u64) -> Result<(), AllocError> {
        let mut bytes = Vec::new(self.alloc);
        for _ in 0..self.draws.below(14) {
            let arrival = records::next_arrival(&mut self.draws, self.sites);
            bytes.extend_from_slice(&arrival.bytes)?;
            self.arrivals.push(arrival)?;
        }
        if self.draws.is_one_of(6) {
            bytes.extend_from_slice(b"the beginning of a record")?;
        }
        self.gives(port, bytes.as_slice(), &FEED_PIECES)?;
        self.ends(port)
    }

    fn happens(&mut self, happens: Happens) -> Result<(), AllocError> {
        self.add(Line::Happens(happens))
    }

    /// Some ports may be read or written to, and now and then nothing more happens for a while.
    fn wakes(&mut self, most: usize) -> Result<(), AllocError> {
        for _ in 0..self.draws.below(most) {
            let port = self.port();
            match self.draws.below(5) {
                0 | 1 => self.happens(Happens::Quiet)?,
                2 | 3 => self.happens(Happens::MayBeRead(port))?,
                _ => self.happens(Happens::MayBeWritten(port))?,
            }
        }
        Ok(())
    }

    fn joins(&mut self) -> Result<(), AllocError> {
        let port = self.draws.below(12) as u64;
        self.ports.push(port)?;
        if self.draws.is_one_of(3) {
            self.happens(Happens::FeedJoins(port))?;
            self.feed(port)?;
        } else {
            let address = self.draws.below(3);
            self.happens(Happens::Joins(port, address))?;
            self.client(port)?;
        }
        self.wakes(4)
    }

    /// More feeds than may be open.
    fn crowd(&mut self) -> Result<(), AllocError> {
        for port in 20..38u64 {
            self.happens(Happens::FeedJoins(port))?;
        }
        Ok(())
    }

    fn all(&mut self) -> Result<(), AllocError> {
        if self.draws.is_one_of(40) {
            self.crowd()?;
        }
        for _ in 0..self.draws.number(&[1, 2, 3, 4, 5, 7]) {
            self.joins()?;
        }
        self.wakes(60)
    }
}

/// The text of a scene's configuration.
pub fn text_of(alloc: Global, scene: &Scene) -> Result<Vec<u8>, AllocError> {
    let mut text = Vec::new(alloc);
    if scene.most != 8 {
        text.extend_from_slice(b"max_connections = ")?;
        text.extend_from_slice(match scene.most {
            1 => b"1\n",
            2 => b"2\n",
            _ => b"3\n",
        })?;
    }
    text.extend_from_slice(scene.centre.text)?;
    Ok(text)
}

/// The scene with a number.
pub fn scene(alloc: Global, seed: u64, number: u64) -> Result<Scene, AllocError> {
    let centre = sites::centre_of(number);
    let mut maker = Maker {
        alloc,
        draws: Draws::new(seed, number),
        sites: centre.sites,
        ports: Vec::new(alloc),
        lines: Vec::new(alloc),
        arrivals: Vec::new(alloc),
    };
    maker.all()?;
    let due = if maker.draws.is_one_of(4) {
        maker.draws.below(100) as u64
    } else {
        0
    };
    // The first configuration says itself how many clients may be connected.
    let most = if number % 3 == 0 {
        8
    } else {
        maker.draws.number(&[1, 2, 3])
    };
    Ok(Scene {
        centre,
        most,
        turns: maker.draws.below(16).saturating_add(1),
        limit: maker.draws.number(&[1, 2, 3, 8, 64]),
        due,
        lines: maker.lines,
        arrivals: maker.arrivals,
    })
}
