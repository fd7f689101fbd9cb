//! The texts of answers, each made at most once a second, whoever asks.
ghost use Rattle.std.specs.Prelude.{◌≡◌, IfOk, OnOk, option_map, replicate};
ghost use Rattle.status_ports.specs.KeptTexts.{IsFoundFor, is_fresh, kept_at, place_of, text_made, with_made};
ghost use Rattle.status_ports.specs.KeptValues.{no_text};

use status_page::{StatusValue, Target, Templates, is_any_silent, write_body};
use std::alloc::{AllocError, Global};
use std::marker::Model;

/// For how many milliseconds a text is kept.
const KEPT: u64 = 1_000;

/// A text and when it was made. In a contract it is that, with whether a station was silent.
#[derive(Drop)]
pub struct KeptText {
    body: Vec<u8>,
    is_silent: bool,
    made: Option<u64>,
}

impl Model for KeptText {
    ghost use Rattle.status_ports.specs.KeptValues.{KeptValue};

    ghost Value = { KeptValue };

    ghost view = { λ k. record { body = k.body.items; is_silent = k.is_silent; made = k.made } };
}

impl KeptText {
    /// None was made.
    fn new(alloc: Global) -> KeptText
        ensures { result ≡ no_text }
    {
        KeptText {
            body: Vec::new(alloc),
            is_silent: false,
            made: None,
        }
    }

    /// The text of what is told now takes its place. Another text is used for single values. Only memory can lack, and
    /// then none was made.
    fn make(
        &mut self,
        value: &mut Vec<u8>,
        templates: &Templates,
        target: Target,
        status: &StatusValue<'_>,
        now: u64,
    ) -> Result<(), AllocError>
        ensures { OnOk result (self.new ≡ text_made templates.now target status.now now) }
    {
        self.made = None;
        self.is_silent = is_any_silent(status.stations);
        write_body(&mut self.body, value, templates, target, status)?;
        self.made = Some(now);
        Ok(())
    }

    /// It is made again for whoever asks next.
    fn forget(&mut self)
        ensures { self.new ≡ record self.old { made = None } }
    {
        self.made = None;
    }

    /// Whether it was made less than a second ago.
    fn is_fresh(&self, now: u64) -> bool
        ensures { result ≡ is_fresh now self.now }
    {
        match self.made {
            Some(made) => now.saturating_sub(made) < KEPT,
            None => false,
        }
    }

    /// What it is.
    pub fn body(&self) -> &[u8]
        ensures { result.now ≡ self.now.body }
    {
        self.body.as_slice()
    }

    /// Whether a station was silent.
    pub fn is_silent(&self) -> bool
        ensures { result ≡ self.now.is_silent }
    {
        self.is_silent
    }
}

/// What there is for a target.
#[derive(Clone, Copy)]
pub enum Found<'k> {
    Fresh(&'k KeptText),
    /// Its text is to be made.
    Missing,
    /// It is refused, and what is told of a server doesn't matter.
    Refusal,
}

/// How many answers tell of a server.
const ANSWERS: usize = 7;

/// Where the text for a target stands. A refusal has none.
fn place_of(target: Target) -> Option<usize>
    ensures { result ≡ place_of target }
{
    match target {
        Target::Page => Some(0),
        Target::PageByAge => Some(1),
        Target::Metrics => Some(2),
        Target::Health => Some(3),
        Target::Plain => Some(4),
        Target::PlainSilent => Some(5),
        Target::Json => Some(6),
        _ => None,
    }
}

/// The text of each answer that tells of a server.
#[derive(Drop)]
pub struct KeptTexts {
    texts: Vec<KeptText>,
}

impl Model for KeptTexts {
    ghost use Rattle.std.specs.Prelude.{List};
    ghost use Rattle.status_ports.specs.KeptValues.{KeptValue};

    ghost Value = { List KeptValue };

    ghost view = { λ k. k.texts.items };
}

impl KeptTexts {
    /// None was made. Only memory can lack.
    pub fn new(alloc: Global) -> Result<KeptTexts, AllocError>
        ensures { IfOk result (λ kept. kept ≡ replicate 7 no_text) }
    {
        let mut texts = Vec::with_capacity(alloc, ANSWERS)?;
        for _ in 0..ANSWERS {
            texts.push(KeptText::new(alloc))?;
        }
        Ok(KeptTexts { texts })
    }

    /// The text for a target. A refusal has none.
    fn at(&self, target: Target) -> Option<&KeptText>
        ensures { option_map (λ text. text.now) result ≡ kept_at target self.now }
    {
        self.texts.get(place_of(target)?)
    }

    /// The text for a target, if it was made less than a second ago.
    pub fn fresh(&self, target: Target, now: u64) -> Found<'_>
        ensures { IsFoundFor target now self.now result }
    {
        match self.at(target) {
            Some(text) => {
                if text.is_fresh(now) {
                    Found::Fresh(text)
                } else {
                    Found::Missing
                }
            }
            None => Found::Refusal,
        }
    }

    /// When the text for a target was made; 0 if it was not.
    pub fn made(&self, target: Target) -> u64 {
        match self.at(target) {
            Some(text) => text.made.unwrap_or(0),
            None => 0,
        }
    }

    /// Makes the text for a target by what is told of the server. Another text is used for single values. Only memory
    /// can lack. A refusal has none.
    pub fn make(
        &mut self,
        value: &mut Vec<u8>,
        templates: &Templates,
        target: Target,
        status: &StatusValue<'_>,
        now: u64,
    ) -> Result<(), AllocError>
        ensures { OnOk result (self.new ≡ with_made target (text_made templates.now target status.now now) self.old) }
    {
        match place_of(target) {
            Some(place) if place < self.texts.len() => {
                self.texts[place].make(value, templates, target, status, now)
            }
            _ => Ok(()),
        }
    }

    /// Each text is made again for whoever asks next.
    pub fn forget(&mut self) {
        for text in self.texts.iter_mut() {
            text.forget();
        }
    }
}
