//! Random choices, the same at each run.
use rand_core::utils::NextWord;
use rand_pcg::Pcg32;

#[derive(Drop)]
pub struct Draws {
    words: Pcg32,
}

impl Draws {
    /// The choices of one list.
    pub fn new(seed: u64, list: u64) -> Self {
        Draws {
            words: Pcg32::new(seed, list),
        }
    }

    /// A number below a bound, or 0 where the bound is 0.
    pub fn below(&mut self, bound: usize) -> usize {
        let word = self.words.next_word() as usize;
        word.checked_rem(bound).unwrap_or(0)
    }

    /// Whether the one chance of so many came.
    pub fn is_one_of(&mut self, chances: usize) -> bool {
        self.below(chances) == 0
    }

    /// One of some texts.
    pub fn text(&mut self, texts: &[&'static [u8]]) -> &'static [u8] {
        let place = self.below(texts.len());
        texts.get(place).copied().unwrap_or(b"")
    }

    /// One of some numbers.
    pub fn number(&mut self, numbers: &[usize]) -> usize {
        let place = self.below(numbers.len());
        numbers.get(place).copied().unwrap_or(0)
    }
}
