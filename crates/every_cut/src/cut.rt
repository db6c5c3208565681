// Every place and every pair of places of a text.
use crate::seen::{Seen, by_lent, by_value};

// In how many ways a text was cut, and in how many of them it was told something else than whole. The counts stop at the last number that 64
// bits can say.
#[derive(Clone, Copy, Default)]
pub(crate) struct Tally {
    pub ways: u64,
    pub otherwise: u64,
}

fn is_told_so(text: &[u8], first: usize, second: usize, whole: &Seen) -> bool {
    let is_so = |told: Option<Seen>| told.as_ref() == Some(whole);
    is_so(by_value(text, first, second)) && is_so(by_lent(text, first, second))
}

impl Tally {
    fn count(&mut self, well: bool) {
        self.ways = self.ways.saturating_add(1);
        if !well {
            self.otherwise = self.otherwise.saturating_add(1);
        }
    }

    // The second cut at each place from the first on: at the same place the lump between is empty.
    fn cut_behind(&mut self, text: &[u8], first: usize, whole: &Seen) {
        for second in first..=text.len() {
            self.count(is_told_so(text, first, second, whole));
        }
    }
}

pub(crate) fn cut_everywhere(text: &[u8], whole: &Seen) -> Tally {
    let mut tally = Tally::default();
    for first in 0..=text.len() {
        tally.cut_behind(text, first, whole);
    }
    tally
}
