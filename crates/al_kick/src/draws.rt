// Random numbers: Marsaglia, Xorshift RNGs, Journal of Statistical Software 8 (14), 2003, with
// shifts of 13, 7 and 17. The same seed gives the same numbers.

use crate::lists::Numbers;

/// A stream of random numbers.
#[derive(Drop)]
pub(crate) struct Draws {
    state: u64,
}

impl Draws {
    pub fn of_seed(seed: u64) -> Draws {
        let mut draws = Draws {
            state: seed.wrapping_add(1).wrapping_mul(0x9E37_79B9_7F4A_7C15) | 1,
        };
        for _ in 0..4u8 {
            draws.next();
        }
        draws
    }

    fn next(&mut self) -> u64 {
        let mut state = self.state;
        state ^= state << 13;
        state ^= state >> 7;
        state ^= state << 17;
        self.state = state;
        state >> 32
    }

    /// A number below another one, or 0.
    pub fn below(&mut self, most: usize) -> usize {
        let drawn = self.next() as usize;
        if most == 0 { 0 } else { drawn % most }
    }

    /// Brings numbers into a random order (Fisher and Yates).
    pub fn shuffle(&mut self, numbers: &mut Numbers) {
        for taken in 1..numbers.count() {
            let other = self.below(taken.saturating_add(1));
            numbers.exchange(taken, other);
        }
    }
}
