// How far prices move in a sweep.

/// No price is greater, in the units of the ascent, and no number of a tie is further from 0.
pub(crate) const GREATEST: i32 = 1 << 28;

/// What whoever can be nowhere else would pay for a register.
pub(crate) const MUST: i32 = 1 << 25;

// A price is at most so much above the least one that all are content with.
const SPAN: i32 = 1 << 24;

/// Where a sweep is on its way: the sixteenths of the way from the least price to the greatest, and
/// the power of two whose multiples prices move by.
#[derive(Clone, Copy)]
pub(crate) struct Pace {
    sixteenths: i32,
    grain: u32,
}

impl Pace {
    /// The pace of a sweep. Prices move by 2^9 units of 1/1024 at first, more by the square root
    /// of how many times dearer the deepest block is (`growth` is that, as a power of two), and
    /// half as much with every sixth sweep, down to 2^5. A unit of the ascent is 2^shift of those.
    pub fn of(sweep: u32, growth: u32, shift: u32) -> Pace {
        let turn = sweep.wrapping_mul(11) % 16;
        let grain = (growth / 2)
            .saturating_add(9)
            .saturating_sub(sweep / 6)
            .max(5);
        Pace {
            sixteenths: i32::try_from(turn).unwrap_or(0),
            grain: grain.saturating_sub(shift).min(24),
        }
    }

    /// A number rounded down to a multiple of the grain.
    pub fn down(&self, number: i32) -> i32 {
        (number >> (self.grain % 32)) << (self.grain % 32)
    }

    /// A number rounded up to a multiple of the grain, but no more than this.
    pub fn up_to(&self, number: i32, most: i32) -> i32 {
        let grain = 1i32 << (self.grain % 31);
        self.down(number.wrapping_add(grain).wrapping_sub(1))
            .min(most)
    }

    /// A price between the least and the greatest one that all are content with.
    pub fn between(&self, least: i32, greatest: i32) -> i32 {
        let span = greatest.max(least).wrapping_sub(least).min(SPAN);
        let part = span.wrapping_mul(self.sixteenths) >> 4;
        least.wrapping_add(self.down(part)).max(0).min(GREATEST)
    }

    /// How far two strands that a tie joins are from paying the same, halved.
    pub fn halfway(&self, one: i32, other: i32) -> i32 {
        let half = one.wrapping_add(other) >> 1;
        self.down(half.wrapping_sub(one)).max(one.wrapping_neg())
    }
}
