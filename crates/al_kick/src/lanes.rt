// Least paths, step by step: what is to be paid from each place on, or up to it.
//
// A way through a crossbar costs as much from each register to each other one, so the least of the
// six registers alone, of the six both places, memory and the constant itself say what it costs to
// go elsewhere; beside that a value may stay in its register.
//
// Most of the time of a search goes by here. So the costs of a row are lanes of vectors, which the
// processor computes side by side, without a condition for any of them.

use crate::lists::at;
use crate::rates::Ways;
use crate::rows::{FAR, MEMORY, Row, close_others};
use pra_base::Mask;
use std::simd::{mask32x8, u32x4, u32x8, u32x16};

/// A row as lanes: registers alone with memory and the constant itself, and both places.
#[derive(Clone, Copy)]
pub(crate) struct Lanes {
    alone: u32x8,
    both: u32x8,
}

/// What it costs to go elsewhere, by where a value is kept on the one side of a crossbar, in lanes
/// by where it is kept on the other side: in a register alone, in both places, in memory, or
/// nowhere, as the constant itself.
#[derive(Clone, Copy)]
pub(crate) struct Through {
    alone: [u32; 4],
    both: [u32; 4],
    memory: [u32; 4],
    constant: [u32; 4],
    store: u32,
}

impl Through {
    /// By where a value is behind the crossbar, in lanes by where it is before it.
    pub fn back(ways: &Ways) -> Through {
        let Ways {
            between,
            load,
            store,
            set,
        } = *ways;
        let moved = between.wrapping_add(store);
        Through {
            alone: [between, between, load, set],
            both: [moved, between, load, set.wrapping_add(store)],
            memory: [store, 0, 0, store],
            constant: [0; 4],
            store,
        }
    }

    /// By where a value is before the crossbar, in lanes by where it is behind it.
    pub fn forth(ways: &Ways) -> Through {
        let Ways {
            between,
            load,
            store,
            set,
        } = *ways;
        Through {
            alone: [between, between.wrapping_add(store), store, 0],
            both: [between, between, 0, 0],
            memory: [load, load, 0, 0],
            constant: [set, set.wrapping_add(store), store, 0],
            store,
        }
    }
}

// The lanes of two vectors behind each other.
const IN_ORDER: [usize; 16] = [0, 1, 2, 3, 4, 5, 6, 7, 8, 9, 10, 11, 12, 13, 14, 15];

// Of eight lanes those that are less, from the first four and the last four.
#[inline(always)]
fn lesser_half(lanes: u32x8) -> u32x4 {
    lanes.extract::<0, 4>().simd_min(lanes.extract::<4, 4>())
}

impl Lanes {
    /// The costs of a row.
    #[inline(always)]
    pub fn of(row: &Row) -> Lanes {
        let lanes = u32x16::from_array(*row);
        Lanes {
            alone: lanes.extract::<0, 8>(),
            both: lanes.extract::<8, 8>(),
        }
    }

    /// Places that cost nothing.
    #[inline(always)]
    pub fn free() -> Lanes {
        Lanes {
            alone: u32x8::splat(0),
            both: u32x8::splat(0),
        }
    }

    /// The row of these costs.
    #[inline(always)]
    pub fn row(self) -> Row {
        self.alone.shuffle::<16>(self.both, IN_ORDER).to_array()
    }

    // Adds costs, place by place.
    #[inline(always)]
    fn plus(self, more: Lanes) -> Lanes {
        Lanes {
            alone: self.alone + more.alone,
            both: self.both + more.both,
        }
    }

    // The same, where no sum is more than what a closed place costs.
    #[inline(always)]
    fn paid_with(self, more: Lanes) -> Lanes {
        let far = u32x8::splat(FAR);
        let sum = self.plus(more);
        Lanes {
            alone: sum.alone.simd_min(far),
            both: sum.both.simd_min(far),
        }
    }

    // The least of all costs, in each lane.
    #[inline(always)]
    fn least(self) -> u32x4 {
        let four = lesser_half(self.alone.simd_min(self.both));
        let two = four.simd_min(four.rotate_elements_left::<2>());
        two.simd_min(two.rotate_elements_left::<1>())
    }

    // The places of this cost, as a set.
    #[inline(always)]
    fn places_of(self, cost: u32x4) -> u64 {
        let cost = cost.swizzle::<8>([0, 1, 2, 3, 0, 1, 2, 3]);
        let alone = self.alone.simd_eq(cost).to_bitmask();
        let both = self.both.simd_eq(cost).to_bitmask();
        alone | (both << 8)
    }

    // What is to be paid on the other side of a crossbar where a value goes elsewhere: from the
    // cheapest register alone, the cheapest both place, memory or the constant itself.
    #[inline(always)]
    fn elsewhere(self, through: &Through) -> Lanes {
        let not_registers = u32x8::from_array([0, 0, 0, 0, 0, 0, FAR, FAR]);
        let alone = lesser_half(self.alone.simd_max(not_registers));
        let (first, last) = alone.interleave(lesser_half(self.both));
        let pairs = first.simd_min(last);
        let pair = pairs.simd_min(pairs.rotate_elements_left::<2>());
        let alone = pair.swizzle::<4>([0, 0, 0, 0]) + u32x4::from_array(through.alone);
        let both = pair.swizzle::<4>([1, 1, 1, 1]) + u32x4::from_array(through.both);
        let memory = self.alone.swizzle::<4>([6, 6, 6, 6]) + u32x4::from_array(through.memory);
        let constant = self.alone.swizzle::<4>([7, 7, 7, 7]) + u32x4::from_array(through.constant);
        let goes = alone.simd_min(both).simd_min(memory.simd_min(constant));
        Lanes {
            alone: goes.swizzle::<8>([0, 0, 0, 0, 0, 0, 2, 3]),
            both: goes.swizzle::<8>([1, 1, 1, 1, 1, 1, 1, 1]),
        }
    }

    // The same numbers, where these are not less.
    #[inline(always)]
    fn or_less(self, other: Lanes) -> Lanes {
        Lanes {
            alone: self.alone.simd_min(other.alone),
            both: self.both.simd_min(other.both),
        }
    }

    // What is to be paid before a crossbar, from what is to be paid behind it.
    #[inline(always)]
    fn before(self, through: &Through) -> Lanes {
        let store = u32x8::splat(through.store);
        let stays = Lanes {
            alone: self.alone.simd_min(self.both + store),
            both: self.alone.simd_min(self.both),
        };
        stays.or_less(self.elsewhere(through))
    }

    // What is to be paid up to behind a crossbar, from what is to be paid up to before it.
    #[inline(always)]
    fn behind(self, through: &Through) -> Lanes {
        let store = u32x8::splat(through.store);
        let stays = Lanes {
            alone: self.alone.simd_min(self.both),
            both: self.both.simd_min(self.alone + store),
        };
        stays.or_less(self.elsewhere(through))
    }
}

/// From what is paid at each of so many steps, in rows from one on, to what is to be paid from
/// there on.
pub(crate) fn pay_back(ways: &Ways, rows: &mut [Row], begin: usize, steps: usize) {
    let through = Through::back(ways);
    let end = begin.wrapping_add(steps);
    let mut later = Lanes::free();
    for number in 1..=steps {
        if let Some(row) = rows.get_mut(end.wrapping_sub(number)) {
            later = Lanes::of(row).paid_with(later.before(&through));
            *row = later.row();
        }
    }
}

// A row of which all places are closed but one, if one is named.
fn end_row(row: &Row, place: Option<usize>) -> Lanes {
    let mut end = *row;
    if let Some(place) = place {
        close_others(&mut end, place);
    }
    Lanes::of(&end).paid_with(Lanes::free())
}

/// What is to be paid from the first of these rows on, where the way ends at a place, if one is
/// named.
pub(crate) fn paid_back(ways: &Ways, rows: &[Row], end: Option<usize>) -> Row {
    let through = Through::back(ways);
    let Some((last, before)) = rows.split_last() else {
        return [FAR; 16];
    };
    let mut later = end_row(last, end);
    for row in before.iter().rev() {
        later = Lanes::of(row).paid_with(later.before(&through));
    }
    later.row()
}

/// What is to be paid up to the last of these rows, where the way begins at a place, if one is
/// named.
pub(crate) fn paid_forth(ways: &Ways, rows: &[Row], begin: Option<usize>) -> Row {
    let through = Through::forth(ways);
    let Some((first, behind)) = rows.split_first() else {
        return [FAR; 16];
    };
    let mut earlier = end_row(first, begin);
    for row in behind {
        earlier = Lanes::of(row).paid_with(earlier.behind(&through));
    }
    earlier.row()
}

/// The least of all costs.
pub(crate) fn least_cost(row: &Row) -> u32 {
    Lanes::of(row).least()[0]
}

// Of places in a set the first one from a place on, where the first follows the last.
fn first_from(places: u64, turn: usize) -> usize {
    let places = places & 0x3FFF;
    let behind = places & (u64::MAX << (turn % 64));
    let next = if behind == 0 { places } else { behind };
    if next == 0 {
        MEMORY
    } else {
        next.trailing_zeros() as usize
    }
}

/// The place of the least cost, the first of these from a place on.
pub(crate) fn least_place(row: &Row, turn: usize) -> usize {
    let lanes = Lanes::of(row);
    first_from(lanes.places_of(lanes.least()), turn)
}

/// Where it costs least to go on from a place, when ways from there cost so much: to stay, or the
/// first of these from a place on.
pub(crate) fn next_place(moves: &Row, row: &Row, from: usize, turn: usize) -> usize {
    let whole = Lanes::of(row).plus(Lanes::of(moves));
    let least = whole.least();
    if at(row, from, FAR) == least[0] {
        return from;
    }
    first_from(whole.places_of(least), turn)
}

/// What is paid for each register.
pub(crate) type RegisterCosts = u32x8;

/// What so many others in each register cost, and what was added for those of the past.
#[inline(always)]
pub(crate) fn charges(each: u32, others: RegisterCosts, history: RegisterCosts) -> RegisterCosts {
    let now = others * u32x8::splat(each);
    (now + history).simd_min(u32x8::splat(FAR))
}

/// How many others count, of so many in each register.
#[inline(always)]
pub(crate) fn counted(count: &[u32; 8]) -> u32x8 {
    u32x8::from_array(*count).simd_min(u32x8::splat(255))
}

/// What was added for past overlaps grows where several are in a register now, by so much for each
/// of them. It says whether it grew anywhere.
pub(crate) fn heat_crowd(count: &[u32; 8], history: &mut [u32; 8], more: u32) -> bool {
    let count = u32x8::from_array(*count);
    let crowded = count.simd_gt(u32x8::splat(1));
    if !crowded.any() {
        return false;
    }
    let more = crowded.select(count * u32x8::splat(more), u32x8::splat(0));
    let sum = u32x8::from_array(*history) + more;
    *history = sum.simd_min(u32x8::splat(FAR)).to_array();
    true
}

/// What is paid at the places of a mask, by what is paid for the registers. The two numbers behind
/// those of the six registers are 0, as memory and the constant itself cost nothing there.
#[inline(always)]
pub(crate) fn row_of(mask: Mask, costs: RegisterCosts) -> Row {
    let (alone, both) = closed_outside(mask);
    Lanes {
        alone: costs + far_at(alone),
        both: costs + far_at(both),
    }
    .row()
}

// What is paid more at closed places.
#[inline(always)]
fn far_at(closed: mask32x8) -> u32x8 {
    closed.select(u32x8::splat(FAR), u32x8::splat(0))
}

// Which registers alone, with memory and the constant itself, and which both places are in no mask.
#[inline(always)]
fn closed_outside(mask: Mask) -> (mask32x8, mask32x8) {
    let mask = u32x8::splat(u32::from(mask));
    let alone = u32x8::from_array([0x1, 0x2, 0x4, 0x8, 0x10, 0x20, 0x40, 0x80]);
    let both = u32x8::from_array([0x100, 0x200, 0x400, 0x800, 0x1000, 0x2000, 0x4000, 0x8000]);
    let free = u32x8::splat(0);
    ((mask & alone).simd_eq(free), (mask & both).simd_eq(free))
}

/// How many are in each register of a cell or in another one's, whichever are more.
#[inline(always)]
pub(crate) fn most_of(count: u32x8, other: &[u32; 8]) -> u32x8 {
    count.simd_max(u32x8::from_array(*other))
}

/// What is paid at the places of a mask, of which those are closed in whose register more are than
/// the strand itself, which has a register or memory (its place's number, modulo 8).
#[inline(always)]
pub(crate) fn open_row(mask: Mask, count: RegisterCosts, own: u32) -> Row {
    let (alone, both) = closed_outside(mask);
    let registers = u32x8::from_array([0, 1, 2, 3, 4, 5, 6, 7]);
    let is_own = registers.simd_eq(u32x8::splat(own));
    let taken = count.simd_gt(is_own.select(u32x8::splat(1), u32x8::splat(0)));
    Lanes {
        alone: far_at(alone | taken),
        both: far_at(both | taken),
    }
    .row()
}
