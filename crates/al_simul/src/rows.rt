// A cost for each place.

use crate::lists::at;
use pra_base::places::allows;
use pra_base::{Mask, Place};

/// Costs by the numbers of places, in units of 1/1024 of a weight.
pub(crate) type Row = [u64; 14];

/// What is paid at a place that is closed: more than any path pays.
pub(crate) const FAR: u64 = 1 << 62;

/// A row of places that are closed.
pub(crate) const CLOSED: Row = [FAR; 14];

/// The number of memory.
pub(crate) const MEMORY: usize = 6;

/// The number of the constant itself.
pub(crate) const CONSTANT: usize = 7;

/// The place of a number. Memory is that of no other.
pub(crate) fn place_of(number: usize) -> Place {
    match u8::try_from(number) {
        Ok(number) => Place::of_number(number).unwrap_or(Place::Mem),
        Err(_) => Place::Mem,
    }
}

/// Whether a place has a register, whose number is the place's, modulo 8.
pub(crate) fn has_register(place: usize) -> bool {
    place != MEMORY && place != CONSTANT
}

/// The bit of a place's register, none where it has none.
pub(crate) fn register_bit(place: usize) -> u8 {
    if has_register(place) {
        1u8.wrapping_shl((place % 8) as u32)
    } else {
        0
    }
}

/// Nothing is paid at the places of a mask, and the others are closed.
pub(crate) fn row_of(mask: Mask) -> Row {
    let mut row = CLOSED;
    for place in 0..14usize {
        if allows(mask, place_of(place)) {
            row[place] = 0;
        }
    }
    row
}

/// So much more is paid at a place.
pub(crate) fn add_at(row: &mut Row, place: usize, cost: u64) {
    if place < 14 {
        row[place] = row[place].saturating_add(cost);
    }
}

/// Closes all places but one.
pub(crate) fn close_others(row: &mut Row, open: usize) {
    for place in 0..14usize {
        if place != open {
            row[place] = FAR;
        }
    }
}

/// The least cost of a row.
pub(crate) fn least_of(row: &Row) -> u64 {
    let mut least = FAR;
    for place in 0..14usize {
        least = least.min(row[place]);
    }
    least
}

/// How many places are closed.
pub(crate) fn closed_in(row: &Row) -> u64 {
    let mut closed = 0u64;
    for place in 0..14usize {
        if row[place] >= FAR {
            closed = closed.saturating_add(1);
        }
    }
    closed
}

/// The sums of two rows, place by place.
pub(crate) fn sums(one: &Row, other: &Row) -> Row {
    let mut row = *one;
    for place in 0..14usize {
        row[place] = row[place].saturating_add(other[place]);
    }
    row
}

/// The costs of ways from a place, of which there is a row for each.
pub(crate) fn ways_from(ways: &[Row], place: usize) -> Row {
    at(ways, place, CLOSED)
}
