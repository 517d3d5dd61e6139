// What is paid at each place of a step, and what ways cost from place to place.

use crate::lists::{at, put};
use crate::rates::Ways;

/// What is paid at a place that is closed. No path pays more: sums end here.
pub(crate) const FAR: u32 = 1 << 30;

/// Costs by the numbers of places. The last two are of no place.
pub(crate) type Row = [u32; 16];

/// The number of memory.
pub(crate) const MEMORY: usize = 6;

/// The number of the constant itself.
pub(crate) const CONSTANT: usize = 7;

/// Whether the place of a number has a register, whose number is the place's, modulo 8.
pub(crate) fn has_register(place: usize) -> bool {
    place != MEMORY && place != CONSTANT
}

/// What a way costs from a place to another.
pub(crate) fn way(ways: &Ways, from: usize, to: usize) -> u32 {
    let stored = if to == MEMORY || to > CONSTANT {
        ways.store
    } else {
        0
    };
    if from == to || to == CONSTANT {
        0
    } else if from == MEMORY {
        ways.load
    } else if from == CONSTANT {
        if to == MEMORY {
            ways.store
        } else {
            ways.set.wrapping_add(stored)
        }
    } else if from % 8 == to % 8 || to == MEMORY {
        if from < 8 { stored } else { 0 }
    } else if from < 8 {
        ways.between.wrapping_add(stored)
    } else {
        ways.between
    }
}

/// Closes all places but one.
pub(crate) fn close_others(row: &mut Row, place: usize) {
    let cost = at(row, place, FAR);
    *row = [FAR; 16];
    put(row, place, cost);
}
