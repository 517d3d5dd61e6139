// One step of a sweep: the two layers of an instruction, or the entry or the exit of a block.

use crate::lists::{at, put, range};
use crate::rows::{
    CLOSED, CONSTANT, FAR, MEMORY, Row, closed_in, least_of, register_bit, sums, ways_from,
};
use net_form::Net;

/// The first and the last layer of a step, which may be one, and the registers in use at both.
#[derive(Clone, Copy)]
pub(crate) struct Step {
    pub first: u32,
    pub last: u32,
    pub used_first: u8,
    pub used_last: u8,
}

/// A strand at a step: its first and last layer there; where it comes from, none where it begins
/// there; what it costs to come to each place and to go on from it; and how early it chooses.
#[derive(Clone, Copy)]
pub(crate) struct Comer {
    pub strand: u32,
    pub first: u32,
    pub last: u32,
    pub from: Option<usize>,
    pub costs: Row,
    pub urgency: u64,
}

/// A step at which nothing is in use.
pub(crate) fn step_at(first: u32, last: u32) -> Step {
    Step {
        first,
        last,
        used_first: 0,
        used_last: 0,
    }
}

/// What it costs to come to each place and to go on from it.
pub(crate) fn costs_of(ways: &[Row], from: Option<usize>, constant: bool, rest: &Row) -> Row {
    match from {
        Some(place) => sums(&ways_from(ways, place), rest),
        None if constant => sums(&at(ways, 14, CLOSED), rest),
        None => *rest,
    }
}

/// How early a strand chooses: first who has the fewest places and none at home, then ends of
/// memory pairs, then who loses most at home.
pub(crate) fn urgency(costs: &Row, is_paired: bool) -> u64 {
    let home = costs[MEMORY].min(costs[CONSTANT]);
    if home >= FAR {
        return FAR.saturating_add(1).saturating_add(closed_in(costs));
    }
    if is_paired {
        return FAR;
    }
    home.saturating_sub(least_of(costs))
}

/// Whether a memory pair has an end of the strand at one of these layers, and whether the other end
/// is in memory by then.
pub(crate) fn pairs_at(
    net: &Net,
    in_memory: &[bool],
    strand: u32,
    first: u32,
    last: u32,
) -> (bool, bool) {
    let mut has_pair = false;
    let mut is_used = false;
    let (from, to) = range(net.index.pairs.as_slice(), strand as usize);
    for number in from..to {
        if let Some(end) = net.index.ends.get(number) {
            if first <= end.layer && end.layer <= last {
                has_pair = true;
                is_used = is_used || at(in_memory, end.pair as usize, false);
            }
        }
    }
    (has_pair, is_used)
}

/// The strand is in memory at its ends of memory pairs at these layers.
pub(crate) fn take_pairs(net: &Net, in_memory: &mut [bool], strand: u32, first: u32, last: u32) {
    let (from, to) = range(net.index.pairs.as_slice(), strand as usize);
    for number in from..to {
        if let Some(end) = net.index.ends.get(number) {
            if first <= end.layer && end.layer <= last {
                put(in_memory, end.pair as usize, true);
            }
        }
    }
}

impl Step {
    // The registers that others have where the strand is.
    fn used(&self, comer: &Comer) -> u8 {
        let mut used = 0;
        if comer.first <= self.first {
            used = self.used_first;
        }
        if self.last <= comer.last {
            used |= self.used_last;
        }
        used
    }

    /// The cheapest place that is left to a strand: where it is already, or the first one. Memory
    /// where none is left.
    pub(crate) fn choose(&self, comer: &Comer, has_memory: bool) -> usize {
        let used = self.used(comer);
        let mut least = FAR;
        let mut best = MEMORY;
        for place in 0..14usize {
            let cost = comer.costs[place];
            let is_left = register_bit(place) & used == 0
                && (place != MEMORY || has_memory)
                && cost < FAR;
            let is_kept = comer.from == Some(place) && cost <= least;
            if is_left && (cost < least || is_kept) {
                least = cost;
                best = place;
            }
        }
        best
    }

    /// Takes the register of a place where the strand is.
    pub(crate) fn take(&mut self, comer: &Comer, place: usize) {
        if comer.first <= self.first {
            self.used_first |= register_bit(place);
        }
        if self.last <= comer.last {
            self.used_last |= register_bit(place);
        }
    }
}
