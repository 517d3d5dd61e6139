// One step of a sweep: the rows of all strands there turn, and the prices of its memory pair and of
// the registers at its layers are set anew.
//
// The least cost of a whole strand by its place at a step is its min-marginal. How much dearer the
// best without a thing is than the best with it is what the strand would pay for the thing, so
// prices that all are content with leave no value behind.

use crate::bundles::{bids_of, prices_by};
use crate::layout::{NO_PAIR, base_of, layers_of};
use crate::lists::{at, put, range};
use crate::pace::{MUST, Pace};
use crate::room::{Ascent, Way};
use crate::rows::{CLOSED, MEMORY, NOTHING, PLACES, Registers, Row, is_closed, with_registers};
use crate::strands::{Part, layer_of, priced};
use net_form::{MemPair, Net};

// What an end of a pair would pay to be in memory; the row has the price of the pair in it.
fn memory_bid(row: &Row, price: i32) -> i32 {
    let mut elsewhere = CLOSED;
    for p in 0..PLACES {
        if p != MEMORY {
            elsewhere = elsewhere.min(row[p]);
        }
    }
    if is_closed(row[MEMORY]) {
        -MUST
    } else if is_closed(elsewhere) {
        MUST
    } else {
        elsewhere.wrapping_sub(row[MEMORY].wrapping_sub(price))
    }
}

// By how much each register became dearer.
fn raised(new: &Registers, old: &Registers) -> Registers {
    let mut all = [0; 8];
    for r in 0..8usize {
        all[r] = new[r].wrapping_sub(old[r]);
    }
    all
}

impl Ascent {
    // Where the strand is among those of a step.
    fn place_among(&self, step: usize, strand: u32) -> usize {
        let (from, to) = range(&self.layout.beginnings, step);
        for number in from..to {
            if at(&self.layout.present, number, u32::MAX) == strand {
                return number.wrapping_sub(from);
            }
        }
        usize::MAX
    }

    // Memory becomes dearer at an end of a pair.
    fn raise_memory(&mut self, end: usize, more: i32) {
        let mut row = at(&self.marginals, end, NOTHING);
        if !is_closed(row[MEMORY]) {
            row[MEMORY] = row[MEMORY].wrapping_add(more);
            put(&mut self.marginals, end, row);
        }
    }

    // A new price of the memory pair of a step.
    fn price_pair(&mut self, step: usize, number: usize, pair: MemPair, pace: &Pace) {
        let left = self.place_among(step, pair.left);
        let right = self.place_among(step, pair.right);
        let old = at(&self.prices.pairs, number, 0);
        let one = memory_bid(&at(&self.marginals, left, NOTHING), old);
        let other = memory_bid(&at(&self.marginals, right, NOTHING), old);
        let price = pace.between(one.min(other).max(0), one.max(other).max(0));
        put(&mut self.prices.pairs, number, price);
        self.raise_memory(left, price.wrapping_sub(old));
        self.raise_memory(right, price.wrapping_sub(old));
    }

    // A new price of the memory pair of a step, if it is the turn of this layer: that of the end
    // which the sweep meets last.
    fn price_pair_at(&mut self, net: &Net, step: usize, part: Part, way: Way, pace: &Pace) {
        let number = at(&self.layout.pairs, step, NO_PAIR) as usize;
        let Some(pair) = net.pairs.get(number) else {
            return;
        };
        let left_is_late = pair.left_layer % 2 == 0;
        let right_is_late = pair.right_layer % 2 == 0;
        let is_late = match way {
            Way::Forward => left_is_late || right_is_late,
            Way::Backward => left_is_late && right_is_late,
        };
        if is_late == (part == Part::Late) {
            self.price_pair(step, number, *pair, pace);
        }
    }

    // What those of a step would pay for registers at one of its layers, and how many would.
    fn gather_bids(&mut self, step: usize, part: Part, prices: &Registers) -> usize {
        let (from, to) = range(&self.layout.beginnings, step);
        let mut count = 0usize;
        for number in from..to {
            let strand = at(&self.layout.present, number, 0) as usize;
            let row = self.layout.span(strand).row_at(step);
            if self.layout.mark(row) & part.mark() == 0 {
                continue;
            }
            let marginal = at(&self.marginals, number.wrapping_sub(from), NOTHING);
            if let Some(bids) = bids_of(&marginal, prices) {
                put(&mut self.bids, count, bids);
                count = count.saturating_add(1);
            }
        }
        count
    }

    // Registers become dearer for those of a step that are at one of its layers.
    fn raise_registers(&mut self, step: usize, part: Part, more: &Registers) {
        let (from, to) = range(&self.layout.beginnings, step);
        for number in from..to {
            let strand = at(&self.layout.present, number, 0) as usize;
            let row = self.layout.span(strand).row_at(step);
            if self.layout.mark(row) & part.mark() != 0 {
                let place = number.wrapping_sub(from);
                let marginal = at(&self.marginals, place, NOTHING);
                put(&mut self.marginals, place, with_registers(&marginal, more));
            }
        }
    }

    // New prices of the registers at a layer of a step.
    fn price_registers(&mut self, step: usize, layer: usize, part: Part, pace: &Pace) {
        let old = at(&self.prices.registers, layer, [0; 8]);
        let count = self.gather_bids(step, part, &old);
        let new = match self.bids.get(..count) {
            Some(bids) => prices_by(bids, pace),
            None => old,
        };
        put(&mut self.prices.registers, layer, new);
        self.raise_registers(step, part, &raised(&new, &old));
    }

    // Which layers of a step get new prices: those that the block has, forwards only the pressed.
    fn is_priced(&self, net: &Net, block: usize, step: usize, part: Part, way: Way) -> bool {
        let number = step.wrapping_sub(base_of(net, block));
        let exists = match part {
            Part::Early => number != 0,
            Part::Late => number != layers_of(net, block) / 2,
        };
        let layer = layer_of(step, block, part);
        exists && (way == Way::Backward || at(&self.layout.pressed, layer, true))
    }

    fn turn_rows(&mut self, net: &Net, block: usize, step: usize, way: Way) {
        let other = match way {
            Way::Forward => step.wrapping_sub(1),
            Way::Backward => step.wrapping_add(1),
        };
        let across = self.step_prices(other, block);
        let here = self.step_prices(step, block);
        let (from, to) = range(&self.layout.beginnings, step);
        for number in from..to {
            let strand = at(&self.layout.present, number, 0) as usize;
            let bare = self.turn_row(net, strand, step, &across, way);
            let row = self.layout.span(strand).row_at(step);
            let marginal = priced(&bare, self.layout.mark(row), &here);
            put(&mut self.marginals, number.wrapping_sub(from), marginal);
        }
    }

    /// The rows of a step turn this way, and its prices are set anew.
    pub fn sweep_step(&mut self, net: &Net, block: usize, step: usize, way: Way, pace: &Pace) {
        self.turn_rows(net, block, step, way);
        let parts = match way {
            Way::Forward => [Part::Early, Part::Late],
            Way::Backward => [Part::Late, Part::Early],
        };
        for part in parts {
            if self.is_priced(net, block, step, part, way) {
                self.price_pair_at(net, step, part, way, pace);
                self.price_registers(step, layer_of(step, block, part), part, pace);
            }
        }
    }
}
