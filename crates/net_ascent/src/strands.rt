// What a strand pays: at the places of a step, up to there, and from there on.
//
// A row leaves out what is paid for registers and memory pairs at its own step, so that no row
// changes when a price there does. Rows are kept with about 0 as their least number; what was taken
// off is summed up for each strand.

use crate::costs::NO_EXTRA;
use crate::layout::{EARLY, EXTRA, LATE, NO_PAIR, PAIR_END, Span};
use crate::lists::{at, put, range};
use crate::room::{Ascent, Way};
use crate::rows::{
    MEMORY, NOTHING, Registers, Row, before, behind, difference, limited, row_of, row_where, sum,
    with_registers,
};
use net_form::Net;

/// The two layers of a step.
#[derive(Clone, Copy, PartialEq, Eq)]
pub(crate) enum Part {
    Early,
    Late,
}

impl Part {
    /// The mark of rows whose strand has this layer.
    pub fn mark(self) -> u32 {
        match self {
            Part::Early => EARLY,
            Part::Late => LATE,
        }
    }
}

/// A layer of a step of a block, among the layers of all blocks.
pub(crate) fn layer_of(step: usize, block: usize, part: Part) -> usize {
    let late = step.wrapping_sub(block).wrapping_mul(2);
    match part {
        Part::Early => late.wrapping_sub(1),
        Part::Late => late,
    }
}

/// What is paid at a step: for registers at none of its layers, at the early one, at the late one,
/// and at both; and for its memory pair.
#[derive(Clone, Copy)]
pub(crate) struct StepPrices {
    registers: [Registers; 4],
    pair: i32,
}

/// What a strand pays by its place at a step, with what is paid for registers and the pair there.
pub(crate) fn priced(row: &Row, mark: u32, prices: &StepPrices) -> Row {
    let layers = (mark / EARLY % 4) as usize;
    let mut all = with_registers(row, &prices.registers[layers]);
    if mark & PAIR_END != 0 {
        all[MEMORY] = all[MEMORY].wrapping_add(prices.pair);
    }
    all
}

fn together(one: &Registers, other: &Registers) -> Registers {
    let mut all = [0; 8];
    for r in 0..8usize {
        all[r] = one[r].wrapping_add(other[r]);
    }
    all
}

impl Ascent {
    /// What is paid at a step of a block.
    pub fn step_prices(&self, step: usize, block: usize) -> StepPrices {
        let registers = self.prices.registers.as_slice();
        let early = at(registers, layer_of(step, block, Part::Early), [0; 8]);
        let late = at(registers, layer_of(step, block, Part::Late), [0; 8]);
        let pair = at(&self.layout.pairs, step, NO_PAIR) as usize;
        StepPrices {
            registers: [[0; 8], early, late, together(&early, &late)],
            pair: at(&self.prices.pairs, pair, 0),
        }
    }

    // Adds what ties ask at a strand's ends, where the step is one.
    fn add_ties(&self, net: &Net, strand: usize, span: &Span, step: usize, costs: &mut Row) {
        if span.enters && step == span.first() {
            let (from, to) = range(net.index.entries.as_slice(), strand);
            for number in from..to {
                let tie = at(net.index.arrivals.as_slice(), number, u32::MAX);
                *costs = difference(costs, &at(&self.prices.ties, tie as usize, NOTHING));
            }
        }
        if span.leaves && step == span.last() {
            let (from, to) = range(net.index.exits.as_slice(), strand);
            for tie in from..to {
                *costs = sum(costs, &at(&self.prices.ties, tie, NOTHING));
            }
        }
    }

    // Adds the extras of a strand at a step, and what a constant costs where it begins.
    fn add_extras(&self, strand: usize, span: &Span, step: usize, costs: &mut Row) {
        let (from, to) = range(&self.layout.extra_beginnings, step);
        for number in from..to {
            let extra = at(&self.layout.extras, number, NO_EXTRA);
            if extra.strand as usize == strand {
                let place = extra.place as usize % 16;
                costs[place] = costs[place].wrapping_add(extra.cost);
            }
        }
        if span.constant && step == span.first() {
            let set = self.rates.ways(span.depth).set;
            for r in 0..6usize {
                costs[r] = costs[r].wrapping_add(set);
            }
        }
    }

    // What the places of a strand cost at a step, with what its ties ask.
    fn node(&self, net: &Net, strand: usize, span: &Span, step: usize, mark: u32) -> Row {
        let tied = (span.enters && step == span.first()) || (span.leaves && step == span.last());
        if !tied && mark & EXTRA == 0 {
            return row_of(mark);
        }
        let mut costs = NOTHING;
        if mark & EXTRA != 0 {
            self.add_extras(strand, span, step, &mut costs);
        }
        self.add_ties(net, strand, span, step, &mut costs);
        row_where(mark, &costs)
    }

    // The row of a strand at a step by that of the step before or behind it, where that is paid.
    fn fresh_row(
        &mut self,
        strand: usize,
        span: &Span,
        step: usize,
        node: &Row,
        across: &StepPrices,
        way: Way,
    ) -> Row {
        let (start, other) = match way {
            Way::Forward => (span.first(), step.wrapping_sub(1)),
            Way::Backward => (span.last(), step.wrapping_add(1)),
        };
        if step == start {
            put(&mut self.taken_off, strand, 0);
            return *node;
        }
        let row = span.row_at(other);
        let there = priced(&at(&self.rows, row, NOTHING), self.layout.mark(row), across);
        let ways = self.rates.ways(span.depth);
        let (crossed, least) = match way {
            Way::Forward => behind(&ways, &there),
            Way::Backward => before(&ways, &there),
        };
        let taken = at(&self.taken_off, strand, 0);
        put(
            &mut self.taken_off,
            strand,
            taken.wrapping_add(i64::from(least)),
        );
        limited(&sum(&crossed, node))
    }

    /// The row of a strand at a step turns this way. It gives what the whole strand costs at least
    /// by its place there, but for what the step's registers and pair cost.
    pub fn turn_row(
        &mut self,
        net: &Net,
        strand: usize,
        step: usize,
        across: &StepPrices,
        way: Way,
    ) -> Row {
        let span = self.layout.span(strand);
        let row = span.row_at(step);
        let node = self.node(net, strand, &span, step, self.layout.mark(row));
        let fresh = self.fresh_row(strand, &span, step, &node, across, way);
        let old = at(&self.rows, row, NOTHING);
        put(&mut self.rows, row, fresh);
        limited(&sum(&fresh, &difference(&old, &node)))
    }

    /// All rows of a strand are made anew, this way.
    pub fn renew(&mut self, net: &Net, strand: usize, way: Way) {
        let span = self.layout.span(strand);
        for number in 0..span.steps() {
            let (step, other) = match way {
                Way::Forward => {
                    let step = span.first().wrapping_add(number);
                    (step, step.wrapping_sub(1))
                }
                Way::Backward => {
                    let step = span.last().wrapping_sub(number);
                    (step, step.wrapping_add(1))
                }
            };
            let across = self.step_prices(other, span.block());
            self.turn_row(net, strand, step, &across, way);
        }
    }

    /// What a strand pays by its place at a step, with all prices there.
    pub fn priced_row(&self, span: &Span, step: usize) -> Row {
        let row = span.row_at(step);
        let prices = self.step_prices(step, span.block());
        priced(
            &at(&self.rows, row, NOTHING),
            self.layout.mark(row),
            &prices,
        )
    }
}
