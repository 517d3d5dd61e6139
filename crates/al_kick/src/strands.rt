// One strand leaves its cells and comes to others, and what its path costs.

use crate::congestion::{Cell, Met};
use crate::lists::{at, put};
use crate::rates::Rate;
use crate::rows::{MEMORY, has_register};
use crate::search::{NO_EXTRA, Search};
use crate::spans::{Span, range};
use net_form::{MemPair, Net, PairEnd};

// Whether a strand is in memory at an end of a pair.
fn is_in_memory(search: &Search, span: &Span, end: PairEnd) -> bool {
    let layer = (end.layer as usize).wrapping_sub(span.first());
    search.place(span, span.step_of(layer)) == MEMORY
}

// The number of a strand as cells sum them up.
fn short(strand: usize) -> u32 {
    u32::try_from(strand).unwrap_or(0)
}

/// The end of a memory pair of this number.
pub(crate) fn pair_end(net: &Net, number: usize) -> Option<PairEnd> {
    net.index.ends.get(number).copied()
}

impl Search {
    /// A strand leaves the cells of its path.
    pub(crate) fn release(&mut self, net: &Net, strand: usize) {
        if self.log.is_changed.add(strand) {
            self.log.changed.push(strand);
        }
        let span = self.span(strand);
        self.leave_registers(strand, &span);
        let (from, to) = range(net.index.pairs.as_slice(), strand);
        for number in from..to {
            if let Some(end) = pair_end(net, number) {
                if is_in_memory(self, &span, end) {
                    self.cells.leave_pair(end.pair as usize);
                }
            }
        }
        self.paths.total = self.paths.total.wrapping_sub(self.worth(strand));
    }

    // A strand leaves the registers of its path.
    fn leave_registers(&mut self, strand: usize, span: &Span) {
        let number = short(strand);
        let mut left = 0u64;
        let mut layers = span.first_layers();
        for step in 0..span.steps() {
            let place = at(&self.paths.now, span.start().wrapping_add(step), 6) as usize;
            if has_register(place) {
                for layer in layers.from..layers.to {
                    if let Some(cell) = self.cells.layers.get_mut(layer) {
                        left = left.wrapping_add(u64::from(cell.leave(place, number)));
                    }
                }
            }
            layers = layers.next();
        }
        self.cells.overlaps = self.cells.overlaps.wrapping_sub(left);
    }

    // A strand comes to the registers of its path, and says whether it meets others there.
    fn enter_registers(&mut self, strand: usize, span: &Span) -> bool {
        let number = short(strand);
        let mut met = 0u64;
        let mut layers = span.first_layers();
        for step in 0..span.steps() {
            let place = at(&self.paths.now, span.start().wrapping_add(step), 6) as usize;
            if has_register(place) {
                for layer in layers.from..layers.to {
                    if let Some(cell) = self.cells.layers.get_mut(layer) {
                        match cell.enter(place, number) {
                            Met::Nobody => {}
                            Met::One(other) => {
                                self.log.note_overlap(other as usize);
                                met = met.wrapping_add(1);
                            }
                            Met::Several => met = met.wrapping_add(1),
                        }
                    }
                }
            }
            layers = layers.next();
        }
        self.cells.overlaps = self.cells.overlaps.wrapping_add(met);
        met > 0
    }

    // Notes both ends of a pair.
    fn note_pair(&mut self, pair: Option<&MemPair>) {
        if let Some(pair) = pair {
            self.log.note_overlap(pair.left as usize);
            self.log.note_overlap(pair.right as usize);
        }
    }

    // A strand comes to memory at its ends of memory pairs.
    fn enter_pairs(&mut self, net: &Net, strand: usize, span: &Span) {
        let (from, to) = range(net.index.pairs.as_slice(), strand);
        for number in from..to {
            if let Some(end) = pair_end(net, number) {
                if is_in_memory(self, span, end) && self.cells.enter_pair(end.pair as usize) {
                    self.note_pair(net.pairs.get(end.pair as usize));
                }
            }
        }
    }

    /// A strand comes to the cells of its path. Who overlaps then is noted.
    pub(crate) fn take(&mut self, net: &Net, strand: usize) {
        let span = self.span(strand);
        if self.enter_registers(strand, &span) {
            self.log.note_overlap(strand);
        }
        self.enter_pairs(net, strand, &span);
        let worth = self
            .path_cost(&span)
            .wrapping_add(self.extras_cost(net, strand, &span));
        put(&mut self.paths.worth, strand, worth);
        self.paths.total = self.paths.total.wrapping_add(worth);
    }

    // What the ways of a path cost, in units.
    fn path_cost(&self, span: &Span) -> u64 {
        let Some(rate) = self.rates.get(span.depth() as usize) else {
            return 0;
        };
        ways_cost(self, rate, span).wrapping_mul(rate.times)
    }

    // What the extras of a path cost, in units.
    fn extras_cost(&self, net: &Net, strand: usize, span: &Span) -> u64 {
        let mut cost = 0u64;
        let (from, to) = range(net.index.extras.as_slice(), strand);
        for number in from..to {
            let extra = at(&self.extras, number, NO_EXTRA);
            if self.place(span, extra.step as usize) == extra.place as usize {
                cost = cost.wrapping_add(extra.units);
            }
        }
        cost
    }

    // Whether a strand overlaps with others in a register at a step, whose cells are among these.
    fn is_crowded(&self, span: &Span, cells: &[Cell], step: usize) -> bool {
        let place = self.place(span, step);
        if !has_register(place) {
            return false;
        }
        let (one, other) = span.pair_of(step);
        for layer in [one, other] {
            if let Some(cell) = cells.get(layer) {
                if cell.is_crowded(place) {
                    return true;
                }
            }
        }
        false
    }

    /// Whether a strand overlaps with others, and whether it does where it is tied.
    pub(crate) fn overlaps(&self, net: &Net, strand: usize) -> (bool, bool) {
        let span = self.span(strand);
        let cells = self.cells.of(span.layer(), span.len());
        let mut anywhere = false;
        let mut tied = false;
        for step in 0..span.steps() {
            if self.is_crowded(&span, cells, step) {
                anywhere = true;
                tied = tied || is_tied_at(&span, step);
            }
        }
        let (from, to) = range(net.index.pairs.as_slice(), strand);
        for number in from..to {
            if let Some(end) = pair_end(net, number) {
                let both = self.cells.pair_count(end.pair as usize) > 1;
                if both && is_in_memory(self, &span, end) {
                    let layer = (end.layer as usize).wrapping_sub(span.first());
                    anywhere = true;
                    tied = tied || is_tied_at(&span, span.step_of(layer));
                }
            }
        }
        (anywhere, tied)
    }

    /// The cells of a path cost more from now on.
    pub(crate) fn heat_path(&mut self, strand: usize, more: u32) {
        let span = self.span(strand);
        let mut layers = span.first_layers();
        for step in 0..span.steps() {
            let place = self.place(&span, step);
            if has_register(place) {
                for layer in layers.from..layers.to {
                    self.cells.heat(layer, place, more);
                }
            }
            layers = layers.next();
        }
    }

    // The registers of a path in which it overlaps with others cost more from now on.
    fn heat_registers(&mut self, strand: usize, more: u32) {
        let span = self.span(strand);
        let mut layers = span.first_layers();
        for step in 0..span.steps() {
            let place = self.place(&span, step);
            if has_register(place) {
                for layer in layers.from..layers.to {
                    self.cells.heat_crowded(layer, place, more);
                }
            }
            layers = layers.next();
        }
    }

    /// Those cells of a path at which it overlaps with others cost more from now on.
    pub(crate) fn heat_overlaps(&mut self, net: &Net, strand: usize, more: u32) {
        let span = self.span(strand);
        self.heat_registers(strand, more);
        let (from, to) = range(net.index.pairs.as_slice(), strand);
        for number in from..to {
            if let Some(end) = pair_end(net, number) {
                let pair = end.pair as usize;
                if self.cells.pair_count(pair) > 1 && is_in_memory(self, &span, end) {
                    self.cells.heat_pair(pair, more);
                }
            }
        }
    }
}

// What the ways of a path cost, in scaled units.
fn ways_cost(search: &Search, rate: &Rate, span: &Span) -> u64 {
    let start = span.start();
    let Some(path) = search
        .paths
        .now
        .get(start..start.wrapping_add(span.steps()))
    else {
        return 0;
    };
    let mut from = at(path, 0, 6);
    let mut cost = 0u64;
    if span.constant && has_register(from as usize) {
        cost = u64::from(rate.ways.set);
    }
    for to in path {
        if *to != from {
            let moves = &rate.moves[from as usize % 16];
            cost = cost.wrapping_add(u64::from(at(moves, *to as usize, 0)));
        }
        from = *to;
    }
    cost
}

// Whether a strand is tied at a step. An entry and an exit are alone in theirs.
fn is_tied_at(span: &Span, step: usize) -> bool {
    (step == 0 && span.entry().is_some()) || (step == span.last_step() && span.exit().is_some())
}
