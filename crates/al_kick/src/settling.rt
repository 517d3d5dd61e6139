// Settling around what a kick changed: who can take a cell that became free, alone or with all that
// are tied to it.
//
// Nothing is promised of it: routes that are chosen at last are settled as a whole.

use crate::lists::at;
use crate::rows::{CONSTANT, MEMORY};
use crate::search::Search;
use crate::spans::{Span, range};
use net_form::Net;

// A variable of more layers than this is not settled after a kick.
const SMALL: usize = 500;

// How often all is settled at most where routes are made from nothing.
const MOST_PASSES: u32 = 20;

impl Search {
    // The place that a strand has left at a step, if what it left can be of use to others.
    fn left_place(&self, span: &Span, step: usize) -> Option<usize> {
        let old = at(&self.paths.kept, span.start().wrapping_add(step), 6) as usize;
        (old != CONSTANT && old != self.place(span, step)).then_some(old)
    }

    // From which layer on to which one, among those of all blocks, a strand freed cells.
    fn freed(&self, span: &Span) -> (usize, usize) {
        let mut from = usize::MAX;
        let mut to = 0usize;
        let mut layers = span.first_layers();
        for step in 0..span.steps() {
            if let Some(old) = self.left_place(span, step) {
                for layer in layers.from..layers.to {
                    if old == MEMORY || self.cells.count(layer, old) == 0 {
                        from = from.min(layer);
                        to = layer.wrapping_add(1);
                    }
                }
            }
            layers = layers.next();
        }
        (from, to)
    }

    // Lists a strand that pays more than it would alone.
    fn list_paying(&mut self, strand: usize) {
        if self.excess(strand) > 0 && self.log.is_listed.add(strand) {
            self.log.list.push(strand);
        }
    }

    // Lists the strands of a block that pay and stand between layers.
    fn list_between(&mut self, net: &Net, block: usize, between: (usize, usize)) {
        if between.0 >= between.1 {
            return;
        }
        let (from, to) = range(net.index.strands.as_slice(), block);
        for strand in from..to {
            let span = self.span(strand);
            if span.layer() >= between.1 {
                return;
            }
            if span.layer().wrapping_add(span.len()) > between.0 {
                self.list_paying(strand);
            }
        }
    }

    // Settles each strand of the list alone.
    fn settle_strands(&mut self, net: &Net) {
        for number in 0..self.log.list.count() {
            let strand = self.log.list.at(number);
            if self.excess(strand) > 0 {
                self.settle_strand(net, strand);
            }
        }
    }

    // Settles a tie group of a strand that pays, unless it was asked since anything changed.
    fn settle_group(&mut self, net: &Net, strand: usize, group: Option<usize>) {
        if self.excess(strand) == 0 {
            return;
        }
        if let Some(group) = group {
            if self.log.groups.add(group) {
                self.begin_piece();
                self.add_group(net, group);
                if self.settle_piece(net) {
                    self.log.groups.clear();
                }
            }
        }
    }

    // Settles the tie groups of the strands of the list.
    fn settle_groups(&mut self, net: &Net) {
        self.log.groups.clear();
        for number in 0..self.log.list.count() {
            let strand = self.log.list.at(number);
            let span = self.span(strand);
            self.settle_group(net, strand, span.entry());
            self.settle_group(net, strand, span.exit());
        }
    }

    // Settles the variable of a strand, if it has no more layers than this, unless it was asked
    // since anything changed.
    fn settle_variable(&mut self, net: &Net, strand: usize, most: usize) {
        let layers = at(&self.variables, strand, 0) as usize;
        if self.log.asked.has(strand) || layers > most {
            return;
        }
        self.gather_all(net, strand);
        if self.settle_piece(net) {
            self.log.asked.clear();
            return;
        }
        for number in 0..self.piece.strands.count() {
            self.log.asked.add(self.piece.strands.at(number));
        }
    }

    // Settles the variables of the strands of the list, if they have no more layers than this.
    fn settle_variables(&mut self, net: &Net, most: usize) {
        self.log.asked.clear();
        for number in 0..self.log.list.count() {
            let strand = self.log.list.at(number);
            let span = self.span(strand);
            let is_tied = span.entry().is_some() || span.exit().is_some();
            if self.is_spent() {
                return;
            }
            if is_tied && self.excess(strand) > 0 {
                self.settle_variable(net, strand, most);
            }
        }
    }

    /// Settles around the changed strands.
    pub(crate) fn settle_around(&mut self, net: &Net) {
        self.log.list.clear();
        self.log.is_listed.clear();
        for number in 0..self.log.changed.count() {
            let strand = self.log.changed.at(number);
            let span = self.span(strand);
            self.list_paying(strand);
            let between = self.freed(&span);
            self.list_between(net, span.block(), between);
        }
        self.settle_strands(net);
        self.settle_groups(net);
        self.settle_variables(net, SMALL);
    }

    /// Settles all strands, until that brings nothing more.
    pub(crate) fn settle_all(&mut self, net: &Net) {
        for _ in 0..MOST_PASSES {
            let before = self.paths.total;
            self.log.list.clear();
            self.log.is_listed.clear();
            for strand in 0..self.spans.len() {
                self.list_paying(strand);
            }
            self.settle_strands(net);
            self.settle_groups(net);
            self.settle_variables(net, usize::MAX);
            if self.paths.total == before || self.is_spent() {
                return;
            }
        }
    }
}
