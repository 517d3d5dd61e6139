// Routes from nothing: all variables take least paths again and again, and pay for cells by their
// prices, and where others are, more with each pass, until nobody overlaps (McMurchie and Ebeling,
// PathFinder: A Negotiation-Based Performance-Driven Router for FPGAs, FPGA 1995).

use crate::rates::WHOLE;
use crate::reroute::{MOST_PENALTY, Penalty};
use crate::search::Search;
use net_form::Net;

// Passes over all strands at most, and of how many one is over whole variables.
const MOST_PASSES: u32 = 60;

const WHOLE_PASS: u32 = 2;

// A penalty at first, in thousandths of a unit, and by how many thousandths it grows with each
// pass.
const PENALTY: u64 = 25;

const GROWTH: u64 = 1200;

// What history grows by where strands overlap, for each of them, in thousandths of a unit.
const HISTORY: u64 = 25;

/// So many thousandths of a unit, in scaled units.
pub(crate) fn thousandths(many: u64) -> u32 {
    let count = WHOLE.saturating_mul(many) / 1000;
    u32::try_from(count).unwrap_or(MOST_PENALTY)
}

impl Search {
    // All strands, in random order, and none of them done.
    fn shuffle_all(&mut self) {
        self.log.queue.clear();
        for strand in 0..self.spans.len() {
            self.log.queue.push(strand);
        }
        self.draws.shuffle(&mut self.log.queue);
        self.log.is_listed.clear();
        self.log.groups.clear();
    }

    // The variable of a strand goes to one place wherever it is tied, if it did not in this pass.
    fn pass_variable(&mut self, net: &Net, strand: usize, penalty: Penalty) {
        if !self.log.is_listed.add(strand) {
            return;
        }
        self.gather_all(net, strand);
        for number in 0..self.piece.strands.count() {
            let other = self.piece.strands.at(number);
            self.log.is_listed.add(other);
        }
        self.reroute_piece(net, penalty);
    }

    // The tie groups of a strand go to other places, each that did not in this pass; a strand that
    // is not tied goes alone.
    fn pass_groups(&mut self, net: &Net, strand: usize, penalty: Penalty) {
        let span = self.span(strand);
        if span.entry().is_none() && span.exit().is_none() {
            self.reroute(net, strand, penalty);
            return;
        }
        for group in [span.entry(), span.exit()] {
            if let Some(group) = group {
                if self.log.groups.add(group) {
                    self.begin_piece();
                    self.add_group(net, group);
                    self.reroute_piece(net, penalty);
                }
            }
        }
    }

    // All variables go once.
    fn pass(&mut self, net: &Net, whole: bool, penalty: Penalty) {
        self.shuffle_all();
        for number in 0..self.log.queue.count() {
            let strand = self.log.queue.at(number);
            if whole {
                self.pass_variable(net, strand, penalty);
            } else {
                self.pass_groups(net, strand, penalty);
            }
        }
    }

    /// Makes routes from nothing, settles them, and keeps them, whatever those before them cost.
    /// Where they don't come about, those before them stay.
    pub(crate) fn negotiate(&mut self, net: &Net) {
        self.begin_kick();
        let mut penalty = PENALTY;
        for number in 0..MOST_PASSES {
            if (number > 0 && self.cells.overlaps == 0) || self.is_spent() {
                break;
            }
            self.pass(
                net,
                number % WHOLE_PASS == 0,
                Penalty::of(thousandths(penalty)),
            );
            self.cells.heat_all(thousandths(HISTORY));
            penalty = penalty.saturating_mul(GROWTH) / 1000;
        }
        self.cells.cool();
        if self.cells.overlaps == 0 {
            self.settle_all(net);
        }
        self.end_kick(net, u64::MAX);
    }
}
