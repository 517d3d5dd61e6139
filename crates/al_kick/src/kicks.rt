// Kicks: a piece is routed as if nobody else were there, and whoever overlaps then makes room, and
// pays for cells in which others are, until nobody overlaps. What is cheaper stays.
//
// The penalties and the history are those of negotiated congestion (McMurchie and Ebeling,
// PathFinder: A Negotiation-Based Performance-Driven Router for FPGAs, FPGA 1995); that a local
// search goes on from a small random change of the best, and back where that brings nothing, is
// iterated local search (Lourenço, Martin and Stützle, Handbook of Metaheuristics, 2003).

use crate::negotiate::thousandths;
use crate::rates::WHOLE;
use crate::reroute::Penalty;
use crate::search::Search;
use crate::spans::{Span, range};
use net_form::Net;

// Passes over those that overlap, at most.
const MOST_PASSES: u32 = 30;

// For so many passes a kicked piece stands still.
const STILL: u32 = 3;

// A penalty at first, in units of 1/1,000, and by how many thousandths it grows with each pass.
const PENALTY: u64 = 50;

const GROWTH: u64 = 1400;

// What history grows by where strands overlap, for each of them, in thousandths of a unit.
const HISTORY: u64 = 50;

// The penalty in a window, in thousandths of a unit.
const IN_WINDOW: u64 = 100;

// Who makes room may cost so many units more than all did before a kick.
const ALLOWANCE: u64 = 2 * WHOLE;

impl Search {
    // Some strand, more often one that pays more than it would alone.
    fn draw_strand(&mut self) -> usize {
        let count = self.spans.len();
        let mut strand = self.draws.below(count);
        for _ in 0..2u8 {
            if self.excess(strand) > 0 {
                return strand;
            }
            strand = self.draws.below(count);
        }
        strand
    }

    // By how many units the cells of a kicked piece become dearer.
    fn draw_units(&mut self) -> u64 {
        match self.draws.below(3) {
            0 => 0,
            1 => 1,
            _ => 4,
        }
    }

    // Routes a piece as if nobody else were there.
    fn kick_piece(&mut self, net: &Net) {
        let strand = self.draw_strand();
        let most = if self.draws.below(2) == 0 {
            0
        } else {
            self.draws.below(8).saturating_add(1)
        };
        self.gather(net, strand, most);
        let dearer = thousandths(self.draw_units().saturating_mul(1000));
        for number in 0..self.piece.strands.count() {
            let strand = self.piece.strands.at(number);
            self.heat_path(strand, dearer);
        }
        self.release_piece(net);
        self.route_piece(net, Penalty::of(0));
        self.cells.cool();
        self.take_piece(net);
        for number in 0..self.piece.strands.count() {
            let strand = self.piece.strands.at(number);
            self.log.still.add(strand);
        }
    }

    // Lists the strands of a block that stand between layers.
    fn list_window(&mut self, net: &Net, block: usize, from_layer: usize, to_layer: usize) {
        self.log.list.clear();
        let (from, to) = range(net.index.strands.as_slice(), block);
        for strand in from..to {
            let span = self.span(strand);
            if span.first() >= to_layer {
                return;
            }
            if span.end() > from_layer {
                self.log.list.push(strand);
            }
        }
    }

    // The piece becomes some strands that cross a window around a layer of a strand.
    fn gather_window(&mut self, net: &Net, span: &Span) {
        let width = self.draws.below(15).saturating_add(4);
        let layer = span.first().wrapping_add(self.draws.below(span.len()));
        let from_layer = layer.saturating_sub(width / 2);
        self.list_window(
            net,
            span.block(),
            from_layer,
            from_layer.saturating_add(width),
        );
        self.begin_piece();
        let count = self.draws.below(3).saturating_add(2);
        for _ in 0..count {
            let drawn = self.draws.below(self.log.list.count());
            let strand = self.log.list.at(drawn);
            self.add_strand(strand);
        }
    }

    // Routes strands that cross a window one after the other, with a small penalty.
    fn kick_window(&mut self, net: &Net) {
        let strand = self.draw_strand();
        let span = self.span(strand);
        self.gather_window(net, &span);
        self.release_piece(net);
        let penalty = Penalty::of(thousandths(IN_WINDOW));
        for number in 0..self.piece.strands.count() {
            let strand = self.piece.strands.at(number);
            let ends = self.end_places(&self.span(strand));
            self.route(net, strand, ends, penalty);
            self.take(net, strand);
        }
    }

    // Whether a strand of the piece stands still.
    fn piece_is_still(&self) -> bool {
        for number in 0..self.piece.strands.count() {
            if self.log.still.has(self.piece.strands.at(number)) {
                return true;
            }
        }
        false
    }

    // Makes room at the tie groups of a strand, and says whether it could.
    fn make_room_at_ties(&mut self, net: &Net, span: &Span, still: bool, penalty: Penalty) -> bool {
        let mut done = false;
        for group in [span.entry(), span.exit()] {
            if let Some(group) = group {
                self.begin_piece();
                self.add_group(net, group);
                if !(still && self.piece_is_still()) {
                    self.reroute_piece(net, penalty);
                    done = true;
                }
            }
        }
        done
    }

    // A strand that overlaps makes room.
    fn make_room(&mut self, net: &Net, strand: usize, pass: u32, penalty: Penalty) {
        let (anywhere, tied) = self.overlaps(net, strand);
        if !anywhere {
            return;
        }
        let still = pass < STILL;
        if still && self.log.still.has(strand) {
            self.log.note_overlap(strand);
            return;
        }
        let span = self.span(strand);
        let with_ties = tied || pass % 4 == 3;
        if with_ties && self.make_room_at_ties(net, &span, still, penalty) {
            return;
        }
        self.reroute(net, strand, penalty);
    }

    // Those that overlap become the queue, in random order.
    fn next_queue(&mut self) {
        self.log.queue.clear();
        for number in 0..self.log.next.count() {
            let strand = self.log.next.at(number);
            self.log.queue.push(strand);
        }
        self.log.next.clear();
        self.log.is_next.clear();
        self.draws.shuffle(&mut self.log.queue);
    }

    // What all may cost while others make room for the changed strands: a kick that has made them
    // dearer than that seldom comes to be cheaper in the end.
    fn most_cost(&self, before: u64) -> u64 {
        let mut times = 1u64;
        for number in 0..self.log.changed.count() {
            let span = self.span(self.log.changed.at(number));
            times = times.max(self.times(&span));
        }
        before.saturating_add(ALLOWANCE.saturating_mul(times))
    }

    // Passes over those that overlap, until nobody does, or all cost more than this.
    fn untangle(&mut self, net: &Net, most: u64) {
        let mut penalty = PENALTY;
        for pass in 0..MOST_PASSES {
            if self.cells.overlaps == 0 || self.paths.total > most {
                return;
            }
            self.next_queue();
            for number in 0..self.log.queue.count() {
                let strand = self.log.queue.at(number);
                self.make_room(net, strand, pass, Penalty::of(thousandths(penalty)));
            }
            for number in 0..self.log.next.count() {
                let strand = self.log.next.at(number);
                self.heat_overlaps(net, strand, thousandths(HISTORY));
            }
            penalty = penalty.saturating_mul(GROWTH) / 1000;
        }
    }

    /// Keeps what changed, or gives it back where strands overlap or all cost more than before.
    pub(crate) fn end_kick(&mut self, net: &Net, before: u64) {
        if self.cells.overlaps == 0 && self.paths.total <= before {
            self.keep_changed();
        } else {
            self.undo(net);
        }
    }

    /// One kick, and what comes of it.
    pub(crate) fn kick_once(&mut self, net: &Net) {
        let before = self.paths.total;
        self.begin_kick();
        if self.draws.below(2) == 0 {
            self.kick_piece(net);
        } else {
            self.kick_window(net);
        }
        if self.cells.overlaps == 0 && !self.is_changed() {
            return;
        }
        let most = self.most_cost(before);
        self.untangle(net, most);
        self.cells.cool();
        if self.cells.overlaps == 0 {
            self.settle_around(net);
        }
        self.end_kick(net, before);
    }
}
