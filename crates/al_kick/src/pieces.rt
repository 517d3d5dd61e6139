// Pieces: strands that are tied to each other, which go to another place together.

use crate::lists::{at, put};
use crate::reroute::Penalty;
use crate::rows::{FAR, MEMORY, Row};
use crate::search::Search;
use crate::spans::{Span, range};
use net_form::Net;

// What a piece pays by the places of its groups, in units.
type Sums = [u64; 16];

// The sum at a place where the piece cannot be.
const CLOSED: u64 = 1 << 60;

// The place of the least sum, the first of these from a place on.
fn first_of_least(sums: &Sums, turn: usize) -> usize {
    let mut best = MEMORY;
    let mut least = u64::MAX;
    let mut place = turn;
    for _ in 0..14u8 {
        let sum = at(sums, place, CLOSED);
        if sum < least {
            least = sum;
            best = place;
        }
        place = if place < 13 { place.wrapping_add(1) } else { 0 };
    }
    best
}

impl Search {
    /// No strand is in the piece.
    pub(crate) fn begin_piece(&mut self) {
        self.piece.strands.clear();
        self.piece.has.clear();
        self.piece.groups.clear();
    }

    /// Adds a strand to the piece.
    pub(crate) fn add_strand(&mut self, strand: usize) {
        if self.piece.has.add(strand) {
            self.piece.strands.push(strand);
        }
    }

    /// Adds a tie group and the strands at it to the piece, and says whether it is new.
    pub(crate) fn add_group(&mut self, net: &Net, group: usize) -> bool {
        if !self.piece.groups.add(group) {
            return false;
        }
        let (from, to) = range(net.index.groups.as_slice(), group);
        for number in from..to {
            if let Some(end) = net.index.members.get(number) {
                self.add_strand(end.strand as usize);
            }
        }
        true
    }

    // Adds a tie group, if there is one and the piece has fewer groups than it may have.
    fn add_if(&mut self, net: &Net, group: Option<usize>, groups: usize, most: usize) -> usize {
        if let Some(group) = group {
            if groups < most && self.add_group(net, group) {
                return groups.saturating_add(1);
            }
        }
        groups
    }

    /// The piece becomes a strand and so many tie groups around it at most.
    pub(crate) fn gather(&mut self, net: &Net, strand: usize, most: usize) {
        self.begin_piece();
        self.add_strand(strand);
        let mut groups = 0usize;
        for number in 0..self.spans.len() {
            if number >= self.piece.strands.count() || groups >= most {
                return;
            }
            let span = self.span(self.piece.strands.at(number));
            groups = self.add_if(net, span.entry(), groups, most);
            groups = self.add_if(net, span.exit(), groups, most);
        }
    }

    /// The piece becomes the variable of a strand, with all its tie groups.
    pub(crate) fn gather_all(&mut self, net: &Net, strand: usize) {
        self.gather(net, strand, usize::MAX);
    }

    /// Learns of each strand how many layers its variable has.
    pub(crate) fn measure_variables(&mut self, net: &Net) {
        for strand in 0..self.spans.len() {
            if at(&self.variables, strand, 0) > 0 {
                continue;
            }
            self.gather_all(net, strand);
            let mut layers = 0u32;
            for number in 0..self.piece.strands.count() {
                let span = self.span(self.piece.strands.at(number));
                layers = layers.saturating_add(u32::try_from(span.len()).unwrap_or(u32::MAX));
            }
            for number in 0..self.piece.strands.count() {
                let other = self.piece.strands.at(number);
                put(&mut self.variables, other, layers);
            }
        }
    }

    fn has_group(&self, group: Option<usize>) -> bool {
        match group {
            Some(group) => self.piece.groups.has(group),
            None => false,
        }
    }

    // Whether the entry and the exit of a strand move with the piece.
    fn moves(&self, span: &Span) -> (bool, bool) {
        (self.has_group(span.entry()), self.has_group(span.exit()))
    }

    // What is to be paid at a place, in units, by costs of a strand.
    fn units(&self, span: &Span, row: &Row, place: usize) -> u64 {
        let cost = at(row, place, FAR);
        if cost < FAR {
            u64::from(cost).wrapping_mul(self.times(span))
        } else {
            CLOSED
        }
    }

    // Adds what is to be paid at each place, in units.
    fn add_costs(&self, span: &Span, row: &Row, sums: &mut Sums) {
        let times = self.times(span);
        for p in 0..16usize {
            let more = u64::from(row[p]).wrapping_mul(times);
            sums[p] = sums[p].saturating_add(if row[p] < FAR { more } else { CLOSED });
        }
    }

    // Adds what a strand with one moving end pays, by the place of that end.
    fn add_one_end(&mut self, net: &Net, strand: usize, begin: usize, sums: &mut Sums) {
        let span = self.span(strand);
        let (first, last) = self.end_places(&span);
        let (entry, exit) = self.moves(&span);
        if entry && exit {
            self.close_sums(net, strand, sums);
        } else if entry {
            let row = self.cost_by_entry(&span, begin, last);
            self.add_costs(&span, &row, sums);
        } else if exit {
            let row = self.cost_by_exit(&span, begin, first);
            self.add_costs(&span, &row, sums);
        }
    }

    // Closes the places at which a strand cannot have both its ends.
    fn close_sums(&self, net: &Net, strand: usize, sums: &mut Sums) {
        let Some(strand) = net.strands.get(strand) else {
            return;
        };
        let masks = strand.masks.as_slice();
        let Some(first) = masks.first() else {
            return;
        };
        let Some(last) = masks.last() else {
            return;
        };
        for p in 0..14usize {
            if ((*first & *last) >> p) & 1 == 0 {
                sums[p] = CLOSED;
            }
        }
    }

    // What the strands with one moving end pay, by the place of that end.
    fn sums_of_one_end(&mut self, net: &Net) -> Sums {
        let mut sums = [0u64; 16];
        let mut begin = 0usize;
        for number in 0..self.piece.strands.count() {
            let strand = self.piece.strands.at(number);
            self.add_one_end(net, strand, begin, &mut sums);
            begin = begin.wrapping_add(self.span(strand).steps());
        }
        sums
    }

    // Adds what the strands pay at least both of whose ends move, by the place of their entries.
    fn add_bounds(&mut self, bounds: &mut Sums) {
        let mut begin = 0usize;
        for number in 0..self.piece.strands.count() {
            let span = self.span(self.piece.strands.at(number));
            if self.moves(&span) == (true, true) {
                let row = self.cost_by_entry(&span, begin, None);
                self.add_costs(&span, &row, bounds);
            }
            begin = begin.wrapping_add(span.steps());
        }
    }

    // What the strands pay both of whose ends move, at a place; so much at least where it is no
    // less than the least so far.
    fn both_ends(&mut self, place: usize, begun: u64, least: u64) -> u64 {
        let mut sum = begun;
        let mut begin = 0usize;
        for number in 0..self.piece.strands.count() {
            if sum >= least {
                return sum;
            }
            let span = self.span(self.piece.strands.at(number));
            if self.moves(&span) == (true, true) {
                let row = self.cost_by_entry(&span, begin, Some(place));
                sum = sum.saturating_add(self.units(&span, &row, place));
            }
            begin = begin.wrapping_add(span.steps());
        }
        sum
    }

    // The place at which the piece pays least where its groups are all there, and what it pays, or
    // so much where it pays no less anywhere, by its rows. Places are asked by what they cost at
    // least, and none that costs too much by that alone.
    fn choose_place(&mut self, net: &Net, most: u64) -> (usize, u64) {
        let sums = self.sums_of_one_end(net);
        let mut bounds = sums;
        self.add_bounds(&mut bounds);
        let turn = self.draws.below(14);
        let mut best = first_of_least(&bounds, turn);
        let mut least = most;
        for _ in 0..14u8 {
            let place = first_of_least(&bounds, turn);
            if at(&bounds, place, CLOSED) >= least.min(CLOSED) {
                break;
            }
            put(&mut bounds, place, CLOSED);
            let sum = self.both_ends(place, at(&sums, place, CLOSED), least);
            if sum < least {
                least = sum;
                best = place;
            }
        }
        (best, least)
    }

    // Gives the strands of the piece, which are in no cell, least paths with its groups at a place,
    // by its rows.
    fn lay_at(&mut self, place: usize) {
        let mut begin = 0usize;
        for number in 0..self.piece.strands.count() {
            let span = self.span(self.piece.strands.at(number));
            let (first, last) = self.end_places(&span);
            let (entry, exit) = self.moves(&span);
            let ends = (
                if entry { Some(place) } else { first },
                if exit { Some(place) } else { last },
            );
            self.lay_path(&span, begin, ends);
            begin = begin.wrapping_add(span.steps());
        }
    }

    /// Gives the strands of the piece, which are in no cell, least paths with its groups at one
    /// place.
    pub(crate) fn route_piece(&mut self, net: &Net, penalty: Penalty) {
        self.fill_piece(net, penalty);
        let (place, _) = self.choose_place(net, u64::MAX);
        self.lay_at(place);
    }

    // What the strands of the piece pay, and how much more than they would alone.
    fn piece_worth(&self) -> (u64, u64) {
        let mut sum = 0u64;
        let mut excess = 0u64;
        for number in 0..self.piece.strands.count() {
            let strand = self.piece.strands.at(number);
            sum = sum.wrapping_add(self.worth(strand));
            excess = excess.saturating_add(self.excess(strand));
        }
        (sum, excess)
    }

    /// Gives the strands of the piece cheaper paths past all others, with its groups at one place,
    /// if there are some, and says whether there were.
    pub(crate) fn settle_piece(&mut self, net: &Net) -> bool {
        let (worth, excess) = self.piece_worth();
        if excess == 0 {
            return false;
        }
        self.fill_piece(net, Penalty::Closed);
        let (place, least) = self.choose_place(net, worth);
        if least >= worth {
            return false;
        }
        self.release_piece(net);
        self.fill_piece(net, Penalty::Closed);
        self.lay_at(place);
        self.take_piece(net);
        true
    }

    /// The strands of the piece leave their cells.
    pub(crate) fn release_piece(&mut self, net: &Net) {
        for number in 0..self.piece.strands.count() {
            let strand = self.piece.strands.at(number);
            self.release(net, strand);
        }
    }

    /// The strands of the piece come to their cells.
    pub(crate) fn take_piece(&mut self, net: &Net) {
        for number in 0..self.piece.strands.count() {
            let strand = self.piece.strands.at(number);
            self.take(net, strand);
        }
    }

    /// Takes the piece out, gives it least paths, and puts it back.
    pub(crate) fn reroute_piece(&mut self, net: &Net, penalty: Penalty) {
        self.release_piece(net);
        self.route_piece(net, penalty);
        self.take_piece(net);
    }
}
