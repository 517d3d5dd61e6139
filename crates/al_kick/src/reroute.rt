// A least path of one strand past all others, where it costs a penalty to come to a cell in which
// others are.

use crate::lanes::{
    RegisterCosts, charges, counted, least_cost, least_place, most_of, next_place, open_row,
    paid_back, paid_forth, pay_back, row_of,
};
use crate::lists::{at, put};
use crate::rates::{NO_WAYS, Ways};
use crate::rows::{FAR, MEMORY, Row, close_others};
use crate::search::{NO_EXTRA, Search};
use crate::spans::{Span, range};
use crate::strands::pair_end;
use net_form::Net;

/// No penalty is more, but FAR.
pub(crate) const MOST_PENALTY: u32 = 1 << 22;

/// What it costs to come to a cell in which others are.
#[derive(Clone, Copy)]
pub(crate) enum Penalty {
    /// Nobody can come there. A strand that is in cells itself is no other one to itself.
    Closed,
    /// So many scaled units for each of them, besides history.
    Each(u32),
}

impl Penalty {
    /// So many scaled units for each.
    pub fn of(units: u32) -> Penalty {
        Penalty::Each(units.min(MOST_PENALTY))
    }
}

/// The places of a strand's entry and of its exit, if they are named.
pub(crate) type Ends = (Option<usize>, Option<usize>);

// What so many others cost, and what was added for those of the past.
fn charge(each: u32, others: u32, history: u32) -> u32 {
    let now = others.min(255).wrapping_mul(each);
    now.wrapping_add(history).min(FAR)
}

// Adds to what is paid at a place of a step.
fn pay(rows: &mut [Row], step: usize, place: usize, more: u32) {
    if let Some(row) = rows.get_mut(step) {
        let cost = at(row, place, FAR);
        put(row, place, cost.wrapping_add(more).min(FAR));
    }
}

impl Search {
    // What is paid for the registers at all steps of a strand, where each other one costs so much.
    fn pay_registers(&mut self, span: &Span, each: u32, begin: usize) {
        let to = span.layer().wrapping_add(span.len());
        let Some(cells) = self.cells.layers.get(span.layer()..to) else {
            return;
        };
        let end = span.start().wrapping_add(span.steps());
        let Some(masks) = self.masks.get(span.start()..end) else {
            return;
        };
        for step in 0..span.steps() {
            let mut others = RegisterCosts::splat(0);
            let mut history = RegisterCosts::splat(0);
            let (one, other) = span.pair_of(step);
            if let Some(cell) = cells.get(one) {
                others = counted(&cell.count);
                history = RegisterCosts::from_array(cell.history);
            }
            if let Some(cell) = cells.get(other) {
                others += counted(&cell.count);
                history += RegisterCosts::from_array(cell.history);
            }
            let costs = charges(each, others, history);
            let row = row_of(at(masks, step, 0), costs);
            put(&mut self.rows, begin.wrapping_add(step), row);
        }
    }

    // The places at the steps of a strand at which no other one is.
    fn close_registers(&mut self, span: &Span, begin: usize) {
        let to = span.layer().wrapping_add(span.len());
        let Some(cells) = self.cells.layers.get(span.layer()..to) else {
            return;
        };
        let end = span.start().wrapping_add(span.steps());
        let Some(masks) = self.masks.get(span.start()..end) else {
            return;
        };
        let Some(places) = self.paths.now.get(span.start()..end) else {
            return;
        };
        for step in 0..span.steps() {
            let mut count = RegisterCosts::splat(0);
            let (one, other) = span.pair_of(step);
            if let Some(cell) = cells.get(one) {
                count = most_of(count, &cell.count);
            }
            if let Some(cell) = cells.get(other) {
                count = most_of(count, &cell.count);
            }
            let own = u32::from(at(places, step, 6) % 8);
            let row = open_row(at(masks, step, 0), count, own);
            put(&mut self.rows, begin.wrapping_add(step), row);
        }
    }

    // And for extras.
    fn pay_extras(&mut self, net: &Net, strand: usize, begin: usize) {
        let (from, to) = range(net.index.extras.as_slice(), strand);
        for number in from..to {
            let extra = at(&self.extras, number, NO_EXTRA);
            pay(
                &mut self.rows,
                begin.wrapping_add(extra.step as usize),
                extra.place as usize,
                extra.scaled,
            );
        }
    }

    // What it costs a strand to be in memory at an end of a pair.
    fn pair_cost(&self, span: &Span, step: usize, pair: usize, penalty: Penalty) -> u32 {
        let Some(cell) = self.cells.pairs.get(pair) else {
            return 0;
        };
        match penalty {
            Penalty::Each(each) => charge(each, cell.count, cell.history),
            Penalty::Closed => {
                let own = u32::from(self.place(span, step) == MEMORY);
                if cell.count > own { FAR } else { 0 }
            }
        }
    }

    // And for memory pairs.
    fn pay_pairs(&mut self, net: &Net, strand: usize, span: &Span, penalty: Penalty, begin: usize) {
        let (from, to) = range(net.index.pairs.as_slice(), strand);
        for number in from..to {
            if let Some(end) = pair_end(net, number) {
                let step = span.step_of((end.layer as usize).wrapping_sub(span.first()));
                let more = self.pair_cost(span, step, end.pair as usize, penalty);
                pay(&mut self.rows, begin.wrapping_add(step), MEMORY, more);
            }
        }
    }

    // A constant that begins in a register is made there.
    fn pay_constant(&mut self, span: &Span, begin: usize) {
        if !span.constant {
            return;
        }
        let set = self.ways(span).set;
        for r in 0..6usize {
            pay(&mut self.rows, begin, r, set);
            pay(&mut self.rows, begin, r.wrapping_add(8), set);
        }
    }

    /// What is paid at each place of each step of a strand, in rows from one on.
    pub(crate) fn fill_rows(&mut self, net: &Net, strand: usize, penalty: Penalty, begin: usize) {
        let span = self.span(strand);
        match penalty {
            Penalty::Closed => self.close_registers(&span, begin),
            Penalty::Each(each) => self.pay_registers(&span, each, begin),
        }
        self.pay_extras(net, strand, begin);
        self.pay_pairs(net, strand, &span, penalty, begin);
        self.pay_constant(&span, begin);
    }

    /// The same of each strand of the piece, one behind the other.
    pub(crate) fn fill_piece(&mut self, net: &Net, penalty: Penalty) {
        let mut begin = 0usize;
        for number in 0..self.piece.strands.count() {
            let strand = self.piece.strands.at(number);
            self.fill_rows(net, strand, penalty, begin);
            begin = begin.wrapping_add(self.span(strand).steps());
        }
    }

    // Closes all places of a row but one, if one is named.
    fn fix(&mut self, row: usize, place: Option<usize>) {
        if let Some(place) = place {
            if let Some(row) = self.rows.get_mut(row) {
                close_others(row, place);
            }
        }
    }

    // What ways cost along a strand.
    fn ways(&self, span: &Span) -> Ways {
        match self.rates.get(span.depth() as usize) {
            Some(rate) => rate.ways,
            None => NO_WAYS,
        }
    }

    // The rows of a strand, from one on.
    fn filled(&self, span: &Span, begin: usize) -> &[Row] {
        match self.rows.get(begin..begin.wrapping_add(span.steps())) {
            Some(rows) => rows,
            None => &[],
        }
    }

    /// What a strand is to pay from each place of its first step on, whose rows begin there, where
    /// it ends at a place, if one is named. Its layers are visited.
    pub(crate) fn cost_by_entry(&mut self, span: &Span, begin: usize, end: Option<usize>) -> Row {
        self.visit(span);
        paid_back(&self.ways(span), self.filled(span, begin), end)
    }

    /// What it is to pay up to each place of its last step, where it begins at a place, if one is
    /// named.
    pub(crate) fn cost_by_exit(&mut self, span: &Span, begin: usize, entry: Option<usize>) -> Row {
        self.visit(span);
        paid_forth(&self.ways(span), self.filled(span, begin), entry)
    }

    // A least path goes over the layers of a strand.
    fn visit(&mut self, span: &Span) {
        self.visits = self.visits.saturating_add(span.len() as u64);
    }

    // From what is paid at each step of a strand to what is to be paid from there on, between these
    // ends.
    fn pay_between(&mut self, span: &Span, begin: usize, ends: Ends) {
        self.visit(span);
        self.fix(begin, ends.0);
        self.fix(begin.wrapping_add(span.last_step()), ends.1);
        let ways = self.ways(span);
        pay_back(&ways, &mut self.rows, begin, span.steps());
    }

    // Goes along a least path, by what is to be paid from each step on.
    fn read_path(&mut self, span: &Span, begin: usize) {
        let Some(rate) = self.rates.get(span.depth() as usize) else {
            return;
        };
        let turn = self.draws.below(14);
        let mut place = MEMORY;
        for step in 0..span.steps() {
            if let Some(row) = self.rows.get(begin.wrapping_add(step)) {
                place = if step == 0 {
                    least_place(row, turn)
                } else {
                    next_place(&rate.moves[place % 16], row, place, turn)
                };
            }
            put(
                &mut self.paths.now,
                span.start().wrapping_add(step),
                byte(place),
            );
        }
    }

    /// Gives a strand, whose rows begin there, a least path between these ends.
    pub(crate) fn lay_path(&mut self, span: &Span, begin: usize, ends: Ends) {
        self.pay_between(span, begin, ends);
        self.read_path(span, begin);
    }

    /// Gives a strand a least path between these ends.
    pub(crate) fn route(&mut self, net: &Net, strand: usize, ends: Ends, penalty: Penalty) {
        self.fill_rows(net, strand, penalty, 0);
        self.lay_path(&self.span(strand), 0, ends);
    }

    /// Gives a strand a cheaper path past all others that keeps its tied ends, if there is one.
    pub(crate) fn settle_strand(&mut self, net: &Net, strand: usize) {
        let span = self.span(strand);
        let ends = self.end_places(&span);
        self.fill_rows(net, strand, Penalty::Closed, 0);
        self.pay_between(&span, 0, ends);
        let least = u64::from(least_cost(&at(&self.rows, 0, [FAR; 16])));
        if least.saturating_mul(self.times(&span)) < self.worth(strand) {
            self.release(net, strand);
            self.read_path(&span, 0);
            self.take(net, strand);
        }
    }

    /// Takes a strand out, gives it a least path that keeps its tied ends, and puts it back.
    pub(crate) fn reroute(&mut self, net: &Net, strand: usize, penalty: Penalty) {
        self.release(net, strand);
        let ends = self.end_places(&self.span(strand));
        self.route(net, strand, ends, penalty);
        self.take(net, strand);
    }
}

// The number of a place as a byte.
fn byte(place: usize) -> u8 {
    u8::try_from(place).unwrap_or(6)
}
