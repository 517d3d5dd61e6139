// Ties: what one side would pay to have the value at a place is handed to the other side.
//
// A tie adds a number for each place to what the strand pays that it goes from, and takes it off
// what the strand pays that it leads to. So numbers move what is to be paid from block to block.

use crate::lists::{at, put};
use crate::pace::{GREATEST, Pace};
use crate::room::Ascent;
use crate::rows::{CONSTANT, NOTHING, PLACES, Row, is_closed, least};
use net_form::{Net, Tie};

// What keeps one side from a place at which the other can't be.
const FAR: i32 = 1 << 25;

/// Who hands on: the strand that the tie goes from, as many ties wait for what it has; the strand
/// that it leads to; or both, half of what they have together.
#[derive(Clone, Copy)]
pub(crate) enum Handing {
    On(u32),
    Back(u32),
    Halves,
}

// One of so many shares, in multiples of the grain.
fn share(all: i32, shares: u32, pace: &Pace) -> i32 {
    let shares = i32::try_from(shares).unwrap_or(i32::MAX);
    let part = all.checked_div(shares).unwrap_or(all);
    pace.up_to(part, all)
}

// How much the number of a place moves. The two costs are those above the least of each side.
fn moved(handing: Handing, pace: &Pace, here: i32, there: i32) -> i32 {
    match handing {
        Handing::On(shares) => share(here, shares, pace).wrapping_neg(),
        Handing::Back(shares) => share(there, shares, pace),
        Handing::Halves => pace.halfway(here, there),
    }
}

// The same where one side can't be there or neither can.
fn moved_or_far(handing: Handing, pace: &Pace, from: (i32, i32), to: (i32, i32)) -> i32 {
    let here = from.0.wrapping_sub(from.1);
    let there = to.0.wrapping_sub(to.1);
    match (is_closed(from.0), is_closed(to.0)) {
        (true, true) => 0,
        (true, false) => { if there < FAR / 2 { -FAR } else { 0 } }
        (false, true) => { if here < FAR / 2 { FAR } else { 0 } }
        (false, false) => moved(handing, pace, here, there),
    }
}

// How much all numbers of a tie move. The constant's number stays 0, so all others move less what
// it would.
fn all_moved(handing: Handing, pace: &Pace, from: &Row, to: &Row) -> Row {
    let (least_from, least_to) = (least(from), least(to));
    let mut moved = NOTHING;
    for p in 0..PLACES {
        moved[p] = moved_or_far(handing, pace, (from[p], least_from), (to[p], least_to));
    }
    let base = moved[CONSTANT];
    for p in 0..PLACES {
        moved[p] = moved[p].wrapping_sub(base);
    }
    moved
}

// Moves the numbers of a tie, and gives how much they moved.
fn move_numbers(numbers: &mut Row, moved: &Row) -> Row {
    let mut done = NOTHING;
    for p in 0..PLACES {
        let old = numbers[p];
        let new = old.wrapping_add(moved[p]).min(GREATEST).max(-GREATEST);
        numbers[p] = new;
        done[p] = new.wrapping_sub(old);
    }
    done
}

// Adds to the open places of a row.
fn add_to_open(row: &mut Row, more: &Row, sign: i32) {
    for p in 0..PLACES {
        if !is_closed(row[p]) {
            row[p] = row[p].wrapping_add(more[p].wrapping_mul(sign));
        }
    }
}

impl Ascent {
    fn add_to_row(&mut self, row: usize, more: &Row, sign: i32) {
        let mut costs = at(&self.rows, row, NOTHING);
        add_to_open(&mut costs, more, sign);
        put(&mut self.rows, row, costs);
    }

    /// Moves the numbers of a tie. The rows of its strands are one the other way of the other: up
    /// to its exit, and from its entry on.
    pub fn hand(&mut self, number: usize, tie: Tie, handing: Handing, pace: &Pace) {
        let from = self.layout.span(tie.from as usize);
        let to = self.layout.span(tie.to as usize);
        let paid_from = self.priced_row(&from, from.last());
        let paid_to = self.priced_row(&to, to.first());
        let moved = all_moved(handing, pace, &paid_from, &paid_to);
        let mut numbers = at(&self.prices.ties, number, NOTHING);
        let done = move_numbers(&mut numbers, &moved);
        put(&mut self.prices.ties, number, numbers);
        self.add_to_row(from.row_at(from.last()), &done, 1);
        self.add_to_row(to.row_at(to.first()), &done, -1);
    }

    // One tie of a strand fewer waits, of so many.
    fn next_share(&mut self, strand: usize) -> u32 {
        let shares = at(&self.waiting, strand, 1);
        put(&mut self.waiting, strand, shares.saturating_sub(1));
        shares.max(1)
    }

    /// The strand that a tie goes from hands on its share.
    pub fn hand_on(&mut self, number: usize, tie: Tie, pace: &Pace) {
        let shares = self.next_share(tie.from as usize);
        self.hand(number, tie, Handing::On(shares), pace);
    }

    /// The strand that a tie leads to hands back its share.
    pub fn hand_back(&mut self, number: usize, tie: Tie, pace: &Pace) {
        let shares = self.next_share(tie.to as usize);
        self.hand(number, tie, Handing::Back(shares), pace);
    }

    // How many ties lead from each strand to later blocks, or to each from earlier ones.
    fn count_ties(&mut self, net: &Net, of_exits: bool) {
        for waiting in self.waiting.iter_mut() {
            *waiting = 0;
        }
        for tie in net.ties.as_slice() {
            let from = self.layout.span(tie.from as usize);
            let to = self.layout.span(tie.to as usize);
            if from.block() < to.block() {
                let strand = if of_exits { tie.from } else { tie.to } as usize;
                let count = at(&self.waiting, strand, 0);
                put(&mut self.waiting, strand, count.saturating_add(1));
            }
        }
    }

    /// All ties to later blocks wait to be handed on.
    pub fn wait_to_hand_on(&mut self, net: &Net) {
        self.count_ties(net, true);
    }

    /// All ties from earlier blocks wait to be handed back.
    pub fn wait_to_hand_back(&mut self, net: &Net) {
        self.count_ties(net, false);
    }
}

/// The tie of a number, which leads from another strand.
pub(crate) fn tie_between(net: &Net, number: usize) -> Option<Tie> {
    match net.ties.get(number) {
        Some(tie) if tie.from != tie.to => Some(*tie),
        _ => None,
    }
}
