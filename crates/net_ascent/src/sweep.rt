// Sweeps over all blocks, forwards and backwards in turn.

use crate::layout::{base_of, layers_of};
use crate::lists::{at, put, range};
use crate::pace::Pace;
use crate::room::{Ascent, Way};
use crate::rows::least;
use crate::ties::{Handing, tie_between};
use net_form::{Net, Tie};

// After so many sweeps those begin anew that give both sides of a back edge half.
const TURN: u32 = 4;

// So many turns that gain nothing end an ascent: in sixteen sweeps prices were set at each
// sixteenth of the way from the least to the greatest. Fewer end it too early.
const IDLE_TURNS: u8 = 4;

/// Which way a sweep goes.
pub(crate) fn way_of(sweep: u32) -> Way {
    if sweep % 2 == 0 {
        Way::Forward
    } else {
        Way::Backward
    }
}

// The other way.
fn turned(way: Way) -> Way {
    match way {
        Way::Forward => Way::Backward,
        Way::Backward => Way::Forward,
    }
}

impl Ascent {
    /// Makes all rows as a sweep finds them: the other way than it goes.
    pub fn begin(&mut self, net: &Net, sweep: u32) {
        let way = turned(way_of(sweep));
        for strand in 0..self.layout.spans.len() {
            self.renew(net, strand, way);
        }
        for block in self.ways.iter_mut() {
            *block = way;
        }
    }

    fn sweep_block(&mut self, net: &Net, block: usize, way: Way, pace: &Pace) {
        let base = base_of(net, block);
        let last = layers_of(net, block) / 2;
        for number in 0..last.wrapping_add(1) {
            let step = match way {
                Way::Forward => base.wrapping_add(number),
                Way::Backward => base.wrapping_add(last.wrapping_sub(number)),
            };
            self.sweep_step(net, block, step, way, pace);
        }
        put(&mut self.ways, block, way);
    }

    // The blocks that a tie leads from and to.
    fn blocks_of(&self, tie: Tie) -> (usize, usize) {
        let from = self.layout.span(tie.from as usize).block();
        let to = self.layout.span(tie.to as usize).block();
        (from, to)
    }

    // What comes to a block by ties from blocks before it, before it is swept forwards.
    fn enter(&mut self, net: &Net, strand: usize, pace: &Pace) {
        let (from, to) = range(net.index.entries.as_slice(), strand);
        for number in from..to {
            let number = at(net.index.arrivals.as_slice(), number, u32::MAX) as usize;
            if let Some(tie) = tie_between(net, number) {
                let (here, there) = self.blocks_of(tie);
                if here < there {
                    self.hand_on(number, tie, pace);
                }
            }
        }
    }

    // What comes back to a block by ties to blocks behind it, before it is swept backwards.
    fn reenter(&mut self, net: &Net, strand: usize, pace: &Pace) {
        let (from, to) = range(net.index.exits.as_slice(), strand);
        for number in from..to {
            if let Some(tie) = tie_between(net, number) {
                let (here, there) = self.blocks_of(tie);
                if here < there {
                    self.hand_back(number, tie, pace);
                }
            }
        }
    }

    // Ties from the end of a loop to its head, after the end was swept forwards.
    fn halve_exits(&mut self, net: &Net, strand: usize, pace: &Pace) {
        let (from, to) = range(net.index.exits.as_slice(), strand);
        for number in from..to {
            if let Some(tie) = tie_between(net, number) {
                let (here, there) = self.blocks_of(tie);
                if there <= here {
                    self.renew(net, tie.to as usize, Way::Backward);
                    self.hand(number, tie, Handing::Halves, pace);
                    self.renew(net, tie.to as usize, Way::Forward);
                }
            }
        }
    }

    // The same ties, after the head was swept backwards.
    fn halve_entries(&mut self, net: &Net, strand: usize, pace: &Pace) {
        let (from, to) = range(net.index.entries.as_slice(), strand);
        for number in from..to {
            let number = at(net.index.arrivals.as_slice(), number, u32::MAX) as usize;
            if let Some(tie) = tie_between(net, number) {
                let (here, there) = self.blocks_of(tie);
                if there <= here {
                    self.renew(net, tie.from as usize, Way::Forward);
                    self.hand(number, tie, Handing::Halves, pace);
                    self.renew(net, tie.from as usize, Way::Backward);
                }
            }
        }
    }

    fn sweep_forward(&mut self, net: &Net, pace: &Pace) {
        self.wait_to_hand_on(net);
        for block in 0..net.blocks.len() {
            let (from, to) = range(net.index.strands.as_slice(), block);
            for strand in from..to {
                self.enter(net, strand, pace);
            }
            self.sweep_block(net, block, Way::Forward, pace);
            for strand in from..to {
                self.halve_exits(net, strand, pace);
            }
        }
    }

    fn sweep_backward(&mut self, net: &Net, halves: bool, pace: &Pace) {
        self.wait_to_hand_back(net);
        for back in 0..net.blocks.len() {
            let block = net.blocks.len().wrapping_sub(back).wrapping_sub(1);
            let (from, to) = range(net.index.strands.as_slice(), block);
            for strand in from..to {
                self.reenter(net, strand, pace);
            }
            self.sweep_block(net, block, Way::Backward, pace);
            if halves {
                for strand in from..to {
                    self.halve_entries(net, strand, pace);
                }
            }
        }
    }

    // One sweep.
    fn sweep(&mut self, net: &Net, number: u32) {
        let pace = Pace::of(number, self.rates.growth, self.rates.shift);
        match way_of(number) {
            Way::Forward => self.sweep_forward(net, &pace),
            Way::Backward => self.sweep_backward(net, number % TURN == 3, &pace),
        }
    }

    /// What all strands cost at least, each alone, less all that is paid where each register at
    /// each layer and each memory pair is used once: in units of prices.
    pub fn value(&self) -> i128 {
        let mut total = 0i128;
        for strand in 0..self.layout.spans.len() {
            let span = self.layout.span(strand);
            let step = match self.way(span.block()) {
                Way::Forward => span.last(),
                Way::Backward => span.first(),
            };
            let rest = i64::from(least(&self.priced_row(&span, step)));
            let cost = at(&self.taken_off, strand, 0).saturating_add(rest);
            total = total.saturating_add(i128::from(cost));
        }
        let value = total.saturating_sub(self.prices.paid());
        value.saturating_mul(1i128 << (self.rates.shift % 64))
    }

    /// Sweeps, at most so many, until a while of them gains nothing.
    pub fn sweep_all(&mut self, net: &Net, first: u32, sweeps: u32) {
        let mut best = self.value();
        let mut idle = 0u8;
        for number in 0..sweeps {
            self.sweep(net, first.wrapping_add(number));
            if number % TURN == TURN - 1 {
                let value = self.value();
                idle = if value > best {
                    0
                } else {
                    idle.saturating_add(1)
                };
                best = best.max(value);
            }
            if idle == IDLE_TURNS {
                return;
            }
        }
    }
}
