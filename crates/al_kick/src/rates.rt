// What moves and events cost in blocks of a loop depth.
//
// Costs along a strand, whose layers are all in one block, are counted in scaled units: 1/1024 of a
// weight in no loop, times as many as a load costs more in the block. So a move costs the same
// number in each loop, penalties weigh as much there as anywhere, and the numbers are small.

ghost use Rattle.std.specs.Prelude.{◌≤◌};
ghost use Rattle.net_cost.specs.Models.{Keeps};
ghost use Rattle.net_cost.specs.Weights.{deepest};

use crate::rows::{Row, way};
use net_cost::{CostModel, Event};
use net_form::Net;

/// Units of a weight of 1.
pub(crate) const WHOLE: u64 = 1024;

// No event is taken for dearer than this, in scaled units.
const DEAREST: u32 = 1 << 24;

/// What ways through a crossbar cost: a move between registers, a load, a store, and a constant
/// that is made.
#[derive(Clone, Copy)]
pub(crate) struct Ways {
    pub between: u32,
    pub load: u32,
    pub store: u32,
    pub set: u32,
}

/// What ways cost, also from each place to each other one; and how many units a scaled unit is.
#[derive(Clone, Copy)]
pub(crate) struct Rate {
    pub ways: Ways,
    pub moves: [Row; 16],
    pub times: u64,
}

/// Ways that cost nothing.
pub(crate) const NO_WAYS: Ways = Ways {
    between: 0,
    load: 0,
    store: 0,
    set: 0,
};

/// No cost at all.
pub(crate) const NO_RATE: Rate = Rate {
    ways: NO_WAYS,
    moves: [[0; 16]; 16],
    times: 1,
};

/// What an event costs in a block of this loop depth, in units.
pub(crate) fn price<F: Fn(Event, u32) -> u32>(model: &CostModel<F>, event: Event, depth: u32) -> u64
    requires kept { Keeps F.Fn model.now }
{
    if depth > 5 {
        return 0;
    }
    (model.ask(event, depth) as u64).wrapping_mul(WHOLE)
}

/// So many units in scaled units.
pub(crate) fn scaled(units: u64, times: u64) -> u32 {
    let count = units.checked_div(times).unwrap_or(0);
    u32::try_from(count).unwrap_or(DEAREST).min(DEAREST)
}

// What ways cost from each place to each other one.
fn moves_of(ways: &Ways) -> [Row; 16] {
    let mut moves = [[0; 16]; 16];
    for from in 0..16usize {
        for to in 0..16usize {
            moves[from][to] = way(ways, from, to);
        }
    }
    moves
}

// How many times more a load costs at a depth than in no loop.
fn times_at<F: Fn(Event, u32) -> u32>(model: &CostModel<F>, depth: u32) -> u64
    requires kept { Keeps F.Fn model.now }
{
    let least = price(model, Event::E1, 0);
    let here = price(model, Event::E1, depth);
    here.checked_div(least).unwrap_or(1).max(1)
}

/// What is paid in blocks of a loop depth.
pub(crate) fn rate_at<F: Fn(Event, u32) -> u32>(net: &Net, model: &CostModel<F>, depth: u32) -> Rate
    requires kept { Keeps F.Fn model.now }
{
    let times = times_at(model, depth);
    let (load, store) = if net.near {
        (Event::E1, Event::E2)
    } else {
        (Event::E3, Event::E4)
    };
    let ways = Ways {
        between: scaled(price(model, Event::E0, depth), times),
        load: scaled(price(model, load, depth), times),
        store: scaled(price(model, store, depth), times),
        set: scaled(price(model, Event::E5, depth), times),
    };
    Rate {
        ways,
        moves: moves_of(&ways),
        times,
    }
}
