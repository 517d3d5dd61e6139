// What ways and extras cost, in units of the ascent.
//
// A unit of the ascent is a unit of prices, 1/1024 of a weight, or 2, 4, 8 and so on of them: the
// least at which the dearest event of the network comes below 2^22, so that rows keep far below
// what is paid at a closed place.

ghost use Rattle.net_cost.specs.Models.{Keeps};

use crate::lists::at;
use crate::rows::Ways;
use net_cost::{CostModel, Event};
use net_form::Net;

// Units of a weight of 1.
const WHOLE: u64 = 1024;

// No event is taken for dearer than this.
const DEAREST: i32 = 1 << 24;

// Events come below this, in units of the ascent.
const SMALL: u64 = 1 << 22;

// The greatest shift: whole weights.
const MOST_SHIFT: u32 = 10;

const EVENTS: [Event; 13] = [
    Event::E0,
    Event::E1,
    Event::E2,
    Event::E3,
    Event::E4,
    Event::E5,
    Event::E6,
    Event::E7,
    Event::E8,
    Event::E9,
    Event::E10,
    Event::E11,
    Event::E12,
];

/// Ways that cost nothing.
pub(crate) const NO_WAYS: Ways = Ways {
    between: 0,
    load: 0,
    store: 0,
    set: 0,
};

/// What a place costs a strand more at some step.
#[derive(Clone, Copy)]
pub(crate) struct ExtraCost {
    pub strand: u32,
    pub place: u8,
    pub event: Event,
    pub cost: i32,
}

/// Nothing more.
pub(crate) const NO_EXTRA: ExtraCost = ExtraCost {
    strand: u32::MAX,
    place: 0,
    event: Event::E0,
    cost: 0,
};

/// What ways cost at each loop depth; a unit of the ascent as a power of two of units of prices;
/// how many times more events cost in the deepest block than in no loop, as a power of two.
#[derive(Clone, Copy)]
pub(crate) struct Rates {
    ways: [Ways; 6],
    pub shift: u32,
    pub growth: u32,
}

/// Nothing costs anything.
pub(crate) const NO_RATES: Rates = Rates {
    ways: [NO_WAYS; 6],
    shift: 0,
    growth: 0,
};

// What an event costs in a block of this loop depth, in units of prices.
fn units_of<F: Fn(Event, u32) -> u32>(model: &CostModel<F>, event: Event, depth: u32) -> u64
    requires kept { Keeps F.Fn model.now }
{
    if depth > 5 {
        return 0;
    }
    (model.ask(event, depth) as u64).wrapping_mul(WHOLE)
}

// What the dearest event costs there.
fn dearest_at<F: Fn(Event, u32) -> u32>(model: &CostModel<F>, depth: u32) -> u64
    requires kept { Keeps F.Fn model.now }
{
    let mut dearest = 0;
    for number in 0..13usize {
        dearest = units_of(model, EVENTS[number], depth).max(dearest);
    }
    dearest
}

// The least power of two that makes a cost small.
fn shift_of(dearest: u64) -> u32 {
    for shift in 0..MOST_SHIFT {
        if dearest >> shift < SMALL {
            return shift;
        }
    }
    MOST_SHIFT
}

// The greatest power of two that is not above a number.
fn power_below(times: u64) -> u32 {
    for power in 0..63u32 {
        if times >> power < 2 {
            return power;
        }
    }
    63
}

// The depth of the deepest block.
fn deepest(net: &Net) -> u32 {
    let mut deepest = 0;
    for block in net.blocks.as_slice() {
        deepest = deepest.max(block.depth);
    }
    deepest.min(5)
}

// So many units of prices in units of the ascent.
fn scaled(units: u64, shift: u32) -> i32 {
    i32::try_from(units >> (shift % 64))
        .unwrap_or(DEAREST)
        .min(DEAREST)
}

fn ways_at<F: Fn(Event, u32) -> u32>(
    net: &Net,
    model: &CostModel<F>,
    depth: u32,
    shift: u32,
) -> Ways
    requires kept { Keeps F.Fn model.now }
{
    let (load, store) = if net.near {
        (Event::E1, Event::E2)
    } else {
        (Event::E3, Event::E4)
    };
    Ways {
        between: scaled(units_of(model, Event::E0, depth), shift),
        load: scaled(units_of(model, load, depth), shift),
        store: scaled(units_of(model, store, depth), shift),
        set: scaled(units_of(model, Event::E5, depth), shift),
    }
}

/// What is paid in a network.
pub(crate) fn rates_of<F: Fn(Event, u32) -> u32>(net: &Net, model: &CostModel<F>) -> Rates
    requires kept { Keeps F.Fn model.now }
{
    let dearest = dearest_at(model, deepest(net));
    let times = dearest.checked_div(dearest_at(model, 0)).unwrap_or(1);
    let shift = shift_of(dearest);
    let mut ways = [NO_WAYS; 6];
    for depth in 0..6u32 {
        ways[depth as usize] = ways_at(net, model, depth, shift);
    }
    Rates {
        ways,
        shift,
        growth: power_below(times),
    }
}

impl Rates {
    /// What ways cost at a loop depth.
    pub fn ways(&self, depth: u32) -> Ways {
        at(&self.ways, depth as usize, NO_WAYS)
    }
}

/// What an extra costs at a loop depth.
pub(crate) fn extra_cost<F: Fn(Event, u32) -> u32>(
    model: &CostModel<F>,
    event: Event,
    depth: u32,
    shift: u32,
) -> i32
    requires kept { Keeps F.Fn model.now }
{
    scaled(units_of(model, event, depth), shift)
}
