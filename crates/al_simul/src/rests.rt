// What is left to pay from each place on for a strand that is alone, from the last of its layers to
// the first.

ghost use Rattle.std.specs.Prelude.{◌<◌, ◌≤◌, length};
ghost use Rattle.net_cost.specs.Models.{Keeps};
ghost use Rattle.net_cost.specs.Weights.{deepest};
ghost use Rattle.net_form.specs.Formed.{IsFormed};

use crate::lists::{at, put, range};
use crate::rows::{
    CLOSED, MEMORY, Row, add_at, close_others, least_of, place_of, row_of, sums, ways_from,
};
use net_cost::{CostModel, Event};
use net_form::{Net, Plan, Prices, begun_cost, crossbar_cost};
use pra_base::Mask;
use std::alloc::{AllocError, Global};

// Units of a weight of 1.
const WHOLE: u64 = 1024;

/// What it costs to go from place to place in the blocks of a loop depth, a row for each place
/// where a way begins, and behind these what it costs that a constant begins at a place.
pub(crate) fn write_ways<F: Fn(Event, u32) -> u32>(
    ways: &mut [Row],
    model: &CostModel<F>,
    near: bool,
    depth: u32,
)
    requires kept { Keeps F.Fn model.now }
    requires depth { depth ≤ deepest }
{
    for from in 0..14usize {
        let mut row = CLOSED;
        for to in 0..14usize {
            let cost = crossbar_cost(model, near, depth, place_of(from), place_of(to));
            row[to] = cost.saturating_mul(WHOLE);
        }
        put(ways, from, row);
    }
    let mut row = CLOSED;
    for to in 0..14usize {
        row[to] = begun_cost(model, true, depth, place_of(to)).saturating_mul(WHOLE);
    }
    put(ways, 14, row);
}

/// Room for the ways of one loop depth.
pub(crate) fn some_ways(alloc: Global) -> Result<Vec<Row>, AllocError> {
    vec![in alloc; CLOSED; 15]
}

// Writes for each layer its open places, with the prices of registers there.
fn write_places(rests: &mut [Row], prices: &Prices, masks: &[Mask], layer: usize) {
    for number in 0..masks.len() {
        let mut row = row_of(masks[number]);
        let caps = layer.saturating_add(number).saturating_mul(6);
        for register in 0..6usize {
            let cap = at(prices.caps.as_slice(), caps.saturating_add(register), 0);
            add_at(&mut row, register, cap);
            add_at(&mut row, register.saturating_add(8), cap);
        }
        put(rests, number, row);
    }
}

// Adds to one place of a layer, counted from the strand's first one.
fn add_to(rests: &mut [Row], layer: usize, place: usize, cost: u64) {
    if let Some(row) = rests.get_mut(layer) {
        add_at(row, place, cost);
    }
}

// Adds what the code costs more where the strand is at some places.
fn add_extras<F: Fn(Event, u32) -> u32>(
    rests: &mut [Row],
    net: &Net,
    model: &CostModel<F>,
    strand: usize,
    first: u32,
    depth: u32,
)
    requires kept { Keeps F.Fn model.now }
    requires depth { depth ≤ deepest }
{
    let (from, to) = range(net.index.extras.as_slice(), strand);
    for number in from..to {
        if let Some(extra) = net.extras.get(number) {
            let layer = extra.layer.saturating_sub(first) as usize;
            let cost = (model.ask(extra.event, depth) as u64).saturating_mul(WHOLE);
            add_to(rests, layer, extra.place.number() as usize, cost);
        }
    }
}

// Adds the prices of memory where it is an operand that another may be in place of.
fn add_pairs(rests: &mut [Row], net: &Net, prices: &Prices, strand: usize, first: u32) {
    let (from, to) = range(net.index.pairs.as_slice(), strand);
    for number in from..to {
        if let Some(end) = net.index.ends.get(number) {
            let layer = end.layer.saturating_sub(first) as usize;
            let cost = at(prices.mems.as_slice(), end.pair as usize, 0);
            add_to(rests, layer, MEMORY, cost);
        }
    }
}

// Closes all places of a layer but the plan's.
fn fix_end(rests: &mut [Row], plan: &Plan, group: Option<u32>, layer: usize) {
    let Some(group) = group else {
        return;
    };
    let Some(place) = plan.places.get(group as usize) else {
        return;
    };
    let open = place.number() as usize;
    if let Some(row) = rests.get_mut(layer) {
        close_others(row, open);
    }
}

// What is left to pay at a layer before a crossbar, from what is left behind it.
fn across(ways: &[Row], behind: &Row) -> Row {
    let mut row = CLOSED;
    for from in 0..14usize {
        row[from] = least_of(&sums(&ways_from(ways, from), behind));
    }
    row
}

// From what is paid at each layer to what is paid from there on.
fn go_back(rests: &mut [Row], ways: &[Row], first: u32, count: usize) {
    for number in 1..count {
        let layer = count.saturating_sub(number);
        let behind = at(rests, layer, CLOSED);
        let is_crossbar = (first as usize).saturating_add(layer) % 2 == 1;
        let on = if is_crossbar {
            across(ways, &behind)
        } else {
            behind
        };
        let here = layer.saturating_sub(1);
        let row = sums(&at(rests, here, CLOSED), &on);
        put(rests, here, row);
    }
}

/// Writes for each layer of a strand what is left to pay from each place on, at the prices, with
/// the plan's places at its ends, if nobody else were there.
pub(crate) fn write_rests<F: Fn(Event, u32) -> u32>(
    rests: &mut [Row],
    net: &Net,
    model: &CostModel<F>,
    prices: &Prices,
    plan: &Plan,
    ways: &[Row],
    number: usize,
)
    requires kept { Keeps F.Fn model.now }
    requires net { IsFormed net.now }
    requires strand { number < length net.now.strands }
{
    let strand = &net.strands[number];
    let first = strand.first;
    let count = strand.masks.len();
    let layer = (net.entry_layer(number) as usize).saturating_add(first as usize);
    write_places(rests, prices, strand.masks.as_slice(), layer);
    add_extras(rests, net, model, number, first, net.depth(number));
    add_pairs(rests, net, prices, number, first);
    fix_end(rests, plan, strand.entry_group, 0);
    fix_end(rests, plan, strand.exit_group, count.saturating_sub(1));
    go_back(rests, ways, first, count);
}
