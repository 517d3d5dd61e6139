// What it weighs to go from a place to another, by events that the cost model is asked for.

ghost use Rattle.std.specs.Prelude.{◌≡◌, ◌≤◌, ◌<◌, ◌*◌, length, IsTrue};
ghost use Rattle.net_cost.specs.Models.{Keeps, weights_of};
ghost use Rattle.net_cost.specs.Weights.{deepest, most_weight, number as event_number};
ghost use Rattle.pl_moves.specs.Crossbar.{load_event, store_event, brings};
ghost use Rattle.pra_base.specs.Places.{number, has_register};
ghost use Rattle.net_form.specs.Cost.{events_weight, way_cost};
ghost use Rattle.net_form.specs.Formed.{IsFormed};
ghost use Rattle.net_form.specs.Tables.{all_tables, way, begun};

use crate::net::Net;
use net_cost::{CostModel, Event};
use pra_base::Place;

// A move from memory to a register.
fn load(near: bool) -> Event
    ensures { event_number result ≡ load_event near }
{
    if near { Event::E1 } else { Event::E3 }
}

// A move from a register to memory.
fn store(near: bool) -> Event
    ensures { event_number result ≡ store_event near }
{
    if near { Event::E2 } else { Event::E4 }
}

// What it weighs to bring a value from a place into the register of another.
fn register_cost<F: Fn(Event, u32) -> u32>(
    model: &CostModel<F>,
    near: bool,
    depth: u32,
    from: Place,
    to: Place,
) -> u64
    requires kept { Keeps F.Fn model.now }
    requires depth { depth ≤ deepest }
    requires register { IsTrue (has_register (number to)) }
    ensures value { result ≡
        events_weight (weights_of model.now) depth (brings near (number from) (number to)) }
    ensures small { result ≤ most_weight }
{
    if from.has_register() {
        if from.register() == to.register() {
            return 0;
        }
        return model.ask(Event::E0, depth) as u64;
    }
    if from.needs_slot() {
        return model.ask(load(near), depth) as u64;
    }
    model.ask(Event::E5, depth) as u64
}

/// What it weighs to go from a place to another, in a block of this loop depth.
pub fn crossbar_cost<F: Fn(Event, u32) -> u32>(
    model: &CostModel<F>,
    near: bool,
    depth: u32,
    from: Place,
    to: Place,
) -> u64
    requires kept { Keeps F.Fn model.now }
    requires depth { depth ≤ deepest }
    ensures value { result ≡
        events_weight (weights_of model.now) depth (way near from to) }
    ensures small { result ≤ 2 * most_weight }
{
    let mut total = 0;
    if to.has_register() {
        total += register_cost(model, near, depth, from, to);
    }
    if to.needs_slot() && !from.needs_slot() {
        total += model.ask(store(near), depth) as u64;
    }
    total
}

/// What it weighs that a strand begins at a place, in a block of this loop depth.
pub fn begun_cost<F: Fn(Event, u32) -> u32>(
    model: &CostModel<F>,
    constant: bool,
    depth: u32,
    to: Place,
) -> u64
    requires kept { Keeps F.Fn model.now }
    requires depth { depth ≤ deepest }
    ensures value { result ≡ events_weight (weights_of model.now) depth (begun constant to) }
    ensures small { result ≤ most_weight }
{
    if constant && to.has_register() {
        return model.ask(Event::E5, depth) as u64;
    }
    0
}

/// What it weighs that a strand comes from a place, or from Start, to a place at a layer, without
/// the extras there.
pub fn way_cost<F: Fn(Event, u32) -> u32>(
    net: &Net,
    model: &CostModel<F>,
    strand: usize,
    layer: u32,
    from: Option<Place>,
    to: Place,
) -> u64
    requires kept { Keeps F.Fn model.now }
    requires net { IsFormed net.now }
    requires strand { strand < length net.now.strands }
    ensures value { result ≡ way_cost all_tables net.now (weights_of model.now)
        (record { strand = strand; layer = layer; from = from; to = to }) }
    ensures small { result ≤ 2 * most_weight }
{
    let depth = net.depth(strand);
    match from {
        None => begun_cost(model, net.strands[strand].constant, depth, to),
        Some(place) => {
            if layer % 2 == 0 {
                return 0;
            }
            crossbar_cost(model, net.near, depth, place, to)
        }
    }
}
