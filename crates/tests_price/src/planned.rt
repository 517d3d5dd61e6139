// What is found at prices: a plan, its priced order, and how laying by both ends.

ghost use Rattle.std.specs.Prelude.{◌≡◌, ◌<◌, length, IsPermutation};
ghost use Rattle.std.specs.List.{range_with_len};
ghost use Rattle.net_cost.specs.Models.{Keeps};
ghost use Rattle.net_dual.specs.Priced.{AreInRange};
ghost use Rattle.net_form.specs.Rooms.{IsRoomOf};
ghost use Rattle.net_laws.specs.Built.{IsBuilt};

use crate::reading::{field, numbers_of};
use al_edge::plan;
use al_iter::{LayFault, lay, priced_order};
use net_cost::{CostModel, Event};
use net_form::{Ends, Net, Plan, Prices, Taken};
use net_path::{Work, least};
use pra_base::{OutOfMemory, Place};
use std::alloc::Global;

/// A plan, its order, and how laying by them ends.
#[derive(Drop)]
pub(crate) struct Found {
    pub plan: Plan,
    pub order: Vec<u32>,
    pub end: String,
}

// The plan's place for a tie group.
fn place_of(plan: &Plan, group: Option<u32>) -> Option<Place> {
    plan.places.get(group? as usize).copied()
}

/// Where a strand has to begin and to end by a plan.
pub(crate) fn ends_of(net: &Net, plan: &Plan, strand: u32) -> Ends
    requires { strand < length net.now.strands }
{
    let strand = &net.strands[strand as usize];
    Ends {
        first: place_of(plan, strand.entry_group),
        last: place_of(plan, strand.exit_group),
    }
}

/// Whether a strand has no path past what is taken.
pub(crate) fn is_blocked<F: Fn(Event, u32) -> u32>(
    alloc: Global,
    net: &Net,
    model: &CostModel<F>,
    prices: &Prices,
    plan: &Plan,
    strand: u32,
    taken: &Taken,
) -> Result<bool, OutOfMemory>
    requires kept { Keeps F.Fn model.now }
    requires net { IsBuilt net.now }
    requires prices { AreInRange net.now prices.now }
    requires strand { strand < length net.now.strands }
    requires taken { IsRoomOf net.now taken.now }
{
    let mut work = Work::reserve(alloc, net, model)?;
    let ends = ends_of(net, plan, strand);
    Ok(least(&mut work, net, model, prices, strand, ends, taken).is_err())
}

// That a strand is blocked, if it is.
fn told_blocked<F: Fn(Event, u32) -> u32>(
    alloc: Global,
    net: &Net,
    model: &CostModel<F>,
    prices: &Prices,
    plan: &Plan,
    strand: u32,
    taken: &Taken,
) -> Result<String, OutOfMemory>
    requires kept { Keeps F.Fn model.now }
    requires net { IsBuilt net.now }
    requires prices { AreInRange net.now prices.now }
    requires strand { strand < length net.now.strands }
    requires taken { IsRoomOf net.now taken.now }
{
    let is = is_blocked(alloc, net, model, prices, plan, strand, taken)?;
    let word = if is { "is blocked" } else { "has a path" };
    Ok(format!(in alloc; "{strand} {word}")?)
}

// How laying by a plan and an order ends.
fn end_of<F: Fn(Event, u32) -> u32>(
    alloc: Global,
    net: &Net,
    model: &CostModel<F>,
    prices: &Prices,
    plan: &Plan,
    order: &[u32],
) -> Result<String, OutOfMemory>
    requires kept { Keeps F.Fn model.now }
    requires net { IsBuilt net.now }
    requires prices { AreInRange net.now prices.now }
    requires order { IsPermutation (range_with_len 0 (length net.now.strands)) order.now }
    requires many { length plan.now.places ≡ net.now.groups }
{
    match lay(alloc, net, model, prices, plan, order) {
        Ok(_) => Ok(String::from_str(alloc, "laid")?),
        Err(LayFault::Blocked(strand, taken)) => {
            told_blocked(alloc, net, model, prices, plan, strand, &taken)
        }
        Err(LayFault::OutOfMemory) => Err(OutOfMemory),
    }
}

/// The plan, the order and the end at prices.
pub(crate) fn find_at<F: Fn(Event, u32) -> u32>(
    alloc: Global,
    net: &Net,
    model: &CostModel<F>,
    prices: &Prices,
) -> Result<Found, OutOfMemory>
    requires kept { Keeps F.Fn model.now }
    requires net { IsBuilt net.now }
    requires prices { AreInRange net.now prices.now }
{
    let plan = plan(alloc, net, model, prices)?;
    let mut work = Work::reserve(alloc, net, model)?;
    let order = priced_order(alloc, &mut work, net, model, prices, &plan)?;
    let end = end_of(alloc, net, model, prices, &plan, order.as_slice())?;
    Ok(Found { plan, order, end })
}

/// A plan, by the numbers of its places, and an order, as rows have them.
pub(crate) fn told(alloc: Global, plan: &Plan, order: &[u32]) -> Result<String, OutOfMemory> {
    let numbers = numbers_of(alloc, plan.places.as_slice())?;
    Ok(format!(in alloc; "{:?} {order:?}", numbers.as_slice())?)
}

// Whether laying may end so by a row: in one of the ways that it names. Where it names none, routes
// that are admitted or a strand that is blocked are right.
fn may_end(ends: &str, end: &str) -> bool {
    if ends.is_empty() {
        return end == "laid" || end.ends_with(" is blocked");
    }
    for other in ends.split(',') {
        if other.strip_prefix(' ').unwrap_or(other) == end {
            return true;
        }
    }
    false
}

/// What is found in place of what a row says, if anything.
pub(crate) fn differs_from_found(
    alloc: Global,
    found: &Found,
    at: &str,
) -> Result<Option<String>, OutOfMemory> {
    let wanted = field(at, "found ");
    let told = told(alloc, &found.plan, found.order.as_slice())?;
    let is_there = wanted.is_empty() || told.as_str() == wanted;
    if is_there && may_end(field(at, "may be "), found.end.as_str()) {
        return Ok(None);
    }
    Ok(Some(format!(in alloc; "{told} {}", found.end)?))
}
