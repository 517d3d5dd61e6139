// What the first round of a row tried. What rounds come to is tried from outside
// (scripts/tables/rounds.py).

ghost use Rattle.std.specs.Prelude.{◌≤◌, length};
ghost use Rattle.net_cost.specs.Models.{Keeps, weights_of};
ghost use Rattle.net_laws.specs.Built.{IsBuilt};
ghost use Rattle.al_round.specs.Rounds.{AreRounds};

use crate::planned::told;
use crate::reading::{field, numbers_of};
use al_round::{Outcome, Rounds, Tried};
use net_cost::{CostModel, Event};
use net_form::{Line, Net};
use pra_base::OutOfMemory;
use std::alloc::Global;

// How many visits the search of a round makes at most.
const VISITS: u64 = 10_000_000;

// How laying ended: the numbers of the places of each path, or the strand that is blocked.
fn told_outcome(alloc: Global, outcome: &Outcome) -> Result<String, OutOfMemory> {
    let mut text = String::new(alloc);
    match outcome {
        Outcome::Blocked(strand, _) => {
            text.push_str(format!(in alloc; " {strand} is blocked")?.as_str())?;
        }
        Outcome::Laid(routes) => {
            for strand in 0..routes.places.len() {
                let numbers = numbers_of(alloc, routes.places.at(strand))?;
                text.push_str(format!(in alloc; " {:?}", numbers.as_slice())?.as_str())?;
            }
        }
    }
    Ok(text)
}

// The cost and the bound of a round, and what it tried: the plan, the order and the outcome.
fn told_round(alloc: Global, line: &Line, tried: &Tried) -> Result<String, OutOfMemory> {
    let found = told(alloc, &tried.plan, tried.order.as_slice())?;
    let outcome = told_outcome(alloc, &tried.outcome)?;
    let mut text = format!(in alloc; "{} {}", line.cost, line.bound)?;
    text.push_str(format!(in alloc; " {found}{outcome}")?.as_str())?;
    Ok(text)
}

// What rounds tried last, if they were not only begun.
fn told_last(alloc: Global, line: &Line, rounds: &Rounds) -> Result<String, OutOfMemory> {
    match &rounds.tried {
        Some(tried) => told_round(alloc, line, tried),
        None => Ok(String::from_str(alloc, "nothing was tried")?),
    }
}

// One round more.
fn told_next<F: Fn(Event, u32) -> u32>(
    alloc: Global,
    net: &Net,
    model: &CostModel<F>,
    rounds: &mut Rounds,
) -> Result<String, OutOfMemory>
    requires kept { Keeps F.Fn model.now }
    requires net { IsBuilt net.now }
    requires rounds { AreRounds net.now (weights_of model.now) rounds.old }
    requires few { length rounds.old.lines ≤ 4294967295 }
{
    let line = rounds.round(alloc, net, model)?;
    told_last(alloc, &line, rounds)
}

// The first round.
fn first_round<F: Fn(Event, u32) -> u32>(
    alloc: Global,
    net: &Net,
    model: &CostModel<F>,
) -> Result<String, OutOfMemory>
    requires kept { Keeps F.Fn model.now }
    requires net { IsBuilt net.now }
{
    let mut rounds = Rounds::start(alloc, net, model, VISITS)?;
    told_next(alloc, net, model, &mut rounds)
}

/// What differs from what a row says of rounds, if anything.
pub(crate) fn differs_in_first_round<F: Fn(Event, u32) -> u32>(
    alloc: Global,
    net: &Net,
    model: &CostModel<F>,
    row: &str,
) -> Result<Option<String>, OutOfMemory>
    requires kept { Keeps F.Fn model.now }
    requires net { IsBuilt net.now }
{
    let first = field(row, "first ");
    if !first.is_empty() {
        let told = first_round(alloc, net, model)?;
        if told.as_str() != first {
            return Ok(Some(told));
        }
    }
    Ok(None)
}
