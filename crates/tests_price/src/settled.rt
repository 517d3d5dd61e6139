// Routes of a row: what they cost, and whether settling makes them cheaper.

ghost use Rattle.net_cost.specs.Models.{Keeps};
ghost use Rattle.net_laws.specs.Built.{IsBuilt};

use crate::reading::{least_of, paths};
use al_iter::settle;
use net_cost::{CostModel, Event};
use net_form::{Net, Routes, Spare};
use net_gate::{admitted, cost};
use net_path::Work;
use pra_base::OutOfMemory;
use sketch::has_places;
use std::alloc::Global;

/// What routes cost, and once they are settled.
#[derive(Clone, Copy)]
struct Costs {
    before: u128,
    after: u128,
}

// Of routes that are admitted.
fn settled<F: Fn(Event, u32) -> u32>(
    alloc: Global,
    net: &Net,
    model: &CostModel<F>,
    routes: &mut Routes,
) -> Result<Option<Costs>, OutOfMemory>
    requires kept { Keeps F.Fn model.now }
    requires net { IsBuilt net.now }
{
    let mut spare = Spare::empty(alloc, net)?;
    if !has_places(net.strands.as_slice(), &routes.places)
        || admitted(&mut spare.taken, net, routes).is_err()
    {
        return Ok(None);
    }
    let mut work = Work::reserve(alloc, net, model)?;
    let before = cost(net, model, routes);
    settle(&mut work, &mut spare, net, model, routes);
    let after = cost(net, model, routes);
    Ok(Some(Costs { before, after }))
}

// Whether routes cost what a line says, and become cheaper if it says so, but not below the least.
fn is_settled<F: Fn(Event, u32) -> u32>(
    alloc: Global,
    net: &Net,
    model: &CostModel<F>,
    least: u128,
    line: &str,
) -> Result<bool, OutOfMemory>
    requires kept { Keeps F.Fn model.now }
    requires net { IsBuilt net.now }
{
    let (said, text) = line.split_once('=').unwrap_or((line, ""));
    let (word, number) = said.split_once(' ').unwrap_or((said, ""));
    let mut routes = paths(alloc, text)?;
    let Some(costs) = settled(alloc, net, model, &mut routes)? else {
        return Ok(false);
    };
    if number.parse::<u128>().ok() != Some(costs.before) || costs.after < least {
        return Ok(false);
    }
    Ok((word == "settled") == (costs.after == costs.before))
}

/// The first line of routes that is not so.
pub(crate) fn differs_on_routes<F: Fn(Event, u32) -> u32>(
    alloc: Global,
    net: &Net,
    model: &CostModel<F>,
    row: &str,
) -> Result<Option<String>, OutOfMemory>
    requires kept { Keeps F.Fn model.now }
    requires net { IsBuilt net.now }
{
    let least = least_of(row).unwrap_or(0);
    for line in row.lines() {
        if (line.starts_with("settled ") || line.starts_with("loose "))
            && !is_settled(alloc, net, model, least, line)?
        {
            return Ok(Some(String::from_str(alloc, line)?));
        }
    }
    Ok(None)
}
