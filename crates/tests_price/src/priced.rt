// What a row says that the network is worth at prices, and that its strands pay at least.

ghost use Rattle.std.specs.Prelude.{◌<◌, length};
ghost use Rattle.net_cost.specs.Models.{Keeps};
ghost use Rattle.net_dual.specs.Priced.{AreInRange};
ghost use Rattle.net_form.specs.Rooms.{IsRoomOf};
ghost use Rattle.net_laws.specs.Built.{IsBuilt};

use crate::putting::taken_of;
use crate::reading::{ends, field, numbers_of};
use net_cost::{CostModel, Event};
use net_form::{Ends, Net, Prices, Taken};
use net_path::{Work, least};
use net_price::lagrange;
use pra_base::OutOfMemory;
use std::alloc::Global;

// What the network is worth.
fn value<F: Fn(Event, u32) -> u32>(
    alloc: Global,
    net: &Net,
    model: &CostModel<F>,
    prices: &Prices,
) -> Result<i128, OutOfMemory>
    requires kept { Keeps F.Fn model.now }
    requires net { IsBuilt net.now }
    requires prices { AreInRange net.now prices.now }
{
    let mut work = Work::reserve(alloc, net, model)?;
    Ok(lagrange(&mut work, net, model, prices))
}

// A least path, by the numbers of its places behind its cost, or `none`.
fn least_path<F: Fn(Event, u32) -> u32>(
    alloc: Global,
    net: &Net,
    model: &CostModel<F>,
    prices: &Prices,
    strand: u32,
    ends: Ends,
    taken: &Taken,
) -> Result<String, OutOfMemory>
    requires kept { Keeps F.Fn model.now }
    requires net { IsBuilt net.now }
    requires prices { AreInRange net.now prices.now }
    requires strand { strand < length net.now.strands }
    requires taken { IsRoomOf net.now taken.now }
{
    let mut work = Work::reserve(alloc, net, model)?;
    match least(&mut work, net, model, prices, strand, ends, taken) {
        Ok(cost) => {
            let numbers = numbers_of(alloc, work.path())?;
            Ok(format!(in alloc; "{cost} {:?}", numbers.as_slice())?)
        }
        Err(_) => Ok(String::from_str(alloc, "none")?),
    }
}

// The same of what a line wants: a strand and its ends, and registers and pairs that are taken.
fn wanted_path<F: Fn(Event, u32) -> u32>(
    alloc: Global,
    net: &Net,
    model: &CostModel<F>,
    prices: &Prices,
    wanted: &str,
) -> Result<String, OutOfMemory>
    requires kept { Keeps F.Fn model.now }
    requires net { IsBuilt net.now }
    requires prices { AreInRange net.now prices.now }
{
    let (wanted, in_use) = wanted.split_once('=').unwrap_or((wanted, ""));
    let (registers, pairs) = in_use.split_once('=').unwrap_or((in_use, ""));
    let (strand, text) = wanted.split_once(' ').unwrap_or((wanted, ""));
    let strand = strand.parse::<u32>().unwrap_or(u32::MAX);
    let Some(taken) = taken_of(alloc, net, registers, pairs)? else {
        return Ok(String::from_str(alloc, "other marks")?);
    };
    if strand as usize >= net.strands.len() {
        return Ok(String::from_str(alloc, "no such strand")?);
    }
    least_path(alloc, net, model, prices, strand, ends(text), &taken)
}

// What is found in place of the first line of a least path that is not right.
fn differs_on_least<F: Fn(Event, u32) -> u32>(
    alloc: Global,
    net: &Net,
    model: &CostModel<F>,
    prices: &Prices,
    at: &str,
) -> Result<Option<String>, OutOfMemory>
    requires kept { Keeps F.Fn model.now }
    requires net { IsBuilt net.now }
    requires prices { AreInRange net.now prices.now }
{
    for line in at.lines() {
        if let Some(said) = line.strip_prefix("path ") {
            let (wanted, path) = said.split_once(" is ").unwrap_or((said, ""));
            let told = wanted_path(alloc, net, model, prices, wanted)?;
            if told.as_str() != path {
                return Ok(Some(told));
            }
        }
    }
    Ok(None)
}

/// What is found in place of the value and the least paths of a row, if anything.
pub(crate) fn differs_on_costs<F: Fn(Event, u32) -> u32>(
    alloc: Global,
    net: &Net,
    model: &CostModel<F>,
    prices: &Prices,
    at: &str,
) -> Result<Option<String>, OutOfMemory>
    requires kept { Keeps F.Fn model.now }
    requires net { IsBuilt net.now }
    requires prices { AreInRange net.now prices.now }
{
    let wanted = field(at, "value ");
    if !wanted.is_empty() {
        let found = value(alloc, net, model, prices)?;
        if wanted.parse::<i128>().ok() != Some(found) {
            return Ok(Some(format!(in alloc; "value {found}")?));
        }
    }
    differs_on_least(alloc, net, model, prices, at)
}
