// All that a row says at prices.

ghost use Rattle.net_cost.specs.Models.{Keeps};
ghost use Rattle.net_dual.specs.Priced.{AreInRange};
ghost use Rattle.net_laws.specs.Built.{IsBuilt};

use crate::laid::differs_on_paths;
use crate::planned::{differs_from_found, find_at, is_blocked};
use crate::priced::differs_on_costs;
use crate::putting::{prices_of, taken_of};
use crate::reading::field;
use net_cost::{CostModel, Event};
use net_form::{Net, Plan, Prices};
use pra_base::OutOfMemory;
use std::alloc::Global;

// Whether a strand is blocked past what a row says is taken, where it says so.
fn is_blocked_so<F: Fn(Event, u32) -> u32>(
    alloc: Global,
    net: &Net,
    model: &CostModel<F>,
    prices: &Prices,
    plan: &Plan,
    at: &str,
) -> Result<bool, OutOfMemory>
    requires kept { Keeps F.Fn model.now }
    requires net { IsBuilt net.now }
    requires prices { AreInRange net.now prices.now }
{
    let text = field(at, "blocked ");
    if text.is_empty() {
        return Ok(true);
    }
    let (strand, in_use) = text.split_once('=').unwrap_or(("", text));
    let (registers, pairs) = in_use.split_once('=').unwrap_or((in_use, ""));
    let strand = strand.parse::<u32>().unwrap_or(u32::MAX);
    let Some(taken) = taken_of(alloc, net, registers, pairs)? else {
        return Ok(false);
    };
    if strand as usize >= net.strands.len() {
        return Ok(false);
    }
    is_blocked(alloc, net, model, prices, plan, strand, &taken)
}

// What differs from what a row says at prices that it has, if anything.
fn differs_for<F: Fn(Event, u32) -> u32>(
    alloc: Global,
    net: &Net,
    model: &CostModel<F>,
    prices: &Prices,
    at: &str,
) -> Result<Option<String>, OutOfMemory>
    requires kept { Keeps F.Fn model.now }
    requires net { IsBuilt net.now }
    requires prices { AreInRange net.now prices.now }
{
    let found = find_at(alloc, net, model, prices)?;
    if let Some(text) = differs_from_found(alloc, &found, at)? {
        return Ok(Some(text));
    }
    if !is_blocked_so(alloc, net, model, prices, &found.plan, at)? {
        return Ok(Some(String::from_str(alloc, "a strand is not blocked")?));
    }
    if let Some(text) = differs_on_costs(alloc, net, model, prices, at)? {
        return Ok(Some(text));
    }
    differs_on_paths(alloc, net, model, prices, &found, at)
}

/// What differs from what a row says at its prices, if anything. A row without prices says nothing,
/// and is asked at prices of nothing.
pub(crate) fn differs_at_prices<F: Fn(Event, u32) -> u32>(
    alloc: Global,
    net: &Net,
    model: &CostModel<F>,
    row: &str,
) -> Result<Option<String>, OutOfMemory>
    requires kept { Keeps F.Fn model.now }
    requires net { IsBuilt net.now }
{
    let (_, found) = row.split_once('@').unwrap_or((row, ""));
    for at in found.split('@') {
        let Some(prices) = prices_of(alloc, net, at)? else {
            return Ok(Some(String::from_str(alloc, "other prices")?));
        };
        if let Some(text) = differs_for(alloc, net, model, &prices, at)? {
            return Ok(Some(text));
        }
    }
    Ok(None)
}
