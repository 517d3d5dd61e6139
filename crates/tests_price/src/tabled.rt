// What each row of the tables says, and that an ascent finds the same once more.

ghost use Rattle.net_cost.specs.Models.{Keeps};
ghost use Rattle.net_laws.specs.Built.{IsBuilt};

use crate::at_prices::differs_at_prices;
use crate::made::network_of;
use crate::raised::is_raised_again;
use crate::reading::field;
use crate::rounded::differs_in_first_round;
use crate::rows;
use crate::settled::differs_on_routes;
use net_cost::{CostModel, Event, Weights};
use net_form::Net;
use pra_base::OutOfMemory;
use std::alloc::Global;
use std::process::Abort;
use std::test::Fail;

// What differs by a model.
fn differs_by<F: Fn(Event, u32) -> u32>(
    alloc: Global,
    net: &Net,
    model: &CostModel<F>,
    row: &str,
) -> Result<Option<String>, OutOfMemory>
    requires kept { Keeps F.Fn model.now }
    requires net { IsBuilt net.now }
{
    if let Some(text) = differs_at_prices(alloc, net, model, row)? {
        return Ok(Some(text));
    }
    if let Some(text) = differs_on_routes(alloc, net, model, row)? {
        return Ok(Some(text));
    }
    if let Some(text) = differs_in_first_round(alloc, net, model, row)? {
        return Ok(Some(text));
    }
    if is_raised_again(alloc, net, model)? {
        return Ok(None);
    }
    Ok(Some(String::from_str(alloc, "an ascent finds something else")?))
}

fn differs_by_size(alloc: Global, net: &Net, row: &str) -> Result<Option<String>, OutOfMemory>
    requires { IsBuilt net.now }
{
    let model = CostModel::keep(Weights::size(), |event: Event, depth: u32| {
        Weights::size().weight(event, depth)
    });
    differs_by(alloc, net, &model, row)
}

fn differs_by_speed(alloc: Global, net: &Net, row: &str) -> Result<Option<String>, OutOfMemory>
    requires { IsBuilt net.now }
{
    let model = CostModel::keep(Weights::speed(), |event: Event, depth: u32| {
        Weights::speed().weight(event, depth)
    });
    differs_by(alloc, net, &model, row)
}

// What differs from what a row says, by the weights that it names, if anything.
fn differs(alloc: Global, row: &str) -> Result<Option<String>, OutOfMemory> {
    let Some(net) = network_of(alloc, row)? else {
        return Ok(Some(String::from_str(alloc, "no valid code")?));
    };
    let weights = field(row, "weights ");
    if weights != "speed" {
        if let Some(text) = differs_by_size(alloc, &net, row)? {
            return Ok(Some(text));
        }
    }
    if weights == "size" {
        return Ok(None);
    }
    differs_by_speed(alloc, &net, row)
}

fn check(rt: &impl Abort, alloc: Global, table: &str) -> Result<(), OutOfMemory> {
    for row in table.split('#') {
        if !row.is_empty() {
            let told = differs(alloc, row)?;
            assert!(rt; told.is_none(), "{}: {told:?}", field(row, " "));
        }
    }
    Ok(())
}

#[test]
fn worked_by_hand(rt: HostRuntime) -> Result<(), Fail> {
    check(&rt, rt.alloc(), rows::WORKED)?;
    Ok(())
}

#[test]
fn small_codes(rt: HostRuntime) -> Result<(), Fail> {
    check(&rt, rt.alloc(), rows::SMALL)?;
    Ok(())
}

#[test]
fn codes_of_branches(rt: HostRuntime) -> Result<(), Fail> {
    check(&rt, rt.alloc(), rows::BRANCHES)?;
    Ok(())
}

#[test]
fn codes_of_forms(rt: HostRuntime) -> Result<(), Fail> {
    check(&rt, rt.alloc(), rows::FORMS)?;
    Ok(())
}

#[test]
fn selected_codes(rt: HostRuntime) -> Result<(), Fail> {
    check(&rt, rt.alloc(), rows::SELECTED)?;
    Ok(())
}

#[test]
fn procedures_of_modules(rt: HostRuntime) -> Result<(), Fail> {
    check(&rt, rt.alloc(), rows::MODULES)?;
    Ok(())
}
