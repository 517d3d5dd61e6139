// What is said of routes in the network of a code: what they cost by size and by speed, or what
// they break first.

ghost use Rattle.net_form.specs.Flow.{AreRoutes};
ghost use Rattle.net_form.specs.Formed.{IsFormed};

use al_edge::home;
use net_build::build;
use net_cost::{CostModel, Event, Weights};
use net_form::{Net, Routes, Taken};
use net_gate::{admitted, cost};
use pra_base::{OutOfMemory, VProc};
use sketch::has_places;
use std::alloc::Global;
use vc_live::{is_sized, live};
use vc_valid::is_valid;

fn size_cost(net: &Net, routes: &Routes) -> u128
    requires net { IsFormed net.now }
    requires routes { AreRoutes net.now routes.now }
{
    let model = CostModel::keep(Weights::size(), |event: Event, depth: u32| {
        Weights::size().weight(event, depth)
    });
    cost(net, &model, routes)
}

fn speed_cost(net: &Net, routes: &Routes) -> u128
    requires net { IsFormed net.now }
    requires routes { AreRoutes net.now routes.now }
{
    let model = CostModel::keep(Weights::speed(), |event: Event, depth: u32| {
        Weights::speed().weight(event, depth)
    });
    cost(net, &model, routes)
}

fn said(alloc: Global, net: &Net, routes: &Routes) -> Result<String, OutOfMemory>
    requires { IsFormed net.now }
{
    if !has_places(net.strands.as_slice(), &routes.places) {
        return Ok(String::from_str(alloc, "other places")?);
    }
    let mut taken = Taken::empty(alloc, net)?;
    match admitted(&mut taken, net, routes) {
        Ok(()) => {
            let size = size_cost(net, routes);
            let speed = speed_cost(net, routes);
            Ok(format!(in alloc; "{size} {speed}")?)
        }
        Err(broken) => Ok(format!(in alloc; "{broken:?}")?),
    }
}

/// What is said of routes of a code.
pub(crate) fn verdict(alloc: Global, code: &VProc, routes: &Routes) -> Result<String, OutOfMemory> {
    if !is_sized(code) {
        return Ok(String::from_str(alloc, "not sized")?);
    }
    let live = live(alloc, code)?;
    let net = build(alloc, code, &live)?;
    said(alloc, &net, routes)
}

/// The home routes of a code, or None where it is not seen to be valid.
pub(crate) fn home_routes(alloc: Global, code: &VProc) -> Result<Option<Routes>, OutOfMemory> {
    if !is_sized(code) {
        return Ok(None);
    }
    let live = live(alloc, code)?;
    if !is_valid(code, &live) {
        return Ok(None);
    }
    let net = build(alloc, code, &live)?;
    Ok(Some(home(alloc, &net)?))
}
