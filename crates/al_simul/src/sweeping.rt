// Routes by a sweep, or home routes.

ghost use Rattle.std.specs.Prelude.{◌≡◌, ◌+◌, length, IfOk};
ghost use Rattle.net_cost.specs.Models.{Keeps};
ghost use Rattle.net_form.specs.Admitted.{IsAdmitted};
ghost use Rattle.net_form.specs.Flow.{flow, AreRoutes};
ghost use Rattle.net_form.specs.Formed.{IsFormed};
ghost use Rattle.net_laws.specs.Built.{IsBuilt};
ghost use Rattle.net_dual.specs.Priced.{AreInRange};

use crate::block::Sweep;
use crate::lists::at;
use crate::rows::place_of;
use al_edge::home;
use net_cost::{CostModel, Event};
use net_form::{Net, Plan, Prices, Routes, Taken};
use net_gate::admitted;
use pra_base::{OutOfMemory, Place};
use pra_list::Seq;
use pra_packed::Packed;
use std::alloc::{AllocError, Global};

// So many places from one on, by their numbers.
fn path_of(
    alloc: Global,
    places: &[u8],
    start: usize,
    count: usize,
) -> Result<Seq<Place>, AllocError>
    ensures { IfOk result (λ path. length path ≡ count) }
{
    let mut path = Seq::from_vec(Vec::with_capacity(alloc, count)?);
    for number in 0..count {
        let place = at(places, start.saturating_add(number), 0);
        path.push(place_of(place as usize))?;
    }
    Ok(path)
}

// The paths of the strands, whose places lie one after the other.
fn routes_of(alloc: Global, net: &Net, places: &[u8]) -> Result<Routes, AllocError>
    requires net { IsFormed net.now }
    ensures { IfOk result (AreRoutes net.now) }
{
    let mut paths = Packed::with_capacity(alloc, net.strands.len())?;
    let mut start = 0usize;
    for strand in net.strands.as_slice() {
        let count = strand.masks.len();
        paths.push(path_of(alloc, places, start, count)?.as_slice())?;
        start = start.saturating_add(count);
    }
    Ok(Routes { places: paths })
}

// What the sweep of each block comes to, whether it is admitted or not.
fn swept<F: Fn(Event, u32) -> u32>(
    alloc: Global,
    net: &Net,
    model: &CostModel<F>,
    prices: &Prices,
    plan: &Plan,
) -> Result<Routes, OutOfMemory>
    requires kept { Keeps F.Fn model.now }
    requires net { IsFormed net.now }
    ensures { IfOk result (AreRoutes net.now) }
{
    let mut sweep = Sweep::reserve(alloc, net)?;
    for block in 0..net.blocks.len() {
        sweep.sweep_block(net, model, prices, plan, block)?;
    }
    Ok(routes_of(alloc, net, &sweep.places)?)
}

/// Routes that are made layer by layer, with all strands of a block that live there at once: by
/// what each would pay from there on at these prices, between the plan's places, if it were alone.
/// Where the network does not admit them, home routes.
///
/// # Errors
///
/// Where there is no memory for it.
pub fn sweep<F: Fn(Event, u32) -> u32>(
    alloc: Global,
    net: &Net,
    model: &CostModel<F>,
    prices: &Prices,
    plan: &Plan,
) -> Result<Routes, OutOfMemory>
    requires kept { Keeps F.Fn model.now }
    requires net { IsBuilt net.now }
    ensures routes { IfOk result (AreRoutes net.now) }
    ensures admitted { IfOk result (λ routes. IsAdmitted net.now (flow net.now routes)) }
{
    let mut taken = Taken::empty(alloc, net)?;
    let routes = swept(alloc, net, model, prices, plan)?;
    if admitted(&mut taken, net, &routes).is_ok() {
        return Ok(routes);
    }
    home(alloc, net)
}
