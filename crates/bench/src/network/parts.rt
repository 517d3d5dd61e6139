// The parts of the work. Each does its own, notes its time, and goes on to the next.

ghost use Rattle.std.specs.Prelude.{◌≡◌, ◌<◌, length, IfOk};
ghost use Rattle.pra_base.specs.Valid.{IsSized, IsValid};
ghost use Rattle.net_cost.specs.Models.{Keeps};
ghost use Rattle.net_form.specs.Flow.{AreRoutes};
ghost use Rattle.net_form.specs.Network.{IsNet};
ghost use Rattle.net_form.specs.Rooms.{empty_spare};
ghost use Rattle.net_laws.specs.Built.{IsBuilt};
ghost use Rattle.net_path.specs.Desk.{IsReservedFor};
ghost use Rattle.vc_live.specs.Rows.{IsLiveness};

use crate::network::work::{Stop, Work};
use al_edge::home;
use net_build::build;
use net_cost::{CostModel, Event, Weights};
use net_form::{Ends, Net, Routes, Spare, Taken};
use net_gate::{admitted, cost};
use net_path::least;
use net_plain::least_plain;
use net_price::lagrange;
use pra_base::{OutOfMemory, VProc};
use std::alloc::Global;
use vc_live::{Liveness, live};
use vc_valid::is_valid;

// A path may begin and end anywhere.
const ANYWHERE: Ends = Ends {
    first: None,
    last: None,
};

/// The liveness of sized code, and what comes behind it.
pub fn from_live(rt: &HostRuntime, work: &mut Work, code: &VProc) -> Result<(), Stop>
    requires sized { IsSized code.now }
{
    work.start(rt)?;
    let liveness = live(rt.alloc(), code).map_err(|_| Stop::NoMemory)?;
    work.done(rt, "live")?;
    from_build(rt, work, code, &liveness)
}

fn print_net(rt: &HostRuntime, net: &Net) -> Result<(), Stop> {
    println!(rt;
        "network: {} blocks, {} strands, {} extras, {} memory pairs, {} ties, {} groups",
        net.blocks.len(),
        net.strands.len(),
        net.extras.len(),
        net.pairs.len(),
        net.ties.len(),
        net.groups
    )
    .map_err(|_| Stop::NoHost)
}

// The network.
fn from_build(
    rt: &HostRuntime,
    work: &mut Work,
    code: &VProc,
    liveness: &Liveness,
) -> Result<(), Stop>
    requires sized { IsSized code.now }
    requires live { IsLiveness code.now liveness.now }
{
    let net = build(rt.alloc(), code, liveness).map_err(|_| Stop::NoMemory)?;
    print_net(rt, &net)?;
    work.done(rt, "build")?;
    from_valid(rt, work, code, liveness, &net)
}

// In how many pairs of a strand and a layer the network has a mask.
fn note_masks(rt: &HostRuntime, net: &Net) -> Result<(), Stop> {
    let mut masks = 0usize;
    for strand in net.strands.as_slice() {
        masks = masks.saturating_add(strand.masks.len());
    }
    eprintln!(rt; "masks {masks}").map_err(|_| Stop::NoHost)
}

// Whether the code is valid.
fn from_valid(
    rt: &HostRuntime,
    work: &mut Work,
    code: &VProc,
    liveness: &Liveness,
    net: &Net,
) -> Result<(), Stop>
    requires sized { IsSized code.now }
    requires live { IsLiveness code.now liveness.now }
    requires net { IsNet net.now code.now }
{
    note_masks(rt, net)?;
    if is_valid(code, liveness) {
        work.done(rt, "valid")?;
        return from_home(rt, work, code, net);
    }
    Err(Stop::NotValid)
}

// Home routes of the network of valid code.
fn home_routes(alloc: Global, code: &VProc, net: &Net) -> Result<Routes, OutOfMemory>
    requires sized { IsSized code.now }
    requires valid { IsValid code.now }
    requires net { IsNet net.now code.now }
    ensures { IfOk result (AreRoutes net.now) }
{
    home(alloc, net)
}

// Home routes.
fn from_home(rt: &HostRuntime, work: &mut Work, code: &VProc, net: &Net) -> Result<(), Stop>
    requires sized { IsSized code.now }
    requires valid { IsValid code.now }
    requires net { IsNet net.now code.now }
{
    let routes = home_routes(rt.alloc(), code, net).map_err(|_| Stop::NoMemory)?;
    work.done(rt, "home")?;
    from_admitted(rt, work, code, net, &routes)
}

// Whether the network admits the routes.
fn admit(alloc: Global, code: &VProc, net: &Net, routes: &Routes) -> Result<(), Stop>
    requires sized { IsSized code.now }
    requires net { IsNet net.now code.now }
    requires routes { AreRoutes net.now routes.now }
{
    let mut taken = Taken::empty(alloc, net).map_err(|_| Stop::NoMemory)?;
    admitted(&mut taken, net, routes).map_err(|_| Stop::NotAdmitted)
}

// What the routes cost by size.
fn cost_by_size(code: &VProc, net: &Net, routes: &Routes) -> u128
    requires sized { IsSized code.now }
    requires net { IsNet net.now code.now }
    requires routes { AreRoutes net.now routes.now }
{
    let model = CostModel::keep(Weights::size(), |event: Event, depth: u32| {
        Weights::size().weight(event, depth)
    });
    cost(net, &model, routes)
}

// Whether the routes are admitted, and what they cost.
fn from_admitted(
    rt: &HostRuntime,
    work: &mut Work,
    code: &VProc,
    net: &Net,
    routes: &Routes,
) -> Result<(), Stop>
    requires sized { IsSized code.now }
    requires valid { IsValid code.now }
    requires net { IsNet net.now code.now }
    requires routes { AreRoutes net.now routes.now }
{
    admit(rt.alloc(), code, net, routes)?;
    work.done(rt, "admitted")?;
    let total = cost_by_size(code, net, routes);
    println!(rt; "home routes: cost {total} by size").map_err(|_| Stop::NoHost)?;
    work.done(rt, "cost")?;
    from_spare(rt, work, code, net)
}

// Prices of nothing.
fn from_spare(rt: &HostRuntime, work: &mut Work, code: &VProc, net: &Net) -> Result<(), Stop>
    requires sized { IsSized code.now }
    requires valid { IsValid code.now }
    requires net { IsNet net.now code.now }
{
    let spare = Spare::empty(rt.alloc(), net).map_err(|_| Stop::NoMemory)?;
    from_reserve(rt, work, net, &spare)
}

// Room for least paths.
fn from_reserve(rt: &HostRuntime, work: &mut Work, net: &Net, spare: &Spare) -> Result<(), Stop>
    requires net { IsBuilt net.now }
    requires spare { spare.now ≡ empty_spare net.now }
{
    let model = CostModel::keep(Weights::size(), |event: Event, depth: u32| {
        Weights::size().weight(event, depth)
    });
    let mut room = net_path::Work::reserve(rt.alloc(), net, &model).map_err(|_| Stop::NoMemory)?;
    work.done(rt, "reserve")?;
    from_lagrange(rt, work, &mut room, net, &model, spare)
}

// The value, in units of 1/1024, and a least path of each strand.
fn from_lagrange<F: Fn(Event, u32) -> u32>(
    rt: &HostRuntime,
    work: &mut Work,
    room: &mut net_path::Work,
    net: &Net,
    model: &CostModel<F>,
    spare: &Spare,
) -> Result<(), Stop>
    requires kept { Keeps F.Fn model.now }
    requires net { IsBuilt net.now }
    requires room { IsReservedFor net.now room.old }
    requires spare { spare.now ≡ empty_spare net.now }
{
    let value = lagrange(room, net, model, &spare.zero);
    println!(rt; "value {value} / 1024 by size").map_err(|_| Stop::NoHost)?;
    work.done(rt, "lagrange")?;
    from_least(rt, work, room, net, model, spare)
}

// Finds a least path of each strand, alone.
fn find_each<F: Fn(Event, u32) -> u32>(
    room: &mut net_path::Work,
    net: &Net,
    model: &CostModel<F>,
    spare: &Spare,
)
    requires kept { Keeps F.Fn model.now }
    requires net { IsBuilt net.now }
    requires room { IsReservedFor net.now room.old }
    requires spare { spare.now ≡ empty_spare net.now }
{
    for strand in 0..net.strands.len() {
        let (prices, free) = (&spare.zero, &spare.taken);
        let _ = least(room, net, model, prices, strand as u32, ANYWHERE, free);
    }
}

// A least path of each strand, alone.
fn from_least<F: Fn(Event, u32) -> u32>(
    rt: &HostRuntime,
    work: &mut Work,
    room: &mut net_path::Work,
    net: &Net,
    model: &CostModel<F>,
    spare: &Spare,
) -> Result<(), Stop>
    requires kept { Keeps F.Fn model.now }
    requires net { IsBuilt net.now }
    requires room { IsReservedFor net.now room.old }
    requires spare { spare.now ≡ empty_spare net.now }
{
    find_each(room, net, model, spare);
    work.done(rt, "least")?;
    from_plain(rt, work, net, model, spare)
}

// Finds what the least path of a strand costs by plain loops, and answers how many layers it has.
fn find_plain<F: Fn(Event, u32) -> u32>(
    net: &Net,
    model: &CostModel<F>,
    spare: &Spare,
    strand: u32,
) -> usize
    requires kept { Keeps F.Fn model.now }
    requires net { IsBuilt net.now }
    requires spare { spare.now ≡ empty_spare net.now }
    requires strand { strand < length net.now.strands }
{
    let _ = least_plain(net, model, &spare.zero, strand, ANYWHERE, &spare.taken);
    net.strands[strand as usize].masks.len()
}

// The same of the first strand by plain loops, which ask the whole network at each place.
fn from_plain<F: Fn(Event, u32) -> u32>(
    rt: &HostRuntime,
    work: &mut Work,
    net: &Net,
    model: &CostModel<F>,
    spare: &Spare,
) -> Result<(), Stop>
    requires kept { Keeps F.Fn model.now }
    requires net { IsBuilt net.now }
    requires spare { spare.now ≡ empty_spare net.now }
{
    if net.strands.is_empty() {
        return Err(Stop::Done);
    }
    let layers = find_plain(net, model, spare, 0);
    println!(rt; "plain loops: {layers} layers").map_err(|_| Stop::NoHost)?;
    work.done(rt, "plain")
}
