// Paths laid one after the other.

ghost use Rattle.std.specs.Prelude.{◌≡◌, ◌<◌, ◌+◌, ℕ, [], length, map, slice_index, IfOk, IfErr};
ghost use Rattle.std.specs.Prelude.{OnOk, OnErr, IsPermutation};
ghost use Rattle.std.specs.List.{range_with_len};
ghost use Rattle.net_cost.specs.Models.{Keeps, weights_of};
ghost use Rattle.net_form.specs.Admitted.{IsAdmitted};
ghost use Rattle.net_form.specs.Flow.{flow, AreRoutes};
ghost use Rattle.net_form.specs.Rooms.{some_routes};
ghost use Rattle.net_laws.specs.Built.{IsBuilt};
ghost use Rattle.net_dual.specs.Priced.{AreInRange};
ghost use Rattle.net_path.specs.Desk.{IsReservedFor};
ghost use Rattle.al_laws.specs.Laid.{AreLaid};
ghost use Rattle.al_iter.specs.LaidSoFar.{IsBlockedStrand, IsBlockedWith, IsLaidSoFar};
ghost use Rattle.al_iter.specs.LaidSoFar.{IsLayFault, IsLayRoom, routes_of};
ghost use Rattle.al_iter.specs.declared.laying.LayFault.TheVariants as fault;

use crate::order::plan_ends;
use net_cost::{CostModel, Event};
use net_form::{Net, Plan, Prices, Routes, Taken};
use net_path::{NoPath, Work, least};
use pra_base::{OutOfMemory, Place};
use pra_packed::Packed;
use std::alloc::Global;
use thiserror::Error;

/// A strand that has no path with the plan's ends past what is taken, which is what the strands
/// before it in the order use.
#[derive(Debug, PartialEq, Eq, Drop)]
pub struct BlockedStrand {
    pub strand: u32,
    pub taken: Taken,
}

/// Why there are no routes.
#[derive(Debug, PartialEq, Eq, Drop, Error)]
pub enum LayFault {
    /// This strand is blocked by what is taken.
    #[error("strand {0} has no path left")]
    Blocked(u32, Taken),
    #[error("out of memory")]
    OutOfMemory,
}

impl From<BlockedStrand> for LayFault {
    ghost from_gives = { λ blocked told. told ≡ fault.Blocked blocked.strand blocked.taken };

    fn from(blocked: BlockedStrand) -> Self {
        LayFault::Blocked(blocked.strand, blocked.taken)
    }
}

impl From<OutOfMemory> for LayFault {
    ghost from_gives = { λ _ told. told ≡ fault.OutOfMemory };

    fn from(_: OutOfMemory) -> Self {
        LayFault::OutOfMemory
    }
}

// Some place for each layer of each strand.
fn some_paths(alloc: Global, net: &Net) -> Result<Packed<Place>, OutOfMemory>
    ensures { IfOk result (λ paths. paths ≡ (some_routes net.now).places) }
{
    let mut paths = Packed::with_capacity(alloc, net.strands.len())?;
    for strand in net.strands.as_slice() {
        paths.push_filled(Place::Eax, strand.masks.len())?;
    }
    Ok(paths)
}

/// All memory that laying takes beside the room for least paths: paths, and what they use.
#[derive(Drop)]
pub struct LayRoom {
    paths: Packed<Place>,
    taken: Taken,
}

impl LayRoom {
    /// Room for the strands of a network.
    ///
    /// # Errors
    ///
    /// Where there is no memory for it.
    pub fn reserve(alloc: Global, net: &Net) -> Result<LayRoom, OutOfMemory>
        ensures { IfOk result (IsLayRoom net.now) }
    {
        Ok(LayRoom {
            paths: some_paths(alloc, net)?,
            taken: Taken::empty(alloc, net)?,
        })
    }
}

// Lays the strand that is next in the order, where it has a path left.
fn lay_next<F: Fn(Event, u32) -> u32>(
    work: &mut Work,
    net: &Net,
    model: &CostModel<F>,
    prices: &Prices,
    plan: &Plan,
    order: &[u32],
    at: usize,
    taken: &mut Taken,
    paths: &mut Packed<Place>,
) -> Result<(), NoPath>
    requires kept { Keeps F.Fn model.now }
    requires net { IsBuilt net.now }
    requires work { IsReservedFor net.now work.old }
    requires prices { AreInRange net.now prices.now }
    requires order { IsPermutation (range_with_len 0 (length net.now.strands)) order.now }
    requires at { at < length order.now }
    requires laid { IsLaidSoFar net.now (weights_of model.now) prices.now plan.now order.now at
        (routes_of paths.old) taken.old }
    ensures laid { OnOk result (IsLaidSoFar net.now (weights_of model.now) prices.now plan.now
        order.now (at + 1) (routes_of paths.new) taken.new) }
    ensures blocked { OnErr result (IsBlockedStrand net.now (weights_of model.now) prices.now
        plan.now order.now (slice_index order.now at) taken.new) }
    ensures family { work.new.family ≡ work.old.family }
    ensures reserved { IsReservedFor net.now work.new }
{
    let strand = order[at];
    let ends = plan_ends(net, plan, strand);
    least(work, net, model, prices, strand, ends, taken)?;
    let path = work.path();
    taken.take_path(net, strand as usize, path);
    paths.overwrite(strand as usize, path);
    Ok(())
}

/// Lays the strands in the order: each gets a path of least priced cost with the plan's ends, among
/// those that use nothing which the paths before it use. All memory was taken before, so a strand
/// that has no path left is the only reason for which there are no routes.
///
/// # Errors
///
/// The strand that has no path left, with what is taken then.
pub fn lay_in<F: Fn(Event, u32) -> u32>(
    room: LayRoom,
    work: &mut Work,
    net: &Net,
    model: &CostModel<F>,
    prices: &Prices,
    plan: &Plan,
    order: &[u32],
) -> Result<Routes, BlockedStrand>
    requires room { IsLayRoom net.now room }
    requires kept { Keeps F.Fn model.now }
    requires net { IsBuilt net.now }
    requires work { IsReservedFor net.now work.old }
    requires prices { AreInRange net.now prices.now }
    requires order { IsPermutation (range_with_len 0 (length net.now.strands)) order.now }
    requires many { length plan.now.places ≡ net.now.groups }
    ensures laid { IfOk result (AreLaid net.now (weights_of model.now) prices.now plan.now
        order.now) }
    ensures routes { IfOk result (AreRoutes net.now) }
    ensures admitted { IfOk result (λ routes. IsAdmitted net.now (flow net.now routes)) }
    ensures blocked { IfErr result (IsBlockedWith net.now (weights_of model.now) prices.now
        plan.now order.now) }
    ensures family { work.new.family ≡ work.old.family }
    ensures reserved { IsReservedFor net.now work.new }
{
    let LayRoom {
        mut paths,
        mut taken,
    } = room;
    for at in 0..order.len() {
        let next = lay_next(
            work, net, model, prices, plan, order, at, &mut taken, &mut paths,
        );
        if next.is_err() {
            return Err(BlockedStrand {
                strand: order[at],
                taken,
            });
        }
    }
    Ok(Routes { places: paths })
}

/// The same in a room of its own.
///
/// # Errors
///
/// `Blocked` where a strand has no path left, with what is taken then, and `OutOfMemory` where
/// there is no memory for the room.
pub fn lay<F: Fn(Event, u32) -> u32>(
    alloc: Global,
    net: &Net,
    model: &CostModel<F>,
    prices: &Prices,
    plan: &Plan,
    order: &[u32],
) -> Result<Routes, LayFault>
    requires kept { Keeps F.Fn model.now }
    requires net { IsBuilt net.now }
    requires prices { AreInRange net.now prices.now }
    requires order { IsPermutation (range_with_len 0 (length net.now.strands)) order.now }
    requires many { length plan.now.places ≡ net.now.groups }
    ensures laid { IfOk result (AreLaid net.now (weights_of model.now) prices.now plan.now
        order.now) }
    ensures routes { IfOk result (AreRoutes net.now) }
    ensures admitted { IfOk result (λ routes. IsAdmitted net.now (flow net.now routes)) }
    ensures fault { IfErr result (IsLayFault net.now (weights_of model.now) prices.now plan.now
        order.now) }
{
    let room = LayRoom::reserve(alloc, net)?;
    let mut work = Work::reserve(alloc, net, model)?;
    let routes = lay_in(room, &mut work, net, model, prices, plan, order)?;
    Ok(routes)
}
