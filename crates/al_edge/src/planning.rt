// The greedy plan: a place for each tie group, one group after the other.

ghost use Rattle.std.specs.Prelude.{◌≡◌, ◌<◌, ◌+◌, ℕ, [], min, count_by, length, OnOk, IfOk};
ghost use Rattle.net_cost.specs.Models.{Keeps, weights_of};
ghost use Rattle.net_form.specs.Formed.{IsFormed};
ghost use Rattle.net_form.specs.InUse.{mark, StandsFor};
ghost use Rattle.net_form.specs.Rooms.{IsRoomOf};
ghost use Rattle.net_laws.specs.Built.{IsBuilt};
ghost use Rattle.net_dual.specs.Priced.{AreInRange};
ghost use Rattle.net_path.specs.Desk.{IsReservedFor};
ghost use Rattle.al_laws.specs.Greedy.{IsGreedy};
ghost use Rattle.al_edge.specs.GroupEnds.{ends_of};
ghost use Rattle.al_edge.specs.OpenPlaces.{comes_there, suits_all};
ghost use Rattle.al_edge.specs.Planned.{ArePlanned};
ghost use Rattle.al_edge.specs.Weighed.{IsLightest};

use crate::cheapest::cheapest;
use crate::members::{ends_of, layer_of};
use crate::weights::{is_memory_alone, places_for_all, weights};
use net_cost::{CostModel, Event};
use net_form::{Net, Plan, Prices, Taken};
use net_path::Work;
use pra_base::{OutOfMemory, Place};
use pra_list::Seq;
use std::alloc::Global;

// Marks the register of a group's place, if it has one, at the layers of its ends.
fn take_group(net: &Net, used: &mut Taken, group: u32, place: Place)
    requires net { IsFormed net.now }
    requires group { group < net.now.groups }
    requires used { IsRoomOf net.now used.old }
    ensures room { IsRoomOf net.now used.new }
    ensures marks { (n r : ℕ) → mark used.new.regs n r ≡ min 1 (mark used.old.regs n r +
        count_by (comes_there net.now n r place) (ends_of net.now group)) }
{
    if !place.has_register() {
        return;
    }
    for end in ends_of(net, group) {
        used.take_place(layer_of(net, *end), place);
    }
}

// The place that costs a group least, of those that the groups before it leave open. Where that is
// memory alone, no path is looked for.
fn best_place<F: Fn(Event, u32) -> u32>(
    work: &mut Work,
    net: &Net,
    model: &CostModel<F>,
    prices: &Prices,
    free: &Taken,
    used: &Taken,
    group: u32,
) -> Place
    requires kept { Keeps F.Fn model.now }
    requires net { IsBuilt net.now }
    requires work { IsReservedFor net.now work.old }
    requires prices { AreInRange net.now prices.now }
    requires room { IsRoomOf net.now free.now }
    requires free { StandsFor net.now free.now [] }
    requires used { IsRoomOf net.now used.now }
    requires group { group < net.now.groups }
    ensures best { IsLightest net.now (weights_of model.now) prices.now
        (suits_all net.now used.now.regs group) group result }
    ensures family { work.new.family ≡ work.old.family }
    ensures reserved { IsReservedFor net.now work.new }
{
    let places = places_for_all(net, used, group);
    if is_memory_alone(places) {
        return Place::Mem;
    }
    cheapest(&weights(work, net, model, prices, free, used, group, places))
}

// The place of one group more.
fn add_place<F: Fn(Event, u32) -> u32>(
    work: &mut Work,
    net: &Net,
    model: &CostModel<F>,
    prices: &Prices,
    free: &Taken,
    used: &mut Taken,
    places: &mut Seq<Place>,
    group: u32,
) -> Result<(), OutOfMemory>
    requires kept { Keeps F.Fn model.now }
    requires net { IsBuilt net.now }
    requires work { IsReservedFor net.now work.old }
    requires prices { AreInRange net.now prices.now }
    requires room { IsRoomOf net.now free.now }
    requires free { StandsFor net.now free.now [] }
    requires group { group < net.now.groups }
    requires planned { ArePlanned net.now (weights_of model.now) prices.now used.old group
        places.old }
    ensures planned { OnOk result (ArePlanned net.now (weights_of model.now) prices.now used.new
        (group + 1) places.new) }
    ensures family { work.new.family ≡ work.old.family }
    ensures reserved { IsReservedFor net.now work.new }
{
    let place = best_place(work, net, model, prices, free, used, group);
    take_group(net, used, group, place);
    places.push(place)?;
    Ok(())
}

/// The greedy plan, in room that the caller gives: group after group the open place that costs its
/// strands least at these prices, each alone, and of several the one of the lowest number. Open is
/// a place in the masks of all ends of the group whose register, alone or in a both place, no
/// earlier group has at the layer of one of them. The family of the room stays as it is.
///
/// # Errors
///
/// Where there is no memory for it.
pub fn plan_in<F: Fn(Event, u32) -> u32>(
    alloc: Global,
    work: &mut Work,
    net: &Net,
    model: &CostModel<F>,
    prices: &Prices,
) -> Result<Plan, OutOfMemory>
    requires kept { Keeps F.Fn model.now }
    requires net { IsBuilt net.now }
    requires work { IsReservedFor net.now work.old }
    requires prices { AreInRange net.now prices.now }
    ensures greedy { IfOk result (λ plan. IsGreedy net.now (weights_of model.now) prices.now plan) }
    ensures family { work.new.family ≡ work.old.family }
    ensures reserved { IsReservedFor net.now work.new }
{
    let free = Taken::empty(alloc, net)?;
    let mut used = Taken::empty(alloc, net)?;
    let mut places = Seq::from_vec(Vec::with_capacity(alloc, net.groups as usize)?);
    for group in 0..net.groups {
        add_place(
            work,
            net,
            model,
            prices,
            &free,
            &mut used,
            &mut places,
            group,
        )?;
    }
    Ok(Plan { places })
}

/// The greedy plan, as [`plan_in`] makes it, in room of its own.
///
/// # Errors
///
/// Where there is no memory for it.
pub fn plan<F: Fn(Event, u32) -> u32>(
    alloc: Global,
    net: &Net,
    model: &CostModel<F>,
    prices: &Prices,
) -> Result<Plan, OutOfMemory>
    requires kept { Keeps F.Fn model.now }
    requires net { IsBuilt net.now }
    requires prices { AreInRange net.now prices.now }
    ensures { IfOk result (λ plan. IsGreedy net.now (weights_of model.now) prices.now plan) }
{
    let mut work = Work::reserve(alloc, net, model)?;
    plan_in(alloc, &mut work, net, model, prices)
}
