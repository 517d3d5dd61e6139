// What is tried by the prices of a round.

ghost use Rattle.std.specs.Prelude.{◌≡◌, ◌≤◌, ℕ, Some, length, slice_get, IfOk, IsPermutation};
ghost use Rattle.std.specs.List.{range_with_len};
ghost use Rattle.net_cost.specs.Models.{Keeps, weights_of};
ghost use Rattle.net_form.specs.Flow.{AreRoutes};
ghost use Rattle.net_laws.specs.Built.{IsBuilt};
ghost use Rattle.net_dual.specs.Priced.{AreInRange};
ghost use Rattle.net_dual.specs.Step.{IsNext};
ghost use Rattle.net_path.specs.Desk.{IsReservedFor};
ghost use Rattle.al_iter.specs.LaidSoFar.{IsLayRoom};
ghost use Rattle.al_round.specs.Tried.{IsOutcome, IsTried};

use crate::copies::overwrite_prices;
use crate::tried::{Outcome, Tried};
use al_edge::plan_in;
use al_iter::{BlockedStrand, LayRoom, lay_in, priced_order};
use net_cost::{CostModel, Event};
use net_form::{Net, Plan, Prices, Routes};
use net_path::Work;
use net_price::step;
use pra_base::OutOfMemory;
use pra_list::Seq;
use std::alloc::Global;

/// Makes the prices of round k out of those before it, by the family of paths at them.
pub(crate) fn step_prices(next: &mut Prices, prices: &Prices, net: &Net, family: &Routes, k: u32)
    requires k { 1 ≤ k }
    requires net { IsBuilt net.now }
    requires prices { AreInRange net.now prices.now }
    requires next { AreInRange net.now next.old }
    requires family { AreRoutes net.now family.now }
    ensures next { IsNext net.now family.now k prices.now next.new }
    ensures range { AreInRange net.now next.new }
{
    overwrite_prices(next, prices);
    step(next, net, family, k);
}

// What laying by a plan and an order comes to. All memory was taken before, so there is no answer
// for want of it.
fn lay_by<F: Fn(Event, u32) -> u32>(
    room: LayRoom,
    work: &mut Work,
    net: &Net,
    model: &CostModel<F>,
    prices: &Prices,
    plan: &Plan,
    order: &[u32],
) -> Outcome
    requires room { IsLayRoom net.now room }
    requires kept { Keeps F.Fn model.now }
    requires net { IsBuilt net.now }
    requires work { IsReservedFor net.now work.old }
    requires prices { AreInRange net.now prices.now }
    requires order { IsPermutation (range_with_len 0 (length net.now.strands)) order.now }
    requires many { length plan.now.places ≡ net.now.groups }
    ensures outcome { IsOutcome net.now (weights_of model.now) prices.now plan.now order.now 0
        result }
    ensures family { work.new.family ≡ work.old.family }
    ensures reserved { IsReservedFor net.now work.new }
{
    match lay_in(room, work, net, model, prices, plan, order) {
        Ok(routes) => Outcome::Laid(routes),
        Err(BlockedStrand { strand, taken }) => Outcome::Blocked(strand, taken),
    }
}

/// Makes a greedy plan and its priced order, and lays the strands by them. `work.family()` stays
/// what it was.
///
/// # Errors
///
/// Where there is no memory for it. A strand that is blocked is an outcome, and no fault.
pub(crate) fn try_prices<F: Fn(Event, u32) -> u32>(
    alloc: Global,
    work: &mut Work,
    net: &Net,
    model: &CostModel<F>,
    prices: &Prices,
) -> Result<Tried, OutOfMemory>
    requires kept { Keeps F.Fn model.now }
    requires net { IsBuilt net.now }
    requires work { IsReservedFor net.now work.old }
    requires prices { AreInRange net.now prices.now }
    ensures tried { IfOk result (IsTried net.now (weights_of model.now) prices.now 0) }
    ensures family { work.new.family ≡ work.old.family }
    ensures reserved { IsReservedFor net.now work.new }
{
    let plan = plan_in(alloc, work, net, model, prices)?;
    let order = priced_order(alloc, work, net, model, prices, &plan)?;
    let room = LayRoom::reserve(alloc, net)?;
    let outcome = lay_by(room, work, net, model, prices, &plan, order.as_slice());
    Ok(Tried {
        plan,
        order: Seq::from_vec(order),
        outcome,
    })
}
