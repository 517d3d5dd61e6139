// What becomes of the best routes in a round.

ghost use Rattle.std.specs.Prelude.{◌≡◌, ◌≤◌, true};
ghost use Rattle.net_cost.specs.Models.{Keeps, weights_of};
ghost use Rattle.net_form.specs.Admitted.{IsAdmitted};
ghost use Rattle.net_form.specs.Cost.{cost_in};
ghost use Rattle.net_form.specs.Flow.{flow, AreRoutes};
ghost use Rattle.net_laws.specs.Built.{IsBuilt};
ghost use Rattle.net_path.specs.Desk.{IsReservedFor};
ghost use Rattle.al_laws.specs.Settled.{AreSettled};
ghost use Rattle.al_round.specs.Candidates.{IsCandidate, CostsAtLeast};
ghost use Rattle.al_iter.specs.Room.{IsSpareOf};

use crate::copies::overwrite_routes;
use crate::tried::Outcome;
use al_iter::settle;
use al_kick::{SearchRoom, kick};
use net_cost::{CostModel, Event};
use net_form::{Net, Prices, Routes, Spare};
use net_gate::cost;
use net_path::Work;

// Takes a candidate in place of the best routes, which cost so much, if it costs less, and answers
// what the best ones cost then.
fn take_cheaper<F: Fn(Event, u32) -> u32>(
    best: &mut Routes,
    net: &Net,
    model: &CostModel<F>,
    candidate: &Routes,
    now: u128,
) -> u128
    requires kept { Keeps F.Fn model.now }
    requires net { IsBuilt net.now }
    requires routes { AreRoutes net.now best.old }
    requires admitted { IsAdmitted net.now (flow net.now best.old) }
    requires cost { now ≡ cost_in net.now (weights_of model.now) best.old }
    requires candidate { AreRoutes net.now candidate.now }
    requires may { IsAdmitted net.now (flow net.now candidate.now) }
    ensures routes { AreRoutes net.now best.new }
    ensures admitted { IsAdmitted net.now (flow net.now best.new) }
    ensures cost { result ≡ cost_in net.now (weights_of model.now) best.new }
    ensures less { result ≤ now }
    ensures least { result ≤ cost_in net.now (weights_of model.now) candidate.now }
    ensures same { result ≡ now → best.new ≡ best.old }
{
    let cost = cost(net, model, candidate);
    if cost >= now {
        return now;
    }
    overwrite_routes(best, net, candidate);
    cost
}

// The same with what was laid, if anything was.
fn take_laid<F: Fn(Event, u32) -> u32>(
    best: &mut Routes,
    net: &Net,
    model: &CostModel<F>,
    outcome: &Outcome,
    now: u128,
) -> u128
    requires kept { Keeps F.Fn model.now }
    requires net { IsBuilt net.now }
    requires routes { AreRoutes net.now best.old }
    requires admitted { IsAdmitted net.now (flow net.now best.old) }
    requires cost { now ≡ cost_in net.now (weights_of model.now) best.old }
    requires candidate { IsCandidate net.now outcome.now }
    ensures routes { AreRoutes net.now best.new }
    ensures admitted { IsAdmitted net.now (flow net.now best.new) }
    ensures cost { result ≡ cost_in net.now (weights_of model.now) best.new }
    ensures less { result ≤ now }
    ensures least { CostsAtLeast net.now (weights_of model.now) result outcome.now }
    ensures same { result ≡ now → best.new ≡ best.old }
{
    match outcome {
        Outcome::Laid(routes) => take_cheaper(best, net, model, routes, now),
        Outcome::Blocked(_, _) => now,
    }
}

// Looks for routes that cost less than the best ones, and leaves them in the room.
fn look<F: Fn(Event, u32) -> u32>(
    search: &mut SearchRoom,
    spare: &mut Spare,
    net: &Net,
    model: &CostModel<F>,
    best: &Routes,
    prices: &Prices,
    round: u32,
    bound: u128,
) -> bool
    requires kept { Keeps F.Fn model.now }
    requires net { IsBuilt net.now }
    requires spare { IsSpareOf net.now spare.old }
    ensures spare { IsSpareOf net.now spare.new }
    ensures found { AreRoutes net.now spare.new.routes }
    ensures admitted { result ≡ true → IsAdmitted net.now (flow net.now spare.new.routes) }
{
    let taken = &mut spare.taken;
    let found = &mut spare.routes;
    kick(search, taken, found, net, model, best, prices, round, bound)
}

// Takes what the search finds from the best routes, which cost so much, led by prices, which give
// this bound, and answers what the best ones cost then.
fn take_kicked<F: Fn(Event, u32) -> u32>(
    best: &mut Routes,
    search: &mut SearchRoom,
    spare: &mut Spare,
    net: &Net,
    model: &CostModel<F>,
    prices: &Prices,
    round: u32,
    bound: u128,
    now: u128,
) -> u128
    requires kept { Keeps F.Fn model.now }
    requires net { IsBuilt net.now }
    requires spare { IsSpareOf net.now spare.old }
    requires routes { AreRoutes net.now best.old }
    requires admitted { IsAdmitted net.now (flow net.now best.old) }
    requires cost { now ≡ cost_in net.now (weights_of model.now) best.old }
    ensures routes { AreRoutes net.now best.new }
    ensures admitted { IsAdmitted net.now (flow net.now best.new) }
    ensures cost { result ≡ cost_in net.now (weights_of model.now) best.new }
    ensures less { result ≤ now }
    ensures same { result ≡ now → best.new ≡ best.old }
    ensures spare { IsSpareOf net.now spare.new }
{
    if !look(search, spare, net, model, best, prices, round, bound) {
        return now;
    }
    take_cheaper(best, net, model, &spare.routes, now)
}

/// Takes what was laid in place of the best routes where it costs less, then what the search finds
/// from there, led by prices, and settles what is best then. `settled` says that the best routes
/// were, and `now` what they cost; the number of the round decides where the search looks, and it
/// looks no further than the bound of these prices. What the best routes cost in the end is answered.
pub(crate) fn improve<F: Fn(Event, u32) -> u32>(
    settled: bool,
    work: &mut Work,
    spare: &mut Spare,
    net: &Net,
    model: &CostModel<F>,
    best: &mut Routes,
    outcome: &Outcome,
    search: &mut SearchRoom,
    prices: &Prices,
    round: u32,
    bound: u128,
    now: u128,
) -> u128
    requires kept { Keeps F.Fn model.now }
    requires net { IsBuilt net.now }
    requires work { IsReservedFor net.now work.old }
    requires spare { IsSpareOf net.now spare.old }
    requires routes { AreRoutes net.now best.old }
    requires admitted { IsAdmitted net.now (flow net.now best.old) }
    requires settled { settled ≡ true → AreSettled net.now (weights_of model.now) best.old }
    requires candidate { IsCandidate net.now outcome.now }
    requires cost { now ≡ cost_in net.now (weights_of model.now) best.old }
    ensures settled { AreSettled net.now (weights_of model.now) best.new }
    ensures cost { result ≡ cost_in net.now (weights_of model.now) best.new }
    ensures less { cost_in net.now (weights_of model.now) best.new ≤
        cost_in net.now (weights_of model.now) best.old }
    ensures least { CostsAtLeast net.now (weights_of model.now)
        (cost_in net.now (weights_of model.now) best.new) outcome.now }
    ensures spare { IsSpareOf net.now spare.new }
    ensures family { work.new.family ≡ work.old.family }
    ensures reserved { IsReservedFor net.now work.new }
{
    let laid = take_laid(best, net, model, outcome, now);
    let kicked = take_kicked(best, search, spare, net, model, prices, round, bound, laid);
    if settled && kicked == now {
        return now;
    }
    settle(work, spare, net, model, best);
    cost(net, model, best)
}
