// Passes over all strands and all variables, until one changes nothing.

ghost use Rattle.std.specs.Prelude.{◌≡◌, ◌<◌, ◌≤◌, ◌+◌, ℕ, length, IsTrue, IsFalse};
ghost use Rattle.pra_base.specs.declared.ids.Place.{Place};
ghost use Rattle.net_cost.specs.Models.{Keeps, weights_of};
ghost use Rattle.net_form.specs.Admitted.{IsAdmitted};
ghost use Rattle.net_form.specs.Cost.{cost_of};
ghost use Rattle.net_form.specs.Flow.{flow, AreRoutes};
ghost use Rattle.net_form.specs.InUse.{StandsFor};
ghost use Rattle.net_form.specs.Rooms.{IsRoomOf};
ghost use Rattle.net_laws.specs.Built.{IsBuilt};
ghost use Rattle.net_path.specs.Desk.{IsReservedFor};
ghost use Rattle.al_laws.specs.Settled.{AreSettled, NoneCheaper, NoneCheaperAt};
ghost use Rattle.al_iter.specs.Room.{IsSpareOf};
ghost use Rattle.al_iter.specs.SettleState.{AreMarkedRoutes};

use crate::settle_marks::take_strand;
use crate::settle_strand::change_strand;
use crate::settle_variable::change_variable;
use net_cost::{CostModel, Event};
use net_form::{Net, Routes, Spare, Taken};
use net_path::Work;

// Marks what routes use, and nothing else.
fn mark_routes(taken: &mut Taken, net: &Net, routes: &Routes)
    requires net { IsBuilt net.now }
    requires room { IsRoomOf net.now taken.old }
    requires routes { AreRoutes net.now routes.now }
    requires admitted { IsAdmitted net.now (flow net.now routes.now) }
    ensures room { IsRoomOf net.now taken.new }
    ensures marked { StandsFor net.now taken.new (flow net.now routes.now) }
{
    taken.clear();
    for strand in 0..net.strands.len() {
        take_strand(taken, net, routes, strand);
    }
}

// Asks each strand once for a cheaper path, and says whether any has one now.
fn change_strands<F: Fn(Event, u32) -> u32>(
    work: &mut Work,
    spare: &mut Spare,
    net: &Net,
    model: &CostModel<F>,
    routes: &mut Routes,
) -> bool
    requires kept { Keeps F.Fn model.now }
    requires net { IsBuilt net.now }
    requires work { IsReservedFor net.now work.old }
    requires state { AreMarkedRoutes net.now spare.old routes.old }
    ensures state { AreMarkedRoutes net.now spare.new routes.new }
    ensures lower { IsTrue result → cost_of net.now (weights_of model.now)
        (flow net.now routes.new) < cost_of net.now (weights_of model.now)
        (flow net.now routes.old) }
    ensures same { IsFalse result → routes.new ≡ routes.old }
    ensures settled { IsFalse result → (s : ℕ) → s < length net.now.strands →
        NoneCheaper net.now (weights_of model.now) routes.old s }
    ensures family { work.new.family ≡ work.old.family }
    ensures reserved { IsReservedFor net.now work.new }
{
    let mut changed = false;
    for strand in 0..net.strands.len() {
        if change_strand(work, spare, net, model, routes, strand) {
            changed = true;
        }
    }
    changed
}

// Asks each variable once for cheaper paths, and says whether any has some now.
fn change_variables<F: Fn(Event, u32) -> u32>(
    work: &mut Work,
    spare: &mut Spare,
    net: &Net,
    model: &CostModel<F>,
    routes: &mut Routes,
) -> bool
    requires kept { Keeps F.Fn model.now }
    requires net { IsBuilt net.now }
    requires work { IsReservedFor net.now work.old }
    requires state { AreMarkedRoutes net.now spare.old routes.old }
    ensures state { AreMarkedRoutes net.now spare.new routes.new }
    ensures lower { IsTrue result → cost_of net.now (weights_of model.now)
        (flow net.now routes.new) < cost_of net.now (weights_of model.now)
        (flow net.now routes.old) }
    ensures same { IsFalse result → routes.new ≡ routes.old }
    ensures settled { IsFalse result → (v : ℕ) → v + 1 < length net.now.index.vars →
        (p : Place) → NoneCheaperAt net.now (weights_of model.now) routes.old v p }
    ensures family { work.new.family ≡ work.old.family }
    ensures reserved { IsReservedFor net.now work.new }
{
    let mut changed = false;
    for var in 0..net.index.vars.len() - 1 {
        if change_variable(work, spare, net, model, routes, var) {
            changed = true;
        }
    }
    changed
}

// Asks all strands and then all variables, and says whether any changes. To ask the strands again
// before the variables, until none changes, costs a visit of each layer of a strand more.
fn change_any<F: Fn(Event, u32) -> u32>(
    work: &mut Work,
    spare: &mut Spare,
    net: &Net,
    model: &CostModel<F>,
    routes: &mut Routes,
) -> bool
    requires kept { Keeps F.Fn model.now }
    requires net { IsBuilt net.now }
    requires work { IsReservedFor net.now work.old }
    requires state { AreMarkedRoutes net.now spare.old routes.old }
    ensures state { AreMarkedRoutes net.now spare.new routes.new }
    ensures lower { IsTrue result → cost_of net.now (weights_of model.now)
        (flow net.now routes.new) < cost_of net.now (weights_of model.now)
        (flow net.now routes.old) }
    ensures same { IsFalse result → routes.new ≡ routes.old }
    ensures settled { IsFalse result → AreSettled net.now (weights_of model.now) routes.old }
    ensures family { work.new.family ≡ work.old.family }
    ensures reserved { IsReservedFor net.now work.new }
{
    let is_changed = change_strands(work, spare, net, model, routes);
    if change_variables(work, spare, net, model, routes) {
        return true;
    }
    is_changed
}

/// Changes admitted routes until they are settled: no strand has a cheaper path that keeps its
/// places at the entry and the exit of its block, and no variable has cheaper paths that are at one
/// place wherever it is tied, while all else stays. They cost no more than before. It takes no
/// memory: it works in the room that was reserved, and in a spare whose prices are all 0.
pub fn settle<F: Fn(Event, u32) -> u32>(
    work: &mut Work,
    spare: &mut Spare,
    net: &Net,
    model: &CostModel<F>,
    routes: &mut Routes,
)
    requires kept { Keeps F.Fn model.now }
    requires net { IsBuilt net.now }
    requires work { IsReservedFor net.now work.old }
    requires spare { IsSpareOf net.now spare.old }
    requires routes { AreRoutes net.now routes.old }
    requires admitted { IsAdmitted net.now (flow net.now routes.old) }
    ensures settled { AreSettled net.now (weights_of model.now) routes.new }
    ensures cost { cost_of net.now (weights_of model.now) (flow net.now routes.new) ≤
        cost_of net.now (weights_of model.now) (flow net.now routes.old) }
    ensures spare { IsSpareOf net.now spare.new }
    ensures family { work.new.family ≡ work.old.family }
    ensures reserved { IsReservedFor net.now work.new }
{
    mark_routes(&mut spare.taken, net, routes);
    while change_any(work, spare, net, model, routes) {}
}
