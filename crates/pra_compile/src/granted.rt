// Routes that rounds find.

ghost use Rattle.std.specs.Prelude.{◌≤◌, IfOk};
ghost use Rattle.al_round.specs.Watches.{IsWatch, gap_of};
ghost use Rattle.net_cost.specs.Models.{Keeps, weights_of};
ghost use Rattle.pra_base.specs.Valid.{IsSized, IsValid};
ghost use Rattle.pra_compile.specs.Compiled.{IsGranted, wanted_of};
ghost use Rattle.pra_follow.specs.Codes.{AreAdmittedIn};

use crate::allocator::{Allocated, Allocator, network_of};
use al_round::{Allocation, Rounds, Verdict, Watch};
use net_cost::{CostModel, Event};
use net_form::Line;
use pra_base::{OutOfMemory, VProc};
use std::alloc::Global;

// The network of code, and what so many rounds at most leave of it.
fn by_rounds<F: Fn(Event, u32) -> u32, G: Fn(Line) -> Verdict>(
    alloc: Global,
    code: &VProc,
    rounds: u32,
    model: &CostModel<F>,
    watch: &Watch<G>,
    most_visits: u64,
) -> Result<Allocated, OutOfMemory>
    requires valid { IsValid code.now }
    requires sized { IsSized code.now }
    requires kept { Keeps F.Fn model.now }
    requires watch { IsWatch G.Fn watch.now }
    requires few { rounds ≤ 1000 }
    ensures routes { IfOk result (λ a. AreAdmittedIn code.now a.net a.routes) }
    ensures granted { IfOk result (λ a.
        IsGranted (wanted_of (weights_of model.now) rounds (gap_of watch.now)) a.net a.routes
        a.prices a.lines) }
{
    let net = network_of(alloc, code)?;
    let mut granted = Rounds::start(alloc, &net, model, most_visits)?;
    granted.grant(alloc, &net, model, rounds, watch)?;
    let Allocation {
        routes,
        prices,
        lines,
    } = granted.into_allocation();
    Ok(Allocated {
        net,
        routes,
        prices,
        lines,
    })
}

/// Routes by so many rounds at most for each procedure, or as many as the watch wants. The search
/// of a round makes so many visits at most, which stand here by number of procedure.
#[derive(Drop)]
pub struct Granted<'a, F: Fn(Event, u32) -> u32, G: Fn(Line) -> Verdict> {
    pub rounds: u32,
    pub model: &'a CostModel<F>,
    pub watch: &'a Watch<G>,
    pub visits: &'a [u64],
}

impl<'a, F: Fn(Event, u32) -> u32, G: Fn(Line) -> Verdict> Allocator for Granted<'a, F, G> {
    ghost use Rattle.std.specs.Prelude.{◌≤◌, ◌<◌, length};
    ghost use Rattle.al_round.specs.Watches.{IsWatch, gap_of};
    ghost use Rattle.net_cost.specs.Models.{Keeps, weights_of};
    ghost use Rattle.pra_compile.specs.Compiled.{granted, wanted_of};

    ghost takes = { λ by p code. Keeps F.Fn by.model.now × IsWatch G.Fn by.watch.now
        × (by.rounds ≤ 1000) × (p < length by.visits.now) };

    ghost leaves = { λ by. granted (wanted_of (weights_of by.model.now) by.rounds
        (gap_of by.watch.now)) };

    fn allocate(&self, alloc: Global, number: u32, code: &VProc) -> Result<Allocated, OutOfMemory> {
        let visits = self.visits[number as usize];
        by_rounds(alloc, code, self.rounds, self.model, self.watch, visits)
    }
}
