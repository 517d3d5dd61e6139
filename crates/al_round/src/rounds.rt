// Rounds, and how they begin and go on.

ghost use Rattle.std.specs.Prelude.{◌≡◌, ◌≤◌, ◌+◌, ◌-◌, length, IfOk, OnOk, OnErr, Some, None};
ghost use Rattle.std.specs.Prelude.{slice_get, ◌++◌, ◌∷◌, []};
ghost use Rattle.net_cost.specs.declared.weights.Weights.{Weights};
ghost use Rattle.net_cost.specs.Models.{Keeps, weights_of};
ghost use Rattle.net_form.specs.declared.net.Net.{Net as AnyNet};
ghost use Rattle.net_laws.specs.Built.{IsBuilt};
ghost use Rattle.net_dual.specs.Step.{IsNext};
ghost use Rattle.al_edge.specs.HomeRoutes.{AreHome};
ghost use Rattle.al_round.specs.Allocations.{IsAllocation};
ghost use Rattle.al_round.specs.Rounds.{AreRounds, HaveGoneOn, IsRoundRoom, AreSame};
ghost use Rattle.al_round.specs.Rounds.{family_of};
ghost use Rattle.al_round.specs.Tried.{IsTried};
ghost use Rattle.al_round.specs.Watches.{IsWatch, gap_of, WasObeyed, WentOn};

use crate::allocation::Allocation;
use crate::copies::copy_prices;
use crate::improving::improve;
use crate::raised::Raised;
use crate::room::{RoundRoom, room_for};
use crate::tried::Tried;
use crate::trying::{step_prices, try_prices};
use crate::value::{keep_greatest, rounded_up};
use crate::watch::{Verdict, Watch};
use al_edge::home;
use net_cost::{CostModel, Event};
use net_form::{Line, Net, Prices, Routes};
use net_gate::cost;
use net_path::Work;
use net_price::lagrange;
use pra_base::OutOfMemory;
use pra_list::Seq;
use std::alloc::Global;
use std::mem;

// The room of a line.
const NO_LINE: Line = Line {
    round: 0,
    cost: 0,
    bound: 0,
};

/// Rounds on a network: where they stand, and the room that they work in.
#[derive(Drop)]
pub struct Rounds {
    /// The best routes so far.
    pub best: Routes,
    /// The prices of the last round.
    pub prices: Prices,
    /// The prices of the greatest value so far.
    pub best_prices: Prices,
    /// A line for round 0 and for each round that was made.
    pub lines: Seq<Line>,
    /// What the last round tried.
    pub tried: Option<Tried>,
    pub(crate) best_value: i128,
    pub(crate) raised: Raised,
    pub(crate) work: Work,
    pub(crate) most_visits: u64,
    pub(crate) room: Option<RoundRoom>,
}

impl Rounds {
    /// A family of least paths at the prices of the last round.
    pub fn family(&self) -> &Routes
        ensures { result.now ≡ family_of self.now }
    {
        self.work.family()
    }

    /// Round 0: prices of nothing, home routes and their cost, and the value of no prices. The
    /// search of a round makes so many visits at most (al_kick), and so do the sweeps that raise
    /// prices, but for the first.
    ///
    /// # Errors
    ///
    /// Where there is no memory for it.
    pub fn start<F: Fn(Event, u32) -> u32>(
        alloc: Global,
        net: &Net,
        model: &CostModel<F>,
        most_visits: u64,
    ) -> Result<Rounds, OutOfMemory>
        requires kept { Keeps F.Fn model.now }
        requires net { IsBuilt net.now }
        ensures rounds { IfOk result (AreRounds net.now (weights_of model.now)) }
        ensures one { IfOk result (λ rounds. length rounds.lines ≡ 1) }
        ensures home { IfOk result (λ rounds. AreHome net.now rounds.best) }
    {
        let prices = Prices::zero(alloc, net)?;
        let best_prices = copy_prices(alloc, &prices)?;
        let mut work = Work::reserve(alloc, net, model)?;
        let best = home(alloc, net)?;
        let best_value = lagrange(&mut work, net, model, &prices);
        let raised = Raised::start(alloc, &best, &prices, best_value, most_visits)?;
        let line = Line {
            round: 0,
            cost: cost(net, model, &best),
            bound: rounded_up(best_value),
        };
        let lines = Seq::from_slice(alloc, &[line])?;
        Ok(Rounds {
            best,
            prices,
            best_prices,
            lines,
            tried: None,
            best_value,
            raised,
            work,
            most_visits,
            room: None,
        })
    }

    /// One round more, with its line. The net and the model are those of the start.
    ///
    /// # Errors
    ///
    /// Where there is no memory for it. Nothing changed then.
    pub fn round<F: Fn(Event, u32) -> u32>(
        &mut self,
        alloc: Global,
        net: &Net,
        model: &CostModel<F>,
    ) -> Result<Line, OutOfMemory>
        requires kept { Keeps F.Fn model.now }
        requires net { IsBuilt net.now }
        requires rounds { AreRounds net.now (weights_of model.now) self.old }
        requires few { length self.old.lines ≤ 4294967295 }
        ensures rounds { AreRounds net.now (weights_of model.now) self.new }
        ensures gone_on { HaveGoneOn net.now (weights_of model.now) self.old self.new }
        ensures next { OnOk result (IsNext net.now (family_of self.old) (length self.old.lines)
            self.old.prices self.new.prices) }
        ensures line { IfOk result (λ line. self.new.lines ≡ self.old.lines ++ line ∷ []) }
        ensures same { OnErr result (AreSame self.old self.new) }
    {
        let number = self.lines.len() as u32;
        let left = self.room.take();
        let mut room = room_for(alloc, left, net, model, &self.prices, self.most_visits)?;
        step_prices(
            &mut room.next,
            &self.prices,
            net,
            self.work.family(),
            number,
        );
        let tried = try_prices(alloc, &mut self.work, net, model, &room.next)?;
        self.finish(net, model, room, tried)
    }

    // What is left to do once the next prices are made and tried.
    fn finish<F: Fn(Event, u32) -> u32>(
        &mut self,
        net: &Net,
        model: &CostModel<F>,
        mut room: RoundRoom,
        tried: Tried,
    ) -> Result<Line, OutOfMemory>
        requires kept { Keeps F.Fn model.now }
        requires net { IsBuilt net.now }
        requires rounds { AreRounds net.now (weights_of model.now) self.old }
        requires few { length self.old.lines ≤ 4294967295 }
        requires room { IsRoundRoom net.now room }
        requires next { IsNext net.now (family_of self.old) (length self.old.lines)
            self.old.prices room.next }
        requires tried { IsTried net.now (weights_of model.now) room.next 0 tried }
        ensures rounds { AreRounds net.now (weights_of model.now) self.new }
        ensures gone_on { HaveGoneOn net.now (weights_of model.now) self.old self.new }
        ensures next { OnOk result (IsNext net.now (family_of self.old) (length self.old.lines)
            self.old.prices self.new.prices) }
        ensures line { IfOk result (λ line. self.new.lines ≡ self.old.lines ++ line ∷ []) }
        ensures same { OnErr result (AreSame self.old self.new) }
    {
        let number = self.lines.len();
        let now = self.last_line().cost;
        self.lines.push(NO_LINE)?;
        let value = lagrange(&mut self.work, net, model, &room.next);
        mem::swap(&mut self.prices, &mut room.next);
        self.raised.raise(&mut room, net, model, number as u32);
        keep_greatest(
            &mut self.best_value,
            &mut self.best_prices,
            value,
            &self.prices,
            self.raised.value,
            &self.raised.prices,
        );
        let bound = rounded_up(self.best_value);
        let cost = improve(
            number > 1,
            &mut self.work,
            &mut room.spare,
            net,
            model,
            &mut self.best,
            &tried.outcome,
            &mut room.search,
            &self.best_prices,
            number as u32,
            bound,
            now,
        );
        let line = Line {
            round: number as u32,
            cost,
            bound,
        };
        self.lines.set(number, line);
        self.tried = Some(tried);
        self.room = Some(room);
        Ok(line)
    }

    /// So many rounds more at most: until the watch says Stop of the last line.
    ///
    /// # Errors
    ///
    /// Where there is no memory for a round. Those before it are kept.
    pub fn grant<F: Fn(Event, u32) -> u32, G: Fn(Line) -> Verdict>(
        &mut self,
        alloc: Global,
        net: &Net,
        model: &CostModel<F>,
        n: u32,
        watch: &Watch<G>,
    ) -> Result<(), OutOfMemory>
        requires kept { Keeps F.Fn model.now }
        requires watch { IsWatch G.Fn watch.now }
        requires net { IsBuilt net.now }
        requires rounds { AreRounds net.now (weights_of model.now) self.old }
        requires few { length self.old.lines + n ≤ 4294967296 }
        ensures rounds { AreRounds net.now (weights_of model.now) self.new }
        ensures gone_on { HaveGoneOn net.now (weights_of model.now) self.old self.new }
        ensures obeyed { OnOk result
            (WasObeyed (gap_of watch.now) n self.old.lines self.new.lines) }
        ensures kept { OnErr result
            (WentOn (gap_of watch.now) n self.old.lines self.new.lines) }
    {
        for _ in 0..n {
            if let Verdict::Stop = watch.ask(self.last_line()) {
                return Ok(());
            }
            self.round(alloc, net, model)?;
        }
        Ok(())
    }

    // The line of the last round.
    fn last_line(&self) -> Line
        requires some { 1 ≤ length self.now.lines }
        ensures { slice_get self.now.lines (length self.now.lines - 1) ≡ Some result }
    {
        self.lines[self.lines.len() - 1]
    }

    /// What is left of the rounds, without the room.
    pub fn into_allocation(self) -> Allocation
        ensures lines { result.lines ≡ self.lines }
        ensures routes { result.routes ≡ self.best }
        ensures prices { result.prices ≡ self.best_prices }
        ensures allocation { (net : AnyNet) (w : Weights) → AreRounds net w self →
            IsAllocation net w result.lines result.routes result.prices }
    {
        let Rounds {
            best,
            best_prices,
            lines,
            ..
        } = self;
        Allocation {
            routes: best,
            prices: best_prices,
            lines,
        }
    }
}
