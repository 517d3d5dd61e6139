// Prices that are raised beside those of the price steps, for the sake of the bound.

ghost use Rattle.std.specs.Prelude.{◌≡◌, true, false, pos, ◌+ℤ◌, ◌≤ℤ◌, ◌<ℤ◌, IfOk};
ghost use Rattle.net_cost.specs.Models.{Keeps, weights_of};
ghost use Rattle.net_laws.specs.Built.{IsBuilt};
ghost use Rattle.al_round.specs.Ascents.{AreRaisedPrices};
ghost use Rattle.al_round.specs.Noted.{HasNoted};
ghost use Rattle.al_round.specs.Rounds.{HasItsValue, IsRoundRoom};

use crate::copies::{copy_prices, overwrite_prices};
use crate::room::RoundRoom;
use crate::sweeps::Sweeps;
use net_ascent::ascend;
use net_cost::{CostModel, Event};
use net_form::{Net, Prices, Routes};
use net_price::lagrange;
use pra_base::OutOfMemory;
use std::alloc::Global;
use std::mem;

// What a value has to rise by to count as gained: a unit of cost.
const UNIT: i128 = 1024;

// Whether a value rose by so much.
fn is_gained(before: i128, now: i128) -> bool
    ensures rose { result ≡ true → (before +ℤ pos 1024) ≤ℤ now }
    ensures stayed { result ≡ false → now <ℤ (before +ℤ pos 1024) }
{
    if now < i128::MIN + UNIT {
        return false;
    }
    now - UNIT >= before
}

/// Raised prices, their Lagrange value in units of 1/1024, and how often they are swept.
#[derive(Drop)]
pub struct Raised {
    pub(crate) prices: Prices,
    pub(crate) value: i128,
    sweeps: Sweeps,
}

impl Raised {
    /// Prices of nothing, which have this value. These are routes of the network, and a round is to
    /// visit so many layers at most.
    ///
    /// # Errors
    ///
    /// Where there is no memory for them.
    pub(crate) fn start(
        alloc: Global,
        routes: &Routes,
        zero: &Prices,
        value: i128,
        most_visits: u64,
    ) -> Result<Raised, OutOfMemory>
        ensures prices { IfOk result (λ raised. raised.prices ≡ zero.now) }
        ensures value { IfOk result (λ raised. raised.value ≡ value) }
    {
        Ok(Raised {
            prices: copy_prices(alloc, zero)?,
            value,
            sweeps: Sweeps::start(routes, zero, most_visits),
        })
    }

    /// Tries to raise the prices, in a round of this number. They are replaced where the ascent
    /// says that their value is no lower and their exact value is not. How many sweeps were made,
    /// and whether the value rose by a unit of cost, is noted for later rounds. It takes no memory.
    pub(crate) fn raise<F: Fn(Event, u32) -> u32>(
        &mut self,
        room: &mut RoundRoom,
        net: &Net,
        model: &CostModel<F>,
        round: u32,
    )
        requires kept { Keeps F.Fn model.now }
        requires net { IsBuilt net.now }
        requires has { HasItsValue net.now (weights_of model.now) self.old }
        requires room { IsRoundRoom net.now room.old }
        ensures has { HasItsValue net.now (weights_of model.now) self.new }
        ensures room { IsRoundRoom net.now room.new }
        ensures raised { AreRaisedPrices net.now (weights_of model.now) self.old.prices
            self.new.prices }
        ensures no_lower { self.old.value ≤ℤ self.new.value }
        ensures noted { HasNoted self.old self.new }
    {
        let sweeps = self.sweeps.in_round(round);
        if sweeps == 0 {
            return;
        }
        let before = self.value;
        self.sweep(room, net, model, sweeps);
        let gained = is_gained(before, self.value);
        self.sweeps.note(sweeps, gained);
    }

    // The same by so many sweeps.
    fn sweep<F: Fn(Event, u32) -> u32>(
        &mut self,
        room: &mut RoundRoom,
        net: &Net,
        model: &CostModel<F>,
        sweeps: u32,
    )
        requires kept { Keeps F.Fn model.now }
        requires net { IsBuilt net.now }
        requires has { HasItsValue net.now (weights_of model.now) self.old }
        requires room { IsRoundRoom net.now room.old }
        ensures has { HasItsValue net.now (weights_of model.now) self.new }
        ensures room { IsRoundRoom net.now room.new }
        ensures raised { AreRaisedPrices net.now (weights_of model.now) self.old.prices
            self.new.prices }
        ensures no_lower { self.old.value ≤ℤ self.new.value }
        ensures sweeps { self.new.sweeps ≡ self.old.sweeps }
    {
        let first = self.sweeps.made();
        overwrite_prices(&mut room.next, &self.prices);
        let told = ascend(&mut room.ascent, net, model, &mut room.next, first, sweeps);
        if told < self.value {
            return;
        }
        let value = lagrange(&mut room.work, net, model, &room.next);
        if value < self.value {
            return;
        }
        self.value = value;
        mem::swap(&mut self.prices, &mut room.next);
    }
}
