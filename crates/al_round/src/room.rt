// The room that rounds work in.

ghost use Rattle.std.specs.Prelude.{IfOk, IfSome};
ghost use Rattle.net_cost.specs.Models.{Keeps};
ghost use Rattle.net_laws.specs.Built.{IsBuilt};
ghost use Rattle.net_dual.specs.Priced.{AreInRange};
ghost use Rattle.al_round.specs.Rounds.{IsRoundRoom};

use crate::copies::copy_prices;
use al_kick::SearchRoom;
use net_ascent::AscentRoom;
use net_cost::{CostModel, Event};
use net_form::{Net, Prices, Spare};
use net_path::Work;
use pra_base::OutOfMemory;
use std::alloc::Global;

/// Room that every round works in and round 0 does without, so it is made when the first round is.
/// A round that has no memory for its routes lets go of it, and the next one makes it anew.
#[derive(Drop)]
pub struct RoundRoom {
    /// Where prices are made, first those of the round and then raised ones.
    pub(crate) next: Prices,
    /// For the family of raised prices, which is not the one that price steps follow.
    pub(crate) work: Work,
    pub(crate) ascent: AscentRoom,
    pub(crate) spare: Spare,
    pub(crate) search: SearchRoom,
}

impl RoundRoom {
    // Room for the strands of a network, with a copy of prices.
    fn reserve<F: Fn(Event, u32) -> u32>(
        alloc: Global,
        net: &Net,
        model: &CostModel<F>,
        prices: &Prices,
        most_visits: u64,
    ) -> Result<RoundRoom, OutOfMemory>
        requires kept { Keeps F.Fn model.now }
        requires net { IsBuilt net.now }
        requires prices { AreInRange net.now prices.now }
        ensures { IfOk result (IsRoundRoom net.now) }
    {
        Ok(RoundRoom {
            next: copy_prices(alloc, prices)?,
            work: Work::reserve(alloc, net, model)?,
            ascent: AscentRoom::reserve(alloc, net, model)?,
            spare: Spare::empty(alloc, net)?,
            search: SearchRoom::reserve(alloc, net, most_visits)?,
        })
    }
}

/// The room that a round left, or a new one where none did.
///
/// # Errors
///
/// Where there is no memory for it.
pub(crate) fn room_for<F: Fn(Event, u32) -> u32>(
    alloc: Global,
    left: Option<RoundRoom>,
    net: &Net,
    model: &CostModel<F>,
    prices: &Prices,
    most_visits: u64,
) -> Result<RoundRoom, OutOfMemory>
    requires left { IfSome left (IsRoundRoom net.now) }
    requires kept { Keeps F.Fn model.now }
    requires net { IsBuilt net.now }
    requires prices { AreInRange net.now prices.now }
    ensures { IfOk result (IsRoundRoom net.now) }
{
    match left {
        Some(room) => Ok(room),
        None => RoundRoom::reserve(alloc, net, model, prices, most_visits),
    }
}
