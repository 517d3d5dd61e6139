// Prices of a network raised by sweeps: the call.

ghost use Rattle.net_cost.specs.Models.{Keeps};
ghost use Rattle.net_dual.specs.Priced.{AreInRange};
ghost use Rattle.net_laws.specs.Built.{IsBuilt};

use crate::room::AscentRoom;
use net_cost::{CostModel, Event};
use net_form::{Net, Prices};

/// Raises prices by so many sweeps, of which the first has this number; fewer, where no more is
/// gained. The number decides how far prices move, so sweeps that go on from earlier ones go on
/// with their numbers. It takes no memory.
///
/// All that is read of the room is made anew, so the same call gives the same prices, whatever the
/// room served before. No clause says so; it is tested.
///
/// What comes back is the ascent's own sum of what the network is worth at the new prices, in
/// units of 1/1024. It is exact where no cost was cut short, but nothing rests on it.
pub fn ascend<F: Fn(Event, u32) -> u32>(
    room: &mut AscentRoom,
    net: &Net,
    model: &CostModel<F>,
    prices: &mut Prices,
    first: u32,
    sweeps: u32,
) -> i128
    requires kept { Keeps F.Fn model.now }
    requires net { IsBuilt net.now }
    requires prices { AreInRange net.now prices.old }
    ensures { AreInRange net.now prices.new }
{
    let ascent = &mut room.ascent;
    ascent.learn(net, model);
    ascent.prices.read(prices, ascent.rates.shift);
    ascent.begin(net, first);
    ascent.sweep_all(net, first, sweeps);
    ascent.prices.write(net, prices, ascent.rates.shift);
    ascent.value()
}
