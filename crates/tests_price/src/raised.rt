// Prices that an ascent raises in new room, and again in room that served another one.

ghost use Rattle.net_cost.specs.Models.{Keeps};
ghost use Rattle.net_laws.specs.Built.{IsBuilt};

use net_ascent::{AscentRoom, ascend};
use net_cost::{CostModel, Event};
use net_form::{Net, Prices, Spare};
use pra_base::OutOfMemory;
use std::alloc::Global;

// How many sweeps an ascent makes.
const SWEEPS: u32 = 5;

/// Prices, and what the ascent says that they are worth.
#[derive(Drop)]
struct Raised {
    prices: Prices,
    value: i128,
}

// Prices of nothing, raised by sweeps from this number on.
fn raise<F: Fn(Event, u32) -> u32>(
    alloc: Global,
    room: &mut AscentRoom,
    net: &Net,
    model: &CostModel<F>,
    first: u32,
) -> Result<Raised, OutOfMemory>
    requires kept { Keeps F.Fn model.now }
    requires net { IsBuilt net.now }
{
    let Spare {
        zero: mut prices,
        ..
    } = Spare::empty(alloc, net)?;
    let value = ascend(room, net, model, &mut prices, first, SWEEPS);
    Ok(Raised { prices, value })
}

fn are_same(one: &Raised, other: &Raised) -> bool {
    one.value == other.value
        && one.prices.caps == other.prices.caps
        && one.prices.mems == other.prices.mems
}

/// Whether an ascent finds the same once more, after another one in the same room.
pub(crate) fn is_raised_again<F: Fn(Event, u32) -> u32>(
    alloc: Global,
    net: &Net,
    model: &CostModel<F>,
) -> Result<bool, OutOfMemory>
    requires kept { Keeps F.Fn model.now }
    requires net { IsBuilt net.now }
{
    let mut room = AscentRoom::reserve(alloc, net, model)?;
    let first = raise(alloc, &mut room, net, model, 0)?;
    let _other = raise(alloc, &mut room, net, model, 7)?;
    let again = raise(alloc, &mut room, net, model, 0)?;
    Ok(are_same(&first, &again))
}
