// The price step.

ghost use Rattle.std.specs.Prelude.{◌≡◌, ◌≤◌, ◌*◌, All, length, count_by};
ghost use Rattle.net_form.specs.Admitted.{uses_memory};
ghost use Rattle.net_form.specs.Bundles.{comes_to_bundle};
ghost use Rattle.net_form.specs.Flow.{flow, AreRoutes};
ghost use Rattle.net_form.specs.Formed.{IsFormed};
ghost use Rattle.net_form.specs.InUse.{pair_at};
ghost use Rattle.net_form.specs.Rooms.{layer_total};
ghost use Rattle.net_laws.specs.Built.{IsBuilt};
ghost use Rattle.net_dual.specs.Priced.{AreInRange, most_price};
ghost use Rattle.net_dual.specs.Step.{IsNext};
ghost use Rattle.net_price.specs.Raised.{AreStepped};

use crate::mems::raise_mems;
use crate::raise::{lower, raise_caps};
use crate::ties::step_ties;
use net_form::{Net, Prices, Routes};
use pra_list::Seq;

fn step_caps(caps: &mut Seq<u64>, net: &Net, family: &Routes, s: u64)
    requires caps { length caps.old ≡ 6 * layer_total net.now.blocks }
    requires most { All (λ c. c ≤ most_price) caps.old }
    requires net { IsFormed net.now }
    requires family { AreRoutes net.now family.now }
    requires step { s ≤ 4096 }
    ensures long { length caps.new ≡ length caps.old }
    ensures stepped { AreStepped s (λ k. count_by (comes_to_bundle net.now k)
        (flow net.now family.now)) caps.old caps.new }
{
    raise_caps(caps, net, family, s);
    lower(caps, s);
}

fn step_mems(mems: &mut Seq<u64>, net: &Net, family: &Routes, s: u64)
    requires mems { length mems.old ≡ length net.now.pairs }
    requires most { All (λ m. m ≤ most_price) mems.old }
    requires net { IsFormed net.now }
    requires family { AreRoutes net.now family.now }
    requires step { s ≤ 4096 }
    ensures long { length mems.new ≡ length mems.old }
    ensures stepped { AreStepped s (λ k. count_by (uses_memory (pair_at net.now k))
        (flow net.now family.now)) mems.old mems.new }
{
    raise_mems(mems, net, family, s);
    lower(mems, s);
}

/// Changes prices in place by the step of round k, which is at least 1: what the family of paths
/// wants more than once becomes dearer, what it doesn't want cheaper, and the numbers of ties
/// follow the places at which it leaves and enters. A step is 4096 / k units of 1/1024, and at
/// least one. It takes no memory.
pub fn step(prices: &mut Prices, net: &Net, family: &Routes, k: u32)
    requires k { 1 ≤ k }
    requires net { IsBuilt net.now }
    requires prices { AreInRange net.now prices.old }
    requires family { AreRoutes net.now family.now }
    ensures { IsNext net.now family.now k prices.old prices.new }
{
    let s = u64::from((4096 / k).max(1));
    step_caps(&mut prices.caps, net, family, s);
    step_mems(&mut prices.mems, net, family, s);
    step_ties(&mut prices.ties, net, family, s);
}
