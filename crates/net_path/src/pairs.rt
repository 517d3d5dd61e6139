// What memory pairs add to the costs of a strand in memory.

ghost use Rattle.std.specs.Prelude.{◌≡◌, ◌≢◌, ◌≤◌, ◌<◌, ◌+◌, ◌^◌, ℕ, pos, length, if◌then◌else◌};
ghost use Rattle.pra_base.specs.declared.ids.Place.TheVariants.{Mem};
ghost use Rattle.pra_base.specs.Places.{number};
ghost use Rattle.net_form.specs.Admitted.{strand_at};
ghost use Rattle.net_form.specs.Rooms.{IsRoomOf};
ghost use Rattle.net_laws.specs.Built.{IsBuilt};
ghost use Rattle.net_dual.specs.Priced.{AreInRange};
ghost use Rattle.net_path.specs.Ends.{IsOneEnd, AreMemoryRows, strand_ends};
ghost use Rattle.net_path.specs.Ways.{at};

use crate::crossbar::Row;
use crate::rows::{REACHED, UNREACHED};
use net_form::{Net, Prices, Taken};

// The cost of memory with one memory pair more.
fn with_pair(cost: i64, price: u64, taken: bool) -> i64
    requires { price ≤ 2 ^ 40 }
    ensures { IsOneEnd (if taken then pos 1 else pos 0) (pos price) cost result }
{
    if taken {
        return UNREACHED;
    }
    if cost < REACHED {
        cost + price as i64
    } else {
        cost
    }
}

// Pays a memory pair at a layer.
fn pay_pair(row: &mut Row, price: u64, taken: bool)
    requires { price ≤ 2 ^ 40 }
    ensures others { (q : ℕ) → q ≢ number Mem → at row.new.costs q ≡ at row.old.costs q }
    ensures memory { IsOneEnd (if taken then pos 1 else pos 0) (pos price)
        (at row.old.costs (number Mem)) (at row.new.costs (number Mem)) }
{
    row.costs[6] = with_pair(row.costs[6], price, taken);
}

/// Pays the memory pairs of which a strand is an end, at its layers; memory is closed where one of
/// them is in use.
pub(crate) fn pay_pairs(net: &Net, prices: &Prices, taken: &Taken, strand: usize, rows: &mut [Row])
    requires net { IsBuilt net.now }
    requires prices { AreInRange net.now prices.now }
    requires taken { IsRoomOf net.now taken.now }
    requires strand { strand < length net.now.strands }
    requires rows { (strand_at net.now strand).first + length rows.old ≡
        (strand_at net.now strand).last + 1 }
    ensures { AreMemoryRows prices.now taken.now (strand_at net.now strand).first
        (strand_ends net.now strand) rows.old rows.new }
{
    let first = net.strands[strand].first;
    let start = net.index.pairs[strand];
    let stop = net.index.pairs[strand + 1];
    for at in start..stop {
        let end = net.index.ends[at as usize];
        let price = prices.mems[end.pair as usize];
        let row = &mut rows[(end.layer - first) as usize];
        pay_pair(row, price, taken.mems[end.pair as usize]);
    }
}
