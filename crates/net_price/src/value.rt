// The Lagrange value.

ghost use Rattle.std.specs.Prelude.{◌≡◌, ◌≤◌, ◌^◌, pos, ◌+ℤ◌, ◌-ℤ◌, ◌≤ℤ◌, All, sum};
ghost use Rattle.net_cost.specs.Models.{Keeps, weights_of};
ghost use Rattle.net_laws.specs.Built.{IsBuilt};
ghost use Rattle.net_dual.specs.Priced.{AreInRange, cost_by_weights};
ghost use Rattle.net_dual.specs.Value.{IsValue, all_paid};
ghost use Rattle.net_path.specs.Desk.{IsReservedFor, path_of};

use net_cost::{CostModel, Event};
use net_form::{Net, Prices};
use net_path::{Work, renew};

fn sum_of(prices: &[u64]) -> u128
    requires { All (λ p. p ≤ 2 ^ 40) prices.now }
    ensures value { result ≡ sum prices.now }
    ensures small { result ≤ 2 ^ 104 }
{
    let mut total = 0u128;
    for price in prices {
        total += u128::from(*price);
    }
    total
}

// All that is paid where each register at each layer and each memory pair is used once.
fn paid(prices: &Prices) -> i128
    requires caps { All (λ p. p ≤ 2 ^ 40) prices.now.caps }
    requires mems { All (λ p. p ≤ 2 ^ 40) prices.now.mems }
    ensures value { result ≡ pos (all_paid prices.now) }
    ensures small { all_paid prices.now ≤ 2 ^ 105 }
{
    (sum_of(prices.caps.as_slice()) + sum_of(prices.mems.as_slice())) as i128
}

fn add(total: i128, cost: i64) -> i128
    requires low { pos 0 ≤ℤ (total +ℤ pos (2 ^ 100)) }
    requires high { total ≤ℤ pos (2 ^ 100) }
    ensures more { result ≡ (total +ℤ cost) }
{
    total + i128::from(cost)
}

fn less(total: i128, paid: i128) -> i128
    requires low { pos 0 ≤ℤ (total +ℤ pos (2 ^ 100)) }
    requires high { total ≤ℤ pos (2 ^ 100) }
    requires some { pos 0 ≤ℤ paid }
    requires small { paid ≤ℤ pos (2 ^ 105) }
    ensures rest { result ≡ (total -ℤ paid) }
{
    total - paid
}

/// The Lagrange value of a network at prices, in units of 1/1024: what the strands cost at least,
/// each alone, minus the sum of all cap and mem prices. `work.family()` is then a family of such
/// least paths. It takes no memory, and `work.path()` stays what it was.
pub fn lagrange<F: Fn(Event, u32) -> u32>(
    work: &mut Work,
    net: &Net,
    model: &CostModel<F>,
    prices: &Prices,
) -> i128
    requires kept { Keeps F.Fn model.now }
    requires net { IsBuilt net.now }
    requires work { IsReservedFor net.now work.old }
    requires prices { AreInRange net.now prices.now }
    ensures value { IsValue net.now (cost_by_weights net.now (weights_of model.now)) prices.now
        work.new.family result }
    ensures path { path_of work.new ≡ path_of work.old }
    ensures reserved { IsReservedFor net.now work.new }
{
    let mut total = 0i128;
    for strand in 0..net.strands.len() {
        total = add(total, renew(work, net, model, prices, strand as u32));
    }
    less(total, paid(prices))
}
