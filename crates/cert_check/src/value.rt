// The reason Bound: whether a bound is no more than the value at the prices that are listed.

ghost use Rattle.std.specs.Prelude.{◌≡◌, ◌↔◌, ◌≤◌, ◌<◌, ◌^◌, ℕ, pos, ◌+ℤ◌, ◌-ℤ◌, ◌≤ℤ◌, All, sum};
ghost use Rattle.std.specs.Prelude.{length, IsTrue, IfOk};
ghost use Rattle.net_cost.specs.Models.{Keeps, weights_of};
ghost use Rattle.net_form.specs.Rooms.{zero_prices};
ghost use Rattle.net_laws.specs.Built.{IsBuilt};
ghost use Rattle.net_dual.specs.Priced.{AreInRange, edge_price};
ghost use Rattle.net_dual.specs.Small.{IsWithin};
ghost use Rattle.net_dual.specs.Value.{IsLagrange, all_paid};
ghost use Rattle.cert_check.specs.Listed.{HasPrices};
ghost use Rattle.cert_check.specs.Pass.{HasPath, AreLeastCosts};
ghost use Rattle.cert_check.specs.Reasons.{HasBound, HasRoutes};
ghost use Rattle.cert_check.specs.Tolls.{AreTolls};

use crate::listed::listed;
use crate::pass::least_cost;
use crate::sums::{add, is_carried, subtract};
use crate::ties::ties_sums;
use crate::tolls::Tolls;
use cert_form::Cert;
use net_cost::{CostModel, Event};
use net_form::{BlockEnd, Net, Prices};
use pra_base::OutOfMemory;
use std::alloc::Global;

fn sum_of(prices: &[u64]) -> u128
    requires { All (λ p. p ≤ 2 ^ 40) prices.now }
    ensures value { result ≡ sum prices.now }
    ensures small { result ≤ 2 ^ 104 }
{
    let mut total = 0u128;
    for price in prices {
        total += u128::from(*price);
    }
    total
}

// All that is paid where each register at each layer and each memory pair is used once.
fn paid(prices: &Prices) -> i128
    requires caps { All (λ p. p ≤ 2 ^ 40) prices.now.caps }
    requires mems { All (λ p. p ≤ 2 ^ 40) prices.now.mems }
    ensures value { result ≡ pos (all_paid prices.now) }
    ensures small { all_paid prices.now ≤ 2 ^ 105 }
{
    (sum_of(prices.caps.as_slice()) + sum_of(prices.mems.as_slice())) as i128
}

// What all strands cost at least, each alone.
fn least_costs<F: Fn(Event, u32) -> u32>(net: &Net, model: &CostModel<F>, tolls: &Tolls) -> i128
    requires kept { Keeps F.Fn model.now }
    requires net { IsBuilt net.now }
    requires tolls { AreTolls net.now tolls.now }
    requires paths { (s : ℕ) → s < length net.now.strands → HasPath net.now s }
    ensures sum { AreLeastCosts net.now
        (edge_price net.now (weights_of model.now) tolls.now.prices) (length net.now.strands)
        result }
    ensures within { IsWithin (2 ^ 124) result }
{
    let mut total = 0i128;
    for strand in 0..net.strands.len() {
        total = add(total, least_cost(net, model, tolls, strand));
    }
    total
}

// The Lagrange value of a network at prices, in units of 1/1024.
fn value_of<F: Fn(Event, u32) -> u32>(
    alloc: Global,
    model: &CostModel<F>,
    net: &Net,
    prices: Prices,
) -> Result<i128, OutOfMemory>
    requires kept { Keeps F.Fn model.now }
    requires net { IsBuilt net.now }
    requires prices { AreInRange net.now prices }
    requires paths { (s : ℕ) → s < length net.now.strands → HasPath net.now s }
    ensures value { IfOk result (IsLagrange net.now (weights_of model.now) prices) }
    ensures within { IfOk result (IsWithin (2 ^ 125)) }
{
    let exits = ties_sums(alloc, net, &prices, BlockEnd::Exit)?;
    let entries = ties_sums(alloc, net, &prices, BlockEnd::Entry)?;
    let paid = paid(&prices);
    let tolls = Tolls {
        prices,
        exits,
        entries,
    };
    Ok(subtract(least_costs(net, model, &tolls), paid))
}

/// Whether the bound is 0, or no more than the value at the prices that are listed, rounded up to
/// whole units.
pub(crate) fn has_bound<F: Fn(Event, u32) -> u32>(
    alloc: Global,
    model: &CostModel<F>,
    net: &Net,
    zero: Prices,
    cert: &Cert,
) -> Result<bool, OutOfMemory>
    requires kept { Keeps F.Fn model.now }
    requires net { IsBuilt net.now }
    requires zero { zero ≡ zero_prices net.now }
    requires routes { HasRoutes net.now cert.now.routes }
    requires prices { HasPrices net.now cert.now }
    ensures { IfOk result (λ yes. IsTrue yes ↔ HasBound (weights_of model.now) net.now cert.now) }
{
    if cert.bound == 0 {
        return Ok(true);
    }
    let value = value_of(alloc, model, net, listed(zero, cert))?;
    Ok(is_carried(cert.bound, value))
}
