// What ties add to the costs at the ends of a strand.

ghost use Rattle.std.specs.Prelude.{◌≡◌, ◌≤◌, ◌<◌, ◌+◌, ◌*◌, ◌^◌};
ghost use Rattle.std.specs.Prelude.{length, All, pos, ◌≤ℤ◌, ◌-ℤ◌, ◌+ℤ◌};
ghost use Rattle.std.specs.Prelude.{true, false};
ghost use Rattle.net_laws.specs.Built.{IsBuilt};
ghost use Rattle.net_dual.specs.Priced.{tie_price, AreInRange, total};
ghost use Rattle.net_path.specs.Rows.{IsAbout};
ghost use Rattle.net_path.specs.Ways.{at};
ghost use Rattle.net_path.specs.Ties.{IsMore, HasPayRoom, HavePayRoom, tie_pay, ArePaidMore};
ghost use Rattle.net_path.specs.Ties.{HaveTieRoom, ArePaidInAll, exit_ties, entry_ties};
ghost use Rattle.net_path.specs.Passing.{exit_pay, entry_pay};
ghost use Rattle.pra_base.specs.declared.ids.Place.{Place as AnyPlace};

use crate::crossbar::Row;
use crate::path::place_of;
use crate::rows::REACHED;
use net_form::{Net, Prices};
use pra_base::Place;

// The number that a tie has for a place.
fn tie_number(prices: &Prices, tie: usize, place: Place) -> i64
    requires small { tie < 2 ^ 32 }
    requires tie { 13 * tie + 13 ≤ length prices.now.ties }
    requires most { All (λ z. z ≤ℤ pos (2 ^ 40)) prices.now.ties }
    requires least { All (λ z. (pos 0 -ℤ pos (2 ^ 40)) ≤ℤ z) prices.now.ties }
    ensures value { result ≡ tie_price prices.now tie place }
    ensures about { IsAbout (2 ^ 40) result }
{
    if place.is_const() {
        return 0;
    }
    let number = place.number() as usize;
    let slot = if place.is_both() { number - 1 } else { number };
    prices.ties.number(tie, slot)
}

// What is paid with so much more, unless it is closed.
fn with_more(cost: i64, price: i64) -> i64
    requires cost { HasPayRoom cost }
    requires price { IsAbout (2 ^ 40) price }
    ensures { IsMore cost price result }
{
    if cost < REACHED { cost + price } else { cost }
}

fn cost_with(row: &Row, place: usize, price: i64) -> i64
    requires place { place < 16 }
    requires cost { HasPayRoom (at row.now.costs place) }
    requires price { IsAbout (2 ^ 40) price }
    ensures { IsMore (at row.now.costs place) price result }
{
    with_more(row.costs[place], price)
}

fn tie_pay(prices: &Prices, leaves: bool, tie: usize, place: Place) -> i64
    requires small { tie < 2 ^ 32 }
    requires tie { 13 * tie + 13 ≤ length prices.now.ties }
    requires most { All (λ z. z ≤ℤ pos (2 ^ 40)) prices.now.ties }
    requires least { All (λ z. (pos 0 -ℤ pos (2 ^ 40)) ≤ℤ z) prices.now.ties }
    ensures value { result ≡ tie_pay prices.now leaves tie place }
    ensures about { IsAbout (2 ^ 40) result }
{
    let number = tie_number(prices, tie, place);
    if leaves { number } else { -number }
}

// Pays the numbers of a tie, which are mostly all 0.
fn pay_tie(row: &mut Row, prices: &Prices, leaves: bool, tie: usize)
    requires row { HavePayRoom row.old.costs }
    requires small { tie < 2 ^ 32 }
    requires tie { 13 * tie + 13 ≤ length prices.now.ties }
    requires most { All (λ z. z ≤ℤ pos (2 ^ 40)) prices.now.ties }
    requires least { All (λ z. (pos 0 -ℤ pos (2 ^ 40)) ≤ℤ z) prices.now.ties }
    ensures { ArePaidMore (tie_pay prices.now leaves tie) row.old.costs row.new.costs }
{
    if prices.ties.is_zero(tie) {
        return;
    }
    for p in 0..14u8 {
        let more = tie_pay(prices, leaves, tie, place_of(p));
        row.costs[p as usize] = cost_with(row, p as usize, more);
    }
}

// Whether all numbers of a tie are known to be 0.
fn is_free(prices: &Prices, tie: usize) -> bool
    requires { 13 * tie + 13 ≤ length prices.now.ties }
    ensures { result ≡ true → (q : AnyPlace) → tie_price prices.now tie q ≡ pos 0 }
{
    prices.ties.is_zero(tie)
}

/// Whether the numbers of the ties that go from a strand are known to be 0, of which no row is
/// needed.
pub(crate) fn are_exits_free(net: &Net, prices: &Prices, strand: usize) -> bool
    requires net { IsBuilt net.now }
    requires prices { AreInRange net.now prices.now }
    requires strand { strand < length net.now.strands }
    ensures { result ≡ true → (q : AnyPlace) → exit_pay net.now prices.now strand q ≡ pos 0 }
{
    let start = net.index.exits[strand];
    let stop = net.index.exits[strand + 1];
    for tie in start..stop {
        if !is_free(prices, tie as usize) {
            return false;
        }
    }
    true
}

/// The same, of the ties that go to a strand.
pub(crate) fn are_entries_free(net: &Net, prices: &Prices, strand: usize) -> bool
    requires net { IsBuilt net.now }
    requires prices { AreInRange net.now prices.now }
    requires strand { strand < length net.now.strands }
    ensures { result ≡ true → (q : AnyPlace) → entry_pay net.now prices.now strand q ≡ pos 0 }
{
    let start = net.index.entries[strand];
    let stop = net.index.entries[strand + 1];
    for at in start..stop {
        let tie = net.index.arrivals[at as usize];
        if !is_free(prices, tie as usize) {
            return false;
        }
    }
    true
}

/// Pays the numbers of the ties that go from a strand.
pub(crate) fn pay_exits(net: &Net, prices: &Prices, strand: usize, row: &mut Row)
    requires net { IsBuilt net.now }
    requires prices { AreInRange net.now prices.now }
    requires strand { strand < length net.now.strands }
    requires row { HaveTieRoom row.old.costs }
    ensures { ArePaidInAll (λ place. total (λ i. tie_pay prices.now true i place)
        (exit_ties net.now strand)) row.old.costs row.new.costs }
{
    let start = net.index.exits[strand];
    let stop = net.index.exits[strand + 1];
    for tie in start..stop {
        pay_tie(row, prices, true, tie as usize);
    }
}

/// Pays the numbers of the ties that go to a strand.
pub(crate) fn pay_entries(net: &Net, prices: &Prices, strand: usize, row: &mut Row)
    requires net { IsBuilt net.now }
    requires prices { AreInRange net.now prices.now }
    requires strand { strand < length net.now.strands }
    requires row { HaveTieRoom row.old.costs }
    ensures { ArePaidInAll (λ place. total (λ i. tie_pay prices.now false i place)
        (entry_ties net.now strand)) row.old.costs row.new.costs }
{
    let start = net.index.entries[strand];
    let stop = net.index.entries[strand + 1];
    for at in start..stop {
        let tie = net.index.arrivals[at as usize];
        pay_tie(row, prices, false, tie as usize);
    }
}
