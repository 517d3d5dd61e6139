// The reason Prices: whether prices are listed as they have to be. And the prices that are listed.

ghost use Rattle.std.specs.Prelude.{◌≡◌, ◌↔◌, pos, ℕ, IsTrue, length, replicate};
ghost use Rattle.net_form.specs.declared.net.Net.{Net as AnyNet};
ghost use Rattle.net_form.specs.Rooms.{zero_prices};
ghost use Rattle.cert_check.specs.Listed.{IsCap, IsNumber, AreCaps, AreTieNumbers, HasPrices};
ghost use Rattle.cert_check.specs.Listed.{with_caps, with_tie_numbers, prices_of};

use cert_form::{CapAt, Cert, TieAt};
use net_form::{Prices, TieNumbers};
use pra_list::Seq;

const MOST_PRICE: u64 = 1 << 40;

const MOST_NUMBER: i64 = 1 << 40;

fn is_cap(entry: &CapAt, count: usize) -> bool
    ensures { IsTrue result ↔ IsCap count entry.now }
{
    if entry.at as usize >= count {
        return false;
    }
    if entry.price == 0 {
        return false;
    }
    entry.price <= MOST_PRICE
}

// Whether these are entries of a list of so many prices, with indexes that rise.
fn are_caps(entries: &[CapAt], count: usize) -> bool
    ensures { IsTrue result ↔ AreCaps count 0 entries.now }
{
    let mut from = 0u64;
    let mut rest = entries;
    while let [entry, others @ ..] = rest {
        if u64::from(entry.at) < from {
            return false;
        }
        if !is_cap(entry, count) {
            return false;
        }
        from = u64::from(entry.at) + 1;
        rest = others;
    }
    true
}

fn is_number(entry: &TieAt, count: usize) -> bool
    ensures { IsTrue result ↔ IsNumber count entry.now }
{
    if entry.at as usize >= count {
        return false;
    }
    if entry.number == 0 {
        return false;
    }
    if entry.number > MOST_NUMBER {
        return false;
    }
    entry.number >= -MOST_NUMBER
}

// The same of a list of so many numbers of ties.
fn are_numbers(entries: &[TieAt], count: usize) -> bool
    ensures { IsTrue result ↔ AreTieNumbers count 0 entries.now }
{
    let mut from = 0u64;
    let mut rest = entries;
    while let [entry, others @ ..] = rest {
        if u64::from(entry.at) < from {
            return false;
        }
        if !is_number(entry, count) {
            return false;
        }
        from = u64::from(entry.at) + 1;
        rest = others;
    }
    true
}

/// Whether a certificate lists prices of a network as it has to, where these are its prices of
/// nothing.
pub(crate) fn has_prices(zero: &Prices, cert: &Cert) -> bool
    ensures { (net : AnyNet) → zero.now ≡ zero_prices net →
        IsTrue result ↔ HasPrices net cert.now }
{
    if !are_caps(cert.caps.as_slice(), zero.caps.len()) {
        return false;
    }
    if !are_caps(cert.mems.as_slice(), zero.mems.len()) {
        return false;
    }
    are_numbers(cert.ties.as_slice(), zero.ties.len())
}

fn put_caps(mut prices: Seq<u64>, entries: &[CapAt]) -> Seq<u64>
    requires { AreCaps (length prices) 0 entries.now }
    ensures { result ≡ with_caps prices entries.now }
{
    let mut rest = entries;
    while let [entry, others @ ..] = rest {
        prices.set(entry.at as usize, entry.price);
        rest = others;
    }
    prices
}

fn put_numbers(mut numbers: TieNumbers, entries: &[TieAt]) -> TieNumbers
    requires { AreTieNumbers (length numbers) 0 entries.now }
    ensures { result ≡ with_tie_numbers numbers entries.now }
{
    let mut rest = entries;
    while let [entry, others @ ..] = rest {
        numbers.set_at(entry.at as usize, entry.number);
        rest = others;
    }
    numbers
}

/// The prices of a network that a certificate lists, from its prices of nothing.
pub(crate) fn listed(zero: Prices, cert: &Cert) -> Prices
    requires { (net : AnyNet) × (zero ≡ zero_prices net) × HasPrices net cert.now }
    ensures { (net : AnyNet) → zero ≡ zero_prices net → result ≡ prices_of net cert.now }
{
    let Prices { caps, mems, ties } = zero;
    Prices {
        caps: put_caps(caps, cert.caps.as_slice()),
        mems: put_caps(mems, cert.mems.as_slice()),
        ties: put_numbers(ties, cert.ties.as_slice()),
    }
}
