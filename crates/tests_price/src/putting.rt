// Prices and marks of a row, in place of nothing.

ghost use Rattle.std.specs.Prelude.{◌≤◌, ◌<◌, ◌^◌, ◌≤ℤ◌, ◌-ℤ◌, pos, length, IfOk, IfSome};
ghost use Rattle.net_dual.specs.Priced.{AreInRange};
ghost use Rattle.net_form.specs.Rooms.{IsRoomOf};

use crate::reading::{field, numbers};
use net_form::{Net, Prices, Spare, Taken};
use pra_base::OutOfMemory;
use std::alloc::Global;

// The greatest price, and the greatest and the least number of a tie but for its sign.
const MOST: i64 = 1 << 40;

// Register r at layer n has a price, by the number 6 n + r.
fn put_price(_net: &Net, prices: &mut Prices, at: usize, price: u64)
    requires range { AreInRange _net.now prices.old }
    requires at { at < length prices.old.caps }
    requires price { price ≤ 2 ^ 40 }
    ensures { AreInRange _net.now prices.new }
{
    prices.caps.set(at, price);
}

// A memory pair has a price.
fn put_mem_price(_net: &Net, prices: &mut Prices, at: usize, price: u64)
    requires range { AreInRange _net.now prices.old }
    requires at { at < length prices.old.mems }
    requires price { price ≤ 2 ^ 40 }
    ensures { AreInRange _net.now prices.new }
{
    prices.mems.set(at, price);
}

// A tie has a number for a place.
fn put_tie_number(_net: &Net, prices: &mut Prices, at: usize, number: i64)
    requires range { AreInRange _net.now prices.old }
    requires at { at < length prices.old.ties }
    requires most { number ≤ℤ pos (2 ^ 40) }
    requires least { (pos 0 -ℤ pos (2 ^ 40)) ≤ℤ number }
    ensures { AreInRange _net.now prices.new }
{
    prices.ties.set_at(at, number);
}

// Puts prices of registers, and says whether all are in range.
fn put_caps(net: &Net, prices: &mut Prices, caps: &[(usize, i64)]) -> bool
    requires range { AreInRange net.now prices.old }
    ensures { AreInRange net.now prices.new }
{
    for cap in caps {
        let (at, price) = *cap;
        if at >= prices.caps.len() || price < 0 || price > MOST {
            return false;
        }
        put_price(net, prices, at, price as u64);
    }
    true
}

// The same of memory pairs.
fn put_mems(net: &Net, prices: &mut Prices, mems: &[(usize, i64)]) -> bool
    requires range { AreInRange net.now prices.old }
    ensures { AreInRange net.now prices.new }
{
    for mem in mems {
        let (at, price) = *mem;
        if at >= prices.mems.len() || price < 0 || price > MOST {
            return false;
        }
        put_mem_price(net, prices, at, price as u64);
    }
    true
}

// The same of the numbers of ties.
fn put_ties(net: &Net, prices: &mut Prices, ties: &[(usize, i64)]) -> bool
    requires range { AreInRange net.now prices.old }
    ensures { AreInRange net.now prices.new }
{
    for tie in ties {
        let (at, number) = *tie;
        if at >= prices.ties.len() || number < -MOST || number > MOST {
            return false;
        }
        put_tie_number(net, prices, at, number);
    }
    true
}

/// The prices of a row, or None where one of them is of nothing in the network, or too great.
pub(crate) fn prices_of(alloc: Global, net: &Net, at: &str) -> Result<Option<Prices>, OutOfMemory>
    ensures { IfOk result (λ found. IfSome found (AreInRange net.now)) }
{
    let caps = numbers(alloc, field(at, "caps "))?;
    let mems = numbers(alloc, field(at, "mems "))?;
    let ties = numbers(alloc, field(at, "ties "))?;
    let Spare {
        zero: mut prices,
        ..
    } = Spare::empty(alloc, net)?;
    if !put_caps(net, &mut prices, &caps)
        || !put_mems(net, &mut prices, &mems)
        || !put_ties(net, &mut prices, &ties)
    {
        return Ok(None);
    }
    Ok(Some(prices))
}

// Marks registers at layers by their bits, and says whether all are there.
fn put_registers(net: &Net, taken: &mut Taken, registers: &[(usize, i64)]) -> bool
    requires room { IsRoomOf net.now taken.old }
    ensures { IsRoomOf net.now taken.new }
{
    for row in registers {
        let (layer, bits) = *row;
        if layer >= taken.regs.len() || bits < 0 || bits > 63 {
            return false;
        }
        taken.regs.set(layer, bits as u8);
    }
    true
}

// Marks memory pairs, and says whether all are there.
fn put_pairs(net: &Net, taken: &mut Taken, pairs: &[(usize, i64)]) -> bool
    requires room { IsRoomOf net.now taken.old }
    ensures { IsRoomOf net.now taken.new }
{
    for row in pairs {
        let (pair, _) = *row;
        if pair >= taken.mems.len() {
            return false;
        }
        taken.mems.set(pair, true);
    }
    true
}

/// What is in use by a row, registers and then pairs, or None where it is of another network.
pub(crate) fn taken_of(
    alloc: Global,
    net: &Net,
    registers: &str,
    pairs: &str,
) -> Result<Option<Taken>, OutOfMemory>
    ensures { IfOk result (λ found. IfSome found (IsRoomOf net.now)) }
{
    let registers = numbers(alloc, registers)?;
    let pairs = numbers(alloc, pairs)?;
    let mut taken = Taken::empty(alloc, net)?;
    if !put_registers(net, &mut taken, &registers) || !put_pairs(net, &mut taken, &pairs) {
        return Ok(None);
    }
    Ok(Some(taken))
}
