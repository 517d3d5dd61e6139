// Prices in units of the ascent, read from those of a network and written back.

ghost use Rattle.std.specs.Prelude.{◌≡◌, ◌≤◌, ◌+◌, ◌*◌, pos, ◌-ℤ◌, ◌≤ℤ◌, All, length};
ghost use Rattle.net_dual.specs.Priced.{AreInRange, most_price};

use crate::lists::{at, put};
use crate::pace::GREATEST;
use crate::rows::{CONSTANT, NOTHING, Registers, Row};
use net_form::{Net, Prices, TieNumbers};
use pra_list::Seq;
use std::alloc::{AllocError, Global};

/// Prices of the six registers of each layer, of memory pairs, and the numbers of ties by the
/// numbers of places.
#[derive(Drop)]
pub(crate) struct UnitPrices {
    pub registers: Vec<Registers>,
    pub pairs: Vec<i32>,
    pub ties: Vec<Row>,
}

// The place of a number of ties.
fn place_of(number: usize) -> usize {
    if number < CONSTANT {
        number
    } else {
        number.wrapping_add(1)
    }
}

// So many units of prices in units of the ascent.
fn price_of(price: u64, shift: u32) -> i32 {
    i32::try_from(price >> (shift % 64))
        .unwrap_or(GREATEST)
        .min(GREATEST)
}

// The same of a number of a tie.
fn number_of(number: i64, shift: u32) -> i32 {
    let number = (number >> (shift % 64)).min(1 << 28).max(-(1 << 28));
    i32::try_from(number).unwrap_or(0)
}

// A price in units of prices.
fn units_of(price: i32, shift: u32) -> u64
    ensures { result ≤ most_price }
{
    let price = u64::try_from(price).unwrap_or(0);
    (price << (shift % 64)).min(1 << 40)
}

// A number of a tie in units of prices.
fn tie_units_of(number: i32, shift: u32) -> i64
    ensures least { (pos 0 -ℤ pos most_price) ≤ℤ result }
    ensures most { result ≤ℤ pos most_price }
{
    let number = i64::from(number) << (shift % 64);
    if number > 1 << 40 {
        return 1 << 40;
    }
    if number < -(1 << 40) {
        return -(1 << 40);
    }
    number
}

// The numbers of a tie in units of the ascent, by places.
fn row_of(ties: &TieNumbers, tie: usize, shift: u32) -> Row {
    let mut row = NOTHING;
    if tie >= ties.ties() || ties.is_zero(tie) {
        return row;
    }
    for slot in 0..13usize {
        put(
            &mut row,
            place_of(slot),
            number_of(ties.number(tie, slot), shift),
        );
    }
    row
}

// Gives a tie its numbers.
fn write_tie(ties: &mut TieNumbers, tie: usize, row: &Row, shift: u32)
    requires tie { 13 * tie + 13 ≤ length ties.old }
    requires most { All (λ z. z ≤ℤ pos most_price) ties.old }
    requires least { All (λ z. (pos 0 -ℤ pos most_price) ≤ℤ z) ties.old }
    ensures long { length ties.new ≡ length ties.old }
    ensures most { All (λ z. z ≤ℤ pos most_price) ties.new }
    ensures least { All (λ z. (pos 0 -ℤ pos most_price) ≤ℤ z) ties.new }
{
    for slot in 0..13usize {
        ties.set(tie, slot, tie_units_of(at(row, place_of(slot), 0), shift));
    }
}

impl UnitPrices {
    pub fn reserve(alloc: Global, net: &Net, layers: usize) -> Result<UnitPrices, AllocError> {
        Ok(UnitPrices {
            registers: vec![in alloc; [0; 8]; layers]?,
            pairs: vec![in alloc; 0i32; net.pairs.len()]?,
            ties: vec![in alloc; NOTHING; net.ties.len()]?,
        })
    }

    /// Takes over prices of a network.
    pub fn read(&mut self, prices: &Prices, shift: u32) {
        for layer in 0..self.registers.len() {
            let mut all = [0; 8];
            for r in 0..6usize {
                let number = layer.wrapping_mul(6).wrapping_add(r);
                all[r] = price_of(at(prices.caps.as_slice(), number, 0), shift);
            }
            put(&mut self.registers, layer, all);
        }
        for pair in 0..self.pairs.len() {
            let price = at(prices.mems.as_slice(), pair, 0);
            put(&mut self.pairs, pair, price_of(price, shift));
        }
        for tie in 0..self.ties.len() {
            put(&mut self.ties, tie, row_of(&prices.ties, tie, shift));
        }
    }

    /// All that is paid where each register at each layer and each memory pair is used once.
    pub fn paid(&self) -> i128 {
        let mut total = 0i128;
        for layer in 0..self.registers.len() {
            for price in at(&self.registers, layer, [0; 8]) {
                total = total.saturating_add(i128::from(price));
            }
        }
        for pair in 0..self.pairs.len() {
            total = total.saturating_add(i128::from(at(&self.pairs, pair, 0)));
        }
        total
    }

    fn cap(&self, number: usize) -> i32 {
        at(&self.registers, number / 6, [0; 8])[number % 6]
    }

    fn write_caps(&self, caps: &mut Seq<u64>, shift: u32)
        requires most { All (λ c. c ≤ most_price) caps.old }
        ensures long { length caps.new ≡ length caps.old }
        ensures most { All (λ c. c ≤ most_price) caps.new }
    {
        for number in 0..caps.len() {
            caps.set(number, units_of(self.cap(number), shift));
        }
    }

    fn write_mems(&self, mems: &mut Seq<u64>, shift: u32)
        requires most { All (λ m. m ≤ most_price) mems.old }
        ensures long { length mems.new ≡ length mems.old }
        ensures most { All (λ m. m ≤ most_price) mems.new }
    {
        for number in 0..mems.len() {
            mems.set(number, units_of(at(&self.pairs, number, 0), shift));
        }
    }

    fn write_ties(&self, ties: &mut TieNumbers, shift: u32)
        requires most { All (λ z. z ≤ℤ pos most_price) ties.old }
        requires least { All (λ z. (pos 0 -ℤ pos most_price) ≤ℤ z) ties.old }
        ensures long { length ties.new ≡ length ties.old }
        ensures most { All (λ z. z ≤ℤ pos most_price) ties.new }
        ensures least { All (λ z. (pos 0 -ℤ pos most_price) ≤ℤ z) ties.new }
    {
        for tie in 0..ties.ties() {
            let row = at(&self.ties, tie, NOTHING);
            if ties.is_zero(tie) && row == NOTHING {
                continue;
            }
            write_tie(ties, tie, &row, shift);
        }
    }

    /// Gives prices to a network that has prices.
    pub fn write(&self, _net: &Net, prices: &mut Prices, shift: u32)
        requires prices { AreInRange _net.now prices.old }
        ensures { AreInRange _net.now prices.new }
    {
        self.write_caps(&mut prices.caps, shift);
        self.write_mems(&mut prices.mems, shift);
        self.write_ties(&mut prices.ties, shift);
    }
}
