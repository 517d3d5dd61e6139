// What is paid for places that others want too, and what a round comes to.

use crate::tie_numbers::TieNumbers;
use pra_list::Seq;

/// Prices, in units of 1/1024 of a weight.
#[derive(Debug, Drop)]
pub struct Prices {
    /// For each layer of all blocks the prices of the six registers, at most 2^40.
    pub caps: Seq<u64>,
    /// For each memory pair the price of memory, at most 2^40.
    pub mems: Seq<u64>,
    /// For each tie a number for each place where a variable can be at an exit, from -2^40 to 2^40.
    pub ties: TieNumbers,
}

/// A round: its number, the cost of the best routes so far and the greatest bound so far.
#[derive(Clone, Copy, Debug, PartialEq, Eq, Drop)]
pub struct Line {
    pub round: u32,
    pub cost: u128,
    pub bound: u128,
}
