// An order of blocks: the place of each block, and the block at each place.

ghost use Rattle.std.specs.Prelude.{◌≡◌, ◌<◌, ℕ, IfOk, length};
ghost use Rattle.std.specs.List.{swap};
ghost use Rattle.vc_order.specs.Order.{IsListing, IsOrder, number_at, place_in};

use pra_base::BlockId;
use std::alloc::{AllocError, Global};

#[derive(Debug, Drop)]
pub struct Order {
    /// The place of each block.
    pub to: Vec<u32>,
    /// The block at each place.
    pub from: Vec<u32>,
}

/// The order of so many blocks in which they stand.
///
/// # Errors
///
/// Where there is no memory.
pub fn same_order(alloc: Global, count: u32) -> Result<Order, AllocError>
    ensures { IfOk result (λ order. IsOrder count order.to.items order.from.items) }
{
    let mut to = Vec::with_capacity(alloc, count as usize)?;
    let mut from = Vec::with_capacity(alloc, count as usize)?;
    for b in 0..count {
        to.push(b)?;
        from.push(b)?;
    }
    Ok(Order { to, from })
}

/// The place of a block.
pub fn place_of(order: &Order, b: usize) -> usize
    requires is { IsOrder (length order.now.to.items) order.now.to.items order.now.from.items }
    requires there { b < length order.now.to.items }
    ensures is { result ≡ place_in order.now.to.items b }
    ensures within { result < length order.now.to.items }
{
    order.to[b] as usize
}

/// The block at a place.
pub fn block_at(order: &Order, c: usize) -> usize
    requires is { IsOrder (length order.now.to.items) order.now.to.items order.now.from.items }
    requires there { c < length order.now.to.items }
    ensures is { result ≡ place_in order.now.from.items c }
    ensures within { result < length order.now.to.items }
{
    order.from[c] as usize
}

/// Exchanges the blocks at two places behind the first.
pub fn exchange(order: &mut Order, c: usize, d: usize)
    requires is { IsOrder (length order.old.to.items) order.old.to.items order.old.from.items }
    requires first { 0 < c }
    requires second { 0 < d }
    requires first_within { c < length order.old.to.items }
    requires second_within { d < length order.old.to.items }
    ensures is { IsOrder (length order.old.to.items) order.new.to.items order.new.from.items }
    ensures count { length order.new.to.items ≡ length order.old.to.items }
    ensures swapped { order.new.from.items ≡ swap order.old.from.items c d }
{
    let a = block_at(order, c);
    let b = block_at(order, d);
    order.from.swap(c, d);
    order.to.swap(a, b);
}

/// The order of so many blocks in which a list has them.
///
/// # Errors
///
/// Where there is no memory.
pub fn listed_order(alloc: Global, count: u32, ids: &[BlockId]) -> Result<Order, AllocError>
    requires { IsListing count ids.now }
    ensures is { IfOk result (λ order. IsOrder count order.to.items order.from.items) }
    ensures listed { IfOk result (λ order. (c : ℕ) → c < count →
        place_in order.from.items c ≡ number_at ids.now c) }
{
    let mut order = same_order(alloc, count)?;
    for c in 1..ids.len() {
        let at = place_of(&order, ids[c].0 as usize);
        exchange(&mut order, c, at);
    }
    Ok(order)
}
