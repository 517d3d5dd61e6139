// Code with its blocks in the order of a list.

ghost use Rattle.std.specs.Prelude.{◌≡◌, ◌<◌, IfOk, length};
ghost use Rattle.vc_build.specs.Grow.{count};
ghost use Rattle.pra_base.specs.Code.{block_of};
ghost use Rattle.vc_order.specs.Order.{IsListing, IsOrder, IsInOrder, place_in, end_with};
ghost use Rattle.vc_order.specs.Order.{block_with, blocks_in};
ghost use Rattle.vc_order.specs.Order.{block_at as block_id_at};

use crate::order::{Order, block_at, listed_order};
use pra_base::{Block, BlockId, End, OutOfMemory, VProc};
use pra_list::Seq;
use std::alloc::{AllocError, Global};

// A number past the list's end stays what it is.
fn place(places: &[u32], b: BlockId) -> BlockId
    ensures { result ≡ block_id_at (place_in places.now) b }
{
    match places.get(b.0 as usize) {
        Some(at) => BlockId(*at),
        None => b,
    }
}

fn end_in(places: &[u32], end: End) -> End
    ensures { result ≡ end_with (place_in places.now) end }
{
    match end {
        End::Jump(next) => End::Jump(place(places, next)),
        End::Branch(condition, one, other) => {
            End::Branch(condition, place(places, one), place(places, other))
        }
        End::Return => End::Return,
    }
}

fn block_in(alloc: Global, places: &[u32], code: &VProc, b: usize) -> Result<Block, AllocError>
    requires { b < count code.now }
    ensures { IfOk result (λ new. new ≡ block_with (place_in places.now) (block_of code.now b)) }
{
    let block = &code.blocks[b];
    let instrs = Seq::from_slice(alloc, block.code.as_slice())?;
    Ok(Block {
        depth: block.depth,
        code: instrs,
        end: end_in(places, block.end),
    })
}

fn in_order(alloc: Global, code: &VProc, order: &Order) -> Result<Vec<Block>, AllocError>
    requires is { IsOrder (count code.now) order.now.to.items order.now.from.items }
    requires all { length order.now.to.items ≡ count code.now }
    ensures { IfOk result (λ blocks.
        blocks.items ≡ blocks_in order.now.to.items order.now.from.items code.now) }
{
    let mut blocks = Vec::with_capacity(alloc, order.to.len())?;
    for c in 0..order.to.len() {
        let b = block_at(order, c);
        let block = block_in(alloc, order.to.as_slice(), code, b)?;
        blocks.push(block)?;
    }
    Ok(blocks)
}

/// The code with its blocks in the order of a list, which has each of them once and begins with the
/// entry.
///
/// # Errors
///
/// Where there is no memory, or there are more blocks than 32 bits count.
pub fn in_listed_order(alloc: Global, code: VProc, ids: &[BlockId]) -> Result<VProc, OutOfMemory>
    requires { IsListing (count code) ids.now }
    ensures { IfOk result (λ new. IsInOrder code ids.now new) }
{
    if code.blocks.len() > u32::MAX as usize {
        return Err(OutOfMemory);
    }
    let blocks = code.blocks.len() as u32;
    let order = listed_order(alloc, blocks, ids)?;
    let blocks = in_order(alloc, &code, &order)?;
    let VProc {
        id,
        args,
        aggregates,
        vars,
        blocks: _,
    } = code;
    Ok(VProc {
        id,
        args,
        aggregates,
        vars,
        blocks: Seq::from_vec(blocks),
    })
}
