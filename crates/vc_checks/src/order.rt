// The order in which facts are sought: that of the flow, in which a block stands behind those from
// which control comes to it, but for the ways back of loops (reverse postorder). So facts come to a
// loop by its entry first, wherever its blocks stand. Nothing is promised of it.

use pra_base::{BlockId, End, VProc};
use std::alloc::{AllocError, Global};

/// What a list has at a place, or 0 past its end.
pub fn number_at(numbers: &[usize], at: usize) -> usize {
    match numbers.get(at) {
        Some(number) => *number,
        None => 0,
    }
}

/// The place of a block in an order.
pub fn rank_of(ranks: &[usize], block: BlockId) -> usize {
    number_at(ranks, block.0 as usize)
}

/// A walk over the blocks, depth first.
#[derive(Debug, Drop)]
struct Walk {
    /// Blocks that were met and are not done; one may stand there twice.
    open: Vec<usize>,
    /// Whether a block was entered.
    entered: Vec<bool>,
    /// Whether a block is done: all that can be reached from it was entered.
    done: Vec<bool>,
    /// The blocks that are done, in that order.
    last_first: Vec<usize>,
}

fn set(marks: &mut Vec<bool>, at: usize) {
    if at < marks.len() {
        marks[at] = true;
    }
}

// A number past the end counts as marked.
fn is_set(marks: &[bool], at: usize) -> bool {
    match marks.get(at) {
        Some(mark) => *mark,
        None => true,
    }
}

fn walk_of(alloc: Global, count: usize) -> Result<Walk, AllocError> {
    let mut entered = Vec::with_capacity(alloc, count)?;
    let mut done = Vec::with_capacity(alloc, count)?;
    for _ in 0..count {
        entered.push(false)?;
        done.push(false)?;
    }
    Ok(Walk {
        open: Vec::with_capacity(alloc, count)?,
        entered,
        done,
        last_first: Vec::with_capacity(alloc, count)?,
    })
}

// A block that is met is entered later, unless it was.
fn meet(walk: &mut Walk, block: BlockId) -> Result<(), AllocError> {
    let b = block.0 as usize;
    if !is_set(walk.entered.as_slice(), b) {
        walk.open.push(b)?;
    }
    Ok(())
}

// Meets the blocks behind one. What stands first in the code is met last: its part of the order
// begins directly behind the block.
fn meet_targets(walk: &mut Walk, end: End) -> Result<(), AllocError> {
    match end {
        End::Jump(next) => meet(walk, next)?,
        End::Branch(_, one, other) => {
            if one.0 < other.0 {
                meet(walk, one)?;
                meet(walk, other)?;
            } else {
                meet(walk, other)?;
                meet(walk, one)?;
            }
        }
        End::Return => {}
    }
    Ok(())
}

// Enters the block that was met last, or leaves it where that was done.
fn go_on(code: &VProc, walk: &mut Walk, b: usize) -> Result<(), AllocError> {
    if !is_set(walk.entered.as_slice(), b) {
        set(&mut walk.entered, b);
        if b < code.blocks.len() {
            meet_targets(walk, code.blocks[b].end)?;
        }
        return Ok(());
    }
    let _left = walk.open.pop();
    if !is_set(walk.done.as_slice(), b) {
        set(&mut walk.done, b);
        walk.last_first.push(b)?;
    }
    Ok(())
}

/// The blocks in the order of the flow, and behind them those to which control does not come.
///
/// # Errors
///
/// Where there is no memory.
pub fn flow_order(alloc: Global, code: &VProc) -> Result<Vec<usize>, AllocError> {
    let count = code.blocks.len();
    let mut walk = walk_of(alloc, count)?;
    walk.open.push(0)?;
    // (each block is entered once, meets two others at most, and each that is met is left)
    for _ in 0..count.saturating_mul(3).saturating_add(1) {
        let Some(b) = walk.open.last() else {
            break;
        };
        let b = *b;
        go_on(code, &mut walk, b)?;
    }
    let mut order = Vec::with_capacity(alloc, count)?;
    for b in walk.last_first.iter().rev() {
        order.push(*b)?;
    }
    for b in 0..count {
        if !is_set(walk.done.as_slice(), b) {
            order.push(b)?;
        }
    }
    Ok(order)
}

/// The place of each block in an order.
///
/// # Errors
///
/// Where there is no memory.
pub fn ranks_in(alloc: Global, order: &[usize]) -> Result<Vec<usize>, AllocError> {
    let mut ranks = Vec::with_capacity(alloc, order.len())?;
    for _ in 0..order.len() {
        ranks.push(0)?;
    }
    for (rank, b) in order.iter().enumerate() {
        if *b < ranks.len() {
            ranks[*b] = rank;
        }
    }
    Ok(ranks)
}
