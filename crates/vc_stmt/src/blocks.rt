// Blocks that are opened before the code that comes before them in the text, and the order in which
// blocks are listed.

ghost use Rattle.std.specs.Prelude.{◌≡◌, ◌≢◌, ◌+◌, ◌<◌, ◌≤◌, ◌++◌, length, IfOk, OnOk};
ghost use Rattle.std.specs.List.{remove_range, slice_range};
ghost use Rattle.pra_base.specs.Code.{block_of};
ghost use Rattle.pra_base.specs.declared.code.End.TheVariants.{Jump};
ghost use Rattle.vc_build.specs.Grow.{count, with_end};
ghost use Rattle.vc_stmt.specs.Blocks.{Waits, deeper as deeper_than, with_arm, with_loop};

use pra_base::{BlockId, End, OutOfMemory, VProc};
use pra_list::Seq;
use std::alloc::Global;
use std::mem;
use vc_build::{close, open_block};
use vc_expr::Targets;

/// The block where the test of a loop begins, the one where its statements begin, and the one
/// behind it.
#[derive(Clone, Copy, Debug, PartialEq, Eq, Drop)]
pub struct Loop {
    pub test: BlockId,
    pub body: BlockId,
    pub behind: BlockId,
}

/// The depth of the blocks in a loop, by that of the block in which it stands.
pub fn deeper(depth: u32) -> u32
    ensures { result ≡ deeper_than depth }
{
    if depth < 5 { depth + 1 } else { 5 }
}

/// Opens the blocks of a loop that stands in a block.
///
/// # Errors
///
/// Where there is no memory for them, or no number; the code is of no use then.
pub fn open_loop(alloc: Global, code: &mut VProc, at: BlockId) -> Result<Loop, OutOfMemory>
    requires { at.0 < count code.old }
    ensures made { OnOk result (code.new ≡ with_loop (block_of code.old at.0).depth code.old) }
    ensures vars { OnOk result (length code.old.vars ≤ length code.new.vars) }
    ensures behind { IfOk result (λ l. l.behind.0 ≡ count code.old) }
    ensures body { IfOk result (λ l. l.body.0 ≡ count code.old + 1) }
    ensures test { IfOk result (λ l. l.test.0 ≡ count code.old + 2) }
{
    let depth = code.blocks[at.0 as usize].depth;
    let inner = deeper(depth);
    let behind = open_block(alloc, code, depth)?;
    let body = open_block(alloc, code, inner)?;
    let test = open_block(alloc, code, inner)?;
    Ok(Loop { test, body, behind })
}

/// Opens the two blocks to which the condition of an arm leads from a block.
///
/// # Errors
///
/// Where there is no memory for them, or no number; the code is of no use then.
pub fn open_arm(alloc: Global, code: &mut VProc, at: BlockId) -> Result<Targets, OutOfMemory>
    requires { at.0 < count code.old }
    ensures made { OnOk result (code.new ≡ with_arm (block_of code.old at.0).depth code.old) }
    ensures vars { OnOk result (length code.old.vars ≤ length code.new.vars) }
    ensures fails { IfOk result (λ t. t.fails.0 ≡ count code.old) }
    ensures holds { IfOk result (λ t. t.holds.0 ≡ count code.old + 1) }
{
    let depth = code.blocks[at.0 as usize].depth;
    let fails = open_block(alloc, code, depth)?;
    let holds = open_block(alloc, code, depth)?;
    Ok(Targets { holds, fails })
}

/// Ends a block with a jump.
pub fn jump(alloc: Global, code: &mut VProc, at: BlockId, target: BlockId)
    requires { at.0 < count code.old }
    ensures made { code.new ≡ with_end at.0 (Jump target) code.old }
    ensures vars { length code.old.vars ≤ length code.new.vars }
{
    close(alloc, code, at, End::Jump(target));
}

/// Puts what is listed from `begin` up to `middle` behind the rest.
pub fn turn(alloc: Global, order: &mut Seq<BlockId>, begin: usize, middle: usize)
    requires begins { begin ≤ middle }
    requires ends { middle ≤ length order.old }
    ensures { order.new ≡ remove_range order.old begin middle
        ++ slice_range order.old begin middle }
{
    let mut ids = mem::replace(order, Seq::new(alloc)).into_vec();
    ids[begin..].rotate_left(middle - begin);
    *order = Seq::from_vec(ids);
}

/// Says that another block waits, and is not the first one, so that what follows need not show it.
pub fn confirm_waits(code: &VProc, at: BlockId, block: BlockId)
    requires waits { Waits code.now block.0 }
    requires apart { block.0 ≢ at.0 }
    requires real { block.0 ≢ 0 }
    ensures waits { Waits code.now block.0 }
    ensures apart { block.0 ≢ at.0 }
    ensures real { block.0 ≢ 0 }
{}
