// Leaving out dead code.

ghost use Rattle.std.specs.Prelude.{◌≡◌, ℕ, ◌≤◌, length, reverse, IfOk};
ghost use Rattle.pra_base.specs.Valid.{IsSized, instruction_count, most_instructions};
ghost use Rattle.vc_tidy.specs.Joined.{IsKnown};
ghost use Rattle.vc_tidy.specs.Thinned.{IsThinned};
ghost use Rattle.vc_tidy.specs.Thinned.{HasMarks, Thins, exit_of, ThinsBlock, ThinsAll};

use crate::marks::{is_needed, mark_exit, step_back};
use pra_base::{Block, BlockId, VInstr, VProc};
use pra_list::Seq;
use std::alloc::{AllocError, Global};
use vc_live::Liveness;

// The instructions of a block's code that are not dead, the last one first.
fn kept_back(
    alloc: Global,
    code: &[VInstr],
    id: BlockId,
    liveness: &Liveness,
    marks: &mut Vec<bool>,
) -> Result<Vec<VInstr>, AllocError>
    requires names { HasMarks marks.old.items code.now }
    requires short { length code.now ≤ most_instructions }
    ensures count { length marks.new.items ≡ length marks.old.items }
    ensures thins { IfOk result (λ kept.
        Thins (exit_of liveness.now id.0 code.now) code.now (reverse kept.items)) }
{
    let mut kept = Vec::with_capacity(alloc, code.len())?;
    mark_exit(marks, code, liveness, id);
    let mut left = code.len();
    while left > 0 {
        left -= 1;
        let instr = code[left];
        if is_needed(marks.as_slice(), &instr) {
            step_back(marks, &instr);
            kept.push(instr)?;
        }
    }
    Ok(kept)
}

fn thin_block(
    alloc: Global,
    old: &Block,
    id: BlockId,
    liveness: &Liveness,
    marks: &mut Vec<bool>,
) -> Result<Block, AllocError>
    requires names { HasMarks marks.old.items old.now.code }
    requires short { length old.now.code ≤ most_instructions }
    ensures count { length marks.new.items ≡ length marks.old.items }
    ensures thins { IfOk result (λ new. ThinsBlock liveness.now id.0 old.now new) }
{
    let mut code = kept_back(alloc, old.code.as_slice(), id, liveness, marks)?;
    code.reverse();
    Ok(Block {
        depth: old.depth,
        code: Seq::from_vec(code),
        end: old.end,
    })
}

// The blocks without their dead code.
fn thin_blocks(alloc: Global, code: &VProc, liveness: &Liveness) -> Result<Vec<Block>, AllocError>
    requires { IsSized code.now }
    ensures { IfOk result (λ blocks.
        ThinsAll liveness.now code.now.blocks blocks.items (length code.now.blocks)) }
{
    let mut marks = Vec::with_capacity(alloc, code.vars.len())?;
    for _ in 0..code.vars.len() {
        marks.push(false)?;
    }
    let mut blocks = Vec::with_capacity(alloc, code.blocks.len())?;
    for b in 0..code.blocks.len() {
        let id = BlockId(b as u32);
        blocks.push(thin_block(alloc, &code.blocks[b], id, liveness, &mut marks)?)?;
    }
    Ok(blocks)
}

/// How many instructions there are.
pub fn total(blocks: &[Block]) -> usize
    requires { instruction_count blocks.now ≤ most_instructions }
    ensures { result ≡ instruction_count blocks.now }
{
    let mut total = 0;
    for block in blocks {
        total += block.code.len();
    }
    total
}

/// The code with other blocks.
pub fn with_blocks(alloc: Global, code: &VProc, blocks: Vec<Block>) -> Result<VProc, AllocError>
    ensures { IfOk result (λ new. new ≡ record code.now { blocks = blocks.items }) }
{
    let vars = Seq::from_slice(alloc, code.vars.as_slice())?;
    Ok(VProc {
        id: code.id,
        args: code.args,
        aggregates: code.aggregates,
        vars,
        blocks: Seq::from_vec(blocks),
    })
}

/// The code without what is dead by its liveness, or nothing where nothing is dead. The blocks are
/// read backwards, and what is left out there keeps nothing live in front of it, so that all dead
/// code of a block goes at once.
pub fn thin(alloc: Global, code: &VProc, liveness: &Liveness) -> Result<Option<VProc>, AllocError>
    requires { IsKnown code.now liveness.now }
    ensures { IfOk result (λ new. IsThinned code.now new) }
{
    let blocks = thin_blocks(alloc, code, liveness)?;
    if total(blocks.as_slice()) == total(code.blocks.as_slice()) {
        return Ok(None);
    }
    let new = with_blocks(alloc, code, blocks)?;
    Ok(Some(new))
}
