// The four changes that are made to code under construction.

ghost use Rattle.std.specs.Prelude.{◌≡◌, ◌<◌, length, OnOk, IfOk};
ghost use Rattle.vc_build.specs.Grow.{count, with_end, with_instr, with_open_block, with_variable};

use pra_base::{Block, BlockId, End, OutOfMemory, VInstr, VProc, VarId, VarKind};
use pra_list::Seq;
use std::alloc::Global;
use std::mem;

/// Adds an instruction at the end of a block.
///
/// # Errors
///
/// Where there is no memory for it; the code is of no use then.
pub fn put(
    alloc: Global,
    code: &mut VProc,
    block: BlockId,
    instr: VInstr,
) -> Result<(), OutOfMemory>
    requires { block.0 < count code.old }
    ensures { OnOk result (code.new ≡ with_instr block.0 instr code.old) }
{
    let mut blocks = mem::replace(&mut code.blocks, Seq::new(alloc)).into_vec();
    blocks[block.0 as usize].code.push(instr)?;
    code.blocks = Seq::from_vec(blocks);
    Ok(())
}

/// Gives a block its end.
pub fn close(alloc: Global, code: &mut VProc, block: BlockId, end: End)
    requires { block.0 < count code.old }
    ensures { code.new ≡ with_end block.0 end code.old }
{
    let mut blocks = mem::replace(&mut code.blocks, Seq::new(alloc)).into_vec();
    blocks[block.0 as usize].end = end;
    code.blocks = Seq::from_vec(blocks);
}

/// Adds an open block without instructions, at a depth of loops.
///
/// # Errors
///
/// Where there is no memory for it, or no number.
pub fn open_block(alloc: Global, code: &mut VProc, depth: u32) -> Result<BlockId, OutOfMemory>
    ensures made { OnOk result (code.new ≡ with_open_block depth code.old) }
    ensures number { IfOk result (λ b. b.0 ≡ count code.old) }
{
    let number = u32::try_from(code.blocks.len()).map_err(|_| OutOfMemory)?;
    code.blocks.push(Block {
        depth,
        code: Seq::new(alloc),
        end: End::Jump(BlockId(0)),
    })?;
    Ok(BlockId(number))
}

/// Adds a variable.
///
/// # Errors
///
/// Where there is no memory for it, or no number.
pub fn declare(code: &mut VProc, kind: VarKind) -> Result<VarId, OutOfMemory>
    ensures made { OnOk result (code.new ≡ with_variable kind code.old) }
    ensures number { IfOk result (λ v. v.0 ≡ length code.old.vars) }
{
    let number = u32::try_from(code.vars.len()).map_err(|_| OutOfMemory)?;
    code.vars.push(kind)?;
    Ok(VarId(number))
}
