// What stands before the statements of a procedure.

ghost use Rattle.std.specs.Prelude.{◌≡◌, ◌-◌, ◌++◌, length, IfOk};
ghost use Rattle.vc_proc.specs.Opening.{clearing, zeros, opened, home_kinds, param_kinds};

use crate::number::number_of;
use ob_syntax::CheckedProc;
use pra_base::{Block, BlockId, End, OutOfMemory, ProcId, VInstr, VProc, VarId, VarKind};
use pra_list::Seq;
use std::alloc::Global;

/// The instructions after which the aggregates are 0, and the variables from `first` to `end`.
fn opening(alloc: Global, aggregates: u32, first: u32, end: u32) -> Result<Vec<VInstr>, OutOfMemory>
    ensures { IfOk result (λ code.
        code.items ≡ clearing aggregates ++ zeros first (end - first)) }
{
    let mut code = Vec::new(alloc);
    if aggregates != 0 {
        code.push(VInstr::Clear)?;
    }
    for v in first..end {
        code.push(VInstr::Set(VarId(v), 0))?;
    }
    Ok(code)
}

/// The code at whose end the statements of a procedure are selected, with the variables that are
/// homes. Those of locals begin at `first_local`.
///
/// # Errors
///
/// Where there is no memory, or no number.
pub fn open_code(
    alloc: Global,
    id: ProcId,
    proc: &CheckedProc,
    kinds: Vec<VarKind>,
    first_local: u32,
) -> Result<VProc, OutOfMemory>
    requires kinds { kinds.items ≡ home_kinds proc.now }
    requires first_local { first_local ≡ length (param_kinds 0 proc.now.params) }
    ensures { IfOk result (λ code. code ≡ opened id.0 proc.now) }
{
    let args = number_of(proc.params.len())?;
    let end = number_of(kinds.as_slice().len())?;
    let code = opening(alloc, proc.aggregate_words, first_local, end)?;
    let mut blocks = Vec::new(alloc);
    blocks.push(Block {
        depth: 0,
        code: Seq::from_vec(code),
        end: End::Jump(BlockId(0)),
    })?;
    Ok(VProc {
        id,
        args,
        aggregates: proc.aggregate_words,
        vars: Seq::from_vec(kinds),
        blocks: Seq::from_vec(blocks),
    })
}
