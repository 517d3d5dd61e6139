// `&` and OR as values, bit by bit: where the right side can't trap, it may be evaluated in any
// case.

ghost use Rattle.std.specs.Prelude.{◌≡◌, ◌<◌, ◌≤◌, length, true, IfOk, OnOk};
ghost use Rattle.vc_build.specs.Grow.{IsOpen};
ghost use Rattle.vc_expr.specs.Operators.{is_bitwise, bitwise_of, Operates};
ghost use Rattle.vc_expr.specs.Rules.{StaysValid};
ghost use Rattle.vc_expr.specs.Readable.{ReadsOperands};
ghost use Rattle.vc_expr.specs.Counts.{OperationAdds};

use crate::start::start;
use ob_syntax::checked::ROp;
use pra_base::{BlockId, OutOfMemory, VInstr, VProc, VarId};
use std::alloc::Global;
use vc_build::put;

fn bitwise_of(op: ROp, target: VarId, right: VarId) -> VInstr
    ensures { result ≡ bitwise_of op target right }
{
    match op {
        ROp::Both => VInstr::And(target, right),
        _ => VInstr::Or(target, right),
    }
}

/// `&` or OR of two operands that are 0 or 1: the start of the operation, and then the instruction.
///
/// # Errors
///
/// Where there is no memory; the code is of no use then.
pub fn select_bitwise(
    alloc: Global,
    code: &mut VProc,
    at: BlockId,
    first: u32,
    op: ROp,
    left: VarId,
    right: VarId,
) -> Result<VarId, OutOfMemory>
    requires is_open { IsOpen code.old at.0 }
    requires left { left.0 < length code.old.vars }
    requires right { right.0 < length code.old.vars }
    requires first { first ≤ length code.old.vars }
    requires op { is_bitwise op ≡ true }
    ensures is_open { OnOk result (IsOpen code.new at.0) }
    ensures vars { OnOk result (length code.old.vars ≤ length code.new.vars) }
    ensures operates { IfOk result (λ v.
        Operates op first at.0 code.old code.new left.0 right.0 v.0) }
    ensures counts { OnOk result (OperationAdds 1 0 0 first left.0 code.old code.new) }
    ensures valid { OnOk result (StaysValid code.old code.new) }
    ensures reads { IfOk result (λ v.
        ReadsOperands first at.0 code.old code.new left.0 right.0 v.0) }
{
    let target = start(alloc, code, at, first, left)?;
    put(alloc, code, at, bitwise_of(op, target, right))?;
    Ok(target)
}
