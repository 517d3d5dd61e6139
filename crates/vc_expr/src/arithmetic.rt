// Sums, differences and products.

ghost use Rattle.std.specs.Prelude.{◌≡◌, ◌<◌, ◌≤◌, length, true, IfOk, OnOk};
ghost use Rattle.vc_build.specs.Grow.{IsOpen};
ghost use Rattle.vc_expr.specs.Operators.{is_arithmetic, arithmetic_of, Operates};
ghost use Rattle.vc_expr.specs.Rules.{StaysValid};
ghost use Rattle.vc_expr.specs.Readable.{ReadsOperands};
ghost use Rattle.vc_expr.specs.Counts.{OperationAdds};

use crate::start::start;
use ob_syntax::checked::ROp;
use pra_base::{BlockId, OutOfMemory, VInstr, VProc, VarId};
use std::alloc::Global;
use vc_build::put;

fn arithmetic_of(op: ROp, target: VarId, right: VarId) -> VInstr
    ensures { result ≡ arithmetic_of op target right }
{
    match op {
        ROp::Mul => VInstr::Mul(target, right),
        ROp::Sub => VInstr::Sub(target, right),
        _ => VInstr::Add(target, right),
    }
}

/// The sum, the difference or the product of two operands: the start of the operation, and then the
/// instruction.
///
/// # Errors
///
/// Where there is no memory; the code is of no use then.
pub fn select_arithmetic(
    alloc: Global,
    code: &mut VProc,
    at: BlockId,
    first: u32,
    op: ROp,
    left: VarId,
    right: VarId,
) -> Result<VarId, OutOfMemory>
    requires is_open { IsOpen code.old at.0 }
    requires left { left.0 < length code.old.vars }
    requires right { right.0 < length code.old.vars }
    requires first { first ≤ length code.old.vars }
    requires op { is_arithmetic op ≡ true }
    ensures is_open { OnOk result (IsOpen code.new at.0) }
    ensures vars { OnOk result (length code.old.vars ≤ length code.new.vars) }
    ensures operates { IfOk result (λ v.
        Operates op first at.0 code.old code.new left.0 right.0 v.0) }
    ensures counts { OnOk result (OperationAdds 1 0 0 first left.0 code.old code.new) }
    ensures valid { OnOk result (StaysValid code.old code.new) }
    ensures reads { IfOk result (λ v.
        ReadsOperands first at.0 code.old code.new left.0 right.0 v.0) }
{
    let target = start(alloc, code, at, first, left)?;
    put(alloc, code, at, arithmetic_of(op, target, right))?;
    Ok(target)
}
