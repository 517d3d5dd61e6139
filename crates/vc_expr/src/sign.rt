// The signs `-` and `~`.

ghost use Rattle.std.specs.Prelude.{◌≡◌, ◌<◌, ◌≤◌, length, IfOk, OnOk};
ghost use Rattle.ob_syntax.specs.Operators.{negated, inverted};
ghost use Rattle.vc_build.specs.Grow.{IsOpen};
ghost use Rattle.vc_expr.specs.Operators.{Converts, ConvertsBit};
ghost use Rattle.vc_expr.specs.Rules.{StaysValid};
ghost use Rattle.vc_expr.specs.Readable.{ReadsOperands};
ghost use Rattle.vc_expr.specs.Counts.{OperationAdds};

use crate::start::start;
use pra_base::{BlockId, OutOfMemory, VInstr, VProc, VarId, VarKind};
use std::alloc::Global;
use vc_build::{declare, put};

/// An operand with its sign changed: the start of the operation, and then Neg.
///
/// # Errors
///
/// Where there is no memory; the code is of no use then.
pub fn select_negation(
    alloc: Global,
    code: &mut VProc,
    at: BlockId,
    first: u32,
    operand: VarId,
) -> Result<VarId, OutOfMemory>
    requires is_open { IsOpen code.old at.0 }
    requires operand { operand.0 < length code.old.vars }
    requires first { first ≤ length code.old.vars }
    ensures is_open { OnOk result (IsOpen code.new at.0) }
    ensures vars { OnOk result (length code.old.vars ≤ length code.new.vars) }
    ensures converts { IfOk result (λ v.
        Converts negated first at.0 code.old code.new operand.0 v.0) }
    ensures counts { OnOk result (OperationAdds 1 0 0 first operand.0 code.old code.new) }
    ensures valid { OnOk result (StaysValid code.old code.new) }
    ensures reads { IfOk result (λ v.
        ReadsOperands first at.0 code.old code.new operand.0 operand.0 v.0) }
{
    let target = start(alloc, code, at, first, operand)?;
    put(alloc, code, at, VInstr::Neg(target))?;
    Ok(target)
}

/// The other truth value of an operand that is 0 or 1: the start of the operation, and then Xor
/// with 1.
///
/// # Errors
///
/// Where there is no memory; the code is of no use then.
pub fn select_inversion(
    alloc: Global,
    code: &mut VProc,
    at: BlockId,
    first: u32,
    operand: VarId,
) -> Result<VarId, OutOfMemory>
    requires is_open { IsOpen code.old at.0 }
    requires operand { operand.0 < length code.old.vars }
    requires first { first ≤ length code.old.vars }
    ensures is_open { OnOk result (IsOpen code.new at.0) }
    ensures vars { OnOk result (length code.old.vars ≤ length code.new.vars) }
    ensures converts { IfOk result (λ v.
        ConvertsBit inverted first at.0 code.old code.new operand.0 v.0) }
    ensures counts { OnOk result (OperationAdds 1 0 1 first operand.0 code.old code.new) }
    ensures valid { OnOk result (StaysValid code.old code.new) }
    ensures reads { IfOk result (λ v.
        ReadsOperands first at.0 code.old code.new operand.0 operand.0 v.0) }
{
    let one = declare(code, VarKind::Constant(1))?;
    let target = start(alloc, code, at, first, operand)?;
    put(alloc, code, at, VInstr::Xor(target, one))?;
    Ok(target)
}
