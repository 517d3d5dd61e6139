// The code of any operator whose sides have both been evaluated.

ghost use Rattle.std.specs.Prelude.{◌≡◌, ◌<◌, ◌≤◌, length, true, IfOk, OnOk};
ghost use Rattle.vc_build.specs.Grow.{IsOpen};
ghost use Rattle.vc_expr.specs.Operators.{is_arithmetic, is_bitwise, Operates};
ghost use Rattle.vc_expr.specs.Division.{is_division};
ghost use Rattle.vc_expr.specs.Rules.{OperandsApart, StaysValid};
ghost use Rattle.vc_expr.specs.Readable.{ReadsOperands};
ghost use Rattle.vc_expr.specs.Counts.{OperationAdds};

use crate::arithmetic::select_arithmetic;
use crate::bits::select_bitwise;
use crate::division::select_division;
use crate::power::select_product;
use crate::relation::select_relation;
use ob_syntax::checked::ROp;
use pra_base::{BlockId, OutOfMemory, VProc, VarId};
use std::alloc::Global;

fn is_product(op: ROp) -> bool
    ensures { (result ≡ true) → (op ≡ ROp.Mul) }
{
    matches!(op, ROp::Mul)
}

fn is_arithmetic(op: ROp) -> bool
    ensures { result ≡ is_arithmetic op }
{
    matches!(op, ROp::Mul | ROp::Add | ROp::Sub)
}

fn is_division(op: ROp) -> bool
    ensures { result ≡ is_division op }
{
    matches!(op, ROp::Div | ROp::Mod)
}

fn is_bitwise(op: ROp) -> bool
    ensures { result ≡ is_bitwise op }
{
    matches!(op, ROp::Both | ROp::Either)
}

/// What an operator gives of two operands, or its trap. Both have been evaluated, so `&` and OR are
/// selected here only where the right side can't trap.
///
/// # Errors
///
/// Where there is no memory; the code is of no use then.
pub fn select_operator(
    alloc: Global,
    code: &mut VProc,
    at: BlockId,
    first: u32,
    op: ROp,
    left: VarId,
    right: VarId,
) -> Result<VarId, OutOfMemory>
    requires is_open { IsOpen code.old at.0 }
    requires left { left.0 < length code.old.vars }
    requires right { right.0 < length code.old.vars }
    requires first { first ≤ length code.old.vars }
    ensures is_open { OnOk result (IsOpen code.new at.0) }
    ensures vars { OnOk result (length code.old.vars ≤ length code.new.vars) }
    ensures operates { IfOk result (λ v.
        Operates op first at.0 code.old code.new left.0 right.0 v.0) }
    ensures counts { OnOk result (OperationAdds 6 3 1 first left.0 code.old code.new) }
    ensures valid { OnOk result
        (OperandsApart first left.0 right.0 → StaysValid code.old code.new) }
    ensures reads { IfOk result (λ v. OperandsApart first left.0 right.0 →
        ReadsOperands first at.0 code.old code.new left.0 right.0 v.0) }
{
    if is_product(op) {
        let v = select_product(alloc, code, at, first, left, right)?;
        return Ok(v);
    }
    if is_arithmetic(op) {
        let v = select_arithmetic(alloc, code, at, first, op, left, right)?;
        return Ok(v);
    }
    if is_division(op) {
        let v = select_division(alloc, code, at, first, op, left, right)?;
        return Ok(v);
    }
    if is_bitwise(op) {
        let v = select_bitwise(alloc, code, at, first, op, left, right)?;
        return Ok(v);
    }
    let v = select_relation(alloc, code, at, first, op, left, right)?;
    Ok(v)
}
