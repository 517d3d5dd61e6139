// The start of an operation: its left or only operand in a variable that may be written.

ghost use Rattle.std.specs.Prelude.{◌≡◌, ◌<◌, ◌≤◌, length, IfOk, OnOk};
ghost use Rattle.pra_base.specs.Code.{kind_of};
ghost use Rattle.vc_build.specs.Grow.{IsOpen};
ghost use Rattle.vc_expr.specs.Operators.{is_temporary, first_of, Begins};
ghost use Rattle.vc_expr.specs.Rules.{StaysValid};
ghost use Rattle.vc_expr.specs.Readable.{ReadsOperands};
ghost use Rattle.vc_expr.specs.Counts.{OperationAdds};

use pra_base::{BlockId, OutOfMemory, VInstr, VProc, VarId, VarKind};
use std::alloc::Global;
use vc_build::{declare, put};

fn is_temporary(kind: VarKind, first: u32, v: VarId) -> bool
    ensures { result ≡ is_temporary kind first v.0 }
{
    match kind {
        VarKind::Plain => first <= v.0,
        _ => false,
    }
}

pub fn first_of(kind: VarKind, target: VarId, v: VarId) -> VInstr
    ensures { result ≡ first_of kind target v }
{
    match kind {
        VarKind::Constant(n) => VInstr::Set(target, n),
        _ => VInstr::Copy(target, v),
    }
}

/// Puts an operand into a variable that may be written: itself, where it is a temporary that is
/// used nowhere else, and a new one for a constant or a variable of the source.
///
/// # Errors
///
/// Where there is no memory; the code is of no use then.
pub fn start(
    alloc: Global,
    code: &mut VProc,
    at: BlockId,
    first: u32,
    v: VarId,
) -> Result<VarId, OutOfMemory>
    requires is_open { IsOpen code.old at.0 }
    requires named { v.0 < length code.old.vars }
    requires first { first ≤ length code.old.vars }
    ensures is_open { OnOk result (IsOpen code.new at.0) }
    ensures vars { OnOk result (length code.old.vars ≤ length code.new.vars) }
    ensures begins { IfOk result (λ target. Begins first at.0 code.old code.new v.0 target.0) }
    ensures counts { OnOk result (OperationAdds 0 0 0 first v.0 code.old code.new) }
    ensures valid { OnOk result (StaysValid code.old code.new) }
    ensures reads { IfOk result (λ target.
        ReadsOperands (length code.old.vars) at.0 code.old code.new v.0 v.0 target.0) }
{
    let kind = code.vars[v.0 as usize];
    if is_temporary(kind, first, v) {
        return Ok(v);
    }
    let target = declare(code, VarKind::Plain)?;
    put(alloc, code, at, first_of(kind, target, v))?;
    Ok(target)
}
