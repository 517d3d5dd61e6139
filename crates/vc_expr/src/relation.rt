// Relations as values.

ghost use Rattle.std.specs.Prelude.{◌≡◌, ◌<◌, ◌≤◌, length, true, IfOk, OnOk};
ghost use Rattle.vc_build.specs.Grow.{IsOpen};
ghost use Rattle.vc_expr.specs.Operators.{is_relation, condition_of, Operates};
ghost use Rattle.vc_expr.specs.Rules.{StaysValid};
ghost use Rattle.vc_expr.specs.Readable.{ReadsOperands};
ghost use Rattle.vc_expr.specs.Counts.{AddsAtMost};

use ob_syntax::checked::ROp;
use pra_base::{BlockId, Cond, OutOfMemory, VInstr, VProc, VarId, VarKind};
use std::alloc::Global;
use vc_build::{declare, put};

pub fn condition_of(op: ROp) -> Cond
    ensures { result ≡ condition_of op }
{
    match op {
        ROp::Equal => Cond::E,
        ROp::Unequal => Cond::Ne,
        ROp::Less => Cond::L,
        ROp::LessEqual => Cond::Le,
        ROp::Greater => Cond::G,
        _ => Cond::Ge,
    }
}

/// Whether a relation holds of two operands, as a value: 1 for TRUE, 0 for FALSE.
///
/// # Errors
///
/// Where there is no memory; the code is of no use then.
pub fn select_relation(
    alloc: Global,
    code: &mut VProc,
    at: BlockId,
    first: u32,
    op: ROp,
    left: VarId,
    right: VarId,
) -> Result<VarId, OutOfMemory>
    requires is_open { IsOpen code.old at.0 }
    requires left { left.0 < length code.old.vars }
    requires right { right.0 < length code.old.vars }
    requires first { first ≤ length code.old.vars }
    requires op { is_relation op ≡ true }
    ensures is_open { OnOk result (IsOpen code.new at.0) }
    ensures vars { OnOk result (length code.old.vars ≤ length code.new.vars) }
    ensures operates { IfOk result (λ v.
        Operates op first at.0 code.old code.new left.0 right.0 v.0) }
    ensures counts { OnOk result (AddsAtMost 1 1 0 0 code.old code.new) }
    ensures valid { OnOk result (StaysValid code.old code.new) }
    ensures reads { IfOk result (λ v.
        ReadsOperands first at.0 code.old code.new left.0 right.0 v.0) }
{
    let target = declare(code, VarKind::Plain)?;
    put(
        alloc,
        code,
        at,
        VInstr::CmpSet(condition_of(op), target, left, right),
    )?;
    Ok(target)
}
