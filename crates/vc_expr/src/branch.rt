// Conditions: a comparison, and an end with two targets.

ghost use Rattle.std.specs.Prelude.{◌≡◌, ◌≢◌, ◌<◌, ◌≤◌, length, true, OnOk};
ghost use Rattle.pra_base.specs.Code.{end_of};
ghost use Rattle.vc_build.specs.Grow.{count, stand_in, IsOpen};
ghost use Rattle.vc_expr.specs.Operators.{is_relation};
ghost use Rattle.vc_expr.specs.Branches.{BranchesBy, BranchesOn, LeadsOnlyTo};
ghost use Rattle.vc_expr.specs.Rules.{StaysValid};
ghost use Rattle.vc_expr.specs.Readable.{ReadsSides};
ghost use Rattle.vc_expr.specs.Counts.{AddsAtMost};

use crate::relation::condition_of;
use ob_syntax::checked::ROp;
use pra_base::{BlockId, End, OutOfMemory, VInstr, VProc, VarId, VarKind};
use std::alloc::Global;
use vc_build::{close, declare, put};

/// Where a test leads if it holds, and where if not.
#[derive(Clone, Copy, Debug, PartialEq, Eq, Drop)]
pub struct Targets {
    pub holds: BlockId,
    pub fails: BlockId,
}

/// Leaves a block by a relation of two operands.
///
/// # Errors
///
/// Where there is no memory; the code is of no use then.
pub fn branch_by(
    alloc: Global,
    code: &mut VProc,
    at: BlockId,
    op: ROp,
    left: VarId,
    right: VarId,
    targets: Targets,
) -> Result<(), OutOfMemory>
    requires is_open { IsOpen code.old at.0 }
    requires left { left.0 < length code.old.vars }
    requires right { right.0 < length code.old.vars }
    requires holds { targets.holds.0 < count code.old }
    requires fails { targets.fails.0 < count code.old }
    requires op { is_relation op ≡ true }
    ensures vars { OnOk result (code.new.vars ≡ code.old.vars) }
    ensures branches { OnOk result
        (BranchesBy op at.0 code.old code.new left.0 right.0 targets) }
    ensures closed { OnOk result (end_of code.new at.0 ≢ stand_in) }
    ensures leads { OnOk result (LeadsOnlyTo targets (end_of code.new at.0)) }
    ensures counts { OnOk result (AddsAtMost 1 0 0 0 code.old code.new) }
    ensures valid { OnOk result (0 < targets.holds.0 → 0 < targets.fails.0 →
        StaysValid code.old code.new) }
    ensures reads { OnOk result
        (ReadsSides at.0 code.old code.new left.0 right.0 targets) }
{
    put(alloc, code, at, VInstr::Cmp(left, right))?;
    close(
        alloc,
        code,
        at,
        End::Branch(condition_of(op), targets.holds, targets.fails),
    );
    Ok(())
}

/// Leaves a block by a truth value.
///
/// # Errors
///
/// Where there is no memory; the code is of no use then.
pub fn branch_on(
    alloc: Global,
    code: &mut VProc,
    at: BlockId,
    v: VarId,
    targets: Targets,
) -> Result<(), OutOfMemory>
    requires is_open { IsOpen code.old at.0 }
    requires named { v.0 < length code.old.vars }
    requires holds { targets.holds.0 < count code.old }
    requires fails { targets.fails.0 < count code.old }
    ensures vars { OnOk result (length code.old.vars ≤ length code.new.vars) }
    ensures branches { OnOk result (BranchesOn at.0 code.old code.new v.0 targets) }
    ensures closed { OnOk result (end_of code.new at.0 ≢ stand_in) }
    ensures leads { OnOk result (LeadsOnlyTo targets (end_of code.new at.0)) }
    ensures counts { OnOk result (AddsAtMost 1 0 1 0 code.old code.new) }
    ensures valid { OnOk result (0 < targets.holds.0 → 0 < targets.fails.0 →
        StaysValid code.old code.new) }
    ensures reads { OnOk result (ReadsSides at.0 code.old code.new v.0 v.0 targets) }
{
    let zero = declare(code, VarKind::Constant(0))?;
    branch_by(alloc, code, at, ROp::Unequal, v, zero, targets)?;
    Ok(())
}
