// `&` and OR as values with a right side that can trap: what stands before the test of the left
// side, and what stands behind the right side.

ghost use Rattle.std.specs.Prelude.{◌≡◌, ◌≢◌, ◌<◌, ◌≤◌, length, IfOk, OnOk};
ghost use Rattle.pra_base.specs.Code.{end_of, kind_of};
ghost use Rattle.pra_base.specs.declared.code.End.TheVariants.{Jump};
ghost use Rattle.pra_base.specs.declared.code.VarKind.TheVariants.{Plain};
ghost use Rattle.pra_base.specs.declared.code.VInstr.TheVariants.{Set};
ghost use Rattle.ob_syntax.specs.Operators.{number};
ghost use Rattle.ob_syntax.specs.declared.checked.Value.TheVariants.{Truth};
ghost use Rattle.vc_build.specs.Grow.{count, stand_in, IsOpen};
ghost use Rattle.vc_expr.specs.Choices.{decided, test_of, OpensChoice, ClosesChoice};
ghost use Rattle.vc_expr.specs.Rules.{StaysValid};
ghost use Rattle.vc_expr.specs.Readable.{PublishesNew, PublishesTo};
ghost use Rattle.vc_expr.specs.Counts.{AddsAtMost};

use crate::branch::Targets;
use crate::start::first_of;
use ob_syntax::checked::ROp;
use pra_base::{BlockId, End, OutOfMemory, VInstr, VProc, VarId, VarKind};
use std::alloc::Global;
use vc_build::{close, declare, open_block, put};

/// The variable that is to have the value, the block that is to evaluate the right side, and the
/// block behind both ways.
#[derive(Clone, Copy, Debug, PartialEq, Eq, Drop)]
pub struct Choice {
    pub target: VarId,
    pub right: BlockId,
    pub behind: BlockId,
}

fn decides(op: ROp, target: VarId) -> VInstr
    ensures { result ≡ Set target (number (Truth (decided op))) }
{
    match op {
        ROp::Either => VInstr::Set(target, 1),
        _ => VInstr::Set(target, 0),
    }
}

/// Sets the variable to what the operator gives where its left side decides, and opens both blocks.
///
/// # Errors
///
/// Where there is no memory, or no number; the code is of no use then.
pub fn open_choice(
    alloc: Global,
    code: &mut VProc,
    at: BlockId,
    op: ROp,
) -> Result<Choice, OutOfMemory>
    requires is_open { IsOpen code.old at.0 }
    ensures is_open { OnOk result (IsOpen code.new at.0) }
    ensures vars { OnOk result (length code.old.vars ≤ length code.new.vars) }
    ensures opens { IfOk result (λ choice. OpensChoice op at.0 code.old code.new choice) }
    ensures counts { OnOk result (AddsAtMost 1 1 0 2 code.old code.new) }
    ensures valid { OnOk result (StaysValid code.old code.new) }
    ensures reads { IfOk result (λ choice.
        PublishesNew at.0 code.old code.new choice.target.0) }
{
    let depth = code.blocks[at.0 as usize].depth;
    let target = declare(code, VarKind::Plain)?;
    put(alloc, code, at, decides(op, target))?;
    let right = open_block(alloc, code, depth)?;
    let behind = open_block(alloc, code, depth)?;
    Ok(Choice {
        target,
        right,
        behind,
    })
}

/// Where the test of the left side leads: to the right side unless it decides.
pub fn test_of(op: ROp, choice: Choice) -> Targets
    ensures { result ≡ test_of op choice }
{
    match op {
        ROp::Either => Targets {
            holds: choice.behind,
            fails: choice.right,
        },
        _ => Targets {
            holds: choice.right,
            fails: choice.behind,
        },
    }
}

/// Gives the variable the right side's value, and closes the block behind it.
///
/// # Errors
///
/// Where there is no memory; the code is of no use then.
pub fn close_choice(
    alloc: Global,
    code: &mut VProc,
    at: BlockId,
    v: VarId,
    choice: Choice,
) -> Result<(), OutOfMemory>
    requires is_open { IsOpen code.old at.0 }
    requires named { v.0 < length code.old.vars }
    requires target { choice.target.0 < length code.old.vars }
    requires plain { kind_of code.old choice.target.0 ≡ Plain }
    requires behind { choice.behind.0 < count code.old }
    requires no_entry { 0 < choice.behind.0 }
    ensures vars { OnOk result (code.new.vars ≡ code.old.vars) }
    ensures closes { OnOk result (ClosesChoice at.0 code.old code.new v.0 choice) }
    ensures closed { OnOk result (end_of code.new at.0 ≢ stand_in) }
    ensures end { OnOk result (end_of code.new at.0 ≡ Jump choice.behind) }
    ensures counts { OnOk result (AddsAtMost 1 0 0 0 code.old code.new) }
    ensures valid { OnOk result (choice.target.0 ≢ v.0 → StaysValid code.old code.new) }
    ensures reads { OnOk result
        (PublishesTo at.0 code.old code.new v.0 choice.target.0 choice.behind.0) }
{
    let kind = code.vars[v.0 as usize];
    put(alloc, code, at, first_of(kind, choice.target, v))?;
    close(alloc, code, at, End::Jump(choice.behind));
    Ok(())
}
