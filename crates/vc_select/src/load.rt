// The value of a scalar variable of the source.

ghost use Rattle.std.specs.Prelude.{◌≡◌, ◌<◌, ◌≤◌, length, IfOk, OnOk};
ghost use Rattle.pra_base.specs.declared.code.VarKind.TheVariants.{Plain};
ghost use Rattle.pra_base.specs.declared.code.VInstr.TheVariants.{Load};
ghost use Rattle.vc_build.specs.Grow.{IsOpen, with_instr, with_variable};
ghost use Rattle.vc_expr.specs.Counts.{AddsAtMost};
ghost use Rattle.vc_select.specs.Certified.{ReadsWord};
ghost use Rattle.vc_select.specs.Selects.{Loads};
ghost use Rattle.vc_select.specs.Targets.{above_target};

use crate::target::{Setting, Target};
use pra_base::{Addr, BlockId, OutOfMemory, VInstr, VProc, VarId, VarKind};
use std::alloc::Global;
use vc_build::{declare, put};

fn load_word(
    alloc: Global,
    code: &mut VProc,
    at: BlockId,
    address: Addr,
) -> Result<VarId, OutOfMemory>
    requires is_open { IsOpen code.old at.0 }
    ensures made { IfOk result (λ v.
        code.new ≡ with_instr at.0 (Load v address) (with_variable Plain code.old)) }
    ensures number { IfOk result (λ v. v.0 ≡ length code.old.vars) }
{
    let v = declare(code, VarKind::Plain)?;
    put(alloc, code, at, VInstr::Load(v, address))?;
    Ok(v)
}

/// A variable with the value of a scalar variable of the source: the one that is its target, or a
/// new one that is loaded.
///
/// # Errors
///
/// Where there is no memory, or no number; the code is of no use then.
pub fn load(
    setting: &Setting<'_>,
    code: &mut VProc,
    at: BlockId,
    target: Target,
) -> Result<VarId, OutOfMemory>
    requires is_open { IsOpen code.old at.0 }
    requires named { above_target target ≤ length code.old.vars }
    ensures is_open { OnOk result (IsOpen code.new at.0) }
    ensures vars { OnOk result (length code.old.vars ≤ length code.new.vars) }
    ensures named { IfOk result (λ v. v.0 < length code.new.vars) }
    ensures loads { IfOk result (λ v. Loads setting.now at.0 code.old code.new target v.0) }
    ensures counts { OnOk result (AddsAtMost 1 1 0 0 code.old code.new) }
    ensures reads { IfOk result (λ v. ReadsWord at.0 code.old code.new target v.0) }
{
    match target {
        Target::Var(v) => Ok(v),
        Target::Memory(address) => {
            let v = load_word(setting.alloc, code, at, address)?;
            Ok(v)
        }
    }
}
