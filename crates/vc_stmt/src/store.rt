// A value is given to a variable of the source: assignment, and Read.

ghost use Rattle.std.specs.Prelude.{◌≡◌, ◌<◌, ◌≤◌, ◌+◌, length, IfOk, OnOk};
ghost use Rattle.ob_syntax.specs.Expressions.{integer};
ghost use Rattle.pra_base.specs.Code.{kind_of};
ghost use Rattle.pra_base.specs.declared.code.VarKind.TheVariants.{Plain};
ghost use Rattle.pra_base.specs.declared.code.VInstr.TheVariants.{Store, Read};
ghost use Rattle.ob_syntax.specs.declared.checked.RStmt.{RStmt-F};
ghost use Rattle.ob_mean.specs.Statements.{stmt_step};
ghost use Rattle.vc_build.specs.Grow.{HandsOn, IsOpen, with_instr, with_variable};
ghost use Rattle.vc_expr.specs.Counts.{AddsAtMost};
ghost use Rattle.vc_expr.specs.Readable.{is_constant};
ghost use Rattle.vc_select.specs.Targets.{above_setting, above_target};
ghost use Rattle.vc_typed.specs.TypedStatements.{is_assignable};
ghost use Rattle.vc_typed.specs.Typing.{typing, variable_typing, is_of};
ghost use Rattle.vc_typed.specs.Nodes.{nodes_in, nodes_in_var};
ghost use Rattle.vc_stmt.specs.Amounts.{AddsForStatements};
ghost use Rattle.vc_stmt.specs.Does.{Does};
ghost use Rattle.vc_select.specs.Blocks.{StaysInText, needs, needs_of_var};
ghost use Rattle.vc_stmt.specs.Ready.{GivesReady, KeepsReady, StoresReady};
ghost use Rattle.vc_select.specs.declared.target.Target.TheVariants.{Var};
ghost use Rattle.vc_stmt.specs.Stores.{Stores, Reads};

use ob_syntax::{RExpr, RVar};
use pra_base::{Addr, BlockId, OutOfMemory, VInstr, VProc, VarId, VarKind};
use std::alloc::Global;
use vc_build::{declare, put};
use vc_expr::start::first_of;
use vc_select::{Ctx, Setting, Target, select_expr, select_var};

/// Whether a variable of the code is a constant, which is never written.
fn is_constant(code: &VProc, v: VarId) -> bool
    ensures { result ≡ is_constant (kind_of code.now v.0) }
{
    let v = v.0 as usize;
    if v >= code.vars.len() {
        return false;
    }
    matches!(code.vars[v], VarKind::Constant(_))
}

/// Gives the value in a variable of the code to another one. No variable of the source is a
/// constant, and where the target is one nothing is put.
///
/// # Errors
///
/// Where there is no memory; the code is of no use then.
fn copy(
    setting: &Setting<'_>,
    code: &mut VProc,
    at: BlockId,
    target: VarId,
    v: VarId,
) -> Result<(), OutOfMemory>
    requires is_open { IsOpen code.old at.0 }
    requires named { v.0 < length code.old.vars }
    ensures is_open { OnOk result (IsOpen code.new at.0) }
    ensures vars { OnOk result (length code.old.vars ≤ length code.new.vars) }
    ensures stores { OnOk result
        (Stores setting.now at.0 code.old code.new (Var target) v.0) }
    ensures counts { OnOk result (AddsAtMost 1 0 0 0 code.old code.new) }
    ensures ready { OnOk result
        (StoresReady setting.now at.0 code.old code.new (Var target) v.0) }
{
    if target.0 == v.0 {
        return Ok(());
    }
    if is_constant(code, target) {
        return Ok(());
    }
    let kind = code.vars[v.0 as usize];
    put(setting.alloc, code, at, first_of(kind, target, v))?;
    Ok(())
}

/// Gives the value in a variable of the code to a target.
///
/// # Errors
///
/// Where there is no memory; the code is of no use then.
pub fn store(
    setting: &Setting<'_>,
    code: &mut VProc,
    at: BlockId,
    target: Target,
    v: VarId,
) -> Result<(), OutOfMemory>
    requires is_open { IsOpen code.old at.0 }
    requires named { v.0 < length code.old.vars }
    ensures is_open { OnOk result (IsOpen code.new at.0) }
    ensures vars { OnOk result (length code.old.vars ≤ length code.new.vars) }
    ensures stores { OnOk result (Stores setting.now at.0 code.old code.new target v.0) }
    ensures counts { OnOk result (AddsAtMost 1 0 0 0 code.old code.new) }
    ensures ready { OnOk result (StoresReady setting.now at.0 code.old code.new target v.0) }
{
    match target {
        Target::Var(u) => {
            copy(setting, code, at, u, v)?;
            Ok(())
        }
        Target::Memory(address) => {
            put(setting.alloc, code, at, VInstr::Store(address, v))?;
            Ok(())
        }
    }
}

/// Adds the code of an assignment: the target's indexes come before the value.
///
/// # Errors
///
/// Where there is no memory, or no number; the code is of no use then.
pub fn select_assignment(
    setting: &Setting<'_>,
    ctx: &mut Ctx,
    v: &RVar,
    e: &RExpr,
) -> Result<(), OutOfMemory>
    requires is_open { IsOpen ctx.old.code ctx.old.at.0 }
    requires homes { above_setting setting.now ≤ length ctx.old.code.vars }
    ensures is_open { OnOk result (IsOpen ctx.new.code ctx.new.at.0) }
    ensures vars { OnOk result (length ctx.old.code.vars ≤ length ctx.new.code.vars) }
    ensures does { OnOk result
        (Does setting.now ctx.old.code ctx.new.code ctx.old.at.0 ctx.new.at.0
        (is_assignable (variable_typing setting.now.program.now setting.now.id.0 v.now)
        (typing setting.now.program.now setting.now.id.0 e.now))
        (stmt_step setting.now.program.now (RStmt-F.Assign v.now e.now))) }
    ensures counts { OnOk result (AddsForStatements (nodes_in_var v.now + 1 + nodes_in e.now)
        ctx.old.code ctx.new.code) }
    ensures ready { OnOk result
        (KeepsReady setting.now ctx.old.code ctx.new.code ctx.old.at.0 ctx.new.at.0
        (is_assignable (variable_typing setting.now.program.now setting.now.id.0 v.now)
        (typing setting.now.program.now setting.now.id.0 e.now))) }
    ensures text { OnOk result (StaysInText
        ((needs_of_var v.now).blocks + (needs e.now).value) ctx.old.at.0 ctx.new.at.0
        ctx.old.code ctx.new.code ctx.old.order ctx.new.order) }
    ensures hands_on { OnOk result (HandsOn ctx.old.at.0 ctx.new.at.0
        ctx.old.code ctx.new.code) }
{
    let target = select_var(setting, ctx, v)?;
    let value = select_expr(setting, ctx, e)?;
    store(setting, &mut ctx.code, ctx.at, target, value)?;
    Ok(())
}

/// Takes a word of the input for an address, by a new variable.
fn read_word(
    alloc: Global,
    code: &mut VProc,
    at: BlockId,
    address: Addr,
) -> Result<VarId, OutOfMemory>
    requires { IsOpen code.old at.0 }
    ensures made { IfOk result (λ t. code.new ≡ with_instr at.0 (Store address t)
        (with_instr at.0 (Read t) (with_variable Plain code.old))) }
    ensures number { IfOk result (λ t. t.0 ≡ length code.old.vars) }
{
    let t = declare(code, VarKind::Plain)?;
    put(alloc, code, at, VInstr::Read(t))?;
    put(alloc, code, at, VInstr::Store(address, t))?;
    Ok(t)
}

/// Takes a word of the input for a target. No variable of the source is a constant, and where the
/// target is one nothing is put.
///
/// # Errors
///
/// Where there is no memory, or no number; the code is of no use then.
pub fn read(
    setting: &Setting<'_>,
    code: &mut VProc,
    at: BlockId,
    target: Target,
) -> Result<(), OutOfMemory>
    requires is_open { IsOpen code.old at.0 }
    requires named { above_target target ≤ length code.old.vars }
    ensures is_open { OnOk result (IsOpen code.new at.0) }
    ensures vars { OnOk result (length code.old.vars ≤ length code.new.vars) }
    ensures reads { OnOk result (Reads setting.now at.0 code.old code.new target) }
    ensures counts { OnOk result (AddsAtMost 2 1 0 0 code.old code.new) }
    ensures ready { OnOk result (GivesReady setting.now at.0 code.old code.new target) }
{
    match target {
        Target::Var(u) => {
            if is_constant(code, u) {
                return Ok(());
            }
            put(setting.alloc, code, at, VInstr::Read(u))?;
            Ok(())
        }
        Target::Memory(address) => {
            read_word(setting.alloc, code, at, address)?;
            Ok(())
        }
    }
}

/// Adds the code of `Read`: the variable's indexes come before the word is taken.
///
/// # Errors
///
/// Where there is no memory, or no number; the code is of no use then.
pub fn select_read(setting: &Setting<'_>, ctx: &mut Ctx, v: &RVar) -> Result<(), OutOfMemory>
    requires is_open { IsOpen ctx.old.code ctx.old.at.0 }
    requires homes { above_setting setting.now ≤ length ctx.old.code.vars }
    ensures is_open { OnOk result (IsOpen ctx.new.code ctx.new.at.0) }
    ensures vars { OnOk result (length ctx.old.code.vars ≤ length ctx.new.code.vars) }
    ensures does { OnOk result
        (Does setting.now ctx.old.code ctx.new.code ctx.old.at.0 ctx.new.at.0
        (is_of integer (variable_typing setting.now.program.now setting.now.id.0 v.now))
        (stmt_step setting.now.program.now (RStmt-F.Read v.now))) }
    ensures counts { OnOk result (AddsForStatements (1 + nodes_in_var v.now)
        ctx.old.code ctx.new.code) }
    ensures ready { OnOk result
        (KeepsReady setting.now ctx.old.code ctx.new.code ctx.old.at.0 ctx.new.at.0
        (is_of integer (variable_typing setting.now.program.now setting.now.id.0 v.now))) }
    ensures text { OnOk result (StaysInText (needs_of_var v.now).blocks ctx.old.at.0 ctx.new.at.0
        ctx.old.code ctx.new.code ctx.old.order ctx.new.order) }
    ensures hands_on { OnOk result (HandsOn ctx.old.at.0 ctx.new.at.0
        ctx.old.code ctx.new.code) }
{
    let target = select_var(setting, ctx, v)?;
    read(setting, &mut ctx.code, ctx.at, target)?;
    Ok(())
}
