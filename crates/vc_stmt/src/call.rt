// Calls: all arguments are evaluated, from left to right, and then pushed.

ghost use Rattle.std.specs.Prelude.{◌≡◌, ◌≢◌, ◌<◌, ◌≤◌, ◌+◌, ◌&&◌, true, pos, length, IfOk, OnOk};
ghost use Rattle.std.specs.Prelude.{IfSome, None, slice_get};
ghost use Rattle.pra_base.specs.declared.code.Base.TheVariants.{Via};
ghost use Rattle.pra_base.specs.declared.code.VarKind.TheVariants.{Plain};
ghost use Rattle.pra_base.specs.declared.code.VInstr.TheVariants as instr;
ghost use Rattle.ob_syntax.specs.WellFormed.{lent_by};
ghost use Rattle.ob_syntax.specs.declared.checked.RStmt.{RStmt-F};
ghost use Rattle.ob_mean.specs.Statements.{stmt_step};
ghost use Rattle.vc_build.specs.Grow.{HandsOn, IsOpen, with_instr, with_variable};
ghost use Rattle.vc_expr.specs.Counts.{AddsAtMost};
ghost use Rattle.vc_select.specs.Amounts.{AddsForValue};
ghost use Rattle.vc_select.specs.Blocks.{StaysInText};
ghost use Rattle.vc_select.specs.Certified.{IsAnswer, ReadsWord, StaysReady};
ghost use Rattle.vc_select.specs.Targets.{above_setting, above_target, at_base};
ghost use Rattle.vc_typed.specs.Nodes.{arg_nodes};
ghost use Rattle.vc_typed.specs.TypedStatements.{is_call};
ghost use Rattle.vc_stmt.specs.Amounts.{AddsForArguments, AddsForStatements, argument_nodes};
ghost use Rattle.vc_stmt.specs.Depths.{blocks_of_argument, blocks_of_arguments};
ghost use Rattle.vc_stmt.specs.Does.{Does};
ghost use Rattle.vc_stmt.specs.Passes.{Lends, Passes, PassesAll, with_call};
ghost use Rattle.vc_stmt.specs.Ready.{KeepsReady, PassesReady};
ghost use Rattle.vc_stmt.specs.Sound.{addressed};

use ob_syntax::{RArg, RVar};
use pra_base::{Addr, Base, BlockId, OutOfMemory, ProcId, VInstr, VProc, VarId, VarKind};
use std::alloc::Global;
use vc_build::{declare, put};
use vc_select::{Ctx, Setting, Target, select_expr, select_var};

/// Puts an address into a new variable.
fn put_address(
    alloc: Global,
    code: &mut VProc,
    at: BlockId,
    address: Addr,
) -> Result<VarId, OutOfMemory>
    requires { IsOpen code.old at.0 }
    ensures made { IfOk result (λ t.
        code.new ≡ with_instr at.0 (instr.Addr t address) (with_variable Plain code.old)) }
    ensures number { IfOk result (λ t. t.0 ≡ length code.old.vars) }
{
    let t = declare(code, VarKind::Plain)?;
    put(alloc, code, at, VInstr::Addr(t, address))?;
    Ok(t)
}

/// The variable that has the address of a whole variable already: that of a VAR parameter.
fn address_variable(address: Addr, is_whole: bool) -> Option<VarId>
    ensures is { IfSome result (λ u.
        address ≡ record { base = Via u; offset = pos 0; index = None }) }
    ensures none { result ≡ None → is_whole ≡ true → (u : VarId) →
        address ≢ record { base = Via u; offset = pos 0; index = None } }
{
    if !is_whole {
        return None;
    }
    if address.offset != 0 {
        return None;
    }
    if address.index.is_some() {
        return None;
    }
    match address.base {
        Base::Via(u) => Some(u),
        _ => None,
    }
}

/// A variable with the address of a target. Only a VAR parameter without selectors is its own.
///
/// # Errors
///
/// Where there is no memory, or no number; the code is of no use then.
fn lend(
    setting: &Setting<'_>,
    code: &mut VProc,
    at: BlockId,
    target: Target,
    is_whole: bool,
) -> Result<VarId, OutOfMemory>
    requires is_open { IsOpen code.old at.0 }
    requires named { above_target target ≤ length code.old.vars }
    ensures is_open { OnOk result (IsOpen code.new at.0) }
    ensures vars { OnOk result (length code.old.vars ≤ length code.new.vars) }
    ensures named { IfOk result (λ t. t.0 < length code.new.vars) }
    ensures lends { IfOk result (λ t. Lends setting.now at.0 code.old code.new target t.0) }
    ensures counts { OnOk result (AddsAtMost 1 1 0 0 code.old code.new) }
    ensures reads { IfOk result (λ t. ReadsWord at.0 code.old code.new target t.0) }
    ensures own { IfOk result (λ t. is_whole ≡ true → (u : VarId) → target ≡ at_base (Via u) →
        (t ≡ u) × (code.new ≡ code.old)) }
{
    match target {
        Target::Var(u) => Ok(u),
        Target::Memory(address) => {
            if let Some(u) = address_variable(address, is_whole) {
                return Ok(u);
            }
            let t = put_address(setting.alloc, code, at, address)?;
            Ok(t)
        }
    }
}

/// A variable with what is pushed for an argument.
///
/// # Errors
///
/// Where there is no memory, or no number; the code is of no use then.
pub fn select_argument(
    setting: &Setting<'_>,
    ctx: &mut Ctx,
    arg: &RArg,
) -> Result<VarId, OutOfMemory>
    requires is_open { IsOpen ctx.old.code ctx.old.at.0 }
    requires homes { above_setting setting.now ≤ length ctx.old.code.vars }
    ensures is_open { OnOk result (IsOpen ctx.new.code ctx.new.at.0) }
    ensures vars { OnOk result (length ctx.old.code.vars ≤ length ctx.new.code.vars) }
    ensures named { IfOk result (λ v. v.0 < length ctx.new.code.vars) }
    ensures passes { IfOk result (λ v.
        Passes setting.now ctx.old.code ctx.new.code ctx.old.at.0 ctx.new.at.0 v.0 arg.now) }
    ensures counts { OnOk result (AddsForValue (arg_nodes arg.now) ctx.old.code ctx.new.code) }
    ensures ready { IfOk result (λ v. StaysReady setting.now (length ctx.old.code.vars)
        ctx.old.code ctx.new.code ctx.old.at.0 ctx.new.at.0 (IsAnswer v.0)) }
    ensures text { OnOk result (StaysInText (blocks_of_argument arg.now) ctx.old.at.0 ctx.new.at.0
        ctx.old.code ctx.new.code ctx.old.order ctx.new.order) }
    ensures hands_on { OnOk result (HandsOn ctx.old.at.0 ctx.new.at.0
        ctx.old.code ctx.new.code) }
{
    match arg {
        RArg::Value(e) => {
            let v = select_expr(setting, ctx, e)?;
            Ok(v)
        }
        RArg::Lent(variable) => {
            let target = select_var(setting, ctx, variable)?;
            let is_whole = variable.steps.is_empty();
            let v = lend(setting, &mut ctx.code, ctx.at, target, is_whole)?;
            Ok(v)
        }
    }
}

/// Variables with what is pushed for arguments, in order.
///
/// # Errors
///
/// Where there is no memory, or no number; the code is of no use then.
pub fn select_arguments(
    setting: &Setting<'_>,
    ctx: &mut Ctx,
    args: &[RArg],
) -> Result<Vec<VarId>, OutOfMemory>
    requires is_open { IsOpen ctx.old.code ctx.old.at.0 }
    requires homes { above_setting setting.now ≤ length ctx.old.code.vars }
    ensures is_open { OnOk result (IsOpen ctx.new.code ctx.new.at.0) }
    ensures vars { OnOk result (length ctx.old.code.vars ≤ length ctx.new.code.vars) }
    ensures passes { IfOk result (λ vs.
        PassesAll setting.now ctx.old.code ctx.new.code ctx.old.at.0 ctx.new.at.0 vs.items
        args.now) }
    ensures many { IfOk result (λ vs. length vs.items ≡ length args.now) }
    ensures counts { OnOk result (AddsForArguments args.now ctx.old.code ctx.new.code) }
    ensures ready { IfOk result (λ vs.
        PassesReady setting.now ctx.old.code ctx.new.code ctx.old.at.0 ctx.new.at.0 vs.items) }
    ensures text { OnOk result (StaysInText (blocks_of_arguments args.now) ctx.old.at.0 ctx.new.at.0
        ctx.old.code ctx.new.code ctx.old.order ctx.new.order) }
    ensures hands_on { OnOk result (HandsOn ctx.old.at.0 ctx.new.at.0
        ctx.old.code ctx.new.code) }
{
    let mut values = Vec::new(setting.alloc);
    for arg in args {
        let v = select_argument(setting, ctx, arg)?;
        values.push(v)?;
    }
    Ok(values)
}

/// Pushes variables in order, and calls.
///
/// # Errors
///
/// Where there is no memory; the code is of no use then.
fn put_call(
    alloc: Global,
    code: &mut VProc,
    at: BlockId,
    callee: ProcId,
    values: &[VarId],
) -> Result<(), OutOfMemory>
    requires { IsOpen code.old at.0 }
    ensures made { OnOk result (code.new ≡ with_call at.0 callee values.now code.old) }
{
    for v in values {
        put(alloc, code, at, VInstr::Push(*v))?;
    }
    put(alloc, code, at, VInstr::Call(callee))?;
    Ok(())
}

/// Adds the code of a call.
///
/// # Errors
///
/// Where there is no memory, or no number; the code is of no use then.
pub fn select_call(
    setting: &Setting<'_>,
    ctx: &mut Ctx,
    callee: ProcId,
    args: &[RArg],
) -> Result<(), OutOfMemory>
    requires is_open { IsOpen ctx.old.code ctx.old.at.0 }
    requires homes { above_setting setting.now ≤ length ctx.old.code.vars }
    ensures is_open { OnOk result (IsOpen ctx.new.code ctx.new.at.0) }
    ensures vars { OnOk result (length ctx.old.code.vars ≤ length ctx.new.code.vars) }
    ensures does { OnOk result
        (Does setting.now ctx.old.code ctx.new.code ctx.old.at.0 ctx.new.at.0
        (is_call setting.now.program.now setting.now.id.0
        (slice_get setting.now.program.now.procs callee.0) args.now
        && addressed setting.now.program.now setting.now.id.0 (lent_by args.now))
        (stmt_step setting.now.program.now (RStmt-F.Call callee args.now))) }
    ensures counts { OnOk result (AddsForStatements (1 + argument_nodes args.now)
        ctx.old.code ctx.new.code) }
    ensures ready { OnOk result
        (KeepsReady setting.now ctx.old.code ctx.new.code ctx.old.at.0 ctx.new.at.0
        (is_call setting.now.program.now setting.now.id.0
        (slice_get setting.now.program.now.procs callee.0) args.now
        && addressed setting.now.program.now setting.now.id.0 (lent_by args.now))) }
    ensures text { OnOk result (StaysInText (blocks_of_arguments args.now) ctx.old.at.0 ctx.new.at.0
        ctx.old.code ctx.new.code ctx.old.order ctx.new.order) }
    ensures hands_on { OnOk result (HandsOn ctx.old.at.0 ctx.new.at.0
        ctx.old.code ctx.new.code) }
{
    let values = select_arguments(setting, ctx, args)?;
    put_call(
        setting.alloc,
        &mut ctx.code,
        ctx.at,
        callee,
        values.as_slice(),
    )?;
    Ok(())
}
