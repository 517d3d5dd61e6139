// Write and WriteLn.

ghost use Rattle.std.specs.Prelude.{◌≡◌, ◌<◌, ◌≤◌, ◌+◌, true, length, OnOk};
ghost use Rattle.ob_syntax.specs.Expressions.{integer};
ghost use Rattle.ob_syntax.specs.declared.checked.RStmt.{RStmt-F};
ghost use Rattle.ob_mean.specs.Statements.{stmt_step};
ghost use Rattle.vc_build.specs.Grow.{HandsOn, IsOpen};
ghost use Rattle.vc_select.specs.Targets.{above_setting};
ghost use Rattle.vc_typed.specs.Typing.{typing, is_of};
ghost use Rattle.vc_typed.specs.Nodes.{nodes_in};
ghost use Rattle.vc_stmt.specs.Amounts.{AddsForStatements};
ghost use Rattle.vc_stmt.specs.Does.{Does};
ghost use Rattle.vc_select.specs.Blocks.{StaysInText, needs};
ghost use Rattle.vc_stmt.specs.Ready.{KeepsReady};

use ob_syntax::RExpr;
use pra_base::{OutOfMemory, VInstr};
use vc_build::put;
use vc_select::{Ctx, Setting, select_expr};

/// Adds the code of `Write`.
///
/// # Errors
///
/// Where there is no memory, or no number; the code is of no use then.
pub fn select_write(setting: &Setting<'_>, ctx: &mut Ctx, e: &RExpr) -> Result<(), OutOfMemory>
    requires is_open { IsOpen ctx.old.code ctx.old.at.0 }
    requires homes { above_setting setting.now ≤ length ctx.old.code.vars }
    ensures is_open { OnOk result (IsOpen ctx.new.code ctx.new.at.0) }
    ensures vars { OnOk result (length ctx.old.code.vars ≤ length ctx.new.code.vars) }
    ensures does { OnOk result
        (Does setting.now ctx.old.code ctx.new.code ctx.old.at.0 ctx.new.at.0
        (is_of integer (typing setting.now.program.now setting.now.id.0 e.now))
        (stmt_step setting.now.program.now (RStmt-F.Write e.now))) }
    ensures counts { OnOk result (AddsForStatements (1 + nodes_in e.now)
        ctx.old.code ctx.new.code) }
    ensures ready { OnOk result
        (KeepsReady setting.now ctx.old.code ctx.new.code ctx.old.at.0 ctx.new.at.0
        (is_of integer (typing setting.now.program.now setting.now.id.0 e.now))) }
    ensures text { OnOk result (StaysInText (needs e.now).value ctx.old.at.0 ctx.new.at.0
        ctx.old.code ctx.new.code ctx.old.order ctx.new.order) }
    ensures hands_on { OnOk result (HandsOn ctx.old.at.0 ctx.new.at.0
        ctx.old.code ctx.new.code) }
{
    let v = select_expr(setting, ctx, e)?;
    put(setting.alloc, &mut ctx.code, ctx.at, VInstr::Write(v))?;
    Ok(())
}

/// Adds the code of `WriteLn`.
///
/// # Errors
///
/// Where there is no memory; the code is of no use then.
pub fn select_line(setting: &Setting<'_>, ctx: &mut Ctx) -> Result<(), OutOfMemory>
    requires is_open { IsOpen ctx.old.code ctx.old.at.0 }
    ensures is_open { OnOk result (IsOpen ctx.new.code ctx.new.at.0) }
    ensures vars { OnOk result (length ctx.old.code.vars ≤ length ctx.new.code.vars) }
    ensures does { OnOk result
        (Does setting.now ctx.old.code ctx.new.code ctx.old.at.0 ctx.new.at.0 true
        (stmt_step setting.now.program.now RStmt-F.WriteLine)) }
    ensures counts { OnOk result (AddsForStatements 1 ctx.old.code ctx.new.code) }
    ensures ready { OnOk result
        (KeepsReady setting.now ctx.old.code ctx.new.code ctx.old.at.0 ctx.new.at.0 true) }
    ensures text { OnOk result (StaysInText 0 ctx.old.at.0 ctx.new.at.0
        ctx.old.code ctx.new.code ctx.old.order ctx.new.order) }
    ensures hands_on { OnOk result (HandsOn ctx.old.at.0 ctx.new.at.0
        ctx.old.code ctx.new.code) }
{
    put(setting.alloc, &mut ctx.code, ctx.at, VInstr::Line)?;
    Ok(())
}
