// The walk over statements.

ghost use Rattle.std.specs.Prelude.{◌≡◌, ◌≢◌, ◌<◌, ◌≤◌, ◌+◌, ◌&&◌, [], ◌∷◌, map, length, OnOk};
ghost use Rattle.ob_mean.specs.Expressions.{value};
ghost use Rattle.ob_mean.specs.Statements.{exec, exec_all, arm_of, chosen};
ghost use Rattle.ob_syntax.specs.Expressions.{boolean};
ghost use Rattle.vc_build.specs.Grow.{ClosesOne, HandsOn, IsOpen};
ghost use Rattle.vc_build.specs.Text.{depth_at, Enters, GoesOn};
ghost use Rattle.vc_select.specs.Blocks.{needs};
ghost use Rattle.vc_select.specs.Targets.{above_setting};
ghost use Rattle.vc_typed.specs.Typing.{typing, is_of};
ghost use Rattle.vc_typed.specs.Nodes.{nodes_in, nodes_in_stmt, nodes_in_arm, nodes_in_all};
ghost use Rattle.vc_stmt.specs.Amounts.{AddsForStatements, AddsForArm, AddsForArms};
ghost use Rattle.vc_stmt.specs.Amounts.{nodes_in_arms};
ghost use Rattle.vc_stmt.specs.Arms.{Guards, Chooses, Joins, take_init};
ghost use Rattle.vc_stmt.specs.Blocks.{Waits};
ghost use Rattle.vc_stmt.specs.Depths.{depths_of, depths_of_all, depths_of_arm, depths_of_arms};
ghost use Rattle.vc_stmt.specs.Depths.{end_depths, loop_depths};
ghost use Rattle.vc_stmt.specs.Does.{Does};
ghost use Rattle.vc_stmt.specs.Loops.{while_of, repeat_of};
ghost use Rattle.vc_stmt.specs.Ready.{KeepsReady, KeepsReadyBeside, ClosesReadyBeside};
ghost use Rattle.vc_stmt.specs.Sound.{is_sound, are_sound, is_sound_arm, are_sound_arms};

use crate::blocks::{confirm_waits, jump, open_arm, open_loop, turn};
use crate::call::select_call;
use crate::store::{select_assignment, select_read};
use crate::write::{select_line, select_write};
use ob_syntax::{RArm, RExpr, RStmt};
use pra_base::{BlockId, OutOfMemory};
use vc_expr::Targets;
use vc_select::split::{confirm, confirm_targets, open_beside};
use vc_select::{Ctx, Setting, select_test};

/// Adds the code of a statement.
///
/// # Errors
///
/// Where there is no memory, or no number; the code is of no use then.
#[cycle(statements)]
pub fn select_statement(setting: &Setting<'_>, ctx: &mut Ctx, t: &RStmt) -> Result<(), OutOfMemory>
    requires is_open { IsOpen ctx.old.code ctx.old.at.0 }
    requires homes { above_setting setting.now ≤ length ctx.old.code.vars }
    ensures is_open { OnOk result (IsOpen ctx.new.code ctx.new.at.0) }
    ensures vars { OnOk result (length ctx.old.code.vars ≤ length ctx.new.code.vars) }
    ensures does { OnOk result
        (Does setting.now ctx.old.code ctx.new.code ctx.old.at.0 ctx.new.at.0
        (is_sound setting.now.program.now setting.now.id.0 t.now)
        (exec setting.now.program.now t.now)) }
    ensures counts { OnOk result (AddsForStatements (nodes_in_stmt t.now)
        ctx.old.code ctx.new.code) }
    ensures ready { OnOk result
        (KeepsReady setting.now ctx.old.code ctx.new.code ctx.old.at.0 ctx.new.at.0
        (is_sound setting.now.program.now setting.now.id.0 t.now)) }
    ensures text { OnOk result (GoesOn ctx.old.at.0 ctx.new.at.0
        ctx.old.code ctx.new.code ctx.old.order ctx.new.order
        (depths_of t.now (depth_at ctx.old.code ctx.old.at.0))) }
    ensures hands_on { OnOk result (HandsOn ctx.old.at.0 ctx.new.at.0
        ctx.old.code ctx.new.code) }
{
    match t {
        RStmt::Assign(v, e) => {
            select_assignment(setting, ctx, v, e)?;
            Ok(())
        }
        RStmt::If(arms, other) => {
            if other.is_empty() {
                select_if(setting, ctx, arms.as_slice())?;
                return Ok(());
            }
            if arms.is_empty() {
                select_statements(setting, ctx, other.as_slice())?;
                return Ok(());
            }
            let behind = open_beside(setting.alloc, &mut ctx.code, ctx.at)?;
            confirm_waits(&ctx.code, ctx.at, behind);
            select_arms(setting, ctx, arms.as_slice(), behind)?;
            select_statements(setting, ctx, other.as_slice())?;
            jump(setting.alloc, &mut ctx.code, ctx.at, behind);
            ctx.order.push(behind)?;
            ctx.at = behind;
            Ok(())
        }
        RStmt::While(test, body) => {
            select_while(setting, ctx, body.as_slice(), test)?;
            Ok(())
        }
        RStmt::Repeat(body, test) => {
            select_repeat(setting, ctx, body.as_slice(), test)?;
            Ok(())
        }
        RStmt::Call(callee, args) => {
            select_call(setting, ctx, *callee, args.as_slice())?;
            Ok(())
        }
        RStmt::Read(v) => {
            select_read(setting, ctx, v)?;
            Ok(())
        }
        RStmt::Write(e) => {
            select_write(setting, ctx, e)?;
            Ok(())
        }
        RStmt::WriteLine => {
            select_line(setting, ctx)?;
            Ok(())
        }
    }
}

/// Adds the code of statements one after the other.
///
/// # Errors
///
/// Where there is no memory, or no number; the code is of no use then.
#[cycle(statements)]
pub fn select_statements(
    setting: &Setting<'_>,
    ctx: &mut Ctx,
    body: &[RStmt],
) -> Result<(), OutOfMemory>
    requires is_open { IsOpen ctx.old.code ctx.old.at.0 }
    requires homes { above_setting setting.now ≤ length ctx.old.code.vars }
    ensures is_open { OnOk result (IsOpen ctx.new.code ctx.new.at.0) }
    ensures vars { OnOk result (length ctx.old.code.vars ≤ length ctx.new.code.vars) }
    ensures does { OnOk result
        (Does setting.now ctx.old.code ctx.new.code ctx.old.at.0 ctx.new.at.0
        (are_sound setting.now.program.now setting.now.id.0 body.now)
        (exec_all setting.now.program.now body.now)) }
    ensures counts { OnOk result (AddsForStatements (nodes_in_all body.now)
        ctx.old.code ctx.new.code) }
    ensures ready { OnOk result
        (KeepsReady setting.now ctx.old.code ctx.new.code ctx.old.at.0 ctx.new.at.0
        (are_sound setting.now.program.now setting.now.id.0 body.now)) }
    ensures text { OnOk result (GoesOn ctx.old.at.0 ctx.new.at.0
        ctx.old.code ctx.new.code ctx.old.order ctx.new.order
        (depths_of_all body.now (depth_at ctx.old.code ctx.old.at.0))) }
    ensures hands_on { OnOk result (HandsOn ctx.old.at.0 ctx.new.at.0
        ctx.old.code ctx.new.code) }
{
    for t in body {
        select_statement(setting, ctx, t)?;
    }
    Ok(())
}

/// A loop that tests before its statements. The blocks of its test are listed behind those of its
/// statements, so that a turn needs no jump.
#[cycle(statements)]
fn select_while(
    setting: &Setting<'_>,
    ctx: &mut Ctx,
    body: &[RStmt],
    test: &RExpr,
) -> Result<(), OutOfMemory>
    requires is_open { IsOpen ctx.old.code ctx.old.at.0 }
    requires homes { above_setting setting.now ≤ length ctx.old.code.vars }
    ensures is_open { OnOk result (IsOpen ctx.new.code ctx.new.at.0) }
    ensures vars { OnOk result (length ctx.old.code.vars ≤ length ctx.new.code.vars) }
    ensures does { OnOk result
        (Does setting.now ctx.old.code ctx.new.code ctx.old.at.0 ctx.new.at.0
        (is_of boolean (typing setting.now.program.now setting.now.id.0 test.now)
        && are_sound setting.now.program.now setting.now.id.0 body.now)
        (while_of (value setting.now.program.now test.now)
        (exec_all setting.now.program.now body.now))) }
    ensures counts { OnOk result (AddsForStatements (1 + nodes_in test.now + nodes_in_all body.now)
        ctx.old.code ctx.new.code) }
    ensures ready { OnOk result
        (KeepsReady setting.now ctx.old.code ctx.new.code ctx.old.at.0 ctx.new.at.0
        (is_of boolean (typing setting.now.program.now setting.now.id.0 test.now)
        && are_sound setting.now.program.now setting.now.id.0 body.now)) }
    ensures text { OnOk result (GoesOn ctx.old.at.0 ctx.new.at.0
        ctx.old.code ctx.new.code ctx.old.order ctx.new.order
        (loop_depths (needs test.now).test (depths_of_all body.now)
        (depth_at ctx.old.code ctx.old.at.0))) }
    ensures hands_on { OnOk result (HandsOn ctx.old.at.0 ctx.new.at.0
        ctx.old.code ctx.new.code) }
{
    let blocks = open_loop(setting.alloc, &mut ctx.code, ctx.at)?;
    jump(setting.alloc, &mut ctx.code, ctx.at, blocks.test);
    let begin = ctx.order.len();
    ctx.order.push(blocks.test)?;
    ctx.at = blocks.test;
    let targets = Targets {
        holds: blocks.body,
        fails: blocks.behind,
    };
    confirm(&ctx.code, blocks.test);
    confirm_targets(&ctx.code, targets);
    select_test(setting, ctx, test, targets)?;
    let middle = ctx.order.len();
    confirm(&ctx.code, blocks.body);
    ctx.order.push(blocks.body)?;
    ctx.at = blocks.body;
    select_statements(setting, ctx, body)?;
    jump(setting.alloc, &mut ctx.code, ctx.at, blocks.test);
    turn(setting.alloc, &mut ctx.order, begin, middle);
    ctx.order.push(blocks.behind)?;
    ctx.at = blocks.behind;
    Ok(())
}

/// A loop that tests behind its statements.
#[cycle(statements)]
fn select_repeat(
    setting: &Setting<'_>,
    ctx: &mut Ctx,
    body: &[RStmt],
    test: &RExpr,
) -> Result<(), OutOfMemory>
    requires is_open { IsOpen ctx.old.code ctx.old.at.0 }
    requires homes { above_setting setting.now ≤ length ctx.old.code.vars }
    ensures is_open { OnOk result (IsOpen ctx.new.code ctx.new.at.0) }
    ensures vars { OnOk result (length ctx.old.code.vars ≤ length ctx.new.code.vars) }
    ensures does { OnOk result
        (Does setting.now ctx.old.code ctx.new.code ctx.old.at.0 ctx.new.at.0
        (are_sound setting.now.program.now setting.now.id.0 body.now
        && is_of boolean (typing setting.now.program.now setting.now.id.0 test.now))
        (repeat_of (exec_all setting.now.program.now body.now)
        (value setting.now.program.now test.now))) }
    ensures counts { OnOk result (AddsForStatements (1 + nodes_in_all body.now + nodes_in test.now)
        ctx.old.code ctx.new.code) }
    ensures ready { OnOk result
        (KeepsReady setting.now ctx.old.code ctx.new.code ctx.old.at.0 ctx.new.at.0
        (are_sound setting.now.program.now setting.now.id.0 body.now
        && is_of boolean (typing setting.now.program.now setting.now.id.0 test.now))) }
    ensures text { OnOk result (GoesOn ctx.old.at.0 ctx.new.at.0
        ctx.old.code ctx.new.code ctx.old.order ctx.new.order
        (loop_depths (needs test.now).test (depths_of_all body.now)
        (depth_at ctx.old.code ctx.old.at.0))) }
    ensures hands_on { OnOk result (HandsOn ctx.old.at.0 ctx.new.at.0
        ctx.old.code ctx.new.code) }
{
    let blocks = open_loop(setting.alloc, &mut ctx.code, ctx.at)?;
    jump(setting.alloc, &mut ctx.code, ctx.at, blocks.body);
    ctx.order.push(blocks.body)?;
    ctx.at = blocks.body;
    confirm(&ctx.code, blocks.body);
    select_statements(setting, ctx, body)?;
    jump(setting.alloc, &mut ctx.code, ctx.at, blocks.test);
    ctx.order.push(blocks.test)?;
    ctx.at = blocks.test;
    let targets = Targets {
        holds: blocks.behind,
        fails: blocks.body,
    };
    confirm(&ctx.code, blocks.test);
    confirm_targets(&ctx.code, targets);
    select_test(setting, ctx, test, targets)?;
    ctx.order.push(blocks.behind)?;
    ctx.at = blocks.behind;
    Ok(())
}

/// The arms of an IF. The block where control goes that passes all of them is left open.
#[cycle(statements)]
fn select_arms(
    setting: &Setting<'_>,
    ctx: &mut Ctx,
    arms: &[RArm],
    behind: BlockId,
) -> Result<(), OutOfMemory>
    requires is_open { IsOpen ctx.old.code ctx.old.at.0 }
    requires homes { above_setting setting.now ≤ length ctx.old.code.vars }
    requires waits { Waits ctx.old.code behind.0 }
    requires apart { behind.0 ≢ ctx.old.at.0 }
    requires real { behind.0 ≢ 0 }
    ensures is_open { OnOk result (IsOpen ctx.new.code ctx.new.at.0) }
    ensures vars { OnOk result (length ctx.old.code.vars ≤ length ctx.new.code.vars) }
    ensures waits { OnOk result (Waits ctx.new.code behind.0) }
    ensures chooses { OnOk result
        (Chooses setting.now ctx.old.code ctx.new.code ctx.old.at.0 ctx.new.at.0 behind.0
        (are_sound_arms setting.now.program.now setting.now.id.0 arms.now)
        (map (arm_of setting.now.program.now) arms.now)) }
    ensures counts { OnOk result (AddsForArms arms.now ctx.old.code ctx.new.code) }
    ensures ready { OnOk result
        (KeepsReadyBeside setting.now ctx.old.code ctx.new.code ctx.old.at.0 ctx.new.at.0 behind.0
        (are_sound_arms setting.now.program.now setting.now.id.0 arms.now)) }
    ensures text { OnOk result (GoesOn ctx.old.at.0 ctx.new.at.0
        ctx.old.code ctx.new.code ctx.old.order ctx.new.order
        (depths_of_arms arms.now (depth_at ctx.old.code ctx.old.at.0))) }
    ensures hands_on { OnOk result (HandsOn ctx.old.at.0 ctx.new.at.0
        ctx.old.code ctx.new.code) }
{
    for arm in arms {
        select_arm(setting, ctx, arm, behind)?;
    }
    Ok(())
}

/// The arms of an IF but for the last one. The block where control goes that passes all of them is
/// left open.
#[cycle(statements)]
fn select_first_arms(
    setting: &Setting<'_>,
    ctx: &mut Ctx,
    arms: &[RArm],
    behind: BlockId,
) -> Result<(), OutOfMemory>
    requires is_open { IsOpen ctx.old.code ctx.old.at.0 }
    requires homes { above_setting setting.now ≤ length ctx.old.code.vars }
    requires waits { Waits ctx.old.code behind.0 }
    requires apart { behind.0 ≢ ctx.old.at.0 }
    requires real { behind.0 ≢ 0 }
    ensures is_open { OnOk result (IsOpen ctx.new.code ctx.new.at.0) }
    ensures vars { OnOk result (length ctx.old.code.vars ≤ length ctx.new.code.vars) }
    ensures waits { OnOk result (Waits ctx.new.code behind.0) }
    ensures chooses { OnOk result
        (Chooses setting.now ctx.old.code ctx.new.code ctx.old.at.0 ctx.new.at.0 behind.0
        (are_sound_arms setting.now.program.now setting.now.id.0 (take_init arms.now))
        (map (arm_of setting.now.program.now) (take_init arms.now))) }
    ensures counts { OnOk result (AddsForArms (take_init arms.now) ctx.old.code ctx.new.code) }
    ensures ready { OnOk result
        (KeepsReadyBeside setting.now ctx.old.code ctx.new.code ctx.old.at.0 ctx.new.at.0 behind.0
        (are_sound_arms setting.now.program.now setting.now.id.0 (take_init arms.now))) }
    ensures text { OnOk result (GoesOn ctx.old.at.0 ctx.new.at.0
        ctx.old.code ctx.new.code ctx.old.order ctx.new.order
        (depths_of_arms (take_init arms.now) (depth_at ctx.old.code ctx.old.at.0))) }
    ensures hands_on { OnOk result (HandsOn ctx.old.at.0 ctx.new.at.0
        ctx.old.code ctx.new.code) }
{
    let mut left = arms.len();
    for arm in arms {
        if left < 2 {
            return Ok(());
        }
        select_arm(setting, ctx, arm, behind)?;
        left -= 1;
    }
    Ok(())
}

/// An arm of an IF. The block where control goes that passes it is left open.
#[cycle(statements)]
fn select_arm(
    setting: &Setting<'_>,
    ctx: &mut Ctx,
    arm: &RArm,
    behind: BlockId,
) -> Result<(), OutOfMemory>
    requires is_open { IsOpen ctx.old.code ctx.old.at.0 }
    requires homes { above_setting setting.now ≤ length ctx.old.code.vars }
    requires waits { Waits ctx.old.code behind.0 }
    requires apart { behind.0 ≢ ctx.old.at.0 }
    requires real { behind.0 ≢ 0 }
    ensures is_open { OnOk result (IsOpen ctx.new.code ctx.new.at.0) }
    ensures vars { OnOk result (length ctx.old.code.vars ≤ length ctx.new.code.vars) }
    ensures waits { OnOk result (Waits ctx.new.code behind.0) }
    ensures apart { OnOk result (behind.0 ≢ ctx.new.at.0) }
    ensures guards { OnOk result
        (Guards setting.now ctx.old.code ctx.new.code ctx.old.at.0 ctx.new.at.0 behind.0
        (is_sound_arm setting.now.program.now setting.now.id.0 arm.now)
        (arm_of setting.now.program.now arm.now)) }
    ensures counts { OnOk result (AddsForArm (nodes_in_arm arm.now) ctx.old.code ctx.new.code) }
    ensures ready { OnOk result
        (KeepsReadyBeside setting.now ctx.old.code ctx.new.code ctx.old.at.0 ctx.new.at.0 behind.0
        (is_sound_arm setting.now.program.now setting.now.id.0 arm.now)) }
    ensures text { OnOk result (GoesOn ctx.old.at.0 ctx.new.at.0
        ctx.old.code ctx.new.code ctx.old.order ctx.new.order
        (depths_of_arm arm.now (depth_at ctx.old.code ctx.old.at.0))) }
    ensures hands_on { OnOk result (HandsOn ctx.old.at.0 ctx.new.at.0
        ctx.old.code ctx.new.code) }
{
    let targets = open_arm(setting.alloc, &mut ctx.code, ctx.at)?;
    confirm(&ctx.code, ctx.at);
    confirm_targets(&ctx.code, targets);
    select_test(setting, ctx, &arm.test, targets)?;
    confirm(&ctx.code, targets.holds);
    ctx.order.push(targets.holds)?;
    ctx.at = targets.holds;
    select_statements(setting, ctx, arm.body.as_slice())?;
    jump(setting.alloc, &mut ctx.code, ctx.at, behind);
    ctx.order.push(targets.fails)?;
    ctx.at = targets.fails;
    Ok(())
}

/// The last arm of an IF without ELSE. Where its condition is FALSE control goes to the block
/// behind the IF at once.
#[cycle(statements)]
fn select_last_arm(
    setting: &Setting<'_>,
    ctx: &mut Ctx,
    arm: &RArm,
    behind: BlockId,
) -> Result<(), OutOfMemory>
    requires is_open { IsOpen ctx.old.code ctx.old.at.0 }
    requires homes { above_setting setting.now ≤ length ctx.old.code.vars }
    requires waits { Waits ctx.old.code behind.0 }
    requires apart { behind.0 ≢ ctx.old.at.0 }
    requires real { behind.0 ≢ 0 }
    ensures vars { OnOk result (length ctx.old.code.vars ≤ length ctx.new.code.vars) }
    ensures joins { OnOk result
        (Joins setting.now ctx.old.code ctx.new.code ctx.old.at.0 behind.0
        (is_sound_arm setting.now.program.now setting.now.id.0 arm.now)
        (chosen (arm_of setting.now.program.now arm.now ∷ []) [])) }
    ensures counts { OnOk result (AddsForArm (nodes_in_arm arm.now) ctx.old.code ctx.new.code) }
    ensures ready { OnOk result
        (ClosesReadyBeside setting.now ctx.old.code ctx.new.code ctx.old.at.0 behind.0
        (is_sound_arm setting.now.program.now setting.now.id.0 arm.now)) }
    ensures text { OnOk result (Enters ctx.old.code ctx.new.code ctx.old.order ctx.new.order
        (end_depths arm.now (depth_at ctx.old.code ctx.old.at.0))) }
    ensures closes { OnOk result (ClosesOne ctx.old.code ctx.new.code) }
{
    let holds = open_beside(setting.alloc, &mut ctx.code, ctx.at)?;
    let targets = Targets {
        holds,
        fails: behind,
    };
    confirm_targets(&ctx.code, targets);
    select_test(setting, ctx, &arm.test, targets)?;
    confirm(&ctx.code, holds);
    ctx.order.push(holds)?;
    ctx.at = holds;
    select_statements(setting, ctx, arm.body.as_slice())?;
    jump(setting.alloc, &mut ctx.code, ctx.at, behind);
    Ok(())
}

/// An IF without ELSE.
#[cycle(statements)]
fn select_if(setting: &Setting<'_>, ctx: &mut Ctx, arms: &[RArm]) -> Result<(), OutOfMemory>
    requires is_open { IsOpen ctx.old.code ctx.old.at.0 }
    requires homes { above_setting setting.now ≤ length ctx.old.code.vars }
    ensures is_open { OnOk result (IsOpen ctx.new.code ctx.new.at.0) }
    ensures vars { OnOk result (length ctx.old.code.vars ≤ length ctx.new.code.vars) }
    ensures does { OnOk result
        (Does setting.now ctx.old.code ctx.new.code ctx.old.at.0 ctx.new.at.0
        (are_sound_arms setting.now.program.now setting.now.id.0 arms.now)
        (chosen (map (arm_of setting.now.program.now) arms.now) [])) }
    ensures counts { OnOk result (AddsForStatements (nodes_in_arms arms.now)
        ctx.old.code ctx.new.code) }
    ensures ready { OnOk result
        (KeepsReady setting.now ctx.old.code ctx.new.code ctx.old.at.0 ctx.new.at.0
        (are_sound_arms setting.now.program.now setting.now.id.0 arms.now)) }
    ensures text { OnOk result (GoesOn ctx.old.at.0 ctx.new.at.0
        ctx.old.code ctx.new.code ctx.old.order ctx.new.order
        (depths_of_arms arms.now (depth_at ctx.old.code ctx.old.at.0))) }
    ensures hands_on { OnOk result (HandsOn ctx.old.at.0 ctx.new.at.0
        ctx.old.code ctx.new.code) }
{
    let [.., last] = arms else {
        return Ok(());
    };
    let behind = open_beside(setting.alloc, &mut ctx.code, ctx.at)?;
    confirm_waits(&ctx.code, ctx.at, behind);
    select_first_arms(setting, ctx, arms, behind)?;
    select_last_arm(setting, ctx, last, behind)?;
    ctx.order.push(behind)?;
    ctx.at = behind;
    Ok(())
}
