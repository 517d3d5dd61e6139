// The walk over resolved trees: expressions, variables with their selectors, and conditions.

ghost use Rattle.std.specs.Prelude.{◌≡◌, ◌<◌, ◌≤◌, ◌+◌, ℕ, suc, pos, List, length, true, IfOk};
ghost use Rattle.std.specs.Prelude.{OnOk};
ghost use Rattle.ob_mean.specs.Designators.{array_length, shape_of};
ghost use Rattle.ob_mean.specs.Expressions.{value, selector, location};
ghost use Rattle.ob_mean.specs.Store.{Store};
ghost use Rattle.ob_mean.specs.declared.store.LiveCall.{LiveCall};
ghost use Rattle.ob_syntax.specs.declared.checked.RExpr.TheVariants.{Binary, Number};
ghost use Rattle.vc_build.specs.Grow.{count, ClosesOne, HandsOn, IsOpen};
ghost use Rattle.vc_expr.specs.Operators.{is_bitwise as is_bitwise_operator};
ghost use Rattle.vc_expr.specs.Operators.{is_relation as is_relation_operator};
ghost use Rattle.vc_relation.specs.declared.home.Home.TheVariants as home;
ghost use Rattle.vc_select.specs.Certified.{StaysReady, StaysReadyFrom, EndsReady};
ghost use Rattle.vc_select.specs.Certified.{IsAnswer, InTarget, CellOf, IsHome};
ghost use Rattle.vc_select.specs.Amounts.{AddsForPath, AddsForVariable, AddsForValue};
ghost use Rattle.vc_select.specs.Amounts.{AddsForTest};
ghost use Rattle.vc_select.specs.Blocks.{EndsInText, StaysInText};
ghost use Rattle.vc_select.specs.Blocks.{needs, needs_of_step, needs_of_var};
ghost use Rattle.vc_select.specs.Selects.{Selects, Locates, LeadsFrom, LeadsBy, Tests, IsFor};
ghost use Rattle.vc_select.specs.Selects.{sided, joined};
ghost use Rattle.vc_select.specs.Targets.{above_setting, above_target, above_target_base};
ghost use Rattle.vc_select.specs.Targets.{root_target as target_of_root, whole_of};
ghost use Rattle.vc_typed.specs.Nodes.{nodes_in, nodes_in_step, nodes_in_var};
ghost use Rattle.vc_typed.specs.Typing.{typing, binary_typing, leading, variable_typing};
ghost use Rattle.vc_typed.specs.Typing.{type_after};

use crate::constant::constant;
use crate::element::{
    Reached, Subscript, confirm_binary, confirm_number, constant_index, distance, indexed,
};
use crate::load::load;
use crate::number::{truth, variable_count};
use crate::operator::{is_bitwise, is_relation, is_sided};
use crate::parts::{
    array_length, element_type, field_type, field_types, field_words, shifted, words_at,
};
use crate::root::{root_target, root_type};
use crate::split::{confirm, confirm_targets, exchanged, inner_targets, open_beside};
use crate::target::{Ctx, Setting, Target};
use ob_syntax::{RExpr, ROp, RStep, RVar};
use pra_base::{OutOfMemory, VarId};
use vc_expr::{
    Targets, branch_by, branch_on, close_choice, open_choice, select_inversion, select_negation,
    select_operator, test_of,
};

/// A variable with the value of an expression.
///
/// # Errors
///
/// Where there is no memory, or no number; the code is of no use then.
#[cycle(select)]
pub fn select_expr(setting: &Setting<'_>, ctx: &mut Ctx, e: &RExpr) -> Result<VarId, OutOfMemory>
    requires is_open { IsOpen ctx.old.code ctx.old.at.0 }
    requires homes { above_setting setting.now ≤ length ctx.old.code.vars }
    ensures is_open { OnOk result (IsOpen ctx.new.code ctx.new.at.0) }
    ensures vars { OnOk result (length ctx.old.code.vars ≤ length ctx.new.code.vars) }
    ensures named { IfOk result (λ v. v.0 < length ctx.new.code.vars) }
    ensures selects { IfOk result (λ v.
        Selects setting.now ctx.old.code ctx.new.code ctx.old.at.0 ctx.new.at.0 v.0
        (typing setting.now.program.now setting.now.id.0 e.now)
        (value setting.now.program.now e.now)) }
    ensures counts { OnOk result (AddsForValue (nodes_in e.now)
        ctx.old.code ctx.new.code) }
    ensures ready { IfOk result (λ v. StaysReady setting.now (length ctx.old.code.vars)
        ctx.old.code ctx.new.code ctx.old.at.0 ctx.new.at.0 (IsAnswer v.0)) }
    ensures text { OnOk result (StaysInText (needs e.now).value
        ctx.old.at.0 ctx.new.at.0 ctx.old.code ctx.new.code ctx.old.order ctx.new.order) }
    ensures hands_on { OnOk result (HandsOn ctx.old.at.0 ctx.new.at.0
        ctx.old.code ctx.new.code) }
{
    match e {
        RExpr::Number(n) => {
            let n = *n;
            confirm_number(e, n);
            let v = constant(&mut ctx.code, n)?;
            Ok(v)
        }
        RExpr::Truth(b) => {
            let v = truth(&mut ctx.code, *b)?;
            Ok(v)
        }
        RExpr::Var(variable) => {
            let target = select_var(setting, ctx, variable)?;
            let v = load(setting, &mut ctx.code, ctx.at, target)?;
            Ok(v)
        }
        RExpr::Negate(x) => {
            let first = variable_count(&ctx.code)?;
            let operand = select_expr(setting, ctx, x.get())?;
            let v = select_negation(setting.alloc, &mut ctx.code, ctx.at, first, operand)?;
            Ok(v)
        }
        RExpr::Not(x) => {
            let first = variable_count(&ctx.code)?;
            let operand = select_expr(setting, ctx, x.get())?;
            let v = select_inversion(setting.alloc, &mut ctx.code, ctx.at, first, operand)?;
            Ok(v)
        }
        RExpr::Binary(op, x, y) => {
            let x = x.get();
            let y = y.get();
            confirm_binary(e, *op, x, y);
            let v = select_binary(setting, ctx, e, *op, x, y)?;
            Ok(v)
        }
    }
}

#[cycle(select)]
fn select_binary(
    setting: &Setting<'_>,
    ctx: &mut Ctx,
    e: &RExpr,
    op: ROp,
    x: &RExpr,
    y: &RExpr,
) -> Result<VarId, OutOfMemory>
    requires is_open { IsOpen ctx.old.code ctx.old.at.0 }
    requires homes { above_setting setting.now ≤ length ctx.old.code.vars }
    requires is { e.now ≡ Binary op x.now y.now }
    ensures is_open { OnOk result (IsOpen ctx.new.code ctx.new.at.0) }
    ensures vars { OnOk result (length ctx.old.code.vars ≤ length ctx.new.code.vars) }
    ensures named { IfOk result (λ v. v.0 < length ctx.new.code.vars) }
    ensures selects { IfOk result (λ v.
        Selects setting.now ctx.old.code ctx.new.code ctx.old.at.0 ctx.new.at.0 v.0
        (binary_typing op (typing setting.now.program.now setting.now.id.0 x.now)
        (typing setting.now.program.now setting.now.id.0 y.now))
        (joined op (value setting.now.program.now x.now) (value setting.now.program.now y.now))) }
    ensures counts { OnOk result (AddsForValue (suc (nodes_in x.now + nodes_in y.now))
        ctx.old.code ctx.new.code) }
    ensures ready { IfOk result (λ v. StaysReady setting.now (length ctx.old.code.vars)
        ctx.old.code ctx.new.code ctx.old.at.0 ctx.new.at.0 (IsAnswer v.0)) }
    ensures text { OnOk result (StaysInText (needs e.now).value
        ctx.old.at.0 ctx.new.at.0 ctx.old.code ctx.new.code ctx.old.order ctx.new.order) }
    ensures hands_on { OnOk result (HandsOn ctx.old.at.0 ctx.new.at.0
        ctx.old.code ctx.new.code) }
{
    if is_sided(op, y) {
        let v = select_sides(setting, ctx, e, op, x, y)?;
        return Ok(v);
    }
    let v = select_choice(setting, ctx, e, op, x, y)?;
    Ok(v)
}

/// An operator whose sides are both evaluated.
#[cycle(select)]
fn select_sides(
    setting: &Setting<'_>,
    ctx: &mut Ctx,
    e: &RExpr,
    op: ROp,
    x: &RExpr,
    y: &RExpr,
) -> Result<VarId, OutOfMemory>
    requires is_open { IsOpen ctx.old.code ctx.old.at.0 }
    requires homes { above_setting setting.now ≤ length ctx.old.code.vars }
    requires is { e.now ≡ Binary op x.now y.now }
    ensures is_open { OnOk result (IsOpen ctx.new.code ctx.new.at.0) }
    ensures vars { OnOk result (length ctx.old.code.vars ≤ length ctx.new.code.vars) }
    ensures named { IfOk result (λ v. v.0 < length ctx.new.code.vars) }
    ensures selects { IfOk result (λ v.
        Selects setting.now ctx.old.code ctx.new.code ctx.old.at.0 ctx.new.at.0 v.0
        (binary_typing op (typing setting.now.program.now setting.now.id.0 x.now)
        (typing setting.now.program.now setting.now.id.0 y.now))
        (sided op (value setting.now.program.now x.now) (value setting.now.program.now y.now))) }
    ensures counts { OnOk result (AddsForValue (suc (nodes_in x.now + nodes_in y.now))
        ctx.old.code ctx.new.code) }
    ensures ready { IfOk result (λ v. StaysReady setting.now (length ctx.old.code.vars)
        ctx.old.code ctx.new.code ctx.old.at.0 ctx.new.at.0 (IsAnswer v.0)) }
    ensures text { OnOk result (StaysInText ((needs x.now).value + (needs y.now).value)
        ctx.old.at.0 ctx.new.at.0 ctx.old.code ctx.new.code ctx.old.order ctx.new.order) }
    ensures hands_on { OnOk result (HandsOn ctx.old.at.0 ctx.new.at.0
        ctx.old.code ctx.new.code) }
{
    let first = variable_count(&ctx.code)?;
    let left = select_expr(setting, ctx, x)?;
    let right = select_expr(setting, ctx, y)?;
    let at = ctx.at;
    let v = select_operator(setting.alloc, &mut ctx.code, at, first, op, left, right)?;
    Ok(v)
}

/// `&` and OR over blocks: the right side is evaluated only where the left one does not decide.
#[cycle(select)]
fn select_choice(
    setting: &Setting<'_>,
    ctx: &mut Ctx,
    e: &RExpr,
    op: ROp,
    x: &RExpr,
    y: &RExpr,
) -> Result<VarId, OutOfMemory>
    requires is_open { IsOpen ctx.old.code ctx.old.at.0 }
    requires homes { above_setting setting.now ≤ length ctx.old.code.vars }
    requires is { e.now ≡ Binary op x.now y.now }
    requires op { is_bitwise_operator op ≡ true }
    ensures is_open { OnOk result (IsOpen ctx.new.code ctx.new.at.0) }
    ensures vars { OnOk result (length ctx.old.code.vars ≤ length ctx.new.code.vars) }
    ensures named { IfOk result (λ v. v.0 < length ctx.new.code.vars) }
    ensures selects { IfOk result (λ v.
        Selects setting.now ctx.old.code ctx.new.code ctx.old.at.0 ctx.new.at.0 v.0
        (binary_typing op (typing setting.now.program.now setting.now.id.0 x.now)
        (typing setting.now.program.now setting.now.id.0 y.now))
        (joined op (value setting.now.program.now x.now) (value setting.now.program.now y.now))) }
    ensures counts { OnOk result (AddsForValue (suc (nodes_in x.now + nodes_in y.now))
        ctx.old.code ctx.new.code) }
    ensures ready { IfOk result (λ v. StaysReady setting.now (length ctx.old.code.vars)
        ctx.old.code ctx.new.code ctx.old.at.0 ctx.new.at.0 (IsAnswer v.0)) }
    ensures text { OnOk result (StaysInText ((needs x.now).test + (1 + ((needs y.now).value + 1)))
        ctx.old.at.0 ctx.new.at.0 ctx.old.code ctx.new.code ctx.old.order ctx.new.order) }
    ensures hands_on { OnOk result (HandsOn ctx.old.at.0 ctx.new.at.0
        ctx.old.code ctx.new.code) }
{
    let choice = open_choice(setting.alloc, &mut ctx.code, ctx.at, op)?;
    let targets = test_of(op, choice);
    confirm_targets(&ctx.code, targets);
    select_test(setting, ctx, x, targets)?;
    confirm(&ctx.code, choice.right);
    ctx.order.push(choice.right)?;
    ctx.at = choice.right;
    let v = select_expr(setting, ctx, y)?;
    close_choice(setting.alloc, &mut ctx.code, ctx.at, v, choice)?;
    ctx.order.push(choice.behind)?;
    ctx.at = choice.behind;
    Ok(choice.target)
}

/// The target of a variable with its selectors.
///
/// # Errors
///
/// Where there is no memory, or no number; the code is of no use then.
#[cycle(select)]
pub fn select_var(setting: &Setting<'_>, ctx: &mut Ctx, v: &RVar) -> Result<Target, OutOfMemory>
    requires is_open { IsOpen ctx.old.code ctx.old.at.0 }
    requires homes { above_setting setting.now ≤ length ctx.old.code.vars }
    ensures is_open { OnOk result (IsOpen ctx.new.code ctx.new.at.0) }
    ensures vars { OnOk result (length ctx.old.code.vars ≤ length ctx.new.code.vars) }
    ensures named { IfOk result (λ t. above_target t ≤ length ctx.new.code.vars) }
    ensures locates { IfOk result (λ t.
        Locates setting.now ctx.old.code ctx.new.code ctx.old.at.0 ctx.new.at.0 t
        (variable_typing setting.now.program.now setting.now.id.0 v.now)
        (location setting.now.program.now v.now)) }
    ensures counts { OnOk result (AddsForVariable (nodes_in_var v.now)
        ctx.old.code ctx.new.code) }
    ensures ready { IfOk result (λ t. StaysReady setting.now (length ctx.old.code.vars)
        ctx.old.code ctx.new.code ctx.old.at.0 ctx.new.at.0 (InTarget t)) }
    ensures cells { IfOk result (λ t. (k : ℕ) → CellOf t k →
        IsHome setting.now (home.Cell k)) }
    ensures whole { IfOk result (λ t. whole_of t ≡ target_of_root setting.now.program.now
        setting.now.params.now setting.now.locals.now setting.now.id.0 v.now.root) }
    ensures text { OnOk result (StaysInText (needs_of_var v.now).blocks
        ctx.old.at.0 ctx.new.at.0 ctx.old.code ctx.new.code ctx.old.order ctx.new.order) }
    ensures hands_on { OnOk result (HandsOn ctx.old.at.0 ctx.new.at.0
        ctx.old.code ctx.new.code) }
{
    let first = variable_count(&ctx.code)?;
    let mut target = root_target(setting, v.root);
    let mut type_id = root_type(setting, v.root);
    for step in v.steps.as_slice() {
        let reached = select_step(setting, ctx, first, Reached { target, type_id }, step)?;
        target = reached.target;
        type_id = reached.type_id;
    }
    Ok(target)
}

/// Leads a target along a selector.
#[cycle(select)]
fn select_step(
    setting: &Setting<'_>,
    ctx: &mut Ctx,
    first: u32,
    from: Reached,
    step: &RStep,
) -> Result<Reached, OutOfMemory>
    requires is_open { IsOpen ctx.old.code ctx.old.at.0 }
    requires homes { above_setting setting.now ≤ first }
    requires first { first ≤ length ctx.old.code.vars }
    requires named { above_target from.target ≤ length ctx.old.code.vars }
    requires base { above_target_base from.target ≤ first }
    ensures is_open { OnOk result (IsOpen ctx.new.code ctx.new.at.0) }
    ensures vars { OnOk result (length ctx.old.code.vars ≤ length ctx.new.code.vars) }
    ensures named { IfOk result (λ r. above_target r.target ≤ length ctx.new.code.vars) }
    ensures base { IfOk result (λ r.
        above_target_base r.target ≡ above_target_base from.target) }
    ensures whole { IfOk result (λ r. whole_of r.target ≡ whole_of from.target) }
    ensures type_after { IfOk result (λ r. r.type_id ≡
        type_after setting.now.program.now.types from.type_id
        (leading setting.now.program.now setting.now.id.0 step.now)) }
    ensures is_for { OnOk result ((calls : List LiveCall) (store : Store) →
        IsFor (leading setting.now.program.now setting.now.id.0 step.now)
        (selector setting.now.program.now step.now calls store)) }
    ensures leads { IfOk result (λ r. LeadsFrom setting.now first
        ctx.old.code ctx.new.code ctx.old.at.0 ctx.new.at.0 from.target r.target from.type_id
        (leading setting.now.program.now setting.now.id.0 step.now)
        (selector setting.now.program.now step.now)) }
    ensures counts { OnOk result (AddsForPath (nodes_in_step step.now)
        ctx.old.code ctx.new.code) }
    ensures ready { IfOk result (λ r. StaysReadyFrom setting.now first
        ctx.old.code ctx.new.code ctx.old.at.0 ctx.new.at.0 from.target r.target) }
    ensures text { OnOk result (StaysInText (needs_of_step step.now).blocks
        ctx.old.at.0 ctx.new.at.0 ctx.old.code ctx.new.code ctx.old.order ctx.new.order) }
    ensures hands_on { OnOk result (HandsOn ctx.old.at.0 ctx.new.at.0
        ctx.old.code ctx.new.code) }
{
    let shapes = setting.program.types.as_slice();
    match step {
        RStep::Field(k) => {
            let words = field_words(setting.words, field_types(shapes, from.type_id), *k)?;
            let target = shifted(words, from.target)?;
            let type_id = field_type(shapes, from.type_id, *k);
            Ok(Reached { target, type_id })
        }
        RStep::Index(x) => {
            let target = select_element(setting, ctx, first, from, x)?;
            let type_id = element_type(shapes, from.type_id);
            Ok(Reached { target, type_id })
        }
    }
}

/// Leads a target to an element.
#[cycle(select)]
fn select_element(
    setting: &Setting<'_>,
    ctx: &mut Ctx,
    first: u32,
    from: Reached,
    x: &RExpr,
) -> Result<Target, OutOfMemory>
    requires is_open { IsOpen ctx.old.code ctx.old.at.0 }
    requires homes { above_setting setting.now ≤ first }
    requires first { first ≤ length ctx.old.code.vars }
    requires named { above_target from.target ≤ length ctx.old.code.vars }
    requires base { above_target_base from.target ≤ first }
    ensures is_open { OnOk result (IsOpen ctx.new.code ctx.new.at.0) }
    ensures vars { OnOk result (length ctx.old.code.vars ≤ length ctx.new.code.vars) }
    ensures named { IfOk result (λ t. above_target t ≤ length ctx.new.code.vars) }
    ensures base { IfOk result (λ t. above_target_base t ≡ above_target_base from.target) }
    ensures whole { IfOk result (λ t. whole_of t ≡ whole_of from.target) }
    ensures in_range { OnOk result ((k : ℕ) →
        k < array_length (shape_of setting.now.program.now.types from.type_id) →
        x.now ≡ Number (pos k) → ctx.new.code ≡ ctx.old.code) }
    ensures leads { IfOk result (λ t. LeadsBy setting.now first
        ctx.old.code ctx.new.code ctx.old.at.0 ctx.new.at.0 from.target t from.type_id
        (typing setting.now.program.now setting.now.id.0 x.now)
        (value setting.now.program.now x.now)) }
    ensures counts { OnOk result (AddsForPath (suc (nodes_in x.now))
        ctx.old.code ctx.new.code) }
    ensures ready { IfOk result (λ t. StaysReadyFrom setting.now first
        ctx.old.code ctx.new.code ctx.old.at.0 ctx.new.at.0 from.target t) }
    ensures text { OnOk result (StaysInText (needs x.now).value
        ctx.old.at.0 ctx.new.at.0 ctx.old.code ctx.new.code ctx.old.order ctx.new.order) }
    ensures hands_on { OnOk result (HandsOn ctx.old.at.0 ctx.new.at.0
        ctx.old.code ctx.new.code) }
{
    let shapes = setting.program.types.as_slice();
    let count = array_length(shapes, from.type_id);
    let words = words_at(setting.words, element_type(shapes, from.type_id));
    if let Some(k) = constant_index(x, count) {
        let words_before = distance(k, words)?;
        let target = shifted(words_before, from.target)?;
        return Ok(target);
    }
    let before = variable_count(&ctx.code)?;
    let variable = select_expr(setting, ctx, x)?;
    let index = Subscript {
        variable,
        before,
        count,
        words,
    };
    let at = ctx.at;
    let target = indexed(setting.alloc, &mut ctx.code, at, first, from.target, index)?;
    Ok(target)
}

/// Leaves the block by the value of a condition.
///
/// # Errors
///
/// Where there is no memory, or no number; the code is of no use then.
#[cycle(select)]
pub fn select_test(
    setting: &Setting<'_>,
    ctx: &mut Ctx,
    e: &RExpr,
    targets: Targets,
) -> Result<(), OutOfMemory>
    requires is_open { IsOpen ctx.old.code ctx.old.at.0 }
    requires homes { above_setting setting.now ≤ length ctx.old.code.vars }
    requires holds { targets.holds.0 < count ctx.old.code }
    requires fails { targets.fails.0 < count ctx.old.code }
    ensures vars { OnOk result (length ctx.old.code.vars ≤ length ctx.new.code.vars) }
    ensures blocks { OnOk result (count ctx.old.code ≤ count ctx.new.code) }
    ensures tests { OnOk result (
        Tests setting.now ctx.old.code ctx.new.code ctx.old.at.0 targets
        (typing setting.now.program.now setting.now.id.0 e.now)
        (value setting.now.program.now e.now)) }
    ensures counts { OnOk result (AddsForTest (nodes_in e.now)
        ctx.old.code ctx.new.code) }
    ensures ready { OnOk result
        (EndsReady setting.now ctx.old.code ctx.new.code ctx.old.at.0 targets) }
    ensures text { OnOk result (EndsInText (needs e.now).test
        ctx.old.at.0 ctx.old.code ctx.new.code ctx.old.order ctx.new.order) }
    ensures closes { OnOk result (ClosesOne ctx.old.code ctx.new.code) }
{
    match e {
        RExpr::Not(x) => {
            let other = exchanged(targets);
            confirm_targets(&ctx.code, other);
            select_test(setting, ctx, x.get(), other)?;
            Ok(())
        }
        RExpr::Binary(op, x, y) => {
            let x = x.get();
            let y = y.get();
            confirm_binary(e, *op, x, y);
            select_binary_test(setting, ctx, e, *op, x, y, targets)?;
            Ok(())
        }
        _ => {
            let v = select_expr(setting, ctx, e)?;
            branch_on(setting.alloc, &mut ctx.code, ctx.at, v, targets)?;
            Ok(())
        }
    }
}

#[cycle(select)]
fn select_binary_test(
    setting: &Setting<'_>,
    ctx: &mut Ctx,
    e: &RExpr,
    op: ROp,
    x: &RExpr,
    y: &RExpr,
    targets: Targets,
) -> Result<(), OutOfMemory>
    requires is_open { IsOpen ctx.old.code ctx.old.at.0 }
    requires homes { above_setting setting.now ≤ length ctx.old.code.vars }
    requires is { e.now ≡ Binary op x.now y.now }
    requires holds { targets.holds.0 < count ctx.old.code }
    requires fails { targets.fails.0 < count ctx.old.code }
    ensures vars { OnOk result (length ctx.old.code.vars ≤ length ctx.new.code.vars) }
    ensures blocks { OnOk result (count ctx.old.code ≤ count ctx.new.code) }
    ensures tests { OnOk result (
        Tests setting.now ctx.old.code ctx.new.code ctx.old.at.0 targets
        (binary_typing op (typing setting.now.program.now setting.now.id.0 x.now)
        (typing setting.now.program.now setting.now.id.0 y.now))
        (joined op (value setting.now.program.now x.now) (value setting.now.program.now y.now))) }
    ensures counts { OnOk result (AddsForTest (suc (nodes_in x.now + nodes_in y.now))
        ctx.old.code ctx.new.code) }
    ensures ready { OnOk result
        (EndsReady setting.now ctx.old.code ctx.new.code ctx.old.at.0 targets) }
    ensures text { OnOk result (EndsInText (needs e.now).test
        ctx.old.at.0 ctx.old.code ctx.new.code ctx.old.order ctx.new.order) }
    ensures closes { OnOk result (ClosesOne ctx.old.code ctx.new.code) }
{
    if is_bitwise(op) {
        select_split_test(setting, ctx, e, op, x, y, targets)?;
        return Ok(());
    }
    if is_relation(op) {
        select_relation_test(setting, ctx, e, op, x, y, targets)?;
        return Ok(());
    }
    let v = select_sides(setting, ctx, e, op, x, y)?;
    branch_on(setting.alloc, &mut ctx.code, ctx.at, v, targets)?;
    Ok(())
}

#[cycle(select)]
fn select_relation_test(
    setting: &Setting<'_>,
    ctx: &mut Ctx,
    e: &RExpr,
    op: ROp,
    x: &RExpr,
    y: &RExpr,
    targets: Targets,
) -> Result<(), OutOfMemory>
    requires is_open { IsOpen ctx.old.code ctx.old.at.0 }
    requires homes { above_setting setting.now ≤ length ctx.old.code.vars }
    requires is { e.now ≡ Binary op x.now y.now }
    requires holds { targets.holds.0 < count ctx.old.code }
    requires fails { targets.fails.0 < count ctx.old.code }
    requires op { is_relation_operator op ≡ true }
    ensures vars { OnOk result (length ctx.old.code.vars ≤ length ctx.new.code.vars) }
    ensures blocks { OnOk result (count ctx.old.code ≤ count ctx.new.code) }
    ensures tests { OnOk result (
        Tests setting.now ctx.old.code ctx.new.code ctx.old.at.0 targets
        (binary_typing op (typing setting.now.program.now setting.now.id.0 x.now)
        (typing setting.now.program.now setting.now.id.0 y.now))
        (sided op (value setting.now.program.now x.now) (value setting.now.program.now y.now))) }
    ensures counts { OnOk result (AddsForTest (suc (nodes_in x.now + nodes_in y.now))
        ctx.old.code ctx.new.code) }
    ensures ready { OnOk result
        (EndsReady setting.now ctx.old.code ctx.new.code ctx.old.at.0 targets) }
    ensures text { OnOk result (EndsInText ((needs x.now).value + (needs y.now).value)
        ctx.old.at.0 ctx.old.code ctx.new.code ctx.old.order ctx.new.order) }
    ensures closes { OnOk result (ClosesOne ctx.old.code ctx.new.code) }
{
    let left = select_expr(setting, ctx, x)?;
    let right = select_expr(setting, ctx, y)?;
    let at = ctx.at;
    branch_by(setting.alloc, &mut ctx.code, at, op, left, right, targets)?;
    Ok(())
}

/// The right side is tested in a block of its own, where the left one does not decide.
#[cycle(select)]
fn select_split_test(
    setting: &Setting<'_>,
    ctx: &mut Ctx,
    e: &RExpr,
    op: ROp,
    x: &RExpr,
    y: &RExpr,
    targets: Targets,
) -> Result<(), OutOfMemory>
    requires is_open { IsOpen ctx.old.code ctx.old.at.0 }
    requires homes { above_setting setting.now ≤ length ctx.old.code.vars }
    requires is { e.now ≡ Binary op x.now y.now }
    requires holds { targets.holds.0 < count ctx.old.code }
    requires fails { targets.fails.0 < count ctx.old.code }
    requires op { is_bitwise_operator op ≡ true }
    ensures vars { OnOk result (length ctx.old.code.vars ≤ length ctx.new.code.vars) }
    ensures blocks { OnOk result (count ctx.old.code ≤ count ctx.new.code) }
    ensures tests { OnOk result (
        Tests setting.now ctx.old.code ctx.new.code ctx.old.at.0 targets
        (binary_typing op (typing setting.now.program.now setting.now.id.0 x.now)
        (typing setting.now.program.now setting.now.id.0 y.now))
        (joined op (value setting.now.program.now x.now) (value setting.now.program.now y.now))) }
    ensures counts { OnOk result (AddsForTest (suc (nodes_in x.now + nodes_in y.now))
        ctx.old.code ctx.new.code) }
    ensures ready { OnOk result
        (EndsReady setting.now ctx.old.code ctx.new.code ctx.old.at.0 targets) }
    ensures text { OnOk result (EndsInText ((needs x.now).test + (1 + (needs y.now).test))
        ctx.old.at.0 ctx.old.code ctx.new.code ctx.old.order ctx.new.order) }
    ensures closes { OnOk result (ClosesOne ctx.old.code ctx.new.code) }
{
    let right = open_beside(setting.alloc, &mut ctx.code, ctx.at)?;
    let inner = inner_targets(op, right, targets);
    confirm_targets(&ctx.code, inner);
    select_test(setting, ctx, x, inner)?;
    confirm(&ctx.code, right);
    ctx.order.push(right)?;
    ctx.at = right;
    select_test(setting, ctx, y, targets)?;
    Ok(())
}
