//! Statements, in the order of the grammar.

ghost use Rattle.std.specs.Prelude.{◌≡◌, [], map};
ghost use Rattle.ob_syntax.specs.Expressions.{name_with_selectors};
ghost use Rattle.ob_syntax.specs.Statements.{target as target_of, assigned as assigned_of};
ghost use Rattle.ob_syntax.specs.Statements.{condition as condition_at};
ghost use Rattle.ob_syntax.specs.Statements.{is_designator as is_designator_of};
ghost use Rattle.ob_syntax.specs.Statements.{lent_variable as lent_variable_of, lent as lent_at};
ghost use Rattle.ob_syntax.specs.Statements.{passed as passed_at, argument as argument_at};
ghost use Rattle.ob_syntax.specs.Statements.{beyond as beyond_at, counted as counted_of};
ghost use Rattle.ob_syntax.specs.Statements.{arguments as arguments_at};
ghost use Rattle.ob_syntax.specs.Statements.{standard_call as standard_call_at};
ghost use Rattle.ob_syntax.specs.Statements.{procedure_call as procedure_call_at};
ghost use Rattle.ob_syntax.specs.Statements.{called as called_at, each, statement as statement_of};
ghost use Rattle.ob_syntax.specs.Statements.{arm as arm_of};
ghost use Rattle.ob_check.specs.Judging.{known_at, Answers};

use crate::expression::{BOOLEAN, INTEGER, are_alike, expression, of_type, selected};
use crate::place::Place;
use crate::refusal::Refusal;
use crate::rules::Rule;
use ob_syntax::{
    Arm, Designator, Expr, FactorForm, Meaning, Param, RArg, RArm, RExpr, RStmt, RVar, Standard,
    Stmt, StmtForm, Typed,
};
use pra_base::ProcId;
use pra_list::Seq;

/// The variable that is assigned to.
fn target(place: &Place, name: &Designator, meaning: Meaning) -> Result<RVar, Refusal>
    ensures { Answers (target_of (known_at place.now) (name_with_selectors name.now) meaning)
        result }
{
    match meaning {
        Meaning::Variable(_, root, type_id) => {
            let (steps, type_id) = selected(place, type_id, name)?;
            Ok(RVar {
                root,
                steps,
                type_id,
            })
        }
        _ => Err(Refusal::Broken(Rule::TargetIsVariable, name.name)),
    }
}

fn assigned(token: u32, variable: RVar, value: Typed) -> Result<RStmt, Refusal>
    ensures { Answers (assigned_of token variable value) result }
{
    if are_alike(variable.type_id, value.type_id) {
        Ok(RStmt::Assign(variable, value.expr))
    } else {
        Err(Refusal::Broken(Rule::AssignedAreAlike, token))
    }
}

/// The condition of IF, ELSIF, WHILE or UNTIL.
fn condition(place: &Place, expr: &Expr) -> Result<RExpr, Refusal>
    ensures { Answers (condition_at (known_at place.now) expr.now) result }
{
    let test = expression(place, expr)?;
    of_type(Rule::ConditionIsBoolean, BOOLEAN, expr.span.last, test)
}

/// Whether an expression is nothing but a name with its selectors.
fn is_designator(expr: &Expr) -> bool
    ensures { result ≡ is_designator_of expr.now }
{
    if expr.relation.is_some() || expr.left.sign.is_some() {
        return false;
    }
    match expr.left.rest.as_slice() {
        [] => match expr.left.first.rest.as_slice() {
            [] => match &expr.left.first.first.form {
                FactorForm::Name(_) => true,
                FactorForm::Number(_) | FactorForm::Paren(_) | FactorForm::Not(_) => false,
            },
            [_, ..] => false,
        },
        [_, ..] => false,
    }
}

#[tactic(auto, using(crate::proofs::Lent::lent_is))]
fn lent_variable(type_id: u32, token: u32, typed: Typed) -> Result<RVar, Refusal>
    ensures { Answers (lent_variable_of type_id token typed) result }
{
    let its_type = typed.type_id;
    match typed.expr.into_variable() {
        Some(variable) => {
            if its_type == type_id {
                Ok(variable)
            } else {
                Err(Refusal::Broken(Rule::ArgumentIsVariable, token))
            }
        }
        None => Err(Refusal::Broken(Rule::ArgumentIsVariable, token)),
    }
}

/// An argument for a VAR parameter.
fn lent(place: &Place, type_id: u32, expr: &Expr) -> Result<RVar, Refusal>
    ensures { Answers (lent_at (known_at place.now) type_id expr.now) result }
{
    let typed = expression(place, expr)?;
    if is_designator(expr) {
        lent_variable(type_id, expr.span.last, typed)
    } else {
        Err(Refusal::Broken(Rule::ArgumentIsVariable, expr.span.last))
    }
}

/// An argument for a value parameter.
fn passed(place: &Place, type_id: u32, expr: &Expr) -> Result<RExpr, Refusal>
    ensures { Answers (passed_at (known_at place.now) type_id expr.now) result }
{
    let typed = expression(place, expr)?;
    of_type(Rule::ArgumentHasItsType, type_id, expr.span.last, typed)
}

fn argument(place: &Place, param: Param, expr: &Expr) -> Result<RArg, Refusal>
    ensures { Answers (argument_at (known_at place.now) param expr.now) result }
{
    if param.by_var {
        let variable = lent(place, param.type_id, expr)?;
        Ok(RArg::Lent(variable))
    } else {
        let value = passed(place, param.type_id, expr)?;
        Ok(RArg::Value(value))
    }
}

/// Arguments beyond the last parameter.
fn beyond(place: &Place, exprs: &[Expr]) -> Result<(), Refusal>
    ensures { Answers (beyond_at (known_at place.now) exprs.now) result }
{
    for expr in exprs {
        let _typed = expression(place, expr)?;
    }
    Ok(())
}

fn arguments(place: &Place, params: &[Param], exprs: &[Expr]) -> Result<Seq<RArg>, Refusal>
    ensures { Answers (arguments_at (known_at place.now) [] params.now exprs.now) result }
{
    let mut done = Vec::new(place.alloc);
    let mut left = params;
    for expr in exprs {
        match left {
            [param, rest @ ..] => {
                let one = argument(place, *param, expr)?;
                done.push(one)?;
                left = rest;
            }
            [] => {
                let _typed = expression(place, expr)?;
            }
        }
    }
    Ok(Seq::from_vec(done))
}

fn standard_call(
    place: &Place,
    last: u32,
    which: Standard,
    exprs: &[Expr],
) -> Result<RStmt, Refusal>
    ensures { Answers (standard_call_at (known_at place.now) last which exprs.now) result }
{
    match which {
        Standard::Read => match exprs {
            [] => Err(Refusal::Broken(Rule::ArgumentsAreAsMany, last)),
            [expr, more @ ..] => {
                let variable = lent(place, INTEGER, expr)?;
                beyond(place, more)?;
                counted(last, 0, more.len(), RStmt::Read(variable))
            }
        },
        Standard::Write => match exprs {
            [] => Err(Refusal::Broken(Rule::ArgumentsAreAsMany, last)),
            [expr, more @ ..] => {
                let value = passed(place, INTEGER, expr)?;
                beyond(place, more)?;
                counted(last, 0, more.len(), RStmt::Write(value))
            }
        },
        Standard::WriteLine => {
            beyond(place, exprs)?;
            counted(last, 0, exprs.len(), RStmt::WriteLine)
        }
    }
}

/// The call, if it has as many arguments as are wanted.
fn counted(token: u32, wanted: usize, given: usize, call: RStmt) -> Result<RStmt, Refusal>
    ensures { Answers (counted_of token wanted given call) result }
{
    if wanted == given {
        Ok(call)
    } else {
        Err(Refusal::Broken(Rule::ArgumentsAreAsMany, token))
    }
}

fn procedure_call(place: &Place, last: u32, id: u32, exprs: &[Expr]) -> Result<RStmt, Refusal>
    ensures { Answers (procedure_call_at (known_at place.now) last id exprs.now) result }
{
    let params = place.parameters(id);
    let args = arguments(place, params, exprs)?;
    counted(
        last,
        params.len(),
        exprs.len(),
        RStmt::Call(ProcId(id), args),
    )
}

/// A call of what a name means.
fn called(
    place: &Place,
    last: u32,
    name: u32,
    meaning: Meaning,
    exprs: &[Expr],
) -> Result<RStmt, Refusal>
    ensures { Answers (called_at (known_at place.now) last name meaning exprs.now) result }
{
    match meaning {
        Meaning::Procedure(id) => procedure_call(place, last, id, exprs),
        Meaning::Standard(which) => standard_call(place, last, which, exprs),
        _ => Err(Refusal::Broken(Rule::NameIsProcedure, name)),
    }
}

/// Statements one after another.
#[cycle(statement)]
pub fn statements(place: &Place, list: &[Stmt]) -> Result<Seq<RStmt>, Refusal>
    ensures { Answers (each (known_at place.now) [] (map statement_of list.now)) result }
{
    let mut done = Vec::new(place.alloc);
    for one in list {
        let one = statement(place, one)?;
        done.push(one)?;
    }
    Ok(Seq::from_vec(done))
}

#[cycle(statement)]
fn arm(place: &Place, arm: &Arm) -> Result<RArm, Refusal>
    ensures { Answers (arm_of arm.now (known_at place.now)) result }
{
    let test = condition(place, &arm.test)?;
    let body = statements(place, arm.body.as_slice())?;
    Ok(RArm { test, body })
}

/// IF and each ELSIF.
#[cycle(statement)]
fn arms(place: &Place, list: &[Arm]) -> Result<Seq<RArm>, Refusal>
    ensures { Answers (each (known_at place.now) [] (map arm_of list.now)) result }
{
    let mut done = Vec::new(place.alloc);
    for one in list {
        let one = arm(place, one)?;
        done.push(one)?;
    }
    Ok(Seq::from_vec(done))
}

#[cycle(statement)]
fn statement(place: &Place, statement: &Stmt) -> Result<RStmt, Refusal>
    ensures { Answers (statement_of statement.now (known_at place.now)) result }
{
    let last = statement.span.last;
    match &statement.form {
        StmtForm::Assign(name, value) => {
            let meaning = place.used(name.name)?;
            let variable = target(place, name, meaning)?;
            let value = expression(place, value)?;
            assigned(last, variable, value)
        }
        StmtForm::Call(name, exprs) => {
            let meaning = place.used(*name)?;
            called(place, last, *name, meaning, exprs.as_slice())
        }
        StmtForm::If(list, other) => {
            let list = arms(place, list.as_slice())?;
            let other = statements(place, other.as_slice())?;
            Ok(RStmt::If(list, other))
        }
        StmtForm::While(test, body) => {
            let test = condition(place, test)?;
            let body = statements(place, body.as_slice())?;
            Ok(RStmt::While(test, body))
        }
        StmtForm::Repeat(body, test) => {
            let body = statements(place, body.as_slice())?;
            let test = condition(place, test)?;
            Ok(RStmt::Repeat(body, test))
        }
    }
}
