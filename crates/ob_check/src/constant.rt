//! Declared constants and lengths: what an expression is worth that names no variable.

ghost use Rattle.std.specs.Prelude.{◌≡◌, IfOk};
ghost use Rattle.ob_syntax.specs.Operators.{combined, negated, inverted};
ghost use Rattle.ob_syntax.specs.Types.{worth as worth_of, worth_of_one, worth_of_both};
ghost use Rattle.ob_syntax.specs.Types.{constant_of as constant_of_worth, constant as constant_at};
ghost use Rattle.ob_syntax.specs.Types.{length_of, array_length as array_length_at};
ghost use Rattle.ob_check.specs.Judging.{known_at, Answers};
ghost use Rattle.ob_check.specs.Pending.{applied, all_applied};

use crate::expression::expression;
use crate::place::Place;
use crate::refusal::Refusal;
use crate::rules::Rule;
use ob_syntax::{Expr, RExpr, ROp, Value};
use ob_values::{invert, is_true, negate, number, operate};
use pra_base::TrapKind;
use std::alloc::{AllocError, Global};

/// An operator on what its sides give, the left one first.
fn combine(
    op: ROp,
    left: Result<Value, TrapKind>,
    right: Result<Value, TrapKind>,
) -> Result<Value, TrapKind>
    ensures { result ≡ combined op left right }
{
    match left {
        Err(trap) => Err(trap),
        Ok(x) => match op {
            ROp::Both => {
                if is_true(x) {
                    right
                } else {
                    Ok(Value::Truth(false))
                }
            }
            ROp::Either => {
                if is_true(x) {
                    Ok(Value::Truth(true))
                } else {
                    right
                }
            }
            _ => match right {
                Err(trap) => Err(trap),
                Ok(y) => operate(op, number(x), number(y)),
            },
        },
    }
}

/// What is still to be done with an operand.
#[derive(Clone, Copy)]
pub enum Pending {
    Negate,
    Not,
    /// An operator with what its right side is worth.
    Operate(ROp, Option<Result<Value, TrapKind>>),
}

/// What becomes of an operand that is worth so much.
fn apply(
    pending: Pending,
    operand: Option<Result<Value, TrapKind>>,
) -> Option<Result<Value, TrapKind>>
    ensures { result ≡ applied pending operand }
{
    match pending {
        Pending::Negate => match operand {
            Some(Ok(value)) => Some(Ok(negate(value))),
            other => other,
        },
        Pending::Not => match operand {
            Some(Ok(value)) => Some(Ok(invert(value))),
            other => other,
        },
        Pending::Operate(op, right) => match operand {
            Some(left) => match right {
                Some(right) => Some(combine(op, left, right)),
                None => None,
            },
            None => None,
        },
    }
}

/// What becomes of an operand by all that is pending, the last of it first.
#[tactic(auto, using(crate::proofs::Pendings::one_more))]
fn apply_all(
    pending: Vec<Pending>,
    operand: Option<Result<Value, TrapKind>>,
) -> Option<Result<Value, TrapKind>>
    ensures { result ≡ all_applied pending.items operand }
{
    let mut pending = pending;
    let mut worth = operand;
    while let Some(one) = pending.pop() {
        worth = apply(one, worth);
    }
    worth
}

/// What an expression is worth; None where it names a variable.
///
/// It goes down left operands in a loop, and calls itself for right ones alone, so its calls are as
/// deep as the source nests, however long a chain of operators is.
pub fn worth(alloc: Global, expr: &RExpr) -> Result<Option<Result<Value, TrapKind>>, AllocError>
    ensures { IfOk result (λ worth. worth ≡ worth_of expr.now) }
{
    let mut pending = Vec::new(alloc);
    let mut left = expr;
    loop {
        match left {
            RExpr::Number(number) => {
                return Ok(apply_all(pending, Some(Ok(Value::Number(*number)))));
            }
            RExpr::Truth(truth) => {
                return Ok(apply_all(pending, Some(Ok(Value::Truth(*truth)))));
            }
            RExpr::Var(_) => return Ok(None),
            RExpr::Negate(inner) => {
                pending.push(Pending::Negate)?;
                left = inner.get();
            }
            RExpr::Not(inner) => {
                pending.push(Pending::Not)?;
                left = inner.get();
            }
            RExpr::Binary(op, first, right) => {
                let right = worth(alloc, right.get())?;
                pending.push(Pending::Operate(*op, right))?;
                left = first.get();
            }
        }
    }
}

/// The value of a constant's expression.
pub fn constant(place: &Place, expr: &Expr) -> Result<Value, Refusal>
    ensures { Answers (constant_at (known_at place.now) expr.now) result }
{
    let typed = expression(place, expr)?;
    match worth(place.alloc, &typed.expr)? {
        Some(Ok(value)) => Ok(value),
        _ => Err(Refusal::Broken(Rule::ConstantIsKnown, expr.span.last)),
    }
}

/// The length of an array.
pub fn array_length(place: &Place, expr: &Expr) -> Result<u32, Refusal>
    ensures { Answers (array_length_at (known_at place.now) expr.now) result }
{
    match constant(place, expr)? {
        Value::Number(number) if number > 0 => Ok(number as u32),
        _ => Err(Refusal::Broken(Rule::ConstantIsKnown, expr.span.last)),
    }
}
