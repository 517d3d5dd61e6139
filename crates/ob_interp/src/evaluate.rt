// Expressions are evaluated, and the locations of variables are found.

ghost use Rattle.std.specs.Prelude.{◌≡◌, ◌<◌, ◌^◌, IfOk, length};
ghost use Rattle.ob_mean.specs.Expressions.{value, selector, location};
ghost use Rattle.ob_interp.specs.Running.{store_of, followed};

use crate::place::{element, field_type, root_location, root_type, running_proc, start_of};
use crate::running::{Followed, Running};
use ob_mean::Location;
use ob_syntax::{Checked, RExpr, ROp, RStep, RVar, Value};
use ob_values::{invert, is_true, negate, number, operate};
use pra_base::TrapKind;
use std::alloc::{AllocError, Global};

/// The value of an expression, or the trap.
#[cycle(evaluate)]
pub fn evaluate(
    alloc: Global,
    program: &Checked,
    running: &Running,
    e: &RExpr,
) -> Result<Result<Value, TrapKind>, AllocError>
    requires { length running.now.calls.items < 2 ^ 32 }
    ensures { IfOk result (λ r. r ≡
        value program.now e.now running.now.calls.items (store_of running.now)) }
{
    match e {
        RExpr::Number(n) => Ok(Ok(Value::Number(*n))),
        RExpr::Truth(b) => Ok(Ok(Value::Truth(*b))),
        RExpr::Var(v) => match locate(alloc, program, running, v)? {
            Ok(at) => {
                let start = start_of(program.types.as_slice(), v.type_id);
                Ok(Ok(running.memory.content(start, at)))
            }
            Err(trap) => Ok(Err(trap)),
        },
        RExpr::Negate(x) => match evaluate(alloc, program, running, x.get())? {
            Ok(v) => Ok(Ok(negate(v))),
            Err(trap) => Ok(Err(trap)),
        },
        RExpr::Not(x) => match evaluate(alloc, program, running, x.get())? {
            Ok(v) => Ok(Ok(invert(v))),
            Err(trap) => Ok(Err(trap)),
        },
        RExpr::Binary(ROp::Both, x, y) => match evaluate(alloc, program, running, x.get())? {
            Ok(v) => {
                if is_true(v) {
                    evaluate(alloc, program, running, y.get())
                } else {
                    Ok(Ok(Value::Truth(false)))
                }
            }
            Err(trap) => Ok(Err(trap)),
        },
        RExpr::Binary(ROp::Either, x, y) => match evaluate(alloc, program, running, x.get())? {
            Ok(v) => {
                if is_true(v) {
                    Ok(Ok(Value::Truth(true)))
                } else {
                    evaluate(alloc, program, running, y.get())
                }
            }
            Err(trap) => Ok(Err(trap)),
        },
        RExpr::Binary(op, x, y) => match evaluate(alloc, program, running, x.get())? {
            Ok(v) => match evaluate(alloc, program, running, y.get())? {
                Ok(w) => Ok(operate(*op, number(v), number(w))),
                Err(trap) => Ok(Err(trap)),
            },
            Err(trap) => Ok(Err(trap)),
        },
    }
}

/// The location of a variable, or the trap.
#[cycle(evaluate)]
pub fn locate(
    alloc: Global,
    program: &Checked,
    running: &Running,
    v: &RVar,
) -> Result<Result<Location, TrapKind>, AllocError>
    requires { length running.now.calls.items < 2 ^ 32 }
    ensures { IfOk result (λ r. r ≡
        location program.now v.now running.now.calls.items (store_of running.now)) }
{
    let mut at = root_location(alloc, &running.calls, v.root)?;
    let mut type_id = root_type(program, running_proc(&running.calls), v.root);
    for step in v.steps.as_slice() {
        match follow(alloc, program, running, type_id, step)? {
            Ok(next) => {
                at.path.push(next.part)?;
                type_id = next.type_id;
            }
            Err(trap) => return Ok(Err(trap)),
        }
    }
    Ok(Ok(at))
}

/// Where a selector leads from a location of a type, or the trap.
#[cycle(evaluate)]
fn follow(
    alloc: Global,
    program: &Checked,
    running: &Running,
    type_id: u32,
    step: &RStep,
) -> Result<Result<Followed, TrapKind>, AllocError>
    requires { length running.now.calls.items < 2 ^ 32 }
    ensures { IfOk result (λ r. r ≡ followed program.now.types type_id
        (selector program.now step.now running.now.calls.items (store_of running.now))) }
{
    let shapes = program.types.as_slice();
    match step {
        RStep::Field(k) => Ok(Ok(Followed {
            part: *k,
            type_id: field_type(shapes, type_id, *k),
        })),
        RStep::Index(x) => match evaluate(alloc, program, running, x)? {
            Ok(v) => Ok(element(shapes, type_id, number(v))),
            Err(trap) => Ok(Err(trap)),
        },
    }
}
