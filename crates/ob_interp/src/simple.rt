// Statements that hold no other statements and call nothing.

ghost use Rattle.std.specs.Prelude.{◌≡◌, ◌+◌, ◌≤◌, ◌<◌, ◌^◌, length, IfOk, OnOk};
ghost use Rattle.ob_interp.specs.Units.{does};
ghost use Rattle.ob_interp.specs.Running.{counted_of, halted};
ghost use Rattle.ob_interp.specs.Running.{assigning, reading, writing, ending_line};

use crate::evaluate::{evaluate, locate};
use crate::running::{Finish, Running, Setting};
use ob_syntax::{RExpr, RVar, Value};
use ob_values::number;
use pra_base::{OutEvent, TrapKind};
use std::alloc::AllocError;

pub fn assign(
    setting: &Setting<'_>,
    running: &mut Running,
    v: &RVar,
    e: &RExpr,
) -> Result<Finish, AllocError>
    requires { length running.old.calls.items < 2 ^ 32 }
    ensures calls { OnOk result (running.new.calls.items ≡ running.old.calls.items) }
    ensures stack { running.new.stack ≡ running.old.stack }
    ensures units { running.new.units ≡ running.old.units }
    ensures taken { running.new.taken ≤ running.old.taken + 1 }
    ensures means { IfOk result (λ f. halted setting.now running.new f ≡
        does (assigning setting.now.program.now running.old.calls.items v.now e.now)
        (counted_of setting.now.input.now running.old)) }
{
    let at = match locate(setting.alloc, setting.program, running, v)? {
        Ok(at) => at,
        Err(trap) => return Ok(Finish::Failed(trap)),
    };
    match evaluate(setting.alloc, setting.program, running, e)? {
        Ok(x) => {
            running.memory.assign(setting.alloc, at, x)?;
            Ok(Finish::Done)
        }
        Err(trap) => Ok(Finish::Failed(trap)),
    }
}

pub fn read(setting: &Setting<'_>, running: &mut Running, v: &RVar) -> Result<Finish, AllocError>
    requires { length running.old.calls.items < 2 ^ 32 }
    ensures calls { OnOk result (running.new.calls.items ≡ running.old.calls.items) }
    ensures stack { running.new.stack ≡ running.old.stack }
    ensures units { running.new.units ≡ running.old.units }
    ensures taken { running.new.taken ≤ running.old.taken + 1 }
    ensures means { IfOk result (λ f. halted setting.now running.new f ≡
        does (reading setting.now.program.now running.old.calls.items v.now)
        (counted_of setting.now.input.now running.old)) }
{
    let at = match locate(setting.alloc, setting.program, running, v)? {
        Ok(at) => at,
        Err(trap) => return Ok(Finish::Failed(trap)),
    };
    match setting.input.get(running.taken) {
        Some(word) => {
            running
                .memory
                .assign(setting.alloc, at, Value::Number(*word))?;
            running.taken += 1;
            Ok(Finish::Done)
        }
        None => Ok(Finish::Failed(TrapKind::Input)),
    }
}

pub fn write(setting: &Setting<'_>, running: &mut Running, e: &RExpr) -> Result<Finish, AllocError>
    requires { length running.old.calls.items < 2 ^ 32 }
    ensures calls { OnOk result (running.new.calls.items ≡ running.old.calls.items) }
    ensures stack { running.new.stack ≡ running.old.stack }
    ensures units { running.new.units ≡ running.old.units }
    ensures taken { running.new.taken ≤ running.old.taken + 1 }
    ensures means { IfOk result (λ f. halted setting.now running.new f ≡
        does (writing setting.now.program.now running.old.calls.items e.now)
        (counted_of setting.now.input.now running.old)) }
{
    match evaluate(setting.alloc, setting.program, running, e)? {
        Ok(x) => {
            running.events.push(OutEvent::Number(number(x)))?;
            Ok(Finish::Done)
        }
        Err(trap) => Ok(Finish::Failed(trap)),
    }
}

pub fn write_line(setting: &Setting<'_>, running: &mut Running) -> Result<Finish, AllocError>
    ensures calls { OnOk result (running.new.calls.items ≡ running.old.calls.items) }
    ensures stack { running.new.stack ≡ running.old.stack }
    ensures units { running.new.units ≡ running.old.units }
    ensures taken { running.new.taken ≤ running.old.taken + 1 }
    ensures means { IfOk result (λ f. halted setting.now running.new f ≡
        does ending_line (counted_of setting.now.input.now running.old)) }
{
    running.events.push(OutEvent::Line)?;
    Ok(Finish::Done)
}
