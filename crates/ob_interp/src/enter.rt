// Arguments, the test of the stack, and the beginning of a call.

ghost use Rattle.std.specs.Prelude.{◌≡◌, ◌∷◌, ◌<◌, ◌^◌, ◌+◌, nat_lt, length, IfOk, OnOk};
ghost use Rattle.pra_base.specs.Words.{stack_limit};
ghost use Rattle.ob_mean.specs.Statements.{argument as argument_of, arguments as arguments_of};
ghost use Rattle.ob_mean.specs.Program.{live_frames, frame_of, entered, call_with};
ghost use Rattle.std.specs.Prelude.{◌≤◌};
ghost use Rattle.ob_interp.specs.Running.{store_of, listed, below};

use crate::evaluate::{evaluate, locate};
use crate::place::copied;
use crate::running::{Running, Setting};
use ob_mean::{Argument, LiveCall, Location, Object};
use ob_syntax::RArg;
use pra_base::{ProcId, TrapKind};
use pra_list::Seq;
use std::alloc::AllocError;

/// How many bytes the frames of live calls may have together.
const STACK_LIMIT: u64 = 1_048_576;

/// What an argument gives its parameter, or the trap.
fn argument(
    setting: &Setting<'_>,
    running: &Running,
    x: &RArg,
) -> Result<Result<Argument, TrapKind>, AllocError>
    requires { length running.now.calls.items < 2 ^ 32 }
    ensures { IfOk result (λ r. r ≡ argument_of setting.now.program.now running.now.calls.items
        (store_of running.now) x.now) }
{
    match x {
        RArg::Value(e) => match evaluate(setting.alloc, setting.program, running, e)? {
            Ok(value) => Ok(Ok(Argument::Passed(value))),
            Err(trap) => Ok(Err(trap)),
        },
        RArg::Lent(v) => match locate(setting.alloc, setting.program, running, v)? {
            Ok(at) => Ok(Ok(Argument::Lent(at))),
            Err(trap) => Ok(Err(trap)),
        },
    }
}

/// What the arguments give, in order, or the first trap.
pub fn arguments(
    setting: &Setting<'_>,
    running: &Running,
    all: &[RArg],
) -> Result<Result<Vec<Argument>, TrapKind>, AllocError>
    requires { length running.now.calls.items < 2 ^ 32 }
    ensures { IfOk result (λ r. listed r ≡
        arguments_of setting.now.program.now running.now.calls.items
        (store_of running.now) all.now) }
{
    let mut done = Vec::new(setting.alloc);
    for x in all {
        match argument(setting, running, x)? {
            Ok(value) => done.push(value)?,
            Err(trap) => return Ok(Err(trap)),
        }
    }
    Ok(Ok(done))
}

/// The bytes of the frame of a procedure.
pub fn frame(frames: &[u32], proc: u32) -> u32
    ensures { result ≡ frame_of frames.now proc }
{
    match frames.get(proc as usize) {
        Some(bytes) => *bytes,
        None => 0,
    }
}

/// Whether the frame of a procedure would take the stack over its limit.
pub fn passes(setting: &Setting<'_>, running: &Running, proc: u32) -> bool
    requires stack { running.now.stack ≡
        live_frames setting.now.frames.now running.now.calls.items }
    ensures { result ≡ nat_lt stack_limit
        (live_frames setting.now.frames.now running.now.calls.items +
        frame_of setting.now.frames.now proc) }
{
    let bytes = u64::from(frame(setting.frames, proc));
    bytes > STACK_LIMIT || running.stack > STACK_LIMIT - bytes
}

/// A call begins: its parameters have their arguments, and nothing is assigned to its locals.
pub fn begin(
    setting: &Setting<'_>,
    running: &mut Running,
    proc: u32,
    args: &[Argument],
) -> Result<(), AllocError>
    requires room { length running.old.calls.items + 1 < 2 ^ 32 }
    requires few { length args.now < 2 ^ 32 }
    requires stack { running.old.stack ≡
        live_frames setting.now.frames.now running.old.calls.items }
    requires fits { live_frames setting.now.frames.now running.old.calls.items +
        frame_of setting.now.frames.now proc ≤ stack_limit }
    ensures calls { OnOk result (running.new.calls.items ≡
        call_with proc args.now ∷ running.old.calls.items) }
    ensures store { OnOk result (store_of running.new ≡
        entered (length running.old.calls.items + 1) args.now (store_of running.old)) }
    ensures events { running.new.events ≡ running.old.events }
    ensures taken { running.new.taken ≡ running.old.taken }
    ensures units { running.new.units ≡ running.old.units }
    ensures stack { OnOk result (running.new.stack ≡
        live_frames setting.now.frames.now running.new.calls.items) }
{
    let depth = running.calls.len() as u32 + 1;
    let mut lent = Vec::new(setting.alloc);
    running.memory.begin(setting.alloc, depth)?;
    let mut k = 0;
    for arg in args {
        match arg {
            Argument::Passed(value) => {
                let at = Location {
                    object: Object::Param(depth, k),
                    path: Seq::new(setting.alloc),
                };
                running.memory.assign(setting.alloc, at, *value)?;
                lent.push(None)?;
            }
            Argument::Lent(at) => lent.push(Some(copied(setting.alloc, at)?))?,
        }
        k += 1;
    }
    running.stack += u64::from(frame(setting.frames, proc));
    running.calls.push_front(LiveCall {
        proc: ProcId(proc),
        lent: Seq::from_vec(lent),
    })?;
    Ok(())
}

/// The running call ends.
pub fn end(setting: &Setting<'_>, running: &mut Running)
    requires stack { running.old.stack ≡
        live_frames setting.now.frames.now running.old.calls.items }
    ensures calls { running.new.calls.items ≡ below running.old.calls.items }
    ensures same { running.new.memory ≡ running.old.memory }
    ensures events { running.new.events ≡ running.old.events }
    ensures taken { running.new.taken ≡ running.old.taken }
    ensures units { running.new.units ≡ running.old.units }
    ensures stack { running.new.stack ≡
        live_frames setting.now.frames.now running.new.calls.items }
{
    if let Some(call) = running.calls.pop_front() {
        running.stack -= u64::from(frame(setting.frames, call.proc.0));
    }
}
