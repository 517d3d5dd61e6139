// A whole module is run.

ghost use Rattle.std.specs.Prelude.{◌≡◌, ◌≤◌, ℤ, List, IfOk};
ghost use Rattle.ob_mean.specs.Program.{only_body};
ghost use Rattle.ob_interp.specs.Told.{told};
ghost use Rattle.ob_interp.specs.Units.{units_run, started};
ghost use Rattle.ob_interp.specs.Running.{IsRunning, counted_of, halt_of};

use crate::enter::frame;
use crate::execute::{body_of, next_due, perform};
use crate::memory::Memory;
use crate::running::{Finish, Running, Setting};
use crate::task::Task;
use ob_mean::LiveCall;
use ob_syntax::Checked;
use pra_base::{OutEvent, OutOfMemory, ProcId, TrapKind};
use pra_list::Seq;
use std::alloc::{AllocError, Global};
use std::collections::VecDeque;

/// How a run of so many units ends, if it does.
#[derive(Clone, Copy, Debug, PartialEq, Eq)]
pub enum UnitEnding {
    Going,
    Ended,
    Trap(TrapKind),
}

/// What a run of so many units wrote, how it ended, how many units were begun, and how many words
/// of the input were taken.
#[derive(Debug, Drop)]
pub struct UnitOut {
    pub events: Seq<OutEvent>,
    pub ending: UnitEnding,
    pub units: u32,
    pub reads: u32,
}

fn reached(finish: Finish, running: Running) -> UnitOut
    requires { running.taken ≤ running.units }
    ensures { (input : List ℤ) → result ≡ told (halt_of finish (counted_of input running)) }
{
    let ending = match finish {
        Finish::Done => UnitEnding::Ended,
        Finish::Failed(trap) => UnitEnding::Trap(trap),
        Finish::Stopped => UnitEnding::Going,
    };
    UnitOut {
        events: running.events,
        ending,
        units: running.units,
        reads: running.taken as u32,
    }
}

/// The state in which the module's body begins.
fn begin_module(setting: &Setting<'_>) -> Result<Running, AllocError>
    ensures running { IfOk result (λ r. IsRunning setting.now r) }
    ensures calls { IfOk result (λ r. r.calls.items ≡ only_body) }
    ensures state { IfOk result (λ r. counted_of setting.now.input.now r ≡
        started setting.now.input.now) }
{
    let mut calls = VecDeque::new(setting.alloc);
    calls.push_front(LiveCall {
        proc: ProcId(0),
        lent: Seq::new(setting.alloc),
    })?;
    Ok(Running {
        calls,
        stack: u64::from(frame(setting.frames, 0)),
        memory: Memory::new(setting.alloc),
        events: Seq::new(setting.alloc),
        taken: 0,
        units: 0,
    })
}

fn run(setting: &Setting<'_>) -> Result<UnitOut, AllocError>
    ensures { IfOk result (λ out. out ≡
        told (units_run setting.now.program.now setting.now.frames.now setting.now.input.now
        setting.now.granted)) }
{
    let mut running = begin_module(setting)?;
    let mut tasks = VecDeque::new(setting.alloc);
    tasks.push_front(Task::Statements(body_of(setting.program, 0)))?;
    loop {
        match next_due(setting, &mut tasks, &mut running)? {
            Some(due) => {
                if let Some(finish) = perform(setting, &mut tasks, &mut running, due)? {
                    return Ok(reached(finish, running));
                }
            }
            None => return Ok(reached(Finish::Done, running)),
        }
    }
}

/// Runs a module by its meaning until it ends, or k units were begun and another is due. The
/// frames are the bytes of each procedure's frame, by number; the input is the list of its words.
///
/// It keeps its own stack of what is still to be done, and recurs only over the depth of
/// expressions.
///
/// # Errors
///
/// Where there is no memory for what the run keeps.
pub fn interpret(
    alloc: Global,
    module: &Checked,
    frames: &[u32],
    input: &[i32],
    k: u32,
) -> Result<UnitOut, OutOfMemory>
    ensures { IfOk result (λ out. out ≡
        told (units_run «module».now frames.now input.now k)) }
{
    let out = run(&Setting {
        alloc,
        program: module,
        frames,
        input,
        granted: k,
    })?;
    Ok(out)
}
