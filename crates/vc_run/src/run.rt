// Runs of selected code.

ghost use Rattle.std.specs.Prelude.{◌≡◌, ◌+◌, IfOk, Some, replicate};
ghost use Rattle.vc_code.specs.Selected.{start as start_of};
ghost use Rattle.vc_run.specs.Ending.{Tells};
ghost use Rattle.vc_run.specs.Procs.{procs_of};
ghost use Rattle.vc_run.specs.Run.{code_run};
ghost use Rattle.vc_run.specs.Stands.{state_of, whole_of, machine_of};

use crate::calls::Waiting;
use crate::cause::narrow;
use crate::halt::Halt;
use crate::live::LiveCall;
use crate::machine::Execution;
use crate::out::{CodeEnding, CodeOut};
use crate::program::Program;
use pra_base::{OutOfMemory, ProcId, VProc};
use pra_list::Seq;
use std::alloc::Global;
use vc_code::{Held, Value};

const BODY: ProcId = ProcId(0);

/// The most words that a module's variables have.
const MAX_DATA_WORDS: u32 = 4_194_304;

// So many words that hold 0.
fn zeros(alloc: Global, words: u32) -> Result<Vec<Held>, OutOfMemory>
    ensures { IfOk result (λ zeros. zeros.items ≡ replicate words (Some (Value.Num 0))) }
{
    if words > MAX_DATA_WORDS {
        return Err(OutOfMemory);
    }
    Ok(vec![in alloc; Some(Value::Num(0)); words as usize]?)
}

impl Execution {
    /// The module's body before its first instruction, with the words that it may read. All data
    /// holds 0.
    ///
    /// # Errors
    ///
    /// Where there is no memory for it, or more data than a module has.
    fn start(
        alloc: Global,
        program: &Program,
        data_words: u32,
        frames: &[u32],
        input: &[i32],
    ) -> Result<Execution, OutOfMemory>
        ensures { IfOk result (λ run. whole_of run ≡ record {
          frames = frames.now;
          state = start_of (record {
            procs = procs_of program.now.codes.now;
            data_words = data_words;
          }) input.now;
        }) }
    {
        let code = program.procedure(BODY);
        let below = Waiting::new(alloc, frames)?;
        let words = code.vars.len().saturating_add(code.aggregates as usize);
        if !below.has_room(0, words) {
            return Err(OutOfMemory);
        }
        Ok(Execution {
            top: LiveCall::begin(alloc, BODY, code, Vec::new(alloc))?,
            below,
            pushed: Vec::new(alloc),
            globals: zeros(alloc, data_words)?,
            compared: None,
            input: Vec::from_slice(alloc, input)?,
            taken: 0,
            events: Seq::new(alloc),
        })
    }

    // What is told of it after so many steps.
    fn told(self, ending: CodeEnding, steps: u32) -> Result<CodeOut, OutOfMemory>
        ensures { IfOk result (λ out. let s = state_of self in out ≡ record {
          events = s.events;
          ending = ending;
          steps = steps;
          reads = s.taken;
        }) }
    {
        let Execution { events, taken, .. } = self;
        Ok(CodeOut {
            events,
            ending,
            steps,
            reads: narrow(taken)?,
        })
    }

    // What is told of it where it is over by a halt.
    fn ended(
        self,
        alloc: Global,
        program: &Program,
        halt: Halt,
        steps: u32,
    ) -> Result<CodeOut, OutOfMemory>
        ensures { Tells (machine_of program.now self) (state_of self) halt steps result }
    {
        match halt {
            Halt::Ended => self.told(CodeEnding::Ended, steps),
            Halt::Trap(kind) => self.told(CodeEnding::Trap(kind), steps),
            Halt::Stuck => {
                let cause = self.cause(alloc, program)?;
                self.told(CodeEnding::Stuck(cause), steps)
            }
            Halt::OutOfMemory => Err(OutOfMemory),
        }
    }
}

/// What selected code comes to after so many steps, fewer where it ends before: of procedures, the
/// module's body first, with so many words of data, the bytes of the frame of each procedure, and
/// the words that may be read. A frame past the end has no bytes. Nothing is asked of the code: what
/// is not there is stuck where it is called, jumped to, read or written.
///
/// # Errors
///
/// Where there is no memory for what it makes: also where all live calls together hold more than
/// 16,777,216 words, and where there is more data than a module can have.
pub fn run_code(
    alloc: Global,
    codes: &[&VProc],
    data_words: u32,
    frames: &[u32],
    input: &[i32],
    steps: u32,
) -> Result<CodeOut, OutOfMemory>
    ensures { IfOk result (λ out. out ≡
        code_run (record { procs = procs_of codes.now; data_words = data_words })
        frames.now input.now steps) }
{
    let program = Program::new(alloc, codes);
    let mut run = Execution::start(alloc, &program, data_words, frames, input)?;
    let mut made = 0;
    while made < steps {
        match run.step(alloc, &program) {
            Ok(()) => made += 1,
            Err(halt) => return run.ended(alloc, &program, halt, made + 1),
        }
    }
    run.told(CodeEnding::Going, made)
}
