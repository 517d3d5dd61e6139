// Runs of selected code.

ghost use Rattle.std.specs.Prelude.{◌≡◌, ◌↔◌, IfOk, IsTrue, None, Some, replicate};
ghost use Rattle.vc_code.specs.Machine.{view};
ghost use Rattle.vc_code.specs.Outcome.{progress};
ghost use Rattle.vc_code.specs.Selected.{start, vrun};
ghost use Rattle.vc_code.specs.Stands.{state_of};

use crate::live::LiveCall;
use crate::machine::Execution;
use crate::outcome::Outcome;
use crate::program::Program;
use crate::value::{Held, Value};
use pra_base::{OutOfMemory, ProcId, VModule};
use pra_list::Seq;
use std::alloc::{AllocError, Global};

const BODY: ProcId = ProcId(0);

// So many words that hold 0.
fn zeros(alloc: Global, words: u32) -> Result<Vec<Held>, AllocError>
    ensures { IfOk result (λ zeros. zeros.items ≡ replicate words (Some (Value.Num 0))) }
{
    vec![in alloc; Some(Value::Num(0)); words as usize]
}

impl Execution {
    /// The module's body before its first instruction, with the words that it may read. All data
    /// holds 0.
    ///
    /// # Errors
    ///
    /// Where there is no memory for it.
    pub fn start(alloc: Global, program: &Program, input: &[i32]) -> Result<Execution, OutOfMemory>
        ensures { IfOk result (λ run. state_of run ≡ start program.now.code.now input.now) }
    {
        let code = program.procedure(BODY);
        let top = LiveCall::begin(alloc, BODY, code, Vec::new(alloc))?;
        let globals = zeros(alloc, program.code.data_words)?;
        Ok(Execution {
            top,
            below: Vec::new(alloc),
            pushed: Vec::new(alloc),
            globals,
            compared: None,
            input: Vec::from_slice(alloc, input)?,
            taken: 0,
            events: Seq::new(alloc),
            ending: None,
        })
    }

    pub fn is_going(&self) -> bool
        ensures { IsTrue result ↔ ((state_of self.now).over ≡ None) }
    {
        self.ending.is_none()
    }

    /// What the machine has come to.
    pub fn outcome(self) -> Outcome
        ensures { progress result ≡ view (state_of self) }
    {
        let Execution {
            events,
            taken,
            ending,
            ..
        } = self;
        Outcome {
            ending,
            events,
            taken,
        }
    }
}

/// What selected code has come to after so many steps, fewer where it ends before: of a module,
/// with the bytes of the frame of each of its procedures, and the words that it may read. A frame
/// past the end has no bytes. Nothing is asked of the code: what is not there is stuck where it is
/// called, jumped to, read or written.
///
/// # Errors
///
/// Where there is no memory for what it makes.
pub fn run_selected(
    alloc: Global,
    code: &VModule,
    frames: &[u32],
    input: &[i32],
    steps: u32,
) -> Result<Outcome, OutOfMemory>
    ensures { IfOk result (λ outcome. progress outcome ≡ vrun code.now frames.now input.now steps) }
{
    let program = Program::new(alloc, code, frames);
    let mut run = Execution::start(alloc, &program, input)?;
    let mut left = steps;
    while left > 0 && run.is_going() {
        run.step(alloc, &program)?;
        left -= 1;
    }
    Ok(run.outcome())
}
