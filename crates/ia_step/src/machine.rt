// The machine: loading, one step, and runs.

ghost use Rattle.std.specs.Prelude.{◌≡◌, ◌≤◌, ℕ, IfOk, OnOk, OnErr};
ghost use Rattle.ia_code.specs.Image.{IsImage};
ghost use Rattle.ia_step.specs.State.{start};
ghost use Rattle.ia_step.specs.Views.{OnDone};
ghost use Rattle.ia_step.specs.Step.{execute as execute_of, step as step_of};
ghost use Rattle.ia_step.specs.Run.{ran, told, noted, is_going as is_going_of};

use crate::fetched::{Fetched, look_up, nothing_fetched};
use crate::out::{Ending, FaultKind, RunOut, StepOut};
use crate::processor::Processor;
use ia_code::image::Image;
use pra_base::{OutEvent, OutOfMemory};
use pra_list::Seq;
use std::alloc::{AllocError, Global};
use std::marker::Model;

/// A machine, which stands before its next instruction or has ended.
#[derive(Drop)]
pub struct Machine {
    processor: Processor,
    entries: Vec<Fetched>,
}

impl Model for Machine {
    ghost use Rattle.ia_step.specs.State.{State};
    ghost use Rattle.ia_step.specs.Fetched.{AreFetched};

    ghost Value = { State };

    ghost view = { λ m. m.processor };

    ghost invariant = { λ m. AreFetched m.processor.code m.entries.items };
}

impl Machine {
    /// A machine at the start of an image, with the words that it may read.
    ///
    /// # Errors
    ///
    /// Where there is no memory for its regions.
    pub fn load(alloc: Global, image: &Image, input: Vec<i32>) -> Result<Machine, OutOfMemory>
        requires { IsImage image.now }
        ensures { IfOk result (λ machine. machine ≡ start image.now input.items) }
    {
        let processor = Processor::load(alloc, image, input)?;
        let entries = nothing_fetched(alloc)?;
        Ok(Machine { processor, entries })
    }

    /// Makes one step, or answers the ending again where the machine has ended. It takes no memory.
    #[tactic(auto, unfolding(crate::specs::Step::step))]
    pub fn step(&mut self) -> StepOut
        ensures { (self.new, result) ≡ step_of self.old }
    {
        match self.processor.ending() {
            Ending::Going => {}
            Ending::Ended => return StepOut::Ended,
            Ending::Trap(kind) => return StepOut::Trap(kind),
            Ending::Fault(kind) => return StepOut::Fault(kind),
        }
        match self.execute() {
            Err(kind) => {
                self.processor.end(Ending::Fault(kind));
                StepOut::Fault(kind)
            }
            Ok(out) => out,
        }
    }

    /// Makes at most `m` steps, fewer where the machine ends before. The answer tells of this call
    /// alone.
    ///
    /// # Errors
    ///
    /// Where there is no memory for the events; the machine stands after the steps that it took.
    pub fn run(&mut self, alloc: Global, m: u32) -> Result<RunOut, OutOfMemory>
        ensures told { IfOk result (λ out. out ≡ told self.old (ran self.old m)) }
        ensures state { OnOk result (self.new ≡ (ran self.old m).state) }
        ensures memory { OnErr result ((k : ℕ) × (k ≤ m) × (self.new ≡ (ran self.old k).state)) }
    {
        let mut events = Seq::new(alloc);
        let mut steps = 0u32;
        let taken = self.processor.taken();
        while steps < m && self.is_going() {
            let out = self.step();
            steps += 1;
            note(&mut events, out)?;
        }
        Ok(RunOut {
            events,
            ending: self.processor.ending(),
            steps,
            reads: (self.processor.taken() - taken) as u32,
        })
    }

    fn is_going(&self) -> bool
        ensures { result ≡ is_going_of self.now.ending }
    {
        matches!(self.processor.ending(), Ending::Going)
    }

    // Fetches and executes the instruction at EIP.
    fn execute(&mut self) -> Result<StepOut, FaultKind>
        ensures { OnDone self.old self.new result (execute_of self.old) }
    {
        let index = look_up(&mut self.entries, &self.processor);
        self.processor.execute(&self.entries[index].answer)
    }
}

fn note(events: &mut Seq<OutEvent>, out: StepOut) -> Result<(), AllocError>
    ensures { OnOk result (events.new ≡ noted events.old out) }
{
    match out {
        StepOut::Wrote(n) => events.push(OutEvent::Number(n)),
        StepOut::Line => events.push(OutEvent::Line),
        _ => Ok(()),
    }
}
