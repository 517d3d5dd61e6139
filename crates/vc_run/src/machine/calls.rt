// Calls and returns.

ghost use Rattle.std.specs.Prelude.{◌≡◌, ◌+◌, ◌<◌, IfOk, List, OnOk};
ghost use Rattle.vc_code.specs.Machine.{depth, live_in, entered, enters, returned, with_call};
ghost use Rattle.vc_code.specs.Selected.{begun};
ghost use Rattle.vc_code.specs.Selected.{shape};
ghost use Rattle.pra_base.specs.declared.code.VProc.{VProc};
ghost use Rattle.vc_run.specs.Calls.{after};
ghost use Rattle.vc_run.specs.Stands.{changed, state_of, whole_of, waiting, sizes_of, machine_of};
ghost use Rattle.vc_run.specs.Stands.{Makes};

use super::Execution;
use crate::calls::sum_of;
use crate::halt::Halt;
use crate::live::{LiveCall, Targets};
use crate::program::Program;
use pra_base::code::STACK_LIMIT;
use pra_base::{OutOfMemory, ProcId, TrapKind, VProc};
use std::alloc::Global;
use std::mem;

impl Execution {
    // The bytes of all frames with one of the procedure on top.
    fn depth_with(&self, proc: ProcId) -> Result<u64, OutOfMemory>
        ensures { IfOk result (λ bytes. (procs : List VProc) →
            let sizes = shape procs self.now.below.frames in
            bytes ≡ (sizes proc.0).frame_size + depth sizes (live_in (state_of self.now))) }
    {
        let here = self.here()?;
        sum_of(here.sum, self.below.frame(proc))
    }

    // The caller goes behind its call and waits, and the callee begins with the pushes as its
    // arguments.
    fn enter(&mut self, alloc: Global, proc: ProcId, code: &VProc) -> Result<(), OutOfMemory>
        requires { self.old.top.index < usize.MAX }
        ensures { OnOk result (let s = state_of self.old in
            whole_of self.new ≡ changed (whole_of self.old)
            (with_call s (begun proc.0 code.now s.pushed) (waiting self.old))) }
    {
        let words = code.vars.len().saturating_add(code.aggregates as usize);
        let more = words.saturating_add(self.pushed.len());
        if !self.below.has_room(self.top.words(), more) {
            return Err(OutOfMemory);
        }
        let mut arguments = mem::replace(&mut self.pushed, Vec::new(alloc));
        arguments.reverse();
        let callee = LiveCall::begin(alloc, proc, code, arguments)?;
        self.top.index += 1;
        let caller = mem::replace(&mut self.top, callee);
        self.below.push(caller)?;
        self.compared = None;
        Ok(())
    }

    fn call_there(&mut self, alloc: Global, proc: ProcId, code: &VProc) -> Result<(), Halt>
        requires { self.old.top.index < usize.MAX }
        ensures { (procs : List VProc) → Makes self.old self.new result (λ s.
            let callee = begun proc.0 code.now s.pushed in
            entered (shape procs self.old.below.frames) s callee (waiting self.old)) }
    {
        if self.depth_with(proc)? > STACK_LIMIT {
            return Err(Halt::Trap(TrapKind::Stack));
        }
        self.enter(alloc, proc, code)?;
        Ok(())
    }

    /// Calls a procedure, at an instruction that writes these variables, which is none of those
    /// that call.
    ///
    /// # Errors
    ///
    /// Where the call is stuck or traps, and where there is no memory for it.
    pub fn call(
        &mut self,
        alloc: Global,
        program: &Program,
        to: Targets,
        proc: ProcId,
    ) -> Result<(), Halt>
        requires { self.old.top.index < usize.MAX }
        ensures { Makes self.old self.new result
            (enters (machine_of program.now self.old) (after self.old.top to) proc.0) }
    {
        if to.0.is_some() {
            return Err(Halt::Stuck);
        }
        match program.find(proc) {
            None => Err(Halt::Stuck),
            Some(code) => {
                if code.blocks.is_empty() {
                    return Err(Halt::Stuck);
                }
                self.call_there(alloc, proc, code)
            }
        }
    }

    /// Leaves the running call.
    ///
    /// # Errors
    ///
    /// Where it is the module's body, which ends the run.
    pub fn leave_call(&mut self) -> Result<(), Halt>
        ensures { Makes self.old self.new result (λ s. returned s s.below) }
    {
        match self.below.pop() {
            None => Err(Halt::Ended),
            Some(caller) => {
                self.top = caller;
                self.compared = None;
                Ok(())
            }
        }
    }
}
