// Which instruction is executed, and how control leaves a block.

ghost use Rattle.std.specs.Prelude.{◌≡◌, ◌<◌, OnSome, Some};
ghost use Rattle.pra_base.specs.Code.{instr_at, end_of};
ghost use Rattle.vc_code.specs.Machine.{branched, leave as leave_of, act as act_of};
ghost use Rattle.vc_code.specs.Machine.{step as step_of};
ghost use Rattle.vc_code.specs.Selected.{next_of, jumps, code_of};
ghost use Rattle.vc_run.specs.Procs.{procs_of};
ghost use Rattle.vc_run.specs.Stands.{machine_of, Makes};

use super::Execution;
use super::operands::targets;
use crate::halt::Halt;
use crate::program::Program;
use pra_base::{BlockId, Cond, End, VInstr, VProc};
use std::alloc::Global;
use vc_code::Value;
use vc_code::arithmetic::compares;

pub fn instruction(code: &VProc, block: BlockId, index: usize) -> Option<VInstr>
    ensures value { result ≡ instr_at code.now block.0 index }
    ensures room { OnSome result (index < usize.MAX) }
{
    match code.blocks.get(block.0 as usize) {
        None => None,
        Some(block) => {
            if index < block.code.len() {
                Some(block.code[index])
            } else {
                None
            }
        }
    }
}

// Where control goes at a block's end; a block that is not there jumps to block 0.
fn end(code: &VProc, block: BlockId) -> End
    ensures { result ≡ end_of code.now block.0 }
{
    match code.blocks.get(block.0 as usize) {
        Some(block) => block.end,
        None => End::Jump(BlockId(0)),
    }
}

impl Execution {
    // Whatever an instruction does.
    fn perform_any(
        &mut self,
        alloc: Global,
        program: &Program,
        code: &VProc,
        i: VInstr,
    ) -> Result<(), Halt>
        requires { self.old.top.index < usize.MAX }
        ensures { Makes self.old self.new result
            (λ s. act_of (machine_of program.now self.old) (next_of code.now s.top (Some i)) s) }
    {
        let here = self.here()?;
        match self.operation(&here, code, &i) {
            None => Err(Halt::Stuck),
            Some(action) => self.apply(alloc, program, targets(&i), action),
        }
    }

    fn perform_compared(
        &mut self,
        alloc: Global,
        program: &Program,
        code: &VProc,
        i: VInstr,
    ) -> Result<(), Halt>
        requires { self.old.top.index < usize.MAX }
        ensures { Makes self.old self.new result
            (λ s. act_of (machine_of program.now self.old) (next_of code.now s.top (Some i)) s) }
    {
        match self.comparison(code, &i) {
            Some((a, b)) => self.compare((None, None), a, b),
            None => self.perform_any(alloc, program, code, i),
        }
    }

    fn perform(
        &mut self,
        alloc: Global,
        program: &Program,
        code: &VProc,
        i: VInstr,
    ) -> Result<(), Halt>
        requires { self.old.top.index < usize.MAX }
        ensures { Makes self.old self.new result
            (λ s. act_of (machine_of program.now self.old) (next_of code.now s.top (Some i)) s) }
    {
        match self.computed(code, &i) {
            Some((v, n)) => self.give((Some(v), None), Value::Num(n)),
            None => self.perform_compared(alloc, program, code, i),
        }
    }

    fn jump(&mut self, code: &VProc, block: BlockId) -> Result<(), Halt>
        ensures { Makes self.old self.new result (jumps code.now block.0) }
    {
        match code.blocks.get(block.0 as usize) {
            None => Err(Halt::Stuck),
            Some(_) => {
                self.top.jump(block);
                self.compared = None;
                Ok(())
            }
        }
    }

    fn branch(
        &mut self,
        program: &Program,
        cond: Cond,
        one: BlockId,
        other: BlockId,
    ) -> Result<(), Halt>
        ensures { Makes self.old self.new result
            (λ s. branched (machine_of program.now self.old) cond one.0 other.0 s.compared s) }
    {
        let code = program.procedure(self.top.proc);
        match self.compared {
            None => Err(Halt::Stuck),
            Some((a, b)) => {
                let target = if compares(cond, a, b) { one } else { other };
                self.jump(code, target)
            }
        }
    }

    fn leave(&mut self, program: &Program, end: End) -> Result<(), Halt>
        ensures { Makes self.old self.new result (leave_of (machine_of program.now self.old) end) }
    {
        match end {
            End::Jump(block) => self.jump(program.procedure(self.top.proc), block),
            End::Branch(cond, one, other) => self.branch(program, cond, one, other),
            End::Return => self.leave_call(),
        }
    }

    fn act(&mut self, alloc: Global, program: &Program, code: &VProc) -> Result<(), Halt>
        requires { code.now ≡ code_of (procs_of program.now.codes.now) self.old.top.proc.0 }
        ensures { Makes self.old self.new result
            (λ s. act_of (machine_of program.now self.old) ((machine_of program.now self.old).next s.top) s) }
    {
        match instruction(code, self.top.block, self.top.index) {
            Some(i) => self.perform(alloc, program, code, i),
            None => self.leave(program, end(code, self.top.block)),
        }
    }

    /// Makes one step.
    ///
    /// # Errors
    ///
    /// Where the run is over by it, and where there is no memory for what it makes; then the machine
    /// means nothing more.
    pub fn step(&mut self, alloc: Global, program: &Program) -> Result<(), Halt>
        ensures { Makes self.old self.new result (step_of (machine_of program.now self.old)) }
    {
        let code = program.procedure(self.top.proc);
        self.act(alloc, program, code)
    }
}
