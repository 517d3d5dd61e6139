// The processor with its memory and what its services need: its start, fetching and executing. What
// each instruction does is in `processor/effect.rt`.

ghost use Rattle.std.specs.Prelude.{◌≡◌, length, IfOk};
ghost use Rattle.ia_step.specs.Memory.{zeros as zeros_of};
ghost use Rattle.ia_code.specs.Image.{IsImage};
ghost use Rattle.ia_step.specs.State.{start, over, at};
ghost use Rattle.ia_step.specs.Views.{OnDone};
ghost use Rattle.ia_step.specs.Step.{fetch as fetch_of, execute as execute_of};
ghost use Rattle.ia_step.specs.Effect.{effect as effect_of};

use crate::arithmetic::unknown_flags;
use crate::flags::Flags;
use crate::out::{Ending, FaultKind, StepOut};
use crate::registers::Registers;
use ia_code::decoder::decode;
use ia_code::image::Image;
use ia_code::ins::Ins;
use ia_code::regions::{CODE_BASE, STACK_LENGTH, STACK_TOP};
use pra_base::OutOfMemory;
use std::alloc::{AllocError, Global};
use std::marker::Model;

mod effect;

const WORD_BYTES: usize = 4;

/// A machine as the definition has it.
#[derive(Drop)]
pub struct Processor {
    regs: Registers,
    flags: Flags,
    eip: u32,
    code: Vec<u8>,
    storage: Vec<u8>,
    stack: Vec<u8>,
    input: Vec<i32>,
    taken: usize,
    ending: Ending,
}

impl Model for Processor {
    ghost use Rattle.ia_code.specs.Image.{max_code_bytes, max_data_words};
    ghost use Rattle.ia_code.specs.Regions.{stack_length};
    ghost use Rattle.ia_step.specs.State.{State};
    ghost use Rattle.std.specs.Prelude.{◌≤◌, ◌≡◌, ◌*◌, length, drop};

    ghost Value = { State };

    ghost view = { λ m. record {
      regs = m.regs;
      flags = m.flags;
      eip = m.eip;
      code = m.code.items;
      storage = m.storage.items;
      stack = m.stack.items;
      input = drop m.taken m.input.items;
      taken = m.taken;
      ending = m.ending;
    } };

    ghost invariant = { λ m. (length m.code.items ≤ max_code_bytes)
        × (length m.storage.items ≤ max_data_words * 4)
        × (length m.stack.items ≡ stack_length)
        × (m.taken ≤ length m.input.items) };
}

impl Processor {
    pub fn load(alloc: Global, image: &Image, input: Vec<i32>) -> Result<Processor, OutOfMemory>
        requires { IsImage image.now }
        ensures { IfOk result (λ processor. processor ≡ start image.now input.items) }
    {
        let code = Vec::from_slice(alloc, image.code.as_slice())?;
        let storage = zeros(alloc, image.data_words as usize * WORD_BYTES)?;
        let stack = zeros(alloc, STACK_LENGTH as usize)?;
        Ok(Processor {
            regs: Registers {
                eax: 0,
                ecx: 0,
                edx: 0,
                ebx: 0,
                esp: STACK_TOP,
                ebp: 0,
                esi: 0,
                edi: 0,
            },
            flags: unknown_flags(),
            eip: CODE_BASE,
            code,
            storage,
            stack,
            input,
            taken: 0,
            ending: Ending::Going,
        })
    }

    pub fn eip(&self) -> u32
        ensures { result ≡ self.now.eip }
    {
        self.eip
    }

    pub fn taken(&self) -> usize
        ensures { result ≡ self.now.taken }
    {
        self.taken
    }

    pub fn ending(&self) -> Ending
        ensures { result ≡ self.now.ending }
    {
        self.ending
    }

    /// The instruction at EIP, and the EIP of the next one.
    #[tactic(auto, unfolding(crate::specs::Step::fetch))]
    pub fn fetch(&self) -> Result<(Ins, u32), FaultKind>
        ensures { result ≡ fetch_of self.now }
    {
        if self.eip < CODE_BASE || (self.eip - CODE_BASE) as usize >= self.code.len() {
            return Err(FaultKind::Fetch);
        }
        match decode(&self.code, (self.eip - CODE_BASE) as usize) {
            Err(_) => Err(FaultKind::Decode),
            Ok((ins, len)) => Ok((ins, self.eip + len as u32)),
        }
    }

    /// Executes what was fetched at EIP. After a fault all is as it was.
    pub fn execute(&mut self, fetched: &Result<(Ins, u32), FaultKind>) -> Result<StepOut, FaultKind>
        requires { fetched.now ≡ fetch_of self.old }
        ensures { OnDone self.old self.new result (execute_of self.old) }
    {
        match fetched {
            Err(kind) => Err(*kind),
            Ok((ins, next)) => self.execute_before(ins, *next),
        }
    }

    // Executes an instruction that stands before another one.
    fn execute_before(&mut self, ins: &Ins, next: u32) -> Result<StepOut, FaultKind>
        ensures { OnDone self.old self.new result (effect_of (at self.old next) ins.now) }
    {
        let eip = self.eip;
        self.eip = next;
        let done = self.perform(ins);
        if done.is_err() {
            self.eip = eip;
        }
        done
    }

    pub fn end(&mut self, ending: Ending)
        ensures { self.new ≡ over self.old ending }
    {
        self.ending = ending;
    }
}

#[tactic(auto, unfolding(crate::specs::Memory::zeros))]
fn zeros(alloc: Global, n: usize) -> Result<Vec<u8>, AllocError>
    ensures items { IfOk result (λ v. v.items ≡ zeros_of n) }
    ensures len { IfOk result (λ v. length v.items ≡ n) }
{
    vec![in alloc; 0u8; n]
}
