// What each instruction does, in the order of `specs/Effect`.

ghost use Rattle.std.specs.Prelude.{◌≡◌, ◌≤◌, ◌*◌, length};
ghost use Rattle.ia_code.specs.Image.{max_data_words};
ghost use Rattle.ia_code.specs.Regions.{stack_base};
ghost use Rattle.ia_step.specs.State.{with_register};
ghost use Rattle.ia_step.specs.Registers.{address_of};
ghost use Rattle.ia_step.specs.Effect.{lies_in, branch as branch_of, set as set_of};
ghost use Rattle.ia_step.specs.Effect.{load as load_of, store as store_of, read_rm as read_rm_of};
ghost use Rattle.ia_step.specs.Effect.{write_rm as write_rm_of, push as push_of, pop as pop_of};
ghost use Rattle.ia_step.specs.Effect.{mov as mov_of, alu as alu_of, imul as imul_of};
ghost use Rattle.ia_step.specs.Effect.{neg as neg_of, shift as shift_of, idiv as idiv_of};
ghost use Rattle.ia_step.specs.Effect.{service as service_of};
ghost use Rattle.ia_step.specs.Effect.{effect as effect_of, keep_result as keep_result_of};
ghost use Rattle.ia_step.specs.Effect.{take_input as take_input_of, jump as jump_of};
ghost use Rattle.ia_step.specs.Effect.{serve as serve_of, trapped};
ghost use Rattle.ia_code.specs.Services.{trap_of};
ghost use Rattle.ia_step.specs.Views.{OnResult, OnResultWith, OnDone};

use super::Processor;
use crate::arithmetic::{
    compute, difference, flags, flags_of_bits, flags_of_difference, flags_of_product,
    flags_of_shift, product, shifted, sign_word, sum, unknown_flags, with_low_byte,
};
use crate::divide::divide;
use crate::memory::{put_word, word};
use crate::out::{Ending, FaultKind, StepOut};
use ia_code::ins::{AluOp, Ins, MemAddr, Reg, Rm};
use ia_code::regions::{DATA_BASE, STACK_BASE};
use ia_code::services::{Service, trap_kind};
use pra_base::{ShiftOp, TrapKind};

fn lies_within(base: u32, region: &[u8], address: u32) -> bool
    requires low { base ≤ stack_base }
    requires small { length region.now ≤ max_data_words * 4 }
    ensures { result ≡ lies_in address base region.now }
{
    base <= address && u64::from(address) + 4 <= u64::from(base) + region.len() as u64
}

impl Processor {
    #[tactic(auto, unfolding(crate::specs::Effect::load))]
    fn load_word(&self, address: u32) -> Result<u32, FaultKind>
        ensures { result ≡ load_of self.now address }
    {
        if lies_within(DATA_BASE, &self.storage, address) {
            Ok(word(&self.storage, (address - DATA_BASE) as usize))
        } else if lies_within(STACK_BASE, &self.stack, address) {
            Ok(word(&self.stack, (address - STACK_BASE) as usize))
        } else {
            Err(FaultKind::Access)
        }
    }

    #[tactic(auto, unfolding(crate::specs::Effect::store))]
    fn store_word(&mut self, address: u32, value: u32) -> Result<(), FaultKind>
        ensures { OnResult self.old self.new result (store_of self.old address value) }
    {
        if lies_within(DATA_BASE, &self.storage, address) {
            put_word(&mut self.storage, (address - DATA_BASE) as usize, value);
            Ok(())
        } else if lies_within(STACK_BASE, &self.stack, address) {
            put_word(&mut self.stack, (address - STACK_BASE) as usize, value);
            Ok(())
        } else {
            Err(FaultKind::Access)
        }
    }

    fn load_operand(&self, operand: &MemAddr) -> Result<u32, FaultKind>
        ensures { result ≡ load_of self.now (address_of self.now.regs operand.now) }
    {
        let address = self.regs.address(operand);
        self.load_word(address)
    }

    #[inline]
    #[tactic(auto, unfolding(crate::specs::Effect::read_rm))]
    fn read_rm(&self, rm: &Rm) -> Result<u32, FaultKind>
        ensures { result ≡ read_rm_of self.now rm.now }
    {
        match rm {
            Rm::Reg(reg) => Ok(self.regs.get(*reg)),
            Rm::Mem(operand) => self.load_operand(operand),
        }
    }

    fn set_register(&mut self, reg: Reg, value: u32)
        ensures { self.new ≡ with_register self.old reg value }
    {
        self.regs.set(reg, value);
    }

    #[inline]
    #[tactic(auto, unfolding(crate::specs::Effect::write_rm))]
    fn write_rm(&mut self, rm: &Rm, value: u32) -> Result<(), FaultKind>
        ensures { OnResult self.old self.new result (write_rm_of self.old rm.now value) }
    {
        match rm {
            Rm::Reg(reg) => {
                self.set_register(*reg, value);
                Ok(())
            }
            Rm::Mem(operand) => {
                let address = self.regs.address(operand);
                self.store_word(address, value)
            }
        }
    }

    #[tactic(auto, unfolding(crate::specs::Effect::push))]
    fn push(&mut self, value: u32) -> Result<(), FaultKind>
        ensures { OnResult self.old self.new result (push_of self.old value) }
    {
        let top = difference(self.regs.esp, 4);
        self.store_word(top, value)?;
        self.regs.esp = top;
        Ok(())
    }

    #[tactic(auto, unfolding(crate::specs::Effect::pop))]
    fn pop(&mut self) -> Result<u32, FaultKind>
        ensures { OnResultWith self.old self.new result (pop_of self.old) }
    {
        let value = self.load_word(self.regs.esp)?;
        self.regs.esp = sum(self.regs.esp, 4);
        Ok(value)
    }

    #[tactic(auto, unfolding(crate::specs::Effect::mov))]
    fn mov(&mut self, dest: &Rm, src: u32) -> Result<StepOut, FaultKind>
        ensures { OnDone self.old self.new result (mov_of self.old dest.now src) }
    {
        self.write_rm(dest, src)?;
        Ok(StepOut::Going)
    }

    fn keep_result(&mut self, op: AluOp, dest: &Rm, value: u32) -> Result<(), FaultKind>
        ensures { OnResult self.old self.new result (keep_result_of op self.old dest.now value) }
    {
        match op {
            AluOp::Cmp => Ok(()),
            _ => self.write_rm(dest, value),
        }
    }

    #[inline]
    #[tactic(auto, unfolding(crate::specs::Effect::alu))]
    fn alu(&mut self, op: AluOp, dest: &Rm, src: u32) -> Result<StepOut, FaultKind>
        ensures { OnDone self.old self.new result (alu_of op self.old dest.now src) }
    {
        let value = self.read_rm(dest)?;
        self.keep_result(op, dest, compute(op, value, src))?;
        self.flags = flags(op, value, src);
        Ok(StepOut::Going)
    }

    #[tactic(auto, unfolding(crate::specs::Effect::imul))]
    fn imul(&mut self, dest: Reg, a: u32, b: u32) -> Result<StepOut, FaultKind>
        ensures { OnDone self.old self.new result (imul_of self.old dest a b) }
    {
        self.set_register(dest, product(a, b));
        self.flags = flags_of_product(a, b);
        Ok(StepOut::Going)
    }

    #[tactic(auto, unfolding(crate::specs::Effect::neg))]
    fn neg(&mut self, dest: &Rm) -> Result<StepOut, FaultKind>
        ensures { OnDone self.old self.new result (neg_of self.old dest.now) }
    {
        let value = self.read_rm(dest)?;
        self.write_rm(dest, difference(0, value))?;
        self.flags = flags_of_difference(0, value);
        Ok(StepOut::Going)
    }

    #[tactic(auto, unfolding(crate::specs::Effect::shift))]
    fn shift(&mut self, op: ShiftOp, dest: &Rm, count: u8) -> Result<StepOut, FaultKind>
        ensures { OnDone self.old self.new result (shift_of op self.old dest.now count) }
    {
        let value = self.read_rm(dest)?;
        let shifted = shifted(op, value, count);
        let flags = flags_of_shift(self.flags, shifted, count);
        self.write_rm(dest, shifted)?;
        self.flags = flags;
        Ok(StepOut::Going)
    }

    #[tactic(auto, unfolding(crate::specs::Effect::idiv))]
    fn idiv(&mut self, src: u32) -> Result<StepOut, FaultKind>
        ensures { OnDone self.old self.new result (idiv_of self.old src) }
    {
        let dividend = u64::from(self.regs.edx) * 0x1_0000_0000 + u64::from(self.regs.eax);
        match divide(dividend, src) {
            None => Err(FaultKind::Divide),
            Some((quotient, remainder)) => {
                self.regs.eax = quotient;
                self.regs.edx = remainder;
                self.flags = unknown_flags();
                Ok(StepOut::Going)
            }
        }
    }

    fn jump(&mut self, displacement: i32)
        ensures { self.new ≡ jump_of self.old displacement }
    {
        self.eip = sum(self.eip, displacement.cast_unsigned());
    }

    fn branch(&mut self, displacement: i32, met: Option<bool>) -> Result<StepOut, FaultKind>
        ensures { OnDone self.old self.new result (branch_of self.old displacement met) }
    {
        match met {
            None => Err(FaultKind::Flag),
            Some(true) => {
                self.jump(displacement);
                Ok(StepOut::Going)
            }
            Some(false) => Ok(StepOut::Going),
        }
    }

    fn set_byte(&mut self, dest: Reg, met: Option<bool>) -> Result<StepOut, FaultKind>
        ensures { OnDone self.old self.new result (set_of self.old dest met) }
    {
        match met {
            None => Err(FaultKind::Flag),
            Some(bit) => {
                let value = with_low_byte(self.regs.get(dest), bit);
                self.set_register(dest, value);
                Ok(StepOut::Going)
            }
        }
    }

    fn take_input(&mut self) -> StepOut
        ensures { take_input_of self.old self.old.input ≡ Ok (self.new, result) }
    {
        match self.input.get(self.taken) {
            None => {
                self.end(Ending::Trap(TrapKind::Input));
                StepOut::Trap(TrapKind::Input)
            }
            Some(word) => {
                self.regs.eax = word.cast_unsigned();
                self.taken += 1;
                StepOut::Going
            }
        }
    }

    #[tactic(auto, unfolding(crate::specs::Effect::service))]
    fn service(&mut self, number: u8) -> Result<StepOut, FaultKind>
        ensures { OnDone self.old self.new result (service_of self.old number) }
    {
        match Service::from_number(number) {
            None => Err(FaultKind::Service),
            Some(called) => self.serve(called),
        }
    }

    fn serve(&mut self, called: Service) -> Result<StepOut, FaultKind>
        ensures { OnDone self.old self.new result (serve_of self.old (Some called)) }
    {
        match called {
            Service::End => {
                self.end(Ending::Ended);
                Ok(StepOut::Ended)
            }
            Service::WriteNumber => Ok(StepOut::Wrote(self.regs.eax.cast_signed())),
            Service::WriteLine => Ok(StepOut::Line),
            Service::ReadNumber => Ok(self.take_input()),
            Service::Trap => self.trap(),
        }
    }

    fn trap(&mut self) -> Result<StepOut, FaultKind>
        ensures { OnDone self.old self.new result (trapped self.old (trap_of self.old.regs.eax)) }
    {
        match trap_kind(self.regs.eax) {
            None => Err(FaultKind::Service),
            Some(kind) => {
                self.end(Ending::Trap(kind));
                Ok(StepOut::Trap(kind))
            }
        }
    }

    // Executes an instruction, where EIP is already that of the next one.
    #[tactic(auto, unfolding(crate::specs::Effect::effect))]
    pub(super) fn perform(&mut self, ins: &Ins) -> Result<StepOut, FaultKind>
        ensures { OnDone self.old self.new result (effect_of self.old ins.now) }
    {
        match ins {
            Ins::MovRmR(dest, src) => {
                let value = self.regs.get(*src);
                self.mov(dest, value)
            }
            Ins::MovRRm(dest, src) => {
                let value = self.read_rm(src)?;
                self.mov(&Rm::Reg(*dest), value)
            }
            Ins::MovRI(dest, n) => self.mov(&Rm::Reg(*dest), n.cast_unsigned()),
            Ins::MovRmI(dest, n) => self.mov(dest, n.cast_unsigned()),
            Ins::AluRmR(op, dest, src) => {
                let value = self.regs.get(*src);
                self.alu(*op, dest, value)
            }
            Ins::AluRRm(op, dest, src) => {
                let value = self.read_rm(src)?;
                self.alu(*op, &Rm::Reg(*dest), value)
            }
            Ins::AluRmI(op, dest, n) => self.alu(*op, dest, n.cast_unsigned()),
            Ins::AluRmB(op, dest, n) => self.alu(*op, dest, i32::from(*n).cast_unsigned()),
            Ins::ImulRRm(dest, src) => {
                let value = self.read_rm(src)?;
                let factor = self.regs.get(*dest);
                self.imul(*dest, factor, value)
            }
            Ins::ImulI(dest, src, n) => {
                let value = self.read_rm(src)?;
                self.imul(*dest, n.cast_unsigned(), value)
            }
            Ins::ImulB(dest, src, n) => {
                let value = self.read_rm(src)?;
                self.imul(*dest, i32::from(*n).cast_unsigned(), value)
            }
            Ins::Neg(dest) => self.neg(dest),
            Ins::Shift(op, dest, n) => self.shift(*op, dest, *n),
            Ins::Idiv(src) => {
                let value = self.read_rm(src)?;
                self.idiv(value)
            }
            Ins::Cdq => {
                self.regs.edx = sign_word(self.regs.eax);
                Ok(StepOut::Going)
            }
            Ins::Lea(dest, operand) => {
                let address = self.regs.address(operand);
                self.set_register(*dest, address);
                Ok(StepOut::Going)
            }
            Ins::PushR(src) => {
                let value = self.regs.get(*src);
                self.push(value)?;
                Ok(StepOut::Going)
            }
            Ins::PopR(dest) => {
                let value = self.pop()?;
                self.set_register(*dest, value);
                Ok(StepOut::Going)
            }
            Ins::PushM(src) => {
                let value = self.load_operand(src)?;
                self.push(value)?;
                Ok(StepOut::Going)
            }
            Ins::PushI(n) => {
                self.push(n.cast_unsigned())?;
                Ok(StepOut::Going)
            }
            Ins::Call(displacement) => {
                let eip = self.eip;
                self.push(eip)?;
                self.jump(*displacement);
                Ok(StepOut::Going)
            }
            Ins::Ret => {
                self.eip = self.pop()?;
                Ok(StepOut::Going)
            }
            Ins::RetI(n) => {
                self.eip = self.pop()?;
                self.regs.esp = sum(self.regs.esp, u32::from(*n));
                Ok(StepOut::Going)
            }
            Ins::Jmp(displacement) => {
                self.jump(*displacement);
                Ok(StepOut::Going)
            }
            Ins::Jcc(condition, displacement) => {
                let met = self.flags.holds(*condition);
                self.branch(*displacement, met)
            }
            Ins::Set(condition, dest) => {
                let met = self.flags.holds(*condition);
                self.set_byte(*dest, met)
            }
            Ins::Movzx(dest, src) => {
                let value = self.regs.get(*src) % 256;
                self.set_register(*dest, value);
                Ok(StepOut::Going)
            }
            Ins::Xchg(dest, src) => {
                let value = self.regs.get(*dest);
                let other = self.regs.get(*src);
                self.set_register(*dest, other);
                self.set_register(*src, value);
                Ok(StepOut::Going)
            }
            Ins::Test(a, b) => {
                self.flags = flags_of_bits(self.regs.get(*a) & self.regs.get(*b));
                Ok(StepOut::Going)
            }
            Ins::Int(number) => self.service(*number),
        }
    }
}
