// Instructions whose form follows their operands.

ghost use Rattle.std.specs.Prelude.{◌≡◌};
ghost use Rattle.pra_base.specs.Places.{number};
ghost use Rattle.ia_emit.specs.Emission.{rm_of as rm, reg_of as reg, set as set_to, copy as copied};
ghost use Rattle.ia_emit.specs.Emission.{alu_number as number_combined, combine as combined};
ghost use Rattle.ia_emit.specs.Emission.{multiply_number as number_multiplied};
ghost use Rattle.ia_emit.specs.Emission.{multiply as multiplied, push as pushed, store as stored};
ghost use Rattle.ia_emit.specs.Emission.{call_service as service_called};
ghost use Rattle.ia_emit.specs.Emission.{place_reg, emit_move as move_of};

use crate::frame::{Frame, is_short, register};
use crate::item::{Item, Operand};
use ia_code::{AluOp, Ins, MemAddr, Reg, Rm, Service};
use pl_moves::Move;

/// Where the machine reads or writes a register or memory.
pub fn rm_of(operand: Operand) -> Rm
    ensures { result ≡ rm operand }
{
    match operand {
        Operand::Register(register) => Rm::Reg(register),
        Operand::Memory(address) => Rm::Mem(address),
        Operand::Number(_) => Rm::Reg(Reg::Eax),
    }
}

pub fn reg_of(operand: Operand) -> Reg
    ensures { result ≡ reg operand }
{
    match operand {
        Operand::Register(register) => register,
        Operand::Memory(_) | Operand::Number(_) => Reg::Eax,
    }
}

/// MOV of a number.
pub fn set(to: Operand, n: i32) -> Ins
    ensures { result ≡ set_to to n }
{
    match to {
        Operand::Register(register) => Ins::MovRI(register, n),
        Operand::Memory(_) | Operand::Number(_) => Ins::MovRmI(rm_of(to), n),
    }
}

/// MOV between a register and a register or memory.
pub fn copy(to: Operand, from: Operand) -> Ins
    ensures { result ≡ copied to from }
{
    match from {
        Operand::Register(register) => Ins::MovRmR(rm_of(to), register),
        Operand::Memory(_) | Operand::Number(_) => Ins::MovRRm(reg_of(to), rm_of(from)),
    }
}

/// An operation or CMP with a number, which is short where it fits a byte.
pub fn combine_number(op: AluOp, to: Operand, n: i32) -> Ins
    ensures { result ≡ number_combined op to n }
{
    match i8::try_from(n) {
        Ok(short) => Ins::AluRmB(op, rm_of(to), short),
        Err(_) => Ins::AluRmI(op, rm_of(to), n),
    }
}

/// An operation or CMP.
pub fn combine(op: AluOp, to: Operand, from: Operand) -> Ins
    ensures { result ≡ combined op to from }
{
    match from {
        Operand::Register(register) => Ins::AluRmR(op, rm_of(to), register),
        Operand::Memory(address) => Ins::AluRRm(op, reg_of(to), Rm::Mem(address)),
        Operand::Number(n) => combine_number(op, to, n),
    }
}

fn multiply_number(to: Reg, n: i32) -> Ins
    ensures { result ≡ number_multiplied to n }
{
    match i8::try_from(n) {
        Ok(short) => Ins::ImulB(to, Rm::Reg(to), short),
        Err(_) => Ins::ImulI(to, Rm::Reg(to), n),
    }
}

/// IMUL into a register.
pub fn multiply(to: Reg, from: Operand) -> Ins
    ensures { result ≡ multiplied to from }
{
    match from {
        Operand::Number(n) => multiply_number(to, n),
        Operand::Register(_) | Operand::Memory(_) => Ins::ImulRRm(to, rm_of(from)),
    }
}

pub fn push(from: Operand) -> Ins
    ensures { result ≡ pushed from }
{
    match from {
        Operand::Register(register) => Ins::PushR(register),
        Operand::Memory(address) => Ins::PushM(address),
        Operand::Number(n) => Ins::PushI(n),
    }
}

/// MOV into an object's word.
pub fn store(to: MemAddr, from: Operand) -> Ins
    ensures { result ≡ stored to from }
{
    match from {
        Operand::Number(n) => Ins::MovRmI(Rm::Mem(to), n),
        Operand::Register(_) | Operand::Memory(_) => Ins::MovRmR(Rm::Mem(to), reg_of(from)),
    }
}

/// The interrupt of a service of the host.
pub fn call_service(service: Service) -> Item
    ensures { result ≡ service_called service }
{
    Item::Plain(Ins::Int(service.number()))
}

/// A move of placed code.
pub fn emit_move(frame: &Frame<'_>, of: Move) -> Ins
    ensures { result ≡ move_of frame.now.proc.now of }
{
    match of {
        Move::Copy(to, from) => Ins::MovRmR(Rm::Reg(register(to)), register(from)),
        Move::Swap(one, other) => Ins::Xchg(register(one), register(other)),
        Move::Load(to, var) => Ins::MovRRm(register(to), Rm::Mem(frame.cell(var))),
        Move::Store(var, from) => Ins::MovRmR(Rm::Mem(frame.cell(var)), register(from)),
        Move::Set(to, n) => Ins::MovRI(register(to), n),
    }
}
