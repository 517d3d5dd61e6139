// From bytes to the instruction.

ghost use Rattle.std.specs.Prelude.{◌≡◌, ℕ, ◌≤◌, length, take, drop, IfOk, Ok};
ghost use Rattle.ia_code.specs.declared.ins.Ins.{Ins};
ghost use Rattle.ia_code.specs.DecodeTable.{Row};
ghost use Rattle.ia_code.specs.Reading.{cond_of, op_of, alu_word_at, alu_short_at, mov_word_at};
ghost use Rattle.ia_code.specs.Reading.{unary_at, shift_of, shift_at, set_at, movzx_at};
ghost use Rattle.ia_code.specs.Reading.{extended_at, alu_at, stack_at};
ghost use Rattle.ia_code.specs.Reading.{move_at, constant_at, jump_at, opcode_at, instruction_at};
ghost use Rattle.ia_code.specs.Reading.{decoded};
ghost use Rattle.ia_code.specs.Views.{Gives, Finds};

use crate::ins::{AluOp, Ins};
use crate::operands::{
    byte, half, memory_operand, operand, register, register_operand, short, word,
};
use crate::services::is_service;
use crate::sound::low_byte_stands;
use pra_base::{Cond, ShiftOp};

fn condition(n: u8) -> Option<Cond>
    ensures { result ≡ cond_of n }
{
    match n {
        2 => Some(Cond::B),
        3 => Some(Cond::Ae),
        4 => Some(Cond::E),
        5 => Some(Cond::Ne),
        6 => Some(Cond::Be),
        7 => Some(Cond::A),
        8 => Some(Cond::S),
        9 => Some(Cond::Ns),
        12 => Some(Cond::L),
        13 => Some(Cond::Ge),
        14 => Some(Cond::Le),
        15 => Some(Cond::G),
        _ => None,
    }
}

fn operation(n: u8) -> Option<AluOp>
    ensures { result ≡ op_of n }
{
    match n {
        0 => Some(AluOp::Add),
        1 => Some(AluOp::Or),
        4 => Some(AluOp::And),
        5 => Some(AluOp::Sub),
        6 => Some(AluOp::Xor),
        7 => Some(AluOp::Cmp),
        _ => None,
    }
}

#[tactic(auto, unfolding(crate::specs::Reading::alu_word_at))]
fn alu_word(bytes: &[u8]) -> Option<(Ins, &[u8])>
    ensures { Gives (λ x. (x.0, x.1.now)) result (alu_word_at bytes.now) }
{
    let (reg, to, rest) = operand(bytes)?;
    let op = operation(reg)?;
    let (n, rest) = word(rest)?;
    Some((Ins::AluRmI(op, to, n), rest))
}

#[tactic(auto, unfolding(crate::specs::Reading::alu_short_at))]
fn alu_short(bytes: &[u8]) -> Option<(Ins, &[u8])>
    ensures { Gives (λ x. (x.0, x.1.now)) result (alu_short_at bytes.now) }
{
    let (reg, to, rest) = operand(bytes)?;
    let op = operation(reg)?;
    let (n, rest) = short(rest)?;
    Some((Ins::AluRmB(op, to, n), rest))
}

#[tactic(auto, unfolding(crate::specs::Reading::mov_word_at))]
fn mov_word(bytes: &[u8]) -> Option<(Ins, &[u8])>
    ensures { Gives (λ x. (x.0, x.1.now)) result (mov_word_at bytes.now) }
{
    let (reg, to, rest) = operand(bytes)?;
    let (n, rest) = word(rest)?;
    if reg == 0 {
        Some((Ins::MovRmI(to, n), rest))
    } else {
        None
    }
}

#[tactic(auto, unfolding(crate::specs::Reading::unary_at))]
fn unary(bytes: &[u8]) -> Option<(Ins, &[u8])>
    ensures { Gives (λ x. (x.0, x.1.now)) result (unary_at bytes.now) }
{
    let (reg, to, rest) = operand(bytes)?;
    match reg {
        3 => Some((Ins::Neg(to), rest)),
        7 => Some((Ins::Idiv(to), rest)),
        _ => None,
    }
}

fn shift(n: u8) -> Option<ShiftOp>
    ensures { result ≡ shift_of n }
{
    match n {
        4 => Some(ShiftOp::Shl),
        5 => Some(ShiftOp::Shr),
        7 => Some(ShiftOp::Sar),
        _ => None,
    }
}

#[tactic(auto, unfolding(crate::specs::Reading::shift_at))]
fn shifting(bytes: &[u8]) -> Option<(Ins, &[u8])>
    ensures { Gives (λ x. (x.0, x.1.now)) result (shift_at bytes.now) }
{
    let (reg, to, rest) = operand(bytes)?;
    let op = shift(reg)?;
    let (n, rest) = byte(rest)?;
    Some((Ins::Shift(op, to, n), rest))
}

#[tactic(auto, unfolding(crate::specs::Reading::set_at))]
fn set(c: Cond, bytes: &[u8]) -> Option<(Ins, &[u8])>
    ensures { Gives (λ x. (x.0, x.1.now)) result (set_at c bytes.now) }
{
    let (reg, to, rest) = register_operand(bytes)?;
    if reg == 0 && low_byte_stands(to) {
        Some((Ins::Set(c, to), rest))
    } else {
        None
    }
}

#[tactic(auto, unfolding(crate::specs::Reading::movzx_at))]
fn movzx(bytes: &[u8]) -> Option<(Ins, &[u8])>
    ensures { Gives (λ x. (x.0, x.1.now)) result (movzx_at bytes.now) }
{
    let (reg, from, rest) = register_operand(bytes)?;
    if low_byte_stands(from) {
        Some((Ins::Movzx(register(reg), from), rest))
    } else {
        None
    }
}

// The two-byte opcodes: after 0f and this byte.
#[tactic(auto, unfolding(crate::specs::Reading::extended_at))]
fn extended(op: u8, bytes: &[u8]) -> Option<(Ins, &[u8])>
    ensures { Gives (λ x. (x.0, x.1.now)) result (extended_at op bytes.now) }
{
    match op {
        0xaf => {
            let (reg, from, rest) = operand(bytes)?;
            Some((Ins::ImulRRm(register(reg), from), rest))
        }
        0xb6 => movzx(bytes),
        0x80..=0x8f => {
            let c = condition(op - 0x80)?;
            let (to, rest) = word(bytes)?;
            Some((Ins::Jcc(c, to), rest))
        }
        0x90..=0x9f => {
            let c = condition(op - 0x90)?;
            set(c, bytes)
        }
        _ => None,
    }
}

// The opcodes 00 to 3f.
#[tactic(auto, unfolding(crate::specs::Reading::alu_at))]
fn alu(op: u8, bytes: &[u8]) -> Option<(Ins, &[u8])>
    ensures { Gives (λ x. (x.0, x.1.now)) result (alu_at op bytes.now) }
{
    match op {
        0x0f => {
            let (second, rest) = byte(bytes)?;
            extended(second, rest)
        }
        _ if op % 8 == 1 => {
            let (reg, to, rest) = operand(bytes)?;
            let k = operation(op / 8)?;
            Some((Ins::AluRmR(k, to, register(reg)), rest))
        }
        _ if op % 8 == 3 => {
            let (reg, from, rest) = operand(bytes)?;
            let k = operation(op / 8)?;
            Some((Ins::AluRRm(k, register(reg), from), rest))
        }
        _ => None,
    }
}

// The opcodes 40 to 7f.
#[tactic(auto, unfolding(crate::specs::Reading::stack_at))]
fn stack(op: u8, bytes: &[u8]) -> Option<(Ins, &[u8])>
    ensures { Gives (λ x. (x.0, x.1.now)) result (stack_at op bytes.now) }
{
    match op {
        0x68 => {
            let (n, rest) = word(bytes)?;
            Some((Ins::PushI(n), rest))
        }
        0x69 => {
            let (reg, from, rest) = operand(bytes)?;
            let (n, rest) = word(rest)?;
            Some((Ins::ImulI(register(reg), from, n), rest))
        }
        0x6b => {
            let (reg, from, rest) = operand(bytes)?;
            let (n, rest) = short(rest)?;
            Some((Ins::ImulB(register(reg), from, n), rest))
        }
        0x54 | 0x5c => None,
        0x50..=0x57 => Some((Ins::PushR(register(op - 0x50)), bytes)),
        0x58..=0x5f => Some((Ins::PopR(register(op - 0x58)), bytes)),
        _ => None,
    }
}

// The opcodes 80 to 9f.
#[tactic(auto, unfolding(crate::specs::Reading::move_at))]
fn moving(op: u8, bytes: &[u8]) -> Option<(Ins, &[u8])>
    ensures { Gives (λ x. (x.0, x.1.now)) result (move_at op bytes.now) }
{
    match op {
        0x81 => alu_word(bytes),
        0x83 => alu_short(bytes),
        0x85 => {
            let (reg, left, rest) = register_operand(bytes)?;
            Some((Ins::Test(left, register(reg)), rest))
        }
        0x87 => {
            let (reg, to, rest) = register_operand(bytes)?;
            Some((Ins::Xchg(to, register(reg)), rest))
        }
        0x89 => {
            let (reg, to, rest) = operand(bytes)?;
            Some((Ins::MovRmR(to, register(reg)), rest))
        }
        0x8b => {
            let (reg, from, rest) = operand(bytes)?;
            Some((Ins::MovRRm(register(reg), from), rest))
        }
        0x8d => {
            let (reg, from, rest) = memory_operand(bytes)?;
            Some((Ins::Lea(register(reg), from), rest))
        }
        0x99 => Some((Ins::Cdq, bytes)),
        _ => None,
    }
}

// The opcodes a0 to df.
#[tactic(auto, unfolding(crate::specs::Reading::constant_at))]
fn constant(op: u8, bytes: &[u8]) -> Option<(Ins, &[u8])>
    ensures { Gives (λ x. (x.0, x.1.now)) result (constant_at op bytes.now) }
{
    match op {
        0xc1 => shifting(bytes),
        0xc2 => {
            let (n, rest) = half(bytes)?;
            Some((Ins::RetI(n), rest))
        }
        0xc3 => Some((Ins::Ret, bytes)),
        0xc7 => mov_word(bytes),
        0xcd => {
            let (n, rest) = byte(bytes)?;
            if is_service(n) {
                Some((Ins::Int(n), rest))
            } else {
                None
            }
        }
        0xb8..=0xbf => {
            let (n, rest) = word(bytes)?;
            Some((Ins::MovRI(register(op - 0xb8), n), rest))
        }
        _ => None,
    }
}

// The opcodes e0 to ff.
#[tactic(auto, unfolding(crate::specs::Reading::jump_at))]
fn jump(op: u8, bytes: &[u8]) -> Option<(Ins, &[u8])>
    ensures { Gives (λ x. (x.0, x.1.now)) result (jump_at op bytes.now) }
{
    match op {
        0xe8 => {
            let (to, rest) = word(bytes)?;
            Some((Ins::Call(to), rest))
        }
        0xe9 => {
            let (to, rest) = word(bytes)?;
            Some((Ins::Jmp(to), rest))
        }
        0xf7 => unary(bytes),
        0xff => {
            let (reg, from, rest) = memory_operand(bytes)?;
            if reg == 6 {
                Some((Ins::PushM(from), rest))
            } else {
                None
            }
        }
        _ => None,
    }
}

#[tactic(auto, unfolding(crate::specs::Reading::opcode_at))]
fn opcode(op: u8, bytes: &[u8]) -> Option<(Ins, &[u8])>
    ensures { Gives (λ x. (x.0, x.1.now)) result (opcode_at op bytes.now) }
{
    match op {
        0..=0x3f => alu(op, bytes),
        0x40..=0x7f => stack(op, bytes),
        0x80..=0x9f => moving(op, bytes),
        0xa0..=0xdf => constant(op, bytes),
        0xe0..=0xff => jump(op, bytes),
    }
}

#[tactic(auto, unfolding(crate::specs::Reading::instruction_at))]
fn instruction(bytes: &[u8]) -> Option<(Ins, &[u8])>
    ensures { Gives (λ x. (x.0, x.1.now)) result (instruction_at bytes.now) }
{
    let (op, rest) = byte(bytes)?;
    opcode(op, rest)
}

/// No row of the table begins the bytes.
#[derive(Debug, Drop, PartialEq, Eq)]
pub struct NotInSubset {}

/// The instruction that stands in the bytes at a place, and how many bytes it takes.
///
/// # Errors
///
/// Where no row of the table begins the bytes from there on.
pub fn decode(bytes: &[u8], at: usize) -> Result<(Ins, usize), NotInSubset>
    requires { at ≤ length bytes.now }
    // What is read is a row's.
    ensures found { IfOk result (λ x. Row (take x.1 (drop at bytes.now)) x.0 x.1) }
    // What is a row's is read.
    ensures only { (i : Ins) (n : ℕ) → Row (take n (drop at bytes.now)) i n → result ≡ Ok (i, n) }
    ensures exact { Finds result (decoded (drop at bytes.now)) }
{
    let (_, rest) = bytes.split_at(at);
    decode_front(rest)
}

// The same, of the bytes from their front on.
#[tactic(auto, unfolding(crate::specs::Reading::decoded))]
fn decode_front(bytes: &[u8]) -> Result<(Ins, usize), NotInSubset>
    ensures found { IfOk result (λ x. Row (take x.1 bytes.now) x.0 x.1) }
    ensures only { (i : Ins) (n : ℕ) → Row (take n bytes.now) i n → result ≡ Ok (i, n) }
    ensures exact { Finds result (decoded bytes.now) }
{
    match instruction(bytes) {
        None => Err(NotInSubset {}),
        Some((i, after)) => Ok((i, bytes.len() - after.len())),
    }
}
