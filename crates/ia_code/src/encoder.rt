// From an instruction to its bytes.

ghost use Rattle.std.specs.Prelude.{◌≡◌, ◌+◌, ◌≤◌, ◌<◌, ◌++◌, length, IsTrue};
ghost use Rattle.std.specs.Int.{w16, to_le_bytes};
ghost use Rattle.arrayvec.specs.ArrayVec.{array_vec_len};
ghost use Rattle.ia_code.specs.DecodeTable.{reg_number, cond_number, op_number, scale_number};
ghost use Rattle.ia_code.specs.DecodeTable.{mod_number, fields, imm8, imm32, displacement, address};
ghost use Rattle.ia_code.specs.DecodeTable.{operand, bytes_of, IsSound, IsOperand, IsAddress};
ghost use Rattle.ia_code.specs.DecodeTable.{Holds, shift_number};

use crate::ins::{AluOp, Ins, MemAddr, Reg, Rm, Width};
use arrayvec::ArrayVec;
use pra_base::{Cond, ShiftOp};

/// Room for the bytes of one instruction: the processor allows 15 at most (SDM volume 2, section
/// 2.3.11).
type Code = ArrayVec<u8, 16>;

fn number(r: Reg) -> u8
    ensures value { result ≡ reg_number r }
    ensures small { result < 8 }
{
    r as u8
}

fn condition(c: Cond) -> u8
    ensures value { result ≡ cond_number c }
    ensures small { result < 16 }
{
    match c {
        Cond::B => 2,
        Cond::Ae => 3,
        Cond::E => 4,
        Cond::Ne => 5,
        Cond::Be => 6,
        Cond::A => 7,
        Cond::S => 8,
        Cond::Ns => 9,
        Cond::L => 12,
        Cond::Ge => 13,
        Cond::Le => 14,
        Cond::G => 15,
    }
}

fn operation(op: AluOp) -> u8
    ensures value { result ≡ op_number op }
    ensures small { result < 8 }
{
    match op {
        AluOp::Add => 0,
        AluOp::Or => 1,
        AluOp::And => 4,
        AluOp::Sub => 5,
        AluOp::Xor => 6,
        AluOp::Cmp => 7,
    }
}

fn shift(op: ShiftOp) -> u8
    ensures value { result ≡ shift_number op }
    ensures small { result < 8 }
{
    match op {
        ShiftOp::Shl => 4,
        ShiftOp::Shr => 5,
        ShiftOp::Sar => 7,
    }
}

fn scale(n: u8) -> u8
    ensures value { result ≡ scale_number n }
    ensures small { result < 4 }
{
    match n {
        1 => 0,
        2 => 1,
        4 => 2,
        _ => 3,
    }
}

fn mode(w: Width) -> u8
    ensures value { result ≡ mod_number w }
    ensures small { result < 3 }
{
    match w {
        Width::D0 => 0,
        Width::D8 => 1,
        Width::D32 => 2,
    }
}

#[tactic(auto, unfolding(crate::specs::DecodeTable::fields))]
fn joined(high: u8, middle: u8, low: u8) -> u8
    requires high { high < 4 }
    requires middle { middle < 8 }
    requires low { low < 8 }
    ensures { result ≡ fields high middle low }
{
    high * 64 + middle * 8 + low
}

fn push_half(out: &mut Code, n: u16)
    requires { array_vec_len out.old ≤ 14 }
    ensures { out.new.items ≡ out.old.items ++ to_le_bytes w16 n }
{
    let [low, high] = n.to_le_bytes();
    out.push(low);
    out.push(high);
}

fn push_word(out: &mut Code, n: i32)
    requires { array_vec_len out.old ≤ 12 }
    ensures { out.new.items ≡ out.old.items ++ imm32 n }
{
    let [a, b, c, d] = n.to_le_bytes();
    out.push(a);
    out.push(b);
    out.push(c);
    out.push(d);
}

fn push_displacement(out: &mut Code, w: Width, d: i32)
    requires room { array_vec_len out.old ≤ 12 }
    requires holds { Holds w d }
    ensures { out.new.items ≡ out.old.items ++ displacement w d }
{
    match w {
        Width::D0 => {}
        Width::D8 => out.push((d as i8).cast_unsigned()),
        Width::D32 => push_word(out, d),
    }
}

fn push_address(out: &mut Code, reg: u8, a: &MemAddr)
    requires room { array_vec_len out.old ≤ 10 }
    requires reg { reg < 8 }
    requires is { IsAddress a.now }
    ensures { out.new.items ≡ out.old.items ++ operand reg (Rm.Mem a.now) }
{
    match (a.base, a.index) {
        (None, None) => {
            out.push(joined(0, reg, 5));
            push_word(out, a.disp);
        }
        (None, Some((x, s))) => {
            out.push(joined(0, reg, 4));
            out.push(joined(scale(s), number(x), 5));
            push_word(out, a.disp);
        }
        (Some(Reg::Esp), None) => {
            out.push(joined(mode(a.width), reg, 4));
            out.push(joined(0, 4, 4));
            push_displacement(out, a.width, a.disp);
        }
        (Some(b), None) => {
            out.push(joined(mode(a.width), reg, number(b)));
            push_displacement(out, a.width, a.disp);
        }
        (Some(b), Some((x, s))) => {
            out.push(joined(mode(a.width), reg, 4));
            out.push(joined(scale(s), number(x), number(b)));
            push_displacement(out, a.width, a.disp);
        }
    }
}

fn push_operand(out: &mut Code, reg: u8, to: &Rm)
    requires room { array_vec_len out.old ≤ 10 }
    requires reg { reg < 8 }
    requires is { IsOperand to.now }
    ensures { out.new.items ≡ out.old.items ++ operand reg to.now }
{
    match to {
        Rm::Reg(r) => push_register(out, reg, *r),
        Rm::Mem(a) => push_address(out, reg, a),
    }
}

fn push_register(out: &mut Code, reg: u8, r: Reg)
    requires room { array_vec_len out.old ≤ 10 }
    requires reg { reg < 8 }
    ensures { out.new.items ≡ out.old.items ++ operand reg (Rm.Reg r) }
{
    out.push(joined(3, reg, number(r)));
}

/// The bytes of an instruction that the table has.
pub fn encode(i: &Ins) -> ArrayVec<u8, 16>
    requires { IsSound i.now }
    ensures { result.items ≡ bytes_of i.now }
{
    let mut out = ArrayVec::new();
    match i {
        Ins::MovRmR(to, from) => {
            out.push(0x89);
            push_operand(&mut out, number(*from), to);
        }
        Ins::MovRRm(to, from) => {
            out.push(0x8b);
            push_operand(&mut out, number(*to), from);
        }
        Ins::MovRI(to, n) => {
            out.push(0xb8 + number(*to));
            push_word(&mut out, *n);
        }
        Ins::MovRmI(to, n) => {
            out.push(0xc7);
            push_operand(&mut out, 0, to);
            push_word(&mut out, *n);
        }
        Ins::AluRmR(op, to, from) => {
            out.push(8 * operation(*op) + 0x01);
            push_operand(&mut out, number(*from), to);
        }
        Ins::AluRRm(op, to, from) => {
            out.push(8 * operation(*op) + 0x03);
            push_operand(&mut out, number(*to), from);
        }
        Ins::AluRmI(op, to, n) => {
            out.push(0x81);
            push_operand(&mut out, operation(*op), to);
            push_word(&mut out, *n);
        }
        Ins::AluRmB(op, to, n) => {
            out.push(0x83);
            push_operand(&mut out, operation(*op), to);
            out.push(n.cast_unsigned());
        }
        Ins::ImulRRm(to, from) => {
            out.push(0x0f);
            out.push(0xaf);
            push_operand(&mut out, number(*to), from);
        }
        Ins::ImulI(to, from, n) => {
            out.push(0x69);
            push_operand(&mut out, number(*to), from);
            push_word(&mut out, *n);
        }
        Ins::ImulB(to, from, n) => {
            out.push(0x6b);
            push_operand(&mut out, number(*to), from);
            out.push(n.cast_unsigned());
        }
        Ins::Neg(to) => {
            out.push(0xf7);
            push_operand(&mut out, 3, to);
        }
        Ins::Shift(op, to, n) => {
            out.push(0xc1);
            push_operand(&mut out, shift(*op), to);
            out.push(*n);
        }
        Ins::Idiv(by) => {
            out.push(0xf7);
            push_operand(&mut out, 7, by);
        }
        Ins::Cdq => out.push(0x99),
        Ins::Lea(to, from) => {
            out.push(0x8d);
            push_address(&mut out, number(*to), from);
        }
        Ins::PushR(from) => out.push(0x50 + number(*from)),
        Ins::PopR(to) => out.push(0x58 + number(*to)),
        Ins::PushM(from) => {
            out.push(0xff);
            push_address(&mut out, 6, from);
        }
        Ins::PushI(n) => {
            out.push(0x68);
            push_word(&mut out, *n);
        }
        Ins::Call(to) => {
            out.push(0xe8);
            push_word(&mut out, *to);
        }
        Ins::Ret => out.push(0xc3),
        Ins::RetI(n) => {
            out.push(0xc2);
            push_half(&mut out, *n);
        }
        Ins::Jmp(to) => {
            out.push(0xe9);
            push_word(&mut out, *to);
        }
        Ins::Jcc(c, to) => {
            out.push(0x0f);
            out.push(0x80 + condition(*c));
            push_word(&mut out, *to);
        }
        Ins::Set(c, to) => {
            out.push(0x0f);
            out.push(0x90 + condition(*c));
            push_register(&mut out, 0, *to);
        }
        Ins::Movzx(to, from) => {
            out.push(0x0f);
            out.push(0xb6);
            push_register(&mut out, number(*to), *from);
        }
        Ins::Xchg(to, with) => {
            out.push(0x87);
            push_register(&mut out, number(*with), *to);
        }
        Ins::Test(left, right) => {
            out.push(0x85);
            push_register(&mut out, number(*right), *left);
        }
        Ins::Int(n) => {
            out.push(0xcd);
            out.push(*n);
        }
    }
    out
}
