// The forms of instructions that a text names, and what stands behind a name. `specs/Parts` is the
// table that joins them with the instructions.

ghost use Rattle.std.specs.Prelude.{◌≡◌};
ghost use Rattle.ia_list.specs.Parts.{stem, ending, shape_of, op_name, shift_name, cond_name};

use ia_code::{AluOp, Reg, Rm};
use pra_base::{Cond, ShiftOp};

/// An instruction without its operands. The letters at the end of a variant's name say where the
/// operands are: `m` may be in memory, `r` is a register, `i` a number and `b` a number of one
/// byte.
#[derive(Clone, Copy, Drop)]
pub enum Form {
    MovMr,
    MovRm,
    MovRi,
    MovMi,
    AluMr(AluOp),
    AluRm(AluOp),
    AluMi(AluOp),
    AluMb(AluOp),
    ImulRm,
    ImulI,
    ImulB,
    Neg,
    Shift(ShiftOp),
    Idiv,
    Cdq,
    Lea,
    PushR,
    PushM,
    PushI,
    Pop,
    Call,
    Ret,
    RetI,
    Jmp,
    Jcc(Cond),
    Set(Cond),
    Movzx,
    Xchg,
    Test,
    Int,
}

/// What stands behind a name. A target is a place in the code, from its start, modulo 2^32; a low
/// byte is that of one of the first four registers.
#[derive(Clone, Copy, Drop)]
pub enum Operands {
    Nothing,
    One(Rm),
    Two(Rm, Rm),
    Number(i32),
    OneNumber(Rm, i32),
    TwoNumber(Rm, Rm, i32),
    Target(u32),
    LowByte(Reg),
    OneLowByte(Rm, Reg),
}

/// Which operands stand behind a name.
#[derive(Clone, Copy, Drop)]
pub enum Shape {
    Nothing,
    One,
    Two,
    Number,
    OneNumber,
    TwoNumber,
    Target,
    LowByte,
    OneLowByte,
}

fn op_name(op: AluOp) -> &'static [u8]
    ensures { result.now ≡ op_name op }
{
    match op {
        AluOp::Add => b"add",
        AluOp::Or => b"or",
        AluOp::And => b"and",
        AluOp::Sub => b"sub",
        AluOp::Xor => b"xor",
        AluOp::Cmp => b"cmp",
    }
}

fn shift_name(op: ShiftOp) -> &'static [u8]
    ensures { result.now ≡ shift_name op }
{
    match op {
        ShiftOp::Shl => b"shl",
        ShiftOp::Shr => b"shr",
        ShiftOp::Sar => b"sar",
    }
}

fn cond_name(c: Cond) -> &'static [u8]
    ensures { result.now ≡ cond_name c }
{
    match c {
        Cond::B => b"b",
        Cond::Ae => b"ae",
        Cond::E => b"e",
        Cond::Ne => b"ne",
        Cond::Be => b"be",
        Cond::A => b"a",
        Cond::S => b"s",
        Cond::Ns => b"ns",
        Cond::L => b"l",
        Cond::Ge => b"ge",
        Cond::Le => b"le",
        Cond::G => b"g",
    }
}

/// The first part of a form's name.
pub(crate) fn stem(form: Form) -> &'static [u8]
    ensures { result.now ≡ stem form }
{
    match form {
        Form::MovMr | Form::MovRm | Form::MovRi | Form::MovMi => b"mov",
        Form::AluMr(op) | Form::AluRm(op) | Form::AluMi(op) | Form::AluMb(op) => op_name(op),
        Form::ImulRm | Form::ImulI | Form::ImulB => b"imul",
        Form::Neg => b"neg",
        Form::Shift(op) => shift_name(op),
        Form::Idiv => b"idiv",
        Form::Cdq => b"cdq",
        Form::Lea => b"lea",
        Form::PushR | Form::PushM | Form::PushI => b"push",
        Form::Pop => b"pop",
        Form::Call => b"call",
        Form::Ret | Form::RetI => b"ret",
        Form::Jmp => b"jmp",
        Form::Jcc(_) => b"j",
        Form::Set(_) => b"set",
        Form::Movzx => b"movzx",
        Form::Xchg => b"xchg",
        Form::Test => b"test",
        Form::Int => b"int",
    }
}

/// The part behind it.
pub(crate) fn ending(form: Form) -> &'static [u8]
    ensures { result.now ≡ ending form }
{
    match form {
        Form::MovMr | Form::AluMr(_) => b".mr",
        Form::MovRm | Form::AluRm(_) | Form::ImulRm => b".rm",
        Form::MovRi => b".ri",
        Form::MovMi | Form::AluMi(_) => b".mi",
        Form::AluMb(_) => b".mb",
        Form::ImulB => b".b",
        Form::ImulI | Form::PushI | Form::RetI => b".i",
        Form::PushR | Form::Shift(_) => b".r",
        Form::PushM => b".m",
        Form::Jcc(c) | Form::Set(c) => cond_name(c),
        _ => b"",
    }
}

/// Which operands a form has.
pub(crate) fn shape_of(form: Form) -> Shape
    ensures { result ≡ shape_of form }
{
    match form {
        Form::MovMr | Form::MovRm | Form::AluMr(_) | Form::AluRm(_) => Shape::Two,
        Form::ImulRm | Form::Lea | Form::Xchg | Form::Test => Shape::Two,
        Form::MovRi | Form::MovMi | Form::AluMi(_) | Form::AluMb(_) => Shape::OneNumber,
        Form::Shift(_) => Shape::OneNumber,
        Form::ImulI | Form::ImulB => Shape::TwoNumber,
        Form::Neg | Form::Idiv | Form::PushR | Form::PushM | Form::Pop => Shape::One,
        Form::PushI | Form::RetI | Form::Int => Shape::Number,
        Form::Call | Form::Jmp | Form::Jcc(_) => Shape::Target,
        Form::Set(_) => Shape::LowByte,
        Form::Movzx => Shape::OneLowByte,
        Form::Cdq | Form::Ret => Shape::Nothing,
    }
}
