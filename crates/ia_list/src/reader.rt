// Finds the one instruction that a line at the front of some bytes can be of.

ghost use Rattle.std.specs.Prelude.{◌≡◌, ◌+◌, ◌^◌, ◌<◌, ℕ, position};
ghost use Rattle.std.specs.Str.{bytes_eq};
ghost use Rattle.ia_code.specs.Views.{Gives};
ghost use Rattle.ia_list.specs.Parts.{name};
ghost use Rattle.ia_list.specs.Reading.{forms_with, form_named, first_named, in_register};
ghost use Rattle.ia_list.specs.Reading.{in_memory, short_of, natural_of, distance, made_nothing};
ghost use Rattle.ia_list.specs.Reading.{made_one, made_two, made_number, made_one_number};
ghost use Rattle.ia_list.specs.Reading.{made_two_number, made_target, made_low, made_one_low};
ghost use Rattle.ia_list.specs.Reading.{made, ends_name, named_at, instruction_at, words_at};

use crate::forms::{Form, Operands, ending, shape_of, stem};
use crate::scan::{digits, letter, operands, skip};
use ia_code::{AluOp, Ins, MemAddr, Reg, Rm};
use pra_base::{Cond, ShiftOp};

/// The forms whose names begin with a letter.
fn forms_with(a: u8) -> &'static [Form]
    ensures { result.now ≡ forms_with a }
{
    match a {
        b'a' => &[
            Form::AluMr(AluOp::Add),
            Form::AluRm(AluOp::Add),
            Form::AluMi(AluOp::Add),
            Form::AluMb(AluOp::Add),
            Form::AluMr(AluOp::And),
            Form::AluRm(AluOp::And),
            Form::AluMi(AluOp::And),
            Form::AluMb(AluOp::And),
        ],
        b'c' => &[
            Form::Cdq,
            Form::Call,
            Form::AluMr(AluOp::Cmp),
            Form::AluRm(AluOp::Cmp),
            Form::AluMi(AluOp::Cmp),
            Form::AluMb(AluOp::Cmp),
        ],
        b'i' => &[
            Form::ImulRm,
            Form::ImulI,
            Form::ImulB,
            Form::Idiv,
            Form::Int,
        ],
        b'j' => &[
            Form::Jmp,
            Form::Jcc(Cond::B),
            Form::Jcc(Cond::Ae),
            Form::Jcc(Cond::E),
            Form::Jcc(Cond::Ne),
            Form::Jcc(Cond::Be),
            Form::Jcc(Cond::A),
            Form::Jcc(Cond::S),
            Form::Jcc(Cond::Ns),
            Form::Jcc(Cond::L),
            Form::Jcc(Cond::Ge),
            Form::Jcc(Cond::Le),
            Form::Jcc(Cond::G),
        ],
        b'l' => &[Form::Lea],
        b'm' => &[
            Form::MovMr,
            Form::MovRm,
            Form::MovRi,
            Form::MovMi,
            Form::Movzx,
        ],
        b'n' => &[Form::Neg],
        b'o' => &[
            Form::AluMr(AluOp::Or),
            Form::AluRm(AluOp::Or),
            Form::AluMi(AluOp::Or),
            Form::AluMb(AluOp::Or),
        ],
        b'p' => &[Form::PushR, Form::PushM, Form::PushI, Form::Pop],
        b'r' => &[Form::Ret, Form::RetI],
        b's' => &[
            Form::Set(Cond::B),
            Form::Set(Cond::Ae),
            Form::Set(Cond::E),
            Form::Set(Cond::Ne),
            Form::Set(Cond::Be),
            Form::Set(Cond::A),
            Form::Set(Cond::S),
            Form::Set(Cond::Ns),
            Form::Set(Cond::L),
            Form::Set(Cond::Ge),
            Form::Set(Cond::Le),
            Form::Set(Cond::G),
            Form::Shift(ShiftOp::Shl),
            Form::Shift(ShiftOp::Shr),
            Form::Shift(ShiftOp::Sar),
            Form::AluMr(AluOp::Sub),
            Form::AluRm(AluOp::Sub),
            Form::AluMi(AluOp::Sub),
            Form::AluMb(AluOp::Sub),
        ],
        b't' => &[Form::Test],
        b'x' => &[
            Form::Xchg,
            Form::AluMr(AluOp::Xor),
            Form::AluRm(AluOp::Xor),
            Form::AluMi(AluOp::Xor),
            Form::AluMb(AluOp::Xor),
        ],
        _ => &[],
    }
}

fn is_name(word: &[u8], form: Form) -> bool
    ensures { result ≡ bytes_eq word.now (name form) }
{
    let Some(rest) = word.strip_prefix(stem(form)) else {
        return false;
    };
    rest == ending(form)
}

/// The form that a name stands for.
fn form_named(word: &[u8]) -> Option<Form>
    ensures { result ≡ form_named word.now }
{
    for form in forms_with(letter(word, 0)) {
        if is_name(word, *form) {
            return Some(*form);
        }
    }
    None
}

fn name_length(bytes: &[u8]) -> Option<usize>
    ensures { result ≡ position ends_name bytes.now }
{
    bytes.iter().position(|b| ends_name(*b))
}

fn ends_name(b: u8) -> bool
    ensures { result ≡ ends_name b }
{
    b == b' ' || b == b'\n'
}

/// The form of the name in front, and the bytes behind the name.
#[tactic(auto, unfolding(crate::specs::Reading::named_at))]
fn named(bytes: &[u8]) -> Option<(Form, &[u8])>
    ensures { Gives (λ x. (x.0, x.1.now)) result (named_at bytes.now) }
{
    let length = name_length(bytes)?;
    let (word, rest) = bytes.split_at(length);
    let form = form_named(word)?;
    Some((form, rest))
}

fn in_register(a: Rm) -> Option<Reg>
    ensures { result ≡ in_register a }
{
    match a {
        Rm::Reg(r) => Some(r),
        Rm::Mem(_) => None,
    }
}

fn in_memory(a: Rm) -> Option<MemAddr>
    ensures { result ≡ in_memory a }
{
    match a {
        Rm::Reg(_) => None,
        Rm::Mem(m) => Some(m),
    }
}

fn short_of(n: i32) -> Option<i8>
    ensures { result ≡ short_of n }
{
    i8::try_from(n).ok()
}

fn half_of(n: i32) -> Option<u16>
    ensures { result ≡ natural_of 65535 n }
{
    u16::try_from(n).ok()
}

fn byte_of(n: i32) -> Option<u8>
    ensures { result ≡ natural_of 255 n }
{
    u8::try_from(n).ok()
}

fn distance(next: u32, t: u32) -> i32
    ensures { result ≡ distance next t }
{
    t.wrapping_sub(next).cast_signed()
}

#[tactic(auto, unfolding(crate::specs::Reading::made_nothing))]
fn made_nothing(form: Form) -> Option<Ins>
    ensures { result ≡ made_nothing form }
{
    match form {
        Form::Cdq => Some(Ins::Cdq),
        Form::Ret => Some(Ins::Ret),
        _ => None,
    }
}

#[tactic(auto, unfolding(crate::specs::Reading::made_one))]
fn made_one(form: Form, a: Rm) -> Option<Ins>
    ensures { result ≡ made_one form a }
{
    match form {
        Form::Neg => Some(Ins::Neg(a)),
        Form::Idiv => Some(Ins::Idiv(a)),
        Form::PushR => Some(Ins::PushR(in_register(a)?)),
        Form::PushM => Some(Ins::PushM(in_memory(a)?)),
        Form::Pop => Some(Ins::PopR(in_register(a)?)),
        _ => None,
    }
}

#[tactic(auto, unfolding(crate::specs::Reading::made_two))]
fn made_two(form: Form, a: Rm, b: Rm) -> Option<Ins>
    ensures { result ≡ made_two form a b }
{
    match form {
        Form::MovMr => Some(Ins::MovRmR(a, in_register(b)?)),
        Form::MovRm => Some(Ins::MovRRm(in_register(a)?, b)),
        Form::AluMr(op) => Some(Ins::AluRmR(op, a, in_register(b)?)),
        Form::AluRm(op) => Some(Ins::AluRRm(op, in_register(a)?, b)),
        Form::ImulRm => Some(Ins::ImulRRm(in_register(a)?, b)),
        Form::Lea => Some(Ins::Lea(in_register(a)?, in_memory(b)?)),
        Form::Xchg => Some(Ins::Xchg(in_register(a)?, in_register(b)?)),
        Form::Test => Some(Ins::Test(in_register(a)?, in_register(b)?)),
        _ => None,
    }
}

#[tactic(auto, unfolding(crate::specs::Reading::made_number))]
fn made_number(form: Form, n: i32) -> Option<Ins>
    ensures { result ≡ made_number form n }
{
    match form {
        Form::PushI => Some(Ins::PushI(n)),
        Form::RetI => Some(Ins::RetI(half_of(n)?)),
        Form::Int => Some(Ins::Int(byte_of(n)?)),
        _ => None,
    }
}

#[tactic(auto, unfolding(crate::specs::Reading::made_one_number))]
fn made_one_number(form: Form, a: Rm, n: i32) -> Option<Ins>
    ensures { result ≡ made_one_number form a n }
{
    match form {
        Form::MovRi => Some(Ins::MovRI(in_register(a)?, n)),
        Form::MovMi => Some(Ins::MovRmI(a, n)),
        Form::AluMi(op) => Some(Ins::AluRmI(op, a, n)),
        Form::AluMb(op) => Some(Ins::AluRmB(op, a, short_of(n)?)),
        Form::Shift(op) => Some(Ins::Shift(op, a, byte_of(n)?)),
        _ => None,
    }
}

#[tactic(auto, unfolding(crate::specs::Reading::made_two_number))]
fn made_two_number(form: Form, a: Rm, b: Rm, n: i32) -> Option<Ins>
    ensures { result ≡ made_two_number form a b n }
{
    match form {
        Form::ImulI => Some(Ins::ImulI(in_register(a)?, b, n)),
        Form::ImulB => Some(Ins::ImulB(in_register(a)?, b, short_of(n)?)),
        _ => None,
    }
}

#[tactic(auto, unfolding(crate::specs::Reading::made_target))]
fn made_target(place: u32, form: Form, t: u32) -> Option<Ins>
    requires { place < 2 ^ 31 }
    ensures { result ≡ made_target place form t }
{
    match form {
        Form::Call => Some(Ins::Call(distance(place + 5, t))),
        Form::Jmp => Some(Ins::Jmp(distance(place + 5, t))),
        Form::Jcc(c) => Some(Ins::Jcc(c, distance(place + 6, t))),
        _ => None,
    }
}

#[tactic(auto, unfolding(crate::specs::Reading::made_low))]
fn made_low(form: Form, r: Reg) -> Option<Ins>
    ensures { result ≡ made_low form r }
{
    match form {
        Form::Set(c) => Some(Ins::Set(c, r)),
        _ => None,
    }
}

#[tactic(auto, unfolding(crate::specs::Reading::made_one_low))]
fn made_one_low(form: Form, a: Rm, r: Reg) -> Option<Ins>
    ensures { result ≡ made_one_low form a r }
{
    match form {
        Form::Movzx => Some(Ins::Movzx(in_register(a)?, r)),
        _ => None,
    }
}

/// The instruction of a form and operands, where it stands at a place.
#[tactic(auto, unfolding(crate::specs::Reading::made))]
fn made(place: u32, form: Form, operands: Operands) -> Option<Ins>
    requires { place < 2 ^ 31 }
    ensures { result ≡ made place form operands }
{
    match operands {
        Operands::Nothing => made_nothing(form),
        Operands::One(a) => made_one(form, a),
        Operands::Two(a, b) => made_two(form, a, b),
        Operands::Number(n) => made_number(form, n),
        Operands::OneNumber(a, n) => made_one_number(form, a, n),
        Operands::TwoNumber(a, b, n) => made_two_number(form, a, b, n),
        Operands::Target(t) => made_target(place, form, t),
        Operands::LowByte(r) => made_low(form, r),
        Operands::OneLowByte(a, r) => made_one_low(form, a, r),
    }
}

/// The one instruction that a line in front can be of, where it stands at a place.
#[tactic(auto, unfolding(crate::specs::Reading::instruction_at))]
pub(crate) fn instruction(place: u32, bytes: &[u8]) -> Option<Ins>
    requires { place < 2 ^ 31 }
    ensures { result ≡ instruction_at place bytes.now }
{
    let (form, rest) = named(skip(9, bytes))?;
    let operands = operands(shape_of(form), rest)?;
    made(place, form, operands)
}

/// The one number of data words that a line in front can have.
#[tactic(auto, unfolding(crate::specs::Reading::words_at))]
pub(crate) fn words(bytes: &[u8]) -> Option<u32>
    ensures { result ≡ words_at bytes.now }
{
    let (n, _) = digits(skip(5, bytes))?;
    Some(n)
}
