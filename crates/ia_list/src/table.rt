// The table of a text's instructions, and a line by it.

ghost use Rattle.std.specs.Prelude.{◌≡◌, ◌+◌, ◌++◌, length, OnOk};
ghost use Rattle.ia_code.specs.DecodeTable.{bytes_of};
ghost use Rattle.ia_list.specs.Parts.{name, target, parts};
ghost use Rattle.ia_list.specs.Text.{line};

use crate::forms::{Form, Operands, ending, stem};
use crate::numerals::push_hexadecimal;
use crate::operands::push_operands;
use ia_code::{Ins, Rm};
use std::alloc::AllocError;

fn target(next: u32, to: i32) -> u32
    ensures { result ≡ target next to }
{
    next.wrapping_add(to.cast_unsigned())
}

/// The form and the operands of an instruction that ends at a place.
fn parts(next: u32, i: &Ins) -> (Form, Operands)
    ensures { result ≡ parts next i.now }
{
    match *i {
        Ins::MovRmR(to, from) => (Form::MovMr, Operands::Two(to, Rm::Reg(from))),
        Ins::MovRRm(to, from) => (Form::MovRm, Operands::Two(Rm::Reg(to), from)),
        Ins::MovRI(to, n) => (Form::MovRi, Operands::OneNumber(Rm::Reg(to), n)),
        Ins::MovRmI(to, n) => (Form::MovMi, Operands::OneNumber(to, n)),
        Ins::AluRmR(op, to, from) => (Form::AluMr(op), Operands::Two(to, Rm::Reg(from))),
        Ins::AluRRm(op, to, from) => (Form::AluRm(op), Operands::Two(Rm::Reg(to), from)),
        Ins::AluRmI(op, to, n) => (Form::AluMi(op), Operands::OneNumber(to, n)),
        Ins::AluRmB(op, to, n) => (Form::AluMb(op), Operands::OneNumber(to, i32::from(n))),
        Ins::ImulRRm(to, from) => (Form::ImulRm, Operands::Two(Rm::Reg(to), from)),
        Ins::ImulI(to, from, n) => (Form::ImulI, Operands::TwoNumber(Rm::Reg(to), from, n)),
        Ins::ImulB(to, from, n) => {
            let n = i32::from(n);
            (Form::ImulB, Operands::TwoNumber(Rm::Reg(to), from, n))
        }
        Ins::Neg(to) => (Form::Neg, Operands::One(to)),
        Ins::Shift(op, to, n) => (Form::Shift(op), Operands::OneNumber(to, i32::from(n))),
        Ins::Idiv(by) => (Form::Idiv, Operands::One(by)),
        Ins::Cdq => (Form::Cdq, Operands::Nothing),
        Ins::Lea(to, from) => (Form::Lea, Operands::Two(Rm::Reg(to), Rm::Mem(from))),
        Ins::PushR(from) => (Form::PushR, Operands::One(Rm::Reg(from))),
        Ins::PushM(from) => (Form::PushM, Operands::One(Rm::Mem(from))),
        Ins::PushI(n) => (Form::PushI, Operands::Number(n)),
        Ins::PopR(to) => (Form::Pop, Operands::One(Rm::Reg(to))),
        Ins::Call(to) => (Form::Call, Operands::Target(target(next, to))),
        Ins::Ret => (Form::Ret, Operands::Nothing),
        Ins::RetI(n) => (Form::RetI, Operands::Number(i32::from(n))),
        Ins::Jmp(to) => (Form::Jmp, Operands::Target(target(next, to))),
        Ins::Jcc(c, to) => (Form::Jcc(c), Operands::Target(target(next, to))),
        Ins::Set(c, to) => (Form::Set(c), Operands::LowByte(to)),
        Ins::Movzx(to, from) => (Form::Movzx, Operands::OneLowByte(Rm::Reg(to), from)),
        Ins::Xchg(to, with) => (Form::Xchg, Operands::Two(Rm::Reg(to), Rm::Reg(with))),
        Ins::Test(left, right) => (Form::Test, Operands::Two(Rm::Reg(left), Rm::Reg(right))),
        Ins::Int(n) => (Form::Int, Operands::Number(i32::from(n))),
    }
}

fn push_name(out: &mut Vec<u8>, form: Form) -> Result<(), AllocError>
    ensures { OnOk result (out.new.items ≡ out.old.items ++ name form) }
{
    out.extend_from_slice(stem(form))?;
    out.extend_from_slice(ending(form))
}

/// The line of an instruction that stands at a place and ends at `next`.
#[tactic(auto, unfolding(crate::specs::Text::line))]
pub(crate) fn push_line(out: &mut Vec<u8>, place: u32, next: u32, i: &Ins) -> Result<(), AllocError>
    requires { next ≡ place + length (bytes_of i.now) }
    ensures { OnOk result (out.new.items ≡ out.old.items ++ line place i.now) }
{
    let (form, operands) = parts(next, i);
    push_hexadecimal(out, place)?;
    out.extend_from_slice(b" ")?;
    push_name(out, form)?;
    push_operands(out, &operands)?;
    out.extend_from_slice(b"\n")
}
