// Which instructions the table has.

ghost use Rattle.std.specs.Prelude.{◌≡◌, ◌↔◌, ◌<◌, ◌^◌, IsTrue, FitsSigned};
ghost use Rattle.std.specs.Int.{w8, w32};
ghost use Rattle.ia_code.specs.DecodeTable.{IsSound, IsOperand, IsAddress, Holds, is_index};
ghost use Rattle.ia_code.specs.DecodeTable.{is_base, has_low_byte};

use crate::ins::{Ins, MemAddr, Reg, Rm, Width};
use crate::services::is_service;

fn index_stands(index: Option<(Reg, u8)>) -> bool
    ensures { result ≡ is_index index }
{
    match index {
        None => true,
        Some((x, s)) => x != Reg::Esp && (s == 1 || s == 2 || s == 4 || s == 8),
    }
}

fn base_stands(base: Option<Reg>, width: Width) -> bool
    ensures { result ≡ is_base base width }
{
    match (base, width) {
        (None, Width::D32) => true,
        (None, _) => false,
        (Some(Reg::Ebp), Width::D0) => false,
        (Some(_), _) => true,
    }
}

fn holds(width: Width, disp: i32) -> bool
    ensures { IsTrue result ↔ Holds width disp }
{
    match width {
        Width::D0 => disp == 0,
        Width::D8 => disp >= -128 && disp <= 127,
        Width::D32 => true,
    }
}

fn is_address(a: &MemAddr) -> bool
    ensures { IsTrue result ↔ IsAddress a.now }
{
    index_stands(a.index) && base_stands(a.base, a.width) && holds(a.width, a.disp)
}

fn is_operand(r: &Rm) -> bool
    ensures { IsTrue result ↔ IsOperand r.now }
{
    match r {
        Rm::Reg(_) => true,
        Rm::Mem(a) => is_address(a),
    }
}

/// Whether the register's low byte is a register too.
pub(crate) fn low_byte_stands(r: Reg) -> bool
    ensures { result ≡ has_low_byte r }
{
    matches!(r, Reg::Eax | Reg::Ecx | Reg::Edx | Reg::Ebx)
}

// Each number of the type fits: what follows say so of a number behind a reference.
fn is_word(n: i32) -> bool
    ensures { IsTrue result ↔ FitsSigned w32 n }
{
    let _ = n;
    true
}

fn is_short(n: i8) -> bool
    ensures { IsTrue result ↔ FitsSigned w8 n }
{
    let _ = n;
    true
}

fn is_half(n: u16) -> bool
    ensures { IsTrue result ↔ (n < 2 ^ 16) }
{
    let _ = n;
    true
}

fn is_byte(n: u8) -> bool
    ensures { IsTrue result ↔ (n < 2 ^ 8) }
{
    let _ = n;
    true
}

/// Whether the table has the instruction.
pub fn is_sound(i: &Ins) -> bool
    ensures { IsTrue result ↔ IsSound i.now }
{
    match i {
        Ins::MovRmR(to, _) => is_operand(to),
        Ins::MovRRm(_, from) => is_operand(from),
        Ins::MovRI(_, n) => is_word(*n),
        Ins::MovRmI(to, n) => is_operand(to) && is_word(*n),
        Ins::AluRmR(_, to, _) => is_operand(to),
        Ins::AluRRm(_, _, from) => is_operand(from),
        Ins::AluRmI(_, to, n) => is_operand(to) && is_word(*n),
        Ins::AluRmB(_, to, n) => is_operand(to) && is_short(*n),
        Ins::ImulRRm(_, from) => is_operand(from),
        Ins::ImulI(_, from, n) => is_operand(from) && is_word(*n),
        Ins::ImulB(_, from, n) => is_operand(from) && is_short(*n),
        Ins::Neg(to) => is_operand(to),
        Ins::Shift(_, to, n) => is_operand(to) && is_byte(*n),
        Ins::Idiv(by) => is_operand(by),
        Ins::Cdq => true,
        Ins::Lea(_, from) => is_address(from),
        Ins::PushR(from) => *from != Reg::Esp,
        Ins::PopR(to) => *to != Reg::Esp,
        Ins::PushM(from) => is_address(from),
        Ins::PushI(n) => is_word(*n),
        Ins::Call(to) => is_word(*to),
        Ins::Ret => true,
        Ins::RetI(n) => is_half(*n),
        Ins::Jmp(to) => is_word(*to),
        Ins::Jcc(_, to) => is_word(*to),
        Ins::Set(_, to) => low_byte_stands(*to),
        Ins::Movzx(_, from) => low_byte_stands(*from),
        Ins::Xchg(_, _) => true,
        Ins::Test(_, _) => true,
        Ins::Int(n) => is_service(*n),
    }
}
