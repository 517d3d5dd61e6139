// Operands as they are written.

ghost use Rattle.std.specs.Prelude.{◌≡◌, ◌++◌, OnOk};
ghost use Rattle.ia_list.specs.Text.{register_name, low_name, base_text, index_text, width_text};
ghost use Rattle.ia_list.specs.Text.{address_text, operand_text, operands_text};

use crate::forms::Operands;
use crate::numerals::{push_decimal, push_hexadecimal, push_signed};
use ia_code::{MemAddr, Reg, Rm, Width};
use std::alloc::AllocError;

fn register_name(r: Reg) -> &'static [u8]
    ensures { result.now ≡ register_name r }
{
    match r {
        Reg::Eax => b"eax",
        Reg::Ecx => b"ecx",
        Reg::Edx => b"edx",
        Reg::Ebx => b"ebx",
        Reg::Esp => b"esp",
        Reg::Ebp => b"ebp",
        Reg::Esi => b"esi",
        Reg::Edi => b"edi",
    }
}

fn low_name(r: Reg) -> &'static [u8]
    ensures { result.now ≡ low_name r }
{
    match r {
        Reg::Eax => b"al",
        Reg::Ecx => b"cl",
        Reg::Edx => b"dl",
        Reg::Ebx => b"bl",
        _ => b"",
    }
}

fn width_text(w: Width) -> &'static [u8]
    ensures { result.now ≡ width_text w }
{
    match w {
        Width::D0 => b"d0:",
        Width::D8 => b"d8:",
        Width::D32 => b"d32:",
    }
}

fn push_base(out: &mut Vec<u8>, base: Option<Reg>) -> Result<(), AllocError>
    ensures { OnOk result (out.new.items ≡ out.old.items ++ base_text base) }
{
    let Some(r) = base else {
        return Ok(());
    };
    out.extend_from_slice(register_name(r))?;
    out.extend_from_slice(b"+")
}

fn push_index(out: &mut Vec<u8>, index: Option<(Reg, u8)>) -> Result<(), AllocError>
    ensures { OnOk result (out.new.items ≡ out.old.items ++ index_text index) }
{
    let Some((r, scale)) = index else {
        return Ok(());
    };
    out.extend_from_slice(register_name(r))?;
    out.extend_from_slice(b"*")?;
    push_decimal(out, u32::from(scale))?;
    out.extend_from_slice(b"+")
}

fn push_address(out: &mut Vec<u8>, a: &MemAddr) -> Result<(), AllocError>
    ensures { OnOk result (out.new.items ≡ out.old.items ++ address_text a.now) }
{
    out.extend_from_slice(b"[")?;
    push_base(out, a.base)?;
    push_index(out, a.index)?;
    out.extend_from_slice(width_text(a.width))?;
    push_signed(out, a.disp)?;
    out.extend_from_slice(b"]")
}

fn push_operand(out: &mut Vec<u8>, a: &Rm) -> Result<(), AllocError>
    ensures { OnOk result (out.new.items ≡ out.old.items ++ operand_text a.now) }
{
    match a {
        Rm::Reg(r) => out.extend_from_slice(register_name(*r)),
        Rm::Mem(a) => push_address(out, a),
    }
}

/// The operands behind a name.
pub(crate) fn push_operands(out: &mut Vec<u8>, operands: &Operands) -> Result<(), AllocError>
    ensures { OnOk result (out.new.items ≡ out.old.items ++ operands_text operands.now) }
{
    if let Operands::Nothing = operands {
        return Ok(());
    }
    out.extend_from_slice(b" ")?;
    match operands {
        Operands::Nothing => Ok(()),
        Operands::One(a) => push_operand(out, a),
        Operands::Two(a, b) => {
            push_operand(out, a)?;
            out.extend_from_slice(b", ")?;
            push_operand(out, b)
        }
        Operands::Number(n) => push_signed(out, *n),
        Operands::OneNumber(a, n) => {
            push_operand(out, a)?;
            out.extend_from_slice(b", ")?;
            push_signed(out, *n)
        }
        Operands::TwoNumber(a, b, n) => {
            push_operand(out, a)?;
            out.extend_from_slice(b", ")?;
            push_operand(out, b)?;
            out.extend_from_slice(b", ")?;
            push_signed(out, *n)
        }
        Operands::Target(t) => push_hexadecimal(out, *t),
        Operands::LowByte(r) => out.extend_from_slice(low_name(*r)),
        Operands::OneLowByte(a, r) => {
            push_operand(out, a)?;
            out.extend_from_slice(b", ")?;
            out.extend_from_slice(low_name(*r))
        }
    }
}
