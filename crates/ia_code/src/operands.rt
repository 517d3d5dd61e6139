// Reads numbers and operands from the front of some bytes. Each function gives what it read and the
// bytes after it.

ghost use Rattle.std.specs.Prelude.{◌≡◌};
ghost use Rattle.ia_code.specs.Reading.{reg_of, scale_of, width_of, byte_at, short_at, half_at};
ghost use Rattle.ia_code.specs.Reading.{word_at, displacement_at, address_at, sib_at, memory_at};
ghost use Rattle.ia_code.specs.Reading.{fields_at, operand_at, memory_operand_at};
ghost use Rattle.ia_code.specs.Reading.{register_operand_at};
ghost use Rattle.ia_code.specs.Views.{Gives};

use crate::ins::{MemAddr, Reg, Rm, Width};

pub(crate) fn register(n: u8) -> Reg
    ensures { result ≡ reg_of n }
{
    match n {
        0 => Reg::Eax,
        1 => Reg::Ecx,
        2 => Reg::Edx,
        3 => Reg::Ebx,
        4 => Reg::Esp,
        5 => Reg::Ebp,
        6 => Reg::Esi,
        _ => Reg::Edi,
    }
}

fn scale(n: u8) -> u8
    ensures { result ≡ scale_of n }
{
    match n {
        0 => 1,
        1 => 2,
        2 => 4,
        _ => 8,
    }
}

fn width(n: u8) -> Width
    ensures { result ≡ width_of n }
{
    match n {
        0 => Width::D0,
        1 => Width::D8,
        _ => Width::D32,
    }
}

#[tactic(auto, unfolding(crate::specs::Reading::byte_at))]
pub(crate) fn byte(bytes: &[u8]) -> Option<(u8, &[u8])>
    ensures { Gives (λ x. (x.0, x.1.now)) result (byte_at bytes.now) }
{
    match bytes {
        [] => None,
        [first, ..] => Some((*first, &bytes[1..])),
    }
}

#[tactic(auto, unfolding(crate::specs::Reading::short_at))]
pub(crate) fn short(bytes: &[u8]) -> Option<(i8, &[u8])>
    ensures { Gives (λ x. (x.0, x.1.now)) result (short_at bytes.now) }
{
    let (n, rest) = byte(bytes)?;
    Some((n.cast_signed(), rest))
}

#[tactic(auto, unfolding(crate::specs::Reading::half_at))]
pub(crate) fn half(bytes: &[u8]) -> Option<(u16, &[u8])>
    ensures { Gives (λ x. (x.0, x.1.now)) result (half_at bytes.now) }
{
    let (first, rest) = bytes.split_first_chunk::<2>()?;
    Some((u16::from_le_bytes(*first), rest))
}

#[tactic(auto, unfolding(crate::specs::Reading::word_at))]
pub(crate) fn word(bytes: &[u8]) -> Option<(i32, &[u8])>
    ensures { Gives (λ x. (x.0, x.1.now)) result (word_at bytes.now) }
{
    let (first, rest) = bytes.split_first_chunk::<4>()?;
    Some((i32::from_le_bytes(*first), rest))
}

#[tactic(auto, unfolding(crate::specs::Reading::displacement_at))]
fn displacement(width: Width, bytes: &[u8]) -> Option<(i32, &[u8])>
    ensures { Gives (λ x. (x.0, x.1.now)) result (displacement_at width bytes.now) }
{
    match width {
        Width::D0 => Some((0, bytes)),
        Width::D8 => {
            let (n, rest) = short(bytes)?;
            Some((i32::from(n), rest))
        }
        Width::D32 => word(bytes),
    }
}

#[tactic(auto, unfolding(crate::specs::Reading::address_at))]
fn address(
    base: Option<Reg>,
    index: Option<(Reg, u8)>,
    width: Width,
    bytes: &[u8],
) -> Option<(MemAddr, &[u8])>
    ensures { Gives (λ x. (x.0, x.1.now)) result (address_at base index width bytes.now) }
{
    let (disp, rest) = displacement(width, bytes)?;
    Some((
        MemAddr {
            base,
            index,
            disp,
            width,
        },
        rest,
    ))
}

// After a SIB byte of these fields. Without an index it stands for base Esp alone, in one spelling.
#[tactic(auto, unfolding(crate::specs::Reading::sib_at))]
fn sib(mode: u8, factor: u8, index: u8, base: u8, bytes: &[u8]) -> Option<(MemAddr, &[u8])>
    ensures { Gives (λ x. (x.0, x.1.now)) result (sib_at mode factor index base bytes.now) }
{
    if index == 4 {
        if base == 4 && factor == 0 {
            address(Some(Reg::Esp), None, width(mode), bytes)
        } else {
            None
        }
    } else if base == 5 && mode == 0 {
        address(
            None,
            Some((register(index), scale(factor))),
            Width::D32,
            bytes,
        )
    } else {
        address(
            Some(register(base)),
            Some((register(index), scale(factor))),
            width(mode),
            bytes,
        )
    }
}

// After a ModRM byte with these fields mod and r/m.
#[tactic(auto, unfolding(crate::specs::Reading::memory_at))]
fn memory(mode: u8, low: u8, bytes: &[u8]) -> Option<(MemAddr, &[u8])>
    ensures { Gives (λ x. (x.0, x.1.now)) result (memory_at mode low bytes.now) }
{
    if low == 4 {
        let (s, rest) = byte(bytes)?;
        sib(mode, s / 64, s / 8 % 8, s % 8, rest)
    } else if low == 5 && mode == 0 {
        address(None, None, Width::D32, bytes)
    } else {
        address(Some(register(low)), None, width(mode), bytes)
    }
}

#[tactic(auto, unfolding(crate::specs::Reading::fields_at))]
fn fields(mode: u8, reg: u8, low: u8, bytes: &[u8]) -> Option<(u8, Rm, &[u8])>
    ensures { Gives (λ x. (x.0, x.1, x.2.now)) result (fields_at mode reg low bytes.now) }
{
    if mode == 3 {
        return Some((reg, Rm::Reg(register(low)), bytes));
    }
    let (a, rest) = memory(mode, low, bytes)?;
    Some((reg, Rm::Mem(a), rest))
}

// The number in the reg field, and the operand.
#[tactic(auto, unfolding(crate::specs::Reading::operand_at))]
pub(crate) fn operand(bytes: &[u8]) -> Option<(u8, Rm, &[u8])>
    ensures { Gives (λ x. (x.0, x.1, x.2.now)) result (operand_at bytes.now) }
{
    let (m, rest) = byte(bytes)?;
    fields(m / 64, m / 8 % 8, m % 8, rest)
}

#[tactic(auto, unfolding(crate::specs::Reading::memory_operand_at))]
pub(crate) fn memory_operand(bytes: &[u8]) -> Option<(u8, MemAddr, &[u8])>
    ensures { Gives (λ x. (x.0, x.1, x.2.now)) result (memory_operand_at bytes.now) }
{
    let (reg, place, rest) = operand(bytes)?;
    match place {
        Rm::Reg(_) => None,
        Rm::Mem(a) => Some((reg, a, rest)),
    }
}

#[tactic(auto, unfolding(crate::specs::Reading::register_operand_at))]
pub(crate) fn register_operand(bytes: &[u8]) -> Option<(u8, Reg, &[u8])>
    ensures { Gives (λ x. (x.0, x.1, x.2.now)) result (register_operand_at bytes.now) }
{
    let (reg, place, rest) = operand(bytes)?;
    match place {
        Rm::Reg(r) => Some((reg, r, rest)),
        Rm::Mem(_) => None,
    }
}
