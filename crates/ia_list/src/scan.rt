// Reads numbers and operands from the front of some bytes. Each function gives what it read and the
// bytes behind it. Signs at known places are passed over unread.

ghost use Rattle.std.specs.Prelude.{◌≡◌, ◌≤◌, ◌<◌, ℕ, drop, slice_index, IfSome};
ghost use Rattle.ia_code.specs.Views.{Gives};
ghost use Rattle.ia_list.specs.Reading.{digits_at, number_at, hex_value, pair_at};
ghost use Rattle.ia_list.specs.Reading.{hexadecimal_at, register_named, register_at, low_named};
ghost use Rattle.ia_list.specs.Reading.{scale_named, base_at, index_at, width_at, address_at};
ghost use Rattle.ia_list.specs.Reading.{operand_at, operands_at};

use crate::forms::{Operands, Shape};
use ia_code::{MemAddr, Reg, Rm, Width};

/// The greatest magnitude of a number of 32 bits in two's complement.
const GREATEST: u64 = 0x8000_0000;

/// The byte at a place, or 0 behind the end.
pub(crate) fn letter(bytes: &[u8], at: usize) -> u8
    ensures { result ≡ slice_index bytes.now at }
{
    if at < bytes.len() { bytes[at] } else { 0 }
}

/// The bytes behind the first ones.
pub(crate) fn skip(count: usize, bytes: &[u8]) -> &[u8]
    ensures { result.now ≡ drop count bytes.now }
{
    if count < bytes.len() {
        &bytes[count..]
    } else {
        &[]
    }
}

/// The value of the digits in front, which is at most `GREATEST`.
pub(crate) fn digits(bytes: &[u8]) -> Option<(u32, &[u8])>
    ensures read { Gives (λ x. (x.0, x.1.now)) result (digits_at 0 bytes.now) }
    ensures most { IfSome result (λ x. x.0 ≤ 2147483648) }
{
    let mut value = 0;
    let mut rest = bytes;
    'digits: while let [digit, others @ ..] = rest {
        if !digit.is_ascii_digit() {
            return Some((value as u32, rest));
        }
        value = value * 10 + (*digit - b'0') as u64;
        if value > GREATEST {
            return None;
        }
        rest = others;
    }
    Some((value as u32, rest))
}

#[tactic(auto, unfolding(crate::specs::Reading::number_at))]
fn number(bytes: &[u8]) -> Option<(i32, &[u8])>
    ensures { Gives (λ x. (x.0, x.1.now)) result (number_at bytes.now) }
{
    if letter(bytes, 0) == b'-' {
        let (value, rest) = digits(skip(1, bytes))?;
        Some((-(value as i64) as i32, rest))
    } else {
        let (value, rest) = digits(bytes)?;
        if value < 0x8000_0000 {
            Some((value as i32, rest))
        } else {
            None
        }
    }
}

fn hex_value(b: u8) -> Option<u8>
    ensures value { result ≡ hex_value b }
    ensures small { IfSome result (λ d. d < 16) }
{
    match b {
        b'0'..=b'9' => Some(b - b'0'),
        b'a'..=b'f' => Some(b - b'a' + 10),
        _ => None,
    }
}

#[tactic(auto, unfolding(crate::specs::Reading::pair_at))]
fn pair(bytes: &[u8]) -> Option<(u8, &[u8])>
    ensures { Gives (λ x. (x.0, x.1.now)) result (pair_at bytes.now) }
{
    match bytes {
        [a, b, rest @ ..] => {
            let high = hex_value(*a)?;
            let low = hex_value(*b)?;
            Some((16 * high + low, rest))
        }
        _ => None,
    }
}

#[tactic(auto, unfolding(crate::specs::Reading::hexadecimal_at))]
fn hexadecimal(bytes: &[u8]) -> Option<(u32, &[u8])>
    ensures { Gives (λ x. (x.0, x.1.now)) result (hexadecimal_at bytes.now) }
{
    let (a, rest) = pair(bytes)?;
    let (b, rest) = pair(rest)?;
    let (c, rest) = pair(rest)?;
    let (d, rest) = pair(rest)?;
    Some((u32::from_be_bytes([a, b, c, d]), rest))
}

fn register_named(a: u8, b: u8) -> Option<Reg>
    ensures { result ≡ register_named a b }
{
    match (a, b) {
        (b'a', b'x') => Some(Reg::Eax),
        (b'c', b'x') => Some(Reg::Ecx),
        (b'd', b'x') => Some(Reg::Edx),
        (b'b', b'x') => Some(Reg::Ebx),
        (b's', b'p') => Some(Reg::Esp),
        (b'b', b'p') => Some(Reg::Ebp),
        (b's', b'i') => Some(Reg::Esi),
        (b'd', b'i') => Some(Reg::Edi),
        _ => None,
    }
}

#[tactic(auto, unfolding(crate::specs::Reading::register_at))]
fn register(bytes: &[u8]) -> Option<(Reg, &[u8])>
    ensures { Gives (λ x. (x.0, x.1.now)) result (register_at bytes.now) }
{
    match bytes {
        [_, a, b, rest @ ..] => Some((register_named(*a, *b)?, rest)),
        _ => None,
    }
}

fn low_named(a: u8) -> Option<Reg>
    ensures { result ≡ low_named a }
{
    match a {
        b'a' => Some(Reg::Eax),
        b'c' => Some(Reg::Ecx),
        b'd' => Some(Reg::Edx),
        b'b' => Some(Reg::Ebx),
        _ => None,
    }
}

fn scale_named(a: u8) -> Option<u8>
    ensures { result ≡ scale_named a }
{
    match a {
        b'1' => Some(1),
        b'2' => Some(2),
        b'4' => Some(4),
        b'8' => Some(8),
        _ => None,
    }
}

#[tactic(auto, unfolding(crate::specs::Reading::base_at))]
fn base(bytes: &[u8]) -> Option<(Option<Reg>, &[u8])>
    ensures { Gives (λ x. (x.0, x.1.now)) result (base_at bytes.now) }
{
    if letter(bytes, 0) == b'e' && letter(bytes, 3) != b'*' {
        let (r, rest) = register(bytes)?;
        Some((Some(r), skip(1, rest)))
    } else {
        Some((None, bytes))
    }
}

#[tactic(auto, unfolding(crate::specs::Reading::index_at))]
fn index(bytes: &[u8]) -> Option<(Option<(Reg, u8)>, &[u8])>
    ensures { Gives (λ x. (x.0, x.1.now)) result (index_at bytes.now) }
{
    if letter(bytes, 0) == b'e' {
        let (r, rest) = register(bytes)?;
        let scale = scale_named(letter(rest, 1))?;
        Some((Some((r, scale)), skip(3, rest)))
    } else {
        Some((None, bytes))
    }
}

#[tactic(auto, unfolding(crate::specs::Reading::width_at))]
fn width(bytes: &[u8]) -> Option<(Width, &[u8])>
    ensures { Gives (λ x. (x.0, x.1.now)) result (width_at bytes.now) }
{
    match letter(bytes, 1) {
        b'0' => Some((Width::D0, skip(3, bytes))),
        b'8' => Some((Width::D8, skip(3, bytes))),
        b'3' => Some((Width::D32, skip(4, bytes))),
        _ => None,
    }
}

#[tactic(auto, unfolding(crate::specs::Reading::address_at))]
fn address(bytes: &[u8]) -> Option<(MemAddr, &[u8])>
    ensures { Gives (λ x. (x.0, x.1.now)) result (address_at bytes.now) }
{
    let (base, rest) = base(bytes)?;
    let (index, rest) = index(rest)?;
    let (width, rest) = width(rest)?;
    let (disp, rest) = number(rest)?;
    Some((
        MemAddr {
            base,
            index,
            disp,
            width,
        },
        skip(1, rest),
    ))
}

#[tactic(auto, unfolding(crate::specs::Reading::operand_at))]
fn operand(bytes: &[u8]) -> Option<(Rm, &[u8])>
    ensures { Gives (λ x. (x.0, x.1.now)) result (operand_at bytes.now) }
{
    if letter(bytes, 0) == b'[' {
        let (a, rest) = address(skip(1, bytes))?;
        Some((Rm::Mem(a), rest))
    } else {
        let (r, rest) = register(bytes)?;
        Some((Rm::Reg(r), rest))
    }
}

/// The operands behind a name.
#[tactic(auto, unfolding(crate::specs::Reading::operands_at))]
pub(crate) fn operands(shape: Shape, bytes: &[u8]) -> Option<Operands>
    ensures { result ≡ operands_at shape bytes.now }
{
    match shape {
        Shape::Nothing => Some(Operands::Nothing),
        Shape::One => {
            let (a, _) = operand(skip(1, bytes))?;
            Some(Operands::One(a))
        }
        Shape::Two => {
            let (a, rest) = operand(skip(1, bytes))?;
            let (b, _) = operand(skip(2, rest))?;
            Some(Operands::Two(a, b))
        }
        Shape::Number => {
            let (n, _) = number(skip(1, bytes))?;
            Some(Operands::Number(n))
        }
        Shape::OneNumber => {
            let (a, rest) = operand(skip(1, bytes))?;
            let (n, _) = number(skip(2, rest))?;
            Some(Operands::OneNumber(a, n))
        }
        Shape::TwoNumber => {
            let (a, rest) = operand(skip(1, bytes))?;
            let (b, rest) = operand(skip(2, rest))?;
            let (n, _) = number(skip(2, rest))?;
            Some(Operands::TwoNumber(a, b, n))
        }
        Shape::Target => {
            let (t, _) = hexadecimal(skip(1, bytes))?;
            Some(Operands::Target(t))
        }
        Shape::LowByte => Some(Operands::LowByte(low_named(letter(bytes, 1))?)),
        Shape::OneLowByte => {
            let (a, rest) = operand(skip(1, bytes))?;
            let r = low_named(letter(rest, 2))?;
            Some(Operands::OneLowByte(a, r))
        }
    }
}
