// Results and flags of arithmetic on 32 bits.

ghost use Rattle.std.specs.Prelude.{◌≡◌, ◌^◌, ◌<◌, not, ◌+ℤ◌, ◌-ℤ◌, ◌*ℤ◌, ℤ};
ghost use Rattle.pra_base.specs.Words.{sign, signed, fits_word, truth, sum32, diff32, product32};
ghost use Rattle.ia_step.specs.Arithmetic.{sum_flags, diff_flags, bit_flags, product_flags};
ghost use Rattle.ia_step.specs.Arithmetic.{result_of, flags_of, no_flags, shift_flags};
ghost use Rattle.pra_base.specs.Words.{shifted as shifted_of};
ghost use Rattle.ia_step.specs.Arithmetic.{with_low_byte as with_low_byte_of};
ghost use Rattle.ia_step.specs.Effect.{sign_word as sign_word_of};

use crate::flags::Flags;
use ia_code::ins::AluOp;
use pra_base::ShiftOp;

const SIGN_BIT: u32 = 0x8000_0000;

fn is_negative(a: u32) -> bool
    ensures { result ≡ sign a }
{
    a >= SIGN_BIT
}

pub fn sum(a: u32, b: u32) -> u32
    ensures { result ≡ sum32 a b }
{
    a.wrapping_add(b)
}

pub fn difference(a: u32, b: u32) -> u32
    ensures { result ≡ diff32 a b }
{
    a.wrapping_sub(b)
}

pub fn product(a: u32, b: u32) -> u32
    ensures { result ≡ product32 a b }
{
    a.wrapping_mul(b)
}

fn sum_overflows(a: u32, b: u32) -> bool
    ensures { result ≡ not (fits_word (signed a +ℤ signed b)) }
{
    a.cast_signed().overflowing_add(b.cast_signed()).1
}

fn difference_overflows(a: u32, b: u32) -> bool
    ensures { result ≡ not (fits_word (signed a -ℤ signed b)) }
{
    a.cast_signed().overflowing_sub(b.cast_signed()).1
}

fn product_overflows(a: u32, b: u32) -> bool
    ensures { result ≡ not (fits_word (signed a *ℤ signed b)) }
{
    a.cast_signed().overflowing_mul(b.cast_signed()).1
}

#[tactic(auto, unfolding(crate::specs::Arithmetic::sum_flags))]
fn flags_of_sum(a: u32, b: u32) -> Flags
    ensures { result ≡ sum_flags a b }
{
    let result = sum(a, b);
    Flags {
        cf: Some(a.overflowing_add(b).1),
        zf: Some(result == 0),
        sf: Some(is_negative(result)),
        of: Some(sum_overflows(a, b)),
    }
}

#[tactic(auto, unfolding(crate::specs::Arithmetic::diff_flags))]
pub fn flags_of_difference(a: u32, b: u32) -> Flags
    ensures { result ≡ diff_flags a b }
{
    let result = difference(a, b);
    Flags {
        cf: Some(a < b),
        zf: Some(result == 0),
        sf: Some(is_negative(result)),
        of: Some(difference_overflows(a, b)),
    }
}

#[tactic(auto, unfolding(crate::specs::Arithmetic::bit_flags))]
pub fn flags_of_bits(bits: u32) -> Flags
    ensures { result ≡ bit_flags bits }
{
    Flags {
        cf: Some(false),
        zf: Some(bits == 0),
        sf: Some(is_negative(bits)),
        of: Some(false),
    }
}

#[tactic(auto, unfolding(crate::specs::Arithmetic::product_flags))]
pub fn flags_of_product(a: u32, b: u32) -> Flags
    ensures { result ≡ product_flags a b }
{
    let unfit = product_overflows(a, b);
    Flags {
        cf: Some(unfit),
        zf: None,
        sf: None,
        of: Some(unfit),
    }
}

/// A word shifted by a count, of which the low five bits count.
pub fn shifted(op: ShiftOp, a: u32, count: u8) -> u32
    ensures { result ≡ shifted_of op a count }
{
    let count = u32::from(count) % 32;
    match op {
        ShiftOp::Shl => a << count,
        ShiftOp::Shr => a >> count,
        ShiftOp::Sar => (a.cast_signed() >> count).cast_unsigned(),
    }
}

#[tactic(auto, unfolding(crate::specs::Arithmetic::shift_flags))]
pub fn flags_of_shift(before: Flags, result_word: u32, count: u8) -> Flags
    ensures { result ≡ shift_flags before result_word count }
{
    if count % 32 == 0 {
        return before;
    }
    Flags {
        cf: None,
        zf: Some(result_word == 0),
        sf: Some(is_negative(result_word)),
        of: None,
    }
}

/// No flag is known.
pub fn unknown_flags() -> Flags
    ensures { result ≡ no_flags }
{
    Flags {
        cf: None,
        zf: None,
        sf: None,
        of: None,
    }
}

pub fn compute(op: AluOp, a: u32, b: u32) -> u32
    ensures { result ≡ result_of op a b }
{
    match op {
        AluOp::Add => sum(a, b),
        AluOp::Or => a | b,
        AluOp::And => a & b,
        AluOp::Sub | AluOp::Cmp => difference(a, b),
        AluOp::Xor => a ^ b,
    }
}

pub fn flags(op: AluOp, a: u32, b: u32) -> Flags
    ensures { result ≡ flags_of op a b }
{
    match op {
        AluOp::Add => flags_of_sum(a, b),
        AluOp::Or => flags_of_bits(a | b),
        AluOp::And => flags_of_bits(a & b),
        AluOp::Sub | AluOp::Cmp => flags_of_difference(a, b),
        AluOp::Xor => flags_of_bits(a ^ b),
    }
}

/// The sign bit in each bit.
pub fn sign_word(a: u32) -> u32
    ensures { result ≡ sign_word_of a }
{
    if is_negative(a) { u32::MAX } else { 0 }
}

/// The number with its low byte replaced by 1 or 0.
pub fn with_low_byte(a: u32, bit: bool) -> u32
    ensures { result ≡ with_low_byte_of a (truth bit) }
{
    a / 256 * 256 + u32::from(bit)
}
