// Words of 32 bits: numbers with wrapping, which are signed in two's complement where an operation
// says so.

ghost use Rattle.std.specs.Prelude.{◌≡◌, IsTrue};
ghost use Rattle.pra_base.specs.Words as words;
ghost use Rattle.vc_code.specs.Value as value;

use pra_base::{Cond, ShiftOp};

const SIGN_BIT: u32 = 0x8000_0000;

/// The word of a signed number.
pub fn word(n: i32) -> u32
    ensures { result ≡ words.word n }
{
    n.cast_unsigned()
}

/// The signed number that a word is in two's complement.
pub fn signed(n: u32) -> i32
    ensures { result ≡ words.signed n }
{
    n.cast_signed()
}

pub fn sum(a: u32, b: u32) -> u32
    ensures { result ≡ words.sum32 a b }
{
    a.wrapping_add(b)
}

pub fn difference(a: u32, b: u32) -> u32
    ensures { result ≡ words.diff32 a b }
{
    a.wrapping_sub(b)
}

pub fn product(a: u32, b: u32) -> u32
    ensures { result ≡ words.product32 a b }
{
    a.wrapping_mul(b)
}

/// A word shifted by a count, of which the low five bits count.
pub fn shifted(op: ShiftOp, a: u32, count: u32) -> u32
    ensures { result ≡ words.shifted op a count }
{
    let count = count % 32;
    match op {
        ShiftOp::Shl => a << count,
        ShiftOp::Shr => a >> count,
        ShiftOp::Sar => (a.cast_signed() >> count).cast_unsigned(),
    }
}

/// Whether a word is above 0 as a signed number.
pub fn is_positive(n: u32) -> bool
    ensures { result ≡ words.is_positive n }
{
    n.cast_signed() > 0
}

/// Whether a word is from 0 to `n - 1` as a signed number.
pub fn is_index(i: u32, n: i32) -> bool
    ensures { result ≡ value.is_index i n }
{
    let i = i.cast_signed();
    0 <= i && i < n
}

/// The truncated quotient of signed numbers.
pub fn quotient(a: u32, by: u32) -> u32
    requires { IsTrue (words.is_positive by) }
    ensures { result ≡ words.quotient32 a by }
{
    (a.cast_signed() / by.cast_signed()).cast_unsigned()
}

/// The truncated remainder of signed numbers, with the sign of the dividend.
pub fn remainder(a: u32, by: u32) -> u32
    requires { IsTrue (words.is_positive by) }
    ensures { result ≡ words.remainder32 a by }
{
    (a.cast_signed() % by.cast_signed()).cast_unsigned()
}

/// The condition after a comparison of a with b.
pub fn compares(cond: Cond, a: u32, b: u32) -> bool
    ensures { result ≡ words.compares cond a b }
{
    match cond {
        Cond::B => a < b,
        Cond::Ae => a >= b,
        Cond::E => a == b,
        Cond::Ne => a != b,
        Cond::Be => a <= b,
        Cond::A => a > b,
        Cond::S => difference(a, b) >= SIGN_BIT,
        Cond::Ns => difference(a, b) < SIGN_BIT,
        Cond::L => signed(a) < signed(b),
        Cond::Ge => signed(a) >= signed(b),
        Cond::Le => signed(a) <= signed(b),
        Cond::G => signed(a) > signed(b),
    }
}

/// 1 where it is true, else 0.
pub fn truth(holds: bool) -> u32
    ensures { result ≡ words.truth holds }
{
    u32::from(holds)
}
