// DIV, MOD and products by a power of two: the low bits of a number are its remainder, rounded
// down, and the others, shifted down to the place of the low ones, are the quotient. A product is a
// number shifted up.

ghost use Rattle.std.specs.Prelude.{◌≡◌, ◌≢◌, ◌<◌, ◌≤◌, ◌^◌, ◌<ℤ◌, ◌-ℤ◌, pos, length, true, false};
ghost use Rattle.std.specs.Prelude.{OnOk, IfOk, IfSome};
ghost use Rattle.pra_base.specs.Code.{kind_of};
ghost use Rattle.pra_base.specs.declared.code.VarKind.TheVariants.{Constant};
ghost use Rattle.vc_build.specs.Grow.{IsOpen};
ghost use Rattle.vc_expr.specs.Operators.{Converts, Operates};
ghost use Rattle.vc_expr.specs.Division.{is_division, IsPower, quotient_by, remainder_by};
ghost use Rattle.vc_expr.specs.Division.{shifted_by};
ghost use Rattle.vc_expr.specs.Rules.{StaysValid};
ghost use Rattle.vc_expr.specs.Readable.{ReadsOperands};
ghost use Rattle.vc_expr.specs.Counts.{OperationAdds};

use crate::arithmetic::select_arithmetic;
use crate::division::select_and;
use crate::start::start;
use ob_syntax::checked::ROp;
use pra_base::{BlockId, OutOfMemory, ShiftOp, VInstr, VProc, VarId, VarKind};
use std::alloc::Global;
use vc_build::{declare, put};

// The greatest power of two of 31 bits has exponent 30. The least number has the bits of one more.
const EXPONENTS: u32 = 31;

fn is_power(n: i32) -> bool
    ensures { result ≡ true → IsPower n }
{
    let bits = n.cast_unsigned();
    let exponent = bits.trailing_zeros();
    exponent < EXPONENTS && bits == 1 << exponent
}

// The greatest number that an instruction has as an immediate of 8 bits.
const SHORT: i32 = 127;

/// A divisor or a factor that is a constant power of two.
#[derive(Clone, Copy, Debug, PartialEq, Eq, Drop)]
pub struct Power {
    pub divisor: VarId,
    pub number: i32,
}

/// A divisor or a factor of this kind, if it is a constant power of two.
pub fn power_of(kind: VarKind, divisor: VarId) -> Option<Power>
    ensures power { IfSome result (λ power. IsPower power.number) }
    ensures kind { IfSome result (λ power. kind ≡ Constant power.number) }
    ensures divisor { IfSome result (λ power. power.divisor ≡ divisor) }
{
    match kind {
        VarKind::Constant(number) => {
            if is_power(number) {
                Some(Power { divisor, number })
            } else {
                None
            }
        }
        _ => None,
    }
}

fn is_one(power: Power) -> bool
    ensures yes { (result ≡ true) → (power.number ≡ pos 1) }
    ensures no { (result ≡ false) → (power.number ≢ pos 1) }
{
    power.number == 1
}

// the bits below a power of two
fn low_bits(power: Power) -> VarKind
    requires { pos 0 <ℤ power.number }
    ensures { result ≡ Constant (power.number -ℤ pos 1) }
{
    VarKind::Constant(power.number - 1)
}

fn exponent_of(power: Power) -> u32
    requires { IsPower power.number }
    ensures small { result < 31 }
    ensures is { power.number ≡ pos (2 ^ result) }
{
    let bits = power.number.cast_unsigned();
    bits.trailing_zeros()
}

/// An operand that is shifted by so many bits: the start of the operation, and then Shift.
fn select_shift(
    alloc: Global,
    code: &mut VProc,
    at: BlockId,
    first: u32,
    op: ShiftOp,
    operand: VarId,
    count: u32,
) -> Result<VarId, OutOfMemory>
    requires is_open { IsOpen code.old at.0 }
    requires operand { operand.0 < length code.old.vars }
    requires first { first ≤ length code.old.vars }
    requires low { 1 ≤ count }
    requires high { count ≤ 31 }
    ensures is_open { OnOk result (IsOpen code.new at.0) }
    ensures vars { OnOk result (length code.old.vars ≤ length code.new.vars) }
    ensures converts { IfOk result (λ v.
        Converts (shifted_by op count) first at.0 code.old code.new operand.0 v.0) }
    ensures counts { OnOk result (OperationAdds 1 0 0 first operand.0 code.old code.new) }
    ensures valid { OnOk result (StaysValid code.old code.new) }
    ensures reads { IfOk result (λ v.
        ReadsOperands first at.0 code.old code.new operand.0 operand.0 v.0) }
{
    let target = start(alloc, code, at, first, operand)?;
    put(alloc, code, at, VInstr::Shift(op, target, count))?;
    Ok(target)
}

/// MOD by a power of two: the low bits.
///
/// # Errors
///
/// Where there is no memory; the code is of no use then.
pub fn select_remainder(
    alloc: Global,
    code: &mut VProc,
    at: BlockId,
    first: u32,
    operand: VarId,
    power: Power,
) -> Result<VarId, OutOfMemory>
    requires is_open { IsOpen code.old at.0 }
    requires operand { operand.0 < length code.old.vars }
    requires first { first ≤ length code.old.vars }
    requires power { IsPower power.number }
    ensures is_open { OnOk result (IsOpen code.new at.0) }
    ensures vars { OnOk result (length code.old.vars ≤ length code.new.vars) }
    ensures converts { IfOk result (λ v.
        Converts (remainder_by power.number) first at.0 code.old code.new operand.0 v.0) }
    ensures counts { OnOk result (OperationAdds 1 0 1 first operand.0 code.old code.new) }
    ensures valid { OnOk result (StaysValid code.old code.new) }
    ensures reads { IfOk result (λ v.
        ReadsOperands first at.0 code.old code.new operand.0 operand.0 v.0) }
{
    let mask = declare(code, low_bits(power))?;
    let low = select_and(alloc, code, at, first, operand, mask)?;
    Ok(low)
}

/// DIV by a power of two that is not 1: a shift to the right with the sign, which rounds down.
fn select_exactly(
    alloc: Global,
    code: &mut VProc,
    at: BlockId,
    first: u32,
    operand: VarId,
    power: Power,
) -> Result<VarId, OutOfMemory>
    requires is_open { IsOpen code.old at.0 }
    requires operand { operand.0 < length code.old.vars }
    requires first { first ≤ length code.old.vars }
    requires power { IsPower power.number }
    requires more { power.number ≢ pos 1 }
    ensures is_open { OnOk result (IsOpen code.new at.0) }
    ensures vars { OnOk result (length code.old.vars ≤ length code.new.vars) }
    ensures converts { IfOk result (λ v.
        Converts (quotient_by power.number) first at.0 code.old code.new operand.0 v.0) }
    ensures counts { OnOk result (OperationAdds 1 0 0 first operand.0 code.old code.new) }
    ensures valid { OnOk result (StaysValid code.old code.new) }
    ensures reads { IfOk result (λ v.
        ReadsOperands first at.0 code.old code.new operand.0 operand.0 v.0) }
{
    let count = exponent_of(power);
    let quotient = select_shift(alloc, code, at, first, ShiftOp::Sar, operand, count)?;
    Ok(quotient)
}

/// DIV by a power of two. By 1 it is the operand, at the start of the operation.
///
/// # Errors
///
/// Where there is no memory; the code is of no use then.
pub fn select_quotient(
    alloc: Global,
    code: &mut VProc,
    at: BlockId,
    first: u32,
    operand: VarId,
    power: Power,
) -> Result<VarId, OutOfMemory>
    requires is_open { IsOpen code.old at.0 }
    requires operand { operand.0 < length code.old.vars }
    requires first { first ≤ length code.old.vars }
    requires power { IsPower power.number }
    ensures is_open { OnOk result (IsOpen code.new at.0) }
    ensures vars { OnOk result (length code.old.vars ≤ length code.new.vars) }
    ensures converts { IfOk result (λ v.
        Converts (quotient_by power.number) first at.0 code.old code.new operand.0 v.0) }
    ensures counts { OnOk result (OperationAdds 1 0 0 first operand.0 code.old code.new) }
    ensures valid { OnOk result (StaysValid code.old code.new) }
    ensures reads { IfOk result (λ v.
        ReadsOperands first at.0 code.old code.new operand.0 operand.0 v.0) }
{
    if is_one(power) {
        let whole = start(alloc, code, at, first, operand)?;
        return Ok(whole);
    }
    let quotient = select_exactly(alloc, code, at, first, operand, power)?;
    Ok(quotient)
}

/// DIV or MOD by a power of two.
///
/// # Errors
///
/// Where there is no memory; the code is of no use then.
pub fn select_by_power(
    alloc: Global,
    code: &mut VProc,
    at: BlockId,
    first: u32,
    op: ROp,
    left: VarId,
    power: Power,
) -> Result<VarId, OutOfMemory>
    requires is_open { IsOpen code.old at.0 }
    requires left { left.0 < length code.old.vars }
    requires divisor { power.divisor.0 < length code.old.vars }
    requires first { first ≤ length code.old.vars }
    requires op { is_division op ≡ true }
    requires power { IsPower power.number }
    requires kind { kind_of code.old power.divisor.0 ≡ Constant power.number }
    ensures is_open { OnOk result (IsOpen code.new at.0) }
    ensures vars { OnOk result (length code.old.vars ≤ length code.new.vars) }
    ensures operates { IfOk result (λ v.
        Operates op first at.0 code.old code.new left.0 power.divisor.0 v.0) }
    ensures counts { OnOk result (OperationAdds 6 3 1 first left.0 code.old code.new) }
    ensures valid { OnOk result (StaysValid code.old code.new) }
    ensures reads { IfOk result (λ v.
        ReadsOperands first at.0 code.old code.new left.0 power.divisor.0 v.0) }
{
    match op {
        ROp::Mod => {
            let remainder = select_remainder(alloc, code, at, first, left, power)?;
            Ok(remainder)
        }
        _ => {
            let quotient = select_quotient(alloc, code, at, first, left, power)?;
            Ok(quotient)
        }
    }
}

// Whether a factor is none that an instruction has as an immediate of 8 bits: a product by one of
// those is no longer than a shift.
fn is_long(power: Power) -> bool
    ensures { (result ≡ true) → (pos 127 <ℤ power.number) }
{
    power.number > SHORT
}

/// A factor of this kind, if a product by it is longer than a shift.
fn long_power_of(kind: VarKind, factor: VarId) -> Option<Power>
    ensures power { IfSome result (λ power. IsPower power.number) }
    ensures long { IfSome result (λ power. pos 127 <ℤ power.number) }
    ensures kind { IfSome result (λ power. kind ≡ Constant power.number) }
{
    let power = power_of(kind, factor)?;
    if is_long(power) { Some(power) } else { None }
}

/// A product: by a constant power of two that takes an immediate of 32 bits it is a shift to the
/// left, which is shorter.
///
/// # Errors
///
/// Where there is no memory; the code is of no use then.
pub fn select_product(
    alloc: Global,
    code: &mut VProc,
    at: BlockId,
    first: u32,
    left: VarId,
    right: VarId,
) -> Result<VarId, OutOfMemory>
    requires is_open { IsOpen code.old at.0 }
    requires left { left.0 < length code.old.vars }
    requires right { right.0 < length code.old.vars }
    requires first { first ≤ length code.old.vars }
    ensures is_open { OnOk result (IsOpen code.new at.0) }
    ensures vars { OnOk result (length code.old.vars ≤ length code.new.vars) }
    ensures operates { IfOk result (λ v.
        Operates ROp.Mul first at.0 code.old code.new left.0 right.0 v.0) }
    ensures counts { OnOk result (OperationAdds 1 0 0 first left.0 code.old code.new) }
    ensures valid { OnOk result (StaysValid code.old code.new) }
    ensures reads { IfOk result (λ v.
        ReadsOperands first at.0 code.old code.new left.0 right.0 v.0) }
{
    if let Some(power) = long_power_of(code.vars[right.0 as usize], right) {
        let count = exponent_of(power);
        let shifted = select_shift(alloc, code, at, first, ShiftOp::Shl, left, count)?;
        return Ok(shifted);
    }
    if let Some(factor) = long_power_of(code.vars[left.0 as usize], left) {
        let bits = exponent_of(factor);
        let multiple = select_shift(alloc, code, at, first, ShiftOp::Shl, right, bits)?;
        return Ok(multiple);
    }
    let product = select_arithmetic(alloc, code, at, first, ROp::Mul, left, right)?;
    Ok(product)
}
