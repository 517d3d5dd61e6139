// DIV and MOD, rounded down. The machine rounds toward zero, and divides by a positive number.

ghost use Rattle.std.specs.Prelude.{◌≡◌, ◌≢◌, ◌<◌, ◌≤◌, ℤ, length, true, IfOk, OnOk};
ghost use Rattle.std.specs.Int.{w32};
ghost use Rattle.std.specs.Int.RustNames.{FitsSigned};
ghost use Rattle.pra_base.specs.declared.code.VarKind.TheVariants.{Constant};
ghost use Rattle.vc_build.specs.Grow.{IsOpen};
ghost use Rattle.vc_expr.specs.Operators.{Combines, Operates};
ghost use Rattle.vc_expr.specs.Division.{is_division, is_tested, Checks, Divides, Splits};
ghost use Rattle.vc_expr.specs.Division.{AnySides, in_common, Rounds};
ghost use Rattle.pra_base.specs.Code.{kind_of};
ghost use Rattle.pra_base.specs.declared.code.VarKind.TheVariants.{Plain};
ghost use Rattle.vc_expr.specs.Rules.{OperandsApart, StaysValid};
ghost use Rattle.vc_expr.specs.Readable.{ReadsDivision, ReadsOperands};
ghost use Rattle.vc_expr.specs.Division.{ReadsSplit, ReadsRounding};
ghost use Rattle.vc_expr.specs.Counts.{AddsAtMost, OperationAdds};

use crate::arithmetic::select_arithmetic;
use crate::power::{power_of, select_by_power};
use crate::relation::select_relation;
use crate::sign::select_negation;
use crate::start::start;
use ob_syntax::checked::ROp;
use pra_base::{BlockId, OutOfMemory, VInstr, VProc, VarId, VarKind};
use std::alloc::Global;
use vc_build::{declare, put};

/// Where a division leaves what it gives, and whether the remainder is negative.
#[derive(Clone, Copy, Debug, PartialEq, Eq, Drop)]
pub struct Parts {
    pub quotient: VarId,
    pub remainder: VarId,
    pub negative: VarId,
}

fn is_tested(kind: VarKind) -> bool
    ensures tested { result ≡ is_tested kind }
    ensures fits { (n : ℤ) → kind ≡ Constant n → FitsSigned w32 n }
{
    match kind {
        VarKind::Constant(n) => n <= 0,
        _ => true,
    }
}

/// Traps unless the divisor is positive, where that is not known.
fn check_divisor(
    alloc: Global,
    code: &mut VProc,
    at: BlockId,
    divisor: VarId,
) -> Result<(), OutOfMemory>
    requires is_open { IsOpen code.old at.0 }
    requires divisor { divisor.0 < length code.old.vars }
    ensures is_open { OnOk result (IsOpen code.new at.0) }
    ensures vars { OnOk result (code.new.vars ≡ code.old.vars) }
    ensures checks { OnOk result (Checks at.0 code.old code.new divisor.0) }
    ensures counts { OnOk result (AddsAtMost 1 0 0 0 code.old code.new) }
    ensures valid { OnOk result (StaysValid code.old code.new) }
    ensures reads { OnOk result (ReadsOperands (length code.old.vars) at.0 code.old code.new
        divisor.0 divisor.0 divisor.0) }
{
    if is_tested(code.vars[divisor.0 as usize]) {
        put(alloc, code, at, VInstr::CheckPos(divisor))?;
    }
    Ok(())
}

/// Quotient and remainder, in new variables.
///
/// # Errors
///
/// Where there is no memory; the code is of no use then.
pub fn divide(
    alloc: Global,
    code: &mut VProc,
    at: BlockId,
    dividend: VarId,
    divisor: VarId,
) -> Result<(VarId, VarId), OutOfMemory>
    requires is_open { IsOpen code.old at.0 }
    requires dividend { dividend.0 < length code.old.vars }
    requires divisor { divisor.0 < length code.old.vars }
    ensures is_open { OnOk result (IsOpen code.new at.0) }
    ensures divides { IfOk result (λ v.
        Divides at.0 code.old code.new dividend.0 divisor.0 v.0.0 v.1.0) }
    ensures counts { OnOk result (AddsAtMost 1 2 0 0 code.old code.new) }
    ensures valid { OnOk result (kind_of code.old dividend.0 ≡ Plain →
        dividend.0 ≢ divisor.0 → StaysValid code.old code.new) }
    ensures reads { IfOk result (λ v.
        ReadsDivision at.0 code.old code.new dividend.0 divisor.0 v.0.0 v.1.0) }
{
    let quotient = declare(code, VarKind::Plain)?;
    let remainder = declare(code, VarKind::Plain)?;
    put(
        alloc,
        code,
        at,
        VInstr::DivMod(quotient, remainder, dividend, divisor),
    )?;
    Ok((quotient, remainder))
}

/// The quotient, the remainder, and whether the remainder is below 0.
///
/// # Errors
///
/// Where there is no memory; the code is of no use then.
fn split(
    alloc: Global,
    code: &mut VProc,
    at: BlockId,
    dividend: VarId,
    divisor: VarId,
) -> Result<Parts, OutOfMemory>
    requires is_open { IsOpen code.old at.0 }
    requires dividend { dividend.0 < length code.old.vars }
    requires divisor { divisor.0 < length code.old.vars }
    ensures is_open { OnOk result (IsOpen code.new at.0) }
    ensures vars { OnOk result (length code.old.vars ≤ length code.new.vars) }
    ensures splits { IfOk result (λ parts.
        Splits at.0 code.old code.new dividend.0 divisor.0 parts) }
    ensures counts { OnOk result (AddsAtMost 3 3 1 0 code.old code.new) }
    ensures valid { OnOk result (kind_of code.old dividend.0 ≡ Plain →
        dividend.0 ≢ divisor.0 → StaysValid code.old code.new) }
    ensures reads { IfOk result (λ parts.
        ReadsSplit at.0 code.old code.new dividend.0 divisor.0 parts) }
{
    check_divisor(alloc, code, at, divisor)?;
    let (quotient, remainder) = divide(alloc, code, at, dividend, divisor)?;
    let zero = declare(code, VarKind::Constant(0))?;
    let negative = select_relation(alloc, code, at, zero.0, ROp::Less, remainder, zero)?;
    Ok(Parts {
        quotient,
        remainder,
        negative,
    })
}

/// The bits that two operands have in common: the start of the operation, and then And.
pub fn select_and(
    alloc: Global,
    code: &mut VProc,
    at: BlockId,
    first: u32,
    left: VarId,
    right: VarId,
) -> Result<VarId, OutOfMemory>
    requires is_open { IsOpen code.old at.0 }
    requires left { left.0 < length code.old.vars }
    requires right { right.0 < length code.old.vars }
    requires first { first ≤ length code.old.vars }
    ensures is_open { OnOk result (IsOpen code.new at.0) }
    ensures vars { OnOk result (length code.old.vars ≤ length code.new.vars) }
    ensures combines { IfOk result (λ v.
        Combines AnySides in_common first at.0 code.old code.new left.0 right.0 v.0) }
    ensures counts { OnOk result (OperationAdds 1 0 0 first left.0 code.old code.new) }
    ensures valid { OnOk result (StaysValid code.old code.new) }
    ensures reads { IfOk result (λ v.
        ReadsOperands first at.0 code.old code.new left.0 right.0 v.0) }
{
    let target = start(alloc, code, at, first, left)?;
    put(alloc, code, at, VInstr::And(target, right))?;
    Ok(target)
}

/// The remainder, and the divisor more where it is negative: all bits of the divisor are added, or
/// none, so that no block is wanted.
fn round_remainder(
    alloc: Global,
    code: &mut VProc,
    at: BlockId,
    parts: Parts,
    divisor: VarId,
) -> Result<VarId, OutOfMemory>
    requires is_open { IsOpen code.old at.0 }
    requires remainder { parts.remainder.0 < parts.negative.0 }
    requires negative { parts.negative.0 < length code.old.vars }
    requires divisor { divisor.0 < parts.negative.0 }
    ensures is_open { OnOk result (IsOpen code.new at.0) }
    ensures vars { OnOk result (length code.old.vars ≤ length code.new.vars) }
    ensures rounds { IfOk result (λ v.
        Rounds parts.remainder.0 at.0 code.old code.new parts.remainder.0 parts.negative.0
        divisor.0 v.0) }
    ensures counts { OnOk result (kind_of code.old parts.negative.0 ≡ Plain →
        kind_of code.old parts.remainder.0 ≡ Plain → AddsAtMost 3 0 0 0 code.old code.new) }
    ensures valid { OnOk result (StaysValid code.old code.new) }
    ensures reads { IfOk result (λ v.
        ReadsRounding at.0 code.old code.new parts divisor.0 v.0) }
{
    let mask = select_negation(alloc, code, at, parts.negative.0, parts.negative)?;
    let added = select_and(alloc, code, at, parts.negative.0, mask, divisor)?;
    let rounded = select_arithmetic(
        alloc,
        code,
        at,
        parts.remainder.0,
        ROp::Add,
        parts.remainder,
        added,
    )?;
    Ok(rounded)
}

/// DIV or MOD by any divisor: the start of the operation, quotient and remainder, and what makes up
/// for a negative remainder.
fn select_floored(
    alloc: Global,
    code: &mut VProc,
    at: BlockId,
    first: u32,
    op: ROp,
    left: VarId,
    right: VarId,
) -> Result<VarId, OutOfMemory>
    requires is_open { IsOpen code.old at.0 }
    requires left { left.0 < length code.old.vars }
    requires right { right.0 < length code.old.vars }
    requires first { first ≤ length code.old.vars }
    requires op { is_division op ≡ true }
    ensures is_open { OnOk result (IsOpen code.new at.0) }
    ensures vars { OnOk result (length code.old.vars ≤ length code.new.vars) }
    ensures operates { IfOk result (λ v.
        Operates op first at.0 code.old code.new left.0 right.0 v.0) }
    ensures counts { OnOk result (OperationAdds 6 3 1 first left.0 code.old code.new) }
    ensures valid { OnOk result
        (OperandsApart first left.0 right.0 → StaysValid code.old code.new) }
    ensures reads { IfOk result (λ v. OperandsApart first left.0 right.0 →
        ReadsOperands first at.0 code.old code.new left.0 right.0 v.0) }
{
    let dividend = start(alloc, code, at, first, left)?;
    let parts = split(alloc, code, at, dividend, right)?;
    match op {
        ROp::Mod => {
            let rounded = round_remainder(alloc, code, at, parts, right)?;
            Ok(rounded)
        }
        _ => {
            let first = parts.quotient.0;
            let rounded = select_arithmetic(
                alloc,
                code,
                at,
                first,
                ROp::Sub,
                parts.quotient,
                parts.negative,
            )?;
            Ok(rounded)
        }
    }
}

/// DIV or MOD of two operands, rounded down.
///
/// # Errors
///
/// Where there is no memory; the code is of no use then.
pub fn select_division(
    alloc: Global,
    code: &mut VProc,
    at: BlockId,
    first: u32,
    op: ROp,
    left: VarId,
    right: VarId,
) -> Result<VarId, OutOfMemory>
    requires is_open { IsOpen code.old at.0 }
    requires left { left.0 < length code.old.vars }
    requires right { right.0 < length code.old.vars }
    requires first { first ≤ length code.old.vars }
    requires op { is_division op ≡ true }
    ensures is_open { OnOk result (IsOpen code.new at.0) }
    ensures vars { OnOk result (length code.old.vars ≤ length code.new.vars) }
    ensures operates { IfOk result (λ v.
        Operates op first at.0 code.old code.new left.0 right.0 v.0) }
    ensures counts { OnOk result (OperationAdds 6 3 1 first left.0 code.old code.new) }
    ensures valid { OnOk result
        (OperandsApart first left.0 right.0 → StaysValid code.old code.new) }
    ensures reads { IfOk result (λ v. OperandsApart first left.0 right.0 →
        ReadsOperands first at.0 code.old code.new left.0 right.0 v.0) }
{
    match power_of(code.vars[right.0 as usize], right) {
        Some(power) => {
            let exact = select_by_power(alloc, code, at, first, op, left, power)?;
            Ok(exact)
        }
        None => {
            let rounded = select_floored(alloc, code, at, first, op, left, right)?;
            Ok(rounded)
        }
    }
}
