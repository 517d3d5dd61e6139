// Elements by indexes that are computed.

ghost use Rattle.std.specs.Prelude.{◌≡◌, ◌<◌, ◌≤◌, ◌^◌, ◌⊎◌, pos, length, IfOk, OnOk};
ghost use Rattle.pra_base.specs.declared.code.VInstr.TheVariants.{Check};
ghost use Rattle.vc_build.specs.Grow.{IsOpen, count, with_instr};
ghost use Rattle.vc_expr.specs.Counts.{AddsAtMost};
ghost use Rattle.vc_expr.specs.Readable.{ReadsOperands};
ghost use Rattle.vc_expr.specs.Rules.{StaysValid};
ghost use Rattle.vc_select.specs.Certified.{ReadsIndex};
ghost use Rattle.vc_select.specs.Indexes.{Checks, Scales, Sums, Indexes};
ghost use Rattle.vc_select.specs.Targets.{above_index};

use crate::constant::constant;
use ob_syntax::ROp;
use pra_base::{BlockId, OutOfMemory, VInstr, VProc, VarId};
use std::alloc::Global;
use vc_build::put;
use vc_expr::select_arithmetic;

fn signed(n: u32) -> Result<i32, OutOfMemory>
    ensures is { IfOk result (λ m. m ≡ pos n) }
    ensures small { OnOk result (n < 2 ^ 31) }
{
    let m = i32::try_from(n).map_err(|_| OutOfMemory)?;
    Ok(m)
}

fn put_check(
    alloc: Global,
    code: &mut VProc,
    at: BlockId,
    index: VarId,
    bound: i32,
) -> Result<(), OutOfMemory>
    requires { at.0 < count code.old }
    ensures { OnOk result (code.new ≡ with_instr at.0 (Check index bound) code.old) }
{
    put(alloc, code, at, VInstr::Check(index, bound))?;
    Ok(())
}

fn check(
    alloc: Global,
    code: &mut VProc,
    at: BlockId,
    index: VarId,
    count: u32,
) -> Result<(), OutOfMemory>
    requires { IsOpen code.old at.0 }
    ensures checks { OnOk result (Checks at.0 code.old code.new index.0 count) }
    ensures counts { OnOk result (AddsAtMost 1 0 0 0 code.old code.new) }
    ensures valid { OnOk result (index.0 < length code.old.vars → StaysValid code.old code.new) }
    ensures reads { OnOk result
        (ReadsOperands (length code.old.vars) at.0 code.old code.new index.0 index.0 index.0) }
{
    let bound = signed(count)?;
    put_check(alloc, code, at, index, bound)?;
    Ok(())
}

fn scale(
    alloc: Global,
    code: &mut VProc,
    at: BlockId,
    first: u32,
    index: VarId,
    words: u32,
) -> Result<VarId, OutOfMemory>
    requires is_open { IsOpen code.old at.0 }
    requires index { index.0 < length code.old.vars }
    requires first { first ≤ length code.old.vars }
    ensures is_open { OnOk result (IsOpen code.new at.0) }
    ensures vars { OnOk result (length code.old.vars ≤ length code.new.vars) }
    ensures named { IfOk result (λ v. v.0 < length code.new.vars) }
    ensures scales { IfOk result (λ v.
        Scales first at.0 code.old code.new index.0 words v.0) }
    ensures counts { OnOk result (AddsAtMost 2 1 1 0 code.old code.new) }
    ensures valid { OnOk result (StaysValid code.old code.new) }
    ensures reads { IfOk result (λ v.
        ReadsOperands first at.0 code.old code.new index.0 index.0 v.0) }
    ensures fresh { IfOk result (λ v. (v.0 ≡ index.0) ⊎ (first ≤ v.0)) }
{
    if words == 1 {
        return Ok(index);
    }
    let number = signed(words)?;
    let factor = constant(code, number)?;
    let v = select_arithmetic(alloc, code, at, first, ROp::Mul, index, factor)?;
    Ok(v)
}

fn sum(
    alloc: Global,
    code: &mut VProc,
    at: BlockId,
    first: u32,
    so_far: Option<VarId>,
    index: VarId,
) -> Result<VarId, OutOfMemory>
    requires is_open { IsOpen code.old at.0 }
    requires index { index.0 < length code.old.vars }
    requires so_far { above_index so_far ≤ length code.old.vars }
    requires first { first ≤ length code.old.vars }
    ensures is_open { OnOk result (IsOpen code.new at.0) }
    ensures vars { OnOk result (length code.old.vars ≤ length code.new.vars) }
    ensures named { IfOk result (λ v. v.0 < length code.new.vars) }
    ensures sums { IfOk result (λ v. Sums first at.0 code.old code.new so_far index.0 v.0) }
    ensures counts { OnOk result (AddsAtMost 2 1 0 0 code.old code.new) }
    ensures valid { OnOk result (StaysValid code.old code.new) }
    ensures reads { IfOk result (λ v.
        ReadsIndex first at.0 code.old code.new so_far index.0 v.0) }
{
    let Some(left) = so_far else {
        return Ok(index);
    };
    let v = select_arithmetic(alloc, code, at, first, ROp::Add, left, index)?;
    Ok(v)
}

/// From a variable with the value of an index, the index in words that leads to the element from
/// where the array begins: the value is tested, multiplied by the words of an element, and added to
/// the index so far. Variables below `first` stay; the index so far lies below `before`, which is
/// how many variables the code had before the index was selected.
///
/// # Errors
///
/// Where there is no memory, or no number; the code is of no use then.
pub fn select_index(
    alloc: Global,
    code: &mut VProc,
    at: BlockId,
    first: u32,
    before: u32,
    so_far: Option<VarId>,
    index: VarId,
    count: u32,
    words: u32,
) -> Result<VarId, OutOfMemory>
    requires is_open { IsOpen code.old at.0 }
    requires index { index.0 < length code.old.vars }
    requires so_far { above_index so_far ≤ before }
    requires first { first ≤ before }
    requires before { before ≤ length code.old.vars }
    ensures is_open { OnOk result (IsOpen code.new at.0) }
    ensures vars { OnOk result (length code.old.vars ≤ length code.new.vars) }
    ensures named { IfOk result (λ v. v.0 < length code.new.vars) }
    ensures indexes { IfOk result (λ v.
        Indexes first at.0 code.old code.new so_far index.0 count words v.0) }
    ensures counts { OnOk result (AddsAtMost 5 2 1 0 code.old code.new) }
    ensures valid { OnOk result (StaysValid code.old code.new) }
    ensures reads { IfOk result (λ v.
        ReadsIndex first at.0 code.old code.new so_far index.0 v.0) }
{
    check(alloc, code, at, index, count)?;
    let scaled = scale(alloc, code, at, before, index, words)?;
    let v = sum(alloc, code, at, first, so_far, scaled)?;
    Ok(v)
}
