// Elements of arrays: by a constant, or by an index that is in a variable.

ghost use Rattle.std.specs.Prelude.{◌≡◌, ◌≢◌, ◌<◌, ◌≤◌, ◌*◌, ℕ, pos, length, None};
ghost use Rattle.std.specs.Prelude.{IfSome, IfOk, OnOk, OnSome};
ghost use Rattle.ob_syntax.specs.declared.checked.RExpr.TheVariants.{Number, Binary};
ghost use Rattle.vc_build.specs.Grow.{IsOpen};
ghost use Rattle.vc_expr.specs.Counts.{AddsAtMost};
ghost use Rattle.vc_expr.specs.Rules.{StaysValid};
ghost use Rattle.vc_select.specs.Blocks.{needs};
ghost use Rattle.vc_select.specs.Certified.{ReadsTarget};
ghost use Rattle.vc_select.specs.Indexes.{IndexedBy};
ghost use Rattle.vc_select.specs.Selects.{Always};
ghost use Rattle.vc_select.specs.Targets.{above_target, above_target_base, whole_of};

use crate::index::select_index;
use crate::target::Target;
use ob_syntax::{RExpr, ROp};
use pra_base::{Addr, BlockId, OutOfMemory, VProc, VarId};
use std::alloc::Global;

/// A target, and the type of what it names.
#[derive(Clone, Copy, Debug, PartialEq, Eq)]
pub struct Reached {
    pub target: Target,
    pub type_id: u32,
}

/// An index in a variable: where it is, how many variables the code had before it was selected, the
/// length of its array, and the words of an element.
#[derive(Clone, Copy, Debug, PartialEq, Eq)]
pub struct Subscript {
    pub variable: VarId,
    pub before: u32,
    pub count: u32,
    pub words: u32,
}

fn in_range(n: i32, count: u32) -> Option<u32>
    ensures below { IfSome result (λ k. k < count) }
    ensures is { IfSome result (λ k. n ≡ pos k) }
    ensures none { result ≡ None → (k : ℕ) → k < count → n ≢ pos k }
{
    let k = u32::try_from(n).ok()?;
    if k < count { Some(k) } else { None }
}

/// The element that an index names that is a number in range.
pub fn constant_index(e: &RExpr, count: u32) -> Option<u32>
    ensures below { IfSome result (λ k. k < count) }
    ensures means { IfSome result (λ k. Always e.now k) }
    ensures no_blocks { OnSome result ((needs e.now).value ≡ 0) }
    ensures none { result ≡ None → (k : ℕ) → k < count → e.now ≢ Number (pos k) }
{
    match e {
        RExpr::Number(n) => {
            let k = in_range(*n, count)?;
            Some(k)
        }
        _ => None,
    }
}

/// How many words lie before an element.
///
/// # Errors
///
/// Where there is no number for them.
pub fn distance(k: u32, words: u32) -> Result<u32, OutOfMemory>
    ensures { IfOk result (λ n. n ≡ k * words) }
{
    let distance = k.checked_mul(words).ok_or(OutOfMemory)?;
    Ok(distance)
}

/// The target of an element by an index that is in a variable. A variable of the code has no
/// elements.
///
/// # Errors
///
/// Where there is no memory, or no number; the code is of no use then.
pub fn indexed(
    alloc: Global,
    code: &mut VProc,
    at: BlockId,
    first: u32,
    target: Target,
    index: Subscript,
) -> Result<Target, OutOfMemory>
    requires is_open { IsOpen code.old at.0 }
    requires index { index.variable.0 < length code.old.vars }
    requires target { above_target target ≤ index.before }
    requires first { first ≤ index.before }
    requires before { index.before ≤ length code.old.vars }
    ensures is_open { OnOk result (IsOpen code.new at.0) }
    ensures vars { OnOk result (length code.old.vars ≤ length code.new.vars) }
    ensures named { IfOk result (λ t. above_target t ≤ length code.new.vars) }
    ensures base { IfOk result (λ t. above_target_base t ≡ above_target_base target) }
    ensures whole { IfOk result (λ t. whole_of t ≡ whole_of target) }
    ensures indexed { IfOk result (λ t. IndexedBy first at.0 code.old code.new target
        index.variable.0 index.count index.words t) }
    ensures counts { OnOk result (AddsAtMost 5 2 1 0 code.old code.new) }
    ensures valid { OnOk result (StaysValid code.old code.new) }
    ensures reads { IfOk result (λ t. above_target_base target ≤ first →
        ReadsTarget first at.0 code.old code.new target index.variable.0 t) }
{
    match target {
        Target::Var(v) => Ok(Target::Var(v)),
        Target::Memory(address) => {
            let index = select_index(
                alloc,
                code,
                at,
                first,
                index.before,
                address.index,
                index.variable,
                index.count,
                index.words,
            )?;
            Ok(Target::Memory(Addr {
                base: address.base,
                offset: address.offset,
                index: Some(index),
            }))
        }
    }
}

/// Says that an expression is a number, so that what follows need not show it.
pub fn confirm_number(e: &RExpr, n: i32)
    requires { e.now ≡ Number n }
    ensures { e.now ≡ Number n }
{}

/// Says what the parts of an expression are.
pub fn confirm_binary(e: &RExpr, op: ROp, x: &RExpr, y: &RExpr)
    requires { e.now ≡ Binary op x.now y.now }
    ensures { e.now ≡ Binary op x.now y.now }
{}
