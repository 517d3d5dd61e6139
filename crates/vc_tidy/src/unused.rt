// Leaving out variables that no instruction has.

ghost use Rattle.std.specs.Prelude.{◌≡◌, ℕ, ◌<◌, ◌⊎◌, length, true, false, IfOk};
ghost use Rattle.pra_base.specs.Valid.{IsSized, IsValid};
ghost use Rattle.vc_tidy.specs.Thinned.{HasMarks, IsIn, is_marked};
ghost use Rattle.vc_tidy.specs.Unused.{AreNamed, AreNumbers, IsPacked, is_kept};

use crate::join::joined_code;
use crate::marks::mark_all;
use pra_base::{VInstr, VProc, VarKind};
use pra_list::Seq;
use std::alloc::{AllocError, Global};
use vc_code::operands;

// Marks the variables of a block's code.
fn mark_named(marks: &mut Vec<bool>, code: &[VInstr])
    requires { HasMarks marks.old.items code.now }
    ensures count { length marks.new.items ≡ length marks.old.items }
    ensures kept { (v : ℕ) → is_marked marks.old.items v ≡ true →
        is_marked marks.new.items v ≡ true }
    ensures marked { (v : ℕ) → IsIn code.now v → is_marked marks.new.items v ≡ true }
    ensures named { (v : ℕ) → is_marked marks.new.items v ≡ true →
        (is_marked marks.old.items v ≡ true) ⊎ IsIn code.now v }
{
    for instr in code {
        let row = operands(instr);
        mark_all(marks, row.reads.as_slice(), true);
        mark_all(marks, row.writes.as_slice(), true);
    }
}

// A mark for each variable, whether an instruction has it.
fn named(alloc: Global, code: &VProc) -> Result<Vec<bool>, AllocError>
    requires { IsSized code.now }
    ensures { IfOk result (λ marks. AreNamed code.now marks.items) }
{
    let mut marks = Vec::with_capacity(alloc, code.vars.len())?;
    for _ in 0..code.vars.len() {
        marks.push(false)?;
    }
    for b in 0..code.blocks.len() {
        mark_named(&mut marks, code.blocks[b].code.as_slice());
    }
    Ok(marks)
}

// Whether no instruction has the variable and it stands for no argument.
fn is_left_out(code: &VProc, marks: &[bool], v: usize) -> bool
    requires var { v < length code.now.vars }
    requires marks { length marks.now ≡ length code.now.vars }
    ensures out { result ≡ true → is_kept code.now marks.now v ≡ false }
    ensures kept { result ≡ false → is_kept code.now marks.now v ≡ true }
{
    if marks[v] {
        return false;
    }
    match code.vars[v] {
        VarKind::Param(_) => false,
        _ => true,
    }
}

/// The variables that stay, and the new number of each.
#[derive(Debug, Drop)]
struct Numbers {
    names: Vec<u32>,
    vars: Vec<VarKind>,
}

// Numbers the variables that are marked or stand for an argument, in their order.
fn number_kept(alloc: Global, code: &VProc, marks: &[bool]) -> Result<Numbers, AllocError>
    requires sized { IsSized code.now }
    requires marks { length marks.now ≡ length code.now.vars }
    ensures { IfOk result (λ numbers.
        AreNumbers code.now marks.now numbers.names.items numbers.vars.items
        (length code.now.vars)) }
{
    let mut names = Vec::with_capacity(alloc, code.vars.len())?;
    let mut vars = Vec::with_capacity(alloc, code.vars.len())?;
    for v in 0..code.vars.len() {
        names.push(vars.len() as u32)?;
        if is_left_out(code, marks, v) {
            continue;
        }
        vars.push(code.vars[v])?;
    }
    Ok(Numbers { names, vars })
}

/// The code without the variables that no instruction has and that stand for no argument, or
/// nothing where it has none. The others keep their order.
pub fn pack(alloc: Global, code: &VProc) -> Result<Option<VProc>, AllocError>
    requires valid { IsValid code.now }
    requires sized { IsSized code.now }
    ensures { IfOk result (λ new. IsPacked code.now new) }
{
    let marks = named(alloc, code)?;
    let kept = number_kept(alloc, code, marks.as_slice())?;
    let Numbers { names, vars } = kept;
    if vars.len() == code.vars.len() {
        return Ok(None);
    }
    let new = joined_code(alloc, names.as_slice(), Seq::from_vec(vars), code)?;
    Ok(Some(new))
}
