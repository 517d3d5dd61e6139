// The rules that one block keeps, and those of all its instructions.

ghost use Rattle.std.specs.Prelude.{◌≡◌, ◌<◌, ◌↔◌, ℕ, IsTrue, Some, length};
ghost use Rattle.pra_base.specs.declared.code.VInstr.{VInstr as Instr};
ghost use Rattle.pra_base.specs.Code.{IsTarget, block_in, instr_at};
ghost use Rattle.pra_base.specs.Valid.{IsSized, EndsWithCmp, PushesLead, PushesBeforeCalls};
ghost use Rattle.pra_base.specs.Valid.{TakesAny, TakesArgs};
ghost use Rattle.vc_live.specs.Rows.{IsLiveness};
ghost use Rattle.vc_valid.specs.Rules.{KeepsRules, KeepsBlock, pushes_after};

use crate::instructions::keeps_rules;
use pra_base::{Block, BlockId, Cond, End, ProcId, VInstr, VProc, VarId};
use vc_live::Liveness;

// Whether each instruction of a block keeps its rules.
fn keep_rules_in(code: &VProc, live: &Liveness, block: u32) -> bool
    requires sized { IsSized code.now }
    requires live { IsLiveness code.now live.now }
    requires block { block < length code.now.blocks }
    ensures { IsTrue result ↔ ((k : ℕ) (i : Instr) → instr_at code.now block k ≡ Some i →
        KeepsRules code.now block k i) }
{
    let instrs = code.blocks[block as usize].code.as_slice();
    for index in 0..instrs.len() {
        if !keeps_rules(code, live, block, index as u32, &instrs[index]) {
            return false;
        }
    }
    true
}

// Whether each instruction keeps its rules.
pub(crate) fn keep_rules(code: &VProc, live: &Liveness) -> bool
    requires sized { IsSized code.now }
    requires live { IsLiveness code.now live.now }
    ensures { IsTrue result ↔ ((b k : ℕ) (i : Instr) → instr_at code.now b k ≡ Some i →
        KeepsRules code.now b k i) }
{
    for block in 0..code.blocks.len() as u32 {
        if !keep_rules_in(code, live, block) {
            return false;
        }
    }
    true
}

// Whether the end does not lead to block 0.
fn avoids_entry(end: &End) -> bool
    ensures { IsTrue result ↔ (IsTarget end.now 0 → ⊥) }
{
    match end {
        End::Jump(target) => target.0 != 0,
        End::Branch(_, one, other) => one.0 != 0 && other.0 != 0,
        End::Return => true,
    }
}

fn is_return(end: &End) -> bool
    ensures { IsTrue result ↔ (end.now ≡ End.Return) }
{
    match end {
        End::Return => true,
        _ => false,
    }
}

fn is_cmp(instr: &VInstr) -> bool
    ensures { IsTrue result ↔ ((a : VarId) × (b : VarId) × (instr.now ≡ VInstr.Cmp a b)) }
{
    match instr {
        VInstr::Cmp(_, _) => true,
        _ => false,
    }
}

fn ends_with_cmp(code: &[VInstr]) -> bool
    ensures { IsTrue result ↔ EndsWithCmp code.now }
{
    if code.is_empty() {
        return false;
    }
    is_cmp(&code[code.len() - 1])
}

fn keeps_branch(block: &Block) -> bool
    ensures { IsTrue result ↔ ((condition : Cond) (one other : BlockId) →
        block.now.end ≡ End.Branch condition one other → EndsWithCmp block.now.code) }
{
    match block.end {
        End::Branch(_, _, _) => ends_with_cmp(block.code.as_slice()),
        _ => true,
    }
}

// How many Pushes stand directly before what follows an instruction, where so many stood before it
// and, if it is a Call, they fit it or not. None where it breaks the rule on Pushes.
fn pushes_after(instr: &VInstr, pushes: usize, fits: bool) -> Option<usize>
    requires { pushes < usize.MAX }
    ensures { result ≡ pushes_after instr.now pushes fits }
{
    match instr {
        VInstr::Push(_) => Some(pushes + 1),
        VInstr::Call(_) => { if fits { Some(0) } else { None } }
        _ => { if pushes == 0 { Some(0) } else { None } }
    }
}

// Whether each Push leads to a Call with nothing but Pushes between.
fn pushes_lead(code: &[VInstr]) -> bool
    ensures { IsTrue result ↔ PushesLead TakesAny 0 code.now }
{
    let mut pushes = 0usize;
    let mut rest = code;
    while let [instr, others @ ..] = rest {
        let Some(after) = pushes_after(instr, pushes, true) else {
            return false;
        };
        pushes = after;
        rest = others;
    }
    pushes == 0
}

// Whether so many Pushes fit the instruction, if it is a Call: its callee is one of the procedures,
// whose arguments these are, and takes so many.
fn fits_call(instr: &VInstr, pushes: usize, counts: &[u32]) -> bool
    ensures { (p : ProcId) → instr.now ≡ VInstr.Call p →
        IsTrue result ↔ TakesArgs counts.now p.0 pushes }
{
    match *instr {
        VInstr::Call(callee) => takes(counts, callee, pushes),
        _ => true,
    }
}

fn takes(counts: &[u32], callee: ProcId, pushes: usize) -> bool
    ensures { IsTrue result ↔ TakesArgs counts.now callee.0 pushes }
{
    let at = callee.0 as usize;
    if at >= counts.len() {
        return false;
    }
    counts[at] as usize == pushes
}

// Whether each Call stands behind one Push for each argument, and each Push leads to a Call.
fn pushes_count(code: &[VInstr], counts: &[u32]) -> bool
    ensures { IsTrue result ↔ PushesLead (TakesArgs counts.now) 0 code.now }
{
    let mut pushes = 0usize;
    let mut rest = code;
    while let [instr, others @ ..] = rest {
        let fits = fits_call(instr, pushes, counts);
        let Some(after) = pushes_after(instr, pushes, fits) else {
            return false;
        };
        pushes = after;
        rest = others;
    }
    pushes == 0
}

fn all_count(blocks: &[Block], counts: &[u32]) -> bool
    ensures { IsTrue result ↔ PushesBeforeCalls (TakesArgs counts.now) blocks.now }
{
    for block in blocks {
        if !pushes_count(block.code.as_slice(), counts) {
            return false;
        }
    }
    true
}

/// Whether the code calls procedures of a list only, each behind one Push for each argument, where
/// these are the numbers of arguments of the procedures of the list.
pub fn is_counted(code: &VProc, counts: &[u32]) -> bool
    ensures { IsTrue result ↔ PushesBeforeCalls (TakesArgs counts.now) code.now.blocks }
{
    all_count(code.blocks.as_slice(), counts)
}

// Whether a block keeps its rules, as block `number` of so many.
pub(crate) fn keeps_block(count: usize, number: usize, block: &Block) -> bool
    requires { number < count }
    ensures { IsTrue result ↔ KeepsBlock count number block.now }
{
    if is_return(&block.end) != (number + 1 == count) {
        return false;
    }
    if !avoids_entry(&block.end) {
        return false;
    }
    if !keeps_branch(block) {
        return false;
    }
    pushes_lead(block.code.as_slice())
}

// Whether each block keeps its rules.
pub(crate) fn keep_blocks(blocks: &[Block]) -> bool
    ensures { IsTrue result ↔ ((b : ℕ) → b < length blocks.now →
        KeepsBlock (length blocks.now) b (block_in blocks.now b)) }
{
    for number in 0..blocks.len() {
        if !keeps_block(blocks.len(), number, &blocks[number]) {
            return false;
        }
    }
    true
}
