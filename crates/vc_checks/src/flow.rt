// A walk over blocks from facts that are said to hold at their begins, which leaves out checks that
// cannot fail, and tests that those facts hold wherever control comes there.

ghost use Rattle.std.specs.Prelude.{◌≡◌, ◌<◌, ℕ, ◌∷◌, [], length, IfOk, IfSome, true};
ghost use Rattle.pra_base.specs.Code.{kind_of};
ghost use Rattle.vc_code.specs.Value.{Held};
ghost use Rattle.vc_checks.specs.Facts.{Entail, IsBetween, Kinds};
ghost use Rattle.vc_checks.specs.LeftOut.{LeavesOut, Thins, ThinsAll, ThinsBlock, begins_in};
ghost use Rattle.vc_checks.specs.LeftOut.{with_blocks};
ghost use Rattle.vc_checks.specs.Ways.{Leave};

use crate::fact::Fact;
use crate::known::{cannot_fail, find, pass};
use crate::ways::{Ways, ways_out};
use pra_base::{Block, BlockId, End, VInstr, VProc};
use pra_list::Seq;
use std::alloc::{AllocError, Global};

fn is_within(inner: Fact, outer: Fact) -> bool
    ensures { result ≡ true → (h : Held) → IsBetween inner.low inner.high h →
        IsBetween outer.low outer.high h }
{
    outer.low <= inner.low && inner.high <= outer.high
}

fn holds(known: &[Fact], fact: Fact) -> bool
    ensures { result ≡ true → (kind : Kinds) → Entail kind known.now (fact ∷ []) }
{
    match find(known, fact.var) {
        Some(inner) => is_within(inner, fact),
        None => false,
    }
}

fn all_hold(known: &[Fact], wanted: &[Fact]) -> bool
    ensures { result ≡ true → (kind : Kinds) → Entail kind known.now wanted.now }
{
    for fact in wanted {
        if !holds(known, *fact) {
            return false;
        }
    }
    true
}

/// The facts at the begin of a block; none past the last block.
pub fn facts_at(begins: &[Seq<Fact>], b: usize) -> &[Fact]
    ensures { result.now ≡ begins_in begins.now b }
{
    match begins.get(b) {
        Some(facts) => facts.as_slice(),
        None => &[],
    }
}

fn enters(begins: &[Seq<Fact>], known: &[Fact], block: BlockId) -> bool
    ensures { result ≡ true → (kind : Kinds) →
        Entail kind known.now (begins_in begins.now block.0) }
{
    all_hold(known, facts_at(begins, block.0 as usize))
}

// Whether all holds with which the blocks begin to which the end leads.
fn leaves(begins: &[Seq<Fact>], ways: &Ways, end: End) -> bool
    ensures { result ≡ true → Leave (begins_in begins.now) end ways.now }
{
    match end {
        End::Jump(block) => enters(begins, ways.one.as_slice(), block),
        End::Branch(_, one, other) => {
            enters(begins, ways.one.as_slice(), one) && enters(begins, ways.other.as_slice(), other)
        }
        End::Return => true,
    }
}

// The instructions without checks that cannot fail by what is known, which is handed on.
fn thin_code(
    alloc: Global,
    code: &VProc,
    wanted: &[bool],
    known: &mut Vec<Fact>,
    instrs: &[VInstr],
) -> Result<Vec<VInstr>, AllocError>
    ensures { IfOk result (λ kept.
        Thins (kind_of code.now) known.old.items instrs.now known.new.items kept.items) }
{
    let mut kept = Vec::with_capacity(alloc, instrs.len())?;
    for instr in instrs {
        if !cannot_fail(code, known.as_slice(), *instr) {
            pass(code, wanted, known, *instr)?;
            kept.push(*instr)?;
        }
    }
    Ok(kept)
}

// A block without checks that cannot fail, or nothing where the facts are not sound.
fn thin_block(
    alloc: Global,
    code: &VProc,
    wanted: &[bool],
    begins: &[Seq<Fact>],
    b: usize,
) -> Result<Option<Block>, AllocError>
    requires { b < length code.now.blocks }
    ensures { IfOk result (λ new. IfSome new (λ block.
        ThinsBlock code.now (begins_in begins.now) b block)) }
{
    let block = &code.blocks[b];
    let mut known = Vec::from_slice(alloc, facts_at(begins, b))?;
    let kept = thin_code(alloc, code, wanted, &mut known, block.code.as_slice())?;
    let ways = ways_out(alloc, code, wanted, known.as_slice(), block)?;
    if !leaves(begins, &ways, block.end) {
        return Ok(None);
    }
    Ok(Some(Block {
        depth: block.depth,
        code: Seq::from_vec(kept),
        end: block.end,
    }))
}

fn thin_blocks(
    alloc: Global,
    code: &VProc,
    wanted: &[bool],
    begins: &[Seq<Fact>],
) -> Result<Option<Vec<Block>>, AllocError>
    ensures { IfOk result (λ new. IfSome new (λ blocks.
        ThinsAll code.now (begins_in begins.now) blocks.items (length code.now.blocks))) }
{
    let mut blocks = Vec::with_capacity(alloc, code.blocks.len())?;
    for b in 0..code.blocks.len() {
        let Some(block) = thin_block(alloc, code, wanted, begins, b)? else {
            return Ok(None);
        };
        blocks.push(block)?;
    }
    Ok(Some(blocks))
}

/// The blocks of the code without checks that cannot fail by facts that are said to hold at their
/// begins; or nothing where they don't hold wherever control comes, as far as is seen.
///
/// # Errors
///
/// Where there is no memory.
pub fn blocks_without(
    alloc: Global,
    code: &VProc,
    wanted: &[bool],
    begins: &[Seq<Fact>],
) -> Result<Option<Vec<Block>>, AllocError>
    ensures { IfOk result (λ new. IfSome new (λ blocks.
        LeavesOut code.now (with_blocks code.now blocks.items))) }
{
    if !facts_at(begins, 0).is_empty() {
        return Ok(None);
    }
    let blocks = thin_blocks(alloc, code, wanted, begins)?;
    Ok(blocks)
}
