// Memory pairs: two operands of one instruction, of which one at most is in memory.

ghost use Rattle.std.specs.Prelude.{◌≡◌, ℕ, ◌++◌, ◌<◌, ◌≤◌, ◌+◌, ◌*◌, ◌^◌, ◌&&◌, nat_eq, nat_le};
ghost use Rattle.std.specs.Prelude.{length, false, IfOk, OnOk, option_to_list};
ghost use Rattle.pra_base.specs.Operands.{operands};
ghost use Rattle.pra_base.specs.Valid.{IsSized};
ghost use Rattle.net_form.specs.Network.{stands_for, strand_of, marked, pair_of, pairs};
ghost use Rattle.net_form.specs.Tables.{all_tables};
ghost use Rattle.net_build.specs.Marks.{marks_of, block_pairs, AreBefore};

use net_form::{MemPair, Strand};
use pra_base::{VInstr, VProc, VarId};
use pra_list::Seq;
use std::alloc::{AllocError, Global};

// An operand in the memory pair: its variable, and its layer.
#[derive(Clone, Copy)]
pub(crate) struct Mark {
    pub var: u32,
    pub layer: u32,
}

// The operands of an instruction in its memory pair.
#[derive(Clone, Copy)]
pub(crate) struct Marks {
    pub left: Mark,
    pub right: Mark,
}

fn both(left: VarId, left_layer: u32, right: VarId, right_layer: u32) -> Marks
    ensures left { result.left ≡ record { var = left.0; layer = left_layer } }
    ensures right { result.right ≡ record { var = right.0; layer = right_layer } }
{
    Marks {
        left: Mark {
            var: left.0,
            layer: left_layer,
        },
        right: Mark {
            var: right.0,
            layer: right_layer,
        },
    }
}

// The operands in the memory pair of the instruction of this number in its block.
fn marked(index: u32, instr: &VInstr) -> Option<Marks>
    requires { index < 100000 }
    ensures { marks_of result ≡ marked index (operands instr.now) }
{
    let before = 2 * index + 1;
    let after = 2 * index + 2;
    match instr {
        VInstr::Copy(target, source) => Some(both(*source, before, *target, after)),
        VInstr::Add(target, source) => Some(both(*target, before, *source, before)),
        VInstr::Sub(target, source) => Some(both(*target, before, *source, before)),
        VInstr::And(target, source) => Some(both(*target, before, *source, before)),
        VInstr::Or(target, source) => Some(both(*target, before, *source, before)),
        VInstr::Xor(target, source) => Some(both(*target, before, *source, before)),
        VInstr::Cmp(one, other) => Some(both(*one, before, *other, before)),
        VInstr::CmpSet(_, _, one, other) => Some(both(*one, before, *other, before)),
        _ => None,
    }
}

// Whether the strand is the variable's at the layer.
fn stands_for(strand: &Strand, var: u32, block: u32, layer: u32) -> bool
    ensures { result ≡ stands_for var block layer strand.now }
{
    if strand.var.0 != var || strand.block.0 != block {
        return false;
    }
    strand.first <= layer && layer <= strand.last
}

// The number of the strand of a variable at a layer of a block; those before `from` are of earlier
// blocks.
fn strand_of(strands: &Seq<Strand>, from: u32, var: u32, block: u32, layer: u32) -> u32
    requires few { length strands.now < 2 ^ 32 }
    requires within { from ≤ length strands.now }
    requires before { AreBefore strands.now block from }
    ensures { result ≡ strand_of strands.now var block layer }
{
    let count = strands.len() as u32;
    let mut at = from;
    while at < count && !stands_for(&strands[at as usize], var, block, layer) {
        at += 1;
    }
    at
}

// Adds the memory pair of an instruction, if it has one.
fn add_pair(
    strands: &Seq<Strand>,
    from: u32,
    block: u32,
    index: u32,
    instr: &VInstr,
    out: &mut Seq<MemPair>,
) -> Result<(), AllocError>
    requires few { length strands.now < 2 ^ 32 }
    requires within { from ≤ length strands.now }
    requires before { AreBefore strands.now block from }
    requires index { index < 100000 }
    ensures { OnOk result (out.new ≡ out.old ++
        option_to_list (pair_of strands.now block (marked index (operands instr.now)))) }
{
    let Some(pair) = marked(index, instr) else {
        return Ok(());
    };
    let left = pair.left;
    let right = pair.right;
    if left.var == right.var {
        return Ok(());
    }
    out.push(MemPair {
        left: strand_of(strands, from, left.var, block, left.layer),
        left_layer: left.layer,
        right: strand_of(strands, from, right.var, block, right.layer),
        right_layer: right.layer,
    })?;
    Ok(())
}

// How many strands at the begin are of earlier blocks, of which so many are known to be.
fn skip(strands: &Seq<Strand>, from: u32, block: u32) -> u32
    requires few { length strands.now < 2 ^ 32 }
    requires within { from ≤ length strands.now }
    requires before { AreBefore strands.now block from }
    ensures within { result ≤ length strands.now }
    ensures before { AreBefore strands.now block result }
{
    let count = strands.len() as u32;
    let mut at = from;
    while at < count && strands[at as usize].block.0 < block {
        at += 1;
    }
    at
}

// Adds the memory pairs of a block.
fn add_block(
    code: &VProc,
    strands: &Seq<Strand>,
    from: u32,
    block: u32,
    out: &mut Seq<MemPair>,
) -> Result<(), AllocError>
    requires sized { IsSized code.now }
    requires few { length strands.now < 2 ^ 32 }
    requires within { from ≤ length strands.now }
    requires before { AreBefore strands.now block from }
    requires block { block < length code.now.blocks }
    ensures { OnOk result (out.new ≡ out.old ++ block_pairs code.now strands.now block) }
{
    let mut index = 0;
    let mut rest = code.blocks[block as usize].code.as_slice();
    while let [instr, others @ ..] = rest {
        add_pair(strands, from, block, index, instr, out)?;
        index += 1;
        rest = others;
    }
    Ok(())
}

/// The memory pairs between strands, which stand by block.
///
/// # Errors
///
/// Where there is no memory for them.
pub fn pairs_of(
    alloc: Global,
    code: &VProc,
    strands: &Seq<Strand>,
) -> Result<Seq<MemPair>, AllocError>
    requires sized { IsSized code.now }
    requires few { length strands.now < 2 ^ 32 }
    ensures { IfOk result (λ made. made ≡ pairs all_tables code.now strands.now) }
{
    let mut out = Seq::new(alloc);
    let mut from = 0;
    for block in 0..code.blocks.len() as u32 {
        from = skip(strands, from, block);
        add_block(code, strands, from, block, &mut out)?;
    }
    Ok(out)
}
