// Ties: a strand that reaches its block's exit, and the variable's strand at the entry of a block
// that follows.

ghost use Rattle.std.specs.Prelude.{◌≡◌, ◌≢◌, ℕ, ◌++◌, ◌+◌, ◌<◌, ◌^◌, length, All, map, IfOk};
ghost use Rattle.std.specs.Prelude.{IsTrue, None, OnOk, option_to_list, slice_index_or};
ghost use Rattle.std.specs.List.{filter_map, range_with_len};
ghost use Rattle.pra_base.specs.Code.{end_of, IsTarget};
ghost use Rattle.pra_base.specs.Valid.{IsSized};
ghost use Rattle.net_form.specs.declared.net.Strand.{Strand as NetStrand};
ghost use Rattle.net_form.specs.Formed.{IsStrandOf};
ghost use Rattle.net_form.specs.Network.{leads_to, ties, ties_from, net_block};
ghost use Rattle.net_form.specs.Strands.{exit_layer};
ghost use Rattle.net_build.specs.Order.{AreInOrder, AreStarts, IsEntry, goes_on, key_of, tie_to};
ghost use Rattle.net_build.specs.Order.{within};

use crate::order::{place_of, starts_of};
use net_form::{Strand, Tie};
use pra_base::{End, VProc};
use pra_list::Seq;
use std::alloc::{AllocError, Global};

fn leads_to(end: &End, block: u32) -> bool
    ensures { result ≡ leads_to end.now block }
{
    match end {
        End::Jump(target) => target.0 == block,
        End::Branch(_, one, other) => one.0 == block || other.0 == block,
        End::Return => false,
    }
}

// Whether the strand is the variable's at the entry of a block that follows the end.
fn goes_on(end: &End, var: u32, strand: &Strand) -> bool
    ensures { result ≡ goes_on end.now var strand.now }
{
    if strand.first != 0 || var != strand.var.0 {
        return false;
    }
    leads_to(end, strand.block.0)
}

// Whether the strand is the variable's at the entry of the block.
fn is_at_entry(strand: &Strand, block: u32, var: u32) -> bool
    ensures { IsTrue result → key_of strand.now ≡ (block, 0, var) }
{
    if strand.var.0 != var || strand.block.0 != block {
        return false;
    }
    strand.first == 0
}

// Whether the strand of this number is.
fn is_entry(strands: &Seq<Strand>, number: u32, block: u32, var: u32) -> bool
    ensures { IsTrue result → IsEntry strands.now block var number }
{
    if number as usize >= strands.len() {
        return false;
    }
    is_at_entry(&strands[number as usize], block, var)
}

// The number of the variable's strand at the entry of a block, if there is one. Where it stands as
// far behind the first strand of the block as the offset tells, no other one is looked at.
fn entry_of(strands: &Seq<Strand>, starts: &Seq<u32>, block: u32, var: u32, offset: u32) -> u32
    requires few { length strands.now < 2 ^ 32 }
    requires order { AreInOrder strands.now }
    requires starts { AreStarts strands.now starts.now }
    requires block { block + 1 < length starts.now }
    ensures { (k : ℕ) (d : NetStrand) → k < length strands.now →
        key_of (slice_index_or strands.now k d) ≡ (block, 0, var) → result ≡ k }
{
    let low = starts[block as usize];
    let guess = low.saturating_add(offset);
    if is_entry(strands, guess, block, var) {
        return guess;
    }
    let high = starts[block as usize + 1];
    place_of(strands, low, high, block, 0, var)
}

// Adds the tie to the strand of this number, if there is one and it goes on the variable.
fn add_tie(
    strands: &Seq<Strand>,
    number: u32,
    end: &End,
    var: u32,
    to: u32,
    out: &mut Seq<Tie>,
) -> Result<(), AllocError>
    ensures { OnOk result (out.new ≡ out.old ++ option_to_list
        (within (tie_to strands.now end.now var number) (length strands.now) to)) }
{
    if to as usize >= strands.len() {
        return Ok(());
    }
    if goes_on(end, var, &strands[to as usize]) {
        out.push(Tie { from: number, to })?;
    }
    Ok(())
}

// Adds the ties to two strands, or to one that is told twice; no others go on the variable.
fn add_both(
    strands: &Seq<Strand>,
    number: u32,
    end: &End,
    var: u32,
    one: u32,
    other: u32,
    out: &mut Seq<Tie>,
) -> Result<(), AllocError>
    requires { (k : ℕ) → k < length strands.now → one ≢ k → other ≢ k →
        tie_to strands.now end.now var number k ≡ None }
    ensures { OnOk result (out.new ≡ out.old ++ filter_map
        (tie_to strands.now end.now var number) (range_with_len 0 (length strands.now))) }
{
    add_tie(strands, number, end, var, one.min(other), out)?;
    if one == other {
        return Ok(());
    }
    add_tie(strands, number, end, var, one.max(other), out)?;
    Ok(())
}

// Adds the ties from a strand that reaches its block's exit. The offset tells how far it stands
// behind the first strand of its block; most often those that go on its variable stand as far
// behind the first ones of theirs.
fn add_exit(
    strands: &Seq<Strand>,
    starts: &Seq<u32>,
    number: u32,
    end: &End,
    var: u32,
    offset: u32,
    out: &mut Seq<Tie>,
) -> Result<(), AllocError>
    requires few { length strands.now < 2 ^ 32 }
    requires order { AreInOrder strands.now }
    requires starts { AreStarts strands.now starts.now }
    requires targets { (t : ℕ) → IsTarget end.now t → t + 1 < length starts.now }
    ensures { OnOk result (out.new ≡ out.old ++ filter_map
        (tie_to strands.now end.now var number) (range_with_len 0 (length strands.now))) }
{
    match end {
        End::Jump(target) => {
            let to = entry_of(strands, starts, target.0, var, offset);
            add_both(strands, number, end, var, to, to, out)
        }
        End::Branch(_, one, other) => {
            let first = entry_of(strands, starts, one.0, var, offset);
            let second = entry_of(strands, starts, other.0, var, offset);
            add_both(strands, number, end, var, first, second, out)
        }
        End::Return => Ok(()),
    }
}

// The exit layer of a block.
fn exit_layer(code: &VProc, block: u32) -> u32
    requires sized { IsSized code.now }
    requires block { block < length code.now.blocks }
    ensures { result ≡ exit_layer code.now block }
{
    2 * code.blocks[block as usize].code.len() as u32 + 1
}

// Adds the ties from a strand.
fn add_strand(
    code: &VProc,
    strands: &Seq<Strand>,
    starts: &Seq<u32>,
    number: u32,
    strand: &Strand,
    out: &mut Seq<Tie>,
) -> Result<(), AllocError>
    requires sized { IsSized code.now }
    requires few { length strands.now < 2 ^ 32 }
    requires order { AreInOrder strands.now }
    requires starts { AreStarts strands.now starts.now }
    requires blocks { length starts.now ≡ length code.now.blocks + 1 }
    requires block { strand.now.block.0 < length code.now.blocks }
    ensures { OnOk result
        (out.new ≡ out.old ++ ties_from code.now strands.now (number, strand.now)) }
{
    let block = strand.block.0;
    if strand.last != exit_layer(code, block) {
        return Ok(());
    }
    let end = &code.blocks[block as usize].end;
    let offset = number.saturating_sub(starts[block as usize]);
    add_exit(strands, starts, number, end, strand.var.0, offset, out)?;
    Ok(())
}

/// The ties between the strands of a code, which stand in order.
///
/// # Errors
///
/// Where there is no memory for them.
pub fn ties_of(alloc: Global, code: &VProc, strands: &Seq<Strand>) -> Result<Seq<Tie>, AllocError>
    requires sized { IsSized code.now }
    requires few { length strands.now < 2 ^ 32 }
    requires order { AreInOrder strands.now }
    requires strands { All (IsStrandOf (map net_block code.now.blocks)) strands.now }
    ensures { IfOk result (λ made. made ≡ ties code.now strands.now) }
{
    let starts = starts_of(alloc, strands, code.blocks.len() as u32)?;
    let mut out = Seq::new(alloc);
    for number in 0..strands.len() as u32 {
        let strand = &strands[number as usize];
        add_strand(code, strands, &starts, number, strand, &mut out)?;
    }
    Ok(out)
}
