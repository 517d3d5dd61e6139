// The order of strands: by block, then first layer, then variable.

ghost use Rattle.std.specs.Prelude.{◌≡◌, ◌↔◌, ℕ, ◌+◌, ◌<◌, ◌≤◌, ◌^◌, length, IsTrue, IfOk};
ghost use Rattle.std.specs.Prelude.{slice_index_or};
ghost use Rattle.net_build.specs.Order.{key_of, Precedes, AreInOrder, IsBetween, StartsAt};
ghost use Rattle.net_build.specs.Order.{AreStarts};
ghost use Rattle.net_form.specs.declared.net.Strand.{Strand as NetStrand};

use net_form::Strand;
use pra_list::Seq;
use std::alloc::{AllocError, Global};

// Whether the strand stands before the place of this block, first layer and variable.
fn is_before(strand: &Strand, block: u32, first: u32, var: u32) -> bool
    ensures { IsTrue result ↔ Precedes (key_of strand.now) (block, first, var) }
{
    if strand.block.0 != block {
        return strand.block.0 < block;
    }
    if strand.first != first {
        return strand.first < first;
    }
    strand.var.0 < var
}

/// The number of the first strand that stands at this place or behind it, looked for from `low` on
/// and below `high`.
pub(crate) fn place_of(
    strands: &Seq<Strand>,
    low: u32,
    high: u32,
    block: u32,
    first: u32,
    var: u32,
) -> u32
    requires few { length strands.now < 2 ^ 32 }
    requires order { AreInOrder strands.now }
    requires within { low ≤ high }
    requires high { high ≤ length strands.now }
    requires bounds { IsBetween strands.now (block, first, var) low high }
    ensures within { result ≤ length strands.now }
    ensures place { IsBetween strands.now (block, first, var) result result }
{
    let mut low = low;
    let mut high = high;
    while low < high {
        let middle = low + (high - low) / 2;
        if is_before(&strands[middle as usize], block, first, var) {
            low = middle + 1;
        } else {
            high = middle;
        }
    }
    low
}

// The number of the first strand of this block or a later one; those before `from` are of earlier
// blocks.
fn start_of(strands: &Seq<Strand>, from: u32, block: u32) -> u32
    requires few { length strands.now < 2 ^ 32 }
    requires order { AreInOrder strands.now }
    requires from { from ≤ length strands.now }
    requires before { (k : ℕ) (d : NetStrand) → k < from →
        (slice_index_or strands.now k d).block.0 < block }
    ensures { StartsAt strands.now block result }
{
    let count = strands.len() as u32;
    let mut at = from;
    while at < count {
        if strands[at as usize].block.0 >= block {
            return at;
        }
        at += 1;
    }
    at
}

/// For each of so many blocks, and for the one behind them, the number of its first strand, or of
/// the first one of a later block.
pub(crate) fn starts_of(
    alloc: Global,
    strands: &Seq<Strand>,
    blocks: u32,
) -> Result<Seq<u32>, AllocError>
    requires few { length strands.now < 2 ^ 32 }
    requires order { AreInOrder strands.now }
    requires blocks { blocks + 1 < 2 ^ 32 }
    ensures count { IfOk result (λ starts. length starts ≡ blocks + 1) }
    ensures starts { IfOk result (λ starts. AreStarts strands.now starts) }
{
    let mut starts = Seq::from_vec(Vec::with_capacity(alloc, blocks as usize + 1)?);
    let mut from = 0;
    for block in 0..blocks + 1 {
        from = start_of(strands, from, block);
        starts.push(from)?;
    }
    Ok(starts)
}
