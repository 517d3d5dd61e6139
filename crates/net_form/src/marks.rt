// Marks of registers at layers and of memory pairs.

ghost use Rattle.std.specs.Prelude.{◌≡◌, ◌≢◌, ◌≤◌, ◌<◌, ◌+◌, ℕ, None, length, if◌then◌else◌};
ghost use Rattle.std.specs.Int.{bit_at};
ghost use Rattle.net_form.specs.Admitted.{strand_at};
ghost use Rattle.net_form.specs.Flow.{edges};
ghost use Rattle.net_form.specs.Formed.{IsFormed};
ghost use Rattle.net_form.specs.InUse.{mark, pair_mark, lands_in, after, in_memory, brings_end};
ghost use Rattle.net_form.specs.InUse.{register_uses, pair_uses};
ghost use Rattle.net_form.specs.Rooms.{layer_total};

use crate::net::{Net, PairEnd};
use pra_base::Place;
use pra_list::Seq;

// A byte in which one bit is set or cleared.
fn with_bit(byte: u8, bit: u8, used: bool) -> u8
    requires { bit < 8 }
    ensures same { bit_at result bit ≡ (if used then 1 else 0) }
    ensures other { (q : ℕ) → q ≢ bit → bit_at result q ≡ bit_at byte q }
{
    if used {
        byte | 1u8 << bit
    } else {
        byte & !(1u8 << bit)
    }
}

/// Marks the register of a place at a layer, counted over all blocks, as used or as free.
pub(crate) fn mark_place(regs: &mut Seq<u8>, layer: usize, to: Place, used: bool)
    requires { layer < length regs.old }
    ensures long { length regs.new ≡ length regs.old }
    ensures marks { (n r : ℕ) →
        mark regs.new n r ≡ after used (mark regs.old n r) (lands_in layer to n r) }
{
    if !to.has_register() {
        return;
    }
    regs.set(layer, with_bit(regs[layer], to.register(), used));
}

/// Marks the registers that the path of a strand is in.
pub(crate) fn mark_path(regs: &mut Seq<u8>, net: &Net, strand: usize, path: &[Place], used: bool)
    requires regs { length regs.old ≡ layer_total net.now.blocks }
    requires net { IsFormed net.now }
    requires strand { strand < length net.now.strands }
    requires path { (strand_at net.now strand).first + length path.now ≡
        (strand_at net.now strand).last + 1 }
    ensures long { length regs.new ≡ length regs.old }
    ensures marks { (n r : ℕ) → mark regs.new n r ≡ after used (mark regs.old n r)
        (register_uses net.now
        (edges strand (strand_at net.now strand).first None path.now) n r) }
{
    let mut layer = net.entry_layer(strand) + net.strands[strand].first;
    let mut rest = path;
    while let [to, others @ ..] = rest {
        mark_place(regs, layer as usize, *to, used);
        layer += 1;
        rest = others;
    }
}

// Marks the pair of an end that a path brings to memory; the path begins at the layer `first`.
fn mark_end(mems: &mut Seq<bool>, path: &[Place], first: u32, end: PairEnd, used: bool)
    requires pair { end.pair < length mems.old }
    requires after { first ≤ end.layer }
    requires before { end.layer < first + length path.now }
    ensures long { length mems.new ≡ length mems.old }
    ensures marks { (k : ℕ) → pair_mark mems.new k ≡ after used (pair_mark mems.old k)
        (if brings_end (in_memory path.now first) k end then 1 else 0) }
{
    let at = (end.layer - first) as usize;
    if !path[at].is_mem() {
        return;
    }
    mems.set(end.pair as usize, used);
}

/// Marks the memory pairs of which the path of a strand brings an end to memory.
pub(crate) fn mark_pairs(mems: &mut Seq<bool>, net: &Net, strand: usize, path: &[Place], used: bool)
    requires mems { length mems.old ≡ length net.now.pairs }
    requires net { IsFormed net.now }
    requires strand { strand < length net.now.strands }
    requires path { (strand_at net.now strand).first + length path.now ≡
        (strand_at net.now strand).last + 1 }
    ensures long { length mems.new ≡ length mems.old }
    ensures marks { (k : ℕ) → k < length net.now.pairs →
        pair_mark mems.new k ≡ after used (pair_mark mems.old k)
        (pair_uses net.now (edges strand (strand_at net.now strand).first None path.now) k) }
{
    let first = net.strands[strand].first;
    let start = net.index.pairs[strand];
    let stop = net.index.pairs[strand + 1];
    for at in start..stop {
        mark_end(mems, path, first, net.index.ends[at as usize], used);
    }
}
