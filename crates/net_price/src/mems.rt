// Prices of memory pairs, raised for each use.

ghost use Rattle.std.specs.Prelude.{◌≡◌, ◌≤◌, ◌<◌, ◌+◌, None, length, count_by};
ghost use Rattle.std.specs.Prelude.{if◌then◌else◌};
ghost use Rattle.net_form.specs.Admitted.{strand_at, uses_memory};
ghost use Rattle.net_form.specs.Flow.{edges, flow, AreRoutes};
ghost use Rattle.net_form.specs.Formed.{IsFormed};
ghost use Rattle.net_form.specs.InUse.{pair_at, in_memory, brings_end};
ghost use Rattle.net_price.specs.Raised.{AreRaised, AreWords};

use crate::raise::raise;
use net_form::{Net, PairEnd, Routes};
use pra_base::Place;
use pra_list::Seq;

// One use more of the pair of an end, if the path brings it to memory; the path begins at the layer
// `first`.
fn raise_end(mems: &mut Seq<u64>, path: &[Place], first: u32, end: PairEnd, s: u64)
    requires pair { end.pair < length mems.old }
    requires after { first ≤ end.layer }
    requires before { end.layer < first + length path.now }
    requires words { AreWords mems.old }
    ensures long { length mems.new ≡ length mems.old }
    ensures raised { AreRaised s (λ k. if brings_end (in_memory path.now first) k end then 1
        else 0) mems.old mems.new }
{
    let at = (end.layer - first) as usize;
    if !path[at].is_mem() {
        return;
    }
    raise(mems, end.pair as usize, s);
}

// One use more of the memory pairs of which the path of a strand brings an end to memory.
fn raise_ends(mems: &mut Seq<u64>, net: &Net, strand: usize, path: &[Place], s: u64)
    requires mems { length mems.old ≡ length net.now.pairs }
    requires words { AreWords mems.old }
    requires net { IsFormed net.now }
    requires strand { strand < length net.now.strands }
    requires path { (strand_at net.now strand).first + length path.now ≡
        (strand_at net.now strand).last + 1 }
    ensures long { length mems.new ≡ length mems.old }
    ensures raised { AreRaised s (λ k. count_by (uses_memory (pair_at net.now k))
        (edges strand (strand_at net.now strand).first None path.now)) mems.old mems.new }
{
    let first = net.strands[strand].first;
    let start = net.index.pairs[strand];
    let stop = net.index.pairs[strand + 1];
    for at in start..stop {
        raise_end(mems, path, first, net.index.ends[at as usize], s);
    }
}

/// One use more of all memory pairs of which paths of the family bring an end to memory.
pub(crate) fn raise_mems(mems: &mut Seq<u64>, net: &Net, family: &Routes, s: u64)
    requires mems { length mems.old ≡ length net.now.pairs }
    requires words { AreWords mems.old }
    requires net { IsFormed net.now }
    requires family { AreRoutes net.now family.now }
    ensures long { length mems.new ≡ length mems.old }
    ensures raised { AreRaised s (λ k. count_by (uses_memory (pair_at net.now k))
        (flow net.now family.now)) mems.old mems.new }
{
    for strand in 0..net.strands.len() {
        raise_ends(mems, net, strand, family.places.at(strand), s);
    }
}
