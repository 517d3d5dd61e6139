// Prices raised for each use, and lowered.

ghost use Rattle.std.specs.Prelude.{◌≡◌, ◌≤◌, ◌<◌, ◌+◌, ◌-◌, ◌*◌, ℕ, None, length, min, count_by};
ghost use Rattle.std.specs.Prelude.{slice_index, if◌then◌else◌, nat_eq, ◌&&◌};
ghost use Rattle.pra_base.specs.Places.{number, has_register, register_of};
ghost use Rattle.net_form.specs.Admitted.{strand_at};
ghost use Rattle.net_form.specs.Bundles.{bundle_key, comes_to_bundle};
ghost use Rattle.net_form.specs.Flow.{edges, flow, AreRoutes};
ghost use Rattle.net_form.specs.Formed.{IsFormed};
ghost use Rattle.net_form.specs.Rooms.{layer_total};
ghost use Rattle.net_dual.specs.Priced.{most_price};
ghost use Rattle.net_price.specs.Raised.{AreRaised, AreWords};

use net_form::{Net, Routes};
use pra_base::Place;
use pra_list::Seq;

/// One use more of a price.
pub(crate) fn raise(prices: &mut Seq<u64>, at: usize, s: u64)
    requires at { at < length prices.old }
    requires words { AreWords prices.old }
    ensures long { length prices.new ≡ length prices.old }
    ensures raised { AreRaised s (λ k. if nat_eq at k then 1 else 0) prices.old prices.new }
{
    prices.set(at, prices[at].saturating_add(s));
}

/// Each price is one step lower, and within its range.
pub(crate) fn lower(prices: &mut Seq<u64>, s: u64)
    ensures long { length prices.new ≡ length prices.old }
    ensures lowered { (k : ℕ) → k < length prices.old →
        slice_index prices.new k ≡ min (slice_index prices.old k - s) most_price }
{
    for at in 0..prices.len() {
        prices.set(at, prices[at].saturating_sub(s).min(1 << 40));
    }
}

// One use more of the register of a place at a layer, counted over all blocks.
fn raise_place(caps: &mut Seq<u64>, layer: usize, to: Place, s: u64)
    requires small { layer < 24838 }
    requires layer { 6 * layer + 6 ≤ length caps.old }
    requires words { AreWords caps.old }
    ensures long { length caps.new ≡ length caps.old }
    ensures raised { AreRaised s (λ k. if has_register (number to) &&
        nat_eq (bundle_key layer (register_of (number to))) k then 1 else 0) caps.old caps.new }
{
    if !to.has_register() {
        return;
    }
    raise(caps, 6 * layer + to.register() as usize, s);
}

// One use more of the registers that the path of a strand is in.
fn raise_path(caps: &mut Seq<u64>, net: &Net, strand: usize, path: &[Place], s: u64)
    requires caps { length caps.old ≡ 6 * layer_total net.now.blocks }
    requires words { AreWords caps.old }
    requires net { IsFormed net.now }
    requires strand { strand < length net.now.strands }
    requires path { (strand_at net.now strand).first + length path.now ≡
        (strand_at net.now strand).last + 1 }
    ensures long { length caps.new ≡ length caps.old }
    ensures raised { AreRaised s (λ k. count_by (comes_to_bundle net.now k)
        (edges strand (strand_at net.now strand).first None path.now)) caps.old caps.new }
{
    let mut layer = net.entry_layer(strand) + net.strands[strand].first;
    let mut rest = path;
    while let [to, others @ ..] = rest {
        raise_place(caps, layer as usize, *to, s);
        layer += 1;
        rest = others;
    }
}

/// One use more of all registers that paths of the family are in.
pub(crate) fn raise_caps(caps: &mut Seq<u64>, net: &Net, family: &Routes, s: u64)
    requires caps { length caps.old ≡ 6 * layer_total net.now.blocks }
    requires words { AreWords caps.old }
    requires net { IsFormed net.now }
    requires family { AreRoutes net.now family.now }
    ensures long { length caps.new ≡ length caps.old }
    ensures raised { AreRaised s (λ k. count_by (comes_to_bundle net.now k)
        (flow net.now family.now)) caps.old caps.new }
{
    for strand in 0..net.strands.len() {
        raise_path(caps, net, strand, family.places.at(strand), s);
    }
}
