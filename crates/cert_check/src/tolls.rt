// What a strand pays at a place of a layer, whichever way it comes there.

ghost use Rattle.std.specs.Prelude.{◌≡◌, ◌≤◌, ◌<◌, ◌+◌, ◌*◌, ◌^◌, ℕ, pos, ◌-ℤ◌, None, length};
ghost use Rattle.std.specs.Prelude.{slice_index_or};
ghost use Rattle.net_cost.specs.Models.{Keeps, weights_of};
ghost use Rattle.net_dual.specs.Priced.{AreInRange, pay, cap_part, mem_part, exit_part, entry_part};
ghost use Rattle.net_dual.specs.Priced.{tie_slot, number_at_slot, mem_price};
ghost use Rattle.net_dual.specs.Small.{IsWithin};
ghost use Rattle.net_form.specs.InUse.{pair_at};
ghost use Rattle.net_laws.specs.Built.{IsBuilt};
ghost use Rattle.cert_check.specs.Tolls.{AreTolls, IsSpot, edge, toll, is_end, mems_sum};

use crate::sums::{add, in_units, subtract};
use crate::ties::TIE_NUMBERS;
use net_cost::{CostModel, Event};
use net_form::{MemPair, Net, Prices, extras_cost};
use pra_base::Place;
use pra_list::Seq;

/// Prices, and what ties ask by them of each strand at its exit and at its entry.
#[derive(Debug, Drop)]
pub(crate) struct Tolls {
    pub prices: Prices,
    pub exits: Seq<i128>,
    pub entries: Seq<i128>,
}

/// A layer of a strand, and the number of the first of its extras.
#[derive(Clone, Copy, Debug, Drop)]
pub(crate) struct Spot {
    pub strand: usize,
    pub layer: u32,
    pub extra: usize,
}

// The price of the register of a place.
fn cap_toll(net: &Net, prices: &Prices, spot: Spot, place: Place) -> u64
    requires net { IsBuilt net.now }
    requires prices { AreInRange net.now prices.now }
    requires spot { IsSpot net.now spot }
    ensures value { pos result ≡
        cap_part net.now prices.now (edge spot.strand spot.layer None place) }
    ensures small { result ≤ 2 ^ 40 }
{
    if !place.has_register() {
        return 0;
    }
    let layer = net.entry_layer(spot.strand) as usize + spot.layer as usize;
    prices.caps[6 * layer + place.register() as usize]
}

// Whether the strand has an end of the pair at the layer.
fn is_end(pair: &MemPair, strand: usize, layer: u32) -> bool
    ensures { result ≡ is_end strand layer pair.now }
{
    let left = strand == pair.left as usize && layer == pair.left_layer;
    left || (strand == pair.right as usize && layer == pair.right_layer)
}

// The price of a memory pair, if the strand has an end of it at the layer.
fn end_price(net: &Net, prices: &Prices, spot: Spot, pair: usize) -> u64
    requires prices { AreInRange net.now prices.now }
    requires pair { pair < length net.now.pairs }
    ensures value { pos result ≡ pay (is_end spot.strand spot.layer (pair_at net.now pair))
        (pos (mem_price prices.now pair)) }
    ensures small { result ≤ 2 ^ 40 }
{
    if !is_end(&net.pairs[pair], spot.strand, spot.layer) {
        return 0;
    }
    prices.mems[pair]
}

// The prices of all memory pairs of which the strand has an end at the layer.
fn end_prices(net: &Net, prices: &Prices, spot: Spot) -> u128
    requires prices { AreInRange net.now prices.now }
    ensures value { pos result ≡
        mems_sum net.now.pairs prices.now spot.strand spot.layer }
    ensures small { result ≤ 2 ^ 104 }
{
    let mut total = 0u128;
    for pair in 0..net.pairs.len() {
        total += u128::from(end_price(net, prices, spot, pair));
    }
    total
}

// The same at a place: whoever is in memory there pays them.
fn mem_toll(net: &Net, prices: &Prices, spot: Spot, place: Place) -> u128
    requires prices { AreInRange net.now prices.now }
    ensures value { pos result ≡
        mem_part net.now prices.now (edge spot.strand spot.layer None place) }
    ensures small { result ≤ 2 ^ 104 }
{
    if !place.is_mem() {
        return 0;
    }
    end_prices(net, prices, spot)
}

// The number that ties have for a place.
fn tie_slot(place: Place) -> Option<usize>
    ensures { result ≡ tie_slot place }
{
    if place.is_const() {
        return None;
    }
    let number = place.number() as usize;
    if place.is_both() {
        Some(number - 1)
    } else {
        Some(number)
    }
}

// What ties ask of a strand at a place of its end, if it is there.
fn end_toll(sums: &[i128], strand: usize, place: Place, is_there: bool) -> i128
    requires strand { 13 * strand + 13 ≤ length sums.now }
    requires within { (k : ℕ) → IsWithin (2 ^ 105) (slice_index_or sums.now k (pos 0)) }
    ensures value { result ≡ pay is_there (number_at_slot sums.now strand (tie_slot place)) }
    ensures small { IsWithin (2 ^ 105) result }
{
    if !is_there {
        return 0;
    }
    match tie_slot(place) {
        None => 0,
        Some(slot) => sums[TIE_NUMBERS * strand + slot],
    }
}

// What ties ask of a strand at a place of a layer.
fn ties_toll(net: &Net, tolls: &Tolls, spot: Spot, place: Place) -> i128
    requires tolls { AreTolls net.now tolls.now }
    requires spot { IsSpot net.now spot }
    ensures value { result ≡
        (exit_part net.now tolls.now.prices (edge spot.strand spot.layer None place) -ℤ
        entry_part net.now tolls.now.prices (edge spot.strand spot.layer None place)) }
    ensures small { IsWithin (2 ^ 106) result }
{
    let strand = &net.strands[spot.strand];
    let exits = tolls.exits.as_slice();
    let entries = tolls.entries.as_slice();
    let exit = end_toll(exits, spot.strand, place, spot.layer == strand.last);
    let entry = end_toll(entries, spot.strand, place, spot.layer == strand.first);
    subtract(exit, entry)
}

/// What a strand pays at a place of a layer.
pub(crate) fn toll<F: Fn(Event, u32) -> u32>(
    net: &Net,
    model: &CostModel<F>,
    tolls: &Tolls,
    spot: Spot,
    place: Place,
) -> i128
    requires kept { Keeps F.Fn model.now }
    requires net { IsBuilt net.now }
    requires tolls { AreTolls net.now tolls.now }
    requires spot { IsSpot net.now spot }
    ensures value { result ≡
        toll net.now (weights_of model.now) tolls.now.prices spot.strand spot.layer place }
    ensures small { IsWithin (2 ^ 107) result }
{
    let extras = extras_cost(net, model, spot.strand, spot.layer, place, spot.extra);
    let cap = cap_toll(net, &tolls.prices, spot, place);
    let mem = mem_toll(net, &tolls.prices, spot, place);
    let ties = ties_toll(net, tolls, spot, place);
    let shared = add(i128::from(cap), mem as i128);
    add(add(in_units(extras), shared), ties)
}
