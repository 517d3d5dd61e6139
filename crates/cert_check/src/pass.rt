// The pass over the layers of a strand.

ghost use Rattle.std.specs.Prelude.{◌≡◌, ◌<◌, ◌+◌, ◌^◌, ℕ, ℤ, Option, Some, None, length};
ghost use Rattle.pra_base.specs.Places.{place_count, place_at};
ghost use Rattle.net_cost.specs.Models.{Keeps, weights_of};
ghost use Rattle.net_form.specs.Admitted.{strand_at};
ghost use Rattle.net_dual.specs.Leasts.{IsLeastOf, IsCostWithin, cost_at};
ghost use Rattle.net_dual.specs.Paths.{IsLeastCost, any_ends, Anywhere};
ghost use Rattle.net_dual.specs.Priced.{edge_price};
ghost use Rattle.net_dual.specs.Small.{IsWithin, most_sum};
ghost use Rattle.net_laws.specs.Built.{IsBuilt};
ghost use Rattle.cert_check.specs.Tolls.{AreTolls, IsSpot, way_toll};
ghost use Rattle.cert_check.specs.Pass.{IsPassRow, IsRowBefore, IsSmallRow, HasPath, via, paid};

use crate::places::{PLACES, place_at};
use crate::sums::{add, in_units};
use crate::tolls::{Spot, Tolls, toll};
use net_cost::{CostModel, Event};
use net_form::{Net, way_cost};
use pra_base::Place;
use pra_base::places::allows;

// For each place of a layer, by its number, what it costs at least to come there; None where no way
// leads there.
type Row = [Option<i128>; 14];

// The lesser of two numbers that may be there.
fn lesser(one: Option<i128>, other: Option<i128>) -> Option<i128>
    ensures least { (f : ℕ → Option ℤ) (n : ℕ) → IsLeastOf f n one → f n ≡ other →
        IsLeastOf f (n + 1) result }
    ensures within { (n : ℕ) → IsCostWithin n one → IsCostWithin n other →
        IsCostWithin n result }
{
    let Some(cost) = one else {
        return other;
    };
    let Some(more) = other else {
        return one;
    };
    if more < cost { other } else { one }
}

// The least number of a row.
fn least_in(row: &Row) -> Option<i128>
    requires { length row.now ≡ place_count }
    ensures { IsLeastOf (cost_at row.now) place_count result }
{
    let mut least = None;
    for at in 0..PLACES {
        least = lesser(least, row[at]);
    }
    least
}

// What it costs to come to a place of a layer from one of the layer before.
fn via<F: Fn(Event, u32) -> u32>(
    net: &Net,
    model: &CostModel<F>,
    spot: Spot,
    row: &Row,
    from: Place,
    to: Place,
) -> Option<i128>
    requires kept { Keeps F.Fn model.now }
    requires net { IsBuilt net.now }
    requires spot { IsSpot net.now spot }
    requires row { IsSmallRow row.now }
    ensures value { result ≡
        via net.now (weights_of model.now) spot.strand spot.layer row.now from to }
    ensures within { IsCostWithin (2 ^ 61) result }
{
    if spot.layer % 2 == 0 && from.number() != to.number() {
        return None;
    }
    let Some(cost) = row[from.number() as usize] else {
        return None;
    };
    let way = way_cost(net, model, spot.strand, spot.layer, Some(from), to);
    Some(add(cost, in_units(way)))
}

// The least of that over all places of the layer before.
fn come_to<F: Fn(Event, u32) -> u32>(
    net: &Net,
    model: &CostModel<F>,
    spot: Spot,
    row: &Row,
    to: Place,
) -> Option<i128>
    requires kept { Keeps F.Fn model.now }
    requires net { IsBuilt net.now }
    requires spot { IsSpot net.now spot }
    requires row { IsSmallRow row.now }
    ensures least { IsLeastOf
        (λ k. via net.now (weights_of model.now) spot.strand spot.layer row.now (place_at k) to)
        place_count result }
    ensures within { IsCostWithin (2 ^ 61) result }
{
    let mut least = None;
    for at in 0..PLACES {
        least = lesser(least, via(net, model, spot, row, place_at(at), to));
    }
    least
}

// With the toll of the place, if the strand may be there.
fn pay<F: Fn(Event, u32) -> u32>(
    net: &Net,
    model: &CostModel<F>,
    tolls: &Tolls,
    spot: Spot,
    to: Place,
    cost: Option<i128>,
) -> Option<i128>
    requires kept { Keeps F.Fn model.now }
    requires net { IsBuilt net.now }
    requires tolls { AreTolls net.now tolls.now }
    requires spot { IsSpot net.now spot }
    requires within { IsCostWithin (2 ^ 61) cost }
    ensures { result ≡ paid net.now (weights_of model.now) tolls.now.prices spot.strand spot.layer
        to cost }
{
    let strand = &net.strands[spot.strand];
    if !allows(strand.masks[(spot.layer - strand.first) as usize], to) {
        return None;
    }
    let Some(cost) = cost else {
        return None;
    };
    Some(add(cost, toll(net, model, tolls, spot, to)))
}

// What it costs to begin at a place of the first layer.
fn begin<F: Fn(Event, u32) -> u32>(
    net: &Net,
    model: &CostModel<F>,
    tolls: &Tolls,
    spot: Spot,
    to: Place,
) -> Option<i128>
    requires kept { Keeps F.Fn model.now }
    requires net { IsBuilt net.now }
    requires tolls { AreTolls net.now tolls.now }
    requires spot { IsSpot net.now spot }
    ensures { result ≡ paid net.now (weights_of model.now) tolls.now.prices spot.strand spot.layer
        to (Some (way_toll net.now (weights_of model.now) spot.strand spot.layer None to)) }
{
    let way = way_cost(net, model, spot.strand, spot.layer, None, to);
    pay(net, model, tolls, spot, to, Some(in_units(way)))
}

// The row of the first layer.
fn first_row<F: Fn(Event, u32) -> u32>(
    net: &Net,
    model: &CostModel<F>,
    tolls: &Tolls,
    spot: Spot,
) -> Row
    requires kept { Keeps F.Fn model.now }
    requires net { IsBuilt net.now }
    requires tolls { AreTolls net.now tolls.now }
    requires spot { IsSpot net.now spot }
    requires first { spot.layer ≡ (strand_at net.now spot.strand).first }
    ensures long { length result ≡ place_count }
    ensures row { IsPassRow net.now (edge_price net.now (weights_of model.now) tolls.now.prices)
        spot.strand spot.layer result }
{
    let mut row = [None; 14];
    for at in 0..PLACES {
        row[at] = begin(net, model, tolls, spot, place_at(at));
    }
    row
}

// The row of a layer from that of the layer before.
fn next_row<F: Fn(Event, u32) -> u32>(
    net: &Net,
    model: &CostModel<F>,
    tolls: &Tolls,
    spot: Spot,
    row: &Row,
) -> Row
    requires kept { Keeps F.Fn model.now }
    requires net { IsBuilt net.now }
    requires tolls { AreTolls net.now tolls.now }
    requires spot { IsSpot net.now spot }
    requires row { IsRowBefore net.now (edge_price net.now (weights_of model.now) tolls.now.prices)
        spot.strand spot.layer row.now }
    ensures long { length result ≡ place_count }
    ensures row { IsPassRow net.now (edge_price net.now (weights_of model.now) tolls.now.prices)
        spot.strand spot.layer result }
{
    let mut next = [None; 14];
    for at in 0..PLACES {
        let to = place_at(at);
        next[at] = pay(
            net,
            model,
            tolls,
            spot,
            to,
            come_to(net, model, spot, row, to),
        );
    }
    next
}

/// What a path of a strand costs at least.
pub(crate) fn least_cost<F: Fn(Event, u32) -> u32>(
    net: &Net,
    model: &CostModel<F>,
    tolls: &Tolls,
    strand: usize,
) -> i128
    requires kept { Keeps F.Fn model.now }
    requires net { IsBuilt net.now }
    requires tolls { AreTolls net.now tolls.now }
    requires strand { strand < length net.now.strands }
    requires path { HasPath net.now strand }
    ensures least { IsLeastCost net.now
        (edge_price net.now (weights_of model.now) tolls.now.prices) any_ends Anywhere strand
        result }
    ensures within { IsWithin most_sum result }
{
    let last = net.strands[strand].last;
    let mut spot = Spot {
        strand,
        layer: net.strands[strand].first,
        extra: net.first_extra(strand),
    };
    let mut row = first_row(net, model, tolls, spot);
    while spot.layer < last {
        let extra = net.next_extra(strand, spot.layer, spot.extra);
        let layer = spot.layer + 1;
        spot = Spot {
            strand,
            layer,
            extra,
        };
        row = next_row(net, model, tolls, spot, &row);
    }
    match least_in(&row) {
        Some(cost) => cost,
        None => 0,
    }
}
