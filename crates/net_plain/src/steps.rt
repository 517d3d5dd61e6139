// One layer of a path: what it costs to come to a place there, to be there, and to go on.

ghost use Rattle.std.specs.Prelude.{◌≡◌, ◌^◌, ℕ, suc, None, length};
ghost use Rattle.pra_base.specs.Places.{place_count, place_at};
ghost use Rattle.net_cost.specs.Models.{Keeps, weights_of};
ghost use Rattle.net_dual.specs.Leasts.{IsCostWithin, IsLeastOf, cost_at};
ghost use Rattle.net_dual.specs.Priced.{AreInRange};
ghost use Rattle.net_form.specs.Admitted.{stays_across};
ghost use Rattle.net_form.specs.Rooms.{IsRoomOf};
ghost use Rattle.net_laws.specs.Built.{IsBuilt};
ghost use Rattle.net_path.specs.Grounds.{edge};
ghost use Rattle.net_plain.specs.Rows.{IsSpot, AreCostsWithin, there, coming, IsRowOf};
ghost use Rattle.net_plain.specs.Rests.{AreRests, IsRest};

use crate::open::{Spot, is_open};
use crate::row::{PLACES, Row, lesser, place_at};
use crate::sums::{add, in_units};
use crate::toll::toll;
use net_cost::{CostModel, Event};
use net_form::{Ends, Net, Prices, Taken, way_cost};
use pra_base::Place;

// Whether a path may come from the one place to the other: across an instruction it stays.
fn may_come(layer: u32, from: Option<Place>, to: Place) -> bool
    ensures { (s : ℕ) → result ≡ stays_across (edge s layer from to) }
{
    if layer % 2 != 0 {
        return true;
    }
    match from {
        None => true,
        Some(place) => place.number() == to.number(),
    }
}

/// What is left to pay behind a place, with what is paid there; None where a path may not be
/// there.
pub(crate) fn there<F: Fn(Event, u32) -> u32>(
    net: &Net,
    model: &CostModel<F>,
    prices: &Prices,
    ends: Ends,
    taken: &Taken,
    spot: Spot,
    place: Place,
    left: Option<i128>,
) -> Option<i128>
    requires kept { Keeps F.Fn model.now }
    requires net { IsBuilt net.now }
    requires prices { AreInRange net.now prices.now }
    requires taken { IsRoomOf net.now taken.now }
    requires spot { IsSpot net.now spot }
    requires left { IsCostWithin (2 ^ 68) left }
    ensures value { result ≡ there net.now (weights_of model.now) prices.now ends taken.now
        spot.strand spot.layer place left }
    ensures within { IsCostWithin (2 ^ 108) result }
{
    if !is_open(net, ends, taken, spot, place) {
        return None;
    }
    let Some(cost) = left else {
        return None;
    };
    Some(add(cost, toll(net, model, prices, spot, place)))
}

/// The same, with the way to the place; None where a path may not go that way.
pub(crate) fn coming<F: Fn(Event, u32) -> u32>(
    net: &Net,
    model: &CostModel<F>,
    spot: Spot,
    from: Option<Place>,
    to: Place,
    left: Option<i128>,
) -> Option<i128>
    requires kept { Keeps F.Fn model.now }
    requires net { IsBuilt net.now }
    requires spot { IsSpot net.now spot }
    requires left { IsCostWithin (2 ^ 108) left }
    ensures { result ≡
        coming net.now (weights_of model.now) spot.strand spot.layer from to left }
{
    if !may_come(spot.layer, from, to) {
        return None;
    }
    let Some(cost) = left else {
        return None;
    };
    let way = way_cost(net, model, spot.strand, spot.layer, from, to);
    Some(add(cost, in_units(way)))
}

// For each place of a layer what is paid there and from there on.
fn row_of<F: Fn(Event, u32) -> u32>(
    net: &Net,
    model: &CostModel<F>,
    prices: &Prices,
    ends: Ends,
    taken: &Taken,
    spot: Spot,
    rests: &Row,
) -> Row
    requires kept { Keeps F.Fn model.now }
    requires net { IsBuilt net.now }
    requires prices { AreInRange net.now prices.now }
    requires taken { IsRoomOf net.now taken.now }
    requires spot { IsSpot net.now spot }
    requires long { length rests.now ≡ place_count }
    requires within { AreCostsWithin (2 ^ 68) rests.now }
    ensures { IsRowOf net.now (weights_of model.now) prices.now ends taken.now spot.strand
        spot.layer rests.now result }
{
    let mut row = [None; 14];
    for at in 0..PLACES {
        row[at] = there(
            net,
            model,
            prices,
            ends,
            taken,
            spot,
            place_at(at),
            rests[at],
        );
    }
    row
}

// The least that is to be paid from a place before the layer on: each place is tried.
fn least_from<F: Fn(Event, u32) -> u32>(
    net: &Net,
    model: &CostModel<F>,
    spot: Spot,
    from: Option<Place>,
    row: &Row,
) -> Option<i128>
    requires kept { Keeps F.Fn model.now }
    requires net { IsBuilt net.now }
    requires spot { IsSpot net.now spot }
    requires long { length row.now ≡ place_count }
    requires within { AreCostsWithin (2 ^ 108) row.now }
    ensures { IsLeastOf
        (λ k. coming net.now (weights_of model.now) spot.strand spot.layer from (place_at k)
        (cost_at row.now k)) place_count result }
{
    let mut least = None;
    for at in 0..PLACES {
        least = lesser(least, coming(net, model, spot, from, place_at(at), row[at]));
    }
    least
}

/// What is left to pay behind each place of the layer before, from what is left behind each place
/// of a layer.
pub(crate) fn rests_before<F: Fn(Event, u32) -> u32>(
    net: &Net,
    model: &CostModel<F>,
    prices: &Prices,
    ends: Ends,
    taken: &Taken,
    spot: Spot,
    rests: &Row,
) -> Row
    requires kept { Keeps F.Fn model.now }
    requires net { IsBuilt net.now }
    requires prices { AreInRange net.now prices.now }
    requires taken { IsRoomOf net.now taken.now }
    requires spot { IsSpot net.now spot }
    requires rests { AreRests net.now (weights_of model.now) prices.now ends taken.now spot.strand
        (suc spot.layer) rests.now }
    ensures { AreRests net.now (weights_of model.now) prices.now ends taken.now spot.strand
        spot.layer result }
{
    let row = row_of(net, model, prices, ends, taken, spot, rests);
    let mut before = [None; 14];
    for at in 0..PLACES {
        before[at] = least_from(net, model, spot, Some(place_at(at)), &row);
    }
    before
}

/// What the least path costs whose first layer this is, from what is left behind each place there.
pub(crate) fn least_at<F: Fn(Event, u32) -> u32>(
    net: &Net,
    model: &CostModel<F>,
    prices: &Prices,
    ends: Ends,
    taken: &Taken,
    spot: Spot,
    rests: &Row,
) -> Option<i128>
    requires kept { Keeps F.Fn model.now }
    requires net { IsBuilt net.now }
    requires prices { AreInRange net.now prices.now }
    requires taken { IsRoomOf net.now taken.now }
    requires spot { IsSpot net.now spot }
    requires rests { AreRests net.now (weights_of model.now) prices.now ends taken.now spot.strand
        (suc spot.layer) rests.now }
    ensures { IsRest net.now (weights_of model.now) prices.now ends taken.now spot.strand
        spot.layer None result }
{
    let row = row_of(net, model, prices, ends, taken, spot, rests);
    least_from(net, model, spot, None, &row)
}
