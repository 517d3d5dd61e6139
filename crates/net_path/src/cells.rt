// What is paid at each place of each layer of a strand, and which places are closed.

ghost use Rattle.std.specs.Prelude.{◌≡◌, ◌≤◌, ◌<◌, ◌+◌, ◌*◌, ◌^◌, ℕ, pos, length, All};
ghost use Rattle.std.specs.Prelude.{slice_index, None, not, ◌||◌};
ghost use Rattle.net_cost.specs.Models.{Keeps, weights_of};
ghost use Rattle.net_form.specs.Admitted.{strand_at};
ghost use Rattle.net_form.specs.Formed.{IsFormed};
ghost use Rattle.net_form.specs.Ordered.{AreExtras};
ghost use Rattle.net_form.specs.Rooms.{IsRoomOf};
ghost use Rattle.net_dual.specs.Priced.{AreInRange};
ghost use Rattle.pra_base.specs.Places.{number, allows, place_count, register_count};
ghost use Rattle.pra_base.specs.declared.ids.Place.{Place as AnyPlace};
ghost use Rattle.net_path.specs.Grounds.{wants, suits_ends, edge, is_free, terrain};
ghost use Rattle.net_path.specs.Cells.{IsSpot, ArePlainCells, ArePlainRows, is_open_alone};
ghost use Rattle.net_path.specs.Cells.{spot_edge, price_in, spot_extras, IsCellWith, AreCellsWith};
ghost use Rattle.net_path.specs.Cells.{IsPriceIf, IsPriceAt};
ghost use Rattle.net_path.specs.Rows.{IsAbout, AreCells, AreCellsWithin};
ghost use Rattle.net_laws.specs.Built.{IsBuilt};

use crate::crossbar::Row;
use crate::pairs::pay_pairs;
use crate::rows::UNREACHED;
use crate::search::price_of;
use crate::ties::{pay_entries, pay_exits};
use net_cost::{CostModel, Event};
use net_form::{Ends, Net, Prices, Strand, Taken};
use pra_base::places::{EVERY, allows, meet, only, without};
use pra_base::{Mask, Place};

// The places that suit an end: every one, or the one that is wanted.
fn wanted(place: Option<Place>) -> Mask
    ensures { (q : AnyPlace) → allows result (number q) ≡ wants place q }
{
    match place {
        None => EVERY,
        Some(place) => only(place),
    }
}

/// A layer of a strand, and the number of the strand's first extra there.
#[derive(Clone, Copy, Debug)]
pub(crate) struct Spot {
    pub strand: usize,
    pub layer: u32,
    pub extra: usize,
}

// The same where the end is, and every place where it is not.
fn wanted_if(here: bool, place: Option<Place>) -> Mask
    ensures { (q : AnyPlace) → allows result (number q) ≡ (not here || wants place q) }
{
    if here { wanted(place) } else { EVERY }
}

// The places that suit the ends of a path at a layer.
fn suiting(strand: &Strand, ends: Ends, layer: u32) -> Mask
    ensures { (s : ℕ) (q : AnyPlace) →
        allows result (number q) ≡ suits_ends ends strand.now (edge s layer None q) }
{
    let first = wanted_if(layer == strand.first, ends.first);
    let last = wanted_if(layer == strand.last, ends.last);
    meet(first, last)
}

// Where a path may be at a layer, as far as masks, ends and registers in use go.
fn open_places(net: &Net, ends: Ends, taken: &Taken, spot: Spot) -> Mask
    requires net { IsFormed net.now }
    requires spot { IsSpot net.now spot }
    requires taken { IsRoomOf net.now taken.now }
    ensures { (place : AnyPlace) → allows result (number place) ≡
        is_open_alone net.now ends taken.now (spot_edge spot place) }
{
    let strand = &net.strands[spot.strand];
    let mask = strand.masks[(spot.layer - strand.first) as usize];
    let layer = net.entry_layer(spot.strand) + spot.layer;
    let free = without(mask, taken.regs[layer as usize]);
    meet(free, suiting(strand, ends, spot.layer))
}

// The prices of the six registers at a layer, counted over all blocks.
fn caps_at(prices: &Prices, layer: usize) -> &[u64]
    requires small { layer < 2 ^ 32 }
    requires layer { 6 * layer + 6 ≤ length prices.now.caps }
    requires most { All (λ c. c ≤ 2 ^ 40) prices.now.caps }
    ensures six { length result.now ≡ 6 }
    ensures are { (r : ℕ) → r < 6 →
        slice_index result.now r ≡ slice_index prices.now.caps (6 * layer + r) }
    ensures most { All (λ c. c ≤ 2 ^ 40) result.now }
{
    &prices.caps.as_slice()[6 * layer..6 * layer + 6]
}

// The price of the register of a place, of these six.
fn cap_price(caps: &[u64], place: Place) -> i64
    requires six { length caps.now ≡ 6 }
    requires most { All (λ c. c ≤ 2 ^ 40) caps.now }
    ensures value { result ≡ price_in caps.now (number place) }
    ensures about { IsAbout (2 ^ 40) result }
{
    if !place.has_register() {
        return 0;
    }
    caps[place.register() as usize] as i64
}

// What is paid at a place, with so much for extras.
fn cell(places: Mask, caps: &[u64], place: Place, extras: i64) -> i64
    requires six { length caps.now ≡ 6 }
    requires most { All (λ c. c ≤ 2 ^ 40) caps.now }
    requires extras { IsAbout (2 ^ 42) extras }
    ensures { IsCellWith places caps.now extras place result }
{
    if allows(places, place) {
        extras + cap_price(caps, place)
    } else {
        UNREACHED
    }
}

// The price of a register, of these six.
#[inline(always)]
fn register_price(caps: &[u64], register: u8) -> i64
    requires six { length caps.now ≡ 6 }
    requires most { All (λ c. c ≤ 2 ^ 40) caps.now }
    requires register { register < register_count }
    ensures value { result ≡ pos (slice_index caps.now register) }
    ensures about { IsAbout (2 ^ 40) result }
{
    caps[register as usize] as i64
}

// A price where the place of a number is open, and that it is closed where it is not: a choice of
// two numbers that are there already.
#[inline(always)]
fn price_if(places: Mask, place: u8, price: i64) -> i64
    requires place { place < place_count }
    requires price { IsAbout (2 ^ 40) price }
    ensures { IsPriceIf places place price result }
{
    if (places >> place) & 1 == 1 {
        price
    } else {
        UNREACHED
    }
}

// Puts what is paid at the place of a number.
#[inline(always)]
fn put_price(row: &mut Row, places: Mask, place: u8, price: i64)
    requires place { place < place_count }
    requires price { IsAbout (2 ^ 40) price }
    ensures { IsPriceAt places place price row.old.costs row.new.costs }
{
    row.costs[place as usize] = price_if(places, place, price);
}

// What is paid at the places of a layer without extras: a register's price at both its places.
fn fill_row(places: Mask, caps: &[u64], row: &mut Row)
    requires six { length caps.now ≡ 6 }
    requires most { All (λ c. c ≤ 2 ^ 40) caps.now }
    ensures { AreCellsWith places caps.now (λ place. pos 0) row.new.costs }
{
    for register in 0..6u8 {
        let price = register_price(caps, register);
        put_price(row, places, register, price);
        put_price(row, places, 8 + register, price);
    }
    put_price(row, places, 6, 0);
    put_price(row, places, 7, 0);
}

// Pays the extras of a layer, each at its place.
fn pay_extras<F: Fn(Event, u32) -> u32>(
    net: &Net,
    model: &CostModel<F>,
    places: Mask,
    caps: &[u64],
    spot: Spot,
    row: &mut Row,
)
    requires kept { Keeps F.Fn model.now }
    requires net { IsFormed net.now }
    requires extras { AreExtras net.now }
    requires spot { IsSpot net.now spot }
    requires six { length caps.now ≡ 6 }
    requires most { All (λ c. c ≤ 2 ^ 40) caps.now }
    requires row { AreCellsWith places caps.now (λ place. pos 0) row.old.costs }
    ensures { AreCellsWith places caps.now (spot_extras net.now (weights_of model.now) spot)
        row.new.costs }
{
    for next in spot.extra..net.extras.len() {
        let Some(extra) = net.extra_at(spot.strand, spot.layer, next) else {
            return;
        };
        let price = price_of(model, extra.event, net.depth(spot.strand));
        let paid = cell(places, caps, extra.place, price);
        row.costs[extra.place.number() as usize] = paid;
    }
}

// The costs of a layer of a strand, before memory pairs and ties.
fn plain_row<F: Fn(Event, u32) -> u32>(
    net: &Net,
    model: &CostModel<F>,
    prices: &Prices,
    ends: Ends,
    taken: &Taken,
    spot: Spot,
    row: &mut Row,
)
    requires kept { Keeps F.Fn model.now }
    requires net { IsFormed net.now }
    requires extras { AreExtras net.now }
    requires prices { AreInRange net.now prices.now }
    requires taken { IsRoomOf net.now taken.now }
    requires spot { IsSpot net.now spot }
    ensures { ArePlainCells net.now (weights_of model.now) prices.now ends taken.now spot
        row.new.costs }
{
    let places = open_places(net, ends, taken, spot);
    let layer = net.entry_layer(spot.strand) + spot.layer;
    let caps = caps_at(prices, layer as usize);
    fill_row(places, caps, row);
    pay_extras(net, model, places, caps, spot, row);
}

/// The costs of all layers of a strand, before memory pairs and ties.
pub(crate) fn plain_rows<F: Fn(Event, u32) -> u32>(
    net: &Net,
    model: &CostModel<F>,
    prices: &Prices,
    ends: Ends,
    taken: &Taken,
    strand: usize,
    rows: &mut [Row],
)
    requires kept { Keeps F.Fn model.now }
    requires net { IsFormed net.now }
    requires extras { AreExtras net.now }
    requires prices { AreInRange net.now prices.now }
    requires taken { IsRoomOf net.now taken.now }
    requires strand { strand < length net.now.strands }
    requires rows { (strand_at net.now strand).first + length rows.old ≡
        (strand_at net.now strand).last + 1 }
    ensures { ArePlainRows net.now (weights_of model.now) prices.now ends taken.now strand
        (length rows.old) rows.new }
{
    let first = net.strands[strand].first;
    let mut extra = net.first_extra(strand);
    for at in 0..rows.len() {
        let layer = first + at as u32;
        let spot = Spot {
            strand,
            layer,
            extra,
        };
        plain_row(net, model, prices, ends, taken, spot, &mut rows[at]);
        extra = net.next_extra(strand, layer, extra);
    }
}

/// What is paid at all places of all layers of a strand.
pub(crate) fn fill_cells<F: Fn(Event, u32) -> u32>(
    net: &Net,
    model: &CostModel<F>,
    prices: &Prices,
    ends: Ends,
    taken: &Taken,
    strand: usize,
    rows: &mut [Row],
)
    requires kept { Keeps F.Fn model.now }
    requires net { IsBuilt net.now }
    requires prices { AreInRange net.now prices.now }
    requires taken { IsRoomOf net.now taken.now }
    requires strand { strand < length net.now.strands }
    requires rows { (strand_at net.now strand).first + length rows.old ≡
        (strand_at net.now strand).last + 1 }
    ensures long { length rows.new ≡ length rows.old }
    ensures cells { AreCells (terrain net.now (weights_of model.now) prices.now ends
        (is_free net.now taken.now) strand) rows.new }
    ensures within { AreCellsWithin rows.new }
{
    plain_rows(net, model, prices, ends, taken, strand, rows);
    pay_pairs(net, prices, taken, strand, rows);
    let last = rows.len() - 1;
    pay_exits(net, prices, strand, &mut rows[last]);
    pay_entries(net, prices, strand, &mut rows[0]);
}
