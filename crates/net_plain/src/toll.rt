// What is paid at a place of a layer, whichever way leads there.

ghost use Rattle.std.specs.Prelude.{◌≡◌, ◌≤◌, ◌<◌, ◌+◌, ◌*◌, ◌^◌, pos, None, length};
ghost use Rattle.std.specs.Prelude.{if◌then◌else◌};
ghost use Rattle.net_cost.specs.Models.{Keeps, weights_of};
ghost use Rattle.net_dual.specs.Priced.{AreInRange, pay, cap_part, mem_part, exit_part, entry_part};
ghost use Rattle.net_dual.specs.Priced.{tie_slot, number_at_slot, tie_price, mem_price, exits};
ghost use Rattle.net_dual.specs.Priced.{enters};
ghost use Rattle.net_dual.specs.Small.{IsWithin};
ghost use Rattle.net_form.specs.Admitted.{tie_at, uses_memory};
ghost use Rattle.net_form.specs.Cost.{is_extra_at, extra_cost, extras_cost};
ghost use Rattle.net_form.specs.InUse.{pair_at};
ghost use Rattle.net_laws.specs.Built.{IsBuilt};
ghost use Rattle.net_path.specs.Grounds.{edge, there_price};
ghost use Rattle.net_plain.specs.Rows.{IsSpot};

use crate::open::{Spot, uses_memory};
use crate::sums::{add, in_units, subtract};
use net_cost::{CostModel, Event};
use net_form::{Extra, Net, Prices, TieNumbers};
use pra_base::Place;

// What an extra weighs, if it is one of the strand at the place of the layer.
fn extra_weight<F: Fn(Event, u32) -> u32>(
    net: &Net,
    model: &CostModel<F>,
    spot: Spot,
    place: Place,
    extra: Extra,
) -> u64
    requires kept { Keeps F.Fn model.now }
    requires net { IsBuilt net.now }
    requires spot { IsSpot net.now spot }
    ensures value { result ≡ (if is_extra_at spot.strand spot.layer place extra
        then extra_cost net.now (weights_of model.now) extra else 0) }
    ensures small { result < 2 ^ 32 }
{
    let strand = extra.strand as usize;
    if spot.strand != strand || spot.layer != extra.layer {
        return 0;
    }
    if place.number() != extra.place.number() {
        return 0;
    }
    u64::from(model.ask(extra.event, net.depth(strand)))
}

// What all extras weigh there.
fn extras_weight<F: Fn(Event, u32) -> u32>(
    net: &Net,
    model: &CostModel<F>,
    spot: Spot,
    place: Place,
) -> u128
    requires kept { Keeps F.Fn model.now }
    requires net { IsBuilt net.now }
    requires spot { IsSpot net.now spot }
    ensures value { result ≡
        extras_cost net.now (weights_of model.now) spot.strand spot.layer place }
    ensures small { result ≤ 2 ^ 96 }
{
    let mut total = 0u128;
    for at in 0..net.extras.len() {
        total += u128::from(extra_weight(net, model, spot, place, net.extras[at]));
    }
    total
}

// The price of the register of the place, if it has one.
fn register_price(net: &Net, prices: &Prices, spot: Spot, place: Place) -> u64
    requires net { IsBuilt net.now }
    requires prices { AreInRange net.now prices.now }
    requires spot { IsSpot net.now spot }
    ensures value { pos result ≡
        cap_part net.now prices.now (edge spot.strand spot.layer None place) }
    ensures small { result ≤ 2 ^ 40 }
{
    if !place.has_register() {
        return 0;
    }
    let layer = net.entry_layer(spot.strand) as usize + spot.layer as usize;
    prices.caps[6 * layer + place.register() as usize]
}

// The price of a memory pair, if who is there brings an end of it to memory.
fn pair_price(net: &Net, prices: &Prices, spot: Spot, place: Place, pair: usize) -> u64
    requires prices { AreInRange net.now prices.now }
    requires pair { pair < length net.now.pairs }
    ensures value { pos result ≡
        pay (uses_memory (pair_at net.now pair) (edge spot.strand spot.layer None place))
        (pos (mem_price prices.now pair)) }
    ensures small { result ≤ 2 ^ 40 }
{
    if !uses_memory(net.pairs[pair], spot, place) {
        return 0;
    }
    prices.mems[pair]
}

// The prices of all such pairs.
fn pair_prices(net: &Net, prices: &Prices, spot: Spot, place: Place) -> u128
    requires prices { AreInRange net.now prices.now }
    ensures value { pos result ≡
        mem_part net.now prices.now (edge spot.strand spot.layer None place) }
    ensures small { result ≤ 2 ^ 104 }
{
    let mut total = 0u128;
    for pair in 0..net.pairs.len() {
        total += u128::from(pair_price(net, prices, spot, place, pair));
    }
    total
}

// Which of a tie's numbers is that of the place; a constant has none.
fn tie_slot(place: Place) -> Option<usize>
    ensures { result ≡ tie_slot place }
{
    if place.is_const() {
        return None;
    }
    let number = place.number() as usize;
    if place.is_both() {
        Some(number - 1)
    } else {
        Some(number)
    }
}

// The number that a tie has for the place, among those of all ties, thirteen for each.
fn number_in(numbers: &TieNumbers, place: Place, tie: usize) -> i64
    requires { 13 * tie + 13 ≤ length numbers.now }
    ensures { result ≡ number_at_slot numbers.now tie (tie_slot place) }
{
    match tie_slot(place) {
        None => 0,
        Some(slot) => numbers.number(tie, slot),
    }
}

// The number that a tie has for the place.
fn tie_number(net: &Net, prices: &Prices, place: Place, tie: usize) -> i64
    requires prices { AreInRange net.now prices.now }
    requires tie { tie < length net.now.ties }
    ensures value { result ≡ tie_price prices.now tie place }
    ensures small { IsWithin (2 ^ 40) result }
{
    number_in(&prices.ties, place, tie)
}

// The same, if the tie leaves from there.
fn exit_number(net: &Net, prices: &Prices, spot: Spot, place: Place, tie: usize) -> i64
    requires prices { AreInRange net.now prices.now }
    requires spot { IsSpot net.now spot }
    requires tie { tie < length net.now.ties }
    ensures value { result ≡
        pay (exits net.now (tie_at net.now tie) (edge spot.strand spot.layer None place))
        (tie_price prices.now tie place) }
    ensures small { IsWithin (2 ^ 40) result }
{
    let from = net.ties[tie].from as usize;
    if spot.strand != from || spot.layer != net.strands[from].last {
        return 0;
    }
    tie_number(net, prices, place, tie)
}

// The same, if the tie leads there.
fn entry_number(net: &Net, prices: &Prices, spot: Spot, place: Place, tie: usize) -> i64
    requires prices { AreInRange net.now prices.now }
    requires spot { IsSpot net.now spot }
    requires tie { tie < length net.now.ties }
    ensures value { result ≡
        pay (enters net.now (tie_at net.now tie) (edge spot.strand spot.layer None place))
        (tie_price prices.now tie place) }
    ensures small { IsWithin (2 ^ 40) result }
{
    let to = net.ties[tie].to as usize;
    if spot.strand != to || spot.layer != net.strands[to].first {
        return 0;
    }
    tie_number(net, prices, place, tie)
}

// The numbers of all ties that leave from there.
fn exit_numbers(net: &Net, prices: &Prices, spot: Spot, place: Place) -> i128
    requires prices { AreInRange net.now prices.now }
    requires spot { IsSpot net.now spot }
    ensures value { result ≡
        exit_part net.now prices.now (edge spot.strand spot.layer None place) }
    ensures small { IsWithin (2 ^ 104) result }
{
    let mut total = 0i128;
    for tie in 0..net.ties.len() {
        total = add(
            total,
            i128::from(exit_number(net, prices, spot, place, tie)),
        );
    }
    total
}

// The numbers of all ties that lead there.
fn entry_numbers(net: &Net, prices: &Prices, spot: Spot, place: Place) -> i128
    requires prices { AreInRange net.now prices.now }
    requires spot { IsSpot net.now spot }
    ensures value { result ≡
        entry_part net.now prices.now (edge spot.strand spot.layer None place) }
    ensures small { IsWithin (2 ^ 104) result }
{
    let mut total = 0i128;
    for tie in 0..net.ties.len() {
        total = add(
            total,
            i128::from(entry_number(net, prices, spot, place, tie)),
        );
    }
    total
}

/// What is paid for being there, in units of 1/1024: extras, the register's price, those of memory
/// pairs, and the numbers of ties that leave from there; those of ties that lead there are paid
/// out.
pub(crate) fn toll<F: Fn(Event, u32) -> u32>(
    net: &Net,
    model: &CostModel<F>,
    prices: &Prices,
    spot: Spot,
    place: Place,
) -> i128
    requires kept { Keeps F.Fn model.now }
    requires net { IsBuilt net.now }
    requires prices { AreInRange net.now prices.now }
    requires spot { IsSpot net.now spot }
    ensures value { result ≡ there_price net.now (weights_of model.now) prices.now
        (edge spot.strand spot.layer None place) }
    ensures small { IsWithin (2 ^ 107) result }
{
    let extras = 1024 * extras_weight(net, model, spot, place) as i128;
    let register = i128::from(register_price(net, prices, spot, place));
    let pairs = pair_prices(net, prices, spot, place) as i128;
    let exits = exit_numbers(net, prices, spot, place);
    let entries = entry_numbers(net, prices, spot, place);
    add(add(extras, register + pairs), subtract(exits, entries))
}
