// What a tie group's places cost its strands.

ghost use Rattle.std.specs.Prelude.{◌≡◌, ◌<◌, ◌^◌, ◌&&◌, ℕ, ℤ, pos, ◌+ℤ◌, ◌≤ℤ◌, [], length};
ghost use Rattle.std.specs.Prelude.{true, false};
ghost use Rattle.std.specs.Prelude.{None, Some, slice_index_or, unwrap_or, if◌then◌else◌};
ghost use Rattle.net_form.specs.Admitted.{strand_at};
ghost use Rattle.al_laws.specs.Greedy.{is_group};
ghost use Rattle.pra_base.specs.declared.ids.Place.{Place as AnyPlace};
ghost use Rattle.pra_base.specs.declared.ids.Place.TheVariants.{Mem};
ghost use Rattle.pra_base.specs.Places.{number, allows, place_count};
ghost use Rattle.net_cost.specs.Models.{Keeps, weights_of};
ghost use Rattle.net_form.specs.Formed.{IsFormed};
ghost use Rattle.net_form.specs.InUse.{StandsFor};
ghost use Rattle.net_form.specs.Rooms.{IsRoomOf};
ghost use Rattle.net_laws.specs.Built.{IsBuilt};
ghost use Rattle.net_dual.specs.Priced.{AreInRange};
ghost use Rattle.net_path.specs.Desk.{IsReservedFor};
ghost use Rattle.al_edge.specs.OpenPlaces.{may_be, AreForAll, IsInMasks};
ghost use Rattle.al_edge.specs.Weighed.{IsCostAt, AreWeights};
ghost use Rattle.al_edge.specs.Totals.{AreOpenBelow, AreInMasks, AreCostsBelow, AreKnown, AreWide};
ghost use Rattle.al_edge.specs.Totals.{AreCostsAdded, AreTotals};

use crate::cheapest::{PlaceWeights, place_of};
use crate::members::{
    counts, ends_of, enters_alone, goes_round, group_ends, layer_of, leaves_alone, mask_of,
};
use net_cost::{CostModel, Event};
use net_form::{Net, Prices, Taken, TieEnd};
use net_path::{Work, costs_from, costs_to, least};
use pra_base::places::{EVERY, MEMORY, allows, meet, without};
use pra_base::{Mask, Place};

// The places of a mask at which the end may be too.
fn narrowed(net: &Net, used: &Taken, end: TieEnd, places: Mask) -> Mask
    requires net { IsFormed net.now }
    requires used { IsRoomOf net.now used.now }
    requires strand { end.strand < length net.now.strands }
    ensures { (p : AnyPlace) → allows result (number p) ≡
        (allows places (number p) && may_be net.now used.now.regs p end) }
{
    let busy = used.regs[layer_of(net, end) as usize];
    meet(places, without(mask_of(net, end), busy))
}

/// Whether a mask has no place but memory.
pub(crate) fn is_memory_alone(places: Mask) -> bool
    ensures { result ≡ true → (p : AnyPlace) → allows places (number p) ≡ true → p ≡ Mem }
{
    places == MEMORY
}

/// The places at which all ends of the group may be. Memory is always among them, so the ends that
/// are left are not asked once it is alone.
pub(crate) fn places_for_all(net: &Net, used: &Taken, group: u32) -> Mask
    requires net { IsBuilt net.now }
    requires used { IsRoomOf net.now used.now }
    requires group { group < net.now.groups }
    ensures { AreForAll net.now used.now.regs group result }
{
    let mut places = EVERY;
    for end in ends_of(net, group) {
        places = narrowed(net, used, *end, places);
        if is_memory_alone(places) {
            return places;
        }
    }
    places
}

// What a strand costs at least with its ends in the group at the place.
fn cost_at<F: Fn(Event, u32) -> u32>(
    work: &mut Work,
    net: &Net,
    model: &CostModel<F>,
    prices: &Prices,
    free: &Taken,
    group: u32,
    place: Place,
    strand: u32,
) -> i64
    requires kept { Keeps F.Fn model.now }
    requires net { IsBuilt net.now }
    requires work { IsReservedFor net.now work.old }
    requires prices { AreInRange net.now prices.now }
    requires room { IsRoomOf net.now free.now }
    requires free { StandsFor net.now free.now [] }
    requires place { IsInMasks net.now group place }
    requires strand { strand < length net.now.strands }
    ensures cost { IsCostAt net.now (weights_of model.now) prices.now group place strand result }
    ensures family { work.new.family ≡ work.old.family }
    ensures reserved { IsReservedFor net.now work.new }
{
    let ends = group_ends(net, group, place, strand);
    match least(work, net, model, prices, strand, ends, free) {
        Ok(cost) => cost,
        Err(_) => 0,
    }
}

// Whether it is in the mask, for each place.
fn open_places(places: Mask) -> [bool; 14]
    ensures { AreOpenBelow places place_count result }
{
    let mut opens = [false; 14];
    for number in 0..14u8 {
        opens[number as usize] = allows(places, place_of(number));
    }
    opens
}

// The cost that was found for a place, and 0 where none was.
fn known_at(found: &[Option<i64>; 14], place: Place) -> i64
    ensures { result ≡ unwrap_or (slice_index_or found.now (number place) None) (pos 0) }
{
    found[place.number() as usize].unwrap_or(0)
}

// What a strand with both ends in the group costs at least with them at the place. No path has to
// be read back for it.
fn cost_around<F: Fn(Event, u32) -> u32>(
    work: &mut Work,
    net: &Net,
    model: &CostModel<F>,
    prices: &Prices,
    free: &Taken,
    group: u32,
    place: Place,
    strand: u32,
) -> i64
    requires kept { Keeps F.Fn model.now }
    requires net { IsBuilt net.now }
    requires work { IsReservedFor net.now work.old }
    requires prices { AreInRange net.now prices.now }
    requires room { IsRoomOf net.now free.now }
    requires free { StandsFor net.now free.now [] }
    requires place { IsInMasks net.now group place }
    requires strand { strand < length net.now.strands }
    requires entry { is_group group (strand_at net.now strand).entry_group ≡ true }
    requires exit { is_group group (strand_at net.now strand).exit_group ≡ true }
    ensures cost { IsCostAt net.now (weights_of model.now) prices.now group place strand result }
    ensures family { work.new.family ≡ work.old.family }
    ensures reserved { IsReservedFor net.now work.new }
{
    let found = costs_from(work, net, model, prices, strand, Some(place), free);
    known_at(&found, place)
}

// What a strand costs at least with its ends there, if this place is open. In memory most strands
// pass by, which the search for a path sees at once.
fn cost_if_open<F: Fn(Event, u32) -> u32>(
    work: &mut Work,
    net: &Net,
    model: &CostModel<F>,
    prices: &Prices,
    free: &Taken,
    group: u32,
    opened: bool,
    place: Place,
    strand: u32,
) -> i64
    requires kept { Keeps F.Fn model.now }
    requires net { IsBuilt net.now }
    requires work { IsReservedFor net.now work.old }
    requires prices { AreInRange net.now prices.now }
    requires room { IsRoomOf net.now free.now }
    requires free { StandsFor net.now free.now [] }
    requires place { opened ≡ true → IsInMasks net.now group place }
    requires strand { strand < length net.now.strands }
    ensures cost { opened ≡ true →
        IsCostAt net.now (weights_of model.now) prices.now group place strand result }
    ensures family { work.new.family ≡ work.old.family }
    ensures reserved { IsReservedFor net.now work.new }
{
    if !opened {
        return 0;
    }
    if place.is_mem() || !goes_round(net, group, strand) {
        return cost_at(work, net, model, prices, free, group, place, strand);
    }
    cost_around(work, net, model, prices, free, group, place, strand)
}

// What a strand costs at each open place, by a search for each.
fn costs_by_place<F: Fn(Event, u32) -> u32>(
    work: &mut Work,
    net: &Net,
    model: &CostModel<F>,
    prices: &Prices,
    free: &Taken,
    group: u32,
    opens: &[bool; 14],
    strand: u32,
) -> [i64; 14]
    requires kept { Keeps F.Fn model.now }
    requires net { IsBuilt net.now }
    requires work { IsReservedFor net.now work.old }
    requires prices { AreInRange net.now prices.now }
    requires room { IsRoomOf net.now free.now }
    requires free { StandsFor net.now free.now [] }
    requires opens { AreInMasks net.now group opens.now }
    requires strand { strand < length net.now.strands }
    ensures costs { AreCostsBelow net.now (weights_of model.now) prices.now group strand opens.now
        place_count result }
    ensures family { work.new.family ≡ work.old.family }
    ensures reserved { IsReservedFor net.now work.new }
{
    let mut costs = [0i64; 14];
    for number in 0..14u8 {
        let opened = opens[number as usize];
        let place = place_of(number);
        let cost = cost_if_open(work, net, model, prices, free, group, opened, place, strand);
        costs[number as usize] = cost;
    }
    costs
}

// The costs that were found, and 0 where none was.
fn known(found: &[Option<i64>; 14]) -> [i64; 14]
    ensures { AreKnown found.now place_count result }
{
    let mut costs = [0i64; 14];
    for number in 0..14usize {
        costs[number] = found[number].unwrap_or(0);
    }
    costs
}

// What a strand whose entry alone is in the group costs at each open place, by one search.
fn costs_by_entry<F: Fn(Event, u32) -> u32>(
    work: &mut Work,
    net: &Net,
    model: &CostModel<F>,
    prices: &Prices,
    free: &Taken,
    group: u32,
    opens: &[bool; 14],
    strand: u32,
) -> [i64; 14]
    requires kept { Keeps F.Fn model.now }
    requires net { IsBuilt net.now }
    requires work { IsReservedFor net.now work.old }
    requires prices { AreInRange net.now prices.now }
    requires room { IsRoomOf net.now free.now }
    requires free { StandsFor net.now free.now [] }
    requires opens { AreInMasks net.now group opens.now }
    requires strand { strand < length net.now.strands }
    requires entry { is_group group (strand_at net.now strand).entry_group ≡ true }
    requires exit { is_group group (strand_at net.now strand).exit_group ≡ false }
    ensures costs { AreCostsBelow net.now (weights_of model.now) prices.now group strand opens.now
        place_count result }
    ensures family { work.new.family ≡ work.old.family }
    ensures reserved { IsReservedFor net.now work.new }
{
    let found = costs_from(work, net, model, prices, strand, None, free);
    known(&found)
}

// What a strand whose exit alone is in the group costs at each open place, by one search.
fn costs_by_exit<F: Fn(Event, u32) -> u32>(
    work: &mut Work,
    net: &Net,
    model: &CostModel<F>,
    prices: &Prices,
    free: &Taken,
    group: u32,
    opens: &[bool; 14],
    strand: u32,
) -> [i64; 14]
    requires kept { Keeps F.Fn model.now }
    requires net { IsBuilt net.now }
    requires work { IsReservedFor net.now work.old }
    requires prices { AreInRange net.now prices.now }
    requires room { IsRoomOf net.now free.now }
    requires free { StandsFor net.now free.now [] }
    requires opens { AreInMasks net.now group opens.now }
    requires strand { strand < length net.now.strands }
    requires entry { is_group group (strand_at net.now strand).entry_group ≡ false }
    requires exit { is_group group (strand_at net.now strand).exit_group ≡ true }
    requires value { (strand_at net.now strand).constant ≡ false }
    ensures costs { AreCostsBelow net.now (weights_of model.now) prices.now group strand opens.now
        place_count result }
    ensures family { work.new.family ≡ work.old.family }
    ensures reserved { IsReservedFor net.now work.new }
{
    let found = costs_to(work, net, model, prices, strand, None, free);
    known(&found)
}

// What a strand costs at least at each open place, with its ends in the group there.
fn costs_at<F: Fn(Event, u32) -> u32>(
    work: &mut Work,
    net: &Net,
    model: &CostModel<F>,
    prices: &Prices,
    free: &Taken,
    group: u32,
    opens: &[bool; 14],
    strand: u32,
) -> [i64; 14]
    requires kept { Keeps F.Fn model.now }
    requires net { IsBuilt net.now }
    requires work { IsReservedFor net.now work.old }
    requires prices { AreInRange net.now prices.now }
    requires room { IsRoomOf net.now free.now }
    requires free { StandsFor net.now free.now [] }
    requires opens { AreInMasks net.now group opens.now }
    requires strand { strand < length net.now.strands }
    ensures costs { AreCostsBelow net.now (weights_of model.now) prices.now group strand opens.now
        place_count result }
    ensures family { work.new.family ≡ work.old.family }
    ensures reserved { IsReservedFor net.now work.new }
{
    if enters_alone(net, group, strand) {
        costs_by_entry(work, net, model, prices, free, group, opens, strand)
    } else if leaves_alone(net, group, strand) {
        costs_by_exit(work, net, model, prices, free, group, opens, strand)
    } else {
        costs_by_place(work, net, model, prices, free, group, opens, strand)
    }
}

fn add(total: i128, cost: i64) -> i128
    requires low { pos 0 ≤ℤ (total +ℤ pos (2 ^ 100)) }
    requires high { total ≤ℤ pos (2 ^ 100) }
    ensures more { result ≡ (total +ℤ cost) }
    ensures low { total ≤ℤ (result +ℤ pos (2 ^ 63)) }
    ensures high { result ≤ℤ (total +ℤ pos (2 ^ 63)) }
{
    total + i128::from(cost)
}

// Adds what a strand costs at each place.
fn add_all(totals: &mut [i128; 14], costs: &[i64; 14])
    requires wide { AreWide (2 ^ 99) totals.old }
    ensures { AreCostsAdded totals.old costs.now totals.new }
{
    for number in 0..14usize {
        totals[number] = add(totals[number], costs[number]);
    }
}

// What each place costs the strands with an end in the group, each once.
fn totals<F: Fn(Event, u32) -> u32>(
    work: &mut Work,
    net: &Net,
    model: &CostModel<F>,
    prices: &Prices,
    free: &Taken,
    group: u32,
    opens: &[bool; 14],
) -> [i128; 14]
    requires kept { Keeps F.Fn model.now }
    requires net { IsBuilt net.now }
    requires work { IsReservedFor net.now work.old }
    requires prices { AreInRange net.now prices.now }
    requires room { IsRoomOf net.now free.now }
    requires free { StandsFor net.now free.now [] }
    requires group { group < net.now.groups }
    requires opens { AreInMasks net.now group opens.now }
    ensures totals { AreTotals net.now (weights_of model.now) prices.now group opens.now result }
    ensures family { work.new.family ≡ work.old.family }
    ensures reserved { IsReservedFor net.now work.new }
{
    let mut totals = [0i128; 14];
    for end in ends_of(net, group) {
        if !counts(net, group, *end) {
            continue;
        }
        let costs = costs_at(work, net, model, prices, free, group, opens, end.strand);
        add_all(&mut totals, &costs);
    }
    totals
}

// The totals of the open places.
fn of_open(opens: &[bool; 14], totals: &[i128; 14]) -> PlaceWeights
    ensures long { length result ≡ place_count }
    ensures each { (k : ℕ) → k < place_count → slice_index_or result k None ≡
        (if slice_index_or opens.now k false then Some (slice_index_or totals.now k (pos 0))
        else None) }
{
    let mut weights = [None; 14];
    for number in 0..14usize {
        if opens[number] {
            weights[number] = Some(totals[number]);
        }
    }
    weights
}

/// What each place costs the strands of a group, and None where it is not open. The open places are
/// those at which all its ends may be.
pub(crate) fn weights<F: Fn(Event, u32) -> u32>(
    work: &mut Work,
    net: &Net,
    model: &CostModel<F>,
    prices: &Prices,
    free: &Taken,
    _used: &Taken,
    group: u32,
    places: Mask,
) -> PlaceWeights
    requires kept { Keeps F.Fn model.now }
    requires net { IsBuilt net.now }
    requires work { IsReservedFor net.now work.old }
    requires prices { AreInRange net.now prices.now }
    requires room { IsRoomOf net.now free.now }
    requires free { StandsFor net.now free.now [] }
    requires used { IsRoomOf net.now _used.now }
    requires group { group < net.now.groups }
    requires places { AreForAll net.now _used.now.regs group places }
    ensures weights { AreWeights net.now (weights_of model.now) prices.now _used.now.regs group
        place_count result }
    ensures family { work.new.family ≡ work.old.family }
    ensures reserved { IsReservedFor net.now work.new }
{
    let opens = open_places(places);
    let totals = totals(work, net, model, prices, free, group, &opens);
    of_open(&opens, &totals)
}
