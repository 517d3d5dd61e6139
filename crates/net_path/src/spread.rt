// Which of its least paths a strand takes: one that leaves other paths of the family alone.
//
// Each register at a layer counts the paths that are in it, alone or in its both place. A strand
// that is renewed is counted out, and in again where its new path is. Between the two its rows get
// seconds: 2 l - 1 for a register with l other paths in it, which is what one path more adds to the
// overload, a sum of squares; -1 for a free register with a price, which falls only where nobody
// is; and at an end 2 less for the place of the other side of a tie. So the family is spread over
// the registers, and the value rises sooner.

ghost use Rattle.std.specs.Prelude.{◌≡◌, ◌+◌, ◌*◌, ◌^◌, ◌≤◌, ◌<◌, length};
ghost use Rattle.net_form.specs.Admitted.{strand_at};
ghost use Rattle.net_laws.specs.Built.{IsBuilt};
ghost use Rattle.net_dual.specs.Priced.{AreInRange};
ghost use Rattle.net_path.specs.Rows.{HaveSameCosts};

use crate::crossbar::Row;
use net_form::{Net, Prices};
use pra_base::Place;

/// How many paths of a family are in each of the six registers at a layer.
pub(crate) type Load = [u32; 6];

fn counted(count: u32, comes: bool) -> u32 {
    if comes {
        count.saturating_add(1)
    } else {
        count.saturating_sub(1)
    }
}

/// Counts a path in or out, at the layers of its strand.
pub(crate) fn count(loads: &mut [Load], path: &[Place], comes: bool)
    requires { length path.now ≤ length loads.old }
    ensures { length loads.new ≡ length loads.old }
{
    for at in 0..path.len() {
        let place = path[at];
        if place.has_register() {
            let register = place.register() as usize;
            loads[at][register] = counted(loads[at][register], comes);
        }
    }
}

// What one path more adds to a register with so many in it.
fn crowding(load: u32, price: u64) -> i64 {
    if load > 0 {
        2 * i64::from(load) - 1
    } else if price > 0 {
        -1
    } else {
        0
    }
}

// The seconds of a layer, whose registers have these prices.
fn seconds_of(load: &Load, prices: &[u64]) -> [i64; 16]
    requires { 6 ≤ length prices.now }
{
    let mut seconds = [0i64; 16];
    for register in 0..6usize {
        let second = crowding(load[register], prices[register]);
        seconds[register] = second;
        seconds[8 + register] = second;
    }
    seconds
}

fn put_seconds(rows: &mut [Row], at: usize, seconds: [i64; 16])
    requires { at < length rows.old }
    ensures { HaveSameCosts rows.old rows.new }
{
    rows[at].seconds = seconds;
}

// The prices of registers from a layer on, counted over all blocks.
fn caps_from(prices: &Prices, layer: usize) -> &[u64]
    requires small { layer < 2 ^ 32 }
    requires layer { 6 * layer + 6 ≤ length prices.now.caps }
    ensures { 6 ≤ length result.now }
{
    &prices.caps.as_slice()[6 * layer..]
}

// The seconds of all layers of a strand, without ties.
#[tactic(auto, using(crate::proofs::Seconds::unchanged, crate::proofs::Seconds::after))]
fn crowd(net: &Net, prices: &Prices, strand: usize, loads: &[Load], rows: &mut [Row])
    requires net { IsBuilt net.now }
    requires prices { AreInRange net.now prices.now }
    requires strand { strand < length net.now.strands }
    requires rows { (strand_at net.now strand).first + length rows.old ≡
        (strand_at net.now strand).last + 1 }
    requires loads { length loads.now ≡ length rows.old }
    ensures { HaveSameCosts rows.old rows.new }
{
    let first = (net.entry_layer(strand) + net.strands[strand].first) as usize;
    for at in 0..rows.len() {
        let prices = caps_from(prices, first + at);
        put_seconds(rows, at, seconds_of(&loads[at], prices));
    }
}

// Draws an end to the place of the other side of its tie.
#[tactic(auto, using(crate::proofs::Seconds::unchanged, crate::proofs::Seconds::after))]
fn draw(rows: &mut [Row], at: usize, there: Option<Place>)
    requires { at < length rows.old }
    ensures { HaveSameCosts rows.old rows.new }
{
    if let Some(there) = there {
        let mut seconds = rows[at].seconds;
        let number = there.number() as usize;
        seconds[number] = seconds[number].saturating_sub(2);
        put_seconds(rows, at, seconds);
    }
}

/// Where a path of the family begins and ends. All sides lie together, so that those of the strands
/// that ties lead to are found without their paths.
#[derive(Clone, Copy, Debug)]
pub(crate) struct Sides {
    pub first: Place,
    pub last: Place,
}

/// Notes where the path of a strand begins and ends.
pub(crate) fn put_sides(sides: &mut [Sides], strand: usize, path: &[Place]) {
    if path.is_empty() || strand >= sides.len() {
        return;
    }
    sides[strand] = Sides {
        first: path[0],
        last: path[path.len() - 1],
    };
}

fn entry_of(sides: &[Sides], strand: u32) -> Option<Place> {
    Some(sides.get(strand as usize)?.first)
}

fn exit_of(sides: &[Sides], strand: u32) -> Option<Place> {
    Some(sides.get(strand as usize)?.last)
}

// Draws the last layer of a strand to where the strands that follow begin.
#[tactic(auto, using(crate::proofs::Seconds::unchanged, crate::proofs::Seconds::after))]
fn draw_exits(net: &Net, sides: &[Sides], strand: usize, rows: &mut [Row])
    requires net { IsBuilt net.now }
    requires strand { strand < length net.now.strands }
    requires rows { 0 < length rows.old }
    ensures { HaveSameCosts rows.old rows.new }
{
    let last = rows.len() - 1;
    let start = net.index.exits[strand];
    let stop = net.index.exits[strand + 1];
    for tie in start..stop {
        draw(rows, last, entry_of(sides, net.ties[tie as usize].to));
    }
}

// Draws the first layer of a strand to where the strands before it end.
#[tactic(auto, using(crate::proofs::Seconds::unchanged, crate::proofs::Seconds::after))]
fn draw_entries(net: &Net, sides: &[Sides], strand: usize, rows: &mut [Row])
    requires net { IsBuilt net.now }
    requires strand { strand < length net.now.strands }
    requires rows { 0 < length rows.old }
    ensures { HaveSameCosts rows.old rows.new }
{
    let start = net.index.entries[strand];
    let stop = net.index.entries[strand + 1];
    for at in start..stop {
        let tie = net.index.arrivals[at as usize];
        draw(rows, 0, exit_of(sides, net.ties[tie as usize].from));
    }
}

/// Gives the rows of a strand their seconds.
#[tactic(auto, using(crate::proofs::Seconds::unchanged, crate::proofs::Seconds::after))]
pub(crate) fn spread(
    net: &Net,
    prices: &Prices,
    sides: &[Sides],
    strand: usize,
    loads: &[Load],
    rows: &mut [Row],
)
    requires net { IsBuilt net.now }
    requires prices { AreInRange net.now prices.now }
    requires strand { strand < length net.now.strands }
    requires rows { (strand_at net.now strand).first + length rows.old ≡
        (strand_at net.now strand).last + 1 }
    requires loads { length loads.now ≡ length rows.old }
    ensures { HaveSameCosts rows.old rows.new }
{
    crowd(net, prices, strand, loads, rows);
    draw_exits(net, sides, strand, rows);
    draw_entries(net, sides, strand, rows);
}

// Whether an end may be drawn to a place of this layer, counted over all blocks: to a register that
// costs nothing there. Who pays for a register is on no least path, if to stay in memory is one.
fn may_draw(prices: &Prices, layer: usize, there: Option<Place>) -> bool
    requires small { layer < 2 ^ 32 }
    requires layer { 6 * layer + 6 ≤ length prices.now.caps }
{
    let Some(there) = there else {
        return false;
    };
    if !there.has_register() {
        return false;
    }
    caps_from(prices, layer)[there.register() as usize] == 0
}

// Whether the last layer of a strand may be drawn to where one that follows begins.
fn exit_may_be_drawn(net: &Net, prices: &Prices, sides: &[Sides], strand: usize) -> bool
    requires net { IsBuilt net.now }
    requires prices { AreInRange net.now prices.now }
    requires strand { strand < length net.now.strands }
{
    let layer = (net.entry_layer(strand) + net.strands[strand].last) as usize;
    let start = net.index.exits[strand];
    let stop = net.index.exits[strand + 1];
    for tie in start..stop {
        if may_draw(prices, layer, entry_of(sides, net.ties[tie as usize].to)) {
            return true;
        }
    }
    false
}

// Whether the first layer of a strand may be drawn to where one before it ends.
fn entry_may_be_drawn(net: &Net, prices: &Prices, sides: &[Sides], strand: usize) -> bool
    requires net { IsBuilt net.now }
    requires prices { AreInRange net.now prices.now }
    requires strand { strand < length net.now.strands }
{
    let layer = (net.entry_layer(strand) + net.strands[strand].first) as usize;
    let start = net.index.entries[strand];
    let stop = net.index.entries[strand + 1];
    for at in start..stop {
        let tie = net.index.arrivals[at as usize];
        if may_draw(prices, layer, exit_of(sides, net.ties[tie as usize].from)) {
            return true;
        }
    }
    false
}

/// Whether seconds leave a strand in memory, where to stay there is a least path. They are below 0
/// only for registers that have a price, which is more than that path pays, and for an end that is
/// drawn to a place.
pub(crate) fn is_quiet(net: &Net, prices: &Prices, sides: &[Sides], strand: usize) -> bool
    requires net { IsBuilt net.now }
    requires prices { AreInRange net.now prices.now }
    requires strand { strand < length net.now.strands }
{
    !exit_may_be_drawn(net, prices, sides, strand)
        && !entry_may_be_drawn(net, prices, sides, strand)
}
