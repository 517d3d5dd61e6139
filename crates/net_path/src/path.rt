// A path of least cost, read back from the rows by comparing.

ghost use Rattle.std.specs.Prelude.{◌≡◌, ◌⊎◌, ◌≤ℤ◌, true, false, ◌<◌, ◌≤◌, ◌+◌, ◌%◌, ◌^◌, ℕ};
ghost use Rattle.std.specs.Prelude.{length, take, None};
ghost use Rattle.pra_base.specs.Places.{number, place_count};
ghost use Rattle.net_path.specs.Ways.{step_price, AreWaysWithin, AreDebts, IsShort, IsWay};
ghost use Rattle.net_path.specs.Ways.{start_price};
ghost use Rattle.net_path.specs.Leaving.{IsLeaving, into_register, into_memory, leaving_price};
ghost use Rattle.std.specs.Prelude.{◌<ℤ◌, pos};
ghost use Rattle.std.specs.Option.{MatchOption};
ghost use Rattle.net_path.specs.Choices.{IsChoice, IsBestChoice, IsBestPlace, IsGoodStart};
ghost use Rattle.net_path.specs.Choices.{AreStartCosts};
ghost use Rattle.net_path.specs.Rests.{Terrain, AreBest};
ghost use Rattle.net_path.specs.Rows.{costs_at, IsGround};

use crate::crossbar::{Debt, Row, Ways, debt_at, with_way};
use crate::rows::REACHED;
use pra_base::Place;

/// What no register is numbered.
const NO_REGISTER: u8 = 6;

/// A place to come to, and what is to be paid for the way there and from there on.
#[derive(Clone, Copy, Debug)]
pub(crate) struct Choice {
    pub place: Place,
    pub debt: Debt,
}

// Whether the first debt is no more than the second.
#[inline(always)]
fn is_no_more<const SECONDS: bool>(one: Debt, other: Debt) -> bool
    ensures yes { result ≡ true → one.cost ≤ℤ other.cost }
    ensures not { result ≡ false → other.cost ≤ℤ one.cost }
{
    one.cost < other.cost || (one.cost == other.cost && (!SECONDS || one.second <= other.second))
}

// The better of two choices; of equals the first.
#[inline(always)]
fn better<const SECONDS: bool>(one: Choice, other: Choice) -> Choice
    ensures one { result.debt.cost ≤ℤ one.debt.cost }
    ensures other { result.debt.cost ≤ℤ other.debt.cost }
    ensures met { (result ≡ one) ⊎ (result ≡ other) }
{
    if is_no_more::<SECONDS>(one.debt, other.debt) {
        one
    } else {
        other
    }
}

/// What it costs to leave a place: into which register it costs nothing, into another one, and into
/// memory.
#[derive(Clone, Copy, Debug)]
pub(crate) struct Leaving {
    pub own: u8,
    pub bring: i64,
    pub store: i64,
}

// What it costs to leave a place over a crossbar.
#[inline(always)]
fn leave(ways: &Ways, from: Place) -> Leaving
    requires ways { AreWaysWithin ways.now }
    ensures is { IsLeaving ways.now (number from) result }
    ensures bring { IsWay result.bring }
    ensures store { IsWay result.store }
{
    let store = if from.needs_slot() { 0 } else { ways.store };
    if from.has_register() {
        return Leaving {
            own: from.register(),
            bring: ways.between,
            store,
        };
    }
    let bring = if from.needs_slot() {
        ways.load
    } else {
        ways.set
    };
    Leaving {
        own: NO_REGISTER,
        bring,
        store,
    }
}

// What it costs to come into the register of a place, if it has one.
#[inline(always)]
fn into_register(leaving: &Leaving, to: Place) -> i64
    requires { IsWay leaving.now.bring }
    ensures value { result ≡ into_register leaving.now (number to) }
    ensures within { IsWay result }
{
    if to.has_register() && to.register() != leaving.own {
        leaving.bring
    } else {
        0
    }
}

// What it costs to come into the memory of a place, if it has that and the place before has not.
#[inline(always)]
fn into_memory(leaving: &Leaving, to: Place) -> i64
    requires { IsWay leaving.now.store }
    ensures value { result ≡ into_memory leaving.now (number to) }
    ensures within { IsWay result }
{
    if to.needs_slot() { leaving.store } else { 0 }
}

// What the way to a place costs over a crossbar.
#[inline(always)]
fn step(leaving: &Leaving, to: Place) -> i64
    requires bring { IsWay leaving.now.bring }
    requires store { IsWay leaving.now.store }
    ensures value { result ≡ leaving_price leaving.now (number to) }
    ensures short { IsShort result }
{
    into_register(leaving, to) + into_memory(leaving, to)
}

// The place of a number.
#[inline(always)]
pub(crate) fn place_of(place: u8) -> Place
    requires { place < place_count }
    ensures { number result ≡ place }
{
    Place::of_number(place).unwrap_or(Place::Eax)
}

// To come to a place over a crossbar.
#[inline(always)]
fn choose<const SECONDS: bool>(leaving: &Leaving, row: &Row, to: Place) -> Choice
    requires bring { IsWay leaving.now.bring }
    requires store { IsWay leaving.now.store }
    requires row { AreDebts row.now.costs }
    ensures { IsChoice (leaving_price leaving.now) row.now.costs to result }
{
    let debt = debt_at::<SECONDS>(row, to.number() as usize);
    Choice {
        place: to,
        debt: with_way(debt, step(leaving, to)),
    }
}

// The best place to come to over a crossbar; of equals that from which the value came.
fn best_choice<const SECONDS: bool>(ways: &Ways, row: &Row, from: Place) -> Choice
    requires ways { AreWaysWithin ways.now }
    requires row { AreDebts row.now.costs }
    ensures { IsBestChoice (step_price ways.now (number from)) row.now.costs place_count result }
{
    let leaving = leave(ways, from);
    let mut best = choose::<SECONDS>(&leaving, row, from);
    for number in 0..14u8 {
        best = better::<SECONDS>(best, choose::<SECONDS>(&leaving, row, place_of(number)));
    }
    best
}

// To begin at a place; a constant that begins in a register is made there.
fn begin_at<const SECONDS: bool>(ways: &Ways, constant: bool, row: &Row, to: Place) -> Choice
    requires ways { AreWaysWithin ways.now }
    requires row { AreDebts row.now.costs }
    ensures { IsChoice (start_price ways.now constant) row.now.costs to result }
{
    let made = if constant && to.has_register() {
        ways.set
    } else {
        0
    };
    let debt = debt_at::<SECONDS>(row, to.number() as usize);
    Choice {
        place: to,
        debt: with_way(debt, made),
    }
}

// The best place to begin at.
fn best_start<const SECONDS: bool>(ways: &Ways, constant: bool, row: &Row) -> Choice
    requires ways { AreWaysWithin ways.now }
    requires row { AreDebts row.now.costs }
    ensures { IsBestChoice (start_price ways.now constant) row.now.costs place_count result }
{
    let mut best = begin_at::<SECONDS>(ways, constant, row, Place::Mem);
    for number in 0..14u8 {
        best = better::<SECONDS>(
            best,
            begin_at::<SECONDS>(ways, constant, row, place_of(number)),
        );
    }
    best
}

// A cost, if it is that of a path.
fn reached(cost: i64) -> Option<i64>
    ensures { MatchOption result (pos (2 ^ 61) ≤ℤ cost)
        (λ z. (z ≡ cost) × (z <ℤ pos (2 ^ 61))) }
{
    if cost < REACHED { Some(cost) } else { None }
}

/// What is paid from each place where the path begins there.
pub(crate) fn start_costs(ways: &Ways, constant: bool, row: &Row) -> [Option<i64>; 14]
    requires ways { AreWaysWithin ways.now }
    requires row { AreDebts row.now.costs }
    ensures { AreStartCosts (start_price ways.now constant) row.now.costs place_count result }
{
    let mut costs = [None; 14];
    for number in 0..14u8 {
        let choice = begin_at::<false>(ways, constant, row, place_of(number));
        costs[number as usize] = reached(choice.debt.cost);
    }
    costs
}

/// The best place to begin at, where seconds count or not.
pub(crate) fn start(ways: &Ways, constant: bool, row: &Row, seconds: bool) -> Choice
    requires ways { AreWaysWithin ways.now }
    requires row { AreDebts row.now.costs }
    ensures { IsBestChoice (start_price ways.now constant) row.now.costs place_count result }
{
    if seconds {
        best_start::<true>(ways, constant, row)
    } else {
        best_start::<false>(ways, constant, row)
    }
}

// The best place to come to over a crossbar, where seconds count or not.
fn chosen(ways: &Ways, row: &Row, from: Place, seconds: bool) -> Choice
    requires ways { AreWaysWithin ways.now }
    requires row { AreDebts row.now.costs }
    ensures { IsBestChoice (step_price ways.now (number from)) row.now.costs place_count result }
{
    if seconds {
        best_choice::<true>(ways, row, from)
    } else {
        best_choice::<false>(ways, row, from)
    }
}

// Where the path goes on from a place to this layer of the block.
fn next_place(ways: &Ways, layer: u32, row: &Row, from: Place, seconds: bool) -> Place
    requires ways { AreWaysWithin ways.now }
    requires row { AreDebts row.now.costs }
    ensures across { layer % 2 ≡ 0 → result ≡ from }
    ensures crossbar { layer % 2 ≡ 1 →
        IsBestPlace (step_price ways.now (number from)) row.now.costs result }
{
    if layer % 2 == 0 {
        return from;
    }
    chosen(ways, row, from, seconds).place
}

/// Writes the path that begins at a place and goes on to a best place at each further layer; the
/// first layer is this one of the block.
pub(crate) fn follow(
    ways: &Ways,
    first: u32,
    rows: &[Row],
    start: Place,
    path: &mut [Place],
    seconds: bool,
)
    requires ways { AreWaysWithin ways.now }
    requires some { 0 < length rows.now }
    requires few { first + length rows.now ≤ 2 ^ 15 }
    requires rows { (k : ℕ) → k < length rows.now → AreDebts (costs_at rows.now k) }
    requires room { length rows.now ≤ length path.old }
    ensures { (t : Terrain) → IsGround (step_price ways.now) first (length rows.now) t →
        IsGoodStart t (costs_at rows.now 0) start →
        AreBest t (costs_at rows.now) 0 None (take (length rows.now) path.new) }
{
    path[0] = start;
    let mut from = start;
    for at in 1..rows.len() {
        from = next_place(ways, first + at as u32, &rows[at], from, seconds);
        path[at] = from;
    }
}
