// Crossbars: what is to be paid before one, from what is to be paid behind it.
//
// A way costs no more than a move into a register and one into memory, and that for all registers
// alike but the one where the value is. So there is no need to try each place with each: the least
// of the six registers and of the six both places, memory and the constant itself say what it costs
// to go on from a place to another register or out of registers, and beside that a value may stay
// in its register.

ghost use Rattle.std.specs.Prelude.{◌≡◌, ◌⊎◌, ◌≤ℤ◌, ◌+ℤ◌, ◌+◌, ◌^◌, ◌≤◌, ◌<◌, ℕ, ℤ, List};
ghost use Rattle.pra_base.specs.declared.ids.Place.TheVariants.{Mem, Const};
ghost use Rattle.pra_base.specs.Places.{number, register_count};
ghost use Rattle.net_path.specs.Ways.{at, IsLeastAmong, IsLeastOfFour, AreBests, AreBestsWithin};
ghost use Rattle.net_path.specs.Ways.{IsLeastWay, IsLeastElsewhere, AreStepsWithin, IsDebt};
ghost use Rattle.net_path.specs.Ways.{AreDebts, both_place, step_by, IsOnward, IsShort};
ghost use Rattle.net_path.specs.Rows.{IsCellWithin, AreCostsCells, IsRowWithin, IsPaid, IsPaidAt};
ghost use Rattle.net_path.specs.Rows.{ArePaidOver};

use crate::rows::{REACHED, UNREACHED};

/// What is to be paid from a place on: its priced cost, and a second sum that decides between equal
/// costs.
#[derive(Clone, Copy, Debug)]
pub(crate) struct Debt {
    pub cost: i64,
    pub second: i64,
}

/// What is to be paid from each place on, by the places' numbers. The last two lanes are of no
/// place.
#[derive(Clone, Copy, Debug)]
pub(crate) struct Row {
    pub costs: [i64; 16],
    pub seconds: [i64; 16],
}

/// What a move costs from a register to another, out of memory into a register, from a register
/// into memory, and of a constant into a register.
#[derive(Clone, Copy, Debug)]
pub(crate) struct Ways {
    pub between: i64,
    pub load: i64,
    pub store: i64,
    pub set: i64,
}

/// The least of the six registers alone and of the six both places, memory, and the constant
/// itself.
#[derive(Clone, Copy, Debug)]
pub(crate) struct Bests {
    pub alone: Debt,
    pub both: Debt,
    pub memory: Debt,
    pub constant: Debt,
}

/// What it costs to go to another register alone, to another both place, to memory, and to leave a
/// constant to itself.
#[derive(Clone, Copy, Debug)]
pub(crate) struct Onward {
    pub alone: i64,
    pub both: i64,
    pub memory: i64,
    pub constant: i64,
}

/// What the steps of a crossbar cost: to go on from a register alone, from a both place, from
/// memory and from the constant itself; and where a value stays in its register, to have it in
/// memory too, and to have it there no more.
#[derive(Clone, Copy, Debug)]
pub(crate) struct Steps {
    pub alone: Onward,
    pub both: Onward,
    pub memory: Onward,
    pub constant: Onward,
    pub kept: i64,
    pub left: i64,
}

// The lesser of two debts; of equal costs, where seconds count, that of the lesser second.
#[inline(always)]
fn lesser<const SECONDS: bool>(one: Debt, other: Debt) -> Debt
    ensures one { result.cost ≤ℤ one.cost }
    ensures other { result.cost ≤ℤ other.cost }
    ensures met { (result.cost ≡ one.cost) ⊎ (result.cost ≡ other.cost) }
{
    if other.cost < one.cost || (SECONDS && other.cost == one.cost && other.second < one.second) {
        other
    } else {
        one
    }
}

// The debt and a way before it.
#[inline(always)]
pub(crate) fn with_way(debt: Debt, way: i64) -> Debt
    requires debt { IsDebt debt.cost }
    requires way { IsShort way }
    ensures { result.cost ≡ way +ℤ debt.cost }
{
    Debt {
        cost: way + debt.cost,
        second: debt.second,
    }
}

/// What is to be paid from a place on; where seconds do not count, the second is 0.
#[inline(always)]
pub(crate) fn debt_at<const SECONDS: bool>(row: &Row, place: usize) -> Debt
    requires { place < 16 }
    ensures { result.cost ≡ at row.now.costs place }
{
    Debt {
        cost: row.costs[place],
        second: if SECONDS { row.seconds[place] } else { 0 },
    }
}

// The least of the six debts from a place on.
#[inline(always)]
fn least_of_six<const SECONDS: bool>(row: &Row, from: usize) -> Debt
    requires { from + register_count ≤ 16 }
    ensures { IsLeastAmong row.now.costs from register_count result.cost }
{
    let mut least = debt_at::<SECONDS>(row, from);
    for k in 1..6usize {
        least = lesser::<SECONDS>(least, debt_at::<SECONDS>(row, from + k));
    }
    least
}

#[inline(always)]
fn least_of_four<const SECONDS: bool>(first: Debt, second: Debt, third: Debt, fourth: Debt) -> Debt
    ensures { IsLeastOfFour first.cost second.cost third.cost fourth.cost result.cost }
{
    let one = lesser::<SECONDS>(first, second);
    let other = lesser::<SECONDS>(third, fourth);
    lesser::<SECONDS>(one, other)
}

#[inline(always)]
fn bests_of<const SECONDS: bool>(row: &Row) -> Bests
    requires { AreDebts row.now.costs }
    ensures are { AreBests row.now.costs result }
    ensures within { AreBestsWithin result }
{
    Bests {
        alone: least_of_six::<SECONDS>(row, 0),
        both: least_of_six::<SECONDS>(row, 8),
        memory: debt_at::<SECONDS>(row, 6),
        constant: debt_at::<SECONDS>(row, 7),
    }
}

// What it costs to go on to another register, or out of registers.
#[inline(always)]
fn going_on<const SECONDS: bool>(bests: &Bests, by: Onward) -> Debt
    requires bests { AreBestsWithin bests.now }
    requires by { IsOnward by }
    ensures { IsLeastOfFour (by.alone +ℤ bests.now.alone.cost) (by.both +ℤ bests.now.both.cost)
        (by.memory +ℤ bests.now.memory.cost) (by.constant +ℤ bests.now.constant.cost)
        result.cost }
{
    least_of_four::<SECONDS>(
        with_way(bests.alone, by.alone),
        with_way(bests.both, by.both),
        with_way(bests.memory, by.memory),
        with_way(bests.constant, by.constant),
    )
}

// From a register alone, not to that register.
#[inline(always)]
fn elsewhere_from_alone<const SECONDS: bool>(steps: &Steps, bests: &Bests) -> Debt
    requires steps { AreStepsWithin steps.now }
    requires bests { AreBestsWithin bests.now }
    ensures { (costs : List ℤ) (r : ℕ) → AreBests costs bests.now → r < register_count →
        IsLeastElsewhere (step_by steps.now r) r costs result.cost }
{
    going_on::<SECONDS>(bests, steps.alone)
}

// From a both place, not to its register.
#[inline(always)]
fn elsewhere_from_both<const SECONDS: bool>(steps: &Steps, bests: &Bests) -> Debt
    requires steps { AreStepsWithin steps.now }
    requires bests { AreBestsWithin bests.now }
    ensures { (costs : List ℤ) (r : ℕ) → AreBests costs bests.now → r < register_count →
        IsLeastElsewhere (step_by steps.now (both_place r)) r costs result.cost }
{
    going_on::<SECONDS>(bests, steps.both)
}

// From memory, to any place.
#[inline(always)]
fn debt_in_memory<const SECONDS: bool>(steps: &Steps, bests: &Bests) -> Debt
    requires steps { AreStepsWithin steps.now }
    requires bests { AreBestsWithin bests.now }
    ensures { (costs : List ℤ) → AreBests costs bests.now →
        IsLeastWay (step_by steps.now (number Mem)) costs result.cost }
{
    going_on::<SECONDS>(bests, steps.memory)
}

// From a constant that is nowhere, to any place.
#[inline(always)]
fn debt_nowhere<const SECONDS: bool>(steps: &Steps, bests: &Bests) -> Debt
    requires steps { AreStepsWithin steps.now }
    requires bests { AreBestsWithin bests.now }
    ensures { (costs : List ℤ) → AreBests costs bests.now →
        IsLeastWay (step_by steps.now (number Const)) costs result.cost }
{
    going_on::<SECONDS>(bests, steps.constant)
}

// From register r alone: it goes elsewhere, stays, or stays and is in memory too.
#[inline(always)]
fn debt_alone<const SECONDS: bool>(steps: &Steps, row: &Row, r: usize, elsewhere: Debt) -> Debt
    requires steps { AreStepsWithin steps.now }
    requires row { AreDebts row.now.costs }
    requires register { r < register_count }
    requires elsewhere { IsLeastElsewhere (step_by steps.now r) r row.now.costs elsewhere.cost }
    ensures { IsLeastWay (step_by steps.now r) row.now.costs result.cost }
{
    let stored = with_way(debt_at::<SECONDS>(row, 8 + r), steps.kept);
    lesser::<SECONDS>(
        elsewhere,
        lesser::<SECONDS>(debt_at::<SECONDS>(row, r), stored),
    )
}

// From the both place of register r: it goes elsewhere, or stays, in both or in the register alone.
#[inline(always)]
fn debt_in_both<const SECONDS: bool>(steps: &Steps, row: &Row, r: usize, elsewhere: Debt) -> Debt
    requires steps { AreStepsWithin steps.now }
    requires row { AreDebts row.now.costs }
    requires register { r < register_count }
    requires elsewhere { IsLeastElsewhere (step_by steps.now (both_place r)) r row.now.costs
        elsewhere.cost }
    ensures { IsLeastWay (step_by steps.now (both_place r)) row.now.costs result.cost }
{
    let left = with_way(debt_at::<SECONDS>(row, r), steps.left);
    lesser::<SECONDS>(
        elsewhere,
        lesser::<SECONDS>(debt_at::<SECONDS>(row, 8 + r), left),
    )
}

// What is paid at a place and from there on; a closed place stays so.
#[inline(always)]
fn paid(cell: i64, rest: i64) -> i64
    requires cell { IsCellWithin cell }
    requires rest { IsDebt rest }
    ensures { IsPaid cell rest result }
{
    if cell < REACHED {
        cell + rest
    } else {
        UNREACHED
    }
}

/// Pays at a place what is to be paid from there on.
#[inline(always)]
pub(crate) fn pay<const SECONDS: bool>(cells: &mut Row, place: usize, rest: Debt)
    requires place { place < 16 }
    requires cell { IsCellWithin (at cells.old.costs place) }
    requires rest { IsDebt rest.cost }
    ensures { IsPaidAt place rest.cost cells.old.costs cells.new.costs }
{
    cells.costs[place] = paid(cells.costs[place], rest.cost);
    if SECONDS {
        cells.seconds[place] = cells.seconds[place].saturating_add(rest.second);
    }
}

/// What is paid at each place before a crossbar and from there on, from what is to be paid behind
/// it. The steps are copied, so that what is written to a row can't change them, and none is read
/// again for each register.
pub(crate) fn pay_crossbar<const SECONDS: bool>(steps: &Steps, cells: &mut Row, behind: &Row)
    requires steps { AreStepsWithin steps.now }
    requires cells { AreCostsCells cells.old.costs }
    requires behind { IsRowWithin (2 ^ 60 + 2 ^ 59) behind.now.costs }
    ensures { ArePaidOver (step_by steps.now) behind.now.costs cells.old.costs cells.new.costs }
{
    let steps = *steps;
    let bests = bests_of::<SECONDS>(behind);
    let alone = elsewhere_from_alone::<SECONDS>(&steps, &bests);
    let both = elsewhere_from_both::<SECONDS>(&steps, &bests);
    for r in 0..6usize {
        pay::<SECONDS>(cells, r, debt_alone::<SECONDS>(&steps, behind, r, alone));
        pay::<SECONDS>(
            cells,
            8 + r,
            debt_in_both::<SECONDS>(&steps, behind, r, both),
        );
    }
    pay::<SECONDS>(cells, 6, debt_in_memory::<SECONDS>(&steps, &bests));
    pay::<SECONDS>(cells, 7, debt_nowhere::<SECONDS>(&steps, &bests));
}
