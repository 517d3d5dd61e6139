// The numbers of ties after a step.

ghost use Rattle.std.specs.Prelude.{◌≡◌, ◌≤◌, ◌<◌, ◌+◌, ◌*◌, ℕ, pos, ◌-ℤ◌, ◌≤ℤ◌, All, length};
ghost use Rattle.std.specs.Prelude.{if◌then◌else◌, slice_index_or, slice_set, count_by};
ghost use Rattle.pra_base.specs.declared.ids.Place.{Place as AnyPlace};
ghost use Rattle.net_form.specs.Admitted.{strand_at, tie_at, exits_at, enters_at};
ghost use Rattle.net_form.specs.Flow.{arrives, flow, same_place, AreRoutes};
ghost use Rattle.net_laws.specs.Built.{IsBuilt};
ghost use Rattle.net_dual.specs.Priced.{most_price};
ghost use Rattle.net_dual.specs.Step.{clamp, tied_price};
ghost use Rattle.net_price.specs.Tied.{slot_place, moved_number, next_number};

use net_form::{Net, Routes, TieNumbers};
use pra_base::Place;

// The place of a number, of those that ties have numbers for.
fn tied_place(number: usize) -> Place
    requires { number < 13 }
    ensures { result ≡ slot_place number }
{
    match number {
        0 => Place::Eax,
        1 => Place::Ecx,
        2 => Place::Edx,
        3 => Place::Ebx,
        4 => Place::Esi,
        5 => Place::Edi,
        6 => Place::Mem,
        7 => Place::EaxM,
        8 => Place::EcxM,
        9 => Place::EdxM,
        10 => Place::EbxM,
        11 => Place::EsiM,
        _ => Place::EdiM,
    }
}

// Where the path of a strand is at one of its layers.
fn place_at(net: &Net, family: &Routes, strand: usize, layer: u32) -> Place
    requires family { AreRoutes net.now family.now }
    requires strand { strand < length net.now.strands }
    requires first { (strand_at net.now strand).first ≤ layer }
    requires last { layer ≤ (strand_at net.now strand).last }
    ensures { (place : AnyPlace) → (if same_place result place then 1 else 0) ≡
        count_by (arrives strand layer place) (flow net.now family.now) }
{
    let at = layer - net.strands[strand].first;
    family.places.at(strand)[at as usize]
}

// Where the family is when it leaves by a tie.
fn place_left(net: &Net, family: &Routes, tie: usize) -> Place
    requires net { IsBuilt net.now }
    requires family { AreRoutes net.now family.now }
    requires tie { tie < length net.now.ties }
    ensures { (place : AnyPlace) → (if same_place result place then 1 else 0) ≡
        count_by (exits_at net.now (tie_at net.now tie) place) (flow net.now family.now) }
{
    let from = net.ties[tie].from as usize;
    let last = net.strands[from].last;
    place_at(net, family, from, last)
}

// Where the family is when it enters by a tie.
fn place_entered(net: &Net, family: &Routes, tie: usize) -> Place
    requires net { IsBuilt net.now }
    requires family { AreRoutes net.now family.now }
    requires tie { tie < length net.now.ties }
    ensures { (place : AnyPlace) → (if same_place result place then 1 else 0) ≡
        count_by (enters_at net.now (tie_at net.now tie) place) (flow net.now family.now) }
{
    let to = net.ties[tie].to as usize;
    let first = net.strands[to].first;
    place_at(net, family, to, first)
}

// Within the least and the greatest number of a tie.
fn clamp(number: i64) -> i64
    ensures { result ≡ clamp number }
{
    if number > 1 << 40 {
        return 1 << 40;
    }
    if number < -(1 << 40) {
        return -(1 << 40);
    }
    number
}

fn step_if(test: bool, s: u64) -> i64
    requires { s ≤ 4096 }
    ensures value { result ≡ (if test then pos s else pos 0) }
    ensures low { pos 0 ≤ℤ result }
    ensures high { result ≤ℤ pos 4096 }
{
    if test { s as i64 } else { 0 }
}

// What a number becomes where the family leaves at its place, or enters there.
fn tied(old: i64, s: u64, leaves: bool, enters: bool) -> i64
    requires least { (pos 0 -ℤ pos most_price) ≤ℤ old }
    requires most { old ≤ℤ pos most_price }
    requires step { s ≤ 4096 }
    ensures { result ≡ tied_price s old (if leaves then 1 else 0) (if enters then 1 else 0) }
{
    clamp(old + step_if(leaves, s) - step_if(enters, s))
}

fn is_same(place: Place, other: Place) -> bool
    ensures { result ≡ same_place place other }
{
    place.number() == other.number()
}

// One of the numbers of a tie where the family leaves at one place and enters at another one.
// Nothing is written where it stays what it is.
fn step_number(ties: &mut TieNumbers, s: u64, tie: usize, slot: usize, left: Place, entered: Place)
    requires tie { 13 * tie + 13 ≤ length ties.old }
    requires slot { slot < 13 }
    requires step { s ≤ 4096 }
    requires least { (pos 0 -ℤ pos most_price) ≤ℤ
        slice_index_or ties.old (13 * tie + slot) (pos 0) }
    requires most { slice_index_or ties.old (13 * tie + slot) (pos 0) ≤ℤ pos most_price }
    ensures { ties.new ≡ slice_set ties.old (13 * tie + slot)
        (moved_number s left entered slot (slice_index_or ties.old (13 * tie + slot) (pos 0))) }
{
    let place = tied_place(slot);
    let leaves = is_same(left, place);
    let enters = is_same(entered, place);
    if leaves == enters {
        return;
    }
    let old = ties.number(tie, slot);
    ties.set(tie, slot, tied(old, s, leaves, enters));
}

// The numbers of a tie after a step.
fn step_tie(ties: &mut TieNumbers, net: &Net, family: &Routes, s: u64, tie: usize)
    requires net { IsBuilt net.now }
    requires family { AreRoutes net.now family.now }
    requires step { s ≤ 4096 }
    requires tie { tie < length net.now.ties }
    requires ties { length ties.old ≡ 13 * length net.now.ties }
    requires least { (k : ℕ) → 13 * tie ≤ k →
        (pos 0 -ℤ pos most_price) ≤ℤ slice_index_or ties.old k (pos 0) }
    requires most { (k : ℕ) → 13 * tie ≤ k →
        slice_index_or ties.old k (pos 0) ≤ℤ pos most_price }
    ensures long { length ties.new ≡ length ties.old }
    ensures before { (k : ℕ) → k < 13 * tie →
        slice_index_or ties.new k (pos 0) ≡ slice_index_or ties.old k (pos 0) }
    ensures next { (slot : ℕ) → slot < 13 →
        slice_index_or ties.new (13 * tie + slot) (pos 0) ≡
        next_number net.now (flow net.now family.now) s (13 * tie + slot)
        (slice_index_or ties.old (13 * tie + slot) (pos 0)) }
    ensures behind { (k : ℕ) → 13 * tie + 13 ≤ k →
        slice_index_or ties.new k (pos 0) ≡ slice_index_or ties.old k (pos 0) }
{
    let left = place_left(net, family, tie);
    let entered = place_entered(net, family, tie);
    if is_same(left, entered) {
        return;
    }
    for slot in 0..13usize {
        step_number(ties, s, tie, slot, left, entered);
    }
}

/// Each number of a tie is a step up where the family leaves at its place, and a step down where
/// the family enters there.
pub(crate) fn step_ties(ties: &mut TieNumbers, net: &Net, family: &Routes, s: u64)
    requires net { IsBuilt net.now }
    requires family { AreRoutes net.now family.now }
    requires step { s ≤ 4096 }
    requires ties { length ties.old ≡ 13 * length net.now.ties }
    requires least { All (λ z. (pos 0 -ℤ pos most_price) ≤ℤ z) ties.old }
    requires most { All (λ z. z ≤ℤ pos most_price) ties.old }
    ensures long { length ties.new ≡ length ties.old }
    ensures next { (k : ℕ) → k < length ties.old → slice_index_or ties.new k (pos 0) ≡
        next_number net.now (flow net.now family.now) s k (slice_index_or ties.old k (pos 0)) }
{
    for tie in 0..net.ties.len() {
        step_tie(ties, net, family, s, tie);
    }
}
