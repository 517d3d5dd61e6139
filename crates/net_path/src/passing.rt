// Strands that pass by in memory.
//
// Most strands of a large procedure have nothing to do in most of its blocks: they are no constant,
// no extra and no memory pair concerns them, and they may be in memory at each of their layers. The
// path that stays in memory then pays its ties alone. So it is a least path, whatever registers
// cost, where the ties ask no more of memory than of other places, and it is found without rows.

ghost use Rattle.std.specs.Prelude.{◌≡◌, ◌≤ℤ◌, ◌<◌, ◌+◌, length, All, IsTrue, IfSome, IfOk, true};
ghost use Rattle.std.specs.Prelude.{pos, slice_index};
ghost use Rattle.std.specs.Option.{MatchOption};
ghost use Rattle.pra_base.specs.declared.ids.Place.{Place as AnyPlace};
ghost use Rattle.pra_base.specs.declared.ids.Place.TheVariants.{Mem};
ghost use Rattle.pra_base.specs.Places.{number, allows};
ghost use Rattle.net_form.specs.Admitted.{strand_at};
ghost use Rattle.net_laws.specs.Built.{IsBuilt};
ghost use Rattle.net_dual.specs.Priced.{AreInRange};
ghost use Rattle.net_dual.specs.Paths.{any_ends};
ghost use Rattle.net_path.specs.Passing.{PassesBy, IsNote, AreNotes, AsksLeast, AsksLeastInAll};
ghost use Rattle.net_path.specs.Passing.{IsLeastAnyhow, exit_pay, entry_pay};
ghost use Rattle.net_path.specs.Ways.{at};

use crate::crossbar::Row;
use crate::spread::{Sides, is_quiet};
use crate::ties::{are_entries_free, are_exits_free, pay_entries, pay_exits};
use net_form::{Ends, Net, Prices};
use pra_base::places::allows;
use pra_base::{Mask, OutOfMemory, Place};
use std::alloc::Global;

// Whether memory is in each of the masks.
fn may_stay(masks: &[Mask]) -> bool
    ensures { result ≡ true → All (λ m. IsTrue (allows m (number Mem))) masks.now }
{
    for at in 0..masks.len() {
        if !allows(masks[at], Place::Mem) {
            return false;
        }
    }
    true
}

// Whether a list goes on with the number that stands here.
fn goes_on_alike(list: &[u32], at: usize) -> bool
    ensures { result ≡ true → slice_index list.now (at + 1) ≡ slice_index list.now at }
{
    at < list.len() && at + 1 < list.len() && list[at + 1] == list[at]
}

// Whether a strand pays nothing in memory but what its ties ask.
fn passes_by(net: &Net, strand: usize) -> bool
    requires strand { strand < length net.now.strands }
    ensures { result ≡ true → PassesBy net.now strand }
{
    if net.strands[strand].constant {
        return false;
    }
    if !goes_on_alike(net.index.extras.as_slice(), strand) {
        return false;
    }
    if !goes_on_alike(net.index.pairs.as_slice(), strand) {
        return false;
    }
    may_stay(net.strands[strand].masks.as_slice())
}

// The layers of a strand that passes by, if they are few enough for a note, and 0 of any other.
fn note_of(net: &Net, strand: usize) -> u16
    requires strand { strand < length net.now.strands }
    ensures { IsNote net.now strand result }
{
    let layers = net.strands[strand].masks.len();
    if layers < 1 << 16 && passes_by(net, strand) {
        layers as u16
    } else {
        0
    }
}

/// A note of each strand: its layers, if it passes by as far as that depends on the network alone,
/// or else 0.
pub(crate) fn notes_of(alloc: Global, net: &Net) -> Result<Vec<u16>, OutOfMemory>
    ensures { IfOk result (λ notes. AreNotes net.now notes.items) }
{
    let mut notes = Vec::with_capacity(alloc, net.strands.len())?;
    for strand in 0..net.strands.len() {
        notes.push(note_of(net, strand))?;
    }
    Ok(notes)
}

/// How many layers a strand has, of which there is this note.
pub(crate) fn layers_by(net: &Net, strand: usize, note: u16) -> usize
    requires strand { strand < length net.now.strands }
    requires note { IsNote net.now strand note }
    ensures { result ≡ length (strand_at net.now strand).masks }
{
    if note > 0 {
        note as usize
    } else {
        net.strands[strand].masks.len()
    }
}

// Whether a row has nothing less than what it has for memory.
fn is_least_in_memory(row: &Row) -> bool
    ensures { result ≡ true → (q : AnyPlace) →
        at row.now.costs (number Mem) ≤ℤ at row.now.costs (number q) }
{
    for p in 0..14usize {
        if row.costs[p] < row.costs[6] {
            return false;
        }
    }
    true
}

// What an end pays in memory by this row, where it is wanted there or pays no more than elsewhere.
fn asked(row: &Row, end: Option<Place>) -> Option<i64>
    ensures { IfSome result (AsksLeast end (λ q. at row.now.costs (number q))) }
{
    match end {
        None => {
            if is_least_in_memory(row) {
                Some(row.costs[6])
            } else {
                None
            }
        }
        Some(Place::Mem) => Some(row.costs[6]),
        Some(_) => None,
    }
}

// What an end pays in memory where it pays nothing anywhere, if it may be there.
fn asked_nothing(end: Option<Place>) -> Option<i64>
    ensures { IfSome result (AsksLeast end (λ q. pos 0)) }
{
    match end {
        None | Some(Place::Mem) => Some(0),
        Some(_) => None,
    }
}

fn unpaid_row() -> Row
    ensures { (q : AnyPlace) → at result.costs (number q) ≡ pos 0 }
{
    Row {
        costs: [0; 16],
        seconds: [0; 16],
    }
}

// What the ties that go from a strand ask of it in memory. Their numbers are mostly 0.
fn asked_at_exit(net: &Net, prices: &Prices, strand: usize, end: Option<Place>) -> Option<i64>
    requires net { IsBuilt net.now }
    requires prices { AreInRange net.now prices.now }
    requires strand { strand < length net.now.strands }
    ensures { IfSome result (AsksLeast end (exit_pay net.now prices.now strand)) }
{
    if are_exits_free(net, prices, strand) {
        return asked_nothing(end);
    }
    let mut row = unpaid_row();
    pay_exits(net, prices, strand, &mut row);
    asked(&row, end)
}

// What the ties that go to a strand ask of it in memory.
fn asked_at_entry(net: &Net, prices: &Prices, strand: usize, end: Option<Place>) -> Option<i64>
    requires net { IsBuilt net.now }
    requires prices { AreInRange net.now prices.now }
    requires strand { strand < length net.now.strands }
    ensures { IfSome result (AsksLeast end (entry_pay net.now prices.now strand)) }
{
    if are_entries_free(net, prices, strand) {
        return asked_nothing(end);
    }
    let mut row = unpaid_row();
    pay_entries(net, prices, strand, &mut row);
    asked(&row, end)
}

// What all ties of a strand ask of it in memory. Each number is within 2^40 and ties are few, so the
// sum is there.
fn asked_in_all(net: &Net, prices: &Prices, strand: usize, ends: Ends) -> Option<i64>
    requires net { IsBuilt net.now }
    requires prices { AreInRange net.now prices.now }
    requires strand { strand < length net.now.strands }
    ensures { IfSome result (AsksLeastInAll net.now prices.now ends strand) }
{
    let exit = asked_at_exit(net, prices, strand, ends.last)?;
    let entry = asked_at_entry(net, prices, strand, ends.first)?;
    exit.checked_add(entry)
}

fn stay_in_memory(path: &mut [Place])
    ensures long { length path.new ≡ length path.old }
    ensures memory { All (λ p. p ≡ Mem) path.new }
{
    for at in 0..path.len() {
        path[at] = Place::Mem;
    }
}

// Whether an end may be in memory.
fn suits_memory(end: Option<Place>) -> bool {
    match end {
        None | Some(Place::Mem) => true,
        Some(_) => false,
    }
}

// Whether a strand of this note passes by, and no end of its path is wanted elsewhere.
fn may_pass(note: u16, ends: Ends) -> bool
    ensures { result ≡ true → 0 < note }
{
    note > 0 && suits_memory(ends.first) && suits_memory(ends.last)
}

/// Writes the path that stays in memory and answers what it costs, where the strand passes by and
/// its ends ask no more of memory than of other places.
pub(crate) fn pass_by(
    net: &Net,
    prices: &Prices,
    strand: usize,
    note: u16,
    ends: Ends,
    path: &mut [Place],
) -> Option<i64>
    requires net { IsBuilt net.now }
    requires prices { AreInRange net.now prices.now }
    requires strand { strand < length net.now.strands }
    requires note { IsNote net.now strand note }
    requires path { (strand_at net.now strand).first + length path.old ≡
        (strand_at net.now strand).last + 1 }
    ensures long { length path.new ≡ length path.old }
    ensures least { MatchOption result (path.new ≡ path.old)
        (IsLeastAnyhow net.now prices.now ends strand path.new) }
{
    if !may_pass(note, ends) {
        return None;
    }
    match asked_in_all(net, prices, strand, ends) {
        None => None,
        Some(cost) => {
            stay_in_memory(path);
            Some(cost)
        }
    }
}

/// The same, wherever the path begins and ends, and only where seconds would choose no other path.
pub(crate) fn pass_by_apart(
    net: &Net,
    prices: &Prices,
    sides: &[Sides],
    strand: usize,
    note: u16,
    path: &mut [Place],
) -> Option<i64>
    requires net { IsBuilt net.now }
    requires prices { AreInRange net.now prices.now }
    requires strand { strand < length net.now.strands }
    requires note { IsNote net.now strand note }
    requires path { (strand_at net.now strand).first + length path.old ≡
        (strand_at net.now strand).last + 1 }
    ensures long { length path.new ≡ length path.old }
    ensures least { MatchOption result (path.new ≡ path.old)
        (IsLeastAnyhow net.now prices.now any_ends strand path.new) }
{
    let ends = Ends {
        first: None,
        last: None,
    };
    if note == 0 || !is_quiet(net, prices, sides, strand) {
        return None;
    }
    pass_by(net, prices, strand, note, ends, path)
}
