// Which right ends of memory pairs give way to the left ones.

ghost use Rattle.std.specs.Prelude.{◌≡◌, ◌<◌, ◌≤◌, ◌+◌, ◌&&◌, ◌||◌, ℕ, [], true, false, length};
ghost use Rattle.std.specs.Prelude.{take, slice_set, slice_index, slice_index_or, IfOk, OnOk};
ghost use Rattle.std.specs.List.{list_all};
ghost use Rattle.pra_base.specs.Places.{number, allows};
ghost use Rattle.net_form.specs.Admitted.{strand_at};
ghost use Rattle.net_form.specs.Formed.{IsFormed};
ghost use Rattle.net_form.specs.Strands.{across};
ghost use Rattle.net_laws.specs.Homes.{HasRoom, IsFreePair, is_there, passes, left_stays, is_right};
ghost use Rattle.net_laws.specs.Homes.{yields_at, yields, needs_register};
ghost use Rattle.al_edge.specs.Yielding.{full_row, row_of, IsTable};

use crate::side::{across, has_home, passes};
use net_form::{MemPair, Net};
use pra_base::places::allows;
use pra_base::{Mask, OutOfMemory, Place};
use pra_list::Seq;
use std::alloc::Global;

// Whether the left end of a pair is in memory.
fn left_stays(net: &Net, pair: MemPair) -> bool
    requires net { IsFormed net.now }
    requires pair { IsFreePair net.now pair }
    ensures { result ≡ left_stays net.now pair }
{
    let strand = &net.strands[pair.left as usize];
    !strand.constant && has_home(strand, pair.left_layer)
}

// Makes a row that is empty: so many entries, and none is true.
fn make_row(alloc: Global, row: &mut Seq<bool>, count: usize) -> Result<(), OutOfMemory>
    ensures { OnOk result (row.new ≡ full_row count row.old) }
{
    if !row.is_empty() {
        return Ok(());
    }
    *row = Seq::from_vec(vec![in alloc; false; count]?);
    Ok(())
}

// One entry of a row is true.
fn set_in(alloc: Global, row: &mut Seq<bool>, count: usize, at: usize) -> Result<(), OutOfMemory>
    requires at { at < length (full_row count row.old) }
    ensures { OnOk result (row.new ≡ slice_set (full_row count row.old) at true) }
{
    make_row(alloc, row, count)?;
    row.set(at, true);
    Ok(())
}

// One entry of a table is true, in a row of so many.
fn set_true(
    alloc: Global,
    table: &mut Vec<Seq<bool>>,
    row: usize,
    count: usize,
    at: usize,
) -> Result<(), OutOfMemory>
    requires row { row < length table.old.items }
    requires at { at < length (full_row count (row_of table.old.items row)) }
    ensures { OnOk result (table.new.items ≡ slice_set table.old.items row
        (slice_set (full_row count (row_of table.old.items row)) at true)) }
{
    set_in(alloc, &mut table[row], count, at)
}

// A row for each strand. All are empty, so that only the table itself takes memory.
fn nobody(alloc: Global, net: &Net) -> Result<Vec<Seq<bool>>, OutOfMemory>
    ensures { IfOk result (λ table. IsTable net.now 0 table.items) }
{
    let mut table = Vec::with_capacity(alloc, net.strands.len())?;
    for _row in 0..net.strands.len() {
        table.push(Seq::new(alloc))?;
    }
    Ok(table)
}

// The table with pair k.
fn add_pair(
    alloc: Global,
    net: &Net,
    table: &mut Vec<Seq<bool>>,
    k: usize,
) -> Result<(), OutOfMemory>
    requires net { IsFormed net.now }
    requires room { HasRoom net.now }
    requires pair { k < length net.now.pairs }
    requires table { IsTable net.now k table.old.items }
    ensures { OnOk result (IsTable net.now (k + 1) table.new.items) }
{
    let pair = net.pairs[k];
    if !left_stays(net, pair) {
        return Ok(());
    }
    let right = &net.strands[pair.right as usize];
    set_true(
        alloc,
        table,
        pair.right as usize,
        right.masks.len(),
        (pair.right_layer - right.first) as usize,
    )?;
    Ok(())
}

// For each layer of each strand whether it gives way there. A strand that does so nowhere has an
// empty row.
pub(crate) fn yielding(alloc: Global, net: &Net) -> Result<Vec<Seq<bool>>, OutOfMemory>
    requires net { IsFormed net.now }
    requires room { HasRoom net.now }
    ensures { IfOk result (λ table. IsTable net.now (length net.now.pairs) table.items) }
{
    let mut table = nobody(alloc, net)?;
    for k in 0..net.pairs.len() {
        add_pair(alloc, net, &mut table, k)?;
    }
    Ok(table)
}

// An entry of a row. Past its end none is true.
fn entry(row: &Seq<bool>, at: usize) -> bool
    ensures { result ≡ slice_index_or row.now at false }
{
    if at < row.len() { row[at] } else { false }
}

// Whether a strand gives way at a layer, by the table.
fn yields_at(net: &Net, table: &[Seq<bool>], strand: usize, layer: u32) -> bool
    requires net { IsFormed net.now }
    requires table { IsTable net.now (length net.now.pairs) table.now }
    requires strand { strand < length net.now.strands }
    requires there { is_there (strand_at net.now strand) layer ≡ true }
    ensures { result ≡ yields_at net.now strand layer }
{
    let first = net.strands[strand].first;
    entry(&table[strand], (layer - first) as usize)
}

fn yields(net: &Net, table: &[Seq<bool>], strand: usize, layer: u32) -> bool
    requires net { IsFormed net.now }
    requires table { IsTable net.now (length net.now.pairs) table.now }
    requires strand { strand < length net.now.strands }
    requires there { is_there (strand_at net.now strand) layer ≡ true }
    ensures { result ≡ yields net.now strand layer }
{
    if yields_at(net, table, strand, layer) {
        return true;
    }
    passes(&net.strands[strand], layer) && yields_at(net, table, strand, across(layer))
}

// Whether a strand can't be at home at a layer.
pub(crate) fn needs_register(net: &Net, table: &[Seq<bool>], strand: usize, layer: u32) -> bool
    requires net { IsFormed net.now }
    requires table { IsTable net.now (length net.now.pairs) table.now }
    requires strand { strand < length net.now.strands }
    requires there { is_there (strand_at net.now strand) layer ≡ true }
    ensures { result ≡ needs_register net.now strand layer }
{
    let t = &net.strands[strand];
    if !has_home(t, layer) {
        return true;
    }
    !t.constant && yields(net, table, strand, layer)
}

// Whether a place is in each of the masks.
fn in_all(masks: &[Mask], place: Place) -> bool
    ensures { result ≡ list_all (λ mask. allows mask (number place)) masks.now }
{
    masks.iter().all(|mask| allows(*mask, place))
}

// Whether a strand is known to be at home at all its layers, as most are: its home is in all its
// masks, and as a value it has an empty row of the table.
pub(crate) fn stays_home(net: &Net, table: &[Seq<bool>], strand: usize) -> bool
    requires net { IsFormed net.now }
    requires table { IsTable net.now (length net.now.pairs) table.now }
    requires strand { strand < length net.now.strands }
    ensures { result ≡ true → (l : ℕ) → is_there (strand_at net.now strand) l ≡ true →
        needs_register net.now strand l ≡ false }
{
    let t = &net.strands[strand];
    if t.constant {
        return in_all(t.masks.as_slice(), Place::Const);
    }
    if !table[strand].is_empty() {
        return false;
    }
    in_all(t.masks.as_slice(), Place::Mem)
}
