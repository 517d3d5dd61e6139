// A family of least paths, one for each strand.

ghost use Rattle.std.specs.Prelude.{◌≡◌, ◌≢◌, ◌≤◌, ◌<◌, ℕ, [], length, slice_index_or, IfOk};
ghost use Rattle.net_cost.specs.Models.{Keeps, weights_of};
ghost use Rattle.net_form.specs.Admitted.{strand_at};
ghost use Rattle.net_form.specs.InUse.{StandsFor};
ghost use Rattle.net_form.specs.Rooms.{IsRoomOf, layer_total};
ghost use Rattle.net_laws.specs.Built.{IsBuilt};
ghost use Rattle.net_dual.specs.Priced.{AreInRange, edge_price};
ghost use Rattle.net_dual.specs.Paths.{IsLeast, Anywhere, any_ends, path_price, path_in};
ghost use Rattle.net_path.specs.Desk.{IsReservedFor, HasSizes, path_of};
ghost use Rattle.net_path.specs.Passing.{IsNote};

use crate::crossbar::Row;
use crate::search::search_spread;
use crate::spread::{Load, Sides, count, put_sides};
use crate::work::Work;
use net_cost::{CostModel, Event};
use net_form::{Net, Prices, Routes, Taken};
use pra_base::{OutOfMemory, Place};
use pra_packed::Packed;
use std::alloc::Global;

/// A family of which no path is in a register.
pub(crate) fn no_paths(alloc: Global, net: &Net) -> Result<Routes, OutOfMemory>
    ensures { IfOk result (HasSizes net.now) }
{
    let mut places = Packed::with_capacity(alloc, net.strands.len())?;
    for strand in net.strands.as_slice() {
        places.push_filled(Place::Const, strand.masks.len())?;
    }
    Ok(Routes { places })
}

/// The layers of the longest strand, which are the places of the longest path.
pub(crate) fn longest(_net: &Net, family: &Routes) -> usize
    requires { HasSizes _net.now family.now }
    ensures { (s : ℕ) → s < length _net.now.strands →
        length (strand_at _net.now s).masks ≤ result }
{
    let mut most = 0usize;
    for at in 0..family.places.len() {
        most = most.max(family.places.at(at).len());
    }
    most
}

// The same, with the parts of the room that belong to the strand: a row, a place and a count for
// each of its layers.
fn renew_over<F: Fn(Event, u32) -> u32>(
    net: &Net,
    model: &CostModel<F>,
    prices: &Prices,
    strand: usize,
    note: u16,
    free: &Taken,
    rows: &mut [Row],
    path: &mut [Place],
    loads: &mut [Load],
    sides: &mut [Sides],
    family: &mut Routes,
) -> i64
    requires kept { Keeps F.Fn model.now }
    requires net { IsBuilt net.now }
    requires prices { AreInRange net.now prices.now }
    requires strand { strand < length net.now.strands }
    requires note { IsNote net.now strand note }
    requires room { IsRoomOf net.now free.now }
    requires free { StandsFor net.now free.now [] }
    requires rows { length rows.old ≡ length (strand_at net.now strand).masks }
    requires path { length path.old ≡ length rows.old }
    requires loads { length loads.old ≡ length rows.old }
    requires family { HasSizes net.now family.old }
    ensures least { IsLeast net.now
        (edge_price net.now (weights_of model.now) prices.now) any_ends Anywhere strand
        (path_in family.new strand) }
    ensures cost { result ≡
        path_price net.now (edge_price net.now (weights_of model.now) prices.now) strand
        (path_in family.new strand) }
    ensures others { (s : ℕ) → s ≢ strand → path_in family.new s ≡ path_in family.old s }
    ensures sizes { HasSizes net.now family.new }
{
    count(loads, family.places.at(strand), false);
    match search_spread(
        net, model, prices, strand, note, free, sides, loads, rows, path,
    ) {
        Err(_) => 0,
        Ok(cost) => {
            count(loads, path, true);
            put_sides(sides, strand, path);
            family.places.overwrite(strand, path);
            cost
        }
    }
}

// The same, with the parts of the room.
fn renew_parts<F: Fn(Event, u32) -> u32>(
    net: &Net,
    model: &CostModel<F>,
    prices: &Prices,
    strand: usize,
    note: u16,
    free: &Taken,
    rows: &mut [Row],
    path: &mut [Place],
    loads: &mut [Load],
    sides: &mut [Sides],
    family: &mut Routes,
) -> i64
    requires kept { Keeps F.Fn model.now }
    requires net { IsBuilt net.now }
    requires prices { AreInRange net.now prices.now }
    requires strand { strand < length net.now.strands }
    requires note { IsNote net.now strand note }
    requires room { IsRoomOf net.now free.now }
    requires free { StandsFor net.now free.now [] }
    requires rows { length (strand_at net.now strand).masks ≤ length rows.old }
    requires path { length (strand_at net.now strand).masks ≤ length path.old }
    requires loads { length loads.old ≡ layer_total net.now.blocks }
    requires family { HasSizes net.now family.old }
    ensures least { IsLeast net.now
        (edge_price net.now (weights_of model.now) prices.now) any_ends Anywhere strand
        (path_in family.new strand) }
    ensures cost { result ≡
        path_price net.now (edge_price net.now (weights_of model.now) prices.now) strand
        (path_in family.new strand) }
    ensures others { (s : ℕ) → s ≢ strand → path_in family.new s ≡ path_in family.old s }
    ensures sizes { HasSizes net.now family.new }
{
    let layers = net.strands[strand].masks.len();
    let first = (net.entry_layer(strand) + net.strands[strand].first) as usize;
    let rows = &mut rows[..layers];
    let path = &mut path[..layers];
    let loads = &mut loads[first..first + layers];
    renew_over(
        net, model, prices, strand, note, free, rows, path, loads, sides, family,
    )
}

/// Finds a least path of a strand, wherever it begins and ends and whatever is in use, and puts it
/// into the family of the room. Its priced cost is answered, in units of 1/1024. Of its least paths
/// it takes one that the other paths of the family overload least. It takes no memory, and
/// `work.path()` stays what it was.
pub fn renew<F: Fn(Event, u32) -> u32>(
    work: &mut Work,
    net: &Net,
    model: &CostModel<F>,
    prices: &Prices,
    strand: u32,
) -> i64
    requires kept { Keeps F.Fn model.now }
    requires net { IsBuilt net.now }
    requires work { IsReservedFor net.now work.old }
    requires prices { AreInRange net.now prices.now }
    requires strand { strand < length net.now.strands }
    ensures least { IsLeast net.now
        (edge_price net.now (weights_of model.now) prices.now) any_ends Anywhere strand
        (path_in work.new.family strand) }
    ensures cost { result ≡
        path_price net.now (edge_price net.now (weights_of model.now) prices.now) strand
        (path_in work.new.family strand) }
    ensures others { (s : ℕ) → s ≢ strand →
        path_in work.new.family s ≡ path_in work.old.family s }
    ensures path { path_of work.new ≡ path_of work.old }
    ensures reserved { IsReservedFor net.now work.new }
{
    let note = work.notes[strand as usize];
    let (rows, path, loads) = (&mut work.rows, &mut work.renewed, &mut work.loads);
    let (free, family) = (&work.free, &mut work.family);
    renew_parts(
        net,
        model,
        prices,
        strand as usize,
        note,
        free,
        rows,
        path,
        loads,
        &mut work.sides,
        family,
    )
}
