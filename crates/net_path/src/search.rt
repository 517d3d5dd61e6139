// The least priced path of a strand.

ghost use Rattle.std.specs.Prelude.{◌≡◌, ◌≤◌, ◌<◌, ◌+◌, length, take, List, OnOk, OnErr, IfOk};
ghost use Rattle.pra_base.specs.declared.ids.Place.{Place as AnyPlace};
ghost use Rattle.net_cost.specs.Models.{Keeps, weights_of};
ghost use Rattle.net_cost.specs.Weights.{deepest, number as event_number};
ghost use Rattle.net_form.specs.Admitted.{strand_at};
ghost use Rattle.net_form.specs.InUse.{UsesNothing};
ghost use Rattle.net_form.specs.Rooms.{IsRoomOf};
ghost use Rattle.net_laws.specs.Built.{IsBuilt};
ghost use Rattle.net_dual.specs.Priced.{AreInRange, edge_price};
ghost use Rattle.net_dual.specs.Paths.{IsLeast, MayGo, any_ends, path_price};
ghost use Rattle.net_path.specs.Grounds.{terrain, is_free};
ghost use Rattle.net_path.specs.Rows.{AreCells, AreCellsWithin};
ghost use Rattle.net_path.specs.Desk.{path_of, IsReservedFor};
ghost use Rattle.net_path.specs.Passing.{IsNote};
ghost use Rattle.net_path.specs.Ways.{AreWays, AreWaysWithin, IsWay, event_price};

use crate::cells::fill_cells;
use crate::crossbar::{Row, Ways};
use crate::directions::forwards;
use crate::passing::{layers_by, pass_by, pass_by_apart};
use crate::path::{follow, start};
use crate::rows::{REACHED, pay_backward};
use crate::spread::{Load, Sides, spread};
use crate::work::Work;
use net_cost::{CostModel, Event};
use net_form::{Ends, Net, Prices, Taken};
use pra_base::Place;

/// There is no path.
#[derive(Clone, Copy, Debug, PartialEq, Eq)]
pub struct NoPath;

/// What an event costs, in units of 1/1024.
pub(crate) fn price_of<F: Fn(Event, u32) -> u32>(
    model: &CostModel<F>,
    event: Event,
    depth: u32,
) -> i64
    requires kept { Keeps F.Fn model.now }
    requires depth { depth ≤ deepest }
    ensures value { result ≡ event_price (weights_of model.now) depth (event_number event) }
    ensures within { IsWay result }
{
    1024 * model.ask(event, depth) as i64
}

/// The ways of a strand's crossbars, by what the model answers for its four events.
pub(crate) fn ways_of<F: Fn(Event, u32) -> u32>(
    model: &CostModel<F>,
    near: bool,
    depth: u32,
) -> Ways
    requires kept { Keeps F.Fn model.now }
    requires depth { depth ≤ deepest }
    ensures are { AreWays (weights_of model.now) depth near result }
    ensures within { AreWaysWithin result }
{
    let load = if near { Event::E1 } else { Event::E3 };
    let store = if near { Event::E2 } else { Event::E4 };
    Ways {
        between: price_of(model, Event::E0, depth),
        load: price_of(model, load, depth),
        store: price_of(model, store, depth),
        set: price_of(model, Event::E5, depth),
    }
}

// Finds a least path over rows of what is paid at each place, with a place for each layer of the
// strand to write to. Where seconds count, they decide between paths of one cost.
fn find<F: Fn(Event, u32) -> u32>(
    net: &Net,
    model: &CostModel<F>,
    _prices: &Prices,
    strand: usize,
    _ends: Ends,
    _taken: &Taken,
    rows: &mut [Row],
    path: &mut [Place],
    seconds: bool,
) -> Result<i64, NoPath>
    requires kept { Keeps F.Fn model.now }
    requires net { IsBuilt net.now }
    requires prices { AreInRange net.now _prices.now }
    requires strand { strand < length net.now.strands }
    requires rows { (strand_at net.now strand).first + length rows.old ≡
        (strand_at net.now strand).last + 1 }
    requires cells { AreCells (terrain net.now (weights_of model.now) _prices.now _ends
        (is_free net.now _taken.now) strand) rows.old }
    requires within { AreCellsWithin rows.old }
    requires path { length path.old ≡ length rows.old }
    ensures found { OnOk result (IsLeast net.now
        (edge_price net.now (weights_of model.now) _prices.now) _ends
        (UsesNothing net.now _taken.now) strand path.new) }
    ensures cost { IfOk result (λ z. z ≡
        path_price net.now (edge_price net.now (weights_of model.now) _prices.now) strand
        path.new) }
    ensures kept { OnErr result (path.new ≡ path.old) }
    ensures none { OnErr result ((ps : List AnyPlace) →
        MayGo net.now _ends (UsesNothing net.now _taken.now) strand ps → ⊥) }
{
    let first = net.strands[strand].first;
    let ways = ways_of(model, net.near, net.depth(strand));
    pay_backward(&forwards(&ways), first, rows, seconds);
    let start = start(&ways, net.strands[strand].constant, &rows[0], seconds);
    if start.debt.cost >= REACHED {
        return Err(NoPath);
    }
    follow(&ways, first, rows, start.place, path, seconds);
    Ok(start.debt.cost)
}

/// Finds a least path, with a row for each layer of the strand to work in and a place for each to
/// write to.
pub(crate) fn search<F: Fn(Event, u32) -> u32>(
    net: &Net,
    model: &CostModel<F>,
    prices: &Prices,
    strand: usize,
    note: u16,
    ends: Ends,
    taken: &Taken,
    rows: &mut [Row],
    path: &mut [Place],
) -> Result<i64, NoPath>
    requires kept { Keeps F.Fn model.now }
    requires net { IsBuilt net.now }
    requires prices { AreInRange net.now prices.now }
    requires taken { IsRoomOf net.now taken.now }
    requires strand { strand < length net.now.strands }
    requires note { IsNote net.now strand note }
    requires rows { (strand_at net.now strand).first + length rows.old ≡
        (strand_at net.now strand).last + 1 }
    requires path { length path.old ≡ length rows.old }
    ensures found { OnOk result (IsLeast net.now
        (edge_price net.now (weights_of model.now) prices.now) ends
        (UsesNothing net.now taken.now) strand path.new) }
    ensures cost { IfOk result (λ z. z ≡
        path_price net.now (edge_price net.now (weights_of model.now) prices.now) strand
        path.new) }
    ensures kept { OnErr result (path.new ≡ path.old) }
    ensures none { OnErr result ((ps : List AnyPlace) →
        MayGo net.now ends (UsesNothing net.now taken.now) strand ps → ⊥) }
{
    if let Some(cost) = pass_by(net, prices, strand, note, ends, path) {
        return Ok(cost);
    }
    fill_cells(net, model, prices, ends, taken, strand, rows);
    find(net, model, prices, strand, ends, taken, rows, path, false)
}

/// Finds a least path, wherever it begins and ends, that leaves other paths of the family alone,
/// with a row, a place and a count for each layer of the strand.
#[tactic(auto, using(crate::proofs::Seconds::cells_still, crate::proofs::Seconds::within_still))]
pub(crate) fn search_spread<F: Fn(Event, u32) -> u32>(
    net: &Net,
    model: &CostModel<F>,
    prices: &Prices,
    strand: usize,
    note: u16,
    taken: &Taken,
    sides: &[Sides],
    loads: &[Load],
    rows: &mut [Row],
    path: &mut [Place],
) -> Result<i64, NoPath>
    requires kept { Keeps F.Fn model.now }
    requires net { IsBuilt net.now }
    requires prices { AreInRange net.now prices.now }
    requires taken { IsRoomOf net.now taken.now }
    requires strand { strand < length net.now.strands }
    requires note { IsNote net.now strand note }
    requires loads { length loads.now ≡ length rows.old }
    requires rows { (strand_at net.now strand).first + length rows.old ≡
        (strand_at net.now strand).last + 1 }
    requires path { length path.old ≡ length rows.old }
    ensures found { OnOk result (IsLeast net.now
        (edge_price net.now (weights_of model.now) prices.now) any_ends
        (UsesNothing net.now taken.now) strand path.new) }
    ensures cost { IfOk result (λ z. z ≡
        path_price net.now (edge_price net.now (weights_of model.now) prices.now) strand
        path.new) }
    ensures none { OnErr result ((ps : List AnyPlace) →
        MayGo net.now any_ends (UsesNothing net.now taken.now) strand ps → ⊥) }
{
    if let Some(cost) = pass_by_apart(net, prices, sides, strand, note, path) {
        return Ok(cost);
    }
    let ends = Ends {
        first: None,
        last: None,
    };
    fill_cells(net, model, prices, ends, taken, strand, rows);
    spread(net, prices, sides, strand, loads, rows);
    find(net, model, prices, strand, ends, taken, rows, path, true)
}

// The same, with rows and a path for as many layers at least.
pub(crate) fn search_front<F: Fn(Event, u32) -> u32>(
    net: &Net,
    model: &CostModel<F>,
    prices: &Prices,
    strand: usize,
    note: u16,
    ends: Ends,
    taken: &Taken,
    layers: usize,
    rows: &mut [Row],
    path: &mut [Place],
) -> Result<i64, NoPath>
    requires kept { Keeps F.Fn model.now }
    requires net { IsBuilt net.now }
    requires prices { AreInRange net.now prices.now }
    requires taken { IsRoomOf net.now taken.now }
    requires strand { strand < length net.now.strands }
    requires note { IsNote net.now strand note }
    requires layers { layers ≡ length (strand_at net.now strand).masks }
    requires rows { layers ≤ length rows.old }
    requires path { layers ≤ length path.old }
    ensures found { OnOk result (IsLeast net.now
        (edge_price net.now (weights_of model.now) prices.now) ends
        (UsesNothing net.now taken.now) strand (take layers path.new)) }
    ensures cost { IfOk result (λ z. z ≡
        path_price net.now (edge_price net.now (weights_of model.now) prices.now) strand
        (take layers path.new)) }
    ensures kept { OnErr result (path.new ≡ path.old) }
    ensures none { OnErr result ((ps : List AnyPlace) →
        MayGo net.now ends (UsesNothing net.now taken.now) strand ps → ⊥) }
{
    let rows = &mut rows[..layers];
    let path = &mut path[..layers];
    search(net, model, prices, strand, note, ends, taken, rows, path)
}

/// Finds a least priced path of a strand, among those that begin and end where `ends` wants it and
/// that use nothing which is taken: no register at a layer, alone or in a both place, and no memory
/// pair. Its priced cost is answered, in units of 1/1024, and `work.path()` is the path. Among
/// paths of one cost any may be found. It takes no memory.
///
/// # Errors
///
/// Where there is no such path; `work.path()` is then what it was.
pub fn least<F: Fn(Event, u32) -> u32>(
    work: &mut Work,
    net: &Net,
    model: &CostModel<F>,
    prices: &Prices,
    strand: u32,
    ends: Ends,
    taken: &Taken,
) -> Result<i64, NoPath>
    requires kept { Keeps F.Fn model.now }
    requires net { IsBuilt net.now }
    requires work { IsReservedFor net.now work.old }
    requires prices { AreInRange net.now prices.now }
    requires strand { strand < length net.now.strands }
    requires taken { IsRoomOf net.now taken.now }
    ensures found { OnOk result (IsLeast net.now
        (edge_price net.now (weights_of model.now) prices.now) ends
        (UsesNothing net.now taken.now) strand (path_of work.new)) }
    ensures cost { IfOk result (λ z. z ≡
        path_price net.now (edge_price net.now (weights_of model.now) prices.now) strand
        (path_of work.new)) }
    ensures none { OnErr result ((ps : List AnyPlace) →
        MayGo net.now ends (UsesNothing net.now taken.now) strand ps → ⊥) }
    ensures path { OnErr result (path_of work.new ≡ path_of work.old) }
    ensures family { work.new.family ≡ work.old.family }
    ensures reserved { IsReservedFor net.now work.new }
{
    let strand = strand as usize;
    let note = work.notes[strand];
    let layers = layers_by(net, strand, note);
    let (rows, path) = (&mut work.rows, &mut work.path);
    let result = search_front(
        net, model, prices, strand, note, ends, taken, layers, rows, path,
    );
    if result.is_ok() {
        work.count = layers;
    }
    result
}
