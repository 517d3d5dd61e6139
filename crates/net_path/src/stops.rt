// What least paths cost to each place at which a strand may end, in one search: its layers are read
// against their order.

ghost use Rattle.std.specs.Prelude.{◌≡◌, ◌≤◌, ◌<◌, ◌+◌, length, None, false};
ghost use Rattle.pra_base.specs.Places.{place_count};
ghost use Rattle.net_cost.specs.Models.{Keeps, weights_of};
ghost use Rattle.net_form.specs.Admitted.{strand_at};
ghost use Rattle.net_form.specs.Rooms.{IsRoomOf};
ghost use Rattle.net_laws.specs.Built.{IsBuilt};
ghost use Rattle.net_dual.specs.Priced.{AreInRange};
ghost use Rattle.net_path.specs.Desk.{path_of, IsReservedFor};
ghost use Rattle.net_path.specs.Grounds.{terrain, is_free};
ghost use Rattle.net_path.specs.Rows.{AreCells, AreCellsWithin};
ghost use Rattle.net_path.specs.Starts.{AreCostsTo};

use crate::cells::fill_cells;
use crate::crossbar::Row;
use crate::directions::backwards;
use crate::path::start_costs;
use crate::rows::pay_backward;
use crate::search::ways_of;
use crate::work::Work;
use net_cost::{CostModel, Event};
use net_form::{Ends, Net, Prices, Taken};
use pra_base::Place;

// The costs over rows of what is paid at each place.
fn costs_over<F: Fn(Event, u32) -> u32>(
    net: &Net,
    model: &CostModel<F>,
    _prices: &Prices,
    strand: usize,
    _first: Option<Place>,
    _taken: &Taken,
    rows: &mut [Row],
) -> [Option<i64>; 14]
    requires kept { Keeps F.Fn model.now }
    requires net { IsBuilt net.now }
    requires prices { AreInRange net.now _prices.now }
    requires strand { strand < length net.now.strands }
    requires value { (strand_at net.now strand).constant ≡ false }
    requires rows { (strand_at net.now strand).first + length rows.old ≡
        (strand_at net.now strand).last + 1 }
    requires cells { AreCells (terrain net.now (weights_of model.now) _prices.now
        (record { first = _first; last = None }) (is_free net.now _taken.now) strand) rows.old }
    requires within { AreCellsWithin rows.old }
    ensures { AreCostsTo net.now (weights_of model.now) _prices.now _taken.now strand _first
        place_count result }
{
    let ways = ways_of(model, net.near, net.depth(strand));
    let behind = net.strands[strand].last + 1;
    rows.reverse();
    pay_backward(&backwards(&ways), behind % 2, rows, false);
    start_costs(&ways, false, &rows[0])
}

// The same, with a row for each layer of the strand to work in.
fn costs_in<F: Fn(Event, u32) -> u32>(
    net: &Net,
    model: &CostModel<F>,
    prices: &Prices,
    strand: usize,
    first: Option<Place>,
    taken: &Taken,
    rows: &mut [Row],
) -> [Option<i64>; 14]
    requires kept { Keeps F.Fn model.now }
    requires net { IsBuilt net.now }
    requires prices { AreInRange net.now prices.now }
    requires taken { IsRoomOf net.now taken.now }
    requires strand { strand < length net.now.strands }
    requires value { (strand_at net.now strand).constant ≡ false }
    requires rows { (strand_at net.now strand).first + length rows.old ≡
        (strand_at net.now strand).last + 1 }
    ensures { AreCostsTo net.now (weights_of model.now) prices.now taken.now strand first
        place_count result }
{
    let ends = Ends { first, last: None };
    fill_cells(net, model, prices, ends, taken, strand, rows);
    costs_over(net, model, prices, strand, first, taken, rows)
}

// The same, with rows for as many layers at least.
fn costs_front<F: Fn(Event, u32) -> u32>(
    net: &Net,
    model: &CostModel<F>,
    prices: &Prices,
    strand: usize,
    first: Option<Place>,
    taken: &Taken,
    layers: usize,
    rows: &mut [Row],
) -> [Option<i64>; 14]
    requires kept { Keeps F.Fn model.now }
    requires net { IsBuilt net.now }
    requires prices { AreInRange net.now prices.now }
    requires taken { IsRoomOf net.now taken.now }
    requires strand { strand < length net.now.strands }
    requires value { (strand_at net.now strand).constant ≡ false }
    requires layers { layers ≡ length (strand_at net.now strand).masks }
    requires rows { layers ≤ length rows.old }
    ensures { AreCostsTo net.now (weights_of model.now) prices.now taken.now strand first
        place_count result }
{
    let rows = &mut rows[..layers];
    costs_in(net, model, prices, strand, first, taken, rows)
}

/// Finds in one search what a least priced path of a strand that is no constant costs to each place
/// at its last layer, by the places' numbers, among the paths that begin where `first` wants it and
/// that use nothing which is taken; and None where there is no such path. Costs are in units of
/// 1/1024. It takes no memory, and `work.path()` stays what it was.
pub fn costs_to<F: Fn(Event, u32) -> u32>(
    work: &mut Work,
    net: &Net,
    model: &CostModel<F>,
    prices: &Prices,
    strand: u32,
    first: Option<Place>,
    taken: &Taken,
) -> [Option<i64>; 14]
    requires kept { Keeps F.Fn model.now }
    requires net { IsBuilt net.now }
    requires work { IsReservedFor net.now work.old }
    requires prices { AreInRange net.now prices.now }
    requires strand { strand < length net.now.strands }
    requires value { (strand_at net.now strand).constant ≡ false }
    requires taken { IsRoomOf net.now taken.now }
    ensures costs { AreCostsTo net.now (weights_of model.now) prices.now taken.now strand first
        place_count result }
    ensures path { path_of work.new ≡ path_of work.old }
    ensures family { work.new.family ≡ work.old.family }
    ensures reserved { IsReservedFor net.now work.new }
{
    let strand = strand as usize;
    let layers = net.strands[strand].masks.len();
    costs_front(
        net,
        model,
        prices,
        strand,
        first,
        taken,
        layers,
        &mut work.rows,
    )
}
