// One strand goes a cheaper way.

ghost use Rattle.std.specs.Prelude.{◌≡◌, ◌<◌, ◌≤ℤ◌, ◌<ℤ◌, List, length, IsTrue, IsFalse};
ghost use Rattle.pra_base.specs.declared.ids.Place.{Place as AnyPlace};
ghost use Rattle.net_cost.specs.Models.{Keeps, weights_of};
ghost use Rattle.net_form.specs.Cost.{cost_of};
ghost use Rattle.net_form.specs.Flow.{flow, AreRoutes};
ghost use Rattle.net_form.specs.Formed.{IsFormed};
ghost use Rattle.net_form.specs.InUse.{StandsFor, UsesNothing};
ghost use Rattle.net_form.specs.Rooms.{zero_prices};
ghost use Rattle.net_laws.specs.Built.{IsBuilt};
ghost use Rattle.net_dual.specs.Paths.{MayGo, path_price, path_in};
ghost use Rattle.net_dual.specs.Priced.{edge_price};
ghost use Rattle.net_path.specs.Desk.{path_of, IsReservedFor};
ghost use Rattle.al_laws.specs.Parts.{rest, only_strand};
ghost use Rattle.al_laws.specs.Settled.{block_ends, NoneCheaper};
ghost use Rattle.al_iter.specs.Room.{IsSpareOf};
ghost use Rattle.al_iter.specs.SettleState.{AreMarkedRoutes};

use crate::settle_price::price_now;
use crate::settle_rows::{path_at, write_path};
use net_cost::{CostModel, Event};
use net_form::{Ends, Net, Routes, Spare};
use net_path::{Work, least};
use pra_base::Place;

// Where the path of a strand is at the entry of its block, if it begins there.
fn entry_place(net: &Net, routes: &Routes, strand: usize) -> Option<Place>
    requires routes { AreRoutes net.now routes.now }
    requires strand { strand < length net.now.strands }
    ensures { result ≡ (block_ends net.now routes.now strand).first }
{
    if net.strands[strand].first != 0 {
        return None;
    }
    path_at(net, routes, strand).first().copied()
}

// Where it is at the exit of its block, if it ends there.
fn exit_place(net: &Net, routes: &Routes, strand: usize) -> Option<Place>
    requires net { IsFormed net.now }
    requires routes { AreRoutes net.now routes.now }
    requires strand { strand < length net.now.strands }
    ensures { result ≡ (block_ends net.now routes.now strand).last }
{
    let last = net.strands[strand].last;
    let block = net.strands[strand].block;
    if last + 1 != net.blocks[block.0 as usize].layers {
        return None;
    }
    path_at(net, routes, strand).last().copied()
}

// Looks for a path of a strand that pays less, past all that is taken.
fn find_cheaper<F: Fn(Event, u32) -> u32>(
    work: &mut Work,
    spare: &Spare,
    net: &Net,
    model: &CostModel<F>,
    strand: usize,
    ends: Ends,
    price: i64,
) -> bool
    requires kept { Keeps F.Fn model.now }
    requires net { IsBuilt net.now }
    requires work { IsReservedFor net.now work.old }
    requires spare { IsSpareOf net.now spare.now }
    requires strand { strand < length net.now.strands }
    ensures goes { IsTrue result →
        MayGo net.now ends (UsesNothing net.now spare.now.taken) strand (path_of work.new) }
    ensures cheaper { IsTrue result → path_price net.now
        (edge_price net.now (weights_of model.now) (zero_prices net.now)) strand
        (path_of work.new) <ℤ price }
    ensures none { IsFalse result → (ps : List AnyPlace) →
        MayGo net.now ends (UsesNothing net.now spare.now.taken) strand ps →
        price ≤ℤ path_price net.now
        (edge_price net.now (weights_of model.now) (zero_prices net.now)) strand ps }
    ensures family { work.new.family ≡ work.old.family }
    ensures reserved { IsReservedFor net.now work.new }
{
    let least = least(
        work,
        net,
        model,
        &spare.zero,
        strand as u32,
        ends,
        &spare.taken,
    );
    let Ok(cost) = least else {
        return false;
    };
    if cost < price {
        return true;
    }
    false
}

/// Gives a strand a cheaper path past the others, if there is one that keeps its places at the
/// entry and the exit of its block, and says whether there was.
pub(crate) fn change_strand<F: Fn(Event, u32) -> u32>(
    work: &mut Work,
    spare: &mut Spare,
    net: &Net,
    model: &CostModel<F>,
    routes: &mut Routes,
    strand: usize,
) -> bool
    requires kept { Keeps F.Fn model.now }
    requires net { IsBuilt net.now }
    requires work { IsReservedFor net.now work.old }
    requires state { AreMarkedRoutes net.now spare.old routes.old }
    requires strand { strand < length net.now.strands }
    ensures state { AreMarkedRoutes net.now spare.new routes.new }
    ensures lower { IsTrue result → cost_of net.now (weights_of model.now)
        (flow net.now routes.new) < cost_of net.now (weights_of model.now)
        (flow net.now routes.old) }
    ensures same { IsFalse result → routes.new ≡ routes.old }
    ensures settled { IsFalse result →
        NoneCheaper net.now (weights_of model.now) routes.old strand }
    ensures family { work.new.family ≡ work.old.family }
    ensures reserved { IsReservedFor net.now work.new }
{
    let price = price_now(net, model, strand, path_at(net, routes, strand));
    if price == 0 {
        return false;
    }
    let ends = Ends {
        first: entry_place(net, routes, strand),
        last: exit_place(net, routes, strand),
    };
    spare
        .taken
        .release_path(net, strand, path_at(net, routes, strand));
    if !find_cheaper(work, spare, net, model, strand, ends, price) {
        spare
            .taken
            .take_path(net, strand, path_at(net, routes, strand));
        return false;
    }
    write_path(net, routes, strand, work.path());
    spare
        .taken
        .take_path(net, strand, path_at(net, routes, strand));
    true
}
