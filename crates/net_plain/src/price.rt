// What one path costs.

ghost use Rattle.std.specs.Prelude.{◌≡◌, ◌<◌, ◌+◌, nat_eq, None, length, IfNone, IfSome};
ghost use Rattle.net_cost.specs.Models.{Keeps, weights_of};
ghost use Rattle.net_form.specs.Admitted.{strand_at};
ghost use Rattle.net_form.specs.InUse.{UsesNothing};
ghost use Rattle.net_form.specs.Rooms.{IsRoomOf};
ghost use Rattle.net_laws.specs.Built.{IsBuilt};
ghost use Rattle.net_dual.specs.Priced.{AreInRange, edge_price};
ghost use Rattle.net_dual.specs.Paths.{MayGo, path_price};
ghost use Rattle.net_plain.specs.Rests.{IsCostOf, place_before};

use crate::open::Spot;
use crate::steps::{coming, there};
use crate::sums::narrow;
use net_cost::{CostModel, Event};
use net_form::{Ends, Net, Prices, Taken};
use pra_base::Place;

// The place before one of a path, if it is not the first.
fn place_before(path: &[Place], at: usize) -> Option<Place>
    requires { at < length path.now }
    ensures { result ≡ place_before path.now at }
{
    if at == 0 {
        return None;
    }
    Some(path[at - 1])
}

// Whether a path has as many places as the strand has layers.
fn has_each_layer(net: &Net, strand: usize, path: &[Place]) -> bool
    requires { strand < length net.now.strands }
    ensures { result ≡ nat_eq (length path.now) (length (strand_at net.now strand).masks) }
{
    path.len() == net.strands[strand].masks.len()
}

// What a path with a place for each of the strand's layers costs, summed up from its end; None where
// it may not go this way.
fn cost_of<F: Fn(Event, u32) -> u32>(
    net: &Net,
    model: &CostModel<F>,
    prices: &Prices,
    strand: usize,
    ends: Ends,
    taken: &Taken,
    path: &[Place],
) -> Option<i128>
    requires kept { Keeps F.Fn model.now }
    requires net { IsBuilt net.now }
    requires prices { AreInRange net.now prices.now }
    requires taken { IsRoomOf net.now taken.now }
    requires strand { strand < length net.now.strands }
    requires long { (strand_at net.now strand).first + length path.now ≡
        (strand_at net.now strand).last + 1 }
    ensures { IsCostOf net.now (weights_of model.now) prices.now ends taken.now strand
        (strand_at net.now strand).first None path.now result }
{
    let first = net.strands[strand].first;
    let mut left = Some(0i128);
    let mut at = path.len();
    while at > 0 {
        at -= 1;
        let spot = Spot {
            strand,
            layer: first + at as u32,
        };
        let behind = there(net, model, prices, ends, taken, spot, path[at], left);
        left = coming(net, model, spot, place_before(path, at), path[at], behind);
    }
    left
}

/// What a path of a strand costs at prices, in units of 1/1024. None where it may not go this way:
/// where it has not one place for each layer, is outside of a mask, moves across an instruction, has
/// other ends than `ends` wants, or uses what is taken.
pub fn price_plain<F: Fn(Event, u32) -> u32>(
    net: &Net,
    model: &CostModel<F>,
    prices: &Prices,
    strand: u32,
    ends: Ends,
    taken: &Taken,
    path: &[Place],
) -> Option<i64>
    requires kept { Keeps F.Fn model.now }
    requires net { IsBuilt net.now }
    requires prices { AreInRange net.now prices.now }
    requires strand { strand < length net.now.strands }
    requires taken { IsRoomOf net.now taken.now }
    ensures price { IfSome result (λ z.
        (MayGo net.now ends (UsesNothing net.now taken.now) strand path.now) ×
        (z ≡ path_price net.now (edge_price net.now (weights_of model.now) prices.now) strand
        path.now)) }
    ensures none { IfNone result
        (MayGo net.now ends (UsesNothing net.now taken.now) strand path.now → ⊥) }
{
    if !has_each_layer(net, strand as usize, path) {
        return None;
    }
    match cost_of(net, model, prices, strand as usize, ends, taken, path) {
        Some(cost) => Some(narrow(cost)),
        None => None,
    }
}
