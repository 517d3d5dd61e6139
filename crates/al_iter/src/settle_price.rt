// What paths pay.

ghost use Rattle.std.specs.Prelude.{◌≡◌, ◌≤◌, ◌<◌, ◌+◌, ◌*◌, ◌^◌, length, sum_by, pos, ◌≤ℤ◌};
ghost use Rattle.net_cost.specs.Models.{Keeps, weights_of};
ghost use Rattle.net_cost.specs.Weights.{most_weight};
ghost use Rattle.net_form.specs.Admitted.{strand_at};
ghost use Rattle.net_form.specs.Formed.{most_layers};
ghost use Rattle.net_form.specs.Rooms.{zero_prices};
ghost use Rattle.net_laws.specs.Built.{IsBuilt};
ghost use Rattle.net_dual.specs.Paths.{path_edges, path_price};
ghost use Rattle.net_dual.specs.Priced.{cost_by_weights, edge_price};

use crate::settle_stay::{has_extras, is_in_memory};
use net_cost::{CostModel, Event};
use net_form::{Net, extras_cost, way_cost};
use pra_base::Place;

// What a path of a strand weighs. One that stays in memory and meets no extra weighs nothing.
fn path_cost<F: Fn(Event, u32) -> u32>(
    net: &Net,
    model: &CostModel<F>,
    strand: usize,
    path: &[Place],
) -> u64
    requires kept { Keeps F.Fn model.now }
    requires net { IsBuilt net.now }
    requires strand { strand < length net.now.strands }
    requires few { (strand_at net.now strand).first + length path.now ≤ most_layers }
    ensures value { result ≡ sum_by (cost_by_weights net.now (weights_of model.now))
        (path_edges net.now strand path.now) }
    ensures small { result ≤ 3 * most_weight * most_layers }
{
    if !has_extras(net, strand) && is_in_memory(path) {
        return 0;
    }
    let mut total = 0u64;
    let mut from = None;
    let mut layer = net.strands[strand].first;
    let mut extra = net.first_extra(strand);
    let mut rest = path;
    while let [to, others @ ..] = rest {
        total += way_cost(net, model, strand, layer, from, *to);
        total += extras_cost(net, model, strand, layer, *to, extra);
        extra = net.next_extra(strand, layer, extra);
        from = Some(*to);
        layer += 1;
        rest = others;
    }
    total
}

/// What a path of a strand pays, in units of 1/1024 of a weight: the price that `least` answers at
/// prices of nothing.
pub(crate) fn price_now<F: Fn(Event, u32) -> u32>(
    net: &Net,
    model: &CostModel<F>,
    strand: usize,
    path: &[Place],
) -> i64
    requires kept { Keeps F.Fn model.now }
    requires net { IsBuilt net.now }
    requires strand { strand < length net.now.strands }
    requires path { (strand_at net.now strand).first + length path.now ≡
        (strand_at net.now strand).last + 1 }
    ensures value { result ≡ path_price net.now
        (edge_price net.now (weights_of model.now) (zero_prices net.now)) strand path.now }
    ensures least { pos 0 ≤ℤ result }
    ensures most { result ≤ℤ pos (2 ^ 60) }
{
    1024 * path_cost(net, model, strand, path) as i64
}
