// What routes cost.

ghost use Rattle.std.specs.Prelude.{◌≡◌, ◌≤◌, ◌<◌, ◌+◌, ◌*◌, length, sum_by, None};
ghost use Rattle.net_cost.specs.Models.{Keeps, weights_of};
ghost use Rattle.net_cost.specs.Weights.{most_weight};
ghost use Rattle.net_form.specs.Admitted.{strand_at};
ghost use Rattle.net_form.specs.Cost.{way_cost, met_cost, cost_of};
ghost use Rattle.net_form.specs.Flow.{edges, flow, AreRoutes};
ghost use Rattle.net_form.specs.Formed.{IsFormed, most_layers};
ghost use Rattle.net_form.specs.Tables.{all_tables};

use crate::places::{is_place, place_at};
use net_cost::{CostModel, Event};
use net_form::{Extra, Net, Routes, way_cost};
use pra_base::Place;

// What the path of a strand weighs.
fn path_cost<F: Fn(Event, u32) -> u32>(
    net: &Net,
    model: &CostModel<F>,
    strand: usize,
    path: &[Place],
) -> u64
    requires kept { Keeps F.Fn model.now }
    requires net { IsFormed net.now }
    requires strand { strand < length net.now.strands }
    requires few { (strand_at net.now strand).first + length path.now ≤ most_layers }
    ensures value { result ≡ sum_by (way_cost all_tables net.now (weights_of model.now))
        (edges strand (strand_at net.now strand).first None path.now) }
    ensures small { result ≤ 2 * most_weight * most_layers }
{
    let mut total = 0u64;
    let mut from = None;
    let mut layer = net.strands[strand].first;
    let mut rest = path;
    while let [to, others @ ..] = rest {
        total += way_cost(net, model, strand, layer, from, *to);
        from = Some(*to);
        layer += 1;
        rest = others;
    }
    total
}

// What all paths weigh.
fn paths_cost<F: Fn(Event, u32) -> u32>(net: &Net, model: &CostModel<F>, routes: &Routes) -> u128
    requires kept { Keeps F.Fn model.now }
    requires net { IsFormed net.now }
    requires routes { AreRoutes net.now routes.now }
    ensures value { result ≡
        sum_by (way_cost all_tables net.now (weights_of model.now)) (flow net.now routes.now) }
    ensures small { result ≤ 2 * most_weight * most_layers * usize.MAX }
{
    let mut total = 0u128;
    for at in 0..net.strands.len() {
        total += path_cost(net, model, at, routes.places.at(at)) as u128;
    }
    total
}

// What an extra weighs, if its place is met.
fn met_cost<F: Fn(Event, u32) -> u32>(
    net: &Net,
    model: &CostModel<F>,
    routes: &Routes,
    extra: &Extra,
) -> u64
    requires kept { Keeps F.Fn model.now }
    requires net { IsFormed net.now }
    requires routes { AreRoutes net.now routes.now }
    ensures value { result ≡ met_cost net.now (weights_of model.now) routes.now extra.now }
    ensures small { result ≤ most_weight }
{
    let strand = extra.strand as usize;
    if strand >= net.strands.len() {
        return 0;
    }
    let found = place_at(net, routes, strand, extra.layer);
    if !is_place(found, extra.place) {
        return 0;
    }
    model.ask(extra.event, net.depth(strand)) as u64
}

// What all extras weigh whose places are met.
fn extras_cost<F: Fn(Event, u32) -> u32>(net: &Net, model: &CostModel<F>, routes: &Routes) -> u128
    requires kept { Keeps F.Fn model.now }
    requires net { IsFormed net.now }
    requires routes { AreRoutes net.now routes.now }
    ensures value { result ≡
        sum_by (met_cost net.now (weights_of model.now) routes.now) net.now.extras }
    ensures small { result ≤ most_weight * usize.MAX }
{
    let mut total = 0u128;
    let mut rest = net.extras.as_slice();
    while let [extra, others @ ..] = rest {
        total += met_cost(net, model, routes, extra) as u128;
        rest = others;
    }
    total
}

/// What routes cost, in the weights of the model.
pub fn cost<F: Fn(Event, u32) -> u32>(net: &Net, model: &CostModel<F>, routes: &Routes) -> u128
    requires kept { Keeps F.Fn model.now }
    requires net { IsFormed net.now }
    requires routes { AreRoutes net.now routes.now }
    ensures { result ≡ cost_of net.now (weights_of model.now) (flow net.now routes.now) }
{
    paths_cost(net, model, routes) + extras_cost(net, model, routes)
}
