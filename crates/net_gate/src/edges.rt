// The rules that each edge keeps by itself: it comes to a place of the mask, and stays across an
// instruction.

ghost use Rattle.std.specs.Prelude.{◌≡◌, ◌≤◌, ◌<◌, ◌+◌, length, count_by, None};
ghost use Rattle.net_form.specs.Admitted.{strand_at, stays_from};
ghost use Rattle.net_form.specs.Flow.{edges, flow, AreRoutes};
ghost use Rattle.net_form.specs.Formed.{IsFormed};
ghost use Rattle.net_gate.specs.Broken.{keeps_rule, breaks, IsFirstLayer, IsFirstAbove};

use crate::broken::EdgeRule;
use net_form::{Net, Routes};
use pra_base::Place;
use pra_base::places::allows;

// Whether a place is in the strand's mask at a layer.
fn is_in_mask(net: &Net, strand: usize, layer: u32, to: Place) -> bool
    requires strand { strand < length net.now.strands }
    requires first { (strand_at net.now strand).first ≤ layer }
    requires last { layer <
        (strand_at net.now strand).first + length (strand_at net.now strand).masks }
    ensures { result ≡ keeps_rule net.now EdgeRule.InMask
        (record { strand = strand; layer = layer; from = None; to = to }) }
{
    let strand = &net.strands[strand];
    let at = (layer - strand.first) as usize;
    allows(strand.masks[at], to)
}

// Whether the strand stays in its place, if it comes from one.
fn stays(from: Option<Place>, to: Place) -> bool
    ensures { result ≡ stays_from from to }
{
    match from {
        None => true,
        Some(place) => place.number() == to.number(),
    }
}

// Whether an edge keeps a rule.
fn keeps_rule(
    rule: EdgeRule,
    net: &Net,
    strand: usize,
    layer: u32,
    from: Option<Place>,
    to: Place,
) -> bool
    requires strand { strand < length net.now.strands }
    requires first { (strand_at net.now strand).first ≤ layer }
    requires last { layer <
        (strand_at net.now strand).first + length (strand_at net.now strand).masks }
    ensures { result ≡ keeps_rule net.now rule
        (record { strand = strand; layer = layer; from = from; to = to }) }
{
    match rule {
        EdgeRule::InMask => is_in_mask(net, strand, layer, to),
        EdgeRule::StaysAcross => layer % 2 != 0 || stays(from, to),
    }
}

// The first layer at which the path of a strand breaks the rule.
fn first_layer(rule: EdgeRule, net: &Net, strand: usize, path: &[Place]) -> Option<u32>
    requires net { IsFormed net.now }
    requires strand { strand < length net.now.strands }
    requires path { (strand_at net.now strand).first + length path.now ≡
        (strand_at net.now strand).last + 1 }
    ensures { IsFirstLayer
        (λ l. count_by (breaks net.now rule strand l)
        (edges strand (strand_at net.now strand).first None path.now)) result }
{
    let mut from = None;
    let mut layer = net.strands[strand].first;
    let mut rest = path;
    while let [to, others @ ..] = rest {
        if !keeps_rule(rule, net, strand, layer, from, *to) {
            return Some(layer);
        }
        from = Some(*to);
        layer += 1;
        rest = others;
    }
    None
}

// The first strand, and its first layer, that break the rule.
pub(crate) fn first_edge(rule: EdgeRule, net: &Net, routes: &Routes) -> Option<(u32, u32)>
    requires net { IsFormed net.now }
    requires routes { AreRoutes net.now routes.now }
    ensures { IsFirstAbove 0
        (λ s l. count_by (breaks net.now rule s l) (flow net.now routes.now)) result }
{
    for at in 0..net.strands.len() {
        let path = routes.places.at(at);
        if let Some(layer) = first_layer(rule, net, at, path) {
            return Some((at as u32, layer));
        }
    }
    None
}
