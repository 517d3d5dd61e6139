// Where routes have a strand at a layer.

ghost use Rattle.std.specs.Prelude.{◌≡◌, ◌<◌, Some, length};
ghost use Rattle.net_form.specs.Admitted.{strand_at};
ghost use Rattle.net_form.specs.Cost.{route_at};
ghost use Rattle.net_form.specs.Flow.{AreRoutes, same_start};

use net_form::{Net, Routes};
use pra_base::Place;

// Where a strand of this number is at a layer, if it is there.
fn place_within(net: &Net, routes: &Routes, strand: usize, layer: u32) -> Option<Place>
    requires strand { strand < length net.now.strands }
    requires path { strand < length routes.now.places }
    ensures { result ≡ route_at net.now routes.now strand layer }
{
    let first = net.strands[strand].first;
    if layer < first {
        return None;
    }
    let path = routes.places.at(strand);
    path.get((layer - first) as usize).copied()
}

// Where a strand is at a layer, if there is one of this number, and it is there.
pub(crate) fn place_at(net: &Net, routes: &Routes, strand: usize, layer: u32) -> Option<Place>
    requires { AreRoutes net.now routes.now }
    ensures { result ≡ route_at net.now routes.now strand layer }
{
    if strand >= net.strands.len() {
        return None;
    }
    place_within(net, routes, strand, layer)
}

// Where a strand ends, if there is one of this number.
pub(crate) fn last_place(net: &Net, routes: &Routes, strand: usize) -> Option<Place>
    requires { AreRoutes net.now routes.now }
    ensures { result ≡ route_at net.now routes.now strand (strand_at net.now strand).last }
{
    if strand >= net.strands.len() {
        return None;
    }
    place_at(net, routes, strand, net.strands[strand].last)
}

// Where a strand begins, if there is one of this number.
pub(crate) fn first_place(net: &Net, routes: &Routes, strand: usize) -> Option<Place>
    requires { AreRoutes net.now routes.now }
    ensures { result ≡ route_at net.now routes.now strand (strand_at net.now strand).first }
{
    if strand >= net.strands.len() {
        return None;
    }
    place_at(net, routes, strand, net.strands[strand].first)
}

// Whether a place that was found is this one.
pub(crate) fn is_place(found: Option<Place>, place: Place) -> bool
    ensures { result ≡ same_start found (Some place) }
{
    match found {
        None => false,
        Some(other) => other.number() == place.number(),
    }
}
