// Memory pairs and ties: of a pair one end at most is in memory, and the ends of a tie are at one
// place.

ghost use Rattle.std.specs.Prelude.{◌≡◌, ◌↔◌, IsTrue, length, count_by, nat_eq, ◌&&◌};
ghost use Rattle.std.specs.Prelude.{if◌then◌else◌};
ghost use Rattle.net_form.specs.Admitted.{KeepsTie};
ghost use Rattle.net_form.specs.Flow.{arrives, flow, AreRoutes, same_start};
ghost use Rattle.net_form.specs.Formed.{IsFormed};
ghost use Rattle.net_gate.specs.Broken.{KeepsPair, IsFirstFailing};

use crate::places::{first_place, last_place, place_at};
use net_form::{MemPair, Net, Routes, Tie};
use pra_base::Place;

// Whether a strand is in memory at a layer.
fn is_in_memory(net: &Net, routes: &Routes, strand: usize, layer: u32) -> bool
    requires { AreRoutes net.now routes.now }
    ensures { count_by (arrives strand layer Place.Mem) (flow net.now routes.now)
        ≡ (if result then 1 else 0) }
{
    match place_at(net, routes, strand, layer) {
        None => false,
        Some(place) => place.is_mem(),
    }
}

// Whether the pair has one end alone, which it names twice.
fn is_one_end(pair: &MemPair) -> bool
    ensures { result ≡ (nat_eq pair.now.left pair.now.right &&
        nat_eq pair.now.left_layer pair.now.right_layer) }
{
    pair.left == pair.right && pair.left_layer == pair.right_layer
}

fn keeps_pair(net: &Net, routes: &Routes, pair: &MemPair) -> bool
    requires { AreRoutes net.now routes.now }
    ensures { IsTrue result ↔ KeepsPair (flow net.now routes.now) pair.now }
{
    if is_one_end(pair) {
        return true;
    }
    if !is_in_memory(net, routes, pair.left as usize, pair.left_layer) {
        return true;
    }
    !is_in_memory(net, routes, pair.right as usize, pair.right_layer)
}

// The first pair of which both ends are in memory.
pub(crate) fn first_pair(net: &Net, routes: &Routes) -> Option<u32>
    requires net { IsFormed net.now }
    requires routes { AreRoutes net.now routes.now }
    ensures { IsFirstFailing (KeepsPair (flow net.now routes.now)) net.now.pairs result }
{
    for k in 0..net.pairs.len() {
        if !keeps_pair(net, routes, &net.pairs[k]) {
            return Some(k as u32);
        }
    }
    None
}

fn is_same(one: Option<Place>, other: Option<Place>) -> bool
    ensures { result ≡ same_start one other }
{
    match one {
        None => other.is_none(),
        Some(place) => match other {
            None => false,
            Some(found) => place.number() == found.number(),
        },
    }
}

fn keeps_tie(net: &Net, routes: &Routes, tie: &Tie) -> bool
    requires { AreRoutes net.now routes.now }
    ensures { IsTrue result ↔ KeepsTie net.now (flow net.now routes.now) tie.now }
{
    let from = last_place(net, routes, tie.from as usize);
    let to = first_place(net, routes, tie.to as usize);
    is_same(from, to)
}

fn tie_count(net: &Net) -> u32
    requires { IsFormed net.now }
    ensures { result ≡ length net.now.ties }
{
    net.index.exits[net.strands.len()]
}

// The first tie whose ends are at two places.
pub(crate) fn first_tie(net: &Net, routes: &Routes) -> Option<u32>
    requires net { IsFormed net.now }
    requires routes { AreRoutes net.now routes.now }
    ensures { IsFirstFailing (KeepsTie net.now (flow net.now routes.now)) net.now.ties result }
{
    for k in 0..tie_count(net) {
        if !keeps_tie(net, routes, &net.ties[k as usize]) {
            return Some(k);
        }
    }
    None
}
