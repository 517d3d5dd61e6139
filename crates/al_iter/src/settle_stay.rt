// Strands that stay in memory and pay nothing there. Most strands of a large procedure only pass by.

ghost use Rattle.std.specs.Prelude.{◌≡◌, ◌<◌, ◌+◌, length, slice_index, All, IsTrue, IsFalse};
ghost use Rattle.pra_base.specs.declared.ids.Place.TheVariants.{Mem};
ghost use Rattle.net_form.specs.Flow.{AreRoutes};
ghost use Rattle.net_form.specs.Formed.{IsFormed};
ghost use Rattle.net_laws.specs.Built.{IsBuilt};
ghost use Rattle.net_dual.specs.Paths.{path_in};
ghost use Rattle.net_path.specs.Grounds.{wants};
ghost use Rattle.net_path.specs.Desk.{IsReservedFor};
ghost use Rattle.al_iter.specs.Staying.{StaysFree};

use crate::settle_rows::path_at;
use net_form::{Ends, Net, Routes};
use net_path::Work;
use pra_base::Place;

/// Whether a strand has an extra.
pub(crate) fn has_extras(net: &Net, strand: usize) -> bool
    requires net { IsBuilt net.now }
    requires strand { strand < length net.now.strands }
    ensures { IsFalse result → slice_index net.now.index.extras (strand + 1) ≡
        slice_index net.now.index.extras strand }
{
    net.index.extras[strand + 1] != net.index.extras[strand]
}

/// Whether a strand has an end of a memory pair.
pub(crate) fn has_pairs(net: &Net, strand: usize) -> bool
    requires net { IsFormed net.now }
    requires strand { strand < length net.now.strands }
    ensures { IsFalse result → slice_index net.now.index.pairs (strand + 1) ≡
        slice_index net.now.index.pairs strand }
{
    net.index.pairs[strand + 1] != net.index.pairs[strand]
}

/// Whether a path stays in memory.
pub(crate) fn is_in_memory(path: &[Place]) -> bool
    ensures { IsTrue result → All (λ p. p ≡ Mem) path.now }
{
    for at in 0..path.len() {
        if path[at].number() != Place::Mem.number() {
            return false;
        }
    }
    true
}

// Whether an end of a path may be in memory.
fn suits_memory(end: Option<Place>) -> bool
    ensures { IsTrue result → IsTrue (wants end Mem) }
{
    match end {
        None => true,
        Some(place) => place.number() == Place::Mem.number(),
    }
}

/// Whether the path of a strand stays in memory, may begin and end there, and pays nothing but what
/// its ties ask, whatever is taken.
pub(crate) fn stays_free(work: &Work, net: &Net, routes: &Routes, strand: usize, ends: Ends) -> bool
    requires work { IsReservedFor net.now work.now }
    requires routes { AreRoutes net.now routes.now }
    requires strand { strand < length net.now.strands }
    ensures { IsTrue result → StaysFree net.now ends strand (path_in routes.now strand) }
{
    if !suits_memory(ends.first) {
        return false;
    }
    if !suits_memory(ends.last) {
        return false;
    }
    if !work.passes_by(net, strand) {
        return false;
    }
    is_in_memory(path_at(net, routes, strand))
}
