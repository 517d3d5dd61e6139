// What the path of one strand uses, released and taken again. Most paths use nothing.

ghost use Rattle.std.specs.Prelude.{◌≡◌, ◌<◌, ◌+◌, length, IsTrue};
ghost use Rattle.net_form.specs.Admitted.{strand_at};
ghost use Rattle.net_form.specs.Flow.{AreRoutes};
ghost use Rattle.net_form.specs.Formed.{IsFormed};
ghost use Rattle.net_form.specs.InUse.{Releases, Takes};
ghost use Rattle.net_form.specs.Rooms.{IsRoomOf};
ghost use Rattle.net_dual.specs.Paths.{path_edges, path_in};
ghost use Rattle.al_iter.specs.Staying.{UseNothing};

use crate::settle_rows::path_at;
use crate::settle_stay::{has_pairs, is_in_memory};
use net_form::{Net, Routes, Taken};
use pra_base::Place;

// Whether a path uses nothing: it stays in memory, and its strand has no end of a memory pair.
fn uses_nothing(net: &Net, strand: usize, path: &[Place]) -> bool
    requires net { IsFormed net.now }
    requires strand { strand < length net.now.strands }
    requires path { (strand_at net.now strand).first + length path.now ≡
        (strand_at net.now strand).last + 1 }
    ensures { IsTrue result → UseNothing net.now (path_edges net.now strand path.now) }
{
    if has_pairs(net, strand) {
        return false;
    }
    is_in_memory(path)
}

/// Releases what the path of a strand uses.
pub(crate) fn release_strand(taken: &mut Taken, net: &Net, routes: &Routes, strand: usize)
    requires net { IsFormed net.now }
    requires room { IsRoomOf net.now taken.old }
    requires routes { AreRoutes net.now routes.now }
    requires strand { strand < length net.now.strands }
    ensures room { IsRoomOf net.now taken.new }
    ensures releases { Releases net.now
        (path_edges net.now strand (path_in routes.now strand)) taken.old taken.new }
{
    let path = path_at(net, routes, strand);
    if uses_nothing(net, strand, path) {
        return;
    }
    taken.release_path(net, strand, path);
}

/// Takes what the path of a strand uses.
pub(crate) fn take_strand(taken: &mut Taken, net: &Net, routes: &Routes, strand: usize)
    requires net { IsFormed net.now }
    requires room { IsRoomOf net.now taken.old }
    requires routes { AreRoutes net.now routes.now }
    requires strand { strand < length net.now.strands }
    ensures room { IsRoomOf net.now taken.new }
    ensures takes { Takes net.now
        (path_edges net.now strand (path_in routes.now strand)) taken.old taken.new }
{
    let path = path_at(net, routes, strand);
    if uses_nothing(net, strand, path) {
        return;
    }
    taken.take_path(net, strand, path);
}
