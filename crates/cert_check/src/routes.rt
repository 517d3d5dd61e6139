// The reason Routes: whether routes have a place for each layer of each strand, and are admitted.

ghost use Rattle.std.specs.Prelude.{◌≡◌, ◌↔◌, IsTrue};
ghost use Rattle.net_form.specs.Flow.{AreRoutes};
ghost use Rattle.net_form.specs.Formed.{IsFormed};
ghost use Rattle.net_form.specs.Rooms.{IsRoomOf};
ghost use Rattle.cert_check.specs.Reasons.{HasRoutes};

use net_form::{Net, Routes, Taken};
use net_gate::admitted;

// Whether there is one place for each strand and layer.
fn are_routes(net: &Net, routes: &Routes) -> bool
    requires { IsFormed net.now }
    ensures { IsTrue result ↔ AreRoutes net.now routes.now }
{
    if routes.places.len() != net.strands.len() {
        return false;
    }
    for strand in 0..net.strands.len() {
        if routes.places.at(strand).len() != net.strands[strand].masks.len() {
            return false;
        }
    }
    true
}

/// Whether routes are such, and admitted.
pub(crate) fn has_routes(taken: &mut Taken, net: &Net, routes: &Routes) -> bool
    requires room { IsRoomOf net.now taken.old }
    requires net { IsFormed net.now }
    ensures { IsTrue result ↔ HasRoutes net.now routes.now }
{
    if !are_routes(net, routes) {
        return false;
    }
    admitted(taken, net, routes).is_ok()
}
