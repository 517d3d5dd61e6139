// What a network admits.

ghost use Rattle.std.specs.Prelude.{◌↔◌, IsOk, IfErr};
ghost use Rattle.net_form.specs.Admitted.{IsAdmitted};
ghost use Rattle.net_form.specs.Flow.{flow, AreRoutes};
ghost use Rattle.net_form.specs.Formed.{IsFormed};
ghost use Rattle.net_form.specs.Rooms.{IsRoomOf};
ghost use Rattle.net_gate.specs.Broken.{IsFirstBroken};

use crate::broken::{Broken, EdgeRule};
use crate::bundles::first_bundle;
use crate::edges::first_edge;
use crate::pairs::{first_pair, first_tie};
use net_form::{Net, Routes, Taken};

/// Whether the network admits the routes. What taken holds before does not matter.
///
/// # Errors
///
/// Where it does not, with the first rule that they break: masks come first, then edges across
/// instructions, registers, memory pairs and ties, each in the order of their numbers.
pub fn admitted(taken: &mut Taken, net: &Net, routes: &Routes) -> Result<(), Broken>
    requires room { IsRoomOf net.now taken.old }
    requires net { IsFormed net.now }
    requires routes { AreRoutes net.now routes.now }
    ensures admitted { IsOk result ↔ IsAdmitted net.now (flow net.now routes.now) }
    ensures first { IfErr result (IsFirstBroken net.now (flow net.now routes.now)) }
    ensures room { IsRoomOf net.now taken.new }
{
    if let Some((strand, layer)) = first_edge(EdgeRule::InMask, net, routes) {
        return Err(Broken::Mask(strand, layer));
    }
    if let Some((strand, layer)) = first_edge(EdgeRule::StaysAcross, net, routes) {
        return Err(Broken::Edge(strand, layer));
    }
    if let Some(bundle) = first_bundle(taken, net, routes) {
        return Err(Broken::Bundle(bundle.layer, bundle.register));
    }
    if let Some(pair) = first_pair(net, routes) {
        return Err(Broken::Memory(pair));
    }
    if let Some(tie) = first_tie(net, routes) {
        return Err(Broken::Tie(tie));
    }
    Ok(())
}
