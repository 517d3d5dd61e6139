// Registers: at a layer one strand at most is in each, whether in the register alone or in its both
// place.

ghost use Rattle.std.specs.Prelude.{◌≡◌, ◌↔◌, ℕ, ◌+◌, ◌<◌, length, count_by, IsTrue, None};
ghost use Rattle.std.specs.Prelude.{option_map};
ghost use Rattle.pra_base.specs.Places.{number, has_register, register_of};
ghost use Rattle.net_form.specs.Admitted.{strand_at, uses_bundle};
ghost use Rattle.net_form.specs.Flow.{edges, flow, AreRoutes};
ghost use Rattle.net_form.specs.Formed.{IsFormed};
ghost use Rattle.net_form.specs.InUse.{lands_in};
ghost use Rattle.net_form.specs.Rooms.{layer_total, IsRoomOf};
ghost use Rattle.net_gate.specs.Broken.{IsFirstAbove, IsBefore};
ghost use Rattle.net_gate.specs.InUse.{Stands, numbers, IsEarlier};

use net_form::{Net, Routes, Taken};
use pra_base::Place;

// A register at a layer, where the layers of all blocks are counted together.
#[derive(Clone, Copy)]
pub(crate) struct Bundle {
    pub layer: u32,
    pub register: Place,
}

// The register of a place, alone.
fn alone(place: Place) -> Place
    requires { IsTrue (has_register (number place)) }
    ensures { number result ≡ register_of (number place) }
{
    match place {
        Place::EaxM => Place::Eax,
        Place::EcxM => Place::Ecx,
        Place::EdxM => Place::Edx,
        Place::EbxM => Place::Ebx,
        Place::EsiM => Place::Esi,
        Place::EdiM => Place::Edi,
        other => other,
    }
}

// Whether one bundle comes before the other, by layer and register.
fn is_before(layer: u32, register: Place, bundle: Bundle) -> bool
    ensures { IsTrue result ↔ IsBefore (layer, number register) (numbers bundle) }
{
    if layer == bundle.layer {
        return register.number() < bundle.register.number();
    }
    layer < bundle.layer
}

// The first of the bundles that are used twice, with one more.
fn earlier(clash: Option<Bundle>, layer: u32, register: Place) -> Bundle
    ensures { IsEarlier (option_map numbers clash) (layer, number register) (numbers result) }
{
    let here = Bundle { layer, register };
    match clash {
        None => here,
        Some(bundle) => {
            if is_before(layer, register, bundle) {
                here
            } else {
                bundle
            }
        }
    }
}

// A strand comes to a place at a layer, counted over all blocks.
fn come_to(taken: &mut Taken, clash: Option<Bundle>, layer: u32, to: Place) -> Option<Bundle>
    requires { layer < length taken.old.regs }
    ensures long { length taken.new.regs ≡ length taken.old.regs }
    ensures mems { taken.new.mems ≡ taken.old.mems }
    ensures stands { (uses : ℕ → ℕ → ℕ) → Stands uses taken.old.regs clash →
        Stands (λ n r. uses n r + lands_in layer to n r) taken.new.regs result }
{
    if !to.has_register() {
        return clash;
    }
    if taken.uses_register(layer, to.register()) {
        return Some(earlier(clash, layer, alone(to)));
    }
    taken.take_place(layer, to);
    clash
}

// A strand goes along its path.
fn go_along(
    taken: &mut Taken,
    clash: Option<Bundle>,
    net: &Net,
    strand: usize,
    path: &[Place],
) -> Option<Bundle>
    requires regs { length taken.old.regs ≡ layer_total net.now.blocks }
    requires net { IsFormed net.now }
    requires strand { strand < length net.now.strands }
    requires path { (strand_at net.now strand).first + length path.now ≡
        (strand_at net.now strand).last + 1 }
    ensures long { length taken.new.regs ≡ length taken.old.regs }
    ensures mems { taken.new.mems ≡ taken.old.mems }
    ensures stands { (uses : ℕ → ℕ → ℕ) → Stands uses taken.old.regs clash → Stands
        (λ n r. uses n r + count_by (uses_bundle net.now n r)
        (edges strand (strand_at net.now strand).first None path.now))
        taken.new.regs result }
{
    let mut clash = clash;
    let mut layer = net.entry_layer(strand) + net.strands[strand].first;
    let mut rest = path;
    while let [to, others @ ..] = rest {
        clash = come_to(taken, clash, layer, *to);
        layer += 1;
        rest = others;
    }
    clash
}

// The first register, by layer and number, that two strands are in.
pub(crate) fn first_bundle(taken: &mut Taken, net: &Net, routes: &Routes) -> Option<Bundle>
    requires room { IsRoomOf net.now taken.old }
    requires net { IsFormed net.now }
    requires routes { AreRoutes net.now routes.now }
    ensures room { IsRoomOf net.now taken.new }
    ensures first { IsFirstAbove 1
        (λ n r. count_by (uses_bundle net.now n r) (flow net.now routes.now))
        (option_map numbers result) }
{
    taken.clear();
    let mut clash = None;
    for at in 0..net.strands.len() {
        clash = go_along(taken, clash, net, at, routes.places.at(at));
    }
    clash
}
