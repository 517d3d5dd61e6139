// The places at which the strands of a variable may be wherever it is tied: most places fall here.

ghost use Rattle.std.specs.Prelude.{◌<◌, ◌≤◌, List, length, IsTrue, IsFalse};
ghost use Rattle.pra_base.specs.declared.ids.Place.{Place as AnyPlace};
ghost use Rattle.pra_base.specs.Places.{number, allows};
ghost use Rattle.net_form.specs.Admitted.{strand_at};
ghost use Rattle.net_form.specs.Formed.{IsFormed};
ghost use Rattle.net_form.specs.Rooms.{IsRoomOf};
ghost use Rattle.al_iter.specs.SettleState.{AreStrands};
ghost use Rattle.al_iter.specs.SettleSums.{MayGoTied, IsShut, IsOpenAt};

use net_form::{Net, Taken};
use pra_base::Mask;
use pra_base::places::{BOTH_PLACES, EVERY, REGISTERS, meet, without};

// The places of a mask at which a strand may be at a layer too, past what is taken.
fn open_at(net: &Net, taken: &Taken, strand: usize, layer: u32, places: Mask) -> Mask
    requires net { IsFormed net.now }
    requires room { IsRoomOf net.now taken.now }
    requires strand { strand < length net.now.strands }
    requires after { (strand_at net.now strand).first ≤ layer }
    requires before { layer ≤ (strand_at net.now strand).last }
    ensures { (p : AnyPlace) → IsTrue (allows places (number p)) →
        IsOpenAt net.now taken.now strand layer p → IsTrue (allows result (number p)) }
{
    let own = &net.strands[strand];
    let open = meet(places, own.masks[(layer - own.first) as usize]);
    if meet(open, REGISTERS | BOTH_PLACES) == 0 {
        return open;
    }
    let whole = net.entry_layer(strand) + layer;
    without(open, taken.regs[whole as usize])
}

// The places of a mask at which a strand may be where it is tied at its entry.
fn open_at_entry(net: &Net, taken: &Taken, strand: usize, places: Mask) -> Mask
    requires net { IsFormed net.now }
    requires room { IsRoomOf net.now taken.now }
    requires strand { strand < length net.now.strands }
    ensures { (p : AnyPlace) (ps : List AnyPlace) → IsTrue (allows places (number p)) →
        MayGoTied net.now taken.now p strand ps → IsTrue (allows result (number p)) }
{
    let own = &net.strands[strand];
    if own.entry_group.is_some() {
        return open_at(net, taken, strand, own.first, places);
    }
    places
}

// The same at its exit.
fn open_at_exit(net: &Net, taken: &Taken, strand: usize, places: Mask) -> Mask
    requires net { IsFormed net.now }
    requires room { IsRoomOf net.now taken.now }
    requires strand { strand < length net.now.strands }
    ensures { (p : AnyPlace) (ps : List AnyPlace) → IsTrue (allows places (number p)) →
        MayGoTied net.now taken.now p strand ps → IsTrue (allows result (number p)) }
{
    let own = &net.strands[strand];
    if own.exit_group.is_some() {
        return open_at(net, taken, strand, own.last, places);
    }
    places
}

/// The places at which each of these strands may be wherever it is tied.
pub(crate) fn open_places(net: &Net, taken: &Taken, strands: &[u32]) -> Mask
    requires net { IsFormed net.now }
    requires room { IsRoomOf net.now taken.now }
    requires strands { AreStrands net.now strands.now }
    ensures { (p : AnyPlace) → IsFalse (allows result (number p)) →
        IsShut net.now taken.now strands.now p }
{
    let mut places = EVERY;
    for at in 0..strands.len() {
        let strand = strands[at] as usize;
        places = open_at_entry(net, taken, strand, places);
        places = open_at_exit(net, taken, strand, places);
    }
    places
}
