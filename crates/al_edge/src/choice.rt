// The first register of a mask that is free.

ghost use Rattle.std.specs.Prelude.{◌≡◌, find};
ghost use Rattle.al_edge.specs.Choice.{may_pick, pick};

use pra_base::places::allows;
use pra_base::{Mask, Place};

// Whether a register is in the mask and not among the busy ones.
fn is_open(mask: Mask, busy: u8, place: Place) -> bool
    ensures { result ≡ may_pick mask busy place }
{
    allows(mask, place) && !allows(Mask::from(busy), place)
}

// The first of some registers that is open.
fn first_open(places: &[Place], mask: Mask, busy: u8) -> Option<Place>
    ensures { result ≡ find (may_pick mask busy) places.now }
{
    places
        .iter()
        .copied()
        .find(|place| is_open(mask, busy, *place))
}

// The first register of a mask that is not among the busy ones.
pub(crate) fn pick(mask: Mask, busy: u8) -> Place
    ensures { result ≡ pick mask busy }
{
    let six = [
        Place::Eax,
        Place::Ecx,
        Place::Edx,
        Place::Ebx,
        Place::Esi,
        Place::Edi,
    ];
    first_open(&six, mask, busy).unwrap_or(Place::Eax)
}
