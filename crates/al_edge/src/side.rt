// A strand at one of its layers, and on the other side of the instruction beside it.

ghost use Rattle.std.specs.Prelude.{◌≡◌, ◌<◌, ◌≤◌, ◌+◌, ◌&&◌, true, length};
ghost use Rattle.pra_base.specs.Places.{number, allows};
ghost use Rattle.net_form.specs.Strands.{across};
ghost use Rattle.net_laws.specs.Homes.{is_there, passes, mask_in, allowed, has_home, home_of};

use net_form::Strand;
use pra_base::places::{allows, meet};
use pra_base::{Mask, Place};

// The layer on the other side of the instruction.
pub(crate) fn across(layer: u32) -> u32
    requires { layer < 100000 }
    ensures { result ≡ across layer }
{
    if layer % 2 == 1 {
        layer + 1
    } else {
        layer.saturating_sub(1)
    }
}

fn is_there(strand: &Strand, layer: u32) -> bool
    ensures { result ≡ is_there strand.now layer }
{
    strand.first <= layer && layer <= strand.last
}

// Whether the strand is on the other side of the instruction too.
pub(crate) fn passes(strand: &Strand, layer: u32) -> bool
    requires { layer < 100000 }
    ensures value { result ≡ passes strand.now layer }
    ensures there { result ≡ true → is_there strand.now (across layer) ≡ true }
{
    0 < layer && is_there(strand, across(layer))
}

fn mask_in(strand: &Strand, layer: u32) -> Mask
    requires long { strand.now.first + length strand.now.masks ≡ strand.now.last + 1 }
    requires there { is_there strand.now layer ≡ true }
    ensures { result ≡ mask_in strand.now layer }
{
    strand.masks[(layer - strand.first) as usize]
}

// Where the strand may be, since it stays in its place across an instruction.
pub(crate) fn allowed(strand: &Strand, layer: u32) -> Mask
    requires long { strand.now.first + length strand.now.masks ≡ strand.now.last + 1 }
    requires there { is_there strand.now layer ≡ true }
    requires few { layer < 100000 }
    ensures { result ≡ allowed strand.now layer }
{
    if passes(strand, layer) {
        meet(mask_in(strand, layer), mask_in(strand, across(layer)))
    } else {
        mask_in(strand, layer)
    }
}

// In memory, or nowhere for a constant.
pub(crate) fn home_of(strand: &Strand) -> Place
    ensures { result ≡ home_of strand.now }
{
    if strand.constant {
        Place::Const
    } else {
        Place::Mem
    }
}

pub(crate) fn has_home(strand: &Strand, layer: u32) -> bool
    requires long { strand.now.first + length strand.now.masks ≡ strand.now.last + 1 }
    requires there { is_there strand.now layer ≡ true }
    requires few { layer < 100000 }
    ensures { result ≡ has_home strand.now layer }
{
    allows(allowed(strand, layer), home_of(strand))
}
