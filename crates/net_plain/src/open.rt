// Whether a path may be at a place of a layer.

ghost use Rattle.std.specs.Prelude.{◌≡◌, ◌<◌, ◌&&◌, None, length, slice_index_or, false};
ghost use Rattle.net_form.specs.Admitted.{strand_at, in_mask, uses_memory};
ghost use Rattle.net_form.specs.Formed.{IsFormed};
ghost use Rattle.net_form.specs.InUse.{pair_at};
ghost use Rattle.net_form.specs.Rooms.{IsRoomOf};
ghost use Rattle.net_path.specs.Grounds.{edge, wants, suits_ends, register_free, pairs_free};
ghost use Rattle.net_path.specs.Grounds.{is_free, is_open};
ghost use Rattle.net_plain.specs.Rows.{IsSpot};

use net_form::{Ends, MemPair, Net, Taken};
use pra_base::Place;
use pra_base::places::allows;

/// A layer of a strand.
#[derive(Clone, Copy, Debug, Drop)]
pub(crate) struct Spot {
    pub strand: usize,
    pub layer: u32,
}

// Whether the place is in the strand's mask.
fn is_in_mask(net: &Net, spot: Spot, place: Place) -> bool
    requires net { IsFormed net.now }
    requires spot { IsSpot net.now spot }
    ensures { result ≡ in_mask net.now (edge spot.strand spot.layer None place) }
{
    let strand = &net.strands[spot.strand];
    allows(strand.masks[(spot.layer - strand.first) as usize], place)
}

// Whether the place is the one that is wanted, if any is.
fn suits(wanted: Option<Place>, place: Place) -> bool
    ensures { result ≡ wants wanted place }
{
    match wanted {
        None => true,
        Some(other) => other.number() == place.number(),
    }
}

// Whether a path that is there begins and ends where it has to.
fn suits_ends(net: &Net, ends: Ends, spot: Spot, place: Place) -> bool
    requires spot { IsSpot net.now spot }
    ensures { result ≡ suits_ends ends (strand_at net.now spot.strand)
        (edge spot.strand spot.layer None place) }
{
    let strand = &net.strands[spot.strand];
    let begins = spot.layer != strand.first || suits(ends.first, place);
    let stops = spot.layer != strand.last || suits(ends.last, place);
    begins && stops
}

// Whether the register of the place, if it has one, is not in use there.
fn is_register_free(net: &Net, taken: &Taken, spot: Spot, place: Place) -> bool
    requires net { IsFormed net.now }
    requires taken { IsRoomOf net.now taken.now }
    requires spot { IsSpot net.now spot }
    ensures { result ≡ register_free net.now taken.now (edge spot.strand spot.layer None place) }
{
    if !place.has_register() {
        return true;
    }
    let layer = net.entry_layer(spot.strand) as usize + spot.layer as usize;
    (taken.regs[layer] >> place.register()) & 1 == 0
}

/// Whether who is at the place there brings an end of a memory pair to memory.
pub(crate) fn uses_memory(pair: MemPair, spot: Spot, place: Place) -> bool
    ensures { result ≡ uses_memory pair (edge spot.strand spot.layer None place) }
{
    let left = spot.strand == pair.left as usize && spot.layer == pair.left_layer;
    let right = spot.strand == pair.right as usize && spot.layer == pair.right_layer;
    (left || right) && place.is_mem()
}

// Whether the pair is in use, and would be used.
fn is_pair_in_use(net: &Net, taken: &Taken, spot: Spot, place: Place, pair: usize) -> bool
    requires taken { IsRoomOf net.now taken.now }
    requires pair { pair < length net.now.pairs }
    ensures { result ≡
        (uses_memory (pair_at net.now pair) (edge spot.strand spot.layer None place) &&
        slice_index_or taken.now.mems pair false) }
{
    uses_memory(net.pairs[pair], spot, place) && taken.mems[pair]
}

// Whether no memory pair that would be used is in use.
fn are_pairs_free(net: &Net, taken: &Taken, spot: Spot, place: Place) -> bool
    requires taken { IsRoomOf net.now taken.now }
    ensures { result ≡ pairs_free net.now taken.now (edge spot.strand spot.layer None place) }
{
    for pair in 0..net.pairs.len() {
        if is_pair_in_use(net, taken, spot, place, pair) {
            return false;
        }
    }
    true
}

// Whether nothing that would be used is in use.
fn is_free(net: &Net, taken: &Taken, spot: Spot, place: Place) -> bool
    requires net { IsFormed net.now }
    requires taken { IsRoomOf net.now taken.now }
    requires spot { IsSpot net.now spot }
    ensures { result ≡ is_free net.now taken.now (edge spot.strand spot.layer None place) }
{
    is_register_free(net, taken, spot, place) && are_pairs_free(net, taken, spot, place)
}

/// Whether a path may be there.
pub(crate) fn is_open(net: &Net, ends: Ends, taken: &Taken, spot: Spot, place: Place) -> bool
    requires net { IsFormed net.now }
    requires taken { IsRoomOf net.now taken.now }
    requires spot { IsSpot net.now spot }
    ensures { result ≡ is_open net.now ends (is_free net.now taken.now) spot.strand
        (edge spot.strand spot.layer None place) }
{
    if !is_in_mask(net, spot, place) {
        return false;
    }
    suits_ends(net, ends, spot, place) && is_free(net, taken, spot, place)
}
