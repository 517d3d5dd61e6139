// The ends that ties join in one group.

ghost use Rattle.std.specs.Prelude.{◌≡◌, ◌<◌, ◌≤◌, ◌-◌, ◌*◌, length, take, drop};
ghost use Rattle.std.specs.Prelude.{if◌then◌else◌, Some, None, All, ◌&&◌, not};
ghost use Rattle.pra_base.specs.declared.ids.Place.{Place as AnyPlace};
ghost use Rattle.net_form.specs.Admitted.{strand_at};
ghost use Rattle.net_form.specs.Formed.{IsFormed};
ghost use Rattle.net_form.specs.Rooms.{layer_total};
ghost use Rattle.net_laws.specs.Homes.{mask_in};
ghost use Rattle.al_laws.specs.Greedy.{is_group, group_ends};
ghost use Rattle.al_laws.specs.Parts.{layer_at};
ghost use Rattle.al_edge.specs.GroupEnds.{ends_of, end_layer, counts};

use net_form::{BlockEnd, Ends, Net, TieEnd};
use pra_base::{Mask, Place};

fn part(ends: &[TieEnd], start: usize, stop: usize) -> &[TieEnd]
    requires order { start ≤ stop }
    requires within { stop ≤ length ends.now }
    ensures { result.now ≡ take (stop - start) (drop start ends.now) }
{
    &ends[start..stop]
}

/// The ends of a tie group, by strand, and of a strand the entry first.
pub(crate) fn ends_of(net: &Net, group: u32) -> &[TieEnd]
    requires net { IsFormed net.now }
    requires group { group < net.now.groups }
    ensures value { result.now ≡ ends_of net.now group }
    ensures there { All (λ e. e.strand < length net.now.strands) result.now }
    ensures few { length result.now ≤ 2 * length net.now.strands }
{
    let start = net.index.groups[group as usize];
    let stop = net.index.groups[group as usize + 1];
    part(net.index.members.as_slice(), start as usize, stop as usize)
}

// The layer of an end, within its block.
fn end_layer(net: &Net, end: TieEnd) -> u32
    requires strand { end.strand < length net.now.strands }
    ensures { result ≡ end_layer net.now end }
{
    let strand = &net.strands[end.strand as usize];
    match end.end {
        BlockEnd::Entry => strand.first,
        BlockEnd::Exit => strand.last,
    }
}

/// The layer of an end, where the layers of all blocks are counted together.
pub(crate) fn layer_of(net: &Net, end: TieEnd) -> u32
    requires net { IsFormed net.now }
    requires strand { end.strand < length net.now.strands }
    ensures value { result ≡ layer_at net.now end.strand (end_layer net.now end) }
    ensures within { result < layer_total net.now.blocks }
{
    net.entry_layer(end.strand as usize) + end_layer(net, end)
}

/// Where the strand may be at its end.
pub(crate) fn mask_of(net: &Net, end: TieEnd) -> Mask
    requires net { IsFormed net.now }
    requires strand { end.strand < length net.now.strands }
    ensures { result ≡ mask_in (strand_at net.now end.strand) (end_layer net.now end) }
{
    let strand = &net.strands[end.strand as usize];
    strand.masks[(end_layer(net, end) - strand.first) as usize]
}

fn is_in(group: u32, of_end: Option<u32>) -> bool
    ensures { result ≡ is_group group of_end }
{
    match of_end {
        Some(other) => other == group,
        None => false,
    }
}

/// Whether it is the first end of its strand that is in the group, so that the strand is counted
/// here.
pub(crate) fn counts(net: &Net, group: u32, end: TieEnd) -> bool
    requires strand { end.strand < length net.now.strands }
    ensures { result ≡ counts net.now group end }
{
    match end.end {
        BlockEnd::Entry => true,
        BlockEnd::Exit => !is_in(group, net.strands[end.strand as usize].entry_group),
    }
}

/// Whether a strand's entry is in the group, and its exit is not.
pub(crate) fn enters_alone(net: &Net, group: u32, strand: u32) -> bool
    requires strand { strand < length net.now.strands }
    ensures { result ≡ (is_group group (strand_at net.now strand).entry_group &&
        not (is_group group (strand_at net.now strand).exit_group)) }
{
    let strand = &net.strands[strand as usize];
    is_in(group, strand.entry_group) && !is_in(group, strand.exit_group)
}

/// Whether a strand's exit is in the group, and its entry is not; and it is no constant.
pub(crate) fn leaves_alone(net: &Net, group: u32, strand: u32) -> bool
    requires strand { strand < length net.now.strands }
    ensures { result ≡ (not (is_group group (strand_at net.now strand).entry_group) &&
        is_group group (strand_at net.now strand).exit_group &&
        not (strand_at net.now strand).constant) }
{
    let strand = &net.strands[strand as usize];
    !is_in(group, strand.entry_group) && is_in(group, strand.exit_group) && !strand.constant
}

/// Whether both ends of a strand are in the group.
pub(crate) fn goes_round(net: &Net, group: u32, strand: u32) -> bool
    requires strand { strand < length net.now.strands }
    ensures { result ≡ (is_group group (strand_at net.now strand).entry_group &&
        is_group group (strand_at net.now strand).exit_group) }
{
    let strand = &net.strands[strand as usize];
    is_in(group, strand.entry_group) && is_in(group, strand.exit_group)
}

fn wanted(group: u32, place: Place, of_end: Option<u32>) -> Option<Place>
    ensures { result ≡ (if is_group group of_end then Some place else None) }
{
    if is_in(group, of_end) {
        Some(place)
    } else {
        None
    }
}

/// The strand's ends in the group at a place, and its other end free.
pub(crate) fn group_ends(net: &Net, group: u32, place: Place, strand: u32) -> Ends
    requires strand { strand < length net.now.strands }
    ensures { result ≡ group_ends net.now group place strand }
{
    let strand = &net.strands[strand as usize];
    Ends {
        first: wanted(group, place, strand.entry_group),
        last: wanted(group, place, strand.exit_group),
    }
}
