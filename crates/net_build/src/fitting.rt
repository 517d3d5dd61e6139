// Whether lists of places are as many and as long as the strands, told without making strands: it
// takes time by the code and the lists, however many strands there would be.

ghost use Rattle.std.specs.Prelude.{◌≡◌, ◌↔◌, ◌<◌, length, true, option_to_list, IsTrue};
ghost use Rattle.pra_base.specs.Valid.{IsSized};
ghost use Rattle.net_form.specs.Flow.{HasPlaces};
ghost use Rattle.net_form.specs.Strands.{IsLive, roles_at, layer_count, begins, begun_strand};
ghost use Rattle.net_form.specs.Strands.{run_from, layer_strands, block_strands, strands};
ghost use Rattle.net_form.specs.Tables.{all_tables};
ghost use Rattle.vc_code.specs.Rows.{roles_of};
ghost use Rattle.vc_live.specs.Rows.{live_at, IsLiveness};
ghost use Rattle.net_build.specs.Fitting.{behind};

use crate::beside::{beside, is_present, side};
use crate::strands::{begins, layer_count, least_from};
use pra_base::{BlockId, Place, VProc};
use pra_packed::Packed;
use vc_code::{Role, operands};
use vc_live::Liveness;

// For how many layers from this one on the variable is present.
fn run_from(code: &VProc, live: &Liveness, block: u32, first: u32, var: u32) -> u32
    requires sized { IsSized code.now }
    requires block { block < length code.now.blocks }
    requires first { first < layer_count code.now block }
    ensures { result ≡ run_from all_tables code.now (live_at live.now) var block first }
{
    let end = layer_count(code, block);
    let mut layer = first;
    while layer < end && is_present(code, live, block, layer, var) {
        layer += 1;
    }
    layer - first
}

// The number of the list behind that of the strand of the variable that begins at the layer, whose
// own number this is: the same one where none begins, and none where its list is not as long.
fn pass_begun(
    code: &VProc,
    live: &Liveness,
    block: u32,
    layer: u32,
    var: u32,
    lists: &Packed<Place>,
    number: usize,
) -> Option<usize>
    requires sized { IsSized code.now }
    requires block { block < length code.now.blocks }
    requires var { var < length code.now.vars }
    requires layer { layer < layer_count code.now block }
    ensures { result ≡ behind
        (option_to_list (begun_strand all_tables code.now (live_at live.now) block layer var))
        lists.now number }
{
    if !begins(code, live, block, layer, var) {
        return Some(number);
    }
    if number >= lists.len() {
        return None;
    }
    if lists.at(number).len() != run_from(code, live, block, layer, var) as usize {
        return None;
    }
    Some(number + 1)
}

// The same over the strands that begin at the entry of a block.
fn pass_entry(
    code: &VProc,
    live: &Liveness,
    block: u32,
    lists: &Packed<Place>,
    number: usize,
) -> Option<usize>
    requires sized { IsSized code.now }
    requires block { block < length code.now.blocks }
    ensures { result ≡
        behind (layer_strands all_tables code.now (live_at live.now) block 0) lists.now number }
{
    let end = code.vars.len() as u32;
    let mut from = 0;
    let mut next = number;
    while let Some(var) = live.next_at_entry(BlockId(block), from, end) {
        next = pass_begun(code, live, block, 0, var, lists, next)?;
        from = var + 1;
    }
    Some(next)
}

// The same over those that begin at a later layer, which are of variables with roles there.
fn pass_roles(
    code: &VProc,
    live: &Liveness,
    block: u32,
    layer: u32,
    roles: &[Role],
    lists: &Packed<Place>,
    number: usize,
) -> Option<usize>
    requires sized { IsSized code.now }
    requires live { IsLive code.now (live_at live.now) }
    requires block { block < length code.now.blocks }
    requires after { 0 < layer }
    requires layer { layer < layer_count code.now block }
    requires roles { roles_of roles.now ≡ roles_at all_tables code.now block layer }
    ensures { result ≡
        behind (layer_strands all_tables code.now (live_at live.now) block layer) lists.now number }
{
    let end = code.vars.len() as u32;
    let mut from = 0;
    let mut next = number;
    while let Some(var) = least_from(roles, from, end) {
        next = pass_begun(code, live, block, layer, var, lists, next)?;
        from = var + 1;
    }
    Some(next)
}

// The same over those that begin at a layer.
fn pass_layer(
    code: &VProc,
    live: &Liveness,
    block: u32,
    layer: u32,
    lists: &Packed<Place>,
    number: usize,
) -> Option<usize>
    requires sized { IsSized code.now }
    requires live { IsLive code.now (live_at live.now) }
    requires block { block < length code.now.blocks }
    requires layer { layer < layer_count code.now block }
    ensures { result ≡
        behind (layer_strands all_tables code.now (live_at live.now) block layer) lists.now number }
{
    if layer == 0 {
        return pass_entry(code, live, block, lists, number);
    }
    match beside(code, block, layer) {
        None => pass_roles(code, live, block, layer, &[], lists, number),
        Some(instr) => {
            let row = operands(instr);
            pass_roles(code, live, block, layer, side(&row, layer), lists, number)
        }
    }
}

// The same over those of a block.
fn pass_block(
    code: &VProc,
    live: &Liveness,
    block: u32,
    lists: &Packed<Place>,
    number: usize,
) -> Option<usize>
    requires sized { IsSized code.now }
    requires live { IsLive code.now (live_at live.now) }
    requires block { block < length code.now.blocks }
    ensures { result ≡
        behind (block_strands all_tables code.now (live_at live.now) block) lists.now number }
{
    let mut next = number;
    for layer in 0..layer_count(code, block) {
        next = pass_layer(code, live, block, layer, lists, next)?;
    }
    Some(next)
}

// The number of the list behind those of all strands.
fn pass_all(code: &VProc, live: &Liveness, lists: &Packed<Place>) -> Option<usize>
    requires sized { IsSized code.now }
    requires live { IsLive code.now (live_at live.now) }
    ensures { result ≡ behind (strands all_tables code.now (live_at live.now)) lists.now 0 }
{
    let mut next = 0;
    for block in 0..code.blocks.len() as u32 {
        next = pass_block(code, live, block, lists, next)?;
    }
    Some(next)
}

/// Whether there is a list for each strand of the code, whose liveness this is, with a place for
/// each of its layers.
///
/// It takes no memory. From the first list that does not fit on nothing is looked at.
pub fn has_places(code: &VProc, live: &Liveness, lists: &Packed<Place>) -> bool
    requires sized { IsSized code.now }
    requires live { IsLiveness code.now live.now }
    ensures { IsTrue result ↔
        HasPlaces (strands all_tables code.now (live_at live.now)) lists.now }
{
    match pass_all(code, live, lists) {
        Some(number) => number == lists.len(),
        None => false,
    }
}
