// The strands: for each variable the runs of layers of a block at which it is present.

ghost use Rattle.std.specs.Prelude.{◌≡◌, ◌≢◌, ℕ, ◌++◌, ◌<◌, ◌≤◌, ◌+◌, ◌-◌, ◌%◌, ◌&&◌, not, nat_eq};
ghost use Rattle.std.specs.Prelude.{[], nat_lt, length, map, true, IfOk, IfSome, IsTrue, OnOk};
ghost use Rattle.std.specs.Prelude.{option_to_list};
ghost use Rattle.std.specs.List.{range_with_len, list_any};
ghost use Rattle.pra_base.specs.Code.{kind_of};
ghost use Rattle.pra_base.specs.Valid.{IsSized};
ghost use Rattle.net_form.specs.Strands.{IsLive, roles_at, layer_count, begins, begun_strand};
ghost use Rattle.net_form.specs.Strands.{strand, run_from, mask_at, layer_strands, block_strands};
ghost use Rattle.net_form.specs.Strands.{strands, is_constant};
ghost use Rattle.net_form.specs.Tables.{all_tables};
ghost use Rattle.vc_code.specs.Rows.{roles_of};
ghost use Rattle.vc_live.specs.Rows.{live_at};
ghost use Rattle.net_build.specs.Runs.{run_masks};
ghost use Rattle.vc_live.specs.Least.{IsBelow, IsLeastFrom};

use crate::beside::{beside, is_present, own_places, present_mask, side};
use net_form::{Masks, Strand};
use pra_base::{BlockId, VProc, VarId, VarKind};
use pra_list::Seq;
use std::alloc::{AllocError, Global};
use vc_code::{Role, operands};
use vc_live::Liveness;

// How many layers a block has.
pub(crate) fn layer_count(code: &VProc, block: u32) -> u32
    requires sized { IsSized code.now }
    requires block { block < length code.now.blocks }
    ensures value { result ≡ layer_count code.now block }
    ensures few { result < 100000 }
{
    2 * code.blocks[block as usize].code.len() as u32 + 2
}

// Whether the variable is live at the layer; not asked where it is known to be.
fn is_live_at(live: &Liveness, block: u32, layer: u32, var: u32, known: bool) -> bool
    requires { IsTrue known → live_at live.now var block layer ≡ true }
    ensures { result ≡ live_at live.now var block layer }
{
    if known {
        return true;
    }
    live.at(VarId(var), BlockId(block), layer)
}

// Whether it is known by this layer that the variable is live at the next one: what is live behind
// an instruction is so before the next instruction too.
fn stays_live(is_live: bool, layer: u32) -> bool
    ensures { IsTrue result → IsTrue is_live × (layer % 2 ≡ 0) }
{
    if layer % 2 == 1 {
        return false;
    }
    is_live
}

// Where the variable may be at each layer of a run. It may be known to be live at the first one.
fn masks(
    alloc: Global,
    code: &VProc,
    live: &Liveness,
    block: u32,
    first: u32,
    var: u32,
    known: bool,
) -> Result<Masks, AllocError>
    requires sized { IsSized code.now }
    requires block { block < length code.now.blocks }
    requires var { var < length code.now.vars }
    requires first { first < layer_count code.now block }
    requires known { IsTrue known → live_at live.now var block first ≡ true }
    ensures { IfOk result (λ masks. masks ≡ run_masks code.now (live_at live.now) var block first) }
{
    let mut masks = Masks::new(alloc);
    let own = own_places(code.vars[var as usize]);
    let end = layer_count(code, block);
    let mut layer = first;
    let mut known = known;
    while layer < end {
        let is_live = is_live_at(live, block, layer, var, known);
        let Some(mask) = present_mask(code, live, block, layer, var, is_live, own) else {
            return Ok(masks);
        };
        masks.push(mask)?;
        known = stays_live(is_live, layer);
        layer += 1;
    }
    Ok(masks)
}

// Whether a run of the variable begins at the layer.
pub(crate) fn begins(code: &VProc, live: &Liveness, block: u32, layer: u32, var: u32) -> bool
    requires { block < length code.now.blocks }
    ensures { result ≡ begins all_tables code.now (live_at live.now) var block layer }
{
    if !is_present(code, live, block, layer, var) {
        return false;
    }
    layer == 0 || !is_present(code, live, block, layer - 1, var)
}

fn is_constant(kind: VarKind) -> bool
    ensures { result ≡ is_constant kind }
{
    matches!(kind, VarKind::Constant(_))
}

// The last of so many layers.
fn last_of(first: u32, count: usize) -> u32
    requires some { 0 < count }
    requires few { first + count < 100001 }
    ensures { result ≡ first + count - 1 }
{
    first + (count - 1) as u32
}

// The strand of the variable that begins at the layer, where it may be known to be live.
fn strand(
    alloc: Global,
    code: &VProc,
    live: &Liveness,
    block: u32,
    first: u32,
    var: u32,
    known: bool,
) -> Result<Strand, AllocError>
    requires sized { IsSized code.now }
    requires block { block < length code.now.blocks }
    requires var { var < length code.now.vars }
    requires first { first < layer_count code.now block }
    requires begins { begins all_tables code.now (live_at live.now) var block first ≡ true }
    requires known { IsTrue known → live_at live.now var block first ≡ true }
    ensures { IfOk result (λ made.
        made ≡ strand all_tables code.now (live_at live.now) var block first) }
{
    let masks = masks(alloc, code, live, block, first, var, known)?;
    Ok(Strand {
        var: VarId(var),
        block: BlockId(block),
        first,
        last: last_of(first, masks.len()),
        constant: is_constant(code.vars[var as usize]),
        masks,
        entry_group: None,
        exit_group: None,
    })
}

// Adds the strand of the variable that begins at the layer, where it may be known to be live.
fn add_strand(
    alloc: Global,
    code: &VProc,
    live: &Liveness,
    block: u32,
    layer: u32,
    var: u32,
    known: bool,
    out: &mut Seq<Strand>,
) -> Result<(), AllocError>
    requires sized { IsSized code.now }
    requires block { block < length code.now.blocks }
    requires var { var < length code.now.vars }
    requires layer { layer < layer_count code.now block }
    requires begins { begins all_tables code.now (live_at live.now) var block layer ≡ true }
    requires known { IsTrue known → live_at live.now var block layer ≡ true }
    ensures { OnOk result (out.new ≡ out.old ++
        option_to_list (begun_strand all_tables code.now (live_at live.now) block layer var)) }
{
    out.push(strand(alloc, code, live, block, layer, var, known)?)?;
    Ok(())
}

// Adds the strand of the variable that begins at the layer, if there is one.
fn add_begun(
    alloc: Global,
    code: &VProc,
    live: &Liveness,
    block: u32,
    layer: u32,
    var: u32,
    out: &mut Seq<Strand>,
) -> Result<(), AllocError>
    requires sized { IsSized code.now }
    requires block { block < length code.now.blocks }
    requires var { var < length code.now.vars }
    requires layer { layer < layer_count code.now block }
    ensures { OnOk result (out.new ≡ out.old ++
        option_to_list (begun_strand all_tables code.now (live_at live.now) block layer var)) }
{
    if begins(code, live, block, layer, var) {
        add_strand(alloc, code, live, block, layer, var, false, out)?;
    }
    Ok(())
}

// The nearer of two variables from this one on and below the end.
pub(crate) fn nearer(least: Option<u32>, var: u32, from: u32, end: u32) -> Option<u32>
    requires { IfSome least (λ l. (from ≤ l) × (l < end)) }
    ensures within { IfSome result (λ l. (from ≤ l) × (l < end)) }
    ensures below { (v : ℕ) → from ≤ v → v < end → IsBelow v result → IsBelow v least × (var ≢ v) }
{
    if var < from || var >= end {
        return least;
    }
    match least {
        None => Some(var),
        Some(other) => Some(other.min(var)),
    }
}

// The least variable from this one on and below the end that has one of the roles.
pub(crate) fn least_from(roles: &[Role], from: u32, end: u32) -> Option<u32>
    ensures { IsLeastFrom (λ v. list_any (λ role. nat_eq role.var.0 v) roles.now) from end result }
{
    let mut least = None;
    let mut rest = roles;
    while let [role, others @ ..] = rest {
        least = nearer(least, role.var.0, from, end);
        rest = others;
    }
    least
}

// Adds the strands that begin at the entry of a block.
fn add_entry(
    alloc: Global,
    code: &VProc,
    live: &Liveness,
    block: u32,
    out: &mut Seq<Strand>,
) -> Result<(), AllocError>
    requires sized { IsSized code.now }
    requires block { block < length code.now.blocks }
    ensures { OnOk result (out.new ≡ out.old ++
        layer_strands all_tables code.now (live_at live.now) block 0) }
{
    let end = code.vars.len() as u32;
    let mut from = 0;
    while let Some(var) = live.next_at_entry(BlockId(block), from, end) {
        add_strand(alloc, code, live, block, 0, var, true, out)?;
        from = var + 1;
    }
    Ok(())
}

// Adds the strands that begin at a later layer, which are of variables with roles there.
fn add_roles(
    alloc: Global,
    code: &VProc,
    live: &Liveness,
    block: u32,
    layer: u32,
    roles: &[Role],
    out: &mut Seq<Strand>,
) -> Result<(), AllocError>
    requires sized { IsSized code.now }
    requires live { IsLive code.now (live_at live.now) }
    requires block { block < length code.now.blocks }
    requires after { 0 < layer }
    requires layer { layer < layer_count code.now block }
    requires roles { roles_of roles.now ≡ roles_at all_tables code.now block layer }
    ensures { OnOk result (out.new ≡ out.old ++
        layer_strands all_tables code.now (live_at live.now) block layer) }
{
    let end = code.vars.len() as u32;
    let mut from = 0;
    while let Some(var) = least_from(roles, from, end) {
        add_begun(alloc, code, live, block, layer, var, out)?;
        from = var + 1;
    }
    Ok(())
}

// Adds the strands that begin at a layer.
fn add_layer(
    alloc: Global,
    code: &VProc,
    live: &Liveness,
    block: u32,
    layer: u32,
    out: &mut Seq<Strand>,
) -> Result<(), AllocError>
    requires sized { IsSized code.now }
    requires live { IsLive code.now (live_at live.now) }
    requires block { block < length code.now.blocks }
    requires layer { layer < layer_count code.now block }
    ensures { OnOk result (out.new ≡ out.old ++
        layer_strands all_tables code.now (live_at live.now) block layer) }
{
    if layer == 0 {
        return add_entry(alloc, code, live, block, out);
    }
    match beside(code, block, layer) {
        None => add_roles(alloc, code, live, block, layer, &[], out),
        Some(instr) => {
            let row = operands(instr);
            add_roles(alloc, code, live, block, layer, side(&row, layer), out)
        }
    }
}

// Adds the strands of a block.
fn add_block(
    alloc: Global,
    code: &VProc,
    live: &Liveness,
    block: u32,
    out: &mut Seq<Strand>,
) -> Result<(), AllocError>
    requires sized { IsSized code.now }
    requires live { IsLive code.now (live_at live.now) }
    requires block { block < length code.now.blocks }
    ensures { OnOk result (out.new ≡ out.old ++
        block_strands all_tables code.now (live_at live.now) block) }
{
    for layer in 0..layer_count(code, block) {
        add_layer(alloc, code, live, block, layer, out)?;
    }
    Ok(())
}

// How many strands begin at the entry of a block.
fn entering(code: &VProc, live: &Liveness, block: u32) -> usize
    requires { IsSized code.now }
{
    let end = code.vars.len() as u32;
    let mut from = 0;
    let mut count = 0usize;
    while let Some(var) = live.next_at_entry(BlockId(block), from, end) {
        count = count.saturating_add(1);
        from = var + 1;
    }
    count
}

// Room for all strands: those that begin at entries, and two for each instruction. What is beyond
// is never touched; but a list that is as long as it has to be from the first has memory that was
// used before, where one that grows is moved to new pages.
fn room_for(alloc: Global, code: &VProc, live: &Liveness) -> Result<Seq<Strand>, AllocError>
    requires { IsSized code.now }
    ensures { IfOk result (λ made. made ≡ []) }
{
    let mut most = 0usize;
    for block in 0..code.blocks.len() as u32 {
        let instructions = code.blocks[block as usize].code.len();
        most = most.saturating_add(entering(code, live, block));
        most = most.saturating_add(instructions.saturating_mul(2));
    }
    Ok(Seq::from_vec(Vec::with_capacity(alloc, most)?))
}

// All strands, without their groups.
pub fn strands_of(alloc: Global, code: &VProc, live: &Liveness) -> Result<Seq<Strand>, AllocError>
    requires sized { IsSized code.now }
    requires live { IsLive code.now (live_at live.now) }
    ensures { IfOk result (λ made. made ≡ strands all_tables code.now (live_at live.now)) }
{
    let mut out = room_for(alloc, code, live)?;
    for block in 0..code.blocks.len() as u32 {
        add_block(alloc, code, live, block, &mut out)?;
    }
    Ok(out)
}
