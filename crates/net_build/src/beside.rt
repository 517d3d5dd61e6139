// Instructions beside layers: the roles there, what is present, and where it may be.

ghost use Rattle.std.specs.Prelude.{◌≡◌, ◌<◌, ◌&&◌, ◌||◌, not, length, fold, nat_eq, Some, None};
ghost use Rattle.std.specs.Prelude.{if◌then◌else◌};
ghost use Rattle.std.specs.List.{list_any};
ghost use Rattle.std.specs.Option.{option_copied};
ghost use Rattle.pra_base.specs.Code.{kind_of};
ghost use Rattle.pra_base.specs.Operands.{is_role_of, meets, own_places};
ghost use Rattle.net_form.specs.Strands.{beside, across, is_before, is_present, roles_at, mask_at};
ghost use Rattle.net_form.specs.Strands.{is_param, met_mask, clobbered, roles_beside};
ghost use Rattle.pra_base.specs.Operands as table;
ghost use Rattle.pra_base.specs.Places.{without};
ghost use Rattle.net_form.specs.Tables.{all_tables};
ghost use Rattle.vc_code.specs.Rows.{roles_of, row_of};
ghost use Rattle.vc_live.specs.Rows.{live_at};
ghost use Rattle.net_build.specs.Runs.{present_mask};

use crate::naming::has_role_beside;
use pra_base::places::{BOTH_PLACES, CONSTANT, MEMORY, REGISTERS, meet, without};
use pra_base::{BlockId, Mask, VInstr, VProc, VarId, VarKind};
use vc_code::{OperandRow, Role, operands};
use vc_live::Liveness;

// The instruction beside a layer; the entry and the exit have none.
pub(crate) fn beside(code: &VProc, block: u32, layer: u32) -> Option<&VInstr>
    requires { block < length code.now.blocks }
    ensures { option_copied result ≡ beside code.now block layer }
{
    if layer == 0 {
        return None;
    }
    code.blocks[block as usize]
        .code
        .get(((layer - 1) / 2) as usize)
}

// The layer on the other side of the instruction.
fn across(layer: u32) -> u32
    requires { layer < 100000 }
    ensures { result ≡ across layer }
{
    if layer % 2 == 1 {
        layer + 1
    } else {
        layer.saturating_sub(1)
    }
}

// The roles of a row at a layer: what is read before the instruction, what is written after it.
pub(crate) fn side(row: &OperandRow, layer: u32) -> &[Role]
    ensures { roles_of result.now ≡
        (if is_before layer then (row_of row.now).reads else (row_of row.now).writes) }
{
    if layer % 2 == 1 {
        row.reads.as_slice()
    } else {
        row.writes.as_slice()
    }
}

// Whether the variable has a role at a layer.
pub(crate) fn is_role(code: &VProc, block: u32, layer: u32, var: u32) -> bool
    requires { block < length code.now.blocks }
    ensures { result ≡ list_any (is_role_of var) (roles_at all_tables code.now block layer) }
{
    match beside(code, block, layer) {
        None => false,
        Some(instr) => has_role_beside(instr, layer, var),
    }
}

// Whether the variable is live at a layer, or has just been written.
pub(crate) fn is_present(code: &VProc, live: &Liveness, block: u32, layer: u32, var: u32) -> bool
    requires { block < length code.now.blocks }
    ensures { result ≡ is_present all_tables code.now (live_at live.now) var block layer }
{
    if live.at(VarId(var), BlockId(block), layer) {
        return true;
    }
    layer % 2 == 0 && is_role(code, block, layer, var)
}

// A variable's own places.
pub(crate) fn own_places(kind: VarKind) -> Mask
    ensures { result ≡ own_places kind }
{
    match kind {
        VarKind::Constant(_) => REGISTERS | CONSTANT,
        VarKind::Plain => REGISTERS | BOTH_PLACES | MEMORY,
        VarKind::Param(_) => REGISTERS | BOTH_PLACES | MEMORY,
    }
}

// A mask, met with the masks of the variable's roles.
fn met_mask(roles: &[Role], var: u32, own: Mask) -> Mask
    ensures { result ≡ fold (meets var) own (roles_of roles.now) }
{
    let mut mask = own;
    let mut rest = roles;
    while let [role, others @ ..] = rest {
        if role.var.0 == var {
            mask = meet(mask, role.mask);
        }
        rest = others;
    }
    mask
}

// Whether the variable is a parameter at the procedure's entry.
fn comes_in_memory(kind: VarKind, block: u32, layer: u32) -> bool
    ensures { result ≡ (is_param kind && nat_eq block 0 && nat_eq layer 0) }
{
    match kind {
        VarKind::Param(_) => block == 0 && layer == 0,
        _ => false,
    }
}

// A variable's own places, met with the masks of its roles beside an instruction, where it is told
// whether it has any. Most variables have none there, and the operand table is not asked.
fn met_beside(instr: &VInstr, layer: u32, var: u32, own: Mask, named: bool) -> Mask
    requires { named ≡ list_any (is_role_of var)
        (roles_beside (is_before layer) table.operands (Some instr.now)) }
    ensures { result ≡
        fold (meets var) own (roles_beside (is_before layer) table.operands (Some instr.now)) }
{
    if named {
        let row = operands(instr);
        met_mask(side(&row, layer), var, own)
    } else {
        own
    }
}

// The registers that the instruction destroys.
fn clobbers_of(instr: &VInstr) -> u8
    ensures { result ≡ (table.operands instr.now).clobbers }
{
    match instr {
        VInstr::Call(_) => operands(instr).clobbers,
        VInstr::Clear => operands(instr).clobbers,
        _ => 0,
    }
}

// The registers that the instruction destroys, where the variable is on both of its sides.
fn clobbered_beside(
    code: &VProc,
    live: &Liveness,
    block: u32,
    layer: u32,
    var: u32,
    instr: &VInstr,
) -> u8
    requires block { block < length code.now.blocks }
    requires layer { layer < 100000 }
    requires instr { beside code.now block layer ≡ Some instr.now }
    ensures { result ≡ clobbered all_tables code.now (live_at live.now) var block layer }
{
    let clobbers = clobbers_of(instr);
    if clobbers == 0 {
        return 0;
    }
    if is_present(code, live, block, across(layer), var) {
        clobbers
    } else {
        0
    }
}

// The mask beside an instruction, where it is told whether the variable has a role there, and which
// places are its own.
fn mask_beside(
    code: &VProc,
    live: &Liveness,
    block: u32,
    layer: u32,
    var: u32,
    instr: &VInstr,
    named: bool,
    own: Mask,
) -> Mask
    requires block { block < length code.now.blocks }
    requires layer { layer < 100000 }
    requires own { own ≡ table.own_places (kind_of code.now var) }
    requires instr { beside code.now block layer ≡ Some instr.now }
    requires named { named ≡ list_any (is_role_of var)
        (roles_beside (is_before layer) table.operands (Some instr.now)) }
    ensures { result ≡ without (met_mask all_tables code.now var block layer)
        (clobbered all_tables code.now (live_at live.now) var block layer) }
{
    let met = met_beside(instr, layer, var, own, named);
    let clobbered = clobbered_beside(code, live, block, layer, var, instr);
    without(met, clobbered)
}

// The mask at a layer that has no instruction beside it, where it is told which places are its own.
fn mask_alone(code: &VProc, live: &Liveness, block: u32, layer: u32, var: u32, own: Mask) -> Mask
    requires var { var < length code.now.vars }
    requires instr { beside code.now block layer ≡ None }
    requires own { own ≡ table.own_places (kind_of code.now var) }
    ensures { result ≡ mask_at all_tables code.now (live_at live.now) var block layer }
{
    if comes_in_memory(code.vars[var as usize], block, layer) {
        return MEMORY;
    }
    without(own, 0)
}

// Whether the variable is present, by whether it is live and whether it has a role.
fn is_there(is_live: bool, layer: u32, named: bool) -> bool
    ensures { result ≡ (is_live || (not (is_before layer) && named)) }
{
    if is_live {
        return true;
    }
    layer % 2 == 0 && named
}

// Where the variable may be at a layer, if it is present. It is told whether it is live there, and
// which places are its own.
pub(crate) fn present_mask(
    code: &VProc,
    live: &Liveness,
    block: u32,
    layer: u32,
    var: u32,
    is_live: bool,
    own: Mask,
) -> Option<Mask>
    requires block { block < length code.now.blocks }
    requires var { var < length code.now.vars }
    requires layer { layer < 100000 }
    requires live { is_live ≡ live_at live.now var block layer }
    requires own { own ≡ table.own_places (kind_of code.now var) }
    ensures { result ≡ present_mask code.now (live_at live.now) var block layer }
{
    match beside(code, block, layer) {
        None => {
            if !is_live {
                return None;
            }
            Some(mask_alone(code, live, block, layer, var, own))
        }
        Some(instr) => {
            let named = has_role_beside(instr, layer, var);
            if !is_there(is_live, layer, named) {
                return None;
            }
            Some(mask_beside(code, live, block, layer, var, instr, named, own))
        }
    }
}
