// The rules of all variables and all blocks together.

ghost use Rattle.std.specs.Prelude.{◌≡◌, ◌≢◌, ◌<◌, ◌↔◌, ℕ, IsTrue, Some, length, slice_get};
ghost use Rattle.pra_base.specs.Code.{block_in};
ghost use Rattle.pra_base.specs.Valid.{IsSized, IsValid, LiveAtEntry};
ghost use Rattle.vc_live.specs.Rows.{IsLiveness};

use crate::blocks::{keep_blocks, keep_rules};
use crate::instructions::is_no_param;
use pra_base::{Block, BlockId, VInstr, VProc, VarId, VarKind};
use vc_live::Liveness;

// Whether no two parameters name one argument.
fn are_params_apart(vars: &[VarKind]) -> bool
    ensures { IsTrue result ↔ ((v w i : ℕ) → slice_get vars.now v ≡ Some (VarKind.Param i) →
        slice_get vars.now w ≡ Some (VarKind.Param i) → v ≡ w) }
{
    for var in 0..vars.len() {
        if let VarKind::Param(argument) = vars[var] {
            if !is_no_param(vars, var + 1, argument) {
                return false;
            }
        }
    }
    true
}

fn is_param(kind: VarKind) -> bool
    ensures { IsTrue result ↔ ((i : ℕ) × (kind ≡ VarKind.Param i)) }
{
    match kind {
        VarKind::Param(_) => true,
        _ => false,
    }
}

// Whether only parameters are live at the entry.
fn are_params_live(code: &VProc, live: &Liveness) -> bool
    requires sized { IsSized code.now }
    requires live { IsLiveness code.now live.now }
    requires some { 0 < length code.now.blocks }
    ensures { IsTrue result ↔ LiveAtEntry code.now }
{
    for var in 0..code.vars.len() {
        if live.at(VarId(var as u32), BlockId(0), 0) && !is_param(code.vars[var]) {
            return false;
        }
    }
    true
}

// Whether Clear stands first where there are aggregates.
fn has_clear(aggregates: u32, blocks: &[Block]) -> bool
    requires { 0 < length blocks.now }
    ensures { IsTrue result ↔ (aggregates ≢ 0 →
        slice_get (block_in blocks.now 0).code 0 ≡ Some VInstr.Clear) }
{
    if aggregates == 0 {
        return true;
    }
    match blocks[0].code.as_slice() {
        [VInstr::Clear, ..] => true,
        _ => false,
    }
}

/// Whether sized code, whose liveness this is, is valid.
pub fn is_valid(code: &VProc, live: &Liveness) -> bool
    requires sized { IsSized code.now }
    requires live { IsLiveness code.now live.now }
    ensures { IsTrue result ↔ IsValid code.now }
{
    if code.blocks.is_empty() {
        return false;
    }
    let blocks = code.blocks.as_slice();
    if !keep_blocks(blocks) {
        return false;
    }
    if !has_clear(code.aggregates, blocks) {
        return false;
    }
    if !are_params_apart(code.vars.as_slice()) {
        return false;
    }
    if !are_params_live(code, live) {
        return false;
    }
    keep_rules(code, live)
}
