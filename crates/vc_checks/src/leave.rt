// All of it.

ghost use Rattle.std.specs.Prelude.{◌≡◌, IfOk, IfErr, IfSome};
ghost use Rattle.pra_base.specs.Valid.{IsSized, IsValid};
ghost use Rattle.vc_same.specs.SameRuns.{Preserves};
ghost use Rattle.vc_checks.specs.LeftOut.{LeavesOut, with_blocks};

use crate::flow::blocks_without;
use crate::search::{find_facts, wanted_variables};
use pra_base::{Block, VInstr, VProc};
use pra_list::Seq;
use std::alloc::{AllocError, Global};

fn has_checks(code: &VProc) -> bool {
    for block in code.blocks.as_slice() {
        for instr in block.code.as_slice() {
            if let VInstr::Check(_, _) | VInstr::CheckPos(_) = *instr {
                return true;
            }
        }
    }
    false
}

/// The blocks without checks that cannot fail, or nothing where all stays.
///
/// # Errors
///
/// Where there is no memory.
pub fn blocks_left(alloc: Global, code: &VProc) -> Result<Option<Vec<Block>>, AllocError>
    ensures { IfOk result (λ new. IfSome new (λ blocks.
        LeavesOut code.now (with_blocks code.now blocks.items))) }
{
    if !has_checks(code) {
        return Ok(None);
    }
    let wanted = wanted_variables(alloc, code)?;
    let begins = find_facts(alloc, code, wanted.as_slice())?;
    let blocks = blocks_without(alloc, code, wanted.as_slice(), begins.as_slice())?;
    Ok(blocks)
}

/// The code without checks that cannot fail, which may stand in its place.
///
/// # Errors
///
/// The unchanged code, where there is no memory.
pub fn leave_out_checks(alloc: Global, code: VProc) -> Result<VProc, VProc>
    requires valid { IsValid code }
    requires sized { IsSized code }
    ensures preserves { IfOk result (λ new. Preserves code new) }
    ensures leaves { IfOk result (λ new. LeavesOut code new) }
    ensures unchanged { IfErr result (λ old. old ≡ code) }
{
    match blocks_left(alloc, &code) {
        Ok(Some(blocks)) => {
            let VProc {
                id,
                args,
                aggregates,
                vars,
                blocks: _,
            } = code;
            Ok(VProc {
                id,
                args,
                aggregates,
                vars,
                blocks: Seq::from_vec(blocks),
            })
        }
        Ok(None) => Ok(code),
        Err(_) => Err(code),
    }
}
