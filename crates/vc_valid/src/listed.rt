// Code as procedure of a list.

ghost use Rattle.std.specs.Prelude.{IfOk, MatchOption};
ghost use Rattle.vc_live.specs.Rows.{IsLiveness};
ghost use Rattle.vc_valid.specs.Listed.{HasCode};

use crate::blocks::is_counted;
use crate::whole::is_valid;
use pra_base::{OutOfMemory, VProc};
use std::alloc::Global;
use vc_live::{Liveness, is_sized, live};

/// The liveness of code that is what procedure `number` of a list has to be, whose procedures take
/// so many arguments; `None` where it is not.
///
/// # Errors
///
/// Where there is no memory for the liveness.
pub fn liveness_of_valid(
    alloc: Global,
    counts: &[u32],
    number: u32,
    code: &VProc,
) -> Result<Option<Liveness>, OutOfMemory>
    ensures { IfOk result (λ live. MatchOption live (HasCode counts.now number code.now → ⊥)
        (λ l. HasCode counts.now number code.now × IsLiveness code.now l)) }
{
    if code.id.0 != number {
        return Ok(None);
    }
    if !is_sized(code) {
        return Ok(None);
    }
    let live = live(alloc, code)?;
    if !is_valid(code, &live) {
        return Ok(None);
    }
    if !is_counted(code, counts) {
        return Ok(None);
    }
    Ok(Some(live))
}
