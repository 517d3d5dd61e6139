// All of it, until nothing is left to do.

ghost use Rattle.std.specs.Prelude.{◌≡◌, IfOk, IfErr};
ghost use Rattle.pra_base.specs.Valid.{IsSized, IsValid};
ghost use Rattle.vc_same.specs.SameRuns.{Preserves};
ghost use Rattle.vc_tidy.specs.KindCounts.{KeepsKinds};
ghost use Rattle.vc_tidy.specs.Tidy.{IsTidy};
ghost use Rattle.vc_tidy.specs.Steps.{BecomesTidy, IsStep};

use crate::copies::join;
use crate::dead::thin;
use crate::unused::pack;
use pra_base::VProc;
use std::alloc::{AllocError, Global};
use vc_live::live;

// The code with less of what it does for nothing, or nothing where it is tidy. Variables that no
// instruction has go first, since the liveness of all takes time by their number.
fn step(alloc: Global, code: &VProc) -> Result<Option<VProc>, AllocError>
    requires valid { IsValid code.now }
    requires sized { IsSized code.now }
    ensures { IfOk result (λ new. IsStep code.now new) }
{
    if let Some(new) = pack(alloc, code)? {
        return Ok(Some(new));
    }
    let Ok(liveness) = live(alloc, code) else {
        return Err(AllocError);
    };
    if let Some(new) = thin(alloc, code, &liveness)? {
        return Ok(Some(new));
    }
    let new = join(alloc, code, &liveness)?;
    Ok(new)
}

// What is left out in one step may make more of the rest needless, so this asks until nothing is.
fn tidied(alloc: Global, code: &VProc) -> Result<Option<VProc>, AllocError>
    requires valid { IsValid code.now }
    requires sized { IsSized code.now }
    ensures { IfOk result (λ new. BecomesTidy code.now new) }
{
    let Some(mut now) = step(alloc, code)? else {
        return Ok(None);
    };
    while let Some(next) = step(alloc, &now)? {
        now = next;
    }
    Ok(Some(now))
}

/// Tidy code that may stand in the place of the code: without dead pure instructions, without
/// copies between variables that can be one, and without variables that nothing uses.
///
/// # Errors
///
/// The unchanged code, where there is no memory.
pub fn tidy(alloc: Global, code: VProc) -> Result<VProc, VProc>
    requires valid { IsValid code }
    requires sized { IsSized code }
    ensures preserves { IfOk result (λ new. Preserves code new) }
    ensures kinds { IfOk result (λ new. KeepsKinds code new) }
    ensures tidy { IfOk result (λ new. IsTidy new) }
    ensures unchanged { IfErr result (λ old. old ≡ code) }
{
    match tidied(alloc, &code) {
        Ok(Some(new)) => Ok(new),
        Ok(None) => Ok(code),
        Err(_) => Err(code),
    }
}
