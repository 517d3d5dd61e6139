// The network of code.

ghost use Rattle.std.specs.Prelude.{IfOk};
ghost use Rattle.net_form.specs.Network.{IsNet};
ghost use Rattle.pra_base.specs.Valid.{IsSized, IsValid};

use crate::refusal::Refusal;
use net_build::build;
use net_form::Net;
use pra_base::VProc;
use std::alloc::Global;
use vc_live::{is_sized, live};
use vc_valid::is_valid;

/// The network of code, which has to be sized and valid.
pub(crate) fn network(alloc: Global, code: &VProc) -> Result<Net, Refusal>
    ensures sized { IfOk result (λ net. IsSized code.now) }
    ensures valid { IfOk result (λ net. IsValid code.now) }
    ensures net { IfOk result (λ net. IsNet net code.now) }
{
    if !is_sized(code) {
        return Err(Refusal::Size);
    }
    let live = live(alloc, code)?;
    if !is_valid(code, &live) {
        return Err(Refusal::Rules);
    }
    Ok(build(alloc, code, &live)?)
}
