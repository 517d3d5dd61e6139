// The reason Code, whether a procedure has code that its list can run, and the first part of the
// reason Routes, for which no network is needed.

ghost use Rattle.std.specs.Prelude.{◌≡◌, IfOk};
ghost use Rattle.cert_check.specs.Reasons.{counts_in, IsFound};

use crate::check::Reason;
use cert_form::Cert;
use net_build::{build, has_places};
use net_form::Net;
use pra_base::OutOfMemory;
use pra_list::Seq;
use std::alloc::Global;
use vc_valid::liveness_of_valid;

/// How many arguments each procedure takes.
pub(crate) fn counts_of(alloc: Global, procs: &[Cert]) -> Result<Seq<u32>, OutOfMemory>
    ensures { IfOk result (λ counts. counts ≡ counts_in procs.now) }
{
    let mut counts = Vec::with_capacity(alloc, procs.len())?;
    for cert in procs {
        counts.push(cert.code.args)?;
    }
    Ok(Seq::from_vec(counts))
}

/// What is found of a procedure before a network is looked at.
#[derive(Debug, Drop)]
pub(crate) enum Found {
    /// Why no network is needed: its code is not what it has to be, or its routes have not one
    /// place for each strand and layer.
    Fails(Reason),
    /// The network of its code.
    Made(Net),
}

/// What is found of procedure `number`. A network is made only where there is a place in the
/// certificate for each of its layers, so it is no larger than the text was.
pub(crate) fn network_of(
    alloc: Global,
    counts: &[u32],
    number: u32,
    cert: &Cert,
) -> Result<Found, OutOfMemory>
    ensures { IfOk result (IsFound counts.now number cert.now) }
{
    let code = &cert.code;
    let Some(live) = liveness_of_valid(alloc, counts, number, code)? else {
        return Ok(Found::Fails(Reason::Code));
    };
    if !has_places(code, &live, &cert.routes.places) {
        return Ok(Found::Fails(Reason::Routes));
    }
    Ok(Found::Made(build(alloc, code, &live)?))
}
