// How far the search of a round goes, so that a round of any module ends in seconds.

ghost use Rattle.std.specs.Prelude.{◌≤◌, length, IfOk};
ghost use Rattle.pra_compile.specs.Visits.{AreShares};

use cert_form::NamedCode;
use pra_base::{OutOfMemory, VProc};
use std::alloc::Global;

// Visits at most of a round of all procedures together. What a round does whether or not it
// searches goes over each layer too, and counts as one.
const MODULE_VISITS: u64 = 20_000_000;

// The same of one of them, and what each may make, however small a part it is.
const PROCEDURE_VISITS: u64 = 5_000_000;

const LEAST_VISITS: u64 = 200_000;

// As many layers as the network of a procedure has at most, about: all variables at each place.
fn size_of(code: &VProc) -> u64 {
    let mut instructions: u64 = 1;
    for block in code.blocks.as_slice() {
        instructions = instructions.saturating_add(block.code.len() as u64);
    }
    instructions.saturating_mul(code.vars.len() as u64)
}

// The sizes of all procedures together, and one.
fn size_of_all(procs: &[NamedCode]) -> u64 {
    let mut all: u64 = 1;
    for named in procs {
        all = all.saturating_add(size_of(&named.code));
    }
    all
}

// The share of a procedure of this size in the visits that are left of the module's, where all
// sizes come to so much.
fn share_of(size: u64, left: u64, all: u64) -> u64
    ensures least { 200000 ≤ result }
    ensures most { result ≤ 5000000 }
{
    let part = left.saturating_mul(size);
    let share = part.checked_div(all).unwrap_or(0);
    share.clamp(LEAST_VISITS, PROCEDURE_VISITS)
}

/// How many visits a round of each procedure makes at most: those of the module, shared out by
/// size.
///
/// # Errors
///
/// Where there is no memory for it.
pub fn shared_visits(alloc: Global, procs: &[NamedCode]) -> Result<Vec<u64>, OutOfMemory>
    ensures { IfOk result (λ visits. AreShares (length procs.now) visits.items) }
{
    let all = size_of_all(procs);
    let left = MODULE_VISITS.saturating_sub(all);
    let mut visits = Vec::with_capacity(alloc, procs.len())?;
    for named in procs {
        visits.push(share_of(size_of(&named.code), left, all))?;
    }
    Ok(visits)
}
