// One procedure after the other, from code to image.

ghost use Rattle.std.specs.Prelude.{◌≡◌, ◌≢◌, ◌≤◌, ℕ, IfOk, IfErr, slice_get, Some};
ghost use Rattle.al_round.specs.Watches.{IsWatch, gap_of};
ghost use Rattle.net_cost.specs.Models.{Keeps, weights_of};
ghost use Rattle.pra_base.specs.declared.code.VProc.{VProc};
ghost use Rattle.pra_base.specs.Valid.{IsSized, IsValid};
ghost use Rattle.pra_compile.specs.Compiled.{IsRunnable, IsBuiltBy, IsBuilt, IsTooLong, codes_in};
ghost use Rattle.pra_compile.specs.Compiled.{wanted_of, granted};
ghost use Rattle.pra_compile.specs.CompiledProcs.{IsCompiledProc, IsFault};

use crate::allocator::{Allocated, Allocator};
use crate::granted::Granted;
use crate::output::{CompileFault, Compiled};
use crate::visits::shared_visits;
use al_round::{Verdict, Watch};
use cert_form::{CodeFile, NamedCode};
use ia_asm::CountedAssembly;
use net_cost::{CostModel, Event};
use net_form::Line;
use net_kept::KeptPrices;
use pl_build::place;
use pl_place::{LProc, frame_bytes};
use pra_base::{OutOfMemory, VProc};
use pra_list::Seq;
use pra_report::ProcOut;
use std::alloc::Global;

// What a procedure is compiled to.
#[derive(Debug, Drop)]
struct CompiledProc {
    out: ProcOut,
    placed: LProc,
}

// A procedure, from its code up to its placed code. Its network does not outlast it, and its prices
// are packed.
fn compile_procedure<A: Allocator>(
    alloc: Global,
    number: u32,
    named: NamedCode,
    allocator: &A,
) -> Result<CompiledProc, OutOfMemory>
    requires valid { IsValid named.code }
    requires sized { IsSized named.code }
    requires takes { A.takes allocator.now number named.code }
    ensures { IfOk result (IsCompiledProc (A.leaves allocator.now) number named) }
{
    let NamedCode { name, code } = named;
    let Allocated {
        net,
        routes,
        prices,
        lines,
    } = allocator.allocate(alloc, number, &code)?;
    let placed = place(alloc, &code, &net, &routes)?;
    let frame = frame_bytes(&placed);
    let prices = KeptPrices::of(alloc, prices)?;
    let out = ProcOut {
        name,
        frame,
        code,
        routes,
        prices,
        lines,
    };
    Ok(CompiledProc { out, placed })
}

/// Code of procedures, compiled with the allocator's routes. The procedures are taken in order of
/// number, and only one network stands at a time.
///
/// # Errors
///
/// Where an image has no room for the placed code of all procedures, how many bytes that has; and
/// where there is no memory.
pub fn compile_codes<A: Allocator>(
    alloc: Global,
    file: CodeFile,
    allocator: &A,
) -> Result<Compiled, CompileFault>
    requires runnable { IsRunnable file }
    requires takes { (p : ℕ) (code : VProc) → slice_get (codes_in file) p ≡ Some code →
        A.takes allocator.now p code }
    ensures built { IfOk result (IsBuiltBy file (A.leaves allocator.now)) }
    ensures fault { IfErr result (IsFault file (A.leaves allocator.now)) }
{
    let mut assembly = CountedAssembly::begin(alloc, file.data_words)?;
    let mut procs = Seq::from_vec(Vec::with_capacity(alloc, file.procs.len())?);
    for named in file.procs.into_vec() {
        let number = procs.len() as u32;
        let compiled = compile_procedure(alloc, number, named, allocator)?;
        let CompiledProc { out, placed } = compiled;
        assembly.add(alloc, &placed)?;
        procs.push(out)?;
    }
    match assembly.finish() {
        Ok(image) => Ok(Compiled { image, procs }),
        Err(bytes) => Err(CompileFault::TooLong(bytes)),
    }
}

/// Code of procedures, compiled with so many rounds of allocation for each, or as many as the watch
/// wants.
///
/// # Errors
///
/// Where an image has no room for the placed code of all procedures, how many bytes that has; and
/// where there is no memory.
pub fn compile<F: Fn(Event, u32) -> u32, G: Fn(Line) -> Verdict>(
    alloc: Global,
    file: CodeFile,
    rounds: u32,
    model: &CostModel<F>,
    watch: &Watch<G>,
) -> Result<Compiled, CompileFault>
    requires runnable { IsRunnable file }
    requires kept { Keeps F.Fn model.now }
    requires watch { IsWatch G.Fn watch.now }
    requires few { rounds ≤ 1000 }
    ensures built { IfOk result (λ compiled. IsBuilt file
        (wanted_of (weights_of model.now) rounds (gap_of watch.now)) compiled) }
    ensures fault { IfErr result (IsFault file
        (granted (wanted_of (weights_of model.now) rounds (gap_of watch.now)))) }
{
    let visits = shared_visits(alloc, file.procs.as_slice())?;
    let allocator = Granted {
        rounds,
        model,
        watch,
        visits: visits.as_slice(),
    };
    compile_codes(alloc, file, &allocator)
}
