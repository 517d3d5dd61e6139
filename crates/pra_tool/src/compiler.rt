// From the code of a source to its image.

ghost use Rattle.std.specs.Prelude.{◌≡◌, ◌≤◌, IfOk, IfErr};
ghost use Rattle.al_round.specs.Watches.{IsWatch, gap_of, verdict_of};
ghost use Rattle.net_cost.specs.Models.{Keeps, weights_of};
ghost use Rattle.pra_compile.specs.Compiled.{IsBuilt, IsRunnable, granted, wanted_of};
ghost use Rattle.pra_compile.specs.CompiledProcs.{IsFault};
ghost use Rattle.pra_report.specs.Report.{HaveTotals};
ghost use Rattle.pra_words.specs.Written.{asked_by};
ghost use Rattle.pra_tool.specs.Compiling.{wanted_by, weights_by};

use crate::source::{Meaning, Sourced};
use al_round::{Verdict, Watch};
use cert_form::CodeFile;
use net_cost::{CostModel, Event, Weights};
use net_form::Line;
use pra_compile::{CompileFault, Compiled, compile};
use pra_words::{CostWord, Request};
use std::alloc::Global;

/// What a source means, and what its code is compiled to.
#[derive(Drop)]
pub struct Made {
    pub meaning: Meaning,
    pub compiled: Compiled,
}

/// Compiles the code of a source, in so many rounds, by such costs and up to such a gap as are
/// asked for.
///
/// # Errors
///
/// Where an image has no room for the code, how many bytes that has. And `OutOfMemory`.
pub fn compile_source(
    alloc: Global,
    sourced: Sourced,
    request: &Request,
) -> Result<Made, CompileFault>
    requires runnable { IsRunnable sourced.file }
    requires rounds { request.now.rounds ≤ 1000 }
    ensures meaning { IfOk result (λ made. made.meaning ≡ sourced.meaning) }
    ensures built { IfOk result (λ made.
        IsBuilt sourced.file (wanted_by (asked_by request.now)) made.compiled) }
    ensures totals { IfOk result (λ made. HaveTotals made.compiled.procs) }
    ensures fault { IfErr result
        (IsFault sourced.file (granted (wanted_by (asked_by request.now)))) }
{
    let Sourced { meaning, file } = sourced;
    let compiled = compile_code(alloc, file, request)?;
    Ok(Made { meaning, compiled })
}

// Compiles code by the costs that are asked for.
fn compile_code(alloc: Global, file: CodeFile, request: &Request) -> Result<Compiled, CompileFault>
    requires runnable { IsRunnable file }
    requires rounds { request.now.rounds ≤ 1000 }
    ensures built { IfOk result (IsBuilt file (wanted_by (asked_by request.now))) }
    ensures fault { IfErr result (IsFault file (granted (wanted_by (asked_by request.now)))) }
{
    match request.cost {
        CostWord::Size => {
            let model = CostModel::keep(Weights::size(), |event: Event, depth: u32| {
                Weights::size().weight(event, depth)
            });
            compile_by(alloc, file, request, &model)
        }
        CostWord::Speed => {
            let model = CostModel::keep(Weights::speed(), |event: Event, depth: u32| {
                Weights::speed().weight(event, depth)
            });
            compile_by(alloc, file, request, &model)
        }
    }
}

// Compiles code by a model, in rounds that stop at the gap.
fn compile_by<F: Fn(Event, u32) -> u32>(
    alloc: Global,
    file: CodeFile,
    request: &Request,
    model: &CostModel<F>,
) -> Result<Compiled, CompileFault>
    requires runnable { IsRunnable file }
    requires rounds { request.now.rounds ≤ 1000 }
    requires kept { Keeps F.Fn model.now }
    ensures built { IfOk result (IsBuilt file
        (wanted_of (weights_of model.now) request.now.rounds request.now.gap)) }
    ensures fault { IfErr result (IsFault file
        (granted (wanted_of (weights_of model.now) request.now.rounds request.now.gap))) }
{
    let gap = request.gap as u64;
    let watch = Watch::keep(gap, |line: Line| verdict(line, gap));
    compile(alloc, file, request.rounds, model, &watch)
}

// Whether a line's cost is as near to its bound as the gap wants.
fn verdict(line: Line, gap: u64) -> Verdict
    requires { line.bound ≤ line.cost }
    ensures { result ≡ verdict_of gap line }
{
    if line.cost - line.bound <= gap as u128 {
        Verdict::Stop
    } else {
        Verdict::Go
    }
}
