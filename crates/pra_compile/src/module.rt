// A module: its code, and what that is compiled to.

ghost use Rattle.std.specs.Prelude.{◌≡◌, ◌<◌, ◌≤◌, ℕ, length, slice_get, Some, IfOk};
ghost use Rattle.al_round.specs.Watches.{IsWatch, gap_of};
ghost use Rattle.net_cost.specs.Models.{Keeps, weights_of};
ghost use Rattle.pra_base.specs.declared.code.VProc.{VProc};
ghost use Rattle.pra_compile.specs.Compiled.{IsCompiled, IsCompiledBy, codes_in, codes_of, wanted_of};
ghost use Rattle.pra_compile.specs.Tidied.{IsCodeOfModule, IsNamedOf, name_of};
ghost use Rattle.pra_follow.specs.Tidied.{IsTidied};
ghost use Rattle.vc_checked.specs.Short.{IsShort};
ghost use Rattle.vc_typed.specs.Nodes.{HaveTheirNodes};
ghost use Rattle.vc_typed.specs.TypedModules.{IsSelectable};

use crate::allocator::Allocator;
use crate::compiling::{compile, compile_codes};
use crate::output::{CompileFault, Compiled};
use al_round::{Verdict, Watch};
use cert_form::{CodeFile, NamedCode};
use net_cost::{CostModel, Event};
use net_form::Line;
use ob_syntax::Checked;
use pra_base::{OutOfMemory, ProcId, VProc};
use pra_list::Seq;
use std::alloc::Global;
use vc_checks::leave_out_checks;
use vc_proc::select_proc;
use vc_tidy::tidy;

// The name of a procedure, or the module's for the body.
fn name_of(alloc: Global, checked: &Checked, number: u32) -> Result<Seq<u8>, OutOfMemory>
    requires { number < length checked.now.procs }
    ensures { IfOk result (λ name. name ≡ name_of checked.now number) }
{
    let name = if number == 0 {
        &checked.name
    } else {
        &checked.procs[number as usize].name
    };
    let name = Seq::from_slice(alloc, name.as_slice())?;
    Ok(name)
}

// The tidy code of a procedure, without checks that cannot fail.
fn tidy_code(alloc: Global, checked: &Checked, number: u32) -> Result<VProc, OutOfMemory>
    requires selectable { IsSelectable checked.now }
    requires nodes { HaveTheirNodes checked.now }
    requires there { number < length checked.now.procs }
    ensures { IfOk result (λ code. IsTidied checked.now number code) }
{
    let selected = select_proc(alloc, checked, ProcId(number))?;
    let Ok(lean) = leave_out_checks(alloc, selected) else {
        return Err(OutOfMemory);
    };
    let Ok(code) = tidy(alloc, lean) else {
        return Err(OutOfMemory);
    };
    Ok(code)
}

// A procedure by its name, with its tidy code.
fn named_code(alloc: Global, checked: &Checked, number: u32) -> Result<NamedCode, OutOfMemory>
    requires selectable { IsSelectable checked.now }
    requires nodes { HaveTheirNodes checked.now }
    requires there { number < length checked.now.procs }
    ensures { IfOk result (IsNamedOf checked.now number) }
{
    let name = name_of(alloc, checked, number)?;
    let code = tidy_code(alloc, checked, number)?;
    Ok(NamedCode { name, code })
}

/// The code of a module: the tidy code of each procedure, in order of number. It is the same code
/// wherever routes come from.
///
/// # Errors
///
/// Where there is no memory for it.
pub fn code_of_module(alloc: Global, checked: &Checked) -> Result<CodeFile, OutOfMemory>
    requires selectable { IsSelectable checked.now }
    requires nodes { HaveTheirNodes checked.now }
    ensures { IfOk result (IsCodeOfModule checked.now) }
{
    let mut procs = Seq::from_vec(Vec::with_capacity(alloc, checked.procs.len())?);
    for number in 0..checked.procs.len() {
        procs.push(named_code(alloc, checked, number as u32)?)?;
    }
    let data_words = checked.data_words;
    Ok(CodeFile { data_words, procs })
}

/// The code of a module, compiled with the allocator's routes.
///
/// # Errors
///
/// Where there is no memory for it. An image has room for the code of any module.
pub fn compile_module_codes<A: Allocator>(
    alloc: Global,
    checked: &Checked,
    file: CodeFile,
    allocator: &A,
) -> Result<Compiled, OutOfMemory>
    requires selectable { IsSelectable checked.now }
    requires short { IsShort checked.now }
    requires of_module { IsCodeOfModule checked.now file }
    requires takes { (p : ℕ) (code : VProc) → slice_get (codes_in file) p ≡ Some code →
        A.takes allocator.now p code }
    ensures compiled { IfOk result (IsCompiledBy checked.now (A.leaves allocator.now)) }
    ensures codes { IfOk result (λ compiled. codes_of compiled.procs ≡ codes_in file) }
{
    match compile_codes(alloc, file, allocator) {
        Ok(compiled) => Ok(compiled),
        Err(CompileFault::TooLong(_)) => unreachable!(),
        Err(CompileFault::OutOfMemory) => Err(OutOfMemory),
    }
}

/// A module, compiled with so many rounds of allocation for each procedure, or as many as the watch
/// wants.
///
/// # Errors
///
/// Where there is no memory for it. An image has room for the code of any module.
pub fn compile_module<F: Fn(Event, u32) -> u32, G: Fn(Line) -> Verdict>(
    alloc: Global,
    checked: &Checked,
    rounds: u32,
    model: &CostModel<F>,
    watch: &Watch<G>,
) -> Result<Compiled, OutOfMemory>
    requires selectable { IsSelectable checked.now }
    requires nodes { HaveTheirNodes checked.now }
    requires short { IsShort checked.now }
    requires kept { Keeps F.Fn model.now }
    requires watch { IsWatch G.Fn watch.now }
    requires few { rounds ≤ 1000 }
    ensures { IfOk result (λ compiled. IsCompiled checked.now
        (wanted_of (weights_of model.now) rounds (gap_of watch.now)) compiled) }
{
    let file = code_of_module(alloc, checked)?;
    match compile(alloc, file, rounds, model, watch) {
        Ok(compiled) => Ok(compiled),
        Err(CompileFault::TooLong(_)) => unreachable!(),
        Err(CompileFault::OutOfMemory) => Err(OutOfMemory),
    }
}
