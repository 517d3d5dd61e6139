//! From a tree to the checked module, or to the one thing that is wrong with it.

ghost use Rattle.std.specs.Prelude.{◌≢◌, ◌<◌, ◌≤◌, length, All, IfOk, IfErr, IsOkUnless};
ghost use Rattle.ob_syntax.specs.declared.checked.Checked.{Checked};
ghost use Rattle.ob_measure.specs.Measuring.{Measures};
ghost use Rattle.ob_check.specs.declared.fault.CheckFault.{CheckFault};
ghost use Rattle.ob_check.specs.Checking.{IsChecked, IsCause, IsErrUnlessMemory, IsAnswer};
ghost use Rattle.ob_check.specs.Judging.{read_as};

use crate::fault::CheckFault;
use crate::place::Place;
use crate::reading::{Reading, read_module};
use ob_measure::{DraftModule, MeasureFault, measure};
use ob_syntax::{Checked, Module, Token};
use pra_list::Seq;
use std::alloc::Global;

/// The module that a tree stands for, with every name resolved.
///
/// The tokens are those of the bytes, and the tree is theirs; a name is the bytes that its token
/// spans.
///
/// # Errors
///
/// The first rule that is broken, in the order of the text, with its token; where none is, the
/// first quantity above its maximum, with its number.
pub fn check(
    alloc: Global,
    bytes: &[u8],
    tokens: &[Token],
    tree: Module,
) -> Result<Checked, CheckFault>
    requires { All (λ t. (t.from < t.to) × (t.to ≤ length bytes.now)) tokens.now }

    ensures found { IfOk result (IsChecked bytes.now tokens.now tree) }
    ensures cause { IfErr result (λ f. f ≢ CheckFault.OutOfMemory →
        IsCause bytes.now tokens.now tree f) }

    // And each module is answered so, unless memory is wanting.
    ensures ok_where { (c : Checked) → IsChecked bytes.now tokens.now tree c →
        IsOkUnless result CheckFault.OutOfMemory }
    ensures fault_where { (f : CheckFault) → IsCause bytes.now tokens.now tree f →
        IsErrUnlessMemory result f }
{
    answer(alloc, bytes, tokens, &tree)
}

/// What the checker says of a tree.
fn answer(
    alloc: Global,
    bytes: &[u8],
    tokens: &[Token],
    tree: &Module,
) -> Result<Checked, CheckFault>
    requires { All (λ t. (t.from < t.to) × (t.to ≤ length bytes.now)) tokens.now }
    ensures { IsAnswer bytes.now tokens.now tree.now result }
{
    let reading = read_module(alloc, bytes, tokens, tree)?;
    let checked = resolve(alloc, reading, tree)?;
    Ok(checked)
}

/// The module that a reading of the tree stands for, if it keeps within the limits.
fn resolve(alloc: Global, reading: Reading, tree: &Module) -> Result<Checked, MeasureFault>
    ensures { Measures tree.now (read_as reading.entry) result }
{
    let Reading { place, vars, procs } = reading;
    let Place {
        bytes,
        tokens,
        types,
        lengths,
        nodes,
        ..
    } = place;
    let draft = DraftModule {
        types: Seq::from_vec(types),
        lengths: Seq::from_vec(lengths),
        nodes: Seq::from_vec(nodes),
        vars,
        procs: Seq::from_vec(procs),
    };
    measure(alloc, bytes, tokens, tree, draft)
}
