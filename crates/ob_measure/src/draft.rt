//! A module before its limits are tested.

ghost use Rattle.std.specs.Prelude.{◌<◌, ◌≤◌, length, All};
ghost use Rattle.ob_measure.specs.Measuring.{Measures, reading_of};

use crate::fault::MeasureFault;
use crate::procedure::{Source, checked_procs};
use crate::quantities::{all_within, data_within, headings_within};
use crate::storage::lay_out_vars;
use crate::types::Types;
use ob_syntax::{Checked, Draft, Module, Shape, Token};
use pra_base::LimitKind;
use pra_list::Seq;
use std::alloc::Global;

/// A module whose names are resolved, but whose limits are not tested and whose storage is not
/// laid out.
#[derive(Drop)]
pub struct DraftModule {
    /// The types, by their numbers.
    pub types: Seq<Shape>,
    /// The lengths of the arrays, in the order of the text.
    pub lengths: Seq<u32>,
    /// The nodes of the statement parts, in the order of the text.
    pub nodes: Seq<u32>,
    /// The types of the module's variables.
    pub vars: Seq<u32>,
    /// The module's body, and then its procedures in the order of their headings.
    pub procs: Seq<Draft>,
}

/// The checked module that a module within the limits stands for.
///
/// The bytes and tokens are those of the source, and `tree` is its tree: names are taken from
/// there.
///
/// # Errors
///
/// Otherwise the first quantity above its maximum, in the order of the limits and of the text,
/// with its number.
pub fn measure(
    alloc: Global,
    bytes: &[u8],
    tokens: &[Token],
    tree: &Module,
    draft: DraftModule,
) -> Result<Checked, MeasureFault>
    requires { All (λ t. (t.from < t.to) × (t.to ≤ length bytes.now)) tokens.now }
    ensures { Measures tree.now (reading_of bytes.now tokens.now draft) result }
{
    let DraftModule {
        types,
        lengths,
        nodes,
        vars,
        procs,
    } = draft;
    let source = Source { bytes, tokens };
    all_within(LimitKind::ArrayLength, lengths.as_slice())?;
    let types = Types::new(alloc, types)?;
    headings_within(procs.as_slice())?;
    let procs = checked_procs(alloc, &source, &types, procs)?;
    let data_words = data_within(&types, vars.as_slice())?;
    all_within(LimitKind::Nodes, nodes.as_slice())?;
    let name = source.name(alloc, tree.name)?;
    let vars = lay_out_vars(alloc, &types, vars.as_slice())?;
    Ok(Checked {
        name,
        types: types.into_shapes(),
        vars,
        procs,
        data_words,
    })
}
