//! Procedures whose storage is laid out.

ghost use Rattle.std.specs.Prelude.{◌≡◌, ◌<◌, ◌≤◌, [], ◌∷◌, length, map, All, IfOk};
ghost use Rattle.pra_base.specs.declared.limit.LimitKind.TheVariants.{AggregateWords};
ghost use Rattle.ob_syntax.specs.Source.{spelling};
ghost use Rattle.ob_syntax.specs.WellFormed.{first_above, aggregate_words as aggregate_words_of};
ghost use Rattle.ob_syntax.specs.WellFormed.{checked_proc as checked_proc_of};
ghost use Rattle.ob_measure.specs.Measuring.{Tests, place_of};

use crate::fault::{MeasureFault, within};
use crate::lent::Lent;
use crate::storage::{aggregate_words, lay_out_locals, mark_params};
use crate::types::Types;
use ob_syntax::{CheckedProc, Draft, Token};
use pra_base::{LimitKind, ProcId};
use pra_list::Seq;
use std::alloc::{AllocError, Global};

/// The bytes of a source, and its tokens, which slice them.
#[derive(Clone, Copy)]
pub struct Source<'a> {
    pub bytes: &'a [u8],
    pub tokens: &'a [Token],
    ghost within: { All (λ t. (t.from < t.to) × (t.to ≤ length bytes.now)) tokens.now },
}

impl<'a> Source<'a> {
    /// The text of the name at a token.
    pub fn name(&self, alloc: Global, token: u32) -> Result<Seq<u8>, AllocError>
        ensures { IfOk result (λ name.
            name ≡ spelling self.now.bytes.now self.now.tokens.now token) }
    {
        match self.tokens.get(token as usize) {
            Some(token) => {
                let text = &self.bytes[token.from as usize..token.to as usize];
                Seq::from_slice(alloc, text)
            }
            None => Ok(Seq::new(alloc)),
        }
    }
}

/// A procedure, of which only the aggregate words are still to be tested.
fn checked_proc(
    alloc: Global,
    source: &Source<'_>,
    types: &Types,
    draft: Draft,
) -> Result<CheckedProc, MeasureFault>
    ensures { Tests (first_above AggregateWords (aggregate_words_of types.now.shapes draft ∷ []))
        result (λ proc. proc ≡ checked_proc_of
        (place_of source.now.bytes.now source.now.tokens.now types.now.shapes) draft) }
{
    let lent = Lent::new(alloc, &draft)?;
    let words = aggregate_words(types, &lent, &draft)?;
    let words = within(LimitKind::AggregateWords, words)?;
    let name = source.name(alloc, draft.name)?;
    let params = mark_params(alloc, &lent, &draft)?;
    let locals = lay_out_locals(alloc, types, &lent, &draft)?;
    Ok(CheckedProc {
        id: ProcId(draft.id),
        name,
        params,
        locals,
        aggregate_words: words,
        nodes: draft.nodes,
        body: draft.body,
    })
}

/// Procedures, of which only the aggregate words are still to be tested.
pub fn checked_procs(
    alloc: Global,
    source: &Source<'_>,
    types: &Types,
    drafts: Seq<Draft>,
) -> Result<Seq<CheckedProc>, MeasureFault>
    ensures { Tests (first_above AggregateWords (map (aggregate_words_of types.now.shapes) drafts))
        result (λ procs. procs ≡ map (checked_proc_of
        (place_of source.now.bytes.now source.now.tokens.now types.now.shapes)) drafts) }
{
    let mut procs = Vec::new(alloc);
    for draft in drafts.into_vec() {
        procs.push(checked_proc(alloc, source, types, draft)?)?;
    }
    Ok(Seq::from_vec(procs))
}
