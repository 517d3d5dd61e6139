//! Quantities that are at most their maximum.

ghost use Rattle.std.specs.Prelude.{◌≡◌, ◌-◌, [], ◌∷◌, length, map};
ghost use Rattle.pra_base.specs.declared.limit.LimitKind.TheVariants.{Procedures, Parameters};
ghost use Rattle.pra_base.specs.declared.limit.LimitKind.TheVariants.{Scalars, ModuleWords};
ghost use Rattle.ob_syntax.specs.WellFormed.{first_above, or_then, scalars as scalars_of};
ghost use Rattle.ob_syntax.specs.WellFormed.{data_words};
ghost use Rattle.ob_measure.specs.Measuring.{Tests, Counts};

use crate::fault::{MeasureFault, within};
use crate::storage::is_scalar;
use crate::types::{Types, plus};
use ob_syntax::Draft;
use pra_base::LimitKind;

/// Tests numbers, of which the first that is above is told.
pub fn all_within(kind: LimitKind, counts: &[u32]) -> Result<(), MeasureFault>
    ensures { Tests (first_above kind counts.now) result (λ _. Unit {0}) }
{
    for count in counts {
        within(kind, u64::from(*count))?;
    }
    Ok(())
}

/// Tests how many procedures there are besides the module's body.
fn procedures_within(drafts: &[Draft]) -> Result<(), MeasureFault>
    ensures { Tests (first_above Procedures ((length drafts.now - 1) ∷ [])) result
        (λ _. Unit {0}) }
{
    within(LimitKind::Procedures, drafts.len().saturating_sub(1) as u64)?;
    Ok(())
}

/// Tests how many parameters each procedure has.
fn parameters_within(drafts: &[Draft]) -> Result<(), MeasureFault>
    ensures { Tests (first_above Parameters (map (λ d. length d.params) drafts.now)) result
        (λ _. Unit {0}) }
{
    for draft in drafts {
        within(LimitKind::Parameters, draft.params.len() as u64)?;
    }
    Ok(())
}

/// Scalar parameters, VAR parameters and scalar locals.
fn scalars(draft: &Draft) -> Result<u64, MeasureFault>
    ensures { Counts (scalars_of draft.now) result }
{
    let mut total = draft.params.len() as u64;
    for type_id in draft.vars.as_slice() {
        if is_scalar(*type_id) {
            total = plus(total, 1)?;
        }
    }
    Ok(total)
}

/// Tests how many scalars each procedure has.
fn scalars_within(drafts: &[Draft]) -> Result<(), MeasureFault>
    ensures { Tests (first_above Scalars (map scalars_of drafts.now)) result (λ _. Unit {0}) }
{
    for draft in drafts {
        within(LimitKind::Scalars, scalars(draft)?)?;
    }
    Ok(())
}

/// Tests what procedures and their headings have.
pub fn headings_within(drafts: &[Draft]) -> Result<(), MeasureFault>
    ensures { Tests (or_then (first_above Procedures ((length drafts.now - 1) ∷ []))
        (or_then (first_above Parameters (map (λ d. length d.params) drafts.now))
        (first_above Scalars (map scalars_of drafts.now)))) result (λ _. Unit {0}) }
{
    procedures_within(drafts)?;
    parameters_within(drafts)?;
    scalars_within(drafts)
}

/// The words of the module's variables.
pub fn data_within(types: &Types, type_ids: &[u32]) -> Result<u32, MeasureFault>
    ensures { Tests (first_above ModuleWords (data_words types.now.shapes type_ids.now ∷ []))
        result (λ words. words ≡ data_words types.now.shapes type_ids.now) }
{
    let words = types.data_words(type_ids)?;
    within(LimitKind::ModuleWords, words)
}
