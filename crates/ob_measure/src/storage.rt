//! Where parameters, locals and the module's variables stand.

ghost use Rattle.std.specs.Prelude.{◌≡◌, ◌<◌, ◌^◌, length, IfOk};
ghost use Rattle.ob_syntax.specs.WellFormed.{is_scalar as is_scalar_type, is_addressed};
ghost use Rattle.ob_syntax.specs.WellFormed.{is_aggregate as is_aggregate_type, lent_in_body};
ghost use Rattle.ob_syntax.specs.WellFormed.{local_words as local_words_of, locals_from};
ghost use Rattle.ob_syntax.specs.WellFormed.{marked_params, aggregate_words as aggregate_words_of};
ghost use Rattle.ob_syntax.specs.WellFormed.{module_vars_from, data_words};
ghost use Rattle.ob_syntax.specs.declared.checked.Root.TheVariants as root;
ghost use Rattle.ob_measure.specs.Lending.{AreLent};
ghost use Rattle.ob_measure.specs.Measuring.{Counts};

use crate::fault::MeasureFault;
use crate::lent::Lent;
use crate::types::{Types, plus};
use ob_syntax::{Draft, Local, ModuleVar, Param};
use pra_list::Seq;
use std::alloc::{AllocError, Global};

/// Whether values of a type are one INTEGER or BOOLEAN.
pub fn is_scalar(type_id: u32) -> bool
    ensures { result ≡ is_scalar_type type_id }
{
    type_id == 0 || type_id == 1
}

/// The parameters, addressed where they are lent.
pub fn mark_params(alloc: Global, lent: &Lent, draft: &Draft) -> Result<Seq<Param>, AllocError>
    requires { AreLent lent.now draft.now }
    ensures { IfOk result (λ params.
        params ≡ marked_params (lent_in_body draft.now) 0 draft.now.params) }
{
    let mut params = Vec::new(alloc);
    for (number, param) in draft.params.as_slice().iter().enumerate() {
        params.push(Param {
            by_var: param.by_var,
            type_id: param.type_id,
            addressed: !param.by_var && is_scalar(param.type_id) && lent.has_param(number),
        })?;
    }
    Ok(Seq::from_vec(params))
}

/// Whether a local is a scalar that is lent.
fn is_addressed_local(lent: &Lent, draft: &Draft, number: usize, type_id: u32) -> bool
    requires lent { AreLent lent.now draft.now }
    requires within { number < length draft.now.vars }
    ensures { result ≡ is_addressed (lent_in_body draft.now) (root.Local number) type_id }
{
    is_scalar(type_id) && lent.has_local(number)
}

/// Whether a local stands among the aggregate words.
fn is_aggregate(lent: &Lent, draft: &Draft, number: usize, type_id: u32) -> bool
    requires lent { AreLent lent.now draft.now }
    requires within { number < length draft.now.vars }
    ensures { result ≡ is_aggregate_type (lent_in_body draft.now) number type_id }
{
    !is_scalar(type_id) || is_addressed_local(lent, draft, number, type_id)
}

/// How many of the aggregate words a local has.
fn local_words(types: &Types, lent: &Lent, draft: &Draft, number: usize, type_id: u32) -> u32
    requires lent { AreLent lent.now draft.now }
    requires within { number < length draft.now.vars }
    ensures { result
        ≡ local_words_of types.now.shapes (lent_in_body draft.now) number type_id }
{
    if is_aggregate(lent, draft, number, type_id) {
        types.words_of(type_id)
    } else {
        0
    }
}

/// Words of a procedure's arrays, records and addressed scalar locals.
pub fn aggregate_words(types: &Types, lent: &Lent, draft: &Draft) -> Result<u64, MeasureFault>
    requires { AreLent lent.now draft.now }
    ensures { Counts (aggregate_words_of types.now.shapes draft.now) result }
{
    let mut total: u64 = 0;
    for (number, type_id) in draft.vars.as_slice().iter().enumerate() {
        total = plus(total, local_words(types, lent, draft, number, *type_id))?;
    }
    Ok(total)
}

/// The locals, which have few aggregate words.
pub fn lay_out_locals(
    alloc: Global,
    types: &Types,
    lent: &Lent,
    draft: &Draft,
) -> Result<Seq<Local>, AllocError>
    requires lent { AreLent lent.now draft.now }
    requires few { aggregate_words_of types.now.shapes draft.now < 2 ^ 32 }
    ensures { IfOk result (λ locals.
        locals ≡ locals_from types.now.shapes (lent_in_body draft.now) 0 0 draft.now.vars) }
{
    let mut locals = Vec::new(alloc);
    let mut next: u32 = 0;
    for (number, type_id) in draft.vars.as_slice().iter().enumerate() {
        let word = if is_aggregate(lent, draft, number, *type_id) {
            next
        } else {
            0
        };
        locals.push(Local {
            type_id: *type_id,
            addressed: is_addressed_local(lent, draft, number, *type_id),
            word,
        })?;
        next += local_words(types, lent, draft, number, *type_id);
    }
    Ok(Seq::from_vec(locals))
}

/// The module's variables, which have few words.
pub fn lay_out_vars(
    alloc: Global,
    types: &Types,
    type_ids: &[u32],
) -> Result<Seq<ModuleVar>, AllocError>
    requires { data_words types.now.shapes type_ids.now < 2 ^ 32 }
    ensures { IfOk result (λ vars. vars ≡ module_vars_from types.now.shapes 0 type_ids.now) }
{
    let mut vars = Vec::new(alloc);
    let mut next: u32 = 0;
    for type_id in type_ids {
        vars.push(ModuleVar {
            type_id: *type_id,
            word: next,
        })?;
        next += types.words_of(*type_id);
    }
    Ok(Seq::from_vec(vars))
}
