// The homes of a procedure's parameters and locals.

ghost use Rattle.std.specs.Prelude.{◌≡◌, ◌++◌, length, IfOk, OnOk};
ghost use Rattle.vc_relation.specs.Homes.{in_variable as is_in_variable};
ghost use Rattle.vc_relation.specs.Layout.{is_aggregate as is_local_aggregate};
ghost use Rattle.vc_proc.specs.Opening.{param_kind, local_kind, param_kinds, local_kinds};
ghost use Rattle.vc_proc.specs.Opening.{home_kinds, param_home_at, local_home_at};
ghost use Rattle.vc_proc.specs.Opening.{param_homes, local_homes};

use crate::number::number_of;
use ob_syntax::{CheckedProc, Local, Param};
use pra_base::{OutOfMemory, VarId, VarKind};
use std::alloc::Global;
use vc_relation::Home;

/// The variables that are homes, and where each parameter and each local is.
#[derive(Drop)]
pub struct Homes {
    pub kinds: Vec<VarKind>,
    /// The variables of locals begin here.
    pub first_local: u32,
    pub params: Vec<Home>,
    pub locals: Vec<Home>,
}

fn is_in_variable(param: Param) -> bool
    ensures { result ≡ is_in_variable param }
{
    param.by_var || !param.addressed
}

fn is_aggregate(local: Local) -> bool
    ensures { result ≡ is_local_aggregate local }
{
    (local.type_id != 0 && local.type_id != 1) || local.addressed
}

fn home_of_param(kinds: &mut Vec<VarKind>, k: u32, param: Param) -> Result<Home, OutOfMemory>
    ensures home { IfOk result (λ home. home ≡ param_home_at k (length kinds.old.items) param) }
    ensures kinds { OnOk result (kinds.new.items ≡ kinds.old.items ++ param_kind k param) }
{
    if is_in_variable(param) {
        let number = number_of(kinds.len())?;
        kinds.push(VarKind::Param(k))?;
        return Ok(Home::Var(VarId(number)));
    }
    Ok(Home::Cell(k))
}

fn home_of_local(kinds: &mut Vec<VarKind>, local: Local) -> Result<Home, OutOfMemory>
    ensures home { IfOk result (λ home. home ≡ local_home_at (length kinds.old.items) local) }
    ensures kinds { OnOk result (kinds.new.items ≡ kinds.old.items ++ local_kind local) }
{
    if is_aggregate(local) {
        return Ok(Home::Frame(local.word));
    }
    let number = number_of(kinds.len())?;
    kinds.push(VarKind::Plain)?;
    Ok(Home::Var(VarId(number)))
}

fn homes_of_params(
    alloc: Global,
    kinds: &mut Vec<VarKind>,
    params: &[Param],
) -> Result<Vec<Home>, OutOfMemory>
    ensures homes { IfOk result (λ homes.
        homes.items ≡ param_homes 0 (length kinds.old.items) params.now) }
    ensures kinds { OnOk result (kinds.new.items ≡ kinds.old.items ++ param_kinds 0 params.now) }
{
    let count = number_of(params.len())?;
    let mut homes = Vec::new(alloc);
    for k in 0..count {
        let home = home_of_param(kinds, k, params[k as usize])?;
        homes.push(home)?;
    }
    Ok(homes)
}

fn homes_of_locals(
    alloc: Global,
    kinds: &mut Vec<VarKind>,
    locals: &[Local],
) -> Result<Vec<Home>, OutOfMemory>
    ensures homes { IfOk result (λ homes.
        homes.items ≡ local_homes (length kinds.old.items) locals.now) }
    ensures kinds { OnOk result (kinds.new.items ≡ kinds.old.items ++ local_kinds locals.now) }
{
    let mut homes = Vec::new(alloc);
    for local in locals {
        let home = home_of_local(kinds, *local)?;
        homes.push(home)?;
    }
    Ok(homes)
}

/// The homes of a procedure's parameters and locals. The variables of parameters come before those
/// of locals.
///
/// # Errors
///
/// Where there is no memory, or no number.
pub fn homes_of(alloc: Global, proc: &CheckedProc) -> Result<Homes, OutOfMemory>
    ensures kinds { IfOk result (λ homes. homes.kinds.items ≡ home_kinds proc.now) }
    ensures first_local { IfOk result (λ homes.
        homes.first_local ≡ length (param_kinds 0 proc.now.params)) }
    ensures params { IfOk result (λ homes.
        homes.params.items ≡ param_homes 0 0 proc.now.params) }
    ensures locals { IfOk result (λ homes.
        homes.locals.items ≡ local_homes (length (param_kinds 0 proc.now.params))
        proc.now.locals) }
{
    let mut kinds = Vec::new(alloc);
    let params = homes_of_params(alloc, &mut kinds, proc.params.as_slice())?;
    let first_local = number_of(kinds.len())?;
    let locals = homes_of_locals(alloc, &mut kinds, proc.locals.as_slice())?;
    Ok(Homes {
        kinds,
        first_local,
        params,
        locals,
    })
}
