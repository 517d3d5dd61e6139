// The rules that one instruction keeps.

ghost use Rattle.std.specs.Prelude.{◌≡◌, ◌<◌, ◌↔◌, ℕ, IsTrue, true, false, Some};
ghost use Rattle.pra_base.specs.Code.{instr_at};
ghost use Rattle.pra_base.specs.Operands.{reads, only_writes};
ghost use Rattle.pra_base.specs.Valid.{IsSized};
ghost use Rattle.vc_live.specs.Equations.{named_in};
ghost use Rattle.vc_live.specs.Rows.{IsLiveness};
ghost use Rattle.vc_live.specs.Sized.{named_cell};
ghost use Rattle.vc_valid.specs.Rules.{IsApart, IsConstantOf, CopiesNoConstant, KeepsConstants};
ghost use Rattle.vc_valid.specs.Rules.{IsNoParam, AvoidsParams, AreFour, KeepsDivision, KeepsRange};
ghost use Rattle.vc_valid.specs.Rules.{KeepsShift, KeepsClear, KeepsRules};

use pra_base::{Base, BlockId, VInstr, VProc, VarId, VarKind};
use vc_code::{Role, operands};
use vc_live::Liveness;

#[tactic(auto, unfolding(vc_live::specs::Equations::named_in))]
fn is_named(roles: &[Role], var: u32) -> bool
    ensures { result ≡ named_in roles.now var }
{
    roles.iter().any(|role| role.var.0 == var)
}

fn reads(instr: &VInstr, var: u32) -> bool
    ensures { result ≡ reads instr.now var }
{
    let row = operands(instr);
    is_named(row.reads.as_slice(), var)
}

// Whether the instruction writes the variable where it does not read it.
fn is_only_written(instr: &VInstr, var: u32) -> bool
    ensures { result ≡ only_writes instr.now var }
{
    match instr {
        VInstr::Set(target, _) => target.0 == var,
        VInstr::Copy(target, _) => target.0 == var,
        VInstr::CmpSet(_, target, _, _) => target.0 == var,
        VInstr::DivMod(quotient, remainder, _, _) => quotient.0 == var || remainder.0 == var,
        VInstr::Load(target, _) => target.0 == var,
        VInstr::Addr(target, _) => target.0 == var,
        VInstr::Read(target) => target.0 == var,
        _ => false,
    }
}

// Whether none of the roles is of a variable that is only written and read.
fn are_apart(roles: &[Role], instr: &VInstr) -> bool
    ensures { IsTrue result ↔ ((v : ℕ) → named_in roles.now v ≡ true →
        only_writes instr.now v ≡ true → reads instr.now v ≡ false) }
{
    for role in roles {
        if is_only_written(instr, role.var.0) && reads(instr, role.var.0) {
            return false;
        }
    }
    true
}

fn is_apart(instr: &VInstr) -> bool
    ensures { IsTrue result ↔ IsApart instr.now }
{
    let row = operands(instr);
    are_apart(row.writes.as_slice(), instr)
}

fn is_constant(vars: &[VarKind], var: VarId) -> bool
    ensures { IsTrue result ↔ IsConstantOf vars.now var.0 }
{
    let at = var.0 as usize;
    if at >= vars.len() {
        return false;
    }
    match vars[at] {
        VarKind::Constant(_) => true,
        _ => false,
    }
}

// Whether none of the roles is of a constant.
fn avoid_constants(roles: &[Role], vars: &[VarKind]) -> bool
    ensures { IsTrue result ↔ ((v : ℕ) → named_in roles.now v ≡ true → IsConstantOf vars.now v →
        ⊥) }
{
    for role in roles {
        if is_constant(vars, role.var) {
            return false;
        }
    }
    true
}

fn copies_no_constant(instr: &VInstr, vars: &[VarKind]) -> bool
    ensures { IsTrue result ↔ CopiesNoConstant vars.now instr.now }
{
    match *instr {
        VInstr::Copy(_, source) => !is_constant(vars, source),
        _ => true,
    }
}

fn keeps_constants(instr: &VInstr, vars: &[VarKind]) -> bool
    ensures { IsTrue result ↔ KeepsConstants vars.now instr.now }
{
    let row = operands(instr);
    if !avoid_constants(row.writes.as_slice(), vars) {
        return false;
    }
    copies_no_constant(instr, vars)
}

// The argument in whose cell the instruction's address begins.
fn named_cell(instr: &VInstr) -> Option<u32>
    ensures { result ≡ named_cell instr.now }
{
    let addr = match *instr {
        VInstr::Load(_, addr) => addr,
        VInstr::Store(addr, _) => addr,
        VInstr::Addr(_, addr) => addr,
        _ => return None,
    };
    match addr.base {
        Base::Cell(cell) => Some(cell),
        _ => None,
    }
}

/// Whether no parameter from this one on is the argument.
pub(crate) fn is_no_param(vars: &[VarKind], from: usize, argument: u32) -> bool
    ensures { IsTrue result ↔ IsNoParam vars.now from argument }
{
    for var in from..vars.len() {
        if let VarKind::Param(other) = vars[var] {
            if other == argument {
                return false;
            }
        }
    }
    true
}

fn avoids_params(instr: &VInstr, vars: &[VarKind]) -> bool
    ensures { IsTrue result ↔ AvoidsParams vars.now instr.now }
{
    match named_cell(instr) {
        None => true,
        Some(cell) => is_no_param(vars, 0, cell),
    }
}

// Whether no two of these are one.
fn are_four(quotient: VarId, remainder: VarId, dividend: VarId, divisor: VarId) -> bool
    ensures { IsTrue result ↔ AreFour quotient remainder dividend divisor }
{
    if quotient.0 == remainder.0 || quotient.0 == dividend.0 || quotient.0 == divisor.0 {
        return false;
    }
    if remainder.0 == dividend.0 || remainder.0 == divisor.0 {
        return false;
    }
    dividend.0 != divisor.0
}

fn keeps_division(code: &VProc, live: &Liveness, block: u32, index: u32, instr: &VInstr) -> bool
    requires sized { IsSized code.now }
    requires live { IsLiveness code.now live.now }
    requires index { index < 100000 }
    requires at { instr_at code.now block index ≡ Some instr.now }
    ensures { IsTrue result ↔ KeepsDivision code.now block index instr.now }
{
    match *instr {
        VInstr::DivMod(quotient, remainder, dividend, divisor) => {
            if !are_four(quotient, remainder, dividend, divisor) {
                return false;
            }
            !live.at(dividend, BlockId(block), 2 * index + 2)
        }
        _ => true,
    }
}

fn keeps_range(instr: &VInstr) -> bool
    ensures { IsTrue result ↔ KeepsRange instr.now }
{
    match *instr {
        VInstr::Check(_, number) => number >= 0,
        _ => true,
    }
}

fn keeps_shift(instr: &VInstr) -> bool
    ensures { IsTrue result ↔ KeepsShift instr.now }
{
    match *instr {
        VInstr::Shift(_, _, count) => 1 <= count && count <= 31,
        _ => true,
    }
}

fn keeps_clear(aggregates: u32, block: u32, index: u32, instr: &VInstr) -> bool
    ensures { IsTrue result ↔ KeepsClear aggregates block index instr.now }
{
    match *instr {
        VInstr::Clear => aggregates != 0 && block == 0 && index == 0,
        _ => true,
    }
}

pub(crate) fn keeps_rules(
    code: &VProc,
    live: &Liveness,
    block: u32,
    index: u32,
    instr: &VInstr,
) -> bool
    requires sized { IsSized code.now }
    requires live { IsLiveness code.now live.now }
    requires index { index < 100000 }
    requires at { instr_at code.now block index ≡ Some instr.now }
    ensures { IsTrue result ↔ KeepsRules code.now block index instr.now }
{
    let vars = code.vars.as_slice();
    if !is_apart(instr) {
        return false;
    }
    if !keeps_constants(instr, vars) {
        return false;
    }
    if !avoids_params(instr, vars) {
        return false;
    }
    if !keeps_division(code, live, block, index, instr) {
        return false;
    }
    if !keeps_range(instr) {
        return false;
    }
    if !keeps_shift(instr) {
        return false;
    }
    keeps_clear(code.aggregates, block, index, instr)
}
