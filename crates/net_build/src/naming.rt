// Which variables an instruction reads and writes: the operand table without its masks, which is
// all that is asked of most variables at most layers.

ghost use Rattle.std.specs.Prelude.{◌≡◌, Some};
ghost use Rattle.std.specs.List.{list_any};
ghost use Rattle.pra_base.specs.Operands.{reads, writes, only_writes, is_role_of, addressed, via};
ghost use Rattle.pra_base.specs.Operands.{index as indexed, operands};
ghost use Rattle.net_form.specs.Strands.{is_before, roles_beside};

use pra_base::{Addr, Base, VInstr, VarId};

fn is_base(base: Base, var: u32) -> bool
    ensures { result ≡ list_any (is_role_of var) (via base) }
{
    match base {
        Base::Via(other) => other.0 == var,
        _ => false,
    }
}

fn is_index(index: Option<VarId>, var: u32) -> bool
    ensures { result ≡ list_any (is_role_of var) (indexed index) }
{
    match index {
        Some(other) => other.0 == var,
        None => false,
    }
}

fn is_in_address(addr: Addr, var: u32) -> bool
    ensures { result ≡ list_any (is_role_of var) (addressed addr) }
{
    is_base(addr.base, var) || is_index(addr.index, var)
}

fn is_stored(addr: Addr, source: VarId, var: u32) -> bool
    ensures { result ≡ reads (VInstr.Store addr source) var }
{
    is_in_address(addr, var) || source.0 == var
}

/// Whether the instruction reads the variable.
pub(crate) fn reads(instr: &VInstr, var: u32) -> bool
    ensures { result ≡ reads instr.now var }
{
    match *instr {
        VInstr::Copy(_, source) => source.0 == var,
        VInstr::Add(one, other) => one.0 == var || other.0 == var,
        VInstr::Sub(one, other) => one.0 == var || other.0 == var,
        VInstr::And(one, other) => one.0 == var || other.0 == var,
        VInstr::Or(one, other) => one.0 == var || other.0 == var,
        VInstr::Xor(one, other) => one.0 == var || other.0 == var,
        VInstr::Mul(one, other) => one.0 == var || other.0 == var,
        VInstr::Neg(one) => one.0 == var,
        VInstr::Shift(_, one, _) => one.0 == var,
        VInstr::Cmp(one, other) => one.0 == var || other.0 == var,
        VInstr::CmpSet(_, _, one, other) => one.0 == var || other.0 == var,
        VInstr::DivMod(_, _, one, other) => one.0 == var || other.0 == var,
        VInstr::Check(one, _) => one.0 == var,
        VInstr::CheckPos(one) => one.0 == var,
        VInstr::Load(_, addr) => is_in_address(addr, var),
        VInstr::Store(addr, source) => is_stored(addr, source, var),
        VInstr::Addr(_, addr) => is_in_address(addr, var),
        VInstr::Push(one) => one.0 == var,
        VInstr::Write(one) => one.0 == var,
        _ => false,
    }
}

/// Whether the instruction writes the variable where it does not read it.
pub(crate) fn only_writes(instr: &VInstr, var: u32) -> bool
    ensures { result ≡ only_writes instr.now var }
{
    match instr {
        VInstr::Set(target, _) => target.0 == var,
        VInstr::Copy(target, _) => target.0 == var,
        VInstr::CmpSet(_, target, _, _) => target.0 == var,
        VInstr::DivMod(quotient, remainder, _, _) => quotient.0 == var || remainder.0 == var,
        VInstr::Load(target, _) => target.0 == var,
        VInstr::Addr(target, _) => target.0 == var,
        VInstr::Read(target) => target.0 == var,
        _ => false,
    }
}

/// Whether the instruction writes the variable.
pub(crate) fn writes(instr: &VInstr, var: u32) -> bool
    ensures { result ≡ writes instr.now var }
{
    match instr {
        VInstr::Add(target, _) => target.0 == var,
        VInstr::Sub(target, _) => target.0 == var,
        VInstr::And(target, _) => target.0 == var,
        VInstr::Or(target, _) => target.0 == var,
        VInstr::Xor(target, _) => target.0 == var,
        VInstr::Mul(target, _) => target.0 == var,
        VInstr::Neg(target) => target.0 == var,
        VInstr::Shift(_, target, _) => target.0 == var,
        _ => only_writes(instr, var),
    }
}

/// Whether the variable has a role on the side of the instruction where the layer is: one that is
/// read before it, one that is written after it.
pub(crate) fn has_role_beside(instr: &VInstr, layer: u32, var: u32) -> bool
    ensures { result ≡
        list_any (is_role_of var) (roles_beside (is_before layer) operands (Some instr.now)) }
{
    if layer % 2 == 1 {
        reads(instr, var)
    } else {
        writes(instr, var)
    }
}
