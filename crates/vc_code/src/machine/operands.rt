// What an instruction reads and writes.

ghost use Rattle.std.specs.Prelude.{◌≡◌};
ghost use Rattle.pra_base.specs.Operands.{read_by, written_by};
ghost use Rattle.vc_code.specs.Operation as operation;
ghost use Rattle.vc_code.specs.Stands.{listed, address_vars, held_in};

use super::Execution;
use crate::action::{Action, Here};
use crate::live::Targets;
use crate::operating::operate;
use pra_base::{Addr, Base, VInstr, VProc, VarId};

/// The variables that an instruction writes, in the order of the operand table.
pub fn targets(i: &VInstr) -> Targets
    ensures { listed result ≡ written_by i.now }
{
    match *i {
        VInstr::Set(v, _) => (Some(v), None),
        VInstr::Copy(v, _) => (Some(v), None),
        VInstr::Add(v, _) => (Some(v), None),
        VInstr::Sub(v, _) => (Some(v), None),
        VInstr::And(v, _) => (Some(v), None),
        VInstr::Or(v, _) => (Some(v), None),
        VInstr::Xor(v, _) => (Some(v), None),
        VInstr::Mul(v, _) => (Some(v), None),
        VInstr::Neg(v) => (Some(v), None),
        VInstr::Shift(_, v, _) => (Some(v), None),
        VInstr::CmpSet(_, v, _, _) => (Some(v), None),
        VInstr::DivMod(q, r, _, _) => (Some(q), Some(r)),
        VInstr::Load(v, _) => (Some(v), None),
        VInstr::Addr(v, _) => (Some(v), None),
        VInstr::Read(v) => (Some(v), None),
        VInstr::Cmp(_, _) => (None, None),
        VInstr::Check(_, _) => (None, None),
        VInstr::CheckPos(_) => (None, None),
        VInstr::Store(_, _) => (None, None),
        VInstr::Push(_) => (None, None),
        VInstr::Call(_) => (None, None),
        VInstr::Write(_) => (None, None),
        VInstr::Line => (None, None),
        VInstr::Clear => (None, None),
    }
}

impl Execution {
    /// What an instruction does, or None where it is stuck.
    pub fn operation(&self, here: &Here, code: &VProc, i: &VInstr) -> Option<Action>
        ensures { let held = held_in self.now code.now (read_by i.now) in
            result ≡ operation.operate here.now i.now held }
    {
        match *i {
            VInstr::Set(_, _) => operate(here, i, &[]),
            VInstr::Call(_) => operate(here, i, &[]),
            VInstr::Read(_) => operate(here, i, &[]),
            VInstr::Line => operate(here, i, &[]),
            VInstr::Clear => operate(here, i, &[]),
            VInstr::Copy(_, x) => operate(here, i, &[self.read(code, x)]),
            VInstr::Neg(x) => operate(here, i, &[self.read(code, x)]),
            VInstr::Shift(_, x, _) => operate(here, i, &[self.read(code, x)]),
            VInstr::Check(x, _) => operate(here, i, &[self.read(code, x)]),
            VInstr::CheckPos(x) => operate(here, i, &[self.read(code, x)]),
            VInstr::Push(x) => operate(here, i, &[self.read(code, x)]),
            VInstr::Write(x) => operate(here, i, &[self.read(code, x)]),
            VInstr::Add(x, y) => operate(here, i, &[self.read(code, x), self.read(code, y)]),
            VInstr::Sub(x, y) => operate(here, i, &[self.read(code, x), self.read(code, y)]),
            VInstr::And(x, y) => operate(here, i, &[self.read(code, x), self.read(code, y)]),
            VInstr::Or(x, y) => operate(here, i, &[self.read(code, x), self.read(code, y)]),
            VInstr::Xor(x, y) => operate(here, i, &[self.read(code, x), self.read(code, y)]),
            VInstr::Mul(x, y) => operate(here, i, &[self.read(code, x), self.read(code, y)]),
            VInstr::Cmp(x, y) => operate(here, i, &[self.read(code, x), self.read(code, y)]),
            VInstr::CmpSet(_, _, x, y) => operate(
                here,
                i,
                &[self.read(code, x), self.read(code, y)],
            ),
            VInstr::DivMod(_, _, x, y) => operate(
                here,
                i,
                &[self.read(code, x), self.read(code, y)],
            ),
            VInstr::Load(v, a) => self.at_address(here, code, &VInstr::Load(v, a), &a),
            VInstr::Addr(v, a) => self.at_address(here, code, &VInstr::Addr(v, a), &a),
            VInstr::Store(a, x) => self.at_store(here, code, &a, x),
        }
    }

    // The operation of an instruction that reads an address alone.
    fn at_address(&self, here: &Here, code: &VProc, i: &VInstr, a: &Addr) -> Option<Action>
        ensures { let held = held_in self.now code.now (address_vars a.now) in
            result ≡ operation.operate here.now i.now held }
    {
        match (a.base, a.index) {
            (Base::Via(v), Some(x)) => operate(here, i, &[self.read(code, v), self.read(code, x)]),
            (Base::Via(v), None) => operate(here, i, &[self.read(code, v)]),
            (_, Some(x)) => operate(here, i, &[self.read(code, x)]),
            (_, None) => operate(here, i, &[]),
        }
    }

    fn at_store(&self, here: &Here, code: &VProc, a: &Addr, s: VarId) -> Option<Action>
        ensures { let i = VInstr.Store a.now s in
            result ≡ operation.operate here.now i (held_in self.now code.now (read_by i)) }
    {
        let i = VInstr::Store(*a, s);
        let last = self.read(code, s);
        match (a.base, a.index) {
            (Base::Via(v), Some(x)) => operate(
                here,
                &i,
                &[self.read(code, v), self.read(code, x), last],
            ),
            (Base::Via(v), None) => operate(here, &i, &[self.read(code, v), last]),
            (_, Some(x)) => operate(here, &i, &[self.read(code, x), last]),
            (_, None) => operate(here, &i, &[last]),
        }
    }
}
