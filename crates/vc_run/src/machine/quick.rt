// Instructions on numbers alone, which most are: what they give or compare, with no list of what
// their operands hold.

ghost use Rattle.std.specs.Prelude.{◌≡◌, ◌∷◌, [], IfSome};
ghost use Rattle.pra_base.specs.Code.{kind_of};
ghost use Rattle.pra_base.specs.Operands.{read_by};
ghost use Rattle.vc_code.specs.Operation as operation;
ghost use Rattle.vc_code.specs.Selected.{read as read_of};
ghost use Rattle.vc_run.specs.Calls.{call_of};
ghost use Rattle.vc_run.specs.Quick.{Gives, Compares};
ghost use Rattle.vc_run.specs.Stands.{held_in};

use super::{Execution, kind};
use pra_base::{VInstr, VProc, VarId, VarKind};
use vc_code::Value;
use vc_code::arithmetic::{compares, difference, product, sum, truth, word};

impl Execution {
    // The number that a variable of the running call holds.
    fn number(&self, code: &VProc, var: VarId) -> Option<u32>
        ensures { let held = (call_of self.now.top).home.held in
            result ≡ operation.number (read_of (kind_of code.now) held var.0) }
    {
        match kind(code, var) {
            VarKind::Constant(n) => Some(word(n)),
            VarKind::Param(_) | VarKind::Plain => match self.top.held.get(var.0 as usize) {
                Some(Some(Value::Num(n))) => Some(*n),
                Some(Some(Value::At(_, _))) => None,
                Some(None) => None,
                None => None,
            },
        }
    }

    fn both(&self, code: &VProc, x: VarId, y: VarId) -> Option<(u32, u32)>
        ensures { let held = held_in self.now code.now (x.0 ∷ y.0 ∷ []) in
            result ≡ operation.both held }
    {
        let a = self.number(code, x)?;
        let b = self.number(code, y)?;
        Some((a, b))
    }

    /// The variable that an instruction writes, and the number that it gives, of one that gives a
    /// number by numbers alone.
    pub fn computed(&self, code: &VProc, i: &VInstr) -> Option<(VarId, u32)>
        ensures { IfSome result (λ given.
            Gives i.now given.0 given.1 (held_in self.now code.now (read_by i.now))) }
    {
        match *i {
            VInstr::Set(v, n) => Some((v, word(n))),
            VInstr::Copy(v, x) => Some((v, self.number(code, x)?)),
            VInstr::Add(v, x) => {
                let (a, b) = self.both(code, v, x)?;
                Some((v, sum(a, b)))
            }
            VInstr::Sub(v, x) => {
                let (a, b) = self.both(code, v, x)?;
                Some((v, difference(a, b)))
            }
            VInstr::And(v, x) => {
                let (a, b) = self.both(code, v, x)?;
                Some((v, a & b))
            }
            VInstr::Or(v, x) => {
                let (a, b) = self.both(code, v, x)?;
                Some((v, a | b))
            }
            VInstr::Xor(v, x) => {
                let (a, b) = self.both(code, v, x)?;
                Some((v, a ^ b))
            }
            VInstr::Mul(v, x) => {
                let (a, b) = self.both(code, v, x)?;
                Some((v, product(a, b)))
            }
            VInstr::CmpSet(cond, v, x, y) => {
                let (a, b) = self.both(code, x, y)?;
                Some((v, truth(compares(cond, a, b))))
            }
            _ => None,
        }
    }

    /// The two numbers that an instruction compares, of one that compares numbers.
    pub fn comparison(&self, code: &VProc, i: &VInstr) -> Option<(u32, u32)>
        ensures { IfSome result (λ ab.
            Compares i.now ab.0 ab.1 (held_in self.now code.now (read_by i.now))) }
    {
        match *i {
            VInstr::Cmp(x, y) => self.both(code, x, y),
            _ => None,
        }
    }
}
