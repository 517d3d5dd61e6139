// Whether codes are the same, to the last operand. The derived equality of instructions, which have
// so many forms, is not proved to be equality; by cases it is.

ghost use Rattle.std.specs.Prelude.{◌≡◌, ◌≢◌, MatchBool};

use pra_base::{Block, VInstr, VProc, VarKind};

/// What can be told from any other value of its type.
pub(crate) trait Same {
    /// Whether it is the same.
    fn is_same(&self, that: &Self) -> bool
        ensures { MatchBool result (self.now ≡ that.now) (self.now ≢ that.now) };
}

// Whether two lists are the same.
fn are_same<T: Same>(list: &[T], that: &[T]) -> bool
    ensures { MatchBool result (list.now ≡ that.now) (list.now ≢ that.now) }
{
    if list.len() != that.len() {
        return false;
    }
    for (index, item) in list.iter().enumerate() {
        if !item.is_same(&that[index]) {
            return false;
        }
    }
    true
}

impl Same for VarKind {
    fn is_same(&self, that: &VarKind) -> bool {
        *self == *that
    }
}

impl Same for VInstr {
    fn is_same(&self, that: &VInstr) -> bool {
        match *self {
            VInstr::Set(a, n) => matches!(*that, VInstr::Set(w, o) if a == w && n == o),
            VInstr::Copy(a, b) => matches!(*that, VInstr::Copy(w, x) if a == w && b == x),
            VInstr::Add(a, b) => matches!(*that, VInstr::Add(w, x) if a == w && b == x),
            VInstr::Sub(a, b) => matches!(*that, VInstr::Sub(w, x) if a == w && b == x),
            VInstr::And(a, b) => matches!(*that, VInstr::And(w, x) if a == w && b == x),
            VInstr::Or(a, b) => matches!(*that, VInstr::Or(w, x) if a == w && b == x),
            VInstr::Xor(a, b) => matches!(*that, VInstr::Xor(w, x) if a == w && b == x),
            VInstr::Mul(a, b) => matches!(*that, VInstr::Mul(w, x) if a == w && b == x),
            VInstr::Neg(a) => matches!(*that, VInstr::Neg(w) if a == w),
            VInstr::Shift(o, a, n) => {
                matches!(*that, VInstr::Shift(k, w, m) if o == k && a == w && n == m)
            }
            VInstr::Cmp(a, b) => matches!(*that, VInstr::Cmp(w, x) if a == w && b == x),
            VInstr::CmpSet(k, a, b, c) =>
                matches!(*that, VInstr::CmpSet(l, w, x, y) if k == l && a == w && b == x && c == y),
            VInstr::DivMod(a, b, c, d) =>
                matches!(*that, VInstr::DivMod(w, x, y, z) if a == w && b == x && c == y && d == z),
            VInstr::Check(a, n) => matches!(*that, VInstr::Check(w, o) if a == w && n == o),
            VInstr::CheckPos(a) => matches!(*that, VInstr::CheckPos(w) if a == w),
            VInstr::Load(a, m) => matches!(*that, VInstr::Load(w, t) if a == w && m == t),
            VInstr::Store(m, a) => matches!(*that, VInstr::Store(t, w) if m == t && a == w),
            VInstr::Addr(a, m) => matches!(*that, VInstr::Addr(w, t) if a == w && m == t),
            VInstr::Push(a) => matches!(*that, VInstr::Push(w) if a == w),
            VInstr::Call(p) => matches!(*that, VInstr::Call(q) if p == q),
            VInstr::Read(a) => matches!(*that, VInstr::Read(w) if a == w),
            VInstr::Write(a) => matches!(*that, VInstr::Write(w) if a == w),
            VInstr::Line => matches!(*that, VInstr::Line),
            VInstr::Clear => matches!(*that, VInstr::Clear),
        }
    }
}

impl Same for Block {
    fn is_same(&self, that: &Block) -> bool {
        self.depth == that.depth
            && self.end == that.end
            && are_same(self.code.as_slice(), that.code.as_slice())
    }
}

impl Same for VProc {
    fn is_same(&self, that: &VProc) -> bool {
        self.id == that.id
            && self.args == that.args
            && self.aggregates == that.aggregates
            && are_same(self.vars.as_slice(), that.vars.as_slice())
            && are_same(self.blocks.as_slice(), that.blocks.as_slice())
    }
}
