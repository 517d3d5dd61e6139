// What an instruction does to the values of its read operands.

ghost use Rattle.std.specs.Prelude.{◌≡◌, ◌<◌, ◌+◌, ◌*◌, ◌%◌, ◌^◌, IfSome};
ghost use Rattle.pra_base.specs.Words.{word as word_of};
ghost use Rattle.vc_code.specs.Operation as operation;

use crate::action::{Action, Here};
use crate::arithmetic::{
    compares, difference, is_index, is_positive, product, quotient, remainder, shifted, signed,
    sum, truth, word,
};
use crate::value::{Held, Object, Value};
use pra_base::{Addr, Base, OutEvent, TrapKind, VInstr, VarId};

fn value_at(held: &[Held], k: usize) -> Option<Value>
    ensures { result ≡ operation.value_at held.now k }
{
    held.get(k).copied().unwrap_or(None)
}

fn number_at(held: &[Held], k: usize) -> Option<u32>
    ensures { result ≡ operation.number_at held.now k }
{
    match value_at(held, k) {
        Some(Value::Num(n)) => Some(n),
        Some(Value::At(_, _)) | None => None,
    }
}

// The object and the byte offset modulo 2 ^ 32, of a start, an offset and an index that counts
// words.
fn byte(start: u64, offset: i32, index: u32) -> u32
    requires { start < 2 ^ 34 }
    ensures { result ≡ (start + word_of offset + 4 * index) % 2 ^ 32 }
{
    ((start + u64::from(word(offset)) + 4 * u64::from(index)) % 0x1_0000_0000) as u32
}

fn base_count(base: Base) -> usize
    ensures { result ≡ operation.base_count base }
{
    match base {
        Base::Via(_) => 1,
        Base::Global(_) | Base::Frame(_) | Base::Cell(_) => 0,
    }
}

fn address_count(a: &Addr) -> usize
    ensures { result ≡ operation.address_count a.now }
{
    let index = match a.index {
        Some(_) => 1,
        None => 0,
    };
    base_count(a.base) + index
}

fn based(here: &Here, base: Base, held: &[Held]) -> Option<(Object, u64)>
    ensures place { result ≡ operation.based here.now base held.now }
    ensures small { IfSome result (λ place. place.1 < 2 ^ 34) }
{
    match base {
        Base::Global(at) => Some((Object::Data, 4 * u64::from(at))),
        Base::Frame(at) => {
            let own = Object::Aggregates {
                calls: here.calls,
                sum: here.sum,
            };
            Some((own, 4 * u64::from(at)))
        }
        Base::Cell(argument) => {
            let cell = Object::Cell {
                calls: here.calls,
                below: here.below,
                argument,
            };
            Some((cell, 0))
        }
        Base::Via(_) => match value_at(held, 0) {
            Some(Value::At(x, offset)) => Some((x, u64::from(offset))),
            Some(Value::Num(_)) | None => None,
        },
    }
}

fn indexed(index: Option<VarId>, held: &[Held], k: usize) -> Option<u32>
    ensures { result ≡ operation.indexed index held.now k }
{
    match index {
        None => Some(0),
        Some(_) => number_at(held, k),
    }
}

fn placed(here: &Here, a: &Addr, held: &[Held]) -> Option<(Object, u32)>
    ensures { result ≡ operation.placed here.now a.now held.now }
{
    let (x, start) = based(here, a.base, held)?;
    let index = indexed(a.index, held, base_count(a.base))?;
    Some((x, byte(start, a.offset, index)))
}

fn gives(n: u32) -> Option<Action>
    ensures { result ≡ operation.gives n }
{
    Some(Action::Give(Value::Num(n)))
}

fn both(held: &[Held]) -> Option<(u32, u32)>
    ensures { result ≡ operation.both held.now }
{
    let a = number_at(held, 0)?;
    let b = number_at(held, 1)?;
    Some((a, b))
}

/// The action of an instruction on what its read operands hold, in the order of the operand table,
/// or None where it is stuck.
pub fn operate(here: &Here, i: &VInstr, held: &[Held]) -> Option<Action>
    ensures { result ≡ operation.operate here.now i.now held.now }
{
    match *i {
        VInstr::Set(_, n) => gives(word(n)),
        VInstr::Copy(_, _) => Some(Action::Give(value_at(held, 0)?)),
        VInstr::Add(_, _) => {
            let (a, b) = both(held)?;
            gives(sum(a, b))
        }
        VInstr::Sub(_, _) => {
            let (a, b) = both(held)?;
            gives(difference(a, b))
        }
        VInstr::And(_, _) => {
            let (a, b) = both(held)?;
            gives(a & b)
        }
        VInstr::Or(_, _) => {
            let (a, b) = both(held)?;
            gives(a | b)
        }
        VInstr::Xor(_, _) => {
            let (a, b) = both(held)?;
            gives(a ^ b)
        }
        VInstr::Mul(_, _) => {
            let (a, b) = both(held)?;
            gives(product(a, b))
        }
        VInstr::Neg(_) => gives(difference(0, number_at(held, 0)?)),
        VInstr::Shift(op, _, n) => gives(shifted(op, number_at(held, 0)?, n)),
        VInstr::Cmp(_, _) => {
            let (a, b) = both(held)?;
            Some(Action::Compare(a, b))
        }
        VInstr::CmpSet(cond, _, _, _) => {
            let (a, b) = both(held)?;
            gives(truth(compares(cond, a, b)))
        }
        VInstr::DivMod(_, _, _, _) => {
            let (a, d) = both(held)?;
            if is_positive(d) {
                let q = Value::Num(quotient(a, d));
                Some(Action::GiveBoth(q, Value::Num(remainder(a, d))))
            } else {
                None
            }
        }
        VInstr::Check(_, n) => {
            let a = number_at(held, 0)?;
            if is_index(a, n) {
                Some(Action::Nothing)
            } else {
                Some(Action::Trap(TrapKind::Index))
            }
        }
        VInstr::CheckPos(_) => {
            let a = number_at(held, 0)?;
            if is_positive(a) {
                Some(Action::Nothing)
            } else {
                Some(Action::Trap(TrapKind::Divide))
            }
        }
        VInstr::Load(_, a) => {
            let (x, at) = placed(here, &a, held)?;
            Some(Action::Load(x, at))
        }
        VInstr::Store(a, _) => {
            let (x, at) = placed(here, &a, held)?;
            Some(Action::Store(x, at, number_at(held, address_count(&a))?))
        }
        VInstr::Addr(_, a) => {
            let (x, at) = placed(here, &a, held)?;
            Some(Action::Give(Value::At(x, at)))
        }
        VInstr::Push(_) => Some(Action::Push(value_at(held, 0)?)),
        VInstr::Call(proc) => Some(Action::Call(proc)),
        VInstr::Read(_) => Some(Action::Input),
        VInstr::Write(_) => Some(Action::Tell(OutEvent::Number(signed(number_at(held, 0)?)))),
        VInstr::Line => Some(Action::Tell(OutEvent::Line)),
        VInstr::Clear => Some(Action::Clear),
    }
}
