// The instructions that placed code becomes, one of it after the other.

ghost use Rattle.std.specs.Prelude.{◌≡◌, ◌≤◌, nat_eq, length, [], ◌∷◌, ◌++◌};
ghost use Rattle.pra_base.specs.Places.{number};
ghost use Rattle.pl_place.specs.Placed.{place_in};
ghost use Rattle.ia_emit.specs.Operands.{register_at};
ghost use Rattle.ia_code.specs.declared.ins.AluOp.TheVariants.{Cmp};
ghost use Rattle.ia_code.specs.declared.ins.Ins.TheVariants.{Cdq, Idiv, Set, Movzx};
ghost use Rattle.ia_emit.specs.declared.item.Item.TheVariants.{Plain, Branch};
ghost use Rattle.ia_emit.specs.declared.item.Target.TheVariants.{Stub};
ghost use Rattle.ia_emit.specs.Emission.{rm_of as rm, reg_of as reg, bound};
ghost use Rattle.ia_emit.specs.Emission.{address as address_of, address_count as count_of};
ghost use Rattle.ia_emit.specs.Emission.{via_count as via_count_of, at as at_place};
ghost use Rattle.ia_emit.specs.Emission.{operation as operation_of, clear as clear_of};
ghost use Rattle.ia_emit.specs.Emission.{emit_op as op_of, emit as emitted, leave as leave_of};
ghost use Rattle.ia_emit.specs.Emission.{return, emit_end as end_of, prologue as prologue_of};
ghost use Rattle.ia_emit.specs.Sound.{HasOffset, OffsetFits};

use crate::frame::{Frame, register};
use crate::item::{Item, Operand, Target};
use crate::operation::{
    call_service, combine, combine_number, copy, emit_move, multiply, push, reg_of, rm_of, set,
    store,
};
use arrayvec::ArrayVec;
use ia_code::regions::{RESERVE, STACK_BASE};
use ia_code::{AluOp, Ins, MemAddr, Reg, Rm, Service, Width};
use pl_place::LInstr;
use pra_base::{Addr, Base, BlockId, Cond, End, Place, TrapKind, VInstr, VarId};

/// What one instruction of placed code becomes.
pub type Items = ArrayVec<Item, 8>;

fn listed(items: &[Item]) -> Items
    requires { length items.now ≤ 8 }
    ensures { result.items ≡ items.now }
{
    let mut list = ArrayVec::new();
    for item in items {
        list.push(*item);
    }
    list
}

fn place_at(places: &[Place], k: usize) -> Place
    ensures { number result ≡ place_in places.now k }
{
    places.get(k).copied().unwrap_or(Place::Eax)
}

/// The operand at number k, where a variable stands.
fn at(frame: &Frame<'_>, places: &[Place], var: VarId, k: usize) -> Operand
    ensures { result ≡ at_place frame.now.proc.now places.now var k }
{
    frame.operand(var, place_at(places, k))
}

fn via_count(base: Base) -> usize
    ensures value { result ≡ via_count_of base }
    ensures few { result ≤ 1 }
{
    match base {
        Base::Via(_) => 1,
        Base::Global(_) | Base::Frame(_) | Base::Cell(_) => 0,
    }
}

/// How many variables an address names.
fn address_count(from: &Addr) -> usize
    ensures { result ≡ count_of from.now }
{
    match from.index {
        Some(_) => via_count(from.base) + 1,
        None => via_count(from.base),
    }
}

/// The address of an object's word, whose variables are the first operands.
fn address(frame: &Frame<'_>, from: &Addr, places: &[Place]) -> MemAddr
    ensures { result ≡ address_of frame.now.proc.now from.now places.now }
{
    let via = register(place_at(places, 0));
    let index = match from.index {
        Some(_) => Some((register(place_at(places, via_count(from.base))), 4)),
        None => None,
    };
    frame.object_word(from, via, index)
}

/// v op= s, or a compared with b.
fn operation(frame: &Frame<'_>, places: &[Place], op: AluOp, v: VarId, s: VarId) -> Item
    ensures { result ∷ [] ≡ operation_of frame.now.proc.now places.now op v s }
{
    Item::Plain(combine(op, at(frame, places, v, 0), at(frame, places, s, 1)))
}

/// The loop that clears the aggregate words.
fn clear(frame: &Frame<'_>) -> Items
    ensures { result.items ≡ clear_of frame.now.proc.now }
{
    let last_word = MemAddr {
        base: Some(Reg::Ebp),
        index: Some((Reg::Ecx, 4)),
        disp: -(16 + 4 * frame.locals() as i32),
        width: Width::D32,
    };
    listed(&[
        Item::Plain(Ins::MovRI(Reg::Ecx, frame.proc.aggregates as i32)),
        Item::Plain(Ins::MovRmI(Rm::Mem(last_word), 0)),
        Item::Plain(Ins::AluRmB(AluOp::Sub, Rm::Reg(Reg::Ecx), 1)),
        Item::Plain(Ins::Jcc(Cond::Ne, -20)),
    ])
}

/// CMP with a bound, and the jump to the stub of a trap.
fn checked(i: Operand, n: i32, when: Cond, trap: TrapKind) -> Items
    ensures { result.items ≡ Plain (bound i n) ∷ Branch when (Stub trap) ∷ [] }
{
    listed(&[
        Item::Plain(combine_number(AluOp::Cmp, i, n)),
        Item::Branch(when, Target::Stub(trap)),
    ])
}

/// What an instruction becomes, with the places of its operands: of those that it reads, then of
/// those that it writes.
fn emit_op(frame: &Frame<'_>, of: VInstr, places: &[Place]) -> Items
    ensures items { result.items ≡ op_of frame.now.proc.now of places.now }
    ensures offset { HasOffset of }
{
    let item = match of {
        VInstr::Set(v, n) => Item::Plain(set(at(frame, places, v, 0), n)),
        VInstr::Copy(v, s) => {
            Item::Plain(copy(at(frame, places, v, 1), at(frame, places, s, 0)))
        }
        VInstr::Add(v, s) => operation(frame, places, AluOp::Add, v, s),
        VInstr::Sub(v, s) => operation(frame, places, AluOp::Sub, v, s),
        VInstr::And(v, s) => operation(frame, places, AluOp::And, v, s),
        VInstr::Or(v, s) => operation(frame, places, AluOp::Or, v, s),
        VInstr::Xor(v, s) => operation(frame, places, AluOp::Xor, v, s),
        VInstr::Mul(v, s) => Item::Plain(multiply(
            reg_of(at(frame, places, v, 0)),
            at(frame, places, s, 1),
        )),
        VInstr::Neg(v) => Item::Plain(Ins::Neg(rm_of(at(frame, places, v, 0)))),
        VInstr::Shift(op, v, n) => {
            Item::Plain(Ins::Shift(op, rm_of(at(frame, places, v, 0)), (n % 32) as u8))
        }
        VInstr::Cmp(a, b) => operation(frame, places, AluOp::Cmp, a, b),
        VInstr::Push(s) => Item::Plain(push(at(frame, places, s, 0))),
        VInstr::Call(callee) => Item::Call(callee),
        VInstr::Read(_) => call_service(Service::ReadNumber),
        VInstr::Write(_) => call_service(Service::WriteNumber),
        VInstr::Line => call_service(Service::WriteLine),
        VInstr::Load(v, from) => Item::Plain(Ins::MovRRm(
            reg_of(at(frame, places, v, address_count(&from))),
            Rm::Mem(address(frame, &from, places)),
        )),
        VInstr::Store(to, s) => Item::Plain(store(
            address(frame, &to, places),
            at(frame, places, s, address_count(&to)),
        )),
        VInstr::Addr(v, from) => Item::Plain(Ins::Lea(
            reg_of(at(frame, places, v, address_count(&from))),
            address(frame, &from, places),
        )),
        VInstr::CmpSet(c, v, a, b) => return set_if(frame, places, c, v, a, b),
        VInstr::DivMod(_, _, _, d) => return divide(at(frame, places, d, 1)),
        VInstr::Check(i, n) => {
            return checked(at(frame, places, i, 0), n, Cond::Ae, TrapKind::Index);
        }
        VInstr::CheckPos(d) => {
            return checked(at(frame, places, d, 0), 0, Cond::Le, TrapKind::Divide);
        }
        VInstr::Clear => return clear(frame),
    };
    listed(&[item])
}

/// CMP, SETcc and MOVZX.
fn set_if(frame: &Frame<'_>, places: &[Place], c: Cond, v: VarId, a: VarId, b: VarId) -> Items
    ensures { let to = reg (at_place frame.now.proc.now places.now v 2) in
        result.items ≡ operation_of frame.now.proc.now places.now Cmp a b
        ++ Plain (Set c to) ∷ Plain (Movzx to to) ∷ [] }
{
    let to = reg_of(at(frame, places, v, 2));
    listed(&[
        operation(frame, places, AluOp::Cmp, a, b),
        Item::Plain(Ins::Set(c, to)),
        Item::Plain(Ins::Movzx(to, to)),
    ])
}

/// The dividend stands in EAX; its sign goes into EDX.
fn divide(by: Operand) -> Items
    ensures { result.items ≡ Plain Cdq ∷ Plain (Idiv (rm by)) ∷ [] }
{
    listed(&[Item::Plain(Ins::Cdq), Item::Plain(Ins::Idiv(rm_of(by)))])
}

/// What an instruction or a move of placed code becomes.
pub fn emit(frame: &Frame<'_>, of: &LInstr) -> Items
    ensures items { result.items ≡ emitted frame.now.proc.now of.now }
    ensures offset { OffsetFits of.now }
{
    match of {
        LInstr::Op(i, places) => emit_op(frame, *i, places.as_slice()),
        LInstr::Move(m) => listed(&[Item::Plain(emit_move(frame, *m))]),
    }
}

/// A block that is not next is jumped to.
fn is_next(next: usize, block: BlockId) -> bool
    ensures { result ≡ nat_eq block.0 next }
{
    block.0 as usize == next
}

/// What a block's end becomes, where the next block has this number.
pub fn emit_end(frame: &Frame<'_>, next: usize, end: &End) -> Items
    ensures { result.items ≡ end_of frame.now.proc.now next end.now }
{
    match end {
        End::Jump(block) if is_next(next, *block) => listed(&[]),
        End::Jump(block) => listed(&[Item::Jump(Target::Block(*block))]),
        End::Branch(c, one, other) if is_next(next, *other) => {
            listed(&[Item::Branch(*c, Target::Block(*one))])
        }
        End::Branch(c, one, other) => listed(&[
            Item::Branch(*c, Target::Block(*one)),
            Item::Jump(Target::Block(*other)),
        ]),
        End::Return => leave(frame),
    }
}

/// The saved registers lie right below EBP, wherever ESP is.
fn leave(frame: &Frame<'_>) -> Items
    ensures { result.items ≡ leave_of frame.now.proc.now }
{
    let saved = MemAddr {
        base: Some(Reg::Ebp),
        index: None,
        disp: -12,
        width: Width::D8,
    };
    listed(&[
        Item::Plain(Ins::Lea(Reg::Esp, saved)),
        Item::Plain(Ins::PopR(Reg::Edi)),
        Item::Plain(Ins::PopR(Reg::Esi)),
        Item::Plain(Ins::PopR(Reg::Ebx)),
        Item::Plain(Ins::PopR(Reg::Ebp)),
        Item::Plain(returns(frame.proc.args)),
    ])
}

/// A return takes so many arguments from the stack.
fn returns(args: u32) -> Ins
    requires { args ≤ 32 }
    ensures { result ≡ return args }
{
    if args == 0 {
        Ins::Ret
    } else {
        Ins::RetI(4 * args as u16)
    }
}

/// How a procedure begins: EBP stands for its frame, which is tested against the stack's reserve,
/// and the registers that it must keep are saved.
pub fn prologue(frame: &Frame<'_>) -> Items
    ensures { result.items ≡ prologue_of frame.now.proc.now }
{
    let lowest = STACK_BASE + RESERVE + 12 + 4 * frame.locals();
    let lowered = Ins::AluRmI(AluOp::Sub, Rm::Reg(Reg::Esp), 4 * frame.locals() as i32);
    let items = [
        Item::Plain(Ins::PushR(Reg::Ebp)),
        Item::Plain(Ins::MovRmR(Rm::Reg(Reg::Ebp), Reg::Esp)),
        Item::Plain(Ins::AluRmI(AluOp::Cmp, Rm::Reg(Reg::Ebp), lowest as i32)),
        Item::Branch(Cond::B, Target::Stub(TrapKind::Stack)),
        Item::Plain(Ins::PushR(Reg::Ebx)),
        Item::Plain(Ins::PushR(Reg::Esi)),
        Item::Plain(Ins::PushR(Reg::Edi)),
        Item::Plain(lowered),
    ];
    if frame.locals() == 0 {
        listed(&items[..7])
    } else {
        listed(&items)
    }
}
