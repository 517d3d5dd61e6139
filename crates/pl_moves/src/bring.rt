// What pairs ask for, of memory and of registers.

ghost use Rattle.std.specs.Prelude.{◌≡◌};
ghost use Rattle.pl_moves.specs.Sequence.{alone, same_register, store_of, outside, bring_between};
ghost use Rattle.pl_moves.specs.Sequence.{bring_of, comes_from, bring_move, swap_move};

use crate::transfer::{Move, Pair};
use pra_base::{Place, VarId};

/// Where a value comes from that is brought into a register.
#[derive(Clone, Copy, Drop)]
pub enum Origin {
    Register(Place),
    Memory(VarId),
    Number(i32),
}

/// A value that is brought into a register.
#[derive(Clone, Copy, Drop)]
pub struct Bring {
    pub to: Place,
    pub from: Origin,
}

/// The register of a place, alone.
fn alone(place: Place) -> Place
    ensures { result ≡ alone place }
{
    match place {
        Place::EaxM => Place::Eax,
        Place::EcxM => Place::Ecx,
        Place::EdxM => Place::Edx,
        Place::EbxM => Place::Ebx,
        Place::EsiM => Place::Esi,
        Place::EdiM => Place::Edi,
        other => other,
    }
}

fn is_same_register(one: Place, other: Place) -> bool
    ensures { result ≡ same_register one other }
{
    alone(one).number() == alone(other).number()
}

/// The store of a pair that comes into memory, or None where memory has the value or is not to have
/// it.
pub fn store_of(pair: &Pair) -> Option<Move>
    ensures { result ≡ store_of pair.now }
{
    if pair.to.needs_slot() && !pair.from.needs_slot() {
        Some(Move::Store(pair.var, alone(pair.from)))
    } else {
        None
    }
}

fn outside(pair: &Pair) -> Origin
    ensures { result ≡ outside pair.now }
{
    if pair.from.needs_slot() {
        Origin::Memory(pair.var)
    } else {
        Origin::Number(pair.constant.unwrap_or(0))
    }
}

fn bring_between(pair: &Pair) -> Option<Bring>
    ensures { result ≡ bring_between pair.now }
{
    if is_same_register(pair.to, pair.from) {
        None
    } else {
        Some(Bring {
            to: alone(pair.to),
            from: Origin::Register(alone(pair.from)),
        })
    }
}

/// What a pair brings into a register, or None where the register has it or there is none.
pub fn bring_of(pair: &Pair) -> Option<Bring>
    ensures { result ≡ bring_of pair.now }
{
    if !pair.to.has_register() {
        None
    } else if pair.from.has_register() {
        bring_between(pair)
    } else {
        Some(Bring {
            to: alone(pair.to),
            from: outside(pair),
        })
    }
}

/// Whether a value comes from this register.
pub fn comes_from(from: Origin, register: Place) -> bool
    ensures { result ≡ comes_from from register }
{
    match from {
        Origin::Register(other) => is_same_register(other, register),
        Origin::Memory(_) | Origin::Number(_) => false,
    }
}

/// The move that brings a value into a register.
pub fn bring_move(to: Place, from: Origin) -> Move
    ensures { result ≡ bring_move to from }
{
    match from {
        Origin::Register(other) => Move::Copy(to, other),
        Origin::Memory(var) => Move::Load(to, var),
        Origin::Number(number) => Move::Set(to, number),
    }
}

/// The move that also leaves in the other register what this one held.
pub fn swap_move(to: Place, from: Origin) -> Move
    ensures { result ≡ swap_move to from }
{
    match from {
        Origin::Register(other) => Move::Swap(to, other),
        Origin::Memory(_) | Origin::Number(_) => bring_move(to, from),
    }
}
