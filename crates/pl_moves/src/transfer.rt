// What is to be moved, and the moves that do it.

ghost use Rattle.std.specs.Prelude.{◌≡◌};
ghost use Rattle.std.specs.List.{list_all};
ghost use Rattle.pra_base.specs.Places.{number};
ghost use Rattle.pl_moves.specs.Assignment.{suits, suits_pair, share_register, are_apart, can_move};
ghost use Rattle.pl_moves.specs.Lengths.{move_bytes};

use pra_base::{Place, VarId};

/// A variable that comes from one place to another. A Constant has its number.
#[derive(Clone, Copy, Debug, PartialEq, Eq, Drop)]
pub struct Pair {
    pub var: VarId,
    pub from: Place,
    pub to: Place,
    pub constant: Option<i32>,
}

/// A move; the target stands first, and every place is a register. It changes no flag.
#[derive(Clone, Copy, Debug, PartialEq, Eq, Drop)]
pub enum Move {
    Copy(Place, Place),
    Swap(Place, Place),
    /// Out of the variable's memory.
    Load(Place, VarId),
    /// Into the variable's memory.
    Store(VarId, Place),
    Set(Place, i32),
}

impl Move {
    /// How many bytes of code the move is, where slots and argument cells have displacements of 8
    /// bits (near) or 32.
    pub fn bytes(self, near: bool) -> u32
        ensures { result ≡ move_bytes near self }
    {
        match self {
            Move::Copy(..) | Move::Swap(..) => 2,
            Move::Load(..) | Move::Store(..) if near => 3,
            Move::Load(..) | Move::Store(..) => 6,
            Move::Set(..) => 5,
        }
    }
}

fn suits(constant: Option<i32>, place: Place) -> bool
    ensures { result ≡ suits constant (number place) }
{
    match constant {
        Some(_) => !place.needs_slot(),
        None => !place.is_const(),
    }
}

fn suits_pair(pair: &Pair) -> bool
    ensures { result ≡ suits_pair pair.now }
{
    suits(pair.constant, pair.from) && suits(pair.constant, pair.to)
}

fn share_register(one: Place, other: Place) -> bool
    ensures { result ≡ share_register one other }
{
    one.has_register() && other.has_register() && one.register() == other.register()
}

fn are_apart(one: &Pair, other: &Pair) -> bool
    ensures { result ≡ are_apart one.now other.now }
{
    one.var.0 != other.var.0
        && !share_register(one.from, other.from)
        && !share_register(one.to, other.to)
}

fn is_apart(one: &Pair, others: &[Pair]) -> bool
    ensures { result ≡ list_all (are_apart one.now) others.now }
{
    match others.split_first() {
        None => true,
        Some((first, rest)) => are_apart(one, first) && is_apart(one, rest),
    }
}

/// Whether pairs can be moved at once: each pair's places suit its variable, and no two pairs have
/// one variable, or one register among their sources or among their targets. Tests any two pairs,
/// so it is for few pairs or for tests.
pub fn can_move(pairs: &[Pair]) -> bool
    ensures { result ≡ can_move pairs.now }
{
    match pairs.split_first() {
        None => true,
        Some((first, rest)) => suits_pair(first) && is_apart(first, rest) && can_move(rest),
    }
}
