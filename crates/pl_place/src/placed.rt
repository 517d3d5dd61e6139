// Placed code, and the size of a frame.

ghost use Rattle.std.specs.Prelude.{◌≡◌, ◌≤◌, length};
ghost use Rattle.pl_place.specs.Placed.{frame_size};

use arrayvec::ArrayVec;
use pl_moves::Move;
use pra_base::{End, Place, ProcId, VInstr, VarId, VarKind};
use pra_list::Seq;

/// A move, or an instruction with the places of its operands: of those that it reads, then of those
/// that it writes, in the order of the operand table.
#[derive(Debug, PartialEq, Eq, Drop)]
pub enum LInstr {
    Move(Move),
    Op(VInstr, ArrayVec<Place, 5>),
}

/// A basic block of placed code.
#[derive(Debug, PartialEq, Eq, Drop)]
pub struct LBlock {
    pub code: Seq<LInstr>,
    pub end: End,
}

/// A procedure of placed code.
#[derive(Debug, PartialEq, Eq, Drop)]
pub struct LProc {
    pub id: ProcId,
    pub args: u32,
    pub aggregates: u32,
    /// The variables of the selected code, which the operands still name.
    pub vars: Seq<VarKind>,
    /// The variables that have a slot in the frame, slot 0 first.
    pub slots: Seq<VarId>,
    /// Slots and argument cells are reached by displacements of 8 bits.
    pub near: bool,
    pub blocks: Seq<LBlock>,
}

/// How many bytes a call of the procedure takes on the stack: its arguments, the return address,
/// the saved EBP, EBX, ESI and EDI, its aggregates and its slots.
pub fn frame_bytes(p: &LProc) -> u32
    requires args { p.now.args ≤ 32 }
    requires aggregates { p.now.aggregates ≤ 65536 }
    requires slots { length p.now.slots ≤ 16383 }
    ensures { result ≡ frame_size p.now }
{
    4 * (p.args + 5 + p.aggregates + p.slots.len() as u32)
}
