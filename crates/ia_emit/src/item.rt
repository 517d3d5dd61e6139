// One instruction of the code before its place is known.

use ia_code::{Ins, MemAddr, Reg};
use pra_base::{BlockId, Cond, ProcId, TrapKind};

/// Where a jump of a procedure goes: to a block of it, or to the code that raises a trap.
#[derive(Clone, Copy, Debug, PartialEq, Eq, Drop)]
pub enum Target {
    Block(BlockId),
    Stub(TrapKind),
}

/// An instruction, where a jump or a call names what it goes to in place of the distance.
#[derive(Clone, Copy, Debug, PartialEq, Eq, Drop)]
pub enum Item {
    Plain(Ins),
    Jump(Target),
    Branch(Cond, Target),
    Call(ProcId),
}

// What stands in the rest of a small vector.
impl Default for Item {
    fn default() -> Item {
        Item::Plain(Ins::Cdq)
    }
}

/// What an instruction takes for an operand of placed code.
#[derive(Clone, Copy, Debug, PartialEq, Eq, Drop)]
pub enum Operand {
    Register(Reg),
    Memory(MemAddr),
    Number(i32),
}
