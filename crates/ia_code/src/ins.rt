// The instructions, in the order of the table of their bytes. Names and operand order are the Intel
// manual's.

use pra_base::{Cond, ShiftOp};

/// The general registers, numbered 0 to 7 in this order (SDM volume 2, table 2-2).
#[derive(Clone, Copy, Debug, PartialEq, Eq, Drop)]
pub enum Reg {
    Eax,
    Ecx,
    Edx,
    Ebx,
    Esp,
    Ebp,
    Esi,
    Edi,
}

/// How many bits the displacement of an address has.
#[derive(Clone, Copy, Debug, PartialEq, Eq, Drop)]
pub enum Width {
    D0,
    D8,
    D32,
}

/// The address base + index * scale + displacement, with scale 1, 2, 4 or 8.
#[derive(Clone, Copy, Debug, PartialEq, Eq, Drop)]
pub struct MemAddr {
    pub base: Option<Reg>,
    pub index: Option<(Reg, u8)>,
    pub disp: i32,
    pub width: Width,
}

/// The operand that ModRM's fields mod and rm name: a register or a doubleword in memory.
#[derive(Clone, Copy, Debug, PartialEq, Eq, Drop)]
pub enum Rm {
    Reg(Reg),
    Mem(MemAddr),
}

/// The operations that share one row of opcodes, numbered 0, 1, 4, 5, 6 and 7 in this order.
#[derive(Clone, Copy, Debug, PartialEq, Eq, Drop)]
pub enum AluOp {
    Add,
    Or,
    And,
    Sub,
    Xor,
    Cmp,
}

/// An instruction. The target stands first. Of `Xchg` and `Test` the first register is the rm field
/// and the second the reg field; the first of `Movzx` is the reg field.
#[derive(Clone, Copy, Debug, PartialEq, Eq, Drop)]
pub enum Ins {
    MovRmR(Rm, Reg),
    MovRRm(Reg, Rm),
    MovRI(Reg, i32),
    MovRmI(Rm, i32),
    AluRmR(AluOp, Rm, Reg),
    AluRRm(AluOp, Reg, Rm),
    AluRmI(AluOp, Rm, i32),
    AluRmB(AluOp, Rm, i8),
    ImulRRm(Reg, Rm),
    ImulI(Reg, Rm, i32),
    ImulB(Reg, Rm, i8),
    Neg(Rm),
    /// By so many bits, of which the low five count.
    Shift(ShiftOp, Rm, u8),
    Idiv(Rm),
    Cdq,
    Lea(Reg, MemAddr),
    PushR(Reg),
    PopR(Reg),
    PushM(MemAddr),
    PushI(i32),
    Call(i32),
    Ret,
    RetI(u16),
    Jmp(i32),
    Jcc(Cond, i32),
    Set(Cond, Reg),
    Movzx(Reg, Reg),
    Xchg(Reg, Reg),
    Test(Reg, Reg),
    Int(u8),
}
