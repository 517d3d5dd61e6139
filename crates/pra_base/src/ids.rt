// The names of procedures, variables and blocks, places and conditions.

/// A procedure, by its number: 0 is the module's body, the others follow in the order of their
/// headings.
#[derive(Clone, Copy, Debug, PartialEq, Eq)]
pub struct ProcId(pub u32);

/// A variable of selected code, by its number in its procedure.
#[derive(Clone, Copy, Debug, PartialEq, Eq)]
pub struct VarId(pub u32);

/// A basic block, by its number in its procedure.
#[derive(Clone, Copy, Debug, PartialEq, Eq)]
pub struct BlockId(pub u32);

/// Where a value may stand (its location): one of the six registers that are allocated, the
/// variable's own memory, nowhere, since it is a constant, or a *both place*, a register and the
/// variable's memory at once, with one value. They are numbered 0 to 13 in this order.
#[derive(Clone, Copy, Debug, PartialEq, Eq)]
pub enum Place {
    Eax,
    Ecx,
    Edx,
    Ebx,
    Esi,
    Edi,
    Mem,
    Const,
    EaxM,
    EcxM,
    EdxM,
    EbxM,
    EsiM,
    EdiM,
}

/// A condition of a jump or of SETcc, by the Intel manual's names (SDM volume 1, appendix B, EFLAGS
/// condition codes).
#[derive(Clone, Copy, Debug, PartialEq, Eq)]
pub enum Cond {
    B,
    Ae,
    E,
    Ne,
    Be,
    A,
    S,
    Ns,
    L,
    Ge,
    Le,
    G,
}

/// Which way a word is shifted: to the left, to the right with zeros, or to the right with its sign
/// (SDM volume 2, SAL/SAR/SHL/SHR).
#[derive(Clone, Copy, Debug, PartialEq, Eq)]
pub enum ShiftOp {
    Shl,
    Shr,
    Sar,
}
