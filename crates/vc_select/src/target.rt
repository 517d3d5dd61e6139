// What selection works on, and where it finds a variable of the source.

use ob_syntax::Checked;
use pra_base::{Addr, BlockId, ProcId, VProc, VarId};
use pra_list::Seq;
use std::alloc::Global;
use vc_relation::Home;

/// What selection knows of the module and of the procedure for which it adds code.
#[derive(Clone, Copy)]
pub struct Setting<'a> {
    pub alloc: Global,
    pub program: &'a Checked,
    /// The words of each type, by its number.
    pub words: &'a [u32],
    pub id: ProcId,
    /// Where each parameter of the procedure is, and each local.
    pub params: &'a [Home],
    pub locals: &'a [Home],
}

/// The code so far, the open block at whose end code is added, and the blocks that were entered, in
/// the order in which they are listed.
#[derive(Drop)]
pub struct Ctx {
    pub code: VProc,
    pub at: BlockId,
    pub order: Seq<BlockId>,
}

/// Where a variable of the source is: in a variable of the code, or at an address.
#[derive(Clone, Copy, Debug, PartialEq, Eq)]
pub enum Target {
    Var(VarId),
    Memory(Addr),
}
