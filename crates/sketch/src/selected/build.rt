// Procedures and modules of selected code by short calls.

ghost use Rattle.std.specs.Prelude.{◌≡◌, IfOk};

use pra_base::{Block, End, ProcId, VInstr, VModule, VProc, VarKind};
use pra_list::Seq;
use std::alloc::{AllocError, Global};

/// A block of these instructions, in no loop.
///
/// # Errors
///
/// Where there is no memory for it.
pub fn block(alloc: Global, code: &[VInstr], end: End) -> Result<Block, AllocError>
    ensures { IfOk result (λ block. block ≡ record { depth = 0; code = code.now; end = end }) }
{
    Ok(Block {
        depth: 0,
        code: Seq::from_slice(alloc, code)?,
        end,
    })
}

/// A procedure of these blocks.
///
/// # Errors
///
/// Where there is no memory for its variables.
pub fn procedure(
    alloc: Global,
    id: u32,
    args: u32,
    aggregates: u32,
    vars: &[VarKind],
    blocks: Vec<Block>,
) -> Result<VProc, AllocError>
    ensures { IfOk result (λ code. code ≡ record {
      id = record { 0 = id };
      args = args;
      aggregates = aggregates;
      vars = vars.now;
      blocks = blocks.items;
    }) }
{
    Ok(VProc {
        id: ProcId(id),
        args,
        aggregates,
        vars: Seq::from_slice(alloc, vars)?,
        blocks: Seq::from_vec(blocks),
    })
}

/// A module of these procedures, its body first.
pub fn module(procs: Vec<VProc>, data_words: u32) -> VModule
    ensures { result ≡ record { procs = procs.items; data_words = data_words } }
{
    VModule {
        procs: Seq::from_vec(procs),
        data_words,
    }
}
