// All lists of a network but for its groups.

ghost use Rattle.std.specs.Prelude.{◌≡◌, ◌<◌, length, map, IfOk};
ghost use Rattle.pra_base.specs.Valid.{IsSized};
ghost use Rattle.net_form.specs.Network.{net_block};
ghost use Rattle.vc_live.specs.Rows.{live_at, IsLiveness};
ghost use Rattle.net_build.specs.Lists.{AreLists};

use crate::extras::extras_of;
use crate::pairs::pairs_of;
use crate::strands::{layer_count, strands_of};
use crate::ties::ties_of;
use net_form::{Extra, MemPair, NetBlock, Strand, Tie};
use pra_base::{OutOfMemory, VProc};
use pra_list::Seq;
use std::alloc::{AllocError, Global};
use vc_code::is_near;
use vc_live::Liveness;

/// The lists of a network, before its ends are in groups.
#[derive(Debug, PartialEq, Eq, Drop)]
pub struct Lists {
    /// Whether memory is reached by displacements of 8 bits.
    pub near: bool,
    pub blocks: Seq<NetBlock>,
    pub strands: Seq<Strand>,
    pub extras: Seq<Extra>,
    pub pairs: Seq<MemPair>,
    pub ties: Seq<Tie>,
}

// The blocks, as the network sees them.
fn blocks_of(alloc: Global, code: &VProc) -> Result<Seq<NetBlock>, AllocError>
    requires { IsSized code.now }
    ensures { IfOk result (λ blocks. blocks ≡ map net_block code.now.blocks) }
{
    let mut blocks = Seq::from_vec(Vec::with_capacity(alloc, code.blocks.len())?);
    for block in 0..code.blocks.len() as u32 {
        blocks.push(NetBlock {
            depth: code.blocks[block as usize].depth,
            layers: layer_count(code, block),
        })?;
    }
    Ok(blocks)
}

/// The lists of the network of a code, whose liveness this is.
///
/// # Errors
///
/// Where there is no memory for them.
pub fn lists_of(alloc: Global, code: &VProc, live: &Liveness) -> Result<Lists, OutOfMemory>
    requires sized { IsSized code.now }
    requires live { IsLiveness code.now live.now }
    ensures { IfOk result (AreLists code.now (live_at live.now)) }
{
    let near = is_near(code);
    let blocks = blocks_of(alloc, code)?;
    let strands = strands_of(alloc, code, live)?;
    let extras = extras_of(alloc, code, near, &strands)?;
    let pairs = pairs_of(alloc, code, &strands)?;
    let ties = ties_of(alloc, code, &strands)?;
    Ok(Lists {
        near,
        blocks,
        strands,
        extras,
        pairs,
        ties,
    })
}
