// Placed code of selected code and routes.

ghost use Rattle.std.specs.Prelude.{◌≡◌, ◌+◌, ◌*◌, ◌≤◌, ℕ, IsTrue, length, IfOk};
ghost use Rattle.pra_base.specs.Valid.{IsSized, IsValid};
ghost use Rattle.net_form.specs.Admitted.{IsAdmitted};
ghost use Rattle.net_form.specs.Flow.{flow, AreRoutes};
ghost use Rattle.net_form.specs.Network.{IsNet};
ghost use Rattle.pl_made.specs.Made.{IsMade, LaysMoves};
ghost use Rattle.pl_moves.specs.Assignment.{can_move};
ghost use Rattle.pl_place.specs.Behind.{Routed, IsBehind, flow_frame};
ghost use Rattle.pl_place.specs.Placed.{frame_size};
ghost use Rattle.pl_place.specs.Valid.{IsPlaced};
ghost use Rattle.pl_routed.specs.Routed.{routed};
ghost use Rattle.pl_build.specs.Laid.{AreLayers, AreBlocks};
ghost use Rattle.pl_build.specs.Layers.{layer};

use crate::layers::layers_of;
use crate::laying::lay_block;
use crate::slots::slots_of;
use net_form::{Net, Routes};
use pl_moves::Pair;
use pl_place::{LBlock, LProc};
use pra_base::{Block, OutOfMemory, VProc};
use pra_list::Seq;
use std::alloc::Global;
use vc_code::is_near;

// A block whose layers begin with layer `first`.
fn place_block(
    alloc: Global,
    block: &Block,
    layers: &[Seq<Pair>],
    first: usize,
) -> Result<LBlock, OutOfMemory>
    requires within { first + 2 * length block.now.code + 2 ≤ length layers.now }
    requires movable { (k : ℕ) → k ≤ length block.now.code →
        IsTrue (can_move (layer layers.now (first + 2 * k + 1))) }
    ensures end { IfOk result (λ placed. placed.end ≡ block.now.end) }
    ensures lays { IfOk result (λ placed. (r : Routed) (b : ℕ) →
        AreLayers r b block.now.code first layers.now →
        LaysMoves r b 0 block.now.code placed.code) }
{
    Ok(LBlock {
        code: lay_block(alloc, block.code.as_slice(), layers, first)?,
        end: block.end,
    })
}

// All blocks.
fn place_blocks(
    alloc: Global,
    code: &VProc,
    net: &Net,
    routes: &Routes,
) -> Result<Seq<LBlock>, OutOfMemory>
    requires sized { IsSized code.now }
    requires net { IsNet net.now code.now }
    requires routes { AreRoutes net.now routes.now }
    requires admitted { IsAdmitted net.now (flow net.now routes.now) }
    ensures { IfOk result (λ blocks.
        AreBlocks (routed code.now net.now routes.now) (length code.now.blocks) blocks) }
{
    let layers = layers_of(alloc, code, net, routes)?;
    let mut blocks = Seq::from_vec(Vec::with_capacity(alloc, code.blocks.len())?);
    for b in 0..code.blocks.len() {
        let first = net.index.layers[b] as usize;
        blocks.push(place_block(alloc, &code.blocks[b], &layers, first)?)?;
    }
    Ok(blocks)
}

/// Placed code of sized code and admitted routes of its network. Of valid code it is valid.
///
/// Before each instruction and before the end of each block stand the moves of that layer, which
/// take every variable from its place to the next at once. The local variables that come to memory
/// somewhere have a slot each, in the order of their numbers. Linear in the edges of the routes.
///
/// # Errors
///
/// Where there is no memory for it.
pub fn place(alloc: Global, code: &VProc, net: &Net, routes: &Routes) -> Result<LProc, OutOfMemory>
    requires sized { IsSized code.now }
    requires net { IsNet net.now code.now }
    requires routes { AreRoutes net.now routes.now }
    requires admitted { IsAdmitted net.now (flow net.now routes.now) }
    ensures made { IfOk result (IsMade (routed code.now net.now routes.now)) }
    ensures behind { IfOk result (IsBehind (routed code.now net.now routes.now)) }
    ensures placed { IsValid code.now → IfOk result IsPlaced }
    ensures frame { IfOk result (λ p.
        frame_size p ≡ flow_frame (routed code.now net.now routes.now)) }
{
    Ok(LProc {
        id: code.id,
        args: code.args,
        aggregates: code.aggregates,
        vars: Seq::from_slice(alloc, code.vars.as_slice())?,
        slots: slots_of(alloc, code, net, routes)?,
        near: is_near(code),
        blocks: place_blocks(alloc, code, net, routes)?,
    })
}
