// The instructions of a procedure, one behind the other.

ghost use Rattle.std.specs.Prelude.{◌≡◌, ◌<◌, ◌++◌, flat_map, IfOk, OnOk};
ghost use Rattle.ia_emit.specs.Emission.{emit as emitted, emit_block, emit_proc};
ghost use Rattle.ia_emit.specs.Layout.{AreFirst};
ghost use Rattle.ia_emit.specs.Sound.{EachOffsetFits, HasOffset};
ghost use Rattle.pl_place.specs.Valid.{EachOp};

use crate::emission::{Items, emit, emit_end, prologue};
use crate::frame::Frame;
use crate::item::Item;
use pl_place::{LBlock, LInstr};
use pra_base::OutOfMemory;
use std::alloc::Global;

/// A procedure's instructions, and of each block the number of its first one.
#[derive(Drop)]
pub struct Body {
    pub items: Vec<Item>,
    pub first: Vec<usize>,
}

fn append(items: &mut Vec<Item>, more: &Items) -> Result<(), OutOfMemory>
    ensures { OnOk result (items.new.items ≡ items.old.items ++ more.now.items) }
{
    items.extend_from_slice(more.as_slice())?;
    Ok(())
}

fn append_code(items: &mut Vec<Item>, frame: &Frame<'_>, code: &[LInstr]) -> Result<(), OutOfMemory>
    ensures items { let f = emitted frame.now.proc.now in
        OnOk result (items.new.items ≡ items.old.items ++ flat_map f code.now) }
    ensures offsets { OnOk result (EachOffsetFits code.now) }
{
    for instruction in code {
        append(items, &emit(frame, instruction))?;
    }
    Ok(())
}

fn append_block(
    items: &mut Vec<Item>,
    frame: &Frame<'_>,
    k: usize,
    block: &LBlock,
) -> Result<(), OutOfMemory>
    requires { k < usize.MAX }
    ensures items { let more = emit_block frame.now.proc.now k block.now in
        OnOk result (items.new.items ≡ items.old.items ++ more) }
    ensures offsets { OnOk result (EachOffsetFits block.now.code) }
{
    append_code(items, frame, block.code.as_slice())?;
    append(items, &emit_end(frame, k + 1, &block.end))
}

/// A procedure's instructions.
///
/// # Errors
///
/// Where there is no memory for them.
pub fn list_body(alloc: Global, frame: &Frame<'_>) -> Result<Body, OutOfMemory>
    ensures items { IfOk result (λ body. body.items.items ≡ emit_proc frame.now.proc.now) }
    ensures first { IfOk result (λ body. AreFirst frame.now.proc.now body.first.items) }
    ensures offsets { OnOk result (EachOp frame.now.proc.now (λ i places. HasOffset i)) }
{
    let mut items = Vec::new(alloc);
    let mut first = Vec::new(alloc);
    append(&mut items, &prologue(frame))?;
    for (k, block) in frame.proc.blocks.as_slice().iter().enumerate() {
        first.push(items.len())?;
        append_block(&mut items, frame, k, block)?;
    }
    Ok(Body { items, first })
}
