// A procedure of placed code as bytes.

ghost use Rattle.std.specs.Prelude.{◌+◌, ◌≤◌, IfOk, OnOk};
ghost use Rattle.ia_code.specs.Image.{max_code_bytes};
ghost use Rattle.ia_emit.specs.Open.{IsOpen};
ghost use Rattle.ia_emit.specs.Code.{size, target_in};
ghost use Rattle.ia_emit.specs.Emission.{emit_proc};
ghost use Rattle.ia_emit.specs.Operands.{IsSmall};
ghost use Rattle.ia_emit.specs.Sound.{HasOffset};
ghost use Rattle.pl_place.specs.Valid.{IsPlaced, EachOp};

use crate::body::list_body;
use crate::bytes::{Piece, put_all};
use crate::frame::Frame;
use crate::layout::{Layout, places};
use crate::table::table;
use pl_place::LProc;
use pra_base::OutOfMemory;
use std::alloc::Global;

/// The bytes of a procedure that begins at a place, without the distances of its calls.
///
/// # Errors
///
/// Where there is no memory for them.
pub fn piece_of(alloc: Global, proc: &LProc, at: u32) -> Result<Piece, OutOfMemory>
    requires placed { IsPlaced proc.now }
    requires small { IsSmall proc.now }
    requires room { at + size (emit_proc proc.now) ≤ max_code_bytes }
    ensures open { let target = target_in proc.now at in
        IfOk result (λ p. IsOpen target at (emit_proc proc.now) p.bytes.items p.calls.items) }
    // Its offsets were read, so each of them is a number of 32 bits.
    ensures offsets { OnOk result (EachOp proc.now (λ i places. HasOffset i)) }
{
    let memory = table(alloc, proc)?;
    let frame = Frame {
        proc,
        memory: memory.as_slice(),
    };
    let body = list_body(alloc, &frame)?;
    let items = body.items.as_slice();
    let (places, end) = places(alloc, items, at)?;
    let layout = Layout {
        proc,
        at,
        count: items.len(),
        first: body.first.as_slice(),
        places: places.as_slice(),
        end,
    };
    put_all(alloc, &layout, items)
}
