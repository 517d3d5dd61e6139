// The last open block is left by Return, the blocks are brought into the order in which they are
// listed, and branches are turned round where the other way is shorter.

ghost use Rattle.std.specs.Prelude.{◌≡◌, IfOk};
ghost use Rattle.vc_build.specs.Grow.{IsOpen, count, open_blocks};
ghost use Rattle.vc_build.specs.Text.{IsLast};
ghost use Rattle.vc_order.specs.Order.{IsListing};
ghost use Rattle.vc_proc.specs.Finished.{IsFinished};

use crate::number::number_of;
use pra_base::{BlockId, End, OutOfMemory, VProc};
use std::alloc::Global;
use vc_build::close;
use vc_order::{in_listed_order, take_short_ways};

/// The code with its last open block, the only one, left by Return, and with its blocks in the
/// order in which they are listed. In that order its branches take the short way.
///
/// # Errors
///
/// Where there is no memory, or no number.
pub fn finish(
    alloc: Global,
    code: VProc,
    last: BlockId,
    order: &[BlockId],
) -> Result<VProc, OutOfMemory>
    requires is_open { IsOpen code last.0 }
    requires no_other { open_blocks code ≡ 1 }
    requires listing { IsListing (count code) order.now }
    requires is_last { IsLast order.now last.0 }
    ensures { IfOk result (λ new. IsFinished code last.0 order.now new) }
{
    let end = number_of(code.blocks.len() - 1)?;
    let mut code = in_listed_order(alloc, code, order)?;
    close(alloc, &mut code, BlockId(end), End::Return);
    Ok(take_short_ways(code))
}
