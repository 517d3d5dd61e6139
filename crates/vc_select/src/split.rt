// Conditions of `&` and OR: a block for the right side.

ghost use Rattle.std.specs.Prelude.{◌≡◌, ◌<◌, ◌≤◌, length, IfOk, OnOk};
ghost use Rattle.pra_base.specs.Code.{block_of};
ghost use Rattle.vc_build.specs.Grow.{IsOpen, count, with_open_block};
ghost use Rattle.vc_select.specs.Selects.{inner_targets as inner_targets_of};
ghost use Rattle.vc_select.specs.Selects.{exchanged as exchanged_targets};

use ob_syntax::ROp;
use pra_base::{BlockId, OutOfMemory, VProc};
use std::alloc::Global;
use vc_build::open_block;
use vc_expr::Targets;

/// Opens a block at the depth of another one.
///
/// # Errors
///
/// Where there is no memory for it, or no number; the code is of no use then.
pub fn open_beside(alloc: Global, code: &mut VProc, at: BlockId) -> Result<BlockId, OutOfMemory>
    requires { IsOpen code.old at.0 }
    ensures is_open { OnOk result (IsOpen code.new at.0) }
    ensures vars { OnOk result (length code.old.vars ≤ length code.new.vars) }
    ensures blocks { OnOk result (count code.old ≤ count code.new) }
    ensures made { OnOk result
        (code.new ≡ with_open_block (block_of code.old at.0).depth code.old) }
    ensures number { IfOk result (λ b. b.0 ≡ count code.old) }
{
    let depth = code.blocks[at.0 as usize].depth;
    let block = open_block(alloc, code, depth)?;
    Ok(block)
}

/// Where the left side of `&` or OR leads, with a block for the right side.
pub fn inner_targets(op: ROp, right: BlockId, targets: Targets) -> Targets
    ensures { result ≡ inner_targets_of op right targets }
{
    match op {
        ROp::Either => Targets {
            holds: targets.holds,
            fails: right,
        },
        _ => Targets {
            holds: right,
            fails: targets.fails,
        },
    }
}

/// The targets of the other truth value.
pub fn exchanged(targets: Targets) -> Targets
    ensures { result ≡ exchanged_targets targets }
{
    Targets {
        holds: targets.fails,
        fails: targets.holds,
    }
}

/// Says that a block is open, so that what follows need not show it.
pub fn confirm(code: &VProc, block: BlockId)
    requires { IsOpen code.now block.0 }
    ensures { IsOpen code.now block.0 }
{}

/// Says that targets are blocks of the code.
pub fn confirm_targets(code: &VProc, targets: Targets)
    requires holds { targets.holds.0 < count code.now }
    requires fails { targets.fails.0 < count code.now }
    ensures holds { targets.holds.0 < count code.now }
    ensures fails { targets.fails.0 < count code.now }
{}
