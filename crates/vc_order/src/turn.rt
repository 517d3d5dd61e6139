// Branches the short way. A branch to the block that comes next would have to be followed by a jump
// to its other target, over which it jumps itself; with the condition negated and the targets
// exchanged it goes where that jump would, and falls through to the next block.

ghost use Rattle.std.specs.Prelude.{◌≡◌, ◌≢◌, ◌⊎◌, true, false};
ghost use Rattle.vc_order.specs.Turned.{opposite, turned_end, IsShort, IsTurned, TakesShortWays};

use pra_base::{BlockId, Cond, End, VProc};
use pra_list::Seq;

/// The condition that holds where this one does not.
fn opposite(condition: Cond) -> Cond
    ensures { result ≡ opposite condition }
{
    match condition {
        Cond::B => Cond::Ae,
        Cond::Ae => Cond::B,
        Cond::E => Cond::Ne,
        Cond::Ne => Cond::E,
        Cond::Be => Cond::A,
        Cond::A => Cond::Be,
        Cond::S => Cond::Ns,
        Cond::Ns => Cond::S,
        Cond::L => Cond::Ge,
        Cond::Ge => Cond::L,
        Cond::Le => Cond::G,
        Cond::G => Cond::Le,
    }
}

// Whether a branch to these would have to jump over a jump.
fn jumps_over(one: BlockId, other: BlockId, next: usize) -> bool
    ensures turned { result ≡ true → other.0 ≢ next }
    ensures stays { result ≡ false → one.0 ≡ next → other.0 ≡ next }
{
    one.0 as usize == next && other.0 as usize != next
}

// The end of the block before this one.
fn short_end(end: End, next: usize) -> End
    ensures same { (result ≡ end) ⊎ (result ≡ turned_end end) }
    ensures short { IsShort next result }
{
    match end {
        End::Branch(condition, one, other) => {
            if jumps_over(one, other, next) {
                End::Branch(opposite(condition), other, one)
            } else {
                end
            }
        }
        End::Jump(_) | End::Return => end,
    }
}

/// The code with branches turned round, so that none jumps over a jump.
pub fn take_short_ways(code: VProc) -> VProc
    ensures turned { IsTurned code result }
    ensures short { TakesShortWays result }
{
    let VProc {
        id,
        args,
        aggregates,
        vars,
        blocks,
    } = code;
    let mut blocks = blocks.into_vec();
    for b in 0..blocks.len() {
        blocks[b].end = short_end(blocks[b].end, b + 1);
    }
    VProc {
        id,
        args,
        aggregates,
        vars,
        blocks: Seq::from_vec(blocks),
    }
}
