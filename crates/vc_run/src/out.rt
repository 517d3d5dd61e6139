// What a run of selected code comes to.

use pra_base::{BlockId, OutEvent, ProcId, TrapKind};
use pra_list::Seq;

/// Why the next step means nothing.
#[derive(Clone, Copy, Debug, PartialEq, Eq)]
pub enum StuckKind {
    /// An address stands where a number is wanted.
    Address,
    /// What is read holds nothing, or is not there.
    Nothing,
    /// What is loaded or stored is no whole word of an object.
    Access,
    /// A division by a number that is not positive.
    Divide,
}

/// Where a run is stuck, and why. Instructions count from 0 in their block; the block's end is the
/// one behind the last.
#[derive(Clone, Copy, Debug, PartialEq, Eq)]
pub struct Cause {
    pub kind: StuckKind,
    pub proc: ProcId,
    pub block: BlockId,
    pub instruction: u32,
}

/// How a run ended, or that it is going on.
#[derive(Clone, Copy, Debug, PartialEq, Eq)]
pub enum CodeEnding {
    Going,
    /// The module's body returned.
    Ended,
    Trap(TrapKind),
    Stuck(Cause),
}

/// What a run did: the events that it made, how it ended, how many steps it made, the last one
/// included, and how many input words it took.
#[derive(Debug, PartialEq, Eq, Drop)]
pub struct CodeOut {
    pub events: Seq<OutEvent>,
    pub ending: CodeEnding,
    pub steps: u32,
    pub reads: u32,
}
