// What a step and a run answer.

use pra_base::{OutEvent, TrapKind};
use pra_list::Seq;

/// Why the machine cannot go on. Code that the compiler made never faults.
#[derive(Clone, Copy, Debug, PartialEq, Eq)]
pub enum FaultKind {
    /// EIP is outside the code region.
    Fetch,
    /// The bytes at EIP are no instruction of the subset, or pass the code region's end.
    Decode,
    /// A doubleword that does not lie wholly in data or stack.
    Access,
    /// A condition that names a flag which is not known.
    Flag,
    /// A division by 0, or whose quotient does not fit 32 bits.
    Divide,
    /// A service or a trap of no known number.
    Service,
}

/// What one step came to.
#[derive(Clone, Copy, Debug, PartialEq, Eq)]
pub enum StepOut {
    Going,
    /// The program wrote a number.
    Wrote(i32),
    /// The program wrote the end of a line.
    Line,
    Ended,
    Trap(TrapKind),
    Fault(FaultKind),
}

/// How a machine ended, or that it is going on.
#[derive(Clone, Copy, Debug, PartialEq, Eq)]
pub enum Ending {
    Going,
    Ended,
    Trap(TrapKind),
    Fault(FaultKind),
}

/// What a run did: the events that it made, the ending that the machine has come to, how many steps
/// it made, the one that ended included, and how many input words it took.
#[derive(Debug, PartialEq, Eq, Drop)]
pub struct RunOut {
    pub events: Seq<OutEvent>,
    pub ending: Ending,
    pub steps: u32,
    pub reads: u32,
}
