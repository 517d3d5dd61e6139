//! The simultaneous allocator: routes made layer by layer, with all strands of a block that are
//! live there at once.
//!
//! The iterative allocator (al_iter) gives one strand after the other its whole path, so who comes
//! late finds what is left, or nothing. [`sweep`] goes through a block once, from its entry to its
//! exit, and settles at each instruction where everybody is who lives there:
//!
//! ```text
//!   entry      | instruction 0 | instruction 1 | .. | exit
//!   layer 0    | layers 1, 2   | layers 3, 4   | .. | last layer      a step each
//!
//!   v  Eax     |  Eax   Eax    |  Eax          |    |
//!   u  Mem     |  Mem   Mem    |  Ecx   Ecx    |    |  Ecx
//! ```
//!
//! Before the sweep of a block each of its strands gets rows of what it would pay from each place
//! on if it were alone: with the prices, and with the plan's places at the ends of the block
//! (`rests`). At a step each strand then looks at what it costs to come to a place and to go on
//! from there. Those go first that can't do without a register, then operands of which one alone
//! may be in memory, then those that lose most at home; and each takes the cheapest place whose
//! register nobody has there (`step`).
//!
//! What comes of this is asked of the gate (net_gate), and where it is refused, home routes
//! (al_edge) stand in its place. So the answer is admitted, whatever the plan; it meets the plan
//! where the sweep was admitted. Nothing else is promised of it, and it need not be cheap.
#![tactic(auto)]

mod block;
mod lists;
mod rests;
mod rows;
mod step;
mod sweeping;

pub use sweeping::sweep;
