//! Placed code does what the selected code does that it corresponds to.
//!
//! `specs/Correspondence` says what a placement has to give of each procedure: where each variable
//! is at each layer, that moves before an instruction are the simultaneous assignment between two
//! layers, that operands are where their layer has them, and that what is present after an
//! instruction was there before it or is written. It speaks of no runs and of no form of
//! instruction.
//!
//! `laws` has what follows: the machine of placed code carries every step of the machine of
//! selected code that is never stuck, and is then never stuck itself; code that gets stuck is
//! followed until then. The invariant is that the value of each present variable is in every cell
//! of its place (`proofs/Located`, `Matches`).
#![tactic(auto)]

pub mod laws;
