//! Placed code: the instructions of selected code with the places of their operands, and moves
//! between them.
//!
//! `specs/Machine` says what it does, `specs/Valid` when it is valid. `specs/Behind` says which
//! code and which flow stand behind placed code, as far as the layers below have to know:
//! instruction for instruction the same code, each operand at the place where the flow has its
//! variable, and before each instruction and each end the moves that the flow makes there; and how
//! many bytes a frame has.
#![tactic(auto)]

pub mod laws;
mod placed;

pub use placed::{LBlock, LInstr, LProc, frame_bytes};
