//! The IA-32 machine of the instruction subset: its state, what each instruction does, its faults,
//! traps and services, and runs.
//!
//! Promised: `Machine::load` gives the start of an image, `step` is the step of the definition for
//! every state and every instruction, `run` exactly what at most m steps come to. The laws say it
//! in the words of arithmetic (conditions compare, OF tells what does not fit, IDIV divides as all
//! layers do) and of runs (they keep the code, join, and agree with pra_base's machines).
//!
//! Read first `specs/State`, `specs/Effect`, `specs/Step` and `specs/Run`: they are the machine, in
//! the manual's words, and the code is proved equal to them. `specs/Kept` is what no run changes.
//!
//! A machine keeps the answers of fetching in entries (`fetched`), so that a loop's instructions
//! are decoded once and not at each step. Its invariant says that each entry is what fetching
//! answers at its place (`specs/Fetched`); nothing else speaks of entries, since `Processor` has
//! all the state.
//!
//! The layers above use `Machine`, and of the proofs `AtEip` (what stands at EIP is executed),
//! `Access` and `MemoryWords` (doublewords), `Reaches` and `Runs` (steps in a row).
#![tactic(auto)]

mod arithmetic;
mod divide;
mod fetched;
pub mod flags;
pub mod laws;
pub mod machine;
mod memory;
pub mod out;
mod processor;
pub mod registers;

pub use machine::Machine;
pub use out::{Ending, FaultKind, RunOut, StepOut};
