//! Selected code run by its meaning, fast, with the cause where a run is stuck.
//!
//! - `run_code` answers exactly `code_run` (`specs/Run`): what at most so many steps of a module's
//!   selected code come to, for every code. A run that is stuck tells where, and why
//!   (`specs/Stuck`).
//! - The law `runs_are_vrun`: that is the run of the machine of selected code (vc_code,
//!   `specs/Selected`).
//!
//! A step takes no longer where calls are deep: each call that waits keeps the bytes of the frames
//! below it (`calls`), and an address finds its call by the number of calls below. The state as the
//! definition has it is `specs/Stands`.
//!
//! Read `specs/Stuck` and `specs/Run`, which are all that a layer above may use.
#![tactic(auto)]

mod calls;
mod cause;
mod halt;
pub mod laws;
mod live;
mod machine;
pub mod out;
mod program;
pub mod run;

pub use out::{Cause, CodeEnding, CodeOut, StuckKind};
pub use run::run_code;
