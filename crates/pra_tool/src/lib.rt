//! The whole of what the program does, over a folder, an input and two outputs that are handed in.
//!
//! `run_tool` is all that the program calls, and `specs/Clause` is its promise: read there what
//! `run` and `compile` make of a source, and `gen` of a seed, in `specs/Interpreted` what `interp`
//! makes, in `specs/Listings` what `list` makes of an image, of what an image is made by `asm`, and
//! what both refuse, in `specs/Certified` the same of `cert` and `check`, in `specs/Applied` what
//! `apply` makes of a source and a certificate, in `specs/Executed` what `exec` makes of an image,
//! in `specs/Modes` what any mode answers, in `specs/Writes` what is left where all was written or
//! where writing stopped.
//!
//! A source is the text of a module or a code file, as the words say: `specs/Sources` has what each
//! is and what is wrong with others, and `specs/Compiling` what the code of either is compiled to.
//! What a module means is said of the laws of `laws`, and so is that code is followed until it gets
//! stuck.
#![tactic(auto)]

pub mod applied;
mod apply;
pub mod certified;
pub mod compiler;
pub mod input;
pub mod laws;
pub mod listing;
mod refusal;
mod report;
mod same;
pub mod source;
pub mod status;
pub mod texts;
pub mod tool;

pub use status::Status;
pub use tool::run_tool;
