//! From the bytes of a source to its tokens and its tree, and from there to the checked module that
//! it stands for; or to what is wrong with it.
//!
//! `read` answers the tokens and the tree of the bytes, and `resolve` the checked module of these,
//! or either answers the one fault that the bytes have. Read first `specs/Source`: what a source
//! is, is told by how far it gets on a ladder of rungs (`specs/Ladder`), so that a layer above
//! adds its own causes of refusal as further rungs. That a source has at most one reading or at
//! most one fault, never both, is the law `one_reading`.
#![tactic(auto)]

pub mod fault;
pub mod laws;
pub mod reader;

pub use fault::{LimitFault, ReadFault, SourceFault};
pub use reader::{MAX_SOURCE, Parsed, read, resolve};
