//! Makes modules of any size from a seed, for tests of the whole compiler at its limits.
//!
//! [`generate`] is the one call that makes modules. Its text is `module_text` of seed and size
//! (`specs/Module`, to be read first), over the random numbers of `specs/Draws`, which [`Draws`]
//! gives one by one. That such a text is a module within the limits no clause says: tests of the
//! compiler do.
#![tactic(auto)]

mod draws;
mod module;
mod statement;

pub use draws::Draws;
pub use module::generate;
