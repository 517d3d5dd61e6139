//! Selected code for tests.
//!
//! Selected code is read from text by `Sketch`, an instruction a line, and so are the places of a
//! strand (`path`). Nothing of the compiler stands on this crate.
#![tactic(auto)]

mod paths;
mod reader;
mod selected;

pub use paths::{has_places, path, place};
pub use reader::{Sketch, end, instruction};
