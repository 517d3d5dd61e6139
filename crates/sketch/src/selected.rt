// Selected code by short calls.

mod address;
mod build;

pub use address::{by, cell, frame, global, plus, via};
pub use build::{block, module, procedure};
