//! Liveness: which variables of selected code are live at which layer.
//!
//! The sets of variables that are live at the entries of blocks are the least solution of the
//! equations over blocks (Appel, Modern Compiler Implementation, section 10.1). Where a word of a
//! set has grown, the blocks that lead there are asked again for that word alone (`solve`): so time
//! goes by the words of the sets and by what is live, in whatever order the blocks stand. From
//! these sets follow those at all points of each block.
#![tactic(auto)]

mod equations;
mod liveness;
mod sets;
mod sized;
mod solve;

pub use liveness::{Liveness, live};
pub use sized::is_sized;
