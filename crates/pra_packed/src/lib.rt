//! Lists that take little memory: short ones that lie in the value that holds them (`Few`), and
//! lists of lists that lie one behind the other (`Packed`). Contracts see them as lists, as they see a
//! `Seq`.
//!
//! A network can have millions of strands. Each has a list of masks, nearly always a short one, and
//! routes have a list of places for each: so the allocator is asked for some lists of a network,
//! and not for millions.
#![tactic(auto)]

mod few;
mod packed;

pub use few::Few;
pub use packed::Packed;
