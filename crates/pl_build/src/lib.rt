//! Placed code of selected code and admitted routes of its network.
//!
//! `place` makes it: the code and the flow of the routes stand behind it, it is valid where the
//! code is, and its frame has the bytes that the flow gives (`IsMade` of pl_made says how it is
//! made, and what a layer above may use). `laws` says what follows for a module whose procedures
//! were placed: it carries the steps of the selected code and is never stuck, and its moves are
//! paid by the ways of the flow's edges.
//!
//! One pass over the paths of the routes puts each edge as a pair into a list of its layer, where
//! the layers of all blocks are counted together (`layers`). So what moves before an instruction,
//! and where its operands are, is one list each, and the whole is linear in the edges (`laying`).
//! The slots are found by another pass (`slots`).
#![tactic(auto)]

pub mod laws;
mod layers;
mod laying;
mod placing;
mod slots;

pub use placing::place;
