//! The iterative allocator: strands are laid one after the other, each the cheapest way that those
//! before it left, and then changed one at a time as long as that pays.
//!
//! # Laying
//!
//! [`priced_order`] says who goes first for a plan, which gives each tie group its place: who pays
//! most, if nobody else were there. [`lay`] then goes through an order strand by strand. Each takes
//! a least priced path between the plan's places, past all that the strands before it use, and what
//! it uses is marked as taken. What comes of this is admitted: paths keep clear of each other, and
//! the two ends of a tie are both at the place of their group. Or a strand has no way left; then
//! `lay` says which, and what is taken, so that its caller sees what is in the way.
//!
//! ```text
//!   order  1, 0          taken by strand 1              taken by both
//!                        .  .  .  .  .  .               Eax  .  .  .  .  .
//!   strand 1  Const      .  .  .  .  .  .   strand 0    Eax  .  .  .  .  .
//! ```
//!
//! [`lay_in`] is the same in room that was made before ([`LayRoom`]): it takes no memory, so its
//! answer is routes or a strand that is blocked, and nothing else.
//!
//! # Settling
//!
//! To settle routes is to change them until nothing is left to gain by changing one thing alone: no
//! strand has a cheaper path that keeps its places at the entry and the exit of its block, and no
//! variable has cheaper paths that are at one place wherever it is tied. What is in use is kept as
//! marks, so no change looks at the whole: whoever is asked is released, asked for a least path
//! past all others, and marked again where it goes then.
#![tactic(auto)]

mod laying;
mod order;
mod settle_marks;
mod settle_open;
mod settle_passes;
mod settle_place;
mod settle_price;
mod settle_rows;
mod settle_stay;
mod settle_strand;
mod settle_strands;
mod settle_variable;

pub use laying::{BlockedStrand, LayFault, LayRoom, lay, lay_in};
pub use order::priced_order;
pub use settle_passes::settle;
