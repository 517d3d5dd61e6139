//! What a network is worth at prices, and how prices follow a family of least paths.
//!
//! [`lagrange`] makes the least path of each strand anew and adds up what they cost, less all that
//! is paid where each register and each memory pair is used once: no admitted flow costs less.
//! [`step`] then makes dearer what these paths want more than once and cheaper what they don't want
//! (the subgradient method; Koes and Goldstein, A Global Progressive Register Allocator, PLDI
//! 2006). Both work in place and take no memory.
//!
//! A step has nowhere to count uses but the prices themselves. So it raises a cap or mem price once
//! for each use (`raise`, `mems`), and then lowers all of them by one step and bounds them
//! (`lower`). A price that no longer fits 64 bits stays at the greatest number, which the bound
//! makes the same price as any greater one. The numbers of ties (`ties`) are looked up: a path is
//! at one place at its end.
#![tactic(auto)]

mod mems;
mod raise;
mod round;
mod ties;
mod value;

pub use round::step;
pub use value::lagrange;
