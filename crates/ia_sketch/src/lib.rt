//! Images of selected code by home routes, for programs that measure.
//!
//! `PlacedModule::add_at_home` places code by home routes, unless it breaks a rule, and tells which
//! one. So whatever was added is valid placed code, and `assemble` makes the image of it with
//! nothing to prove for the caller. Nothing of the compiler stands on this crate.
//!
//! Read first `specs/Added`: what was added so far can be assembled.
#![tactic(auto)]

mod module;
mod refusal;
mod routing;

pub use module::PlacedModule;
pub use refusal::Refusal;
