//! Operators of Oberon-0 on values: what each gives, or the trap, as the definitions of ob_syntax
//! say (specs `Operators`). The checker computes constants with these, and an evaluator of modules
//! its expressions.
//!
//! `&` and OR give their right side here; whether that side is looked at is the caller's matter.
#![tactic(auto)]

mod operators;

pub use operators::{invert, is_true, negate, number, operate};
