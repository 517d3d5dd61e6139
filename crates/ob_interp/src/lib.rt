//! The source run by its meaning: a module is run directly, over locations, without selected code,
//! registers or bytes, for whoever wants to see that the image does the same.
//!
//! # What is promised
//!
//! A *unit* is an assignment, a call or an IF that begins, or a test of the condition of a WHILE
//! or REPEAT. `units_run` of `specs/Units` is the run of a module that stops where so many units
//! were begun and another is due; it has the forms of the meaning (ob_mean), one equation a form.
//! `interpret` answers exactly that. The law `units_follow_the_meaning` says that such a run, where
//! it ends, is the meaning's, word for word, and otherwise did what the meaning does first.
//!
//! # How it runs
//!
//! `execute` keeps a stack of what is still to be done (`task`): statements, the next test of a
//! loop, the end of a call. `next_due` goes on to where a unit is due, `perform` does it. Nothing
//! recurs but the evaluation of an expression, over its depth (`evaluate`). What is assigned
//! stands in maps, two for each depth of calls (`memory`), so that a call begins with nothing
//! assigned in one step, and a location is found by its number and its path.
//!
//! Read `specs/Units`, then `specs/Running`: what is left of a run comes to `remains`, and each
//! step keeps that.
#![tactic(auto)]

pub mod enter;
pub mod evaluate;
pub mod execute;
pub mod interpret;
pub mod laws;
pub mod memory;
pub mod place;
pub mod running;
pub mod simple;
pub mod task;

pub use interpret::{UnitEnding, UnitOut};
