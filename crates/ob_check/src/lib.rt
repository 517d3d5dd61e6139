//! The rules of Oberon-0: what module a tree stands for, or the one cause why it stands for none.
//!
//! [`check`] answers the module with every name resolved exactly where the tree breaks no rule and
//! keeps within the limits, and else the first rule that is broken with its token, or the first
//! quantity above its maximum. [`Rule`] names the rules by what they demand. Read first
//! `WellFormed` in the specs of ob_syntax, and then `specs/Checking`. The layer above may use that
//! each cause excludes every other, in the clauses of `check` and as the law
//! `one_module_or_one_cause`.
//!
//! Inside, each function reads a phrase at a place, and answers exactly what ob_syntax's definition
//! of that phrase gives there: what the phrase stands for, or the first rule that is broken in it.
//! Read `Place` first, then `expression`, `declaration` and `procedure`. Limits and storage are the
//! matter of ob_measure.
#![tactic(auto)]

mod checker;
mod constant;
mod declaration;
mod expression;
pub mod fault;
pub mod laws;
mod node;
mod place;
mod procedure;
mod reading;
mod refusal;
pub mod rules;
mod scope;
mod statement;
mod type_expression;

pub use checker::check;
pub use fault::CheckFault;
pub use rules::Rule;
