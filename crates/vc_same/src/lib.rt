//! Code that does the same as other code: when instructions may be left out and variables renamed.
//!
//! `specs/Reduction` says when code is other code *reduced*. It speaks of no runs. Variables have
//! new names, several of them may have one; instructions stay under the new names, or are left out
//! where their results are not needed, or where they copy between two variables of one name. That
//! covers dead code, merging of copies, and new numbers for variables. Two variables of one name
//! may be needed at once, while they hold the same: only what an instruction overwrites is apart
//! from all that is needed behind it (Chaitin's exception for copies). A Plain variable may have
//! the name of an argument's (`StandsFor`).
//!
//! `laws` has what follows: the machine of reduced code carries every run that is never stuck, and
//! reduced code of valid and sized code is valid and sized. The invariant is that a variable which
//! is still read in both holds the same in both (`proofs/Tracked`, `Counts`).
//!
//! A layer above takes `specs/SameRuns`, whose `Preserves` composes (`proofs/Valid`,
//! `preserves_on`), and `preserves`, which gives it.
#![tactic(auto)]

pub mod laws;
