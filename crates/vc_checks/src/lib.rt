//! Selected code without checks that cannot fail.
//!
//! `leave_out_checks` leaves out each `Check` and `CheckPos` of which it sees that its trap never
//! comes, by what is known of the numbers that variables hold: what was set or copied, sums and
//! differences that don't wrap, bits in common with a number that has no sign, what a check was
//! passed for, and how a branch went. Nothing else goes, so traps, output and what is read stay as
//! they are, in their order: the new code may stand in the place of the old (`Preserves` of
//! vc_same), before it is tidied.
//!
//! What is known at a place is a list of facts, each that a variable holds a word between two
//! numbers. `specs/Facts` says when facts hold, what is told by an instruction that was passed or
//! by the way that control takes, and when a check cannot fail where facts hold (`CannotFail`).
//! `specs/LeftOut` says when code is other code without such checks (`IsWithout`): the facts at the
//! begin of each block hold whenever control comes there, since none are said of the entry, and
//! what is known at the end of a block entails those with which its targets begin (an inductive
//! assertion: Floyd, Assigning meanings to programs). By the laws that alone is enough, however the
//! facts were found.
//!
//! ```text
//! 0: set i, 0, jump 1
//! 1: cmp i, 10, branch l, 2, 3             begins with 0 <= i <= 10
//! 2: check i, 10, .. add i, 1, jump 1      with 0 <= i <= 9: the check goes
//! ```
//!
//! So facts are found by code that promises nothing (`search`: intervals, met over all ways, in
//! sweeps over the blocks), and one walk over the blocks tests them and leaves out what they allow
//! (`flow`, and `ways` for what is known on the arms of a branch). Facts are kept, 32 at a place,
//! of variables alone for which some check asks, and of those of which these are made or with which
//! they are compared. Sweeps go through the blocks in the order of the flow (`order`), in which a
//! WHILE begins with its test. From the third sweep on a number that a loop still moves is taken as
//! far as it can go. Where facts don't settle in twelve sweeps they are sought once more with
//! nothing known where control goes back to; where they don't hold in the end, or there is no
//! check, the code stays. A block is gone through again only where its facts have changed.
#![tactic(auto)]

pub mod fact;
mod flow;
mod known;
pub mod laws;
mod leave;
mod order;
mod search;
#[cfg(test)]
mod tests;
pub mod ways;

pub use leave::leave_out_checks;
