//! Code with its blocks in another order does the same, and keeps the rules.
//!
//! `specs/Order` says when code is other code with its blocks in another order (`Reordered`); it
//! speaks of no runs. By the laws (`laws`) such code may stand in the place of the old code in
//! every module, and keeps the rules of code under construction with their certificate; what is
//! open in the old code is open at its new place. So code is made in whatever order its blocks are
//! opened, and is finished in the order of a list (`in_listed_order`), which selection makes of
//! them: that of the text, but that the test of a WHILE stands behind its statements.
//!
//! ```text
//! IF x = 0 THEN a ELSE b END; c     opened: 1 c    2 ELSE   3 THEN
//! 0: .. cmp, branch 3, 2    3: a, jump 1    2: b, jump 1    1: c
//! listed: 0, 3, 2, 1
//! ```
//!
//! `take_short_ways` turns a branch round where the block to which it goes if its condition holds
//! stands next, and the other does not: the condition is negated, and the targets are exchanged. So
//! no branch is followed by a jump that it jumps over (`TakesShortWays` of `specs/Turned`). Such
//! code does the same (the law `turned_branches_make_no_difference`), and stays valid
//! (`turned_code_stays_valid`).
#![tactic(auto)]

pub mod laws;
pub mod order;
pub mod reorder;
pub mod turn;

pub use reorder::in_listed_order;
pub use turn::take_short_ways;
