// What a round tried.

use net_form::{Plan, Routes, Taken};
use pra_list::Seq;

/// What laying by a plan and an order came to.
#[derive(Debug, PartialEq, Eq, Drop)]
pub enum Outcome {
    /// Routes.
    Laid(Routes),
    /// This strand has no path past what those before it took.
    Blocked(u32, Taken),
}

/// A plan, the order in which strands were laid, and what came of it.
#[derive(Debug, PartialEq, Eq, Drop)]
pub struct Tried {
    pub plan: Plan,
    pub order: Seq<u32>,
    pub outcome: Outcome,
}
