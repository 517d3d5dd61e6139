// Whether more rounds are wanted.

ghost use Rattle.std.specs.Prelude.{◌≡◌, ◌≤◌};
ghost use Rattle.al_round.specs.Watches.{AnswersByGap, IsWatch, gap_of, verdict_of};

use net_form::Line;

/// Whether rounds go on.
#[derive(Clone, Copy, Debug, PartialEq, Eq)]
pub enum Verdict {
    Go,
    Stop,
}

/// A stopping rule: a function that is asked of each line, beside the gap by which it answers.
#[derive(Drop)]
pub struct Watch<G: Fn(Line) -> Verdict> {
    gap: u64,
    function: G,
}

impl<G: Fn(Line) -> Verdict> Watch<G> {
    /// Keeps a function that says Stop exactly of lines whose cost is at most the gap above their
    /// bound. It need not answer lines whose bound is above their cost.
    pub fn keep(gap: u64, function: G) -> Watch<G>
        requires answers { AnswersByGap G.Fn gap function }
        ensures kept { IsWatch G.Fn result }
        ensures gap { gap_of result ≡ gap }
    {
        Watch { gap, function }
    }

    /// What the function says of a line.
    pub(crate) fn ask(&self, line: Line) -> Verdict
        requires kept { IsWatch G.Fn self.now }
        requires within { line.bound ≤ line.cost }
        ensures { result ≡ verdict_of (gap_of self.now) line }
    {
        (self.function)(line)
    }
}
