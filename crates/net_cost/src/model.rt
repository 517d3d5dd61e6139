// A cost function that is kept.

ghost use Rattle.std.specs.Prelude.{◌≡◌, ◌≤◌};
ghost use Rattle.net_cost.specs.Weights.{weight_of, IsValid, deepest, most_weight};
ghost use Rattle.net_cost.specs.Models.{Answers, Keeps, weights_of};

use crate::event::Event;
use crate::weights::Weights;

/// A cost function beside the weights that it answers.
#[derive(Drop)]
pub struct CostModel<F: Fn(Event, u32) -> u32> {
    weights: Weights,
    function: F,
}

impl<F: Fn(Event, u32) -> u32> CostModel<F> {
    /// Keeps a function that answers these weights.
    pub fn keep(weights: Weights, function: F) -> CostModel<F>
        requires valid { IsValid weights }
        requires answers { Answers F.Fn weights function }
        ensures kept { Keeps F.Fn result }
        ensures weights { weights_of result ≡ weights }
    {
        CostModel { weights, function }
    }

    /// The weight of an event in a block of this loop depth, by a call of the function.
    pub fn ask(&self, event: Event, depth: u32) -> u32
        requires kept { Keeps F.Fn self.now }
        requires depth { depth ≤ deepest }
        ensures value { result ≡ weight_of (weights_of self.now) event depth }
        ensures small { result ≤ most_weight }
    {
        (self.function)(event, depth)
    }
}
