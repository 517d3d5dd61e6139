// Lists of weights.

ghost use Rattle.std.specs.Prelude.{◌≡◌, ◌⊎◌, ◌≤◌, ◌*◌, ◌^◌};
ghost use Rattle.net_cost.specs.Weights.{weight_of, IsValid, deepest, size_weights, speed_weights};
ghost use Rattle.net_cost.specs.Weights.{most_weight, most_power};

use crate::event::Event;

/// A weight for each event, by its number, and the factor by which all weights grow with each loop
/// around.
#[derive(Clone, Copy, Debug, PartialEq, Eq)]
pub struct Weights {
    pub list: [u32; 13],
    pub factor: u32,
}

impl Weights {
    /// Weights by the size of the code, in bytes.
    pub fn size() -> Weights
        ensures value { result ≡ size_weights }
        ensures valid { IsValid result }
    {
        Weights {
            list: [2, 3, 3, 6, 6, 5, 1, 4, 2, 5, 1, 4, 3],
            factor: 1,
        }
    }

    /// Weights by the time that the code takes, in cycles or so, with eight turns of each loop.
    pub fn speed() -> Weights
        ensures value { result ≡ speed_weights }
        ensures valid { IsValid result }
    {
        Weights {
            list: [1, 3, 3, 3, 3, 1, 2, 2, 2, 2, 0, 0, 0],
            factor: 8,
        }
    }

    /// The weight of an event in a block of this loop depth.
    pub fn weight(&self, event: Event, depth: u32) -> u32
        requires valid { IsValid self.now }
        requires depth { depth ≤ deepest }
        ensures value { result ≡ weight_of self.now event depth }
        ensures small { result ≤ most_weight }
    {
        self.list[event.number()] * power(self.factor, depth)
    }
}

// The power of a factor that is 1 or 8.
fn power(factor: u32, depth: u32) -> u32
    requires factor { (factor ≡ 1) ⊎ (factor ≡ 8) }
    requires depth { depth ≤ deepest }
    ensures power { result ≡ factor ^ depth }
    ensures small { result ≤ most_power }
{
    if factor == 1 { 1 } else { 1 << (3 * depth) }
}
