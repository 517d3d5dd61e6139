// The extras of a strand, layer by layer.

ghost use Rattle.std.specs.Prelude.{◌≡◌, ◌≤◌, ◌<◌, ◌+◌, length, slice_get};
ghost use Rattle.net_cost.specs.Models.{Keeps, weights_of};
ghost use Rattle.net_cost.specs.Weights.{most_weight};
ghost use Rattle.net_form.specs.Admitted.{strand_at};
ghost use Rattle.net_form.specs.Cost.{extras_cost};
ghost use Rattle.net_form.specs.Formed.{IsFormed};
ghost use Rattle.net_form.specs.Ordered.{AreExtras, first_extra, extra_there};

use crate::net::{Extra, Net};
use net_cost::{CostModel, Event};
use pra_base::Place;

impl Net {
    /// The number of a strand's first extra; where it has none, that of the first one behind.
    pub fn first_extra(&self, strand: usize) -> usize
        requires net { IsFormed self.now }
        requires extras { AreExtras self.now }
        requires strand { strand < length self.now.strands }
        ensures { result ≡ first_extra self.now strand (strand_at self.now strand).first }
    {
        self.index.extras[strand] as usize
    }

    /// The extra of a number, if it is one of the strand at the layer.
    pub fn extra_at(&self, strand: usize, layer: u32, at: usize) -> Option<Extra>
        ensures { result ≡ extra_there strand layer (slice_get self.now.extras at) }
    {
        if at >= self.extras.len() {
            return None;
        }
        let extra = self.extras[at];
        if extra.strand as usize == strand && extra.layer == layer {
            Some(extra)
        } else {
            None
        }
    }

    /// From the first extra of a strand at a layer, or behind it, to that of the next layer.
    pub fn next_extra(&self, strand: usize, layer: u32, at: usize) -> usize
        requires extras { AreExtras self.now }
        requires at { at ≡ first_extra self.now strand layer }
        ensures { result ≡ first_extra self.now strand (layer + 1) }
    {
        for next in at..self.extras.len() {
            if self.extra_at(strand, layer, next).is_none() {
                return next;
            }
        }
        self.extras.len()
    }
}

/// What the extras of a strand weigh where it is at a place of a layer, of which the first extra
/// has this number.
pub fn extras_cost<F: Fn(Event, u32) -> u32>(
    net: &Net,
    model: &CostModel<F>,
    strand: usize,
    layer: u32,
    place: Place,
    at: usize,
) -> u64
    requires kept { Keeps F.Fn model.now }
    requires net { IsFormed net.now }
    requires extras { AreExtras net.now }
    requires strand { strand < length net.now.strands }
    requires at { at ≡ first_extra net.now strand layer }
    ensures value { result ≡ extras_cost net.now (weights_of model.now) strand layer place }
    ensures small { result ≤ most_weight }
{
    for next in at..net.extras.len() {
        let Some(extra) = net.extra_at(strand, layer, next) else {
            return 0;
        };
        if extra.place.number() == place.number() {
            return model.ask(extra.event, net.depth(strand)) as u64;
        }
    }
    0
}
