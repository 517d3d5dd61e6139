// The room that the ascent works in.

ghost use Rattle.net_cost.specs.Models.{Keeps};
ghost use Rattle.net_laws.specs.Built.{IsBuilt};

use crate::bundles::Bids;
use crate::costs::{NO_EXTRA, NO_RATES, Rates, extra_cost, rates_of};
use crate::layout::Layout;
use crate::lists::{at, put};
use crate::prices::UnitPrices;
use crate::rows::{NOTHING, Row};
use net_cost::{CostModel, Event};
use net_form::Net;
use pra_base::OutOfMemory;
use std::alloc::{AllocError, Global};
use std::marker::Model;

/// Which way rows add up what a strand pays: from its first step up to here, or from here to its
/// last one.
#[derive(Clone, Copy, PartialEq, Eq)]
pub(crate) enum Way {
    Forward,
    Backward,
}

/// All that an ascent works on: the network, what is paid in it, prices, and the rows. Beside them
/// what was taken off the rows of each strand, which way the rows of each block are, how many ties
/// of a strand wait to be handed on in this sweep, and of one step the least costs of whole strands
/// by their places there, and bids.
#[derive(Drop)]
pub(crate) struct Ascent {
    pub layout: Layout,
    pub rates: Rates,
    pub prices: UnitPrices,
    pub rows: Vec<Row>,
    pub taken_off: Vec<i64>,
    pub ways: Vec<Way>,
    pub waiting: Vec<u32>,
    pub marginals: Vec<Row>,
    pub bids: Vec<Bids>,
}

impl Ascent {
    fn reserve(alloc: Global, net: &Net) -> Result<Ascent, AllocError> {
        let layout = Layout::reserve(alloc, net)?;
        let most = layout.most_present();
        Ok(Ascent {
            prices: UnitPrices::reserve(alloc, net, layout.pressed.len())?,
            rates: NO_RATES,
            rows: vec![in alloc; NOTHING; layout.marks.len()]?,
            taken_off: vec![in alloc; 0i64; net.strands.len()]?,
            ways: vec![in alloc; Way::Backward; net.blocks.len()]?,
            waiting: vec![in alloc; 0u32; net.strands.len()]?,
            marginals: vec![in alloc; NOTHING; most]?,
            bids: vec![in alloc; [0; 8]; most]?,
            layout,
        })
    }

    /// What ways and extras cost by a model.
    pub fn learn<F: Fn(Event, u32) -> u32>(&mut self, net: &Net, model: &CostModel<F>)
        requires kept { Keeps F.Fn model.now }
    {
        self.rates = rates_of(net, model);
        for number in 0..self.layout.extras.len() {
            let mut extra = at(&self.layout.extras, number, NO_EXTRA);
            let depth = self.layout.span(extra.strand as usize).depth;
            extra.cost = extra_cost(model, extra.event, depth, self.rates.shift);
            put(&mut self.layout.extras, number, extra);
        }
    }

    /// Which way the rows of a block are.
    pub fn way(&self, block: usize) -> Way {
        at(&self.ways, block, Way::Backward)
    }
}

/// All memory that an ascent on one network takes. Contracts see nothing of it.
#[derive(Drop)]
pub struct AscentRoom {
    pub(crate) ascent: Ascent,
}

impl Model for AscentRoom {
    ghost use Rattle.std.specs.Prelude.{ℕ};

    ghost Value = { ℕ };

    ghost view = { λ _. 0 };
}

impl AscentRoom {
    /// Room for the strands of a network.
    ///
    /// # Errors
    ///
    /// Where there is no memory for it.
    pub fn reserve<F: Fn(Event, u32) -> u32>(
        alloc: Global,
        net: &Net,
        model: &CostModel<F>,
    ) -> Result<AscentRoom, OutOfMemory>
        requires kept { Keeps F.Fn model.now }
        requires net { IsBuilt net.now }
    {
        let mut ascent = Ascent::reserve(alloc, net)?;
        ascent.learn(net, model);
        Ok(AscentRoom { ascent })
    }
}
