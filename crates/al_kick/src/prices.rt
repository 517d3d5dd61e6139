// The prices of cells: those of registers at layers and of memory pairs, in scaled units.
//
// At good prices the least path of each strand alone is nearly one of the best routes, and what
// strands still want more than once is little. So a search that begins at them has little left to
// negotiate. The numbers of ties are not asked: strands that are tied are led together.

use crate::lists::{at, put};
use crate::rates::scaled;
use crate::search::Search;
use net_form::{Net, Prices};

// No price is taken for more, in scaled units.
const GREATEST: u32 = 1 << 20;

// Registers that have a price at a layer.
const REGISTERS: usize = 6;

// A price in scaled units, each of so many units.
fn price_in(units: u64, times: u64) -> u32 {
    scaled(units, times).min(GREATEST)
}

impl Search {
    // The prices of the registers of a layer.
    fn learn_registers(&mut self, prices: &Prices, layer: usize, times: u64) {
        let mut costs = [0; 8];
        for register in 0..REGISTERS {
            let number = layer.wrapping_mul(REGISTERS).wrapping_add(register);
            let units = at(prices.caps.as_slice(), number, 0);
            costs[register] = price_in(units, times);
        }
        put(&mut self.cells.prices, layer, costs);
    }

    // The prices of all layers.
    fn learn_layers(&mut self, net: &Net, prices: &Prices) {
        let mut layer = 0usize;
        for block in net.blocks.as_slice() {
            let times = self.times_at(block.depth);
            for _ in 0..block.layers {
                self.learn_registers(prices, layer, times);
                layer = layer.wrapping_add(1);
            }
        }
    }

    // The prices of all memory pairs, whose ends lie in one block.
    fn learn_pairs(&mut self, net: &Net, prices: &Prices) {
        for number in 0..net.pairs.len() {
            if let Some(pair) = net.pairs.get(number) {
                let times = self.times(&self.span(pair.left as usize));
                let units = at(prices.mems.as_slice(), number, 0);
                put(&mut self.cells.pair_prices, number, price_in(units, times));
            }
        }
    }

    /// The prices of all cells.
    pub(crate) fn learn_prices(&mut self, net: &Net, prices: &Prices) {
        self.learn_layers(net, prices);
        self.learn_pairs(net, prices);
    }
}
