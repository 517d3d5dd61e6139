// How many strands are in each register at a layer, and at each memory pair, and what it costs to
// come there too (McMurchie and Ebeling, PathFinder: A Negotiation-Based Performance-Driven Router
// for FPGAs, FPGA 1995).
//
// Who comes to a cell pays a penalty for each other strand there now, and the cell's history. That
// begins at the cell's price, a multiplier of the Lagrangian relaxation, and grows as long as
// strands overlap there.

use crate::lanes::heat_crowd;
use crate::lists::{Numbers, at, put};
use crate::rows::FAR;
use net_form::Net;
use std::alloc::{AllocError, Global};

/// The registers of a layer: how many strands are in each, the price of each with what was added
/// for past overlaps, in scaled units, and the sum of the strands' numbers.
#[derive(Clone, Copy)]
pub(crate) struct Cell {
    pub count: [u32; 8],
    pub history: [u32; 8],
    strands: [u32; 8],
    hot: bool,
}

impl Cell {
    /// Whether more than one strand is in a register.
    pub fn is_crowded(&self, register: usize) -> bool {
        self.count[register % 8] > 1
    }

    /// A strand leaves a register. It says whether others stay there.
    pub fn leave(&mut self, register: usize, strand: u32) -> bool {
        let r = register % 8;
        let count = self.count[r].wrapping_sub(1);
        self.count[r] = count;
        self.strands[r] = self.strands[r].wrapping_sub(strand);
        count > 0
    }

    /// A strand comes to a register.
    pub fn enter(&mut self, register: usize, strand: u32) -> Met {
        let r = register % 8;
        let count = self.count[r];
        let other = self.strands[r];
        self.count[r] = count.wrapping_add(1);
        self.strands[r] = other.wrapping_add(strand);
        match count {
            0 => Met::Nobody,
            1 => Met::One(other),
            _ => Met::Several,
        }
    }
}

/// A memory pair: how many of its ends are in memory, and its price with what was added for past
/// overlaps.
#[derive(Clone, Copy)]
pub(crate) struct PairCell {
    pub count: u32,
    pub history: u32,
    hot: bool,
}

const EMPTY: Cell = Cell {
    count: [0; 8],
    history: [0; 8],
    strands: [0; 8],
    hot: false,
};

const NO_PAIR: PairCell = PairCell {
    count: 0,
    history: 0,
    hot: false,
};

/// Who was met in a cell.
#[derive(Clone, Copy)]
pub(crate) enum Met {
    Nobody,
    /// One strand.
    One(u32),
    /// Several, which overlapped there before.
    Several,
}

/// What registers cost at a layer before anybody overlaps there, in scaled units.
pub(crate) type RegisterPrices = [u32; 8];

/// All cells and their prices, those whose history is more than that, and how many strands are too
/// many.
#[derive(Drop)]
pub(crate) struct Cells {
    pub layers: Vec<Cell>,
    pub pairs: Vec<PairCell>,
    pub prices: Vec<RegisterPrices>,
    pub pair_prices: Vec<u32>,
    hot_layers: Numbers,
    hot_pairs: Numbers,
    pub overlaps: u64,
}

// How many layers all blocks have together.
fn layer_count(net: &Net) -> usize {
    let mut total = 0usize;
    for block in net.blocks.as_slice() {
        total = total.saturating_add(block.layers as usize);
    }
    total
}

impl Cells {
    pub fn reserve(alloc: Global, net: &Net) -> Result<Cells, AllocError> {
        let total = layer_count(net);
        Ok(Cells {
            layers: vec![in alloc; EMPTY; total]?,
            pairs: vec![in alloc; NO_PAIR; net.pairs.len()]?,
            prices: vec![in alloc; [0; 8]; total]?,
            pair_prices: vec![in alloc; 0; net.pairs.len()]?,
            hot_layers: Numbers::reserve(alloc, total)?,
            hot_pairs: Numbers::reserve(alloc, net.pairs.len())?,
            overlaps: 0,
        })
    }

    /// Nobody is anywhere, and each cell costs its price.
    pub fn clear(&mut self) {
        for number in 0..self.layers.len() {
            put(&mut self.layers, number, EMPTY);
            self.cool_layer(number);
        }
        for number in 0..self.pairs.len() {
            put(&mut self.pairs, number, NO_PAIR);
            self.cool_pair(number);
        }
        self.hot_layers.clear();
        self.hot_pairs.clear();
        self.overlaps = 0;
    }

    /// An end of a memory pair leaves memory.
    pub fn leave_pair(&mut self, pair: usize) {
        let Some(cell) = self.pairs.get_mut(pair) else {
            return;
        };
        cell.count = cell.count.saturating_sub(1);
        if cell.count > 0 {
            self.overlaps = self.overlaps.saturating_sub(1);
        }
    }

    /// An end of a memory pair comes to memory. It says whether the other one was there.
    pub fn enter_pair(&mut self, pair: usize) -> bool {
        let Some(cell) = self.pairs.get_mut(pair) else {
            return false;
        };
        cell.count = cell.count.saturating_add(1);
        if cell.count == 1 {
            return false;
        }
        self.overlaps = self.overlaps.saturating_add(1);
        true
    }

    /// The cells of layers, from the first of so many on.
    pub fn of(&self, first: usize, many: usize) -> &[Cell] {
        match self.layers.get(first..first.wrapping_add(many)) {
            Some(cells) => cells,
            None => &[],
        }
    }

    /// How many strands are in a register.
    pub fn count(&self, layer: usize, register: usize) -> u32 {
        match self.layers.get(layer) {
            Some(cell) => cell.count[register % 8],
            None => 0,
        }
    }

    /// How many ends of a pair are in memory.
    pub fn pair_count(&self, pair: usize) -> u32 {
        match self.pairs.get(pair) {
            Some(cell) => cell.count,
            None => 0,
        }
    }

    /// A register costs more from now on.
    pub fn heat(&mut self, layer: usize, register: usize, more: u32) {
        let Some(cell) = self.layers.get_mut(layer) else {
            return;
        };
        let r = register % 8;
        cell.history[r] = cell.history[r].saturating_add(more).min(FAR);
        if !cell.hot {
            cell.hot = true;
            self.hot_layers.push(layer);
        }
    }

    /// The same, if more than one strand is in the register.
    pub fn heat_crowded(&mut self, layer: usize, register: usize, more: u32) {
        let crowded = match self.layers.get(layer) {
            Some(cell) => cell.is_crowded(register),
            None => false,
        };
        if crowded {
            self.heat(layer, register, more);
        }
    }

    /// All that more than one strand is in costs more from now on, so much for each of them.
    pub fn heat_all(&mut self, more: u32) {
        for layer in 0..self.layers.len() {
            if let Some(cell) = self.layers.get_mut(layer) {
                if heat_crowd(&cell.count, &mut cell.history, more) && !cell.hot {
                    cell.hot = true;
                    self.hot_layers.push(layer);
                }
            }
        }
        for pair in 0..self.pairs.len() {
            let count = self.pair_count(pair);
            if count > 1 {
                self.heat_pair(pair, count.wrapping_mul(more));
            }
        }
    }

    /// Memory costs an end of a pair more from now on.
    pub fn heat_pair(&mut self, pair: usize, more: u32) {
        let Some(cell) = self.pairs.get_mut(pair) else {
            return;
        };
        cell.history = cell.history.saturating_add(more).min(FAR);
        if !cell.hot {
            cell.hot = true;
            self.hot_pairs.push(pair);
        }
    }

    // The registers of a layer cost their prices alone.
    fn cool_layer(&mut self, layer: usize) {
        if let Some(cell) = self.layers.get_mut(layer) {
            cell.history = at(&self.prices, layer, [0; 8]);
            cell.hot = false;
        }
    }

    // Memory costs an end of a pair its price alone.
    fn cool_pair(&mut self, pair: usize) {
        if let Some(cell) = self.pairs.get_mut(pair) {
            cell.history = at(&self.pair_prices, pair, 0);
            cell.hot = false;
        }
    }

    /// What was added for past overlaps is forgotten.
    pub fn cool(&mut self) {
        for number in 0..self.hot_layers.count() {
            let layer = self.hot_layers.at(number);
            self.cool_layer(layer);
        }
        for number in 0..self.hot_pairs.count() {
            let pair = self.hot_pairs.at(number);
            self.cool_pair(pair);
        }
        self.hot_layers.clear();
        self.hot_pairs.clear();
    }
}
