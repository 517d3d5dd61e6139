// Layers where registers are short.
//
// The demand of a layer are the strands that may be in a register there, and the registers that are
// closed to all who may be in memory. A layer is pressed where its demand is the greatest within
// eight layers, or about the greatest of its loop.

use crate::layout::layers_of;
use crate::lists::{at, put};
use net_form::{Net, Strand};
use std::alloc::{AllocError, Global};

// Layers on either side of one that demand is compared with.
const NEAR: usize = 8;

// The registers, as a set.
const REGISTERS: u16 = 0x3F;

// The set of memory.
const IN_MEMORY: u16 = 0x40;

// Who has a register at some layer, and which registers who may be in memory may be in; whether
// there is one who may.
#[derive(Clone, Copy)]
struct Demand {
    strands: u32,
    open: u16,
    some: bool,
}

const NO_DEMAND: Demand = Demand {
    strands: 0,
    open: 0,
    some: false,
};

impl Demand {
    // Counts a strand that may be at these places.
    fn with(&self, places: u16) -> Demand {
        let registers = (places | places >> 8) & REGISTERS;
        let in_memory = places & IN_MEMORY != 0;
        Demand {
            strands: self.strands.saturating_add(u32::from(registers != 0)),
            open: if in_memory {
                self.open | registers
            } else {
                self.open
            },
            some: self.some || in_memory,
        }
    }

    fn count(&self) -> u32 {
        let mut count = self.strands;
        for register in 0..6u32 {
            let is_open = (self.open >> register) & 1 == 1;
            if self.some && !is_open {
                count = count.saturating_add(1);
            }
        }
        count
    }
}

fn add_strand(demands: &mut [Demand], strand: &Strand, entry_layer: usize) {
    let first = entry_layer.wrapping_add(strand.first as usize);
    for number in 0..strand.masks.len() {
        let layer = first.wrapping_add(number);
        let places = at(strand.masks.as_slice(), number, 0);
        let demand = at(demands, layer, NO_DEMAND).with(places);
        put(demands, layer, demand);
    }
}

fn entry_layer(net: &Net, block: usize) -> usize {
    at(net.index.layers.as_slice(), block, 0) as usize
}

// The greatest demand of layers, from one on to before another.
fn greatest(demands: &[Demand], from: usize, to: usize) -> u32 {
    let mut greatest = 0;
    for layer in from..to {
        greatest = at(demands, layer, NO_DEMAND).count().max(greatest);
    }
    greatest
}

fn depth_of(net: &Net, block: usize) -> u32 {
    match net.blocks.get(block) {
        Some(block) => block.depth,
        None => 0,
    }
}

// The greatest demand in the loop of a block: in all blocks around it in a row that are no
// shallower.
fn greatest_in_loop(net: &Net, greatest: &[u32], block: usize) -> u32 {
    let depth = depth_of(net, block);
    let mut most = at(greatest, block, 0);
    for number in block.saturating_add(1)..net.blocks.len() {
        if depth_of(net, number) < depth {
            break;
        }
        most = most.max(at(greatest, number, 0));
    }
    for back in 1..block.saturating_add(1) {
        let number = block.wrapping_sub(back);
        if depth_of(net, number) < depth {
            break;
        }
        most = most.max(at(greatest, number, 0));
    }
    most
}

// Which layers of a block are pressed, where the greatest demand in its loop is this.
fn press(pressed: &mut [bool], demands: &[Demand], first: usize, end: usize, most: u32) {
    for layer in first..end {
        let from = layer.saturating_sub(NEAR).max(first);
        let to = layer.saturating_add(NEAR).saturating_add(1).min(end);
        let enough = greatest(demands, from, to).min(most.saturating_sub(1));
        let demand = at(demands, layer, NO_DEMAND).count();
        put(pressed, layer, demand >= enough);
    }
}

/// Which of so many layers of all blocks are pressed.
pub(crate) fn pressed_layers(
    alloc: Global,
    net: &Net,
    layers: usize,
) -> Result<Vec<bool>, AllocError> {
    let mut demands = vec![in alloc; NO_DEMAND; layers]?;
    for strand in net.strands.as_slice() {
        let entry = entry_layer(net, strand.block.0 as usize);
        add_strand(&mut demands, strand, entry);
    }
    let mut most = vec![in alloc; 0u32; net.blocks.len()]?;
    for block in 0..net.blocks.len() {
        let entry = entry_layer(net, block);
        let end = entry.saturating_add(layers_of(net, block));
        put(&mut most, block, greatest(&demands, entry, end));
    }
    let mut pressed = vec![in alloc; true; layers]?;
    for block in 0..net.blocks.len() {
        let entry = entry_layer(net, block);
        let end = entry.saturating_add(layers_of(net, block));
        let in_loop = greatest_in_loop(net, &most, block);
        press(&mut pressed, &demands, entry, end, in_loop);
    }
    Ok(pressed)
}
