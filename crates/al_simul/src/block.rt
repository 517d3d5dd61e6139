// The sweep of one block.

ghost use Rattle.std.specs.Prelude.{◌<◌, length};
ghost use Rattle.net_cost.specs.Models.{Keeps};
ghost use Rattle.net_form.specs.Formed.{IsFormed};

use crate::lists::{at, put, range};
use crate::rests::{some_ways, write_rests, write_ways};
use crate::rows::{CLOSED, MEMORY, Row, place_of};
use crate::step::{Comer, Step, costs_of, pairs_at, step_at, take_pairs, urgency};
use net_cost::{CostModel, Event};
use net_form::{Net, Plan, Prices};
use std::alloc::{AllocError, Global};
use std::cmp::Reverse;
use std::mem;

/// What a sweep works in. The layers of all strands are counted together, strand after strand.
#[derive(Drop)]
pub(crate) struct Sweep {
    // For each strand its first layer among those of all.
    starts: Vec<usize>,
    // For each layer of each strand the number of its place.
    pub places: Vec<u8>,
    // For each layer of the strands of a block what is left to pay.
    rests: Vec<Row>,
    // What ways cost in the block.
    ways: Vec<Row>,
    // The strands that are at the step, and room for those of the next one.
    live: Vec<u32>,
    next: Vec<u32>,
    // What they choose by.
    comers: Vec<Comer>,
    // For each memory pair whether one of its ends is in memory.
    in_memory: Vec<bool>,
}

fn starts_of(alloc: Global, net: &Net) -> Result<Vec<usize>, AllocError> {
    let mut starts = Vec::with_capacity(alloc, net.strands.len())?;
    let mut start = 0usize;
    for strand in net.strands.as_slice() {
        starts.push(start)?;
        start = start.saturating_add(strand.masks.len());
    }
    starts.push(start)?;
    Ok(starts)
}

// How many layers the strands of a block have, in the block where these are most.
fn most_layers(net: &Net, starts: &[usize]) -> usize {
    let mut most = 0usize;
    for block in 0..net.blocks.len() {
        let (from, to) = range(net.index.strands.as_slice(), block);
        let layers = at(starts, to, 0).saturating_sub(at(starts, from, 0));
        most = most.max(layers);
    }
    most
}

impl Sweep {
    /// Room for the strands of a network.
    pub(crate) fn reserve(alloc: Global, net: &Net) -> Result<Sweep, AllocError> {
        let starts = starts_of(alloc, net)?;
        let total = at(&starts, net.strands.len(), 0);
        let most = most_layers(net, &starts);
        Ok(Sweep {
            starts,
            places: vec![in alloc; MEMORY as u8; total]?,
            rests: vec![in alloc; CLOSED; most]?,
            ways: some_ways(alloc)?,
            live: Vec::new(alloc),
            next: Vec::new(alloc),
            comers: Vec::new(alloc),
            in_memory: vec![in alloc; false; net.pairs.len()]?,
        })
    }

    // Where the layers of a strand begin among those of its block, whose first strand is given.
    fn start_in(&self, block_first: usize, strand: usize) -> usize {
        at(&self.starts, strand, 0).saturating_sub(at(&self.starts, block_first, 0))
    }

    // Writes what is left to pay for each strand of a block.
    fn write_block<F: Fn(Event, u32) -> u32>(
        &mut self,
        net: &Net,
        model: &CostModel<F>,
        prices: &Prices,
        plan: &Plan,
        from: usize,
        to: usize,
    )
        requires kept { Keeps F.Fn model.now }
        requires net { IsFormed net.now }
    {
        if from >= net.strands.len() {
            return;
        }
        write_ways(&mut self.ways, model, net.near, net.depth(from));
        for strand in from..to {
            if strand >= net.strands.len() {
                return;
            }
            let start = self.start_in(from, strand);
            if start <= self.rests.len() {
                let rests = &mut self.rests[start..];
                write_rests(rests, net, model, prices, plan, &self.ways, strand);
            }
        }
    }

    // From those who live at one step to those who live at the next: who ends before it leaves, and
    // who begins there comes. Answers the first strand that has not begun.
    fn renew_live(
        &mut self,
        net: &Net,
        step: Step,
        begun: usize,
        to: usize,
    ) -> Result<usize, AllocError> {
        self.next.clear();
        for strand in self.live.as_slice() {
            if let Some(found) = net.strands.get(*strand as usize) {
                if step.first <= found.last {
                    self.next.push(*strand)?;
                }
            }
        }
        mem::swap(&mut self.live, &mut self.next);
        for strand in begun..to {
            let Some(found) = net.strands.get(strand) else {
                return Ok(strand);
            };
            if found.first > step.last {
                return Ok(strand);
            }
            self.live.push(u32::try_from(strand).unwrap_or(u32::MAX))?;
        }
        Ok(to)
    }

    // What a strand chooses by at a step.
    fn comer_at(&self, net: &Net, step: Step, block_first: usize, strand: u32) -> Option<Comer> {
        let found = net.strands.get(strand as usize)?;
        let first = found.first.max(step.first);
        let last = found.last.min(step.last);
        let number = first.saturating_sub(found.first) as usize;
        let from = if found.first < step.first {
            let before = at(&self.starts, strand as usize, 0).saturating_add(number);
            Some(at(&self.places, before.saturating_sub(1), 0) as usize)
        } else {
            None
        };
        let start = self.start_in(block_first, strand as usize);
        let rest = at(&self.rests, start.saturating_add(number), CLOSED);
        let costs = costs_of(&self.ways, from, found.constant, &rest);
        let (is_paired, _) = pairs_at(net, &self.in_memory, strand, first, last);
        Some(Comer {
            strand,
            first,
            last,
            from,
            costs,
            urgency: urgency(&costs, is_paired),
        })
    }

    // Who is at a step, by when they choose.
    fn gather(&mut self, net: &Net, step: Step, block_first: usize) -> Result<(), AllocError> {
        self.comers.clear();
        for number in 0..self.live.len() {
            let strand = at(&self.live, number, 0);
            if let Some(comer) = self.comer_at(net, step, block_first, strand) {
                self.comers.push(comer)?;
            }
        }
        self.comers
            .sort_by_key(|comer| (Reverse(comer.urgency), comer.strand))
    }

    // A strand is at a place at all its layers of the step.
    fn write_place(&mut self, net: &Net, comer: &Comer, place: usize) {
        let strand = comer.strand as usize;
        let Some(found) = net.strands.get(strand) else {
            return;
        };
        let start = at(&self.starts, strand, 0);
        let place = place_of(place).number();
        for layer in comer.first..comer.last.saturating_add(1) {
            let number = layer.saturating_sub(found.first) as usize;
            put(&mut self.places, start.saturating_add(number), place);
        }
    }

    // All choose, one after the other.
    fn settle_step(&mut self, net: &Net, step: Step) {
        let mut step = step;
        for number in 0..self.comers.len() {
            let Some(comer) = self.comers.get(number).copied() else {
                return;
            };
            let (_, is_used) = pairs_at(
                net,
                &self.in_memory,
                comer.strand,
                comer.first,
                comer.last,
            );
            let place = step.choose(&comer, !is_used);
            step.take(&comer, place);
            if place == MEMORY {
                take_pairs(
                    net,
                    &mut self.in_memory,
                    comer.strand,
                    comer.first,
                    comer.last,
                );
            }
            self.write_place(net, &comer, place);
        }
    }

    /// Gives all strands of a block their places, layer by layer.
    pub(crate) fn sweep_block<F: Fn(Event, u32) -> u32>(
        &mut self,
        net: &Net,
        model: &CostModel<F>,
        prices: &Prices,
        plan: &Plan,
        block: usize,
    ) -> Result<(), AllocError>
        requires kept { Keeps F.Fn model.now }
        requires net { IsFormed net.now }
    {
        let (from, to) = range(net.index.strands.as_slice(), block);
        let layers = match net.blocks.get(block) {
            Some(block) => block.layers,
            None => 0,
        };
        self.write_block(net, model, prices, plan, from, to);
        self.live.clear();
        let mut begun = from;
        for number in 0..layers / 2 + 1 {
            let step = step_of(number, layers);
            begun = self.renew_live(net, step, begun, to)?;
            self.gather(net, step, from)?;
            self.settle_step(net, step);
        }
        Ok(())
    }
}

// The step of a number: the entry, the layers of an instruction, or the exit.
fn step_of(number: u32, layers: u32) -> Step {
    let last = number.saturating_mul(2);
    step_at(last.saturating_sub(1), last.min(layers.saturating_sub(1)))
}
