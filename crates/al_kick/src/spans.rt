// Where each strand lies, among the places of all strands and the layers of all blocks.
//
// Only crossbars lead from place to place, and they lie before layers of odd number. A step is what
// lies between two of them, the layers 2k - 1 and 2k of a block, as far as a strand has them: it
// has one place there, so paths and costs go by steps. Who shares a register is asked for each
// layer.

use crate::lists::{at, put};
use net_form::{Net, Strand};
use std::alloc::{AllocError, Global};

// The number of no tie group.
const NO_GROUP: u32 = u32::MAX;

/// A strand: its number of layers and of steps, the first layer, in its block and over all blocks,
/// where its places begin among those of all strands, its block and the tie groups at its ends.
#[derive(Clone, Copy)]
pub(crate) struct Span {
    start: u32,
    len: u32,
    steps: u32,
    pub first: u32,
    layer: u32,
    block: u32,
    depth: u32,
    entry: u32,
    exit: u32,
    pub constant: bool,
}

/// The layers of a step, from one on to another one, among those of all blocks; the layers of the
/// strand end somewhere.
#[derive(Clone, Copy)]
pub(crate) struct Layers {
    pub from: usize,
    pub to: usize,
    end: usize,
}

impl Layers {
    /// Those of the next step.
    pub fn next(self) -> Layers {
        Layers {
            from: self.to,
            to: self.to.wrapping_add(2).min(self.end),
            end: self.end,
        }
    }
}

impl Span {
    /// Where its first place lies among those of all strands.
    pub fn start(&self) -> usize {
        self.start as usize
    }

    /// How many layers it has.
    pub fn len(&self) -> usize {
        self.len as usize
    }

    /// How many steps it has.
    pub fn steps(&self) -> usize {
        self.steps as usize
    }

    /// The step of a layer, both counted from its first ones on.
    pub fn step_of(&self, layer: usize) -> usize {
        layer.wrapping_add(self.shift()) / 2
    }

    /// From which layer on to which one a step goes, counted from its first ones on.
    pub fn layers_of(&self, step: usize) -> (usize, usize) {
        let double = step.wrapping_mul(2);
        let to = double.wrapping_add(2).wrapping_sub(self.shift());
        (double.saturating_sub(self.shift()), to.min(self.len()))
    }

    /// The layers of its first step.
    pub fn first_layers(&self) -> Layers {
        let end = self.layer().wrapping_add(self.len());
        let to = self.layer().wrapping_add(2).wrapping_sub(self.shift());
        Layers {
            from: self.layer(),
            to: to.min(end),
            end,
        }
    }

    /// The two layers that a step may have, counted from its first ones on; one that it has not is
    /// none of the strand's.
    pub fn pair_of(&self, step: usize) -> (usize, usize) {
        let other = step
            .wrapping_mul(2)
            .wrapping_add(1)
            .wrapping_sub(self.shift());
        (other.wrapping_sub(1), other)
    }

    // 1 where its first layer is alone in its step, as a layer of even number is.
    fn shift(&self) -> usize {
        self.first().wrapping_add(1) % 2
    }

    /// Its first layer in the block.
    pub fn first(&self) -> usize {
        self.first as usize
    }

    /// Its first layer, counted over all blocks.
    pub fn layer(&self) -> usize {
        self.layer as usize
    }

    pub fn block(&self) -> usize {
        self.block as usize
    }

    /// The loop depth of its block.
    pub fn depth(&self) -> u32 {
        self.depth
    }

    /// The tie group at its entry.
    pub fn entry(&self) -> Option<usize> {
        group_of(self.entry)
    }

    /// The tie group at its exit.
    pub fn exit(&self) -> Option<usize> {
        group_of(self.exit)
    }

    /// The layer behind its last one in the block.
    pub fn end(&self) -> usize {
        self.first().wrapping_add(self.len())
    }

    /// Its last step.
    pub fn last_step(&self) -> usize {
        self.steps().wrapping_sub(1)
    }
}

/// No strand.
pub(crate) const NO_SPAN: Span = Span {
    start: 0,
    len: 0,
    steps: 0,
    first: 0,
    layer: 0,
    block: 0,
    depth: 0,
    entry: NO_GROUP,
    exit: NO_GROUP,
    constant: false,
};

fn group_of(number: u32) -> Option<usize> {
    (number != NO_GROUP).then_some(number as usize)
}

// How many steps so many layers have.
fn steps_of(first: u32, len: u32) -> u32 {
    if len == 0 {
        return 0;
    }
    let before = first.wrapping_add(1) / 2;
    let through = first.wrapping_add(len) / 2;
    through.wrapping_sub(before).wrapping_add(1)
}

fn span_of(net: &Net, strand: &Strand, start: u32) -> Span {
    let block = strand.block.0;
    let entry_layer = at(net.index.layers.as_slice(), block as usize, 0);
    let depth = match net.blocks.get(block as usize) {
        Some(block) => block.depth,
        None => 0,
    };
    let len = u32::try_from(strand.masks.len()).unwrap_or(0);
    Span {
        start,
        len,
        steps: steps_of(strand.first, len),
        first: strand.first,
        layer: entry_layer.wrapping_add(strand.first),
        block,
        depth,
        entry: strand.entry_group.unwrap_or(NO_GROUP),
        exit: strand.exit_group.unwrap_or(NO_GROUP),
        constant: strand.constant,
    }
}

/// The spans of all strands.
pub(crate) fn spans_of(alloc: Global, net: &Net) -> Result<Vec<Span>, AllocError> {
    let mut spans = Vec::with_capacity(alloc, net.strands.len())?;
    let mut start = 0u32;
    for strand in net.strands.as_slice() {
        let span = span_of(net, strand, start);
        start = start.wrapping_add(span.steps);
        spans.push(span)?;
    }
    Ok(spans)
}

/// How many layers all strands have, and how many steps.
pub(crate) fn sizes(spans: &[Span]) -> (usize, usize) {
    let mut layers = 0usize;
    let mut steps = 0usize;
    for span in spans {
        layers = layers.wrapping_add(span.len());
        steps = steps.wrapping_add(span.steps());
    }
    (layers, steps)
}

/// How many steps the strands of one variable have at most.
pub(crate) fn longest_variable(
    alloc: Global,
    net: &Net,
    spans: &[Span],
) -> Result<usize, AllocError> {
    let mut variables = 0usize;
    for strand in net.strands.as_slice() {
        variables = variables.max((strand.var.0 as usize).saturating_add(1));
    }
    let mut steps = vec![in alloc; 0usize; variables]?;
    let mut longest = 0usize;
    for number in 0..spans.len() {
        if let Some(strand) = net.strands.get(number) {
            let more = at(spans, number, NO_SPAN).steps();
            let sum = at(&steps, strand.var.0 as usize, 0).wrapping_add(more);
            put(&mut steps, strand.var.0 as usize, sum);
            longest = longest.max(sum);
        }
    }
    Ok(longest)
}

/// From where to where the numbers lie that belong to a strand, a block or a tie group.
pub(crate) fn range(beginnings: &[u32], number: usize) -> (usize, usize) {
    let from = at(beginnings, number, 0) as usize;
    let to = at(beginnings, number.wrapping_add(1), 0) as usize;
    (from, to)
}
