// Where strands lie among rows and steps.
//
// Only crossbars lead from place to place, and they lie before layers of odd number. A step is what
// lies between two of them, the layers 2k - 1 and 2k of a block: a strand is at one place there, so
// it has one row for both layers. Steps are counted over all blocks, and rows go strand by strand.

use crate::costs::{ExtraCost, NO_EXTRA};
use crate::lists::{at, put, range, short};
use crate::pressed::pressed_layers;
use net_form::{Net, Strand};
use std::alloc::{AllocError, Global};

/// The mark of a row whose strand has the first layer of the step, the one of odd number.
pub(crate) const EARLY: u32 = 1 << 14;

/// The mark of a row whose strand has the second layer of the step, the one of even number.
pub(crate) const LATE: u32 = 1 << 15;

/// The mark of a row at which some place costs more.
pub(crate) const EXTRA: u32 = 1 << 16;

/// The mark of a row that is an end of the memory pair of its step.
pub(crate) const PAIR_END: u32 = 1 << 17;

// All places.
const ALL_PLACES: u32 = 0x3FFF;

/// The number of no memory pair.
pub(crate) const NO_PAIR: u32 = u32::MAX;

/// A strand: its first row, its first step and how many it has, the first step of its block, its
/// block and the loop depth there, and whether it is a constant, at the entry, and at the exit.
#[derive(Clone, Copy)]
pub(crate) struct Span {
    start: u32,
    first: u32,
    steps: u32,
    base: u32,
    block: u32,
    pub depth: u32,
    pub constant: bool,
    pub enters: bool,
    pub leaves: bool,
}

/// No strand.
pub(crate) const NO_SPAN: Span = Span {
    start: 0,
    first: 0,
    steps: 0,
    base: 0,
    block: 0,
    depth: 0,
    constant: false,
    enters: false,
    leaves: false,
};

impl Span {
    /// Its first step.
    pub fn first(&self) -> usize {
        self.first as usize
    }

    /// Its last step.
    pub fn last(&self) -> usize {
        self.first().wrapping_add(self.steps()).wrapping_sub(1)
    }

    /// How many steps it has.
    pub fn steps(&self) -> usize {
        self.steps as usize
    }

    pub fn block(&self) -> usize {
        self.block as usize
    }

    /// The number of its row at a step.
    pub fn row_at(&self, step: usize) -> usize {
        (self.start as usize).wrapping_add(step.wrapping_sub(self.first()))
    }

    /// The step of a layer of its block.
    pub fn step_of(&self, layer: u32) -> usize {
        self.base.wrapping_add(layer.wrapping_add(1) / 2) as usize
    }
}

/// The first step of a block.
pub(crate) fn base_of(net: &Net, block: usize) -> usize {
    let layer = at(net.index.layers.as_slice(), block, 0) as usize;
    (layer / 2).wrapping_add(block)
}

/// How many layers a block has.
pub(crate) fn layers_of(net: &Net, block: usize) -> usize {
    match net.blocks.get(block) {
        Some(block) => block.layers as usize,
        None => 0,
    }
}

fn span_of(net: &Net, strand: &Strand, start: u32) -> Span {
    let block = strand.block.0;
    let base = short(base_of(net, block as usize));
    let depth = match net.blocks.get(block as usize) {
        Some(block) => block.depth,
        None => 0,
    };
    let before = strand.first.wrapping_add(1) / 2;
    let through = strand.last.wrapping_add(1) / 2;
    let layers = short(layers_of(net, block as usize));
    Span {
        start,
        first: base.wrapping_add(before),
        steps: through.wrapping_sub(before).wrapping_add(1),
        base,
        block,
        depth,
        constant: strand.constant,
        enters: strand.first == 0,
        leaves: strand.last.wrapping_add(1) == layers,
    }
}

fn spans_of(alloc: Global, net: &Net) -> Result<Vec<Span>, AllocError> {
    let mut spans = vec![in alloc; NO_SPAN; net.strands.len()]?;
    let mut start = 0u32;
    for number in 0..net.strands.len() {
        if let Some(strand) = net.strands.get(number) {
            let span = span_of(net, strand, start);
            start = start.wrapping_add(span.steps);
            put(&mut spans, number, span);
        }
    }
    Ok(spans)
}

// How many rows all strands have.
fn row_count(spans: &[Span]) -> usize {
    let mut count = 0usize;
    for span in spans {
        count = count.wrapping_add(span.steps());
    }
    count
}

// How many steps all blocks have.
fn step_count(net: &Net) -> usize {
    let mut count = 0usize;
    for block in 0..net.blocks.len() {
        count = count.wrapping_add((layers_of(net, block) / 2).wrapping_add(1));
    }
    count
}

// How many layers all blocks have.
fn layer_count(net: &Net) -> usize {
    let mut count = 0usize;
    for block in 0..net.blocks.len() {
        count = count.wrapping_add(layers_of(net, block));
    }
    count
}

// From how many of each step there are, where each begins.
fn sum_up(counts: &mut [u32]) {
    let mut total = 0u32;
    for step in 0..counts.len() {
        let count = at(counts, step, 0);
        put(counts, step, total);
        total = total.wrapping_add(count);
    }
}

// One more of a step.
fn count_one(counts: &mut [u32], step: usize) {
    let count = at(counts, step, 0);
    put(counts, step, count.wrapping_add(1));
}

// Where the next of a step goes.
fn next_of(beginnings: &mut [u32], step: usize) -> usize {
    let next = at(beginnings, step, u32::MAX);
    put(beginnings, step, next.wrapping_add(1));
    next as usize
}

// For each step where its strands begin, in `present`, and the end.
fn beginnings_of(alloc: Global, spans: &[Span], steps: usize) -> Result<Vec<u32>, AllocError> {
    let mut counts = vec![in alloc; 0u32; steps.saturating_add(1)]?;
    for span in spans {
        for number in 0..span.steps() {
            count_one(&mut counts, span.first().wrapping_add(number));
        }
    }
    sum_up(&mut counts);
    Ok(counts)
}

// The strands of each step, in order.
fn present_at(
    alloc: Global,
    spans: &[Span],
    beginnings: &[u32],
    rows: usize,
) -> Result<Vec<u32>, AllocError> {
    let mut nexts = Vec::from_slice(alloc, beginnings)?;
    let mut present = vec![in alloc; 0u32; rows]?;
    for strand in 0..spans.len() {
        let span = at(spans, strand, NO_SPAN);
        for number in 0..span.steps() {
            let to = next_of(&mut nexts, span.first().wrapping_add(number));
            put(&mut present, to, short(strand));
        }
    }
    Ok(present)
}

// How many strands a step has at most.
fn most_present(beginnings: &[u32]) -> usize {
    let mut most = 0usize;
    for step in 0..beginnings.len() {
        let (from, to) = range(beginnings, step);
        most = most.max(to.saturating_sub(from));
    }
    most
}

// For each step where its extras begin, in the list of all extras, and the end.
fn extra_beginnings_of(
    alloc: Global,
    net: &Net,
    spans: &[Span],
    steps: usize,
) -> Result<Vec<u32>, AllocError> {
    let mut counts = vec![in alloc; 0u32; steps.saturating_add(1)]?;
    for extra in net.extras.as_slice() {
        let span = at(spans, extra.strand as usize, NO_SPAN);
        count_one(&mut counts, span.step_of(extra.layer));
    }
    sum_up(&mut counts);
    Ok(counts)
}

// The extras of each step, by strand.
fn extras_of(
    alloc: Global,
    net: &Net,
    spans: &[Span],
    beginnings: &[u32],
) -> Result<Vec<ExtraCost>, AllocError> {
    let mut nexts = Vec::from_slice(alloc, beginnings)?;
    let mut extras = vec![in alloc; NO_EXTRA; net.extras.len()]?;
    for extra in net.extras.as_slice() {
        let span = at(spans, extra.strand as usize, NO_SPAN);
        let to = next_of(&mut nexts, span.step_of(extra.layer));
        let cost = ExtraCost {
            strand: extra.strand,
            place: extra.place.number(),
            event: extra.event,
            cost: 0,
        };
        put(&mut extras, to, cost);
    }
    Ok(extras)
}

// The memory pair of each step.
fn pairs_of(
    alloc: Global,
    net: &Net,
    spans: &[Span],
    steps: usize,
) -> Result<Vec<u32>, AllocError> {
    let mut pairs = vec![in alloc; NO_PAIR; steps]?;
    for number in 0..net.pairs.len() {
        if let Some(pair) = net.pairs.get(number) {
            let span = at(spans, pair.left as usize, NO_SPAN);
            put(&mut pairs, span.step_of(pair.left_layer), short(number));
        }
    }
    Ok(pairs)
}

fn add_mark(marks: &mut [u32], row: usize, mark: u32) {
    let old = at(marks, row, 0);
    put(marks, row, old | mark);
}

// Where a strand may be at each of its steps, which is where it may be at all layers there, and
// which layers those are.
fn mark_layers(marks: &mut [u32], strand: &Strand, span: &Span) {
    for number in 0..strand.masks.len() {
        let layer = strand.first.wrapping_add(short(number));
        let row = span.row_at(span.step_of(layer));
        let places = u32::from(at(strand.masks.as_slice(), number, 0));
        let part = if layer % 2 == 0 { LATE } else { EARLY };
        let old = at(marks, row, 0);
        put(marks, row, (old & (places | !ALL_PLACES)) | part);
    }
    if strand.constant {
        add_mark(marks, span.row_at(span.first()), EXTRA);
    }
}

fn marks_of(alloc: Global, net: &Net, spans: &[Span], rows: usize) -> Result<Vec<u32>, AllocError> {
    let mut marks = vec![in alloc; ALL_PLACES; rows]?;
    for number in 0..net.strands.len() {
        if let Some(strand) = net.strands.get(number) {
            mark_layers(&mut marks, strand, &at(spans, number, NO_SPAN));
        }
    }
    for extra in net.extras.as_slice() {
        let span = at(spans, extra.strand as usize, NO_SPAN);
        add_mark(&mut marks, span.row_at(span.step_of(extra.layer)), EXTRA);
    }
    for pair in net.pairs.as_slice() {
        let left = at(spans, pair.left as usize, NO_SPAN);
        let right = at(spans, pair.right as usize, NO_SPAN);
        add_mark(
            &mut marks,
            left.row_at(left.step_of(pair.left_layer)),
            PAIR_END,
        );
        add_mark(
            &mut marks,
            right.row_at(right.step_of(pair.right_layer)),
            PAIR_END,
        );
    }
    Ok(marks)
}

/// A network, as the ascent goes over it: strands; for each row its places and marks; for each step
/// its strands, extras and memory pair; and which layers are pressed.
#[derive(Drop)]
pub(crate) struct Layout {
    pub spans: Vec<Span>,
    pub marks: Vec<u32>,
    pub beginnings: Vec<u32>,
    pub present: Vec<u32>,
    pub extra_beginnings: Vec<u32>,
    pub extras: Vec<ExtraCost>,
    pub pairs: Vec<u32>,
    pub pressed: Vec<bool>,
}

impl Layout {
    pub fn reserve(alloc: Global, net: &Net) -> Result<Layout, AllocError> {
        let spans = spans_of(alloc, net)?;
        let rows = row_count(&spans);
        let steps = step_count(net);
        let beginnings = beginnings_of(alloc, &spans, steps)?;
        let extra_beginnings = extra_beginnings_of(alloc, net, &spans, steps)?;
        Ok(Layout {
            marks: marks_of(alloc, net, &spans, rows)?,
            present: present_at(alloc, &spans, &beginnings, rows)?,
            extras: extras_of(alloc, net, &spans, &extra_beginnings)?,
            pairs: pairs_of(alloc, net, &spans, steps)?,
            pressed: pressed_layers(alloc, net, layer_count(net))?,
            spans,
            beginnings,
            extra_beginnings,
        })
    }

    pub fn span(&self, strand: usize) -> Span {
        at(&self.spans, strand, NO_SPAN)
    }

    pub fn mark(&self, row: usize) -> u32 {
        at(&self.marks, row, 0)
    }

    /// How many strands a step has at most.
    pub fn most_present(&self) -> usize {
        most_present(&self.beginnings)
    }
}
