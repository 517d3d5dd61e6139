// Where the search stands, and the room that it works in.

ghost use Rattle.net_cost.specs.Models.{Keeps};

use crate::congestion::Cells;
use crate::draws::Draws;
use crate::lanes::least_cost;
use crate::lists::{Marks, Numbers, at, put};
use crate::rates::{NO_RATE, Rate, price, rate_at, scaled};
use crate::reroute::{Ends, Penalty};
use crate::rows::Row;
use crate::spans::{NO_SPAN, Span, longest_variable, sizes, spans_of};
use net_cost::{CostModel, Event};
use net_form::{Extra, Net, Prices, Routes};
use pra_base::{Mask, OutOfMemory};
use std::alloc::{AllocError, Global};

/// Paths of all strands, one behind the other, as numbers of the places at their steps: those now,
/// and those that were kept last. What each strand pays now, what it would pay at least if it were
/// alone, and what all of them pay, in units.
#[derive(Drop)]
pub(crate) struct Paths {
    pub now: Vec<u8>,
    pub kept: Vec<u8>,
    pub worth: Vec<u64>,
    pub floor: Vec<u64>,
    pub total: u64,
}

/// Strands that go together, and the tie groups that go with them.
#[derive(Drop)]
pub(crate) struct Piece {
    pub strands: Numbers,
    pub has: Marks,
    pub groups: Marks,
}

/// What happened to strands since the last kick: which were changed, which overlap, which stand
/// still, and which are to be settled.
#[derive(Drop)]
pub(crate) struct Log {
    pub changed: Numbers,
    pub is_changed: Marks,
    pub queue: Numbers,
    pub next: Numbers,
    pub is_next: Marks,
    pub still: Marks,
    pub list: Numbers,
    pub is_listed: Marks,
    pub groups: Marks,
    pub asked: Marks,
}

impl Log {
    /// Notes that a strand overlaps with others.
    pub(crate) fn note_overlap(&mut self, strand: usize) {
        if self.is_next.add(strand) {
            self.next.push(strand);
        }
    }
}

/// What a place costs more at a step of a strand, in units and in scaled ones; steps from the
/// strand's first on.
#[derive(Clone, Copy)]
pub(crate) struct ExtraCost {
    pub step: u32,
    pub place: u8,
    pub units: u64,
    pub scaled: u32,
}

/// Nothing more.
pub(crate) const NO_EXTRA: ExtraCost = ExtraCost {
    step: 0,
    place: 0,
    units: 0,
    scaled: 0,
};

/// Room for a search on one network: among others where strands may be at each of their steps, how
/// many layers they have together, and of each how many its variable has. A round makes so many
/// visits at most; so many rounds in a row would have made more and found nothing.
#[derive(Drop)]
pub struct Search {
    pub(crate) spans: Vec<Span>,
    pub(crate) masks: Vec<Mask>,
    pub(crate) layers: u64,
    pub(crate) variables: Vec<u32>,
    pub(crate) rates: Vec<Rate>,
    pub(crate) extras: Vec<ExtraCost>,
    pub(crate) rows: Vec<Row>,
    pub(crate) paths: Paths,
    pub(crate) cells: Cells,
    pub(crate) piece: Piece,
    pub(crate) log: Log,
    pub(crate) draws: Draws,
    pub(crate) visits: u64,
    pub(crate) most_visits: u64,
    pub(crate) fruitless: u32,
}

fn paths_of(alloc: Global, steps: usize, strands: usize) -> Result<Paths, AllocError> {
    Ok(Paths {
        now: vec![in alloc; 6; steps]?,
        kept: vec![in alloc; 6; steps]?,
        worth: vec![in alloc; 0; strands]?,
        floor: vec![in alloc; 0; strands]?,
        total: 0,
    })
}

fn piece_of(alloc: Global, strands: usize, groups: usize) -> Result<Piece, AllocError> {
    Ok(Piece {
        strands: Numbers::reserve(alloc, strands)?,
        has: Marks::reserve(alloc, strands)?,
        groups: Marks::reserve(alloc, groups)?,
    })
}

fn log_of(alloc: Global, strands: usize, groups: usize) -> Result<Log, AllocError> {
    Ok(Log {
        changed: Numbers::reserve(alloc, strands)?,
        is_changed: Marks::reserve(alloc, strands)?,
        queue: Numbers::reserve(alloc, strands)?,
        next: Numbers::reserve(alloc, strands)?,
        is_next: Marks::reserve(alloc, strands)?,
        still: Marks::reserve(alloc, strands)?,
        list: Numbers::reserve(alloc, strands)?,
        is_listed: Marks::reserve(alloc, strands)?,
        groups: Marks::reserve(alloc, groups)?,
        asked: Marks::reserve(alloc, strands)?,
    })
}

// A round searches only where it may make a visit for so many layers at least.
const MOST_LAYERS_A_VISIT: u64 = 4;

// The strands to be searched: none where a round may make too few visits for so many.
fn searched(alloc: Global, net: &Net, most_visits: u64) -> Result<Vec<Span>, AllocError> {
    let spans = spans_of(alloc, net)?;
    let (layers, _) = sizes(&spans);
    if most_visits < layers as u64 / MOST_LAYERS_A_VISIT {
        return Ok(Vec::new(alloc));
    }
    Ok(spans)
}

// Where each strand may be at each of its steps: where it may be at all layers there.
fn masks_of(
    alloc: Global,
    net: &Net,
    spans: &[Span],
    steps: usize,
) -> Result<Vec<Mask>, AllocError> {
    let mut masks = vec![in alloc; Mask::MAX; steps]?;
    for number in 0..spans.len() {
        let span = at(spans, number, NO_SPAN);
        if let Some(strand) = net.strands.get(number) {
            for layer in 0..span.len() {
                let to = span.start().wrapping_add(span.step_of(layer));
                let mask = at(strand.masks.as_slice(), layer, 0);
                let others = at(&masks, to, 0);
                put(&mut masks, to, others & mask);
            }
        }
    }
    Ok(masks)
}

impl Search {
    /// Room for the strands of a network, and for rounds of so many visits at most. Where these are
    /// too few for the network no strand is searched, and there is no room for any.
    ///
    /// # Errors
    ///
    /// Where there is no memory for it.
    pub fn reserve(alloc: Global, net: &Net, most_visits: u64) -> Result<Search, OutOfMemory> {
        let spans = searched(alloc, net, most_visits)?;
        let (layers, steps) = sizes(&spans);
        let longest = longest_variable(alloc, net, &spans)?;
        let strands = spans.len();
        let groups = net.groups as usize;
        let mut search = Search {
            masks: masks_of(alloc, net, &spans, steps)?,
            layers: layers as u64,
            variables: vec![in alloc; 0; strands]?,
            spans,
            rates: vec![in alloc; NO_RATE; 6]?,
            extras: vec![in alloc; NO_EXTRA; net.extras.len()]?,
            rows: vec![in alloc; [0; 16]; longest]?,
            paths: paths_of(alloc, steps, strands)?,
            cells: Cells::reserve(alloc, net)?,
            piece: piece_of(alloc, strands, groups)?,
            log: log_of(alloc, strands, groups)?,
            draws: Draws::of_seed(0),
            visits: 0,
            most_visits,
            fruitless: 0,
        };
        search.measure_variables(net);
        Ok(search)
    }

    /// How many visits a round makes that would make so many: where that is more than it may, half
    /// as many as it may for each such round just before it that found nothing, and none where that
    /// would be too few.
    pub(crate) fn allowed_visits(&self, wanted: u64) -> u64 {
        if wanted <= self.most_visits {
            return wanted;
        }
        let share = self.most_visits.checked_shr(self.fruitless).unwrap_or(0);
        if share < self.layers / MOST_LAYERS_A_VISIT {
            0
        } else {
            share
        }
    }

    /// Notes that a round that would have made so many visits found something, or nothing.
    pub(crate) fn note_round(&mut self, is_found: bool, wanted: u64) {
        self.fruitless = if is_found || wanted <= self.most_visits {
            0
        } else {
            self.fruitless.saturating_add(1)
        };
    }

    /// Whether all visits were made that a round may make.
    pub(crate) fn is_spent(&self) -> bool {
        self.visits >= self.most_visits
    }

    pub(crate) fn span(&self, strand: usize) -> Span {
        at(&self.spans, strand, NO_SPAN)
    }

    /// How many units a scaled unit is in blocks of a loop depth.
    pub(crate) fn times_at(&self, depth: u32) -> u64 {
        match self.rates.get(depth as usize) {
            Some(rate) => rate.times,
            None => 1,
        }
    }

    /// The same where a strand is.
    pub(crate) fn times(&self, span: &Span) -> u64 {
        self.times_at(span.depth())
    }

    pub(crate) fn worth(&self, strand: usize) -> u64 {
        at(&self.paths.worth, strand, 0)
    }

    /// What a strand pays more than it would if it were alone.
    pub(crate) fn excess(&self, strand: usize) -> u64 {
        self.worth(strand)
            .saturating_sub(at(&self.paths.floor, strand, 0))
    }

    /// Where a strand is now, by the number of its step from its first on.
    pub(crate) fn place(&self, span: &Span, step: usize) -> usize {
        at(&self.paths.now, span.start().wrapping_add(step), 6) as usize
    }

    /// Where a strand is tied at its entry and at its exit, if it is.
    pub(crate) fn end_places(&self, span: &Span) -> Ends {
        let first = self.place(span, 0);
        let last = self.place(span, span.last_step());
        (
            span.entry().is_some().then_some(first),
            span.exit().is_some().then_some(last),
        )
    }

    // What ways cost at each loop depth.
    fn learn_rates<F: Fn(Event, u32) -> u32>(&mut self, net: &Net, model: &CostModel<F>)
        requires kept { Keeps F.Fn model.now }
    {
        for depth in 0..6u32 {
            put(&mut self.rates, depth as usize, rate_at(net, model, depth));
        }
    }

    // What an extra costs.
    fn extra_cost<F: Fn(Event, u32) -> u32>(&self, model: &CostModel<F>, extra: &Extra) -> ExtraCost
        requires kept { Keeps F.Fn model.now }
    {
        let span = self.span(extra.strand as usize);
        let units = price(model, extra.event, span.depth());
        let layer = extra.layer.wrapping_sub(span.first);
        ExtraCost {
            step: u32::try_from(span.step_of(layer as usize)).unwrap_or(u32::MAX),
            place: extra.place.number(),
            units,
            scaled: scaled(units, self.times(&span)),
        }
    }

    // What all extras cost.
    fn learn_extras<F: Fn(Event, u32) -> u32>(&mut self, net: &Net, model: &CostModel<F>)
        requires kept { Keeps F.Fn model.now }
    {
        for number in 0..net.extras.len() {
            if let Some(extra) = net.extras.get(number) {
                let cost = self.extra_cost(model, extra);
                put(&mut self.extras, number, cost);
            }
        }
    }

    // What each strand pays at least, while nobody is anywhere.
    fn learn_floors(&mut self, net: &Net) {
        for strand in 0..self.spans.len() {
            let span = self.span(strand);
            self.fill_rows(net, strand, Penalty::Closed, 0);
            let least = u64::from(least_cost(&self.cost_by_entry(&span, 0, None)));
            let floor = least.saturating_mul(self.times(&span));
            put(&mut self.paths.floor, strand, floor);
        }
    }

    // The paths of routes.
    fn read_routes(&mut self, routes: &Routes) {
        for strand in 0..self.spans.len() {
            let span = self.span(strand);
            if strand >= routes.places.len() {
                return;
            }
            let path = routes.places.at(strand);
            for step in 0..span.steps() {
                let (layer, _) = span.layers_of(step);
                if let Some(place) = path.get(layer) {
                    let to = span.start().wrapping_add(step);
                    put(&mut self.paths.now, to, place.number());
                    put(&mut self.paths.kept, to, place.number());
                }
            }
        }
    }

    /// Begins a round at routes and prices: nothing of an earlier one is left.
    pub(crate) fn begin<F: Fn(Event, u32) -> u32>(
        &mut self,
        net: &Net,
        model: &CostModel<F>,
        routes: &Routes,
        prices: &Prices,
        round: u32,
    )
        requires kept { Keeps F.Fn model.now }
    {
        self.draws = Draws::of_seed(round as u64);
        self.learn_rates(net, model);
        self.learn_extras(net, model);
        self.learn_prices(net, prices);
        self.cells.clear();
        self.learn_floors(net);
        self.visits = 0;
        self.paths.total = 0;
        self.read_routes(routes);
        self.begin_kick();
        for strand in 0..self.spans.len() {
            self.take(net, strand);
        }
    }

    /// Begins a kick: no strand is changed, none overlaps.
    pub(crate) fn begin_kick(&mut self) {
        self.log.changed.clear();
        self.log.is_changed.clear();
        self.log.next.clear();
        self.log.is_next.clear();
        self.log.still.clear();
    }

    /// Keeps the paths of the changed strands.
    pub(crate) fn keep_changed(&mut self) {
        for number in 0..self.log.changed.count() {
            let span = self.span(self.log.changed.at(number));
            for step in 0..span.steps() {
                let from = span.start().wrapping_add(step);
                let place = at(&self.paths.now, from, 6);
                put(&mut self.paths.kept, from, place);
            }
        }
    }

    /// Whether a strand has another path than before the kick.
    pub(crate) fn is_changed(&self) -> bool {
        for number in 0..self.log.changed.count() {
            if self.differs(&self.span(self.log.changed.at(number))) {
                return true;
            }
        }
        false
    }

    // Whether a strand has another path than the one that was kept.
    fn differs(&self, span: &Span) -> bool {
        for step in 0..span.steps() {
            let number = span.start().wrapping_add(step);
            if at(&self.paths.now, number, 6) != at(&self.paths.kept, number, 6) {
                return true;
            }
        }
        false
    }

    /// Gives the changed strands back the paths that were kept.
    pub(crate) fn undo(&mut self, net: &Net) {
        for number in 0..self.log.changed.count() {
            let strand = self.log.changed.at(number);
            let span = self.span(strand);
            if !self.differs(&span) {
                continue;
            }
            self.release(net, strand);
            for step in 0..span.steps() {
                let from = span.start().wrapping_add(step);
                let place = at(&self.paths.kept, from, 6);
                put(&mut self.paths.now, from, place);
            }
            self.take(net, strand);
        }
    }
}
