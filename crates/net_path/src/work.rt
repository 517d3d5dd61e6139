// Room to work in.

ghost use Rattle.std.specs.Prelude.{◌≡◌, ◌≤◌, ◌<◌, length, IfOk};

use crate::crossbar::Row;
use crate::family::{longest, no_paths};
use crate::passing::notes_of;
use crate::spread::{Load, Sides};
use net_cost::{CostModel, Event};
use net_form::{Net, Routes, Taken};
use pra_base::{OutOfMemory, Place};
use std::alloc::Global;

/// Room for the rows and the path of one strand at a time, for the path that was asked for last,
/// and for a family of paths, one for each strand, with their ends and a count of those that are in
/// each register. It notes of each strand whether it passes by. Of edges it keeps nothing.
#[derive(Drop)]
pub struct Work {
    pub(crate) rows: Vec<Row>,
    pub(crate) path: Vec<Place>,
    pub(crate) count: usize,
    pub(crate) renewed: Vec<Place>,
    pub(crate) family: Routes,
    pub(crate) loads: Vec<Load>,
    pub(crate) sides: Vec<Sides>,
    pub(crate) free: Taken,
    pub(crate) notes: Vec<u16>,
    ghost as_long: { length path.items ≡ length rows.items },
    ghost renewed_as_long: { length renewed.items ≡ length rows.items },
    ghost within: { count ≤ length path.items },
}

impl Work {
    ghost use Rattle.std.specs.Prelude.{IsTrue};
    ghost use Rattle.net_path.specs.Desk.{path_of, IsReservedFor};
    ghost use Rattle.net_path.specs.Passing.{PassesBy};

    /// The path that `least` found last. Nothing else changes it.
    pub fn path(&self) -> &[Place]
        ensures { result.now ≡ path_of self.now }
    {
        &self.path[..self.count]
    }

    /// The family that was left last.
    pub fn family(&self) -> &Routes
        ensures { result.now ≡ self.now.family }
    {
        &self.family
    }

    /// Whether a strand is known to pay nothing in memory but what its ties ask, whatever is taken.
    pub fn passes_by(&self, _net: &Net, strand: usize) -> bool
        requires reserved { IsReservedFor _net.now self.now }
        requires strand { strand < length _net.now.strands }
        ensures { IsTrue result → PassesBy _net.now strand }
    {
        self.notes[strand] != 0
    }

    /// Room for the strands of a network.
    ///
    /// # Errors
    ///
    /// Where there is no memory for it.
    pub fn reserve<F: Fn(Event, u32) -> u32>(
        alloc: Global,
        net: &Net,
        _model: &CostModel<F>,
    ) -> Result<Work, OutOfMemory>
        ensures { IfOk result (IsReservedFor net.now) }
    {
        let family = no_paths(alloc, net)?;
        let most = longest(net, &family);
        let empty = Row {
            costs: [0; 16],
            seconds: [0; 16],
        };
        let nowhere = Sides {
            first: Place::Const,
            last: Place::Const,
        };
        let free = Taken::empty(alloc, net)?;
        Ok(Work {
            rows: vec![in alloc; empty; most]?,
            path: vec![in alloc; Place::Eax; most]?,
            count: 0,
            renewed: vec![in alloc; Place::Eax; most]?,
            family,
            loads: vec![in alloc; [0; 6]; free.regs.len()]?,
            sides: vec![in alloc; nowhere; net.strands.len()]?,
            free,
            notes: notes_of(alloc, net)?,
        })
    }
}
