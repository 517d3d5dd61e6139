// Which variables are live at which layer.

ghost use Rattle.std.specs.Prelude.{◌≡◌, ℕ, ◌+◌, ◌-◌, ◌/◌, ◌<◌, ◌≤◌, ◌&&◌, length, IfOk, Bool};
ghost use Rattle.std.specs.Prelude.{true, false, IfSome};
ghost use Rattle.pra_base.specs.Code.{end_of, code_of};
ghost use Rattle.pra_base.specs.Valid.{IsSized};
ghost use Rattle.vc_live.specs.Least.{IsLeastFrom};
ghost use Rattle.vc_live.specs.Sets.{contains};
ghost use Rattle.vc_live.specs.Equations.{InRange, Shape, Fits, FitsEnd};
ghost use Rattle.vc_live.specs.Equations.{HaveWords, at_exit};
ghost use Rattle.vc_live.specs.Rows.{AreConstants, AllRows, RowsBack, RowsOf, Confined};
ghost use Rattle.vc_live.specs.Rows.{constant_at, live_at, has_at, IsLiveness};

use crate::equations::{mark_reads, start_at_exit, step_back};
use crate::sets::BitSet;
use crate::solve::{Flow, flow_of, solve};
use pra_base::{Block, BlockId, OutOfMemory, VProc, VarId, VarKind};
use pra_list::Seq;
use std::alloc::{AllocError, Global};

/// Which variables of a procedure are live at which of its layers.
#[derive(Debug, Drop)]
pub struct Liveness {
    constants: BitSet,
    /// For each block what is live at its points, from its end to its begin.
    blocks: Seq<Seq<BitSet>>,
}

impl Liveness {
    /// Whether the variable is live at this layer of the block; false past the code.
    pub fn at(&self, var: VarId, block: BlockId, layer: u32) -> bool
        ensures { result ≡ live_at self.now var.0 block.0 layer }
    {
        let v = var.0 as usize;
        let b = block.0 as usize;
        if self.constants.contains(v) {
            self.constant_at(v, b, layer)
        } else {
            self.has(b, layer as usize / 2, v)
        }
    }

    /// The least variable from this one on and below the end that is live where the block begins.
    pub fn next_at_entry(&self, block: BlockId, from: u32, end: u32) -> Option<u32>
        ensures least { IsLeastFrom (λ v. live_at self.now v block.0 0) from end result }
        ensures live { IfSome result (λ v. live_at self.now v block.0 0 ≡ true) }
    {
        let mut v = from as usize;
        while v < end as usize {
            let var = v as u32;
            if self.at(VarId(var), block, 0) {
                return Some(var);
            }
            v = self.skip_at_entry(block.0 as usize, v + 1);
        }
        None
    }

    // From where on there may be a variable in the set of the block's first point.
    fn skip_at_entry(&self, block: usize, v: usize) -> usize
        ensures from { v ≤ result }
        ensures none { (u : ℕ) → v ≤ u → u < result → has_at self.now.blocks block 0 u ≡ false }
    {
        if block >= self.blocks.len() {
            return v;
        }
        let rows = &self.blocks[block];
        if rows.len() == 0 {
            return v;
        }
        rows[rows.len() - 1].skip(v)
    }

    fn constant_at(&self, v: usize, block: usize, layer: u32) -> bool
        ensures { result ≡ constant_at self.now.blocks v block layer }
    {
        let point = layer as usize / 2;
        let here = self.has(block, point, v);
        if layer % 2 == 1 {
            return here;
        }
        if point == 0 {
            return false;
        }
        here && self.has(block, point - 1, v)
    }

    // Whether the variable is in the set of a point.
    fn has(&self, block: usize, point: usize, v: usize) -> bool
        ensures { result ≡ has_at self.now.blocks block point v }
    {
        if block >= self.blocks.len() {
            return false;
        }
        let rows = &self.blocks[block];
        if point >= rows.len() {
            return false;
        }
        rows[rows.len() - 1 - point].contains(v)
    }
}

// The variables that are constants.
fn constants(alloc: Global, code: &VProc) -> Result<BitSet, AllocError>
    ensures constants { IfOk result (λ set. AreConstants code.now set) }
    ensures words { IfOk result (λ set. length set ≡ length code.now.vars / 64 + 1) }
{
    let mut set = BitSet::empty(alloc, code.vars.len())?;
    for v in 0..code.vars.len() {
        if let VarKind::Constant(_) = code.vars[v] {
            set.insert(v);
        }
    }
    Ok(set)
}

// What is live at the points of a block, from its end to its begin; of the constants what is read
// from there on.
fn rows_back(
    alloc: Global,
    block: &Block,
    entries: &[BitSet],
    now: &mut BitSet,
    constants: &BitSet,
) -> Result<Vec<BitSet>, AllocError>
    requires code { Fits (length now.old) block.now.code }
    requires end { FitsEnd (length entries.now) block.now.end }
    requires sets { HaveWords (length now.old) entries.now }
    requires constants { length constants.now ≡ length now.old }
    ensures words { length now.new ≡ length now.old }
    ensures rows { IfOk result (λ rows. RowsBack (contains constants.now) block.now.code
        (at_exit (contains constants.now) entries.now block.now.end) rows.items) }
    ensures sets { IfOk result (λ rows. HaveWords (length now.old) rows.items) }
{
    let mut rows = Vec::with_capacity(alloc, block.code.len())?;
    start_at_exit(now, &block.end, entries, constants);
    rows.push(now.duplicate(alloc)?)?;
    let mut left = block.code.len();
    while left > 0 {
        left -= 1;
        step_back(now, &block.code[left], constants);
        rows.push(now.duplicate(alloc)?)?;
    }
    Ok(rows)
}

// Leaves in each set only the constants that are read up to its instruction.
fn confine(rows: &mut Vec<BitSet>, block: &Block, seen: &mut BitSet, constants: &BitSet)
    requires code { Fits (length seen.old) block.now.code }
    requires count { length rows.old.items ≡ length block.now.code + 1 }
    requires sets { HaveWords (length seen.old) rows.old.items }
    requires constants { length constants.now ≡ length seen.old }
    ensures words { length seen.new ≡ length seen.old }
    ensures confined { Confined (contains constants.now) block.now.code rows.old.items
        rows.new.items (length block.now.code + 1) }
{
    seen.clear();
    let last = block.code.len();
    for k in 0..last {
        mark_reads(seen, &block.code[k]);
        rows[last - k].confine(seen, constants);
    }
    rows[0].confine(seen, constants);
}

// The sets of the points of a block, from its end to its begin.
fn block_rows(
    alloc: Global,
    block: &Block,
    entries: &[BitSet],
    now: &mut BitSet,
    constants: &BitSet,
) -> Result<Seq<BitSet>, AllocError>
    requires code { Fits (length now.old) block.now.code }
    requires end { FitsEnd (length entries.now) block.now.end }
    requires sets { HaveWords (length now.old) entries.now }
    requires constants { length constants.now ≡ length now.old }
    ensures words { length now.new ≡ length now.old }
    ensures rows { IfOk result (λ rows. RowsOf (contains constants.now) block.now.code
        (at_exit (contains constants.now) entries.now block.now.end) rows) }
{
    let mut rows = rows_back(alloc, block, entries, now, constants)?;
    confine(&mut rows, block, now, constants);
    Ok(Seq::from_vec(rows))
}

// The sets of the points of each block.
fn all_rows(
    alloc: Global,
    code: &VProc,
    entries: &[BitSet],
    now: &mut BitSet,
    constants: &BitSet,
) -> Result<Seq<Seq<BitSet>>, AllocError>
    requires range { InRange (length now.old) code.now }
    requires shape { Shape (length now.old) code.now entries.now }
    requires constants { length constants.now ≡ length now.old }
    ensures { IfOk result (λ blocks. AllRows code.now (contains constants.now) entries.now blocks
        (length code.now.blocks)) }
{
    let mut blocks = Vec::with_capacity(alloc, code.blocks.len())?;
    for block in code.blocks.as_slice() {
        blocks.push(block_rows(alloc, block, entries, now, constants)?)?;
    }
    Ok(Seq::from_vec(blocks))
}

/// The liveness of all variables of a procedure.
///
/// # Errors
///
/// Where there is no memory for it.
pub fn live(alloc: Global, code: &VProc) -> Result<Liveness, OutOfMemory>
    requires { IsSized code.now }
    ensures { IfOk result (λ liveness. IsLiveness code.now liveness) }
{
    let constants = constants(alloc, code)?;
    let flow = flow_of(alloc, code, constants)?;
    let entries = solve(alloc, code, &flow)?;
    let Flow { constants, .. } = flow;
    let mut now = BitSet::empty(alloc, code.vars.len())?;
    let blocks = all_rows(alloc, code, entries.as_slice(), &mut now, &constants)?;
    Ok(Liveness { constants, blocks })
}
