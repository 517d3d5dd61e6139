// Asks for the liveness of the largest procedure that is sized and prints how much is live at some
// of its layers: the work behind bench/live.sh.
//
// The procedure is a row of nests of five loops, each laid out as the text would have it: the test
// of a loop, its body, and behind the inner loop what follows it. Each nest has a sum and variables
// of its own; some locals live throughout.

ghost use Rattle.std.specs.Prelude.{◌<◌, ◌≤◌};
ghost use Rattle.bench.specs.declared.live.TheConstants.{NESTS};

use anyhow::anyhow;
use pra_base::{Addr, Base, Block, BlockId, Cond, End, ProcId, VInstr, VProc, VarId, VarKind};
use pra_list::Seq;
use std::alloc::{AllocError, Global};
use vc_live::{Liveness, is_sized, live};

/// How many nests there are, and how many loops and blocks each has.
const NESTS: u32 = 273;

const LOOPS: u32 = 5;

const NEST_BLOCKS: u32 = 15;

/// How many variables a nest has numbers for, the first 24 of which it names.
const NEST_VARIABLES: u32 = 60;

const VARIABLES: u32 = 16_383;

/// The nests from the first on that have a local which is set at the begin and written at the end.
const LOCALS: u32 = 64;

/// A nest of loops: the numbers of its variables and blocks.
#[derive(Drop)]
struct Nest {
    number: u32,
    ghost in_range: { number < NESTS },
}

impl Nest {
    fn var(&self, offset: u32) -> VarId
        requires { offset < NEST_VARIABLES }
    {
        VarId(self.number * NEST_VARIABLES + offset)
    }

    /// What a loop counts with, what it counts to, and what it counts by.
    fn counter(&self, level: u32) -> VarId
        requires { level < LOOPS }
    {
        self.var(level)
    }

    fn bound(&self, level: u32) -> VarId
        requires { level < LOOPS }
    {
        self.var(5 + level)
    }

    fn step(&self, level: u32) -> VarId
        requires { level < LOOPS }
    {
        self.var(10 + level)
    }

    fn constant(&self, level: u32) -> VarId
        requires { level < LOOPS }
    {
        self.var(15 + level)
    }

    fn sum(&self) -> VarId {
        self.var(20)
    }

    fn element(&self) -> VarId {
        self.var(21)
    }

    fn quotient(&self) -> VarId {
        self.var(22)
    }

    fn remainder(&self) -> VarId {
        self.var(23)
    }

    /// A local that lives throughout, of the nests that have one.
    fn local(&self) -> VarId {
        VarId(self.number % LOCALS * NEST_VARIABLES + 59)
    }

    fn block(&self, offset: u32) -> BlockId
        requires { offset ≤ NEST_BLOCKS }
    {
        BlockId(1 + self.number * NEST_BLOCKS + offset)
    }

    /// The test of a loop, the begin of its body, and what follows it.
    fn head(&self, level: u32) -> BlockId
        requires { level < LOOPS }
    {
        self.block(2 * level)
    }

    fn body(&self, level: u32) -> BlockId
        requires { level < LOOPS }
    {
        self.block(2 * level + 1)
    }

    fn after(&self, level: u32) -> BlockId
        requires { level < LOOPS }
    {
        self.block(14 - level)
    }

    /// The block behind the nest.
    fn behind(&self) -> BlockId {
        self.block(NEST_BLOCKS)
    }
}

fn put(
    alloc: Global,
    blocks: &mut Seq<Block>,
    depth: u32,
    code: &[VInstr],
    end: End,
) -> Result<(), AllocError> {
    blocks.push(Block {
        depth,
        code: Seq::from_slice(alloc, code)?,
        end,
    })?;
    Ok(())
}

// The instructions that begin what a nest counts and sums.
fn begins(nest: &Nest) -> [VInstr; 2] {
    [VInstr::Set(nest.counter(0), 0), VInstr::Set(nest.sum(), 0)]
}

// The tests of a nest's loops, each with the begin of its body.
fn put_loops(alloc: Global, blocks: &mut Seq<Block>, nest: &Nest) -> Result<(), AllocError> {
    for level in 0..LOOPS {
        let test = [VInstr::Cmp(nest.counter(level), nest.bound(level))];
        let end = End::Branch(Cond::L, nest.body(level), nest.after(level));
        put(alloc, blocks, level + 1, &test, end)?;
        if level + 1 < LOOPS {
            let body = [
                VInstr::Set(nest.counter(level + 1), 0),
                VInstr::Copy(nest.step(level), nest.local()),
                VInstr::Add(nest.step(level), nest.constant(level)),
            ];
            put(
                alloc,
                blocks,
                level + 1,
                &body,
                End::Jump(nest.head(level + 1)),
            )?;
        } else {
            put(
                alloc,
                blocks,
                level + 1,
                &innermost(nest, level),
                End::Jump(nest.head(level)),
            )?;
        }
    }
    Ok(())
}

// Sums an array and leaves remainders in it.
fn innermost(nest: &Nest, level: u32) -> [VInstr; 6]
    requires { level < LOOPS }
{
    let counter = nest.counter(level);
    let element = Addr {
        base: Base::Frame(0),
        offset: 0,
        index: Some(counter),
    };
    [
        VInstr::Check(counter, 65_536),
        VInstr::Load(nest.element(), element),
        VInstr::Add(nest.sum(), nest.element()),
        VInstr::DivMod(
            nest.quotient(),
            nest.remainder(),
            nest.element(),
            nest.step(level),
        ),
        VInstr::Store(element, nest.remainder()),
        VInstr::Add(counter, nest.constant(level)),
    ]
}

// What follows the loops of a nest, the innermost first.
fn put_ends(
    alloc: Global,
    blocks: &mut Seq<Block>,
    nest: &Nest,
    next: &Nest,
) -> Result<(), AllocError> {
    for level in (1..LOOPS).rev() {
        let outer = level - 1;
        let code = [VInstr::Add(nest.counter(outer), nest.step(outer))];
        put(alloc, blocks, level, &code, End::Jump(nest.head(outer)))?;
    }
    let [counter, sum] = begins(next);
    put(
        alloc,
        blocks,
        0,
        &[VInstr::Write(nest.sum()), counter, sum],
        End::Jump(nest.behind()),
    )
}

fn kinds(alloc: Global) -> Result<Seq<VarKind>, AllocError> {
    let mut vars = Seq::new(alloc);
    for v in 0..VARIABLES {
        vars.push(match v % NEST_VARIABLES {
            5..=9 | 14..=19 => VarKind::Constant(1),
            _ => VarKind::Plain,
        })?;
    }
    Ok(vars)
}

fn procedure(alloc: Global) -> Result<VProc, AllocError> {
    let mut blocks = Seq::new(alloc);
    let mut sets = begins(&Nest { number: 0 }).to_vec(alloc)?;
    let mut writes = Vec::new(alloc);
    for number in 0..LOCALS {
        let local = Nest { number }.local();
        sets.push(VInstr::Set(local, 0))?;
        writes.push(VInstr::Write(local))?;
    }
    writes.push(VInstr::Line)?;
    put(
        alloc,
        &mut blocks,
        0,
        sets.as_slice(),
        End::Jump(BlockId(1)),
    )?;
    for number in 0..NESTS {
        let nest = Nest { number };
        let next = Nest {
            number: (number + 1) % NESTS,
        };
        put_loops(alloc, &mut blocks, &nest)?;
        put_ends(alloc, &mut blocks, &nest, &next)?;
    }
    put(
        alloc,
        &mut blocks,
        0,
        writes.as_slice(),
        End::Jump(BlockId(4_097)),
    )?;
    put(alloc, &mut blocks, 0, &[], End::Return)?;
    Ok(VProc {
        id: ProcId(0),
        args: 0,
        aggregates: 65_536,
        vars: kinds(alloc)?,
        blocks,
    })
}

fn live_count(liveness: &Liveness, block: BlockId, layer: u32) -> usize {
    (0..VARIABLES)
        .filter(|v| liveness.at(VarId(*v), block, layer))
        .count()
}

/// Asks for the liveness, and prints how much is live.
pub fn measure(rt: &HostRuntime) -> anyhow::Result<()> {
    let code = procedure(rt.alloc())?;
    if !is_sized(&code) {
        return Err(anyhow!("not sized"));
    }
    let liveness = live(rt.alloc(), &code).map_err(|_| anyhow!("no memory"))?;
    let middle = Nest { number: 136 };
    println!(rt;
        "live: {} at the entry, {} at the first loop, {} at a body, {} at its division, {} at the end",
        live_count(&liveness, BlockId(0), 0),
        live_count(&liveness, BlockId(1), 0),
        live_count(&liveness, middle.body(4), 0),
        live_count(&liveness, middle.body(4), 7),
        live_count(&liveness, BlockId(4_096), 0)
    )?;
    Ok(())
}
