// Makes the network of the largest procedure that is sized, with 448 variables live throughout, and
// prints how large it is: the work behind bench/network.sh. A word says behind which part to stop,
// and then it is noted how much processor time each part took: `live` and `build`, and behind them
// `valid`, `home`, `admitted` and `cost`, which ask for home routes, whether they are admitted and
// what they cost, and `reserve`, `lagrange` and `least`, which make room for a least path of each
// strand and find these at prices of nothing, as a family and each alone; `plain` finds what that
// of the first strand costs by plain loops.
//
// The locals are set in the entry and written in the last block. Between them stand blocks in
// pairs: one changes a local and compares it, and leads back to itself or on; the other changes
// one or two locals more.

ghost use Rattle.std.specs.Prelude.{◌<◌};

mod parts;
mod work;

use crate::network::parts::from_live;
use crate::network::work::{Stop, Work, begin};
use anyhow::anyhow;
use pra_base::{Block, BlockId, Cond, End, ProcId, VInstr, VProc, VarId, VarKind};
use pra_list::Seq;
use std::alloc::{AllocError, Global};
use vc_live::is_sized;

/// The locals, and behind them the constant 1.
const LOCALS: u32 = 448;

const ONE: VarId = VarId(LOCALS);

const PAIRS: u32 = 2_048;

/// The first pairs, whose second block has one more instruction.
const MORE: u32 = 1_280;

fn put(
    alloc: Global,
    blocks: &mut Seq<Block>,
    depth: u32,
    code: &[VInstr],
    end: End,
) -> Result<(), AllocError> {
    blocks.push(Block {
        depth,
        code: Seq::from_slice(alloc, code)?,
        end,
    })?;
    Ok(())
}

fn local(number: u32) -> VarId {
    VarId(number % LOCALS)
}

// A block that may lead to itself, and the one behind it.
fn put_pair(alloc: Global, blocks: &mut Seq<Block>, pair: u32) -> Result<(), AllocError>
    requires { pair < 2048 }
{
    let first = 2 * pair + 1;
    let code = [
        VInstr::Add(local(pair), ONE),
        VInstr::Cmp(local(pair), local(pair + 1)),
    ];
    let end = End::Branch(Cond::L, BlockId(first), BlockId(first + 1));
    put(alloc, blocks, 1, &code, end)?;
    let sub = VInstr::Sub(local(pair + 2), ONE);
    let add = VInstr::Add(local(pair + 3), local(pair));
    let next = End::Jump(BlockId(first + 2));
    if pair < MORE {
        put(alloc, blocks, 0, &[sub, add], next)
    } else {
        put(alloc, blocks, 0, &[sub], next)
    }
}

fn procedure(alloc: Global) -> Result<VProc, AllocError> {
    let mut blocks = Seq::new(alloc);
    let mut sets = Vec::new(alloc);
    let mut writes = Vec::new(alloc);
    let mut vars = Seq::new(alloc);
    for number in 0..LOCALS {
        sets.push(VInstr::Set(VarId(number), 0))?;
        writes.push(VInstr::Write(VarId(number)))?;
        vars.push(VarKind::Plain)?;
    }
    writes.push(VInstr::Line)?;
    vars.push(VarKind::Constant(1))?;
    let one = BlockId(1);
    put(alloc, &mut blocks, 0, sets.as_slice(), End::Jump(one))?;
    for pair in 0..PAIRS {
        put_pair(alloc, &mut blocks, pair)?;
    }
    put(alloc, &mut blocks, 0, writes.as_slice(), End::Return)?;
    Ok(VProc {
        id: ProcId(0),
        args: 0,
        aggregates: 0,
        vars,
        blocks,
    })
}

fn measured(rt: &HostRuntime, work: &mut Work) -> Result<(), Stop> {
    let code = procedure(rt.alloc()).map_err(|_| Stop::NoMemory)?;
    if is_sized(&code) {
        return from_live(rt, work, &code);
    }
    Err(Stop::NotSized)
}

/// Does the parts up to the one that the word names, or makes the network.
pub fn measure(rt: &HostRuntime, word: Option<String>) -> anyhow::Result<()> {
    let mut work = begin(rt, word)?;
    let Err(stop) = measured(rt, &mut work) else {
        return Ok(());
    };
    match stop.told() {
        Some(told) => Err(anyhow!("{told}")),
        None => Ok(()),
    }
}
