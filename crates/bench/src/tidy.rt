// Tidies a procedure with as many instructions and variables as sized code may have, and prints how
// many are left: the work behind bench/tidy.sh.
//
// The locals are set in the entry and written in the last block. Between them stand blocks in
// pairs. The first of a pair makes a sum in a temporary, copies it to a local and sets a variable
// that nothing reads; it leads back to itself or on. The second one adds to local 0 by way of a
// temporary of its own, so that a thousand temporaries can be one with it. The entry sets as many
// variables more, that nothing reads, as make the procedure the largest one.
//
// Left are the entry's sets but that of local 1, which the first pair writes before anything reads
// it; three instructions of each first block, one of each second one; the writes and a line.

ghost use Rattle.std.specs.Prelude.{◌<◌};

use anyhow::anyhow;
use pra_base::{Block, BlockId, Cond, End, ProcId, VInstr, VProc, VarId, VarKind};
use pra_list::Seq;
use std::alloc::{AllocError, Global};
use vc_live::{is_sized, live};
use vc_tidy::tidy;
use vc_valid::is_valid;

const LOCALS: u32 = 128;

const PAIRS: u32 = 1_000;

const UNREAD: u32 = 64;

const VARIABLES: u32 = 16_383;

fn put(
    alloc: Global,
    blocks: &mut Seq<Block>,
    depth: u32,
    code: &[VInstr],
    end: End,
) -> Result<(), AllocError> {
    blocks.push(Block {
        depth,
        code: Seq::from_slice(alloc, code)?,
        end,
    })?;
    Ok(())
}

/// A local, but not local 0.
fn local(number: u32) -> VarId {
    VarId(number % 127 + 1)
}

/// A variable of a pair.
fn own(pair: u32, number: u32) -> VarId
    requires pair { pair < 1000 }
    requires number { number < 3 }
{
    VarId(LOCALS + 3 * pair + number)
}

// A block that may lead to itself, and the one behind it.
fn put_pair(alloc: Global, blocks: &mut Seq<Block>, pair: u32) -> Result<(), AllocError>
    requires { pair < 1000 }
{
    let first = 2 * pair + 1;
    let sum = own(pair, 0);
    let code = [
        VInstr::Copy(sum, local(pair + 1)),
        VInstr::Add(sum, local(pair + 2)),
        VInstr::Copy(local(pair), sum),
        VInstr::Set(own(pair, 1), 5),
        VInstr::Cmp(local(pair), local(pair + 2)),
    ];
    let end = End::Branch(Cond::L, BlockId(first), BlockId(first + 1));
    put(alloc, blocks, 1, &code, end)?;
    let more = own(pair, 2);
    let code = [
        VInstr::Copy(more, VarId(0)),
        VInstr::Add(more, local(pair)),
        VInstr::Copy(VarId(0), more),
    ];
    put(alloc, blocks, 0, &code, End::Jump(BlockId(first + 2)))
}

fn procedure(alloc: Global) -> Result<VProc, AllocError> {
    let mut blocks = Seq::new(alloc);
    let mut sets = Vec::new(alloc);
    let mut writes = Vec::new(alloc);
    for number in 0..LOCALS {
        sets.push(VInstr::Set(VarId(number), 0))?;
        writes.push(VInstr::Write(VarId(number)))?;
    }
    for number in 0..UNREAD {
        sets.push(VInstr::Set(VarId(VARIABLES - 1 - number), 0))?;
    }
    writes.push(VInstr::Line)?;
    let one = BlockId(1);
    put(alloc, &mut blocks, 0, sets.as_slice(), End::Jump(one))?;
    for pair in 0..PAIRS {
        put_pair(alloc, &mut blocks, pair)?;
    }
    put(alloc, &mut blocks, 0, writes.as_slice(), End::Return)?;
    let mut vars = Seq::new(alloc);
    for _ in 0..VARIABLES {
        vars.push(VarKind::Plain)?;
    }
    Ok(VProc {
        id: ProcId(0),
        args: 0,
        aggregates: 0,
        vars,
        blocks,
    })
}

fn total(code: &VProc) -> usize {
    let mut total: usize = 0;
    for block in code.blocks.as_slice() {
        total = total.saturating_add(block.code.len());
    }
    total
}

fn tidied(alloc: Global, code: VProc) -> anyhow::Result<VProc> {
    if !is_sized(&code) {
        return Err(anyhow!("not sized"));
    }
    let Ok(liveness) = live(alloc, &code) else {
        return Err(anyhow!("no memory"));
    };
    if is_valid(&code, &liveness) {
        return match tidy(alloc, code) {
            Ok(new) => Ok(new),
            Err(_) => Err(anyhow!("no memory")),
        };
    }
    Err(anyhow!("not valid"))
}

/// Tidies, and prints how many are left.
pub fn measure(rt: &HostRuntime) -> anyhow::Result<()> {
    let code = procedure(rt.alloc())?;
    let instructions = total(&code);
    let variables = code.vars.len();
    let code = tidied(rt.alloc(), code)?;
    println!(rt;
        "tidy: {} instructions and {} variables to {} and {}",
        instructions,
        variables,
        total(&code),
        code.vars.len()
    )?;
    Ok(())
}
