// Assembles 200 procedures of 60 instructions, a hundred times: the work behind bench/assemble.sh.
//
// Each procedure sets eight locals and a counter, and has a loop whose body makes sums, differences
// and products of two locals in a temporary. Then it writes two locals and calls the procedure that
// stands behind it; the last one writes the end of a line a second time. They are placed by home
// routes.

use anyhow::anyhow;
use ia_sketch::PlacedModule;
use pra_base::{Block, BlockId, Cond, End, ProcId, VInstr, VProc, VarId, VarKind};
use pra_list::Seq;
use std::alloc::{AllocError, Global};

const PROCEDURES: u32 = 200;

const TIMES: u32 = 100;

const LOCALS: u32 = 8;

const COUNTER: VarId = VarId(8);

const TEMPORARY: VarId = VarId(9);

const NOUGHT: VarId = VarId(10);

const ONE: VarId = VarId(11);

fn local(number: u32) -> VarId {
    VarId(number % LOCALS)
}

fn block(alloc: Global, depth: u32, code: &[VInstr], end: End) -> Result<Block, AllocError> {
    Ok(Block {
        depth,
        code: Seq::from_slice(alloc, code)?,
        end,
    })
}

fn entry(alloc: Global) -> Result<Block, AllocError> {
    let mut code = Vec::new(alloc);
    for number in 0..LOCALS {
        code.push(VInstr::Set(VarId(number), 7))?;
    }
    code.push(VInstr::Set(COUNTER, 3))?;
    block(alloc, 0, code.as_slice(), End::Jump(BlockId(1)))
}

// The operation of a statement.
fn operation(number: u32, operand: VarId) -> VInstr {
    match number % 3 {
        0 => VInstr::Add(TEMPORARY, operand),
        1 => VInstr::Sub(TEMPORARY, operand),
        _ => VInstr::Mul(TEMPORARY, operand),
    }
}

fn body(alloc: Global) -> Result<Block, AllocError> {
    let mut code = Vec::new(alloc);
    for number in 0u32..15 {
        code.push(VInstr::Copy(TEMPORARY, local(number + 1)))?;
        code.push(operation(number, local(3 * number + 2)))?;
        code.push(VInstr::Copy(local(number), TEMPORARY))?;
    }
    code.push(VInstr::Sub(COUNTER, ONE))?;
    block(alloc, 1, code.as_slice(), End::Jump(BlockId(1)))
}

fn exit(alloc: Global, number: u32) -> Result<Block, AllocError> {
    let last = if number < PROCEDURES - 1 {
        VInstr::Call(ProcId(number + 1))
    } else {
        VInstr::Line
    };
    let code = [
        VInstr::Write(VarId(0)),
        VInstr::Write(VarId(1)),
        VInstr::Line,
        last,
    ];
    block(alloc, 0, &code, End::Return)
}

fn procedure(alloc: Global, number: u32) -> Result<VProc, AllocError> {
    let mut vars = Seq::new(alloc);
    for _ in 0..LOCALS + 2 {
        vars.push(VarKind::Plain)?;
    }
    vars.push(VarKind::Constant(0))?;
    vars.push(VarKind::Constant(1))?;
    let test = [VInstr::Cmp(COUNTER, NOUGHT)];
    let branch = End::Branch(Cond::G, BlockId(2), BlockId(3));
    let mut blocks = Seq::new(alloc);
    blocks.push(entry(alloc)?)?;
    blocks.push(block(alloc, 1, &test, branch)?)?;
    blocks.push(body(alloc)?)?;
    blocks.push(exit(alloc, number)?)?;
    Ok(VProc {
        id: ProcId(number),
        args: 0,
        aggregates: 0,
        vars,
        blocks,
    })
}

fn placed(alloc: Global) -> anyhow::Result<PlacedModule> {
    let mut placed = PlacedModule::new(alloc);
    for number in 0..PROCEDURES {
        let code = procedure(alloc, number)?;
        if placed.add_at_home(alloc, &code).is_err() {
            return Err(anyhow!("procedure {} is not placed", number));
        }
    }
    Ok(placed)
}

// How long the code of the module's image is.
fn assembled(alloc: Global, placed: &PlacedModule) -> anyhow::Result<usize> {
    match placed.assemble(alloc, 0) {
        Ok(image) => Ok(image.code.len()),
        Err(_) => Err(anyhow!("no memory")),
    }
}

/// Assembles, and prints how much.
pub fn measure(rt: &HostRuntime) -> anyhow::Result<()> {
    let placed = placed(rt.alloc())?;
    let mut bytes = 0usize;
    for _ in 0..TIMES {
        bytes = assembled(rt.alloc(), &placed)?;
    }
    println!(rt;
        "{} procedures to {} bytes of code, {} times",
        placed.procs().len(),
        bytes,
        TIMES
    )?;
    Ok(())
}
