// The code in which variables have one name.

ghost use Rattle.std.specs.Prelude.{◌≡◌, map, IfOk};
ghost use Rattle.vc_same.specs.Renaming.{address, base_of, index_of, renamed, var};
ghost use Rattle.vc_tidy.specs.Joined.{is_joined, joined, joined_block, joined_code, name};

use pra_base::{Addr, Base, Block, VInstr, VProc, VarId, VarKind};
use pra_list::Seq;
use std::alloc::{AllocError, Global};

// The name of a variable.
fn name(names: &[u32], v: VarId) -> VarId
    ensures { result ≡ var (name names.now) v }
{
    let at = v.0 as usize;
    if at < names.len() {
        VarId(names[at])
    } else {
        v
    }
}

fn base_of(names: &[u32], base: Base) -> Base
    ensures { result ≡ base_of (name names.now) base }
{
    match base {
        Base::Via(v) => Base::Via(name(names, v)),
        Base::Global(w) => Base::Global(w),
        Base::Frame(w) => Base::Frame(w),
        Base::Cell(i) => Base::Cell(i),
    }
}

fn index_of(names: &[u32], index: Option<VarId>) -> Option<VarId>
    ensures { result ≡ index_of (name names.now) index }
{
    match index {
        Some(v) => Some(name(names, v)),
        None => None,
    }
}

fn address(names: &[u32], a: Addr) -> Addr
    ensures { result ≡ address (name names.now) a }
{
    Addr {
        base: base_of(names, a.base),
        offset: a.offset,
        index: index_of(names, a.index),
    }
}

// The instruction under the names.
fn renamed(names: &[u32], instr: VInstr) -> VInstr
    ensures { result ≡ renamed (name names.now) instr }
{
    match instr {
        VInstr::Set(v, n) => VInstr::Set(name(names, v), n),
        VInstr::Copy(v, s) => VInstr::Copy(name(names, v), name(names, s)),
        VInstr::Add(v, s) => VInstr::Add(name(names, v), name(names, s)),
        VInstr::Sub(v, s) => VInstr::Sub(name(names, v), name(names, s)),
        VInstr::And(v, s) => VInstr::And(name(names, v), name(names, s)),
        VInstr::Or(v, s) => VInstr::Or(name(names, v), name(names, s)),
        VInstr::Xor(v, s) => VInstr::Xor(name(names, v), name(names, s)),
        VInstr::Mul(v, s) => VInstr::Mul(name(names, v), name(names, s)),
        VInstr::Neg(v) => VInstr::Neg(name(names, v)),
        VInstr::Shift(op, v, n) => VInstr::Shift(op, name(names, v), n),
        VInstr::Cmp(a, b) => VInstr::Cmp(name(names, a), name(names, b)),
        VInstr::CmpSet(c, v, a, b) => {
            VInstr::CmpSet(c, name(names, v), name(names, a), name(names, b))
        }
        VInstr::DivMod(q, r, a, d) => VInstr::DivMod(
            name(names, q),
            name(names, r),
            name(names, a),
            name(names, d),
        ),
        VInstr::Check(v, n) => VInstr::Check(name(names, v), n),
        VInstr::CheckPos(v) => VInstr::CheckPos(name(names, v)),
        VInstr::Load(v, a) => VInstr::Load(name(names, v), address(names, a)),
        VInstr::Store(a, s) => VInstr::Store(address(names, a), name(names, s)),
        VInstr::Addr(v, a) => VInstr::Addr(name(names, v), address(names, a)),
        VInstr::Push(s) => VInstr::Push(name(names, s)),
        VInstr::Call(p) => VInstr::Call(p),
        VInstr::Read(v) => VInstr::Read(name(names, v)),
        VInstr::Write(s) => VInstr::Write(name(names, s)),
        VInstr::Line => VInstr::Line,
        VInstr::Clear => VInstr::Clear,
    }
}

// Whether the instruction copies between variables of one name.
fn is_joined(names: &[u32], instr: VInstr) -> bool
    ensures { result ≡ is_joined names.now instr }
{
    match instr {
        VInstr::Copy(t, s) => name(names, t).0 == name(names, s).0,
        _ => false,
    }
}

fn joined(alloc: Global, names: &[u32], code: &[VInstr]) -> Result<Vec<VInstr>, AllocError>
    ensures { IfOk result (λ new. new.items ≡ joined names.now code.now) }
{
    let mut new = Vec::with_capacity(alloc, code.len())?;
    for instr in code {
        if is_joined(names, *instr) {
            continue;
        }
        new.push(renamed(names, *instr))?;
    }
    Ok(new)
}

fn joined_block(alloc: Global, names: &[u32], block: &Block) -> Result<Block, AllocError>
    ensures { IfOk result (λ new. new ≡ joined_block names.now block.now) }
{
    let code = joined(alloc, names, block.code.as_slice())?;
    Ok(Block {
        depth: block.depth,
        code: Seq::from_vec(code),
        end: block.end,
    })
}

fn joined_blocks(alloc: Global, names: &[u32], code: &VProc) -> Result<Vec<Block>, AllocError>
    ensures { IfOk result (λ new. new.items ≡ map (joined_block names.now) code.now.blocks) }
{
    let mut blocks = Vec::with_capacity(alloc, code.blocks.len())?;
    for block in code.blocks.as_slice() {
        blocks.push(joined_block(alloc, names, block)?)?;
    }
    Ok(blocks)
}

/// The code under the names, with these variables, without copies between variables of one name.
pub fn joined_code(
    alloc: Global,
    names: &[u32],
    vars: Seq<VarKind>,
    code: &VProc,
) -> Result<VProc, AllocError>
    ensures { IfOk result (λ new. new ≡ joined_code names.now vars code.now) }
{
    let blocks = joined_blocks(alloc, names, code)?;
    Ok(VProc {
        id: code.id,
        args: code.args,
        aggregates: code.aggregates,
        vars,
        blocks: Seq::from_vec(blocks),
    })
}
