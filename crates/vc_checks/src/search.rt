// The facts that hold at the begins of blocks, as sweeps over the blocks find them: available
// facts, met over all ways (Kildall, A unified approach to global program optimization). What is
// found is tested by who takes it, so nothing is promised of it here.

ghost use Rattle.std.specs.Prelude.{◌<◌, length};

use crate::fact::Fact;
use crate::flow::facts_at;
use crate::known::{cannot_fail, find, pass};
use crate::order::{flow_order, number_at, rank_of, ranks_in};
use crate::ways::{Ways, ways_out};
use pra_base::{BlockId, End, VInstr, VProc, VarId, VarKind};
use pra_list::Seq;
use std::alloc::{AllocError, Global};

/// So often the blocks are gone through at most: once for each loop around a block, and some more.
const MAX_SWEEPS: u32 = 12;

/// In so many sweeps a loop moves the numbers of a fact apart; later as far as they go (Cousot and
/// Cousot, Abstract interpretation: widening).
const PATIENT_SWEEPS: u32 = 2;

/// So often the code is asked for variables of which something is to be known.
const MAX_TURNS: u32 = 4;

// Something is to be known of the variable, unless it is a constant.
fn want(code: &VProc, wanted: &mut Vec<bool>, v: VarId) -> bool {
    let at = v.0 as usize;
    match code.vars.get(at) {
        Some(VarKind::Constant(_)) | None => return false,
        _ => {}
    }
    let is_new = !is_marked(wanted.as_slice(), at);
    mark(wanted, at);
    is_new
}

// What an instruction makes a variable of, or compares it with, is wanted as that one is. Tells
// whether there is one more.
fn want_sources(code: &VProc, wanted: &mut Vec<bool>, instr: VInstr) -> bool {
    match instr {
        VInstr::Copy(v, s) | VInstr::Add(v, s) | VInstr::Sub(v, s) | VInstr::And(v, s) => {
            is_marked(wanted.as_slice(), v.0 as usize) && want(code, wanted, s)
        }
        VInstr::Cmp(a, b) => {
            if is_marked(wanted.as_slice(), a.0 as usize) {
                want(code, wanted, b)
            } else {
                is_marked(wanted.as_slice(), b.0 as usize) && want(code, wanted, a)
            }
        }
        _ => false,
    }
}

fn want_all_sources(code: &VProc, wanted: &mut Vec<bool>) -> bool {
    let mut any = false;
    for block in code.blocks.as_slice() {
        for instr in block.code.as_slice() {
            if want_sources(code, wanted, *instr) {
                any = true;
            }
        }
    }
    any
}

/// The variables of which something is to be known, by number: a check asks for them, or for what
/// is made of them or compared with them.
///
/// # Errors
///
/// Where there is no memory.
pub fn wanted_variables(alloc: Global, code: &VProc) -> Result<Vec<bool>, AllocError> {
    let mut wanted = checked_variables(alloc, code)?;
    for _ in 0..MAX_TURNS {
        if !want_all_sources(code, &mut wanted) {
            break;
        }
    }
    Ok(wanted)
}

// The variables that a check asks for, by number.
fn checked_variables(alloc: Global, code: &VProc) -> Result<Vec<bool>, AllocError> {
    let mut wanted = Vec::with_capacity(alloc, code.vars.len())?;
    for _ in 0..code.vars.len() {
        wanted.push(false)?;
    }
    for block in code.blocks.as_slice() {
        for instr in block.code.as_slice() {
            if let VInstr::Check(v, _) | VInstr::CheckPos(v) = *instr {
                mark(&mut wanted, v.0 as usize);
            }
        }
    }
    Ok(wanted)
}

fn mark(marks: &mut Vec<bool>, at: usize) {
    if at < marks.len() {
        marks[at] = true;
    }
}

fn unmark(marks: &mut Vec<bool>, at: usize) {
    if at < marks.len() {
        marks[at] = false;
    }
}

fn is_marked(marks: &[bool], at: usize) -> bool {
    match marks.get(at) {
        Some(mark) => *mark,
        None => false,
    }
}

/// What is found so far.
#[derive(Debug, Drop)]
struct Found {
    /// The blocks in the order in which sweeps go through them.
    order: Vec<usize>,
    /// The place of each block in that order.
    ranks: Vec<usize>,
    /// The facts at the begin of each block.
    begins: Vec<Seq<Fact>>,
    /// Whether control is known to come to a block.
    reached: Vec<bool>,
    /// Whether a block has to be gone through.
    pending: Vec<bool>,
    /// Whether a block is one at whose begin nothing is to be known.
    bare: Vec<bool>,
}

fn nothing(alloc: Global, code: &VProc) -> Result<Found, AllocError> {
    let count = code.blocks.len();
    let order = flow_order(alloc, code)?;
    let ranks = ranks_in(alloc, order.as_slice())?;
    let mut begins = Vec::with_capacity(alloc, count)?;
    let mut reached = Vec::with_capacity(alloc, count)?;
    let mut pending = Vec::with_capacity(alloc, count)?;
    let mut bare = Vec::with_capacity(alloc, count)?;
    for b in 0..count {
        begins.push(Seq::new(alloc))?;
        reached.push(b == 0)?;
        pending.push(b == 0)?;
        bare.push(false)?;
    }
    Ok(Found {
        order,
        ranks,
        begins,
        reached,
        pending,
        bare,
    })
}

// What both facts say.
fn wider(one: Fact, other: Fact) -> Fact {
    Fact {
        var: one.var,
        low: one.low.min(other.low),
        high: one.high.max(other.high),
    }
}

// A fact that still moves, as wide as it may come to be; nothing where it says nothing.
fn widest(fact: Fact, both: Fact) -> Option<Fact> {
    let low = if both.low < fact.low {
        i32::MIN
    } else {
        fact.low
    };
    let high = if fact.high < both.high {
        i32::MAX
    } else {
        fact.high
    };
    if low == i32::MIN && high == i32::MAX {
        return None;
    }
    Some(Fact {
        var: fact.var,
        low,
        high,
    })
}

// What both say of a variable.
fn met(fact: Fact, others: &[Fact], is_patient: bool) -> Option<Fact> {
    let other = find(others, fact.var)?;
    let both = wider(fact, other);
    if is_patient {
        Some(both)
    } else {
        widest(fact, both)
    }
}

// What both lists say, or nothing where that is all of the first.
fn meet(
    alloc: Global,
    facts: &[Fact],
    others: &[Fact],
    is_patient: bool,
) -> Result<Option<Vec<Fact>>, AllocError> {
    let mut both = Vec::with_capacity(alloc, facts.len())?;
    let mut less = false;
    for fact in facts {
        match met(*fact, others, is_patient) {
            Some(wide) => {
                if wide.low != fact.low || wide.high != fact.high {
                    less = true;
                }
                both.push(wide)?;
            }
            None => less = true,
        }
    }
    if less { Ok(Some(both)) } else { Ok(None) }
}

fn put(found: &mut Found, b: usize, facts: Seq<Fact>) {
    if b < found.begins.len() {
        found.begins[b] = facts;
    }
    mark(&mut found.reached, b);
    mark(&mut found.pending, b);
}

// Control comes to a block with these facts.
fn enter(
    alloc: Global,
    found: &mut Found,
    block: BlockId,
    known: &[Fact],
    is_patient: bool,
) -> Result<(), AllocError> {
    let b = block.0 as usize;
    if !is_marked(found.reached.as_slice(), b) {
        let bare = is_marked(found.bare.as_slice(), b);
        let facts = Seq::from_slice(alloc, if bare { &[] } else { known })?;
        put(found, b, facts);
        return Ok(());
    }
    let less = meet(
        alloc,
        facts_at(found.begins.as_slice(), b),
        known,
        is_patient,
    )?;
    if let Some(facts) = less {
        put(found, b, Seq::from_vec(facts));
    }
    Ok(())
}

// Where control comes from in a sweep: the place of a block in the order.
#[derive(Clone, Copy, Debug)]
struct Leaving {
    rank: usize,
    is_patient: bool,
}

// Whether facts are met as they are: always where control goes on in the order.
fn is_patient(ranks: &[usize], from: Leaving, block: BlockId) -> bool {
    from.is_patient || from.rank < rank_of(ranks, block)
}

fn leave(
    alloc: Global,
    found: &mut Found,
    from: Leaving,
    end: End,
    ways: &Ways,
) -> Result<(), AllocError> {
    let (one, other) = (ways.one.as_slice(), ways.other.as_slice());
    match end {
        End::Jump(block) => {
            let patient = is_patient(found.ranks.as_slice(), from, block);
            enter(alloc, found, block, one, patient)?;
        }
        End::Branch(_, first, second) => {
            let patient = is_patient(found.ranks.as_slice(), from, first);
            enter(alloc, found, first, one, patient)?;
            let patient = is_patient(found.ranks.as_slice(), from, second);
            enter(alloc, found, second, other, patient)?;
        }
        End::Return => {}
    }
    Ok(())
}

// Goes through a block, from what is known at its begin to the ways out.
fn go_through(
    alloc: Global,
    code: &VProc,
    wanted: &[bool],
    begins: &[Seq<Fact>],
    b: usize,
) -> Result<Ways, AllocError>
    requires { b < length code.now.blocks }
{
    let block = &code.blocks[b];
    let mut known = Vec::from_slice(alloc, facts_at(begins, b))?;
    for instr in block.code.as_slice() {
        if !cannot_fail(code, known.as_slice(), *instr) {
            pass(code, wanted, &mut known, *instr)?;
        }
    }
    let out = ways_out(alloc, code, wanted, known.as_slice(), block)?;
    Ok(out)
}

// Goes through the blocks that are pending, and tells whether there was one.
fn sweep(
    alloc: Global,
    code: &VProc,
    wanted: &[bool],
    found: &mut Found,
    is_patient: bool,
) -> Result<bool, AllocError> {
    let mut any = false;
    for rank in 0..found.order.len() {
        let b = number_at(found.order.as_slice(), rank);
        if b < code.blocks.len() && is_marked(found.pending.as_slice(), b) {
            unmark(&mut found.pending, b);
            any = true;
            let out = go_through(alloc, code, wanted, found.begins.as_slice(), b)?;
            let from = Leaving { rank, is_patient };
            leave(alloc, found, from, code.blocks[b].end, &out)?;
        }
    }
    Ok(any)
}

// Where control does not come nothing is known. Tells whether there is such a block.
fn reach_others(found: &mut Found) -> bool {
    let mut any = false;
    for b in 0..found.reached.len() {
        if !is_marked(found.reached.as_slice(), b) {
            mark(&mut found.reached, b);
            mark(&mut found.pending, b);
            any = true;
        }
    }
    any
}

// Sweeps until nothing is pending, and tells whether that came.
fn settle(
    alloc: Global,
    code: &VProc,
    wanted: &[bool],
    found: &mut Found,
) -> Result<bool, AllocError> {
    for turn in 0..MAX_SWEEPS {
        let any = sweep(alloc, code, wanted, found, turn < PATIENT_SWEEPS)?;
        if !any && !reach_others(found) {
            return Ok(true);
        }
    }
    Ok(false)
}

fn mark_back(found: &mut Found, from: usize, block: BlockId) {
    if rank_of(found.ranks.as_slice(), block) <= number_at(found.ranks.as_slice(), from) {
        mark(&mut found.bare, block.0 as usize);
    }
}

// Nothing is to be known where control goes back to, so that what is known goes forth alone.
fn lay_bare(code: &VProc, found: &mut Found) {
    for (b, block) in code.blocks.as_slice().iter().enumerate() {
        match block.end {
            End::Jump(next) => mark_back(found, b, next),
            End::Branch(_, one, other) => {
                mark_back(found, b, one);
                mark_back(found, b, other);
            }
            End::Return => {}
        }
    }
}

/// Facts for the begin of each block. Where sweeps do not settle them they are sought once more,
/// with nothing known where control goes back to.
///
/// # Errors
///
/// Where there is no memory.
pub fn find_facts(
    alloc: Global,
    code: &VProc,
    wanted: &[bool],
) -> Result<Vec<Seq<Fact>>, AllocError> {
    let mut found = nothing(alloc, code)?;
    if !settle(alloc, code, wanted, &mut found)? {
        found = nothing(alloc, code)?;
        lay_bare(code, &mut found);
        let _settled = settle(alloc, code, wanted, &mut found)?;
    }
    let Found {
        order: _,
        ranks: _,
        begins,
        reached: _,
        pending: _,
        bare: _,
    } = found;
    Ok(begins)
}
