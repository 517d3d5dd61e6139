// The least solution of the equations, word by word of the sets.
//
// An entry begins with what its block reads before it writes it. Where a word of an entry grows,
// each block that leads there is asked again, for that word alone: so a step takes in something new
// or ends one that did, and time goes by what is live, in whatever order the blocks stand.

ghost use Rattle.std.specs.Prelude.{◌≡◌, ℕ, ◌+◌, ◌/◌, ◌%◌, ◌<◌, ◌≤◌, ◌^◌, ◌⊎◌, ◌&&◌, not, length};
ghost use Rattle.std.specs.Prelude.{true, false, IfOk, OnOk};
ghost use Rattle.pra_base.specs.Code.{end_of, IsTarget};
ghost use Rattle.vc_live.specs.Sets.{contains, has_bit};
ghost use Rattle.vc_live.specs.Equations.{InRange, Shape, IsSound, IsClosed, Fits, FitsEnd, entry};
ghost use Rattle.vc_live.specs.Equations.{at_targets, total_room};
ghost use Rattle.vc_live.specs.Spreading.{AreMade, AreStops, makes, stops_at, is_among, HasAdded};
ghost use Rattle.vc_live.specs.Spreading.{LeadTo, IsFlow, HasAsked, HasSpread, IsPassed, AreWithin};
ghost use Rattle.vc_live.specs.Spreading.{is_left};

use crate::equations::{go_back, mark_writes};
use crate::sets::BitSet;
use pra_base::{BlockId, End, VInstr, VProc};
use pra_list::Seq;
use std::alloc::{AllocError, Global};

/// What is known of the blocks before any is asked.
#[derive(Debug, Drop)]
pub struct Flow {
    pub constants: BitSet,
    /// For each block what does not pass it.
    stops: Seq<BitSet>,
    /// For each block those that lead to it.
    sources: Seq<Seq<u32>>,
}

// What a block makes live by itself, where nothing is live at its end.
fn made_by(
    alloc: Global,
    code: &[VInstr],
    bound: usize,
    constants: &BitSet,
) -> Result<BitSet, AllocError>
    requires code { Fits (length constants.now) code.now }
    requires words { length constants.now ≡ bound / 64 + 1 }
    ensures words { IfOk result (λ set. length set ≡ length constants.now) }
    ensures members { IfOk result (λ set. (v : ℕ) →
        contains set v ≡ makes (contains constants.now) code.now v) }
{
    let mut set = BitSet::empty(alloc, bound)?;
    go_back(&mut set, code, constants);
    Ok(set)
}

// What each block makes live by itself.
fn made(alloc: Global, code: &VProc, constants: &BitSet) -> Result<Vec<BitSet>, AllocError>
    requires range { InRange (length constants.now) code.now }
    requires words { length constants.now ≡ length code.now.vars / 64 + 1 }
    ensures { IfOk result (λ sets.
        AreMade (length constants.now) code.now (contains constants.now) sets.items
        (length code.now.blocks)) }
{
    let mut sets = Vec::with_capacity(alloc, code.blocks.len())?;
    for block in code.blocks.as_slice() {
        sets.push(made_by(alloc, block.code.as_slice(), code.vars.len(), constants)?)?;
    }
    Ok(sets)
}

// What does not pass a block from its end to its begin: constants, and what it writes.
fn stopped_by(alloc: Global, code: &[VInstr], constants: &BitSet) -> Result<BitSet, AllocError>
    requires { Fits (length constants.now) code.now }
    ensures words { IfOk result (λ set. length set ≡ length constants.now) }
    ensures members { IfOk result (λ set. (v : ℕ) →
        contains set v ≡ stops_at (contains constants.now) code.now v) }
{
    let mut set = constants.duplicate(alloc)?;
    for instr in code {
        mark_writes(&mut set, instr);
    }
    Ok(set)
}

// What does not pass each block.
fn stops(alloc: Global, code: &VProc, constants: &BitSet) -> Result<Vec<BitSet>, AllocError>
    requires { InRange (length constants.now) code.now }
    ensures { IfOk result (λ sets.
        AreStops (length constants.now) code.now (contains constants.now) sets.items
        (length code.now.blocks)) }
{
    let mut sets = Vec::with_capacity(alloc, code.blocks.len())?;
    for block in code.blocks.as_slice() {
        sets.push(stopped_by(alloc, block.code.as_slice(), constants)?)?;
    }
    Ok(sets)
}

// Adds a block to those that lead to another one.
fn add_source(sources: &mut Vec<Seq<u32>>, target: BlockId, block: u32) -> Result<(), AllocError>
    requires { target.0 < length sources.old.items }
    ensures { OnOk result (HasAdded sources.old.items sources.new.items block (λ t. target.0 ≡ t)) }
{
    sources[target.0 as usize].push(block)?;
    Ok(())
}

// Adds a block to those that lead to the targets of its end.
fn add_sources(sources: &mut Vec<Seq<u32>>, end: &End, block: u32) -> Result<(), AllocError>
    requires { FitsEnd (length sources.old.items) end.now }
    ensures { OnOk result (HasAdded sources.old.items sources.new.items block (IsTarget end.now)) }
{
    match end {
        End::Jump(target) => {
            add_source(sources, *target, block)?;
            Ok(())
        }
        End::Branch(_, one, other) => {
            add_source(sources, *one, block)?;
            add_source(sources, *other, block)?;
            Ok(())
        }
        End::Return => Ok(()),
    }
}

// For each block no block.
fn no_sources(alloc: Global, count: usize) -> Result<Vec<Seq<u32>>, AllocError>
    ensures count { IfOk result (λ sources. length sources.items ≡ count) }
    ensures none { IfOk result (λ sources. (t b : ℕ) → is_among sources.items t b ≡ false) }
{
    let mut sources = Vec::with_capacity(alloc, count)?;
    for _ in 0..count {
        sources.push(Seq::new(alloc))?;
    }
    Ok(sources)
}

// For each block those that lead to it.
fn sources(alloc: Global, code: &VProc) -> Result<Vec<Seq<u32>>, AllocError>
    requires ends { (b : ℕ) → b < length code.now.blocks →
        FitsEnd (length code.now.blocks) (end_of code.now b) }
    requires few { length code.now.blocks < 2 ^ 32 }
    ensures { IfOk result (λ sources.
        LeadTo code.now sources.items (length code.now.blocks)) }
{
    let mut sources = no_sources(alloc, code.blocks.len())?;
    for block in 0..code.blocks.len() {
        add_sources(&mut sources, &code.blocks[block].end, block as u32)?;
    }
    Ok(sources)
}

// The word of what is live at an end.
fn word_at_targets(entries: &[BitSet], end: &End, word: usize) -> u64
    requires targets { FitsEnd (length entries.now) end.now }
    requires words { (b : ℕ) → b < length entries.now → word < length (entry entries.now b) }
    ensures { (v : ℕ) → v / 64 ≡ word →
        has_bit result (v % 64) ≡ at_targets entries.now end.now v }
{
    match end {
        End::Jump(target) => entries[target.0 as usize].word(word),
        End::Branch(_, one, other) => {
            entries[one.0 as usize].word(word) | entries[other.0 as usize].word(word)
        }
        End::Return => 0,
    }
}

// The bits of one word that are not in another.
fn without(word: u64, other: u64) -> u64
    ensures { (i : ℕ) → i < 64 → has_bit result i ≡ (has_bit word i && not (has_bit other i)) }
{
    word & !other
}

// Lets the entry of a block take in what its equation asks for in a word, and says whether it grew.
fn ask(entries: &mut Vec<BitSet>, flow: &Flow, code: &VProc, block: usize, word: usize) -> bool
    requires flow { IsFlow code.now flow.now }
    requires block { block < length code.now.blocks }
    requires word { word < length flow.now.constants }
    requires shape { Shape (length flow.now.constants) code.now entries.old.items }
    ensures { HasAsked code.now flow.now.stops entries.old.items entries.new.items block word
        result }
{
    let live = word_at_targets(entries.as_slice(), &code.blocks[block].end, word);
    let more = without(live, flow.stops[block].word(word));
    entries[block].grow(word, more)
}

// Asks the blocks that lead to this one, and adds those whose entries grew to what is left to do.
fn ask_sources(
    entries: &mut Vec<BitSet>,
    flow: &Flow,
    code: &VProc,
    block: usize,
    word: usize,
    left: &mut Vec<u32>,
) -> Result<(), AllocError>
    requires flow { IsFlow code.now flow.now }
    requires block { block < length code.now.blocks }
    requires word { word < length flow.now.constants }
    requires shape { Shape (length flow.now.constants) code.now entries.old.items }
    requires passed { IsPassed code.now flow.now.stops entries.old.items word
        (λ b t. (is_left left.old.items t ≡ true) ⊎ (t ≡ block)) }
    requires within { AreWithin left.old.items (length code.now.blocks) }
    ensures spread { OnOk result (HasSpread (length flow.now.constants) code.now
        (contains flow.now.constants) word entries.old.items entries.new.items) }
    ensures passed { OnOk result (IsPassed code.now flow.now.stops entries.new.items word
        (λ b t. is_left left.new.items t ≡ true)) }
    ensures within { OnOk result (AreWithin left.new.items (length code.now.blocks)) }
    ensures room { OnOk result (total_room entries.new.items + length left.new.items
        ≤ total_room entries.old.items + length left.old.items) }
{
    for source in flow.sources[block].as_slice() {
        if ask(entries, flow, code, *source as usize, word) {
            left.push(*source)?;
        }
    }
    Ok(())
}

// The blocks whose entries have something in a word.
fn begun(alloc: Global, entries: &[BitSet], word: usize) -> Result<Vec<u32>, AllocError>
    requires few { length entries.now < 2 ^ 32 }
    requires words { (b : ℕ) → b < length entries.now → word < length (entry entries.now b) }
    ensures within { IfOk result (λ left. AreWithin left.items (length entries.now)) }
    ensures all { IfOk result (λ left. (b v : ℕ) → v / 64 ≡ word →
        contains (entry entries.now b) v ≡ true → is_left left.items b ≡ true) }
{
    let mut left = Vec::new(alloc);
    for block in 0..entries.len() {
        if entries[block].word(word) != 0 {
            left.push(block as u32)?;
        }
    }
    Ok(left)
}

// Lets the entries grow in a word until that solves the equations.
fn spread(
    alloc: Global,
    entries: &mut Vec<BitSet>,
    flow: &Flow,
    code: &VProc,
    word: usize,
) -> Result<(), AllocError>
    requires flow { IsFlow code.now flow.now }
    requires word { word < length flow.now.constants }
    requires shape { Shape (length flow.now.constants) code.now entries.old.items }
    ensures spread { OnOk result (HasSpread (length flow.now.constants) code.now
        (contains flow.now.constants) word entries.old.items entries.new.items) }
    ensures passed { OnOk result (IsPassed code.now flow.now.stops entries.new.items word
        (λ b t. ⊥)) }
{
    let mut left = begun(alloc, entries.as_slice(), word)?;
    while let Some(block) = left.pop() {
        ask_sources(entries, flow, code, block as usize, word, &mut left)?;
    }
    Ok(())
}

/// What is known of the blocks of a code, whose constants these are.
pub fn flow_of(alloc: Global, code: &VProc, constants: BitSet) -> Result<Flow, AllocError>
    requires range { InRange (length constants) code.now }
    requires few { length code.now.blocks < 2 ^ 32 }
    ensures flow { IfOk result (IsFlow code.now) }
    ensures constants { IfOk result (λ flow. flow.constants ≡ constants) }
{
    let stops = stops(alloc, code, &constants)?;
    let sources = sources(alloc, code)?;
    Ok(Flow {
        constants,
        stops: Seq::from_vec(stops),
        sources: Seq::from_vec(sources),
    })
}

/// What is live where each block begins.
///
/// It takes time by the words of the sets and by what is live at the entries.
pub fn solve(alloc: Global, code: &VProc, flow: &Flow) -> Result<Vec<BitSet>, AllocError>
    requires flow { IsFlow code.now flow.now }
    requires words { length flow.now.constants ≡ length code.now.vars / 64 + 1 }
    ensures shape { IfOk result (λ entries.
        Shape (length flow.now.constants) code.now entries.items) }
    ensures sound { IfOk result (λ entries.
        IsSound code.now (contains flow.now.constants) entries.items) }
    ensures closed { IfOk result (λ entries.
        IsClosed code.now (contains flow.now.constants) entries.items) }
{
    let mut entries = made(alloc, code, &flow.constants)?;
    for word in 0..flow.constants.words() {
        spread(alloc, &mut entries, flow, code, word)?;
    }
    Ok(entries)
}
