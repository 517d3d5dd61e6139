// Where the instructions and blocks of a procedure stand.

ghost use Rattle.std.specs.Prelude.{◌≡◌, ◌+◌, ◌≤◌, length, take, IfOk};
ghost use Rattle.ia_code.specs.Image.{max_code_bytes};
ghost use Rattle.ia_emit.specs.Code.{size, size_of as size_of_item, distance as distance_of};
ghost use Rattle.ia_emit.specs.Code.{stub_start as start_of_stub, block_start, target_in};
ghost use Rattle.ia_emit.specs.Emission.{emit_proc};
ghost use Rattle.ia_emit.specs.Layout.{AreFirst, ArePlaces};
ghost use Rattle.ia_emit.specs.Sound.{SoundWhereFits, EachSound};

use crate::frame::wrapped;
use crate::item::{Item, Target};
use ia_code::encode;
use pl_place::LProc;
use pra_base::{BlockId, OutOfMemory, TrapKind};
use std::alloc::Global;

/// How many bytes an instruction has.
pub fn size_of(item: Item) -> u32
    requires { SoundWhereFits item }
    ensures { result ≡ size_of_item item }
{
    match item {
        Item::Plain(instruction) => encode(&instruction).len() as u32,
        Item::Jump(_) | Item::Call(_) => 5,
        Item::Branch(_, _) => 6,
    }
}

/// The distance from behind an instruction to a place.
pub fn distance(behind: u32, to: u32) -> i32
    ensures { result ≡ distance_of behind to }
{
    wrapped(i64::from(to) - i64::from(behind))
}

/// Where each instruction stands, if the first one stands at this place, and where they end.
///
/// # Errors
///
/// Where there is no memory for the places.
pub fn places(alloc: Global, items: &[Item], at: u32) -> Result<(Vec<u32>, u32), OutOfMemory>
    requires sound { EachSound items.now }
    requires room { at + size items.now ≤ max_code_bytes }
    ensures { IfOk result (λ r. ArePlaces items.now at r.0.items r.1) }
{
    let mut places = Vec::with_capacity(alloc, items.len())?;
    let mut end = at;
    for item in items {
        places.push(end)?;
        end += size_of(*item);
    }
    Ok((places, end))
}

fn stub_start(trap: TrapKind) -> u32
    ensures { result ≡ start_of_stub trap }
{
    match trap {
        TrapKind::Index => 7,
        TrapKind::Divide => 14,
        TrapKind::Input | TrapKind::Stack => 21,
    }
}

/// The places of a procedure that begins at one.
#[derive(Clone, Copy)]
pub struct Layout<'a> {
    pub proc: &'a LProc,
    pub at: u32,
    pub count: usize,
    pub first: &'a [usize],
    pub places: &'a [u32],
    pub end: u32,
    ghost counted: { count ≡ length (emit_proc proc.now) },
    ghost blocks: { AreFirst proc.now first.now },
    ghost placed: { ArePlaces (emit_proc proc.now) at places.now end },
}

impl<'a> Layout<'a> {
    /// Where an instruction stands.
    fn place(&self, k: usize) -> u32
        ensures { result ≡ self.now.at + size (take k (emit_proc self.now.proc.now)) }
    {
        self.places.get(k).copied().unwrap_or(self.end)
    }

    /// Where a block begins.
    fn start(&self, block: BlockId) -> u32
        ensures { result ≡ block_start self.now.proc.now self.now.at block.0 }
    {
        let first = self.first.get(block.0 as usize).copied();
        self.place(first.unwrap_or(self.count))
    }

    /// Where a jump goes.
    pub fn target(&self, target: Target) -> u32
        ensures { result ≡ target_in self.now.proc.now self.now.at target }
    {
        match target {
            Target::Block(block) => self.start(block),
            Target::Stub(trap) => stub_start(trap),
        }
    }
}
