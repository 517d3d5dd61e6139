// The bytes of a procedure, without the distances of its calls.

ghost use Rattle.std.specs.Prelude.{◌≡◌, ◌+◌, ◌≤◌, List, [], ◌∷◌, ◌++◌, length, IfOk, OnOk};
ghost use Rattle.ia_code.specs.DecodeTable.{bytes_of, IsSound};
ghost use Rattle.ia_code.specs.Image.{max_code_bytes};
ghost use Rattle.ia_emit.specs.declared.item.Item.{Item};
ghost use Rattle.ia_emit.specs.Open.{IsOpen};
ghost use Rattle.ia_emit.specs.Code.{size, size_of, target_in};
ghost use Rattle.ia_emit.specs.Sound.{SoundWhereFits, EachSound};

use crate::item::Item;
use crate::layout::{Layout, distance};
use ia_code::{Ins, encode};
use pra_base::{OutOfMemory, ProcId};
use std::alloc::Global;

/// A call that is not filled in yet: where its distance stands, and whom it calls.
#[derive(Clone, Copy, Debug, PartialEq, Eq, Drop)]
pub struct CallSite {
    pub place: u32,
    pub callee: ProcId,
}

/// The bytes of a part of the code, and its calls.
#[derive(Drop)]
pub struct Piece {
    pub bytes: Vec<u8>,
    pub calls: Vec<CallSite>,
}

/// Adds the bytes of an instruction.
pub fn push(bytes: &mut Vec<u8>, instruction: Ins) -> Result<(), OutOfMemory>
    requires { IsSound instruction }
    ensures { OnOk result (bytes.new.items ≡ bytes.old.items ++ bytes_of instruction) }
{
    bytes.extend_from_slice(encode(&instruction).as_slice())?;
    Ok(())
}

/// Adds the bytes of an instruction. After an error a part of it may be there.
fn put(
    bytes: &mut Vec<u8>,
    calls: &mut Vec<CallSite>,
    layout: &Layout<'_>,
    item: Item,
) -> Result<(), OutOfMemory>
    requires sound { SoundWhereFits item }
    requires room { layout.now.at + length bytes.old.items + size_of item ≤ max_code_bytes }
    ensures { let target = target_in layout.now.proc.now layout.now.at in
        OnOk result ((done : List Item) →
        IsOpen target layout.now.at done bytes.old.items calls.old.items →
        IsOpen target layout.now.at (done ++ item ∷ []) bytes.new.items calls.new.items) }
{
    let end = layout.at + bytes.len() as u32;
    match item {
        Item::Plain(instruction) => push(bytes, instruction),
        Item::Jump(target) => push(bytes, Ins::Jmp(distance(end + 5, layout.target(target)))),
        Item::Branch(c, target) => {
            push(bytes, Ins::Jcc(c, distance(end + 6, layout.target(target))))
        }
        Item::Call(callee) => {
            calls.push(CallSite {
                place: end + 1,
                callee,
            })?;
            push(bytes, Ins::Call(0))
        }
    }
}

/// The bytes of a procedure's instructions.
///
/// # Errors
///
/// Where there is no memory for them.
pub fn put_all(alloc: Global, layout: &Layout<'_>, items: &[Item]) -> Result<Piece, OutOfMemory>
    requires sound { EachSound items.now }
    requires room { layout.now.at + size items.now ≤ max_code_bytes }
    ensures { let target = target_in layout.now.proc.now layout.now.at in
        IfOk result (λ p. IsOpen target layout.now.at items.now p.bytes.items p.calls.items) }
{
    let mut bytes = Vec::new(alloc);
    let mut calls = Vec::new(alloc);
    for item in items {
        put(&mut bytes, &mut calls, layout, *item)?;
    }
    Ok(Piece { bytes, calls })
}
