// Where the variables of code stand.

ghost use Rattle.std.specs.Prelude.{◌≡◌, ℕ, ◌<◌, ◌≤◌, ◌++◌, [], ◌∷◌, length, slice_set, Contains};
ghost use Rattle.std.specs.Prelude.{IfOk, OnOk, true};
ghost use Rattle.pra_base.specs.Valid.{IsSized, most_instructions};
ghost use Rattle.vc_live.specs.Equations.{named_in};
ghost use Rattle.vc_tidy.specs.Joined.{HasPlaces, places_of};
ghost use Rattle.vc_tidy.specs.Places.{FitAll, FitsIn, Keep, Notes, NotesBlock};

use pra_base::{VInstr, VProc};
use pra_list::Seq;
use std::alloc::{AllocError, Global};
use vc_code::{Role, operands};

/// An instruction by its number in a block.
#[derive(Clone, Copy, Debug, PartialEq, Eq, Drop)]
pub struct Place {
    pub block: u32,
    pub index: u32,
}

fn add(lists: &mut Vec<Seq<Place>>, at: usize, place: Place) -> Result<(), AllocError>
    requires { at < length lists.old.items }
    ensures ok { OnOk result (lists.new.items
        ≡ slice_set lists.old.items at (places_of lists.old.items at ++ place ∷ [])) }
{
    lists[at].push(place)?;
    Ok(())
}

// Notes the place for each variable in one of the roles.
fn note(lists: &mut Vec<Seq<Place>>, roles: &[Role], place: Place) -> Result<(), AllocError>
    requires { (v : ℕ) → named_in roles.now v ≡ true → v < length lists.old.items }
    ensures count { OnOk result (length lists.new.items ≡ length lists.old.items) }
    ensures kept { OnOk result (Keep lists.old.items lists.new.items) }
    ensures noted { OnOk result ((v : ℕ) → named_in roles.now v ≡ true →
        Contains (places_of lists.new.items v) place) }
{
    for role in roles {
        add(lists, role.var.0 as usize, place)?;
    }
    Ok(())
}

fn note_instr(lists: &mut Vec<Seq<Place>>, instr: &VInstr, place: Place) -> Result<(), AllocError>
    requires { FitsIn lists.old.items instr.now }
    ensures count { OnOk result (length lists.new.items ≡ length lists.old.items) }
    ensures kept { OnOk result (Keep lists.old.items lists.new.items) }
    ensures noted { OnOk result (Notes lists.new.items instr.now place) }
{
    let row = operands(instr);
    note(lists, row.reads.as_slice(), place)?;
    note(lists, row.writes.as_slice(), place)?;
    Ok(())
}

// Notes the places of a block.
fn note_block(lists: &mut Vec<Seq<Place>>, code: &[VInstr], block: u32) -> Result<(), AllocError>
    requires fits { FitAll lists.old.items code.now }
    requires short { length code.now ≤ most_instructions }
    ensures count { OnOk result (length lists.new.items ≡ length lists.old.items) }
    ensures kept { OnOk result (Keep lists.old.items lists.new.items) }
    ensures noted { OnOk result (NotesBlock lists.new.items code.now block (length code.now)) }
{
    for k in 0..code.len() {
        let place = Place {
            block,
            index: k as u32,
        };
        note_instr(lists, &code[k], place)?;
    }
    Ok(())
}

/// For each variable the places of the instructions that have it.
pub fn all_places(alloc: Global, code: &VProc) -> Result<Vec<Seq<Place>>, AllocError>
    requires { IsSized code.now }
    ensures { IfOk result (λ places. HasPlaces code.now places.items) }
{
    let mut lists = Vec::with_capacity(alloc, code.vars.len())?;
    for _ in 0..code.vars.len() {
        lists.push(Seq::new(alloc))?;
    }
    for b in 0..code.blocks.len() {
        note_block(&mut lists, code.blocks[b].code.as_slice(), b as u32)?;
    }
    Ok(lists)
}
