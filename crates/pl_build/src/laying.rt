// The code of a block: its instructions at the places of their operands, and before each of them
// and before the end the moves of that layer.

ghost use Rattle.std.specs.Prelude.{◌≡◌, ◌+◌, ◌*◌, ◌≤◌, ◌++◌, ℕ, IsTrue, length, IfOk, OnOk};
ghost use Rattle.arrayvec.specs.ArrayVec.{array_vec_len};
ghost use Rattle.pl_moves.specs.Assignment.{can_move};
ghost use Rattle.pl_made.specs.Made.{LaysMoves};
ghost use Rattle.pl_place.specs.Behind.{Routed};
ghost use Rattle.pl_build.specs.Laid.{brought, or_eax, places_by, operands_by, role_vars};
ghost use Rattle.pl_build.specs.Laid.{AddsMoves, AddsInstr, AreLayers};
ghost use Rattle.pl_build.specs.Layers.{layer};

use arrayvec::ArrayVec;
use pl_moves::{Pair, moves};
use pl_place::LInstr;
use pra_base::{OutOfMemory, Place, VInstr, VarId};
use pra_list::Seq;
use std::alloc::Global;
use vc_code::{Role, operands};

// Where the pairs bring a variable. Each pair of the layer may be looked at; an instruction has at
// most five operands, so that all of them cost no more than five passes over the edges.
fn place_of(pairs: &[Pair], var: VarId) -> Place
    ensures { result ≡ or_eax (brought pairs.now var.0) }
{
    for pair in pairs {
        if pair.var.0 == var.0 {
            return pair.to;
        }
    }
    Place::Eax
}

// The places of some operands, behind those that are there.
fn add_places(pairs: &[Pair], roles: &[Role], places: &mut ArrayVec<Place, 5>)
    requires { array_vec_len places.old + length roles.now ≤ 5 }
    ensures { places.new.items ≡ places.old.items ++ places_by pairs.now (role_vars roles.now) }
{
    if let Some((role, roles)) = roles.split_first() {
        places.push(place_of(pairs, role.var));
        add_places(pairs, roles, places);
    }
}

// The places of the operands that an instruction reads, then of those that it writes.
fn places_of(i: &VInstr, before: &[Pair], behind: &[Pair]) -> ArrayVec<Place, 5>
    ensures { result.items ≡ operands_by before.now behind.now i.now }
{
    let row = operands(i);
    let mut places = ArrayVec::new();
    add_places(before, row.reads.as_slice(), &mut places);
    add_places(behind, row.writes.as_slice(), &mut places);
    places
}

// The moves of a layer.
fn add_moves(alloc: Global, pairs: &[Pair], out: &mut Vec<LInstr>) -> Result<(), OutOfMemory>
    requires { IsTrue (can_move pairs.now) }
    ensures { OnOk result (AddsMoves pairs.now out.old.items out.new.items) }
{
    for step in moves(alloc, pairs)? {
        out.push(LInstr::Move(step))?;
    }
    Ok(())
}

// An instruction, with the moves of the layer before it.
fn add_instr(
    alloc: Global,
    i: &VInstr,
    before: &[Pair],
    behind: &[Pair],
    out: &mut Vec<LInstr>,
) -> Result<(), OutOfMemory>
    requires { IsTrue (can_move before.now) }
    ensures { OnOk result (AddsInstr before.now behind.now i.now out.old.items out.new.items) }
{
    add_moves(alloc, before, out)?;
    out.push(LInstr::Op(*i, places_of(i, before, behind)))?;
    Ok(())
}

/// The code of a block whose layers begin with layer `first`.
pub(crate) fn lay_block(
    alloc: Global,
    code: &[VInstr],
    layers: &[Seq<Pair>],
    first: usize,
) -> Result<Seq<LInstr>, OutOfMemory>
    requires within { first + 2 * length code.now + 2 ≤ length layers.now }
    requires movable { (k : ℕ) → k ≤ length code.now →
        IsTrue (can_move (layer layers.now (first + 2 * k + 1))) }
    ensures { IfOk result (λ out. (r : Routed) (b : ℕ) →
        AreLayers r b code.now first layers.now → LaysMoves r b 0 code.now out) }
{
    let mut out = Vec::with_capacity(alloc, code.len())?;
    for (k, i) in code.iter().enumerate() {
        let before = layers[first + 2 * k + 1].as_slice();
        let behind = layers[first + 2 * k + 2].as_slice();
        add_instr(alloc, i, before, behind, &mut out)?;
    }
    let last = layers[first + 2 * code.len() + 1].as_slice();
    add_moves(alloc, last, &mut out)?;
    Ok(Seq::from_vec(out))
}
