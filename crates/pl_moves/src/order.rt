// The moves that do all pairs at once.

ghost use Rattle.std.specs.Prelude.{◌≡◌, ◌≤◌, ◌++◌, Bool, IsTrue, IfOk, All, length, map, sum_by};
ghost use Rattle.std.specs.List.{filter_map};
ghost use Rattle.pl_moves.specs.Assignment.{can_move, Assigns};
ghost use Rattle.pl_moves.specs.Crossbar.{InRegisters, NamesMemory, Counted, most_moves};
ghost use Rattle.pl_moves.specs.Sequence.{reads, writes, redirected, sequence, store_of, bring_of};
ghost use Rattle.pl_moves.specs.Sequence.{moves_of};

use crate::bring::{Bring, Origin, bring_move, bring_of, comes_from, store_of, swap_move};
use crate::transfer::{Move, Pair};
use pra_base::{OutOfMemory, Place};
use std::alloc::{AllocError, Global};

fn is_read(brings: &[Bring], register: Place) -> bool
    ensures { result ≡ reads brings.now register }
{
    match brings.split_first() {
        None => false,
        Some((first, rest)) => comes_from(first.from, register) || is_read(rest, register),
    }
}

fn is_written(brings: &[Bring], from: Origin) -> bool
    ensures { result ≡ writes brings.now from }
{
    match brings.split_first() {
        None => false,
        Some((first, rest)) => comes_from(from, first.to) || is_written(rest, from),
    }
}

fn redirect(brings: &mut [Bring], register: Place, from: Origin)
    ensures { brings.new ≡ map (redirected register from) brings.old }
{
    if let Some((first, rest)) = brings.split_first_mut() {
        if comes_from(first.from, register) {
            first.from = from;
        }
        redirect(rest, register, from);
    }
}

// There are at most six, one for each register, so that it costs no more than a pass over the
// pairs.
#[tactic(auto, unfolding(crate::specs::Sequence::sequence))]
fn order_into(brings: &mut [Bring], out: &mut Vec<Move>) -> Result<(), AllocError>
    ensures { IfOk result
        (λ x. out.new.items ≡ out.old.items ++ sequence (length brings.old) brings.old) }
{
    if let Some((first, rest)) = brings.split_first_mut() {
        let Bring { to, from } = *first;
        if comes_from(from, to) {
            order_into(rest, out)?;
        } else if !is_read(rest, to) {
            out.push(bring_move(to, from))?;
            order_into(rest, out)?;
        } else if is_written(rest, from) {
            out.push(swap_move(to, from))?;
            redirect(rest, to, from);
            order_into(rest, out)?;
        } else {
            order_into(rest, out)?;
            out.push(bring_move(to, from))?;
        }
    }
    Ok(())
}

fn all_stores(alloc: Global, pairs: &[Pair]) -> Result<Vec<Move>, AllocError>
    ensures { IfOk result (λ v. v.items ≡ filter_map store_of pairs.now) }
{
    pairs.iter().filter_map(store_of).collect(alloc)
}

fn all_brings(alloc: Global, pairs: &[Pair]) -> Result<Vec<Bring>, AllocError>
    ensures { IfOk result (λ v. v.items ≡ filter_map bring_of pairs.now) }
{
    pairs.iter().filter_map(bring_of).collect(alloc)
}

fn in_order(alloc: Global, pairs: &[Pair]) -> Result<Vec<Move>, AllocError>
    ensures { IfOk result (λ v. v.items ≡ moves_of pairs.now) }
{
    let mut out = all_stores(alloc, pairs)?;
    let mut brings = all_brings(alloc, pairs)?;
    order_into(&mut brings, &mut out)?;
    Ok(out)
}

/// The moves that do all pairs at once.
///
/// A pair to a both place fills the register and the memory; from a both place the register gives
/// the value, and the memory keeps its own. Cycles are undone by swaps, and no register but those
/// of targets changes.
///
/// # Errors
///
/// Where there is no memory for the list.
pub fn moves(alloc: Global, pairs: &[Pair]) -> Result<Vec<Move>, OutOfMemory>
    requires { IsTrue (can_move pairs.now) }
    ensures at_once { IfOk result (λ v. Assigns v.items pairs.now) }
    ensures in_registers { IfOk result (λ v. All InRegisters v.items) }
    ensures names { IfOk result (λ v. All (NamesMemory pairs.now) v.items) }
    ensures counted { IfOk result (λ v. (near : Bool) → Counted near v.items pairs.now) }
    ensures few { IfOk result (λ v. length v.items ≤ sum_by most_moves pairs.now) }
{
    Ok(in_order(alloc, pairs)?)
}
