// The least end that ties join with each end: union and find, where the lesser end stands above.

ghost use Rattle.std.specs.Prelude.{◌≡◌, ℕ, ◌+◌, ◌*◌, ◌<◌, ◌≤◌, ◌^◌, length, All, IfOk, min, max};
ghost use Rattle.std.specs.List.{range_with_len};
ghost use Rattle.net_form.specs.Groups.{IsLeastEnd, entry_end, exit_end};
ghost use Rattle.net_build.specs.Labels.{parent, GoDown, AreLabels, merged, AreUnited, IsBelow};

use net_form::Tie;
use pra_list::Seq;
use std::alloc::{AllocError, Global};

/// The number of a strand's end at its block's entry.
pub(crate) fn entry_end(strand: u32) -> u32
    requires { 2 * strand < 2 ^ 32 }
    ensures { result ≡ entry_end strand }
{
    2 * strand
}

/// The number of a strand's end at its block's exit.
pub(crate) fn exit_end(strand: u32) -> u32
    requires { 2 * strand + 1 < 2 ^ 32 }
    ensures { result ≡ exit_end strand }
{
    2 * strand + 1
}

// What an end stands under.
pub(crate) fn parent(parents: &Seq<u32>, end: u32) -> u32
    requires { end < length parents.now }
    ensures { result ≡ parent parents.now end }
{
    parents[end as usize]
}

// The least end that this one stands under. On the way each end is put under its grandparent.
fn root(parents: &mut Seq<u32>, end: u32) -> u32
    requires within { end < length parents.old }
    requires down { GoDown parents.old }
    ensures count { length parents.new ≡ length parents.old }
    ensures down { GoDown parents.new }
    ensures below { result ≤ end }
    ensures labels { (label : ℕ → ℕ) → AreLabels parents.old label →
        AreLabels parents.new label × (result ≡ label end) }
{
    let mut at = end;
    let mut above = parent(parents, at);
    while above != at {
        let higher = parent(parents, above);
        parents.set(at as usize, higher);
        at = higher;
        above = parent(parents, at);
    }
    at
}

// Puts what two ends stand under together, the greater under the lesser.
fn join(parents: &mut Seq<u32>, one: u32, other: u32)
    requires one { one < length parents.old }
    requires other { other < length parents.old }
    requires down { GoDown parents.old }
    ensures count { length parents.new ≡ length parents.old }
    ensures down { GoDown parents.new }
    ensures labels { (label : ℕ → ℕ) → AreLabels parents.old label → AreLabels parents.new
        (merged (min (label one) (label other)) (max (label one) (label other)) label) }
{
    let a = root(parents, one);
    let b = root(parents, other);
    parents.set(a.max(b) as usize, a.min(b));
}

// Joins the ends of each tie.
fn unite(parents: &mut Seq<u32>, ties: &Seq<Tie>)
    requires few { length parents.old < 2 ^ 32 }
    requires down { GoDown parents.old }
    requires ties { All (IsBelow (length parents.old)) ties.now }
    requires alone { AreUnited ties.now 0 parents.old }
    ensures count { length parents.new ≡ length parents.old }
    ensures down { GoDown parents.new }
    ensures united { AreUnited ties.now (length ties.now) parents.new }
{
    for tie in ties.as_slice() {
        join(parents, exit_end(tie.from), entry_end(tie.to));
    }
}

// Puts each end directly under the least one.
fn flatten(parents: &mut Seq<u32>)
    requires few { length parents.old < 2 ^ 32 }
    requires down { GoDown parents.old }
    ensures count { length parents.new ≡ length parents.old }
    ensures labels { (label : ℕ → ℕ) → AreLabels parents.old label →
        (e : ℕ) → parent parents.new e ≡ label e }
{
    for end in 0..parents.len() as u32 {
        let above = parent(parents, end);
        let least = parent(parents, above);
        parents.set(end as usize, least);
    }
}

// So many ends, each under itself.
fn alone(alloc: Global, ends: u32) -> Result<Seq<u32>, AllocError>
    ensures { IfOk result (λ parents. parents ≡ range_with_len 0 ends) }
{
    let mut parents = Seq::from_vec(Vec::with_capacity(alloc, ends as usize)?);
    for end in 0..ends {
        parents.push(end)?;
    }
    Ok(parents)
}

// For each of so many ends the least one that ties join with it.
pub(crate) fn least_ends(alloc: Global, ties: &Seq<Tie>, ends: u32) -> Result<Seq<u32>, AllocError>
    requires { All (IsBelow ends) ties.now }
    ensures count { IfOk result (λ least. length least ≡ ends) }
    ensures least { IfOk result (λ least. (e : ℕ) → IsLeastEnd ties.now e (parent least e)) }
{
    let mut parents = alone(alloc, ends)?;
    unite(&mut parents, ties);
    flatten(&mut parents);
    Ok(parents)
}
