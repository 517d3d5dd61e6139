// Tie groups: ends of strands that ties join, numbered by their least ends.

ghost use Rattle.std.specs.Prelude.{◌≡◌, ℕ, ◌+◌, ◌*◌, ◌<◌, ◌≤◌, ◌^◌, ◌&&◌, ◌||◌, nat_eq};
ghost use Rattle.std.specs.Prelude.{if◌then◌else◌, true, false, length, map, slice_index_or};
ghost use Rattle.std.specs.Prelude.{count_by, All, IfOk};
ghost use Rattle.std.specs.List.{range_with_len, enumerate_from};
ghost use Rattle.net_form.specs.Groups.{is_tied};
ghost use Rattle.net_build.specs.Labels.{parent, GoDown, IsBelow};
ghost use Rattle.net_build.specs.Grouped.{joins, leading, numbers_of, AreGroupNumbers, AreGroups};
ghost use Rattle.net_build.specs.Grouped.{group_in, grouped_in};

use crate::labels::{entry_end, exit_end, least_ends, parent};
use net_form::{Strand, Tie};
use pra_base::OutOfMemory;
use pra_list::Seq;
use std::alloc::{AllocError, Global};

/// The groups of the ends of strands.
#[derive(Debug, Drop)]
pub(crate) struct Groups {
    /// Whether a tie joins the end.
    tied: Seq<bool>,
    /// The least end that is joined with it.
    least: Seq<u32>,
    /// How many groups have a lower least end, and at the end how many there are.
    numbers: Seq<u32>,
}

// Marks both ends of a tie.
fn mark(tied: &mut Seq<bool>, tie: Tie)
    requires below { IsBelow (length tied.old) tie }
    requires few { length tied.old < 2 ^ 32 }
    ensures count { length tied.new ≡ length tied.old }
    ensures marked { (e : ℕ) → slice_index_or tied.new e false ≡
        (slice_index_or tied.old e false || joins tie e) }
{
    tied.set(exit_end(tie.from) as usize, true);
    tied.set(entry_end(tie.to) as usize, true);
}

// Whether a tie joins the end, for so many ends.
fn tied_ends(alloc: Global, ties: &Seq<Tie>, ends: u32) -> Result<Seq<bool>, AllocError>
    requires { All (IsBelow ends) ties.now }
    ensures count { IfOk result (λ tied. length tied ≡ ends) }
    ensures tied { IfOk result (λ tied. (e : ℕ) →
        slice_index_or tied e false ≡ is_tied ties.now e) }
{
    let mut tied = Seq::from_vec(vec![in alloc; false; ends as usize]?);
    for tie in ties.as_slice() {
        mark(&mut tied, *tie);
    }
    Ok(tied)
}

// 1 where the end leads its group, else 0.
fn leading(tied: &Seq<bool>, least: &Seq<u32>, end: u32) -> u32
    requires tied { end < length tied.now }
    requires least { end < length least.now }
    ensures { result ≡ (if leading tied.now least.now end then 1 else 0) }
{
    if tied[end as usize] && parent(least, end) == end {
        1
    } else {
        0
    }
}

// Numbers groups in the order of their least ends.
fn numbers(alloc: Global, tied: &Seq<bool>, least: &Seq<u32>) -> Result<Seq<u32>, AllocError>
    requires few { length least.now < 2 ^ 32 }
    requires count { length tied.now ≡ length least.now }
    ensures { IfOk result (λ made. made ≡ numbers_of tied.now least.now) }
{
    let mut made = Seq::from_vec(Vec::with_capacity(alloc, least.len() + 1)?);
    let mut found = 0u32;
    for end in 0..least.len() as u32 {
        made.push(found)?;
        found += leading(tied, least, end);
    }
    made.push(found)?;
    Ok(made)
}

/// The groups of the ends of so many strands.
///
/// # Errors
///
/// Where there is no memory for them, or there are more ends than 32 bits count.
pub(crate) fn groups_of(
    alloc: Global,
    ties: &Seq<Tie>,
    strands: usize,
) -> Result<Groups, OutOfMemory>
    requires few { strands < 2 ^ 32 }
    requires ties { All (IsBelow (2 * strands)) ties.now }
    ensures groups { IfOk result (AreGroups ties.now (2 * strands)) }
    ensures numbered { IfOk result AreGroupNumbers }
    ensures few { IfOk result (λ groups. length groups.least < 2 ^ 32) }
{
    let ends = u32::try_from(2 * strands).map_err(|_| OutOfMemory)?;
    let tied = tied_ends(alloc, ties, ends)?;
    let least = least_ends(alloc, ties, ends)?;
    let numbers = numbers(alloc, &tied, &least)?;
    Ok(Groups {
        tied,
        least,
        numbers,
    })
}

impl Groups {
    /// How many groups there are.
    pub(crate) fn count(&self) -> u32
        requires { AreGroupNumbers self.now }
        ensures { result ≡ count_by (leading self.now.tied self.now.least)
            (range_with_len 0 (length self.now.least)) }
    {
        self.numbers[self.least.len()]
    }

    // The group of an end, if a tie joins it.
    fn of(&self, end: u32) -> Option<u32>
        requires groups { AreGroupNumbers self.now }
        requires end { end < length self.now.least }
        ensures { result ≡ group_in self.now end }
    {
        if self.tied[end as usize] {
            Some(self.numbers[parent(&self.least, end) as usize])
        } else {
            None
        }
    }
}

/// Gives the ends of strands their groups, in place.
pub(crate) fn grouped(strands: Seq<Strand>, groups: &Groups) -> Seq<Strand>
    requires groups { AreGroupNumbers groups.now }
    requires ends { length groups.now.least ≡ 2 * length strands }
    requires few { length groups.now.least < 2 ^ 32 }
    ensures { result ≡ map (grouped_in groups.now) (enumerate_from 0 strands) }
{
    let mut strands = strands.into_vec();
    let mut number = 0u32;
    for strand in strands.iter_mut() {
        strand.entry_group = groups.of(entry_end(number));
        strand.exit_group = groups.of(exit_end(number));
        number += 1;
    }
    Seq::from_vec(strands)
}
