// The ends of strands that ties join, each with its group.

ghost use Rattle.std.specs.Prelude.{◌≡◌, ◌++◌, ◌<◌, ◌^◌, length, map, IfOk, OnOk, All};
ghost use Rattle.net_form.specs.Index.{member, members};
ghost use Rattle.net_build.specs.Owners.{end_at};

use net_form::{BlockEnd, Strand, TieEnd};
use pra_list::Seq;
use std::alloc::{AllocError, Global};

/// Ends, and the groups that they belong to.
#[derive(Debug, Drop)]
pub(crate) struct Members {
    pub owners: Seq<u32>,
    pub ends: Seq<TieEnd>,
}

// Adds an end, if it is in a group.
fn add_member(
    group: Option<u32>,
    strand: u32,
    end: BlockEnd,
    made: &mut Members,
) -> Result<(), AllocError>
    ensures owners { OnOk result (made.new.owners ≡
        made.old.owners ++ map (λ m. m.group) (member group strand end)) }
    ensures ends { OnOk result (made.new.ends ≡
        made.old.ends ++ map (λ m. m.at) (member group strand end)) }
{
    if let Some(group) = group {
        made.owners.push(group)?;
        made.ends.push(TieEnd { strand, end })?;
    }
    Ok(())
}

/// The ends of strands that are in groups, of each strand its entry, then its exit.
pub(crate) fn members_of(alloc: Global, strands: &Seq<Strand>) -> Result<Members, AllocError>
    requires { length strands.now < 2 ^ 32 }
    ensures owners { IfOk result (λ made. made.owners ≡ map (λ m. m.group) (members strands.now)) }
    ensures ends { IfOk result (λ made. made.ends ≡ map (λ m. m.at) (members strands.now)) }
{
    let mut made = Members {
        owners: Seq::new(alloc),
        ends: Seq::new(alloc),
    };
    for number in 0..strands.len() as u32 {
        let strand = &strands[number as usize];
        add_member(strand.entry_group, number, BlockEnd::Entry, &mut made)?;
        add_member(strand.exit_group, number, BlockEnd::Exit, &mut made)?;
    }
    Ok(made)
}

/// Ends, in some order.
pub(crate) fn ends_in_order(
    alloc: Global,
    ends: &Seq<TieEnd>,
    order: &Seq<u32>,
) -> Result<Seq<TieEnd>, AllocError>
    requires { All (λ i. i < length ends.now) order.now }
    ensures { IfOk result (λ made. made ≡ map (end_at ends.now) order.now) }
{
    let mut made = Seq::from_vec(Vec::with_capacity(alloc, order.len())?);
    for item in order.as_slice() {
        made.push(ends[*item as usize])?;
    }
    Ok(made)
}
