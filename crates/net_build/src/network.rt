// The whole network of a code.

ghost use Rattle.std.specs.Prelude.{IfOk};
ghost use Rattle.pra_base.specs.Valid.{IsSized};
ghost use Rattle.net_form.specs.Network.{IsNet};
ghost use Rattle.vc_live.specs.Rows.{IsLiveness};

use crate::groups::{grouped, groups_of};
use crate::index::index_of;
use crate::lists::{Lists, lists_of};
use net_form::Net;
use pra_base::{OutOfMemory, VProc};
use std::alloc::Global;
use vc_live::Liveness;

/// The network of a code, whose liveness this is.
///
/// # Errors
///
/// Where there is no memory for it, or one of its lists has more elements than 32 bits count.
pub fn build(alloc: Global, code: &VProc, live: &Liveness) -> Result<Net, OutOfMemory>
    requires sized { IsSized code.now }
    requires live { IsLiveness code.now live.now }
    ensures { IfOk result (λ net. IsNet net code.now) }
{
    let lists = lists_of(alloc, code, live)?;
    let groups = groups_of(alloc, &lists.ties, lists.strands.len())?;
    let lists = Lists {
        strands: grouped(lists.strands, &groups),
        ..lists
    };
    let count = groups.count();
    let index = index_of(alloc, &lists, count)?;
    let Lists {
        near,
        blocks,
        strands,
        extras,
        pairs,
        ties,
    } = lists;
    Ok(Net {
        near,
        blocks,
        strands,
        extras,
        pairs,
        ties,
        groups: count,
        index,
    })
}
