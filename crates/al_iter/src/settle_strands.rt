// The strands of a variable, all together: which they are, what they pay, and what they use,
// released and taken again.

ghost use Rattle.std.specs.Prelude.{◌≡◌, ◌<◌, ◌≤ℤ◌, ◌+◌, ◌*◌, ◌^◌, ◌≤◌, length, pos, slice_range};
ghost use Rattle.net_cost.specs.Models.{Keeps, weights_of};
ghost use Rattle.net_form.specs.Admitted.{IsAdmitted};
ghost use Rattle.net_form.specs.Flow.{flow, AreRoutes};
ghost use Rattle.net_form.specs.Formed.{IsFormed};
ghost use Rattle.net_form.specs.InUse.{StandsFor};
ghost use Rattle.net_form.specs.Rooms.{IsRoomOf};
ghost use Rattle.net_laws.specs.Built.{IsBuilt};
ghost use Rattle.al_laws.specs.Parts.{rest};
ghost use Rattle.al_iter.specs.SettleState.{among, AreStrands, AreStrandsOf};
ghost use Rattle.al_iter.specs.SettleSums.{sum_of};

use crate::settle_marks::{release_strand, take_strand};
use crate::settle_price::price_now;
use crate::settle_rows::path_at;
use net_cost::{CostModel, Event};
use net_form::{Net, Routes, Taken};

// The numbers from one place of a list to another.
fn part(numbers: &[u32], start: usize, end: usize) -> &[u32]
    requires order { start ≤ end }
    requires end { end ≤ length numbers.now }
    ensures { result.now ≡ slice_range numbers.now start end }
{
    &numbers[start..end]
}

/// The strands of a variable, by rising number.
pub(crate) fn strands_of(net: &Net, var: usize) -> &[u32]
    requires net { IsFormed net.now }
    requires var { var + 1 < length net.now.index.vars }
    ensures { AreStrandsOf net.now var result.now }
{
    let vars = net.index.vars.as_slice();
    let strands = net.index.of_vars.as_slice();
    let start = vars[var] as usize;
    let end = vars[var + 1] as usize;
    part(strands, start, end)
}

/// What the paths of strands pay together, in units of 1/1024 of a weight.
pub(crate) fn sum_now<F: Fn(Event, u32) -> u32>(
    net: &Net,
    model: &CostModel<F>,
    routes: &Routes,
    strands: &[u32],
) -> i128
    requires kept { Keeps F.Fn model.now }
    requires net { IsBuilt net.now }
    requires routes { AreRoutes net.now routes.now }
    requires strands { AreStrands net.now strands.now }
    ensures value { result ≡ sum_of net.now (weights_of model.now) routes.now strands.now }
    ensures least { pos 0 ≤ℤ result }
    ensures most { result ≤ℤ pos (2 ^ 124) }
{
    let mut total = 0i128;
    for at in 0..strands.len() {
        let strand = strands[at] as usize;
        total += price_now(net, model, strand, path_at(net, routes, strand)) as i128;
    }
    total
}

/// Releases what the paths of strands use.
pub(crate) fn release_paths(taken: &mut Taken, net: &Net, routes: &Routes, strands: &[u32])
    requires net { IsFormed net.now }
    requires room { IsRoomOf net.now taken.old }
    requires routes { AreRoutes net.now routes.now }
    requires strands { AreStrands net.now strands.now }
    requires marked { StandsFor net.now taken.old (flow net.now routes.now) }
    ensures room { IsRoomOf net.now taken.new }
    ensures marked { StandsFor net.now taken.new (rest net.now (among strands.now) routes.now) }
{
    for at in 0..strands.len() {
        let strand = strands[at] as usize;
        release_strand(taken, net, routes, strand);
    }
}

/// Takes what the paths of strands use, past what all others do.
pub(crate) fn take_paths(taken: &mut Taken, net: &Net, routes: &Routes, strands: &[u32])
    requires net { IsFormed net.now }
    requires room { IsRoomOf net.now taken.old }
    requires routes { AreRoutes net.now routes.now }
    requires admitted { IsAdmitted net.now (flow net.now routes.now) }
    requires strands { AreStrands net.now strands.now }
    requires marked { StandsFor net.now taken.old (rest net.now (among strands.now) routes.now) }
    ensures room { IsRoomOf net.now taken.new }
    ensures marked { StandsFor net.now taken.new (flow net.now routes.now) }
{
    for at in 0..strands.len() {
        let strand = strands[at] as usize;
        take_strand(taken, net, routes, strand);
    }
}
