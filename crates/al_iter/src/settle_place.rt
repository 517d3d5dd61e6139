// What the strands of a variable pay at one place wherever it is tied.

ghost use Rattle.std.specs.Prelude.{◌≡◌, ◌≢◌, ◌<◌, ◌≤ℤ◌, ◌<ℤ◌, ◌^◌, ℕ, List, length, pos, All};
ghost use Rattle.std.specs.Prelude.{None, IsTrue, IsSome, IfSome};
ghost use Rattle.pra_base.specs.declared.ids.Place.{Place as AnyPlace};
ghost use Rattle.net_cost.specs.Models.{Keeps, weights_of};
ghost use Rattle.net_laws.specs.Built.{IsBuilt};
ghost use Rattle.net_dual.specs.Paths.{path_in};
ghost use Rattle.net_path.specs.Desk.{IsReservedFor};
ghost use Rattle.al_laws.specs.Settled.{tied_ends};
ghost use Rattle.al_iter.specs.Room.{IsSpareOf};
ghost use Rattle.al_iter.specs.SettleState.{AreStrands};
ghost use Rattle.al_iter.specs.SettleSums.{MayGoTied, PayAtLeast, IsDraft};
ghost use Rattle.al_iter.specs.SettleSums.{free_price, sum_of};

use crate::settle_rows::write_path;
use crate::settle_stay::{has_extras, stays_free};
use net_cost::{CostModel, Event};
use net_form::{Ends, Net, Spare};
use net_path::{Work, least};
use pra_base::Place;

// The place at each end of a strand that is tied.
fn tied_ends(net: &Net, strand: usize, place: Place) -> Ends
    requires strand { strand < length net.now.strands }
    ensures { result ≡ tied_ends net.now place strand }
{
    Ends {
        first: net.strands[strand].entry_group.is_some().then_some(place),
        last: net.strands[strand].exit_group.is_some().then_some(place),
    }
}

// Drafts a least path of a strand that is at a place where it is tied, and answers what it pays.
fn draft_strand<F: Fn(Event, u32) -> u32>(
    work: &mut Work,
    spare: &mut Spare,
    net: &Net,
    model: &CostModel<F>,
    strand: usize,
    place: Place,
) -> Option<i64>
    requires kept { Keeps F.Fn model.now }
    requires net { IsBuilt net.now }
    requires work { IsReservedFor net.now work.old }
    requires spare { IsSpareOf net.now spare.old }
    requires strand { strand < length net.now.strands }
    ensures spare { IsSpareOf net.now spare.new }
    ensures taken { spare.new.taken ≡ spare.old.taken }
    ensures none { (result ≡ None) → (ps : List AnyPlace) →
        MayGoTied net.now spare.old.taken place strand ps → ⊥ }
    ensures draft { IsSome result → IsDraft net.now (weights_of model.now) spare.old.taken place
        spare.new.routes strand }
    ensures cost { IfSome result (λ z. z ≡ free_price net.now (weights_of model.now) strand
        (path_in spare.new.routes strand)) }
    ensures others { (s : ℕ) → s ≢ strand →
        path_in spare.new.routes s ≡ path_in spare.old.routes s }
    ensures family { work.new.family ≡ work.old.family }
    ensures reserved { IsReservedFor net.now work.new }
{
    let ends = tied_ends(net, strand, place);
    if stays_free(work, net, &spare.routes, strand, ends) {
        return Some(0);
    }
    match least(
        work,
        net,
        model,
        &spare.zero,
        strand as u32,
        ends,
        &spare.taken,
    ) {
        Err(_) => None,
        Ok(cost) => {
            write_path(net, &mut spare.routes, strand, work.path());
            Some(cost)
        }
    }
}

// Whether those of these strands that have extras pay a price or more already, at a place wherever
// they are tied, or one of them cannot go so at all.
fn users_pay<F: Fn(Event, u32) -> u32>(
    work: &mut Work,
    spare: &mut Spare,
    net: &Net,
    model: &CostModel<F>,
    strands: &[u32],
    place: Place,
    price: i128,
) -> bool
    requires kept { Keeps F.Fn model.now }
    requires net { IsBuilt net.now }
    requires work { IsReservedFor net.now work.old }
    requires spare { IsSpareOf net.now spare.old }
    requires strands { AreStrands net.now strands.now }
    requires least { pos 0 <ℤ price }
    requires most { price ≤ℤ pos (2 ^ 124) }
    ensures spare { IsSpareOf net.now spare.new }
    ensures taken { spare.new.taken ≡ spare.old.taken }
    ensures pay { IsTrue result →
        PayAtLeast net.now (weights_of model.now) spare.old.taken strands.now place price }
    ensures family { work.new.family ≡ work.old.family }
    ensures reserved { IsReservedFor net.now work.new }
{
    let mut total = 0i128;
    for at in 0..strands.len() {
        let strand = strands[at] as usize;
        if !has_extras(net, strand) {
            continue;
        }
        let Some(cost) = draft_strand(work, spare, net, model, strand, place) else {
            return true;
        };
        total += cost as i128;
        if total >= price {
            return true;
        }
    }
    false
}

/// Drafts least paths of the strands of a variable, at a place wherever it is tied, and answers
/// what they pay together. There is none where they cannot pay less than a price.
pub(crate) fn draft_strands<F: Fn(Event, u32) -> u32>(
    work: &mut Work,
    spare: &mut Spare,
    net: &Net,
    model: &CostModel<F>,
    strands: &[u32],
    place: Place,
    price: i128,
) -> Option<i128>
    requires kept { Keeps F.Fn model.now }
    requires net { IsBuilt net.now }
    requires work { IsReservedFor net.now work.old }
    requires spare { IsSpareOf net.now spare.old }
    requires strands { AreStrands net.now strands.now }
    requires least { pos 0 <ℤ price }
    requires most { price ≤ℤ pos (2 ^ 124) }
    ensures spare { IsSpareOf net.now spare.new }
    ensures taken { spare.new.taken ≡ spare.old.taken }
    ensures none { (result ≡ None) →
        PayAtLeast net.now (weights_of model.now) spare.old.taken strands.now place price }
    ensures drafts { IsSome result → All (IsDraft net.now (weights_of model.now) spare.old.taken
        place spare.new.routes) strands.now }
    ensures sum { IfSome result (λ z.
        z ≡ sum_of net.now (weights_of model.now) spare.new.routes strands.now) }
    ensures less { IfSome result (λ z. z <ℤ price) }
    ensures family { work.new.family ≡ work.old.family }
    ensures reserved { IsReservedFor net.now work.new }
{
    // most strands only pass by and pay nothing, so those that do pay are asked first
    if users_pay(work, spare, net, model, strands, place, price) {
        return None;
    }
    let mut total = 0i128;
    for at in 0..strands.len() {
        let cost = draft_strand(work, spare, net, model, strands[at] as usize, place)?;
        total += cost as i128;
        if total >= price {
            return None;
        }
    }
    Some(total)
}
