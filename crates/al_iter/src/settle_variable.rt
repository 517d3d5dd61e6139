// The strands of one variable go cheaper ways.

ghost use Rattle.std.specs.Prelude.{◌≡◌, ◌<◌, ◌≤ℤ◌, ◌<ℤ◌, ◌+◌, ◌^◌, ℕ, length, pos, true, false};
ghost use Rattle.std.specs.Prelude.{All};
ghost use Rattle.std.specs.Prelude.{None, IsTrue, IsFalse};
ghost use Rattle.pra_base.specs.declared.ids.Place.{Place as AnyPlace};
ghost use Rattle.pra_base.specs.Places.{number, allows, place_count};
ghost use Rattle.net_cost.specs.Models.{Keeps, weights_of};
ghost use Rattle.net_form.specs.Admitted.{strand_at};
ghost use Rattle.net_form.specs.Cost.{cost_of};
ghost use Rattle.net_form.specs.Flow.{flow, AreRoutes};
ghost use Rattle.net_laws.specs.Built.{IsBuilt};
ghost use Rattle.net_dual.specs.Paths.{path_in};
ghost use Rattle.net_path.specs.Desk.{IsReservedFor};
ghost use Rattle.al_laws.specs.Settled.{NoneCheaperAt};
ghost use Rattle.al_iter.specs.SettleState.{among, AreStrands, AreOfOne, AreMarkedRoutes, IsAside};
ghost use Rattle.al_iter.specs.SettleSums.{IsShut, IsUntied, PayAtLeast, sum_of};

use crate::settle_open::open_places;
use crate::settle_place::draft_strands;
use crate::settle_rows::{path_at, write_path};
use crate::settle_strands::{release_paths, strands_of, sum_now, take_paths};
use net_cost::{CostModel, Event};
use net_form::{Net, Routes, Spare};
use net_path::Work;
use pra_base::places::allows;
use pra_base::{Mask, Place};

// Writes the paths of a draft over those of these strands.
fn write_paths(net: &Net, routes: &mut Routes, draft: &Routes, strands: &[u32])
    requires routes { AreRoutes net.now routes.old }
    requires draft { AreRoutes net.now draft.now }
    requires strands { AreStrands net.now strands.now }
    ensures routes { AreRoutes net.now routes.new }
    ensures mine { (s : ℕ) → among strands.now s ≡ true →
        path_in routes.new s ≡ path_in draft.now s }
    ensures others { (s : ℕ) → among strands.now s ≡ false →
        path_in routes.new s ≡ path_in routes.old s }
{
    for at in 0..strands.len() {
        let strand = strands[at] as usize;
        write_path(net, routes, strand, path_at(net, draft, strand));
    }
}

// Lets the strands of a variable, which pay so much, go cheaper ways that are at one place wherever
// it is tied, if that is one of these places and there are some, and answers what they pay then.
fn try_place<F: Fn(Event, u32) -> u32>(
    work: &mut Work,
    spare: &mut Spare,
    net: &Net,
    model: &CostModel<F>,
    routes: &mut Routes,
    strands: &[u32],
    places: Mask,
    place: Place,
    price: i128,
) -> i128
    requires kept { Keeps F.Fn model.now }
    requires net { IsBuilt net.now }
    requires work { IsReservedFor net.now work.old }
    requires strands { AreOfOne net.now strands.now }
    requires aside { IsAside net.now strands.now spare.old routes.old }
    requires places { IsFalse (allows places (number place)) →
        IsShut net.now spare.old.taken strands.now place }
    requires price { price ≡ sum_of net.now (weights_of model.now) routes.old strands.now }
    requires most { price ≤ℤ pos (2 ^ 124) }
    ensures aside { IsAside net.now strands.now spare.new routes.new }
    ensures taken { spare.new.taken ≡ spare.old.taken }
    ensures price { result ≡ sum_of net.now (weights_of model.now) routes.new strands.now }
    ensures least { PayAtLeast net.now (weights_of model.now) spare.old.taken strands.now place
        result }
    ensures less { result ≤ℤ price }
    ensures same { result ≡ price → routes.new ≡ routes.old }
    ensures others { (s : ℕ) → among strands.now s ≡ false →
        path_in routes.new s ≡ path_in routes.old s }
    ensures family { work.new.family ≡ work.old.family }
    ensures reserved { IsReservedFor net.now work.new }
{
    if price == 0 {
        return price;
    }
    if !allows(places, place) {
        return price;
    }
    let draft = draft_strands(work, spare, net, model, strands, place, price);
    let Some(less) = draft else {
        return price;
    };
    write_paths(net, routes, &spare.routes, strands);
    less
}

// Whether one of these strands is tied.
fn are_tied(net: &Net, strands: &[u32]) -> bool
    requires { AreStrands net.now strands.now }
    ensures { IsFalse result → All (λ s. IsUntied (strand_at net.now s)) strands.now }
{
    for at in 0..strands.len() {
        let strand = &net.strands[strands[at] as usize];
        if strand.entry_group.is_some() || strand.exit_group.is_some() {
            return true;
        }
    }
    false
}

// The place of a number.
fn place_of(place: u8) -> Place
    requires { place < place_count }
    ensures { number result ≡ place }
{
    Place::of_number(place).unwrap_or(Place::Mem)
}

// The same for every place where the variable may be tied.
fn try_places<F: Fn(Event, u32) -> u32>(
    work: &mut Work,
    spare: &mut Spare,
    net: &Net,
    model: &CostModel<F>,
    routes: &mut Routes,
    strands: &[u32],
    price: i128,
) -> i128
    requires kept { Keeps F.Fn model.now }
    requires net { IsBuilt net.now }
    requires work { IsReservedFor net.now work.old }
    requires strands { AreOfOne net.now strands.now }
    requires aside { IsAside net.now strands.now spare.old routes.old }
    requires price { price ≡ sum_of net.now (weights_of model.now) routes.old strands.now }
    requires most { price ≤ℤ pos (2 ^ 124) }
    ensures aside { IsAside net.now strands.now spare.new routes.new }
    ensures taken { spare.new.taken ≡ spare.old.taken }
    ensures price { result ≡ sum_of net.now (weights_of model.now) routes.new strands.now }
    ensures least { (p : AnyPlace) → PayAtLeast net.now (weights_of model.now) spare.old.taken
        strands.now p result }
    ensures less { result ≤ℤ price }
    ensures same { result ≡ price → routes.new ≡ routes.old }
    ensures others { (s : ℕ) → among strands.now s ≡ false →
        path_in routes.new s ≡ path_in routes.old s }
    ensures family { work.new.family ≡ work.old.family }
    ensures reserved { IsReservedFor net.now work.new }
{
    let places = open_places(net, &spare.taken, strands);
    if !are_tied(net, strands) {
        let place = Place::Mem;
        return try_place(
            work, spare, net, model, routes, strands, places, place, price,
        );
    }
    let mut least = price;
    for number in 0..14u8 {
        let place = place_of(number);
        least = try_place(
            work, spare, net, model, routes, strands, places, place, least,
        );
    }
    least
}

/// Lets the strands of a variable go ways past all others that are cheaper in sum and at one place
/// wherever it is tied, if there are some, and says whether there were.
pub(crate) fn change_variable<F: Fn(Event, u32) -> u32>(
    work: &mut Work,
    spare: &mut Spare,
    net: &Net,
    model: &CostModel<F>,
    routes: &mut Routes,
    var: usize,
) -> bool
    requires kept { Keeps F.Fn model.now }
    requires net { IsBuilt net.now }
    requires work { IsReservedFor net.now work.old }
    requires state { AreMarkedRoutes net.now spare.old routes.old }
    requires var { var + 1 < length net.now.index.vars }
    ensures state { AreMarkedRoutes net.now spare.new routes.new }
    ensures lower { IsTrue result → cost_of net.now (weights_of model.now)
        (flow net.now routes.new) < cost_of net.now (weights_of model.now)
        (flow net.now routes.old) }
    ensures same { IsFalse result → routes.new ≡ routes.old }
    ensures settled { IsFalse result → (p : AnyPlace) →
        NoneCheaperAt net.now (weights_of model.now) routes.old var p }
    ensures family { work.new.family ≡ work.old.family }
    ensures reserved { IsReservedFor net.now work.new }
{
    let strands = strands_of(net, var);
    let price = sum_now(net, model, routes, strands);
    if price == 0 {
        return false;
    }
    release_paths(&mut spare.taken, net, routes, strands);
    let least = try_places(work, spare, net, model, routes, strands, price);
    take_paths(&mut spare.taken, net, routes, strands);
    if least < price {
        return true;
    }
    false
}
