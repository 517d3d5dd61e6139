// One round of the search.

ghost use Rattle.std.specs.Prelude.{◌≡◌, true};
ghost use Rattle.net_cost.specs.Models.{Keeps};
ghost use Rattle.net_form.specs.Admitted.{IsAdmitted};
ghost use Rattle.net_form.specs.Flow.{flow, AreRoutes};
ghost use Rattle.net_form.specs.Formed.{IsFormed};
ghost use Rattle.net_form.specs.Rooms.{IsRoomOf};

use crate::found::write_routes;
use crate::search::Search;
use net_cost::{CostModel, Event};
use net_form::{Net, Prices, Routes, Taken};
use net_gate::admitted;
use pra_base::OutOfMemory;
use std::alloc::Global;
use std::marker::Model;

// Visits of a round for each layer of each strand: each layer that a least path goes over is one.
const VISITS: u64 = 10;

// The same of the first round, where most is to be gained.
const FIRST_VISITS: u64 = 40;

// A round that may make many visits for each layer makes more: up to so many times as many, and as
// many as if there were one layer for so many visits that it may make.
const MOST_TIMES: u64 = 8;

const VISITS_A_LAYER: u64 = 240;

// Visits for each layer of each strand that routes from nothing take, about.
const VISITS_FROM_NOTHING: u64 = 25;

// Units of a weight of 1.
const WHOLE: u128 = 1024;

// Whether a round of so many visits at most begins with routes from nothing: where so many layers
// of strands allow it.
fn begins_anew(size: u64, most: u64) -> bool {
    VISITS_FROM_NOTHING.saturating_mul(size) <= most
}

// How many visits a round would make by so many layers of strands, where it may make so many.
fn wanted_visits(round: u32, size: u64, most: u64) -> u64 {
    let each = if round == 1 { FIRST_VISITS } else { VISITS };
    let layers = (most / VISITS_A_LAYER).min(MOST_TIMES.saturating_mul(size));
    each.saturating_mul(layers.max(size))
}

// Kicks from the best routes or from new ones, until the visits of a round are used up, or nothing
// is to be gained. It says whether some routes cost less than the best.
fn search_from<F: Fn(Event, u32) -> u32>(
    search: &mut Search,
    net: &Net,
    model: &CostModel<F>,
    best: &Routes,
    prices: &Prices,
    round: u32,
    bound: u128,
) -> bool
    requires kept { Keeps F.Fn model.now }
{
    let size = search.layers;
    let wanted = wanted_visits(round, size, search.most_visits);
    let most = search.allowed_visits(wanted);
    if most == 0 {
        return false;
    }
    search.begin(net, model, best, prices, round);
    let before = search.paths.total;
    if begins_anew(size, search.most_visits) {
        search.negotiate(net);
    }
    search.visits = 0;
    let least = bound.saturating_mul(WHOLE);
    for _ in 0..most {
        if search.visits >= most || search.paths.total as u128 <= least {
            break;
        }
        search.kick_once(net);
    }
    let is_found = search.paths.total < before;
    search.note_round(is_found, wanted);
    is_found
}

// The same, and what was found becomes routes, if the gate admits them.
fn kick_in<F: Fn(Event, u32) -> u32>(
    search: &mut Search,
    taken: &mut Taken,
    found: &mut Routes,
    net: &Net,
    model: &CostModel<F>,
    best: &Routes,
    prices: &Prices,
    round: u32,
    bound: u128,
) -> bool
    requires kept { Keeps F.Fn model.now }
    requires net { IsFormed net.now }
    requires room { IsRoomOf net.now taken.old }
    requires found { AreRoutes net.now found.old }
    ensures room { IsRoomOf net.now taken.new }
    ensures found { AreRoutes net.now found.new }
    ensures admitted { result ≡ true → IsAdmitted net.now (flow net.now found.new) }
{
    if !search_from(search, net, model, best, prices, round, bound) {
        return false;
    }
    write_routes(found, net, &search.spans, &search.paths.kept);
    admitted(taken, net, found).is_ok()
}

/// Room for a search on one network. Contracts see nothing of it.
#[derive(Drop)]
pub struct SearchRoom {
    search: Search,
}

impl Model for SearchRoom {
    ghost use Rattle.std.specs.Prelude.{ℕ};

    ghost Value = { ℕ };

    ghost view = { λ _. 0 };
}

impl SearchRoom {
    /// Room for the strands of a network, in which a round makes so many visits at most: each layer
    /// that a least path goes over is one.
    ///
    /// # Errors
    ///
    /// Where there is no memory for it.
    pub fn reserve(alloc: Global, net: &Net, most_visits: u64) -> Result<SearchRoom, OutOfMemory> {
        Ok(SearchRoom {
            search: Search::reserve(alloc, net, most_visits)?,
        })
    }
}

/// Looks for routes that cost less than the best ones, whose bound is this, led by these prices, and
/// says whether it found some. The number of the round decides where it looks, and in a network that
/// is large for its visits, how many rounds before it found nothing, how long: the same calls find
/// the same. It takes no memory.
pub fn kick<F: Fn(Event, u32) -> u32>(
    room: &mut SearchRoom,
    taken: &mut Taken,
    found: &mut Routes,
    net: &Net,
    model: &CostModel<F>,
    best: &Routes,
    prices: &Prices,
    round: u32,
    bound: u128,
) -> bool
    requires kept { Keeps F.Fn model.now }
    requires net { IsFormed net.now }
    requires room { IsRoomOf net.now taken.old }
    requires found { AreRoutes net.now found.old }
    ensures room { IsRoomOf net.now taken.new }
    ensures found { AreRoutes net.now found.new }
    ensures admitted { result ≡ true → IsAdmitted net.now (flow net.now found.new) }
{
    let search = &mut room.search;
    kick_in(search, taken, found, net, model, best, prices, round, bound)
}
