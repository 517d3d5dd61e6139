// How many sweeps the ascent of a round makes.

ghost use Rattle.std.specs.Prelude.{◌≡◌};
ghost use Rattle.al_round.specs.Noted.{noted};

use net_form::{Prices, Routes};

// So many sweeps raise prices in round 1, and so many in each round after it.
const FIRST_SWEEPS: u32 = 20;

const LATER_SWEEPS: u32 = 8;

// A procedure is small where it has at most so many prices of registers (100 layers). There round 1
// makes at most so many sweeps: they end where nothing more is gained.
const SMALL_CAPS: usize = 600;

const SMALL_SWEEPS: u32 = 100;

/// The sweeps of a procedure's rounds: how many round 1 makes where nothing limits them, how many a
/// round makes at most, how many were made, and how many rounds in a row gained nothing by them.
#[derive(Debug, Drop)]
pub struct Sweeps {
    first: u32,
    most: u32,
    made: u32,
    fruitless: u32,
}

// The layers of all strands, each of which a sweep visits once: routes have a place for each.
fn layers_of(routes: &Routes) -> u64 {
    let mut layers = 0u64;
    for strand in 0..routes.places.len() {
        layers = layers.saturating_add(routes.places.at(strand).len() as u64);
    }
    layers
}

// As many sweeps as so many visits of layers are enough for.
fn most_sweeps(routes: &Routes, most_visits: u64) -> u32 {
    let layers = layers_of(routes).max(1);
    u32::try_from(most_visits / layers).unwrap_or(u32::MAX)
}

impl Sweeps {
    /// None was made. These are routes of the network, and a round is to visit so many layers at
    /// most.
    pub(crate) fn start(routes: &Routes, prices: &Prices, most_visits: u64) -> Sweeps {
        let is_small = prices.caps.len() <= SMALL_CAPS;
        Sweeps {
            first: if is_small { SMALL_SWEEPS } else { FIRST_SWEEPS },
            most: most_sweeps(routes, most_visits),
            made: 0,
            fruitless: 0,
        }
    }

    /// How many were made.
    pub(crate) fn made(&self) -> u32 {
        self.made
    }

    /// How many are to be made in a round of this number. Where visits limit those of round 1, each
    /// round that gained nothing halves them for those after it, until one gains something; round 1
    /// makes one at least.
    pub(crate) fn in_round(&self, round: u32) -> u32 {
        let is_first = round <= 1;
        let usual = if is_first { self.first } else { LATER_SWEEPS };
        if self.most >= self.first {
            return usual;
        }
        let most = self.most.min(usual);
        let left = most.checked_shr(self.fruitless).unwrap_or(0);
        if is_first { left.max(1) } else { left }
    }

    /// Notes that so many more were made, and whether something was gained by them.
    pub(crate) fn note(&mut self, sweeps: u32, is_gained: bool)
        ensures { self.new ≡ noted self.old sweeps is_gained }
    {
        self.made = self.made.saturating_add(sweeps);
        self.fruitless = if is_gained {
            0
        } else {
            self.fruitless.saturating_add(1)
        };
    }
}
