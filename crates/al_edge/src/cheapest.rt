// The place that costs least.

ghost use Rattle.std.specs.Prelude.{◌≡◌, ◌<◌, IsSome};
ghost use Rattle.pra_base.specs.declared.ids.Place.TheVariants.{Mem};
ghost use Rattle.pra_base.specs.Places.{number, place_count};
ghost use Rattle.al_edge.specs.Cheapest.{slot, IsCheapest, IsLesser};

use pra_base::Place;

/// What each place costs, by its number, and None where it is not open.
pub(crate) type PlaceWeights = [Option<i128>; 14];

/// A place, and what it costs.
#[derive(Clone, Copy, Debug)]
struct Weighed {
    place: Place,
    weight: i128,
}

/// The place of a number.
pub(crate) fn place_of(place: u8) -> Place
    requires { place < place_count }
    ensures { number result ≡ place }
{
    Place::of_number(place).unwrap_or(Place::Mem)
}

// The one that costs less, and the first of two that cost the same.
fn lesser(best: Option<Weighed>, next: Weighed) -> Weighed
    ensures { IsLesser best next result }
{
    match best {
        Some(best) => {
            if next.weight < best.weight {
                next
            } else {
                best
            }
        }
        None => next,
    }
}

/// The open place that costs least, and of several the first.
pub(crate) fn cheapest(weights: &PlaceWeights) -> Place
    requires memory { IsSome (slot weights.now Mem) }
    ensures { IsCheapest weights.now result }
{
    let mut best = None;
    for number in 0..14u8 {
        let Some(weight) = weights[number as usize] else {
            continue;
        };
        let place = place_of(number);
        best = Some(lesser(best, Weighed { place, weight }));
    }
    match best {
        Some(best) => best.place,
        None => Place::Mem,
    }
}
