// Places by their numbers.

ghost use Rattle.std.specs.Prelude.{◌≡◌, ◌<◌};
ghost use Rattle.pra_base.specs.Places.{place_count, place_at};

use pra_base::Place;

/// How many places there are.
pub(crate) const PLACES: usize = 14;

/// The place of a number.
pub(crate) fn place_at(at: usize) -> Place
    requires { at < place_count }
    ensures { result ≡ place_at at }
{
    match Place::of_number(at as u8) {
        Some(place) => place,
        None => Place::Eax,
    }
}
