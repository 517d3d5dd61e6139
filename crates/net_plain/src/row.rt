// Places by their numbers, and the least of numbers that may be there.

ghost use Rattle.std.specs.Prelude.{◌≡◌, ◌<◌, ◌+◌, ℕ, ℤ, Option};
ghost use Rattle.pra_base.specs.Places.{place_count, place_at};
ghost use Rattle.net_dual.specs.Leasts.{IsLeastOf};

use pra_base::Place;

/// For each place, by its number, what is to be paid; None where no path goes.
pub(crate) type Row = [Option<i128>; 14];

/// How many places there are.
pub(crate) const PLACES: usize = 14;

/// The place of a number.
pub(crate) fn place_at(at: usize) -> Place
    requires { at < place_count }
    ensures { result ≡ place_at at }
{
    match Place::of_number(at as u8) {
        Some(place) => place,
        None => Place::Eax,
    }
}

/// The lesser of two numbers that may be there.
pub(crate) fn lesser(one: Option<i128>, other: Option<i128>) -> Option<i128>
    ensures { (f : ℕ → Option ℤ) (n : ℕ) → IsLeastOf f n one → f n ≡ other →
        IsLeastOf f (n + 1) result }
{
    let Some(cost) = one else {
        return other;
    };
    let Some(more) = other else {
        return one;
    };
    if more < cost { other } else { one }
}
