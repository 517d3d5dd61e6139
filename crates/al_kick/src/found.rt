// What was found, as routes.

ghost use Rattle.std.specs.Prelude.{◌≡◌, ◌<◌, ℕ, [], length, slice_index_or};
ghost use Rattle.net_form.specs.Flow.{AreRoutes};

use crate::lists::at;
use crate::spans::{NO_SPAN, Span};
use net_form::{Net, Routes};
use pra_base::Place;
use pra_packed::Packed;

// Writes the places of a strand over those of its path, as many as it has.
fn write_path(paths: &mut Packed<Place>, strand: usize, span: &Span, places: &[u8])
    requires { strand < length paths.old }
    ensures many { length paths.new ≡ length paths.old }
    ensures long { (s : ℕ) → length (slice_index_or paths.new s []) ≡
        length (slice_index_or paths.old s []) }
{
    for layer in 0..paths.at(strand).len() {
        let step = span.start().wrapping_add(span.step_of(layer));
        let number = at(places, step, 6);
        paths.set(
            strand,
            layer,
            Place::of_number(number).unwrap_or(Place::Mem),
        );
    }
}

// Writes the places of all strands over those of paths.
fn write_paths(paths: &mut Packed<Place>, spans: &[Span], places: &[u8])
    ensures many { length paths.new ≡ length paths.old }
    ensures long { (s : ℕ) → length (slice_index_or paths.new s []) ≡
        length (slice_index_or paths.old s []) }
{
    for strand in 0..paths.len() {
        let span = at(spans, strand, NO_SPAN);
        write_path(paths, strand, &span, places);
    }
}

/// Writes places over routes of a network, which then are routes of it still.
pub(crate) fn write_routes(found: &mut Routes, _net: &Net, spans: &[Span], places: &[u8])
    requires found { AreRoutes _net.now found.old }
    ensures { AreRoutes _net.now found.new }
{
    write_paths(&mut found.places, spans, places);
}
