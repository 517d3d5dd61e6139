// Places from text, and routes of them.

ghost use Rattle.std.specs.Prelude.{◌≤◌, drop, length, IsTrue};
ghost use Rattle.net_form.specs.Flow.{HasPlaces};

use net_form::Strand;
use pra_base::{OutOfMemory, Place};
use pra_list::Seq;
use pra_packed::Packed;
use std::alloc::Global;

const PLACES: &[(&str, Place)] = &[
    ("eax", Place::Eax),
    ("ecx", Place::Ecx),
    ("edx", Place::Edx),
    ("ebx", Place::Ebx),
    ("esi", Place::Esi),
    ("edi", Place::Edi),
    ("mem", Place::Mem),
    ("const", Place::Const),
    ("eaxm", Place::EaxM),
    ("ecxm", Place::EcxM),
    ("edxm", Place::EdxM),
    ("ebxm", Place::EbxM),
    ("esim", Place::EsiM),
    ("edim", Place::EdiM),
];

/// The place of a name, as `mem` or `ebxm`, or None where there is none.
pub fn place(word: &str) -> Option<Place> {
    for (name, place) in PLACES {
        if *name == word {
            return Some(*place);
        }
    }
    None
}

/// The places of a line, as `mem mem ebxm eax`, or None where a word names no place.
///
/// # Errors
///
/// Where there is no memory for them.
pub fn path(alloc: Global, line: &str) -> Result<Option<Seq<Place>>, OutOfMemory> {
    let mut path = Seq::new(alloc);
    for word in line.split(' ') {
        match place(word) {
            Some(place) => path.push(place)?,
            None => return Ok(None),
        }
    }
    Ok(Some(path))
}

// Whether each strand has a place for each of its layers, the first of them in list `at`.
fn has_places_from(strands: &[Strand], places: &Packed<Place>, at: usize) -> bool
    requires { at ≤ length places.now }
    ensures { IsTrue result → HasPlaces strands.now (drop at places.now) }
{
    let Some((strand, strands)) = strands.split_first() else {
        return at == places.len();
    };
    if at == places.len() {
        return false;
    }
    let behind = u128::from(strand.first) + places.at(at).len() as u128;
    if behind == 0 || behind - 1 != u128::from(strand.last) {
        return false;
    }
    has_places_from(strands, places, at + 1)
}

/// Whether each strand has a place for each of its layers.
pub fn has_places(strands: &[Strand], places: &Packed<Place>) -> bool
    ensures { IsTrue result → HasPlaces strands.now places.now }
{
    has_places_from(strands, places, 0)
}
