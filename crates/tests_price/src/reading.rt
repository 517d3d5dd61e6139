// What stands in a row of a table, and places as rows have them. A table is one text, of rows that
// begin with `#` and their name, and a row is lines that begin with a word; what is said at prices
// begins with a line `@`.

use net_form::{Ends, Routes};
use pra_base::{OutOfMemory, Place};
use pra_packed::Packed;
use std::alloc::Global;

/// What stands behind the word on the first line that begins with it; nothing where no line does.
pub(crate) fn field<'a>(text: &'a str, word: &str) -> &'a str {
    for line in text.lines() {
        if let Some(rest) = line.strip_prefix(word) {
            return rest;
        }
    }
    ""
}

/// The least cost of all routes, where a row has it.
pub(crate) fn least_of(row: &str) -> Option<u128> {
    let text = field(row, "least ");
    text.strip_suffix(" reached").unwrap_or(text).parse().ok()
}

/// Numbers, and the number that each has, as `27:5000 64:-900`. What is no number is too great for
/// any list and for any price.
pub(crate) fn numbers(alloc: Global, text: &str) -> Result<Vec<(usize, i64)>, OutOfMemory> {
    let mut found = Vec::new(alloc);
    for word in text.split(' ') {
        if !word.is_empty() {
            let (at, number) = word.split_once(':').unwrap_or((word, "1"));
            let at = at.parse::<usize>().unwrap_or(usize::MAX);
            found.push((at, number.parse::<i64>().unwrap_or(i64::MAX)))?;
        }
    }
    Ok(found)
}

// The place of a digit, of fourteen.
fn place_of(digit: u8) -> Option<Place> {
    match digit {
        b'0'..=b'9' => Place::of_number(digit - b'0'),
        b'a'..=b'd' => Place::of_number(digit - b'a' + 10),
        _ => None,
    }
}

/// Paths, each a word with a digit for each of its places, as `0888 44`. What is no digit leaves a
/// path too short.
pub(crate) fn paths(alloc: Global, text: &str) -> Result<Routes, OutOfMemory> {
    let mut places = Packed::new(alloc);
    for word in text.split(' ') {
        if !word.is_empty() {
            let mut path = Vec::new(alloc);
            for digit in word.as_bytes() {
                if let Some(place) = place_of(*digit) {
                    path.push(place)?;
                }
            }
            places.push(&path)?;
        }
    }
    Ok(Routes { places })
}

// The place at a digit of a text; none where there is no digit.
fn place_at(text: &str, at: usize) -> Option<Place> {
    place_of(*text.as_bytes().get(at)?)
}

/// The ends of a strand, each a digit, or free where there is a dot, as `.0`.
pub(crate) fn ends(text: &str) -> Ends {
    Ends {
        first: place_at(text, 0),
        last: place_at(text, 1),
    }
}

/// The numbers of places.
pub(crate) fn numbers_of(alloc: Global, places: &[Place]) -> Result<Vec<u8>, OutOfMemory> {
    let mut numbers = Vec::new(alloc);
    for place in places {
        numbers.push(place.number())?;
    }
    Ok(numbers)
}
