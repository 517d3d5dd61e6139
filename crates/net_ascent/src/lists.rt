// Lists whose length does not change: reading past the end gives what the caller names, and writing
// there does nothing.

/// The element at a place, or another past the end.
pub(crate) fn at<T: Copy>(list: &[T], place: usize, other: T) -> T {
    match list.get(place) {
        Some(item) => *item,
        None => other,
    }
}

/// Writes an element.
pub(crate) fn put<T: Copy>(list: &mut [T], place: usize, item: T) {
    if let Some(old) = list.get_mut(place) {
        *old = item;
    }
}

/// From where to where the elements lie that belong to a number.
pub(crate) fn range(beginnings: &[u32], number: usize) -> (usize, usize) {
    let from = at(beginnings, number, 0) as usize;
    let to = at(beginnings, number.wrapping_add(1), 0) as usize;
    (from, to)
}

/// A number of 32 bits; one that does not fit leads nowhere.
pub(crate) fn short(number: usize) -> u32 {
    u32::try_from(number).unwrap_or(u32::MAX)
}
