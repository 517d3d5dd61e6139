// Lists whose length does not change: reading past the end gives a number that the caller names,
// and writing there does nothing.

use std::alloc::{AllocError, Global};

/// The element at a place, or another past the end.
pub(crate) fn at<T: Copy>(list: &[T], place: usize, other: T) -> T {
    match list.get(place) {
        Some(item) => *item,
        None => other,
    }
}

/// Writes an element.
pub(crate) fn put<T: Copy>(list: &mut [T], place: usize, item: T) {
    if let Some(old) = list.get_mut(place) {
        *old = item;
    }
}

/// A list of numbers in room that was reserved.
#[derive(Drop)]
pub(crate) struct Numbers {
    items: Vec<usize>,
    count: usize,
}

impl Numbers {
    pub fn reserve(alloc: Global, most: usize) -> Result<Numbers, AllocError> {
        Ok(Numbers {
            items: vec![in alloc; 0; most]?,
            count: 0,
        })
    }

    pub fn clear(&mut self) {
        self.count = 0;
    }

    pub fn count(&self) -> usize {
        self.count
    }

    pub fn push(&mut self, number: usize) {
        put(&mut self.items, self.count, number);
        self.count = self.count.saturating_add(1);
    }

    pub fn at(&self, place: usize) -> usize {
        at(&self.items, place, usize::MAX)
    }

    /// Changes two of its numbers with each other.
    pub fn exchange(&mut self, one: usize, other: usize) {
        let first = self.at(one);
        let second = self.at(other);
        put(&mut self.items, one, second);
        put(&mut self.items, other, first);
    }
}

/// A set of numbers that is emptied at no cost.
#[derive(Drop)]
pub(crate) struct Marks {
    stamps: Vec<u64>,
    now: u64,
}

impl Marks {
    pub fn reserve(alloc: Global, most: usize) -> Result<Marks, AllocError> {
        Ok(Marks {
            stamps: vec![in alloc; 0; most]?,
            now: 1,
        })
    }

    pub fn clear(&mut self) {
        self.now = self.now.wrapping_add(1);
    }

    pub fn has(&self, number: usize) -> bool {
        at(&self.stamps, number, 0) == self.now
    }

    /// Adds a number, and says whether it is new.
    pub fn add(&mut self, number: usize) -> bool {
        if self.has(number) {
            return false;
        }
        put(&mut self.stamps, number, self.now);
        true
    }
}
