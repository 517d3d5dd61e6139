// Lists of lists that lie one behind the other.

ghost use Rattle.std.specs.Prelude.{◌≡◌, ℕ, [], ◌∷◌, ◌++◌, ◌+◌, ◌<◌, ◌≤◌, List, length};
ghost use Rattle.std.specs.Prelude.{replicate, slice_set, slice_index_or, IfOk, OnOk, OnErr};
ghost use Rattle.pra_packed.specs.Parts.{parts, AreEnds};

use pra_list::Seq;
use std::alloc::{AllocError, Global};
use std::marker::Model;

/// A list of lists, whose elements lie one behind the other in one list. Contracts see the lists.
#[derive(Debug, Drop)]
pub struct Packed<T> {
    ends: Vec<u32>,
    items: Vec<T>,
}

impl<T> Model for Packed<T> {
    ghost use Rattle.std.specs.Prelude.{List, length};
    ghost use Rattle.std.specs.Coded.{coded_list};
    ghost use Rattle.pra_packed.specs.Parts.{parts, AreEnds};

    ghost Value = { List (List T) };

    ghost coded = { coded_list (coded_list T.code) };

    ghost view = { λ packed. parts 0 packed.ends.items packed.items.items };

    ghost invariant = { λ packed. AreEnds 0 packed.ends.items (length packed.items.items) };
}

// Where a list begins, of those with these ends and so many elements.
#[inline]
fn begin_of(ends: &[u32], _total: usize, at: usize) -> usize
    requires ends { AreEnds 0 ends.now _total }
    requires at { at < length ends.now }
    ensures is { result ≡ slice_index_or (0 ∷ ends.now) at 0 }
    ensures rises { result ≤ slice_index_or ends.now at 0 }
    ensures within { slice_index_or ends.now at 0 ≤ _total }
{
    if at == 0 { 0 } else { ends[at - 1] as usize }
}

// Where a list of so many elements ends, that is put behind others.
#[inline]
fn end_behind(items: usize, count: usize) -> Result<u32, AllocError>
    ensures { IfOk result (λ end. end ≡ items + count) }
{
    let end = items.checked_add(count).ok_or(AllocError)?;
    u32::try_from(end).map_err(|_| AllocError)
}

// Puts so many elements that are the same behind others.
fn add_filled<T: Copy>(
    items: &mut Vec<T>,
    item: T,
    _count: usize,
    end: usize,
) -> Result<(), AllocError>
    requires { end ≡ length items.old.items + _count }
    ensures ok { OnOk result (items.new.items ≡ items.old.items ++ replicate _count item) }
    ensures err { OnErr result (items.new.items ≡ items.old.items) }
{
    items.resize(end, item)
}

// One of the lists with these ends.
#[inline]
fn part<'a, T>(ends: &[u32], items: &'a [T], at: usize) -> &'a [T]
    requires ends { AreEnds 0 ends.now (length items.now) }
    requires at { at < length ends.now }
    ensures { result.now ≡ slice_index_or (parts 0 ends.now items.now) at [] }
{
    let begin = begin_of(ends, items.len(), at);
    let end = ends[at] as usize;
    &items[begin..end]
}

// Writes elements over those of one of the lists with these ends.
#[inline]
fn write_part<T: Copy>(ends: &[u32], items: &mut [T], at: usize, list: &[T])
    requires ends { AreEnds 0 ends.now (length items.old) }
    requires at { at < length ends.now }
    requires long { length list.now ≡
        length (slice_index_or (parts 0 ends.now items.old) at []) }
    ensures parts { parts 0 ends.now items.new ≡
        slice_set (parts 0 ends.now items.old) at list.now }
    ensures long { length items.new ≡ length items.old }
{
    let begin = begin_of(ends, items.len(), at);
    let end = ends[at] as usize;
    items[begin..end].copy_from_slice(list);
}

fn put<T: Copy>(list: &mut [T], number: usize, item: T)
    requires { number < length list.old }
    ensures { list.new ≡ slice_set list.old number item }
{
    list[number] = item;
}

// Puts an element in the place of another one of one of the lists with these ends.
#[inline]
fn set_in_part<T: Copy>(ends: &[u32], items: &mut [T], at: usize, number: usize, item: T)
    requires ends { AreEnds 0 ends.now (length items.old) }
    requires at { at < length ends.now }
    requires number { number < length (slice_index_or (parts 0 ends.now items.old) at []) }
    ensures parts { parts 0 ends.now items.new ≡ slice_set (parts 0 ends.now items.old) at
        (slice_set (slice_index_or (parts 0 ends.now items.old) at []) number item) }
    ensures long { length items.new ≡ length items.old }
{
    let begin = begin_of(ends, items.len(), at);
    let end = ends[at] as usize;
    put(&mut items[begin..end], number, item);
}

impl<T> Packed<T> {
    /// No list.
    pub fn new(alloc: Global) -> Packed<T>
        ensures { result ≡ [] }
    {
        Packed {
            ends: Vec::new(alloc),
            items: Vec::new(alloc),
        }
    }

    /// No list, with room to note the ends of so many.
    ///
    /// # Errors
    ///
    /// Where there is no memory for it.
    pub fn with_capacity(alloc: Global, lists: usize) -> Result<Packed<T>, AllocError>
        ensures { IfOk result (λ packed. packed ≡ []) }
    {
        Ok(Packed {
            ends: Vec::with_capacity(alloc, lists)?,
            items: Vec::new(alloc),
        })
    }

    /// How many lists there are.
    #[inline]
    pub fn len(&self) -> usize
        ensures { result ≡ length self.now }
    {
        self.ends.as_slice().len()
    }

    /// One of the lists.
    #[inline]
    pub fn at(&self, at: usize) -> &[T]
        requires { at < length self.now }
        ensures { result.now ≡ slice_index_or self.now at [] }
    {
        part(self.ends.as_slice(), self.items.as_slice(), at)
    }
}

impl<T: Copy> Packed<T> {
    /// Adds a copy of a list behind the others.
    ///
    /// # Errors
    ///
    /// Where there is no memory for it, or all lists have 2^32 elements or more; then nothing
    /// changes.
    pub fn push(&mut self, list: &[T]) -> Result<(), AllocError>
        ensures ok { OnOk result (self.new ≡ self.old ++ list.now ∷ []) }
        ensures err { OnErr result (self.new ≡ self.old) }
    {
        let end = end_behind(self.items.len(), list.len())?;
        self.ends.reserve(1)?;
        self.items.extend_from_slice(list)?;
        self.ends.push_reserved(end);
        Ok(())
    }

    /// Adds a list of so many elements that are the same behind the others.
    ///
    /// # Errors
    ///
    /// Where there is no memory for it, or all lists have 2^32 elements or more; then nothing
    /// changes.
    pub fn push_filled(&mut self, item: T, count: usize) -> Result<(), AllocError>
        ensures ok { OnOk result (self.new ≡ self.old ++ replicate count item ∷ []) }
        ensures err { OnErr result (self.new ≡ self.old) }
    {
        let end = end_behind(self.items.len(), count)?;
        self.ends.reserve(1)?;
        add_filled(&mut self.items, item, count, end as usize)?;
        self.ends.push_reserved(end);
        Ok(())
    }

    /// Writes other elements over those of a list, as many.
    pub fn overwrite(&mut self, at: usize, list: &[T])
        requires at { at < length self.old }
        requires long { length list.now ≡ length (slice_index_or self.old at []) }
        ensures { self.new ≡ slice_set self.old at list.now }
    {
        write_part(self.ends.as_slice(), self.items.as_mut_slice(), at, list);
    }

    /// Puts an element in the place of another one of a list.
    pub fn set(&mut self, at: usize, number: usize, item: T)
        requires at { at < length self.old }
        requires number { number < length (slice_index_or self.old at []) }
        ensures { self.new ≡
            slice_set self.old at (slice_set (slice_index_or self.old at []) number item) }
    {
        let items = self.items.as_mut_slice();
        set_in_part(self.ends.as_slice(), items, at, number, item);
    }

    /// Writes lists over these, as many and each as long.
    pub fn overwrite_all(&mut self, lists: &Packed<T>)
        requires many { length lists.now ≡ length self.old }
        requires long { (k : ℕ) → k < length lists.now →
            length (slice_index_or lists.now k []) ≡ length (slice_index_or self.old k []) }
        ensures { self.new ≡ lists.now }
    {
        self.items
            .as_mut_slice()
            .copy_from_slice(lists.items.as_slice());
    }

    /// The same lists, in memory of their own.
    ///
    /// # Errors
    ///
    /// Where there is no memory for them.
    pub fn copy(&self, alloc: Global) -> Result<Packed<T>, AllocError>
        ensures { IfOk result (λ packed. packed ≡ self.now) }
    {
        Ok(Packed {
            ends: Vec::from_slice(alloc, self.ends.as_slice())?,
            items: Vec::from_slice(alloc, self.items.as_slice())?,
        })
    }

    /// Lists of which each lies in memory of its own, one behind the other.
    ///
    /// # Errors
    ///
    /// Where there is no memory for it, or all lists have 2^32 elements or more.
    pub fn of(alloc: Global, lists: &[Seq<T>]) -> Result<Packed<T>, AllocError>
        ensures { IfOk result (λ packed. packed ≡ lists.now) }
    {
        let mut packed = Packed::with_capacity(alloc, lists.len())?;
        for list in lists {
            packed.push(list.as_slice())?;
        }
        Ok(packed)
    }
}

impl<T: PartialEq> PartialEq for Packed<T> {
    ghost use Rattle.std.specs.Cmp.Lexicographic.{pointwise, lists_per};

    ghost eq = { pointwise (pointwise T.eq) };

    ghost laws = { lists_per (lists_per T.laws) };

    fn eq(&self, other: &Packed<T>) -> bool {
        if self.len() != other.len() {
            return false;
        }
        for at in 0..self.len() {
            if self.at(at) != other.at(at) {
                return false;
            }
        }
        true
    }
}

impl<T: Eq> Eq for Packed<T> {
    ghost use Rattle.std.specs.Cmp.Lexicographic.{lists_equiv};

    ghost laws = { lists_equiv (lists_equiv T.Eq.laws) };
}
