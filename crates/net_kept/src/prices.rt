// Prices, packed.

ghost use Rattle.std.specs.Prelude.{◌≡◌, ◌<◌, ◌+◌, ◌*◌, ℕ, pos, length, slice_index_or, IfOk};
ghost use Rattle.net_kept.specs.Numbers.{put_number, spread, joined, AreWithin, ArePackedTo};
ghost use Rattle.net_kept.specs.Numbers.{IsAdded};

use net_form::{Prices, TieNumbers};
use pra_base::OutOfMemory;
use pra_list::Seq;
use std::alloc::Global;
use std::marker::Model;

/// How many numbers a tie has.
const SLOTS: usize = 13;

// A number that is not 0, and its index in the list of the numbers of all ties.
#[derive(Clone, Copy, Debug, Drop)]
struct NumberAt {
    index: usize,
    number: i64,
}

/// Prices, packed: of the numbers of ties only those that are not 0. Contracts see the prices.
#[derive(Debug, Drop)]
pub struct KeptPrices {
    caps: Seq<u64>,
    mems: Seq<u64>,
    // How many ties have numbers.
    ties: usize,
    indexes: Vec<u32>,
    numbers: Vec<i64>,
}

impl Model for KeptPrices {
    ghost use Rattle.net_form.specs.declared.prices.Prices.{Prices};

    ghost Value = { Prices };

    ghost use Rattle.net_kept.specs.Numbers.{spread, joined, AreKept};

    ghost view = { λ kept. record {
      caps = kept.caps;
      mems = kept.mems;
      ties = spread kept.ties (joined kept.indexes.items kept.numbers.items);
    } };

    ghost invariant = { λ kept. AreKept kept.ties kept.indexes.items kept.numbers.items };
}

// Adds the numbers of one tie that are not 0.
fn pack_tie(
    entries: &mut Vec<NumberAt>,
    numbers: &TieNumbers,
    ties: usize,
    tie: usize,
) -> Result<(), OutOfMemory>
    requires ties { 13 * ties ≡ length numbers.now }
    requires tie { tie < ties }
    requires packed { ArePackedTo ties (13 * tie) numbers.now entries.old.items }
    ensures { IfOk result (λ _. ArePackedTo ties (13 * tie + 13) numbers.now entries.new.items) }
{
    if numbers.is_zero(tie) {
        return Ok(());
    }
    // An index of any of them is a usize.
    let _few = numbers.len();
    for slot in 0..SLOTS {
        let number = numbers.number(tie, slot);
        if number != 0 {
            let index = SLOTS * tie + slot;
            entries.push(NumberAt { index, number })?;
        }
    }
    Ok(())
}

// The numbers that are not 0.
fn packed(alloc: Global, numbers: &TieNumbers) -> Result<Vec<NumberAt>, OutOfMemory>
    ensures { IfOk result (λ entries. (ties : ℕ) → 13 * ties ≡ length numbers.now →
        ArePackedTo ties (13 * ties) numbers.now entries.items) }
{
    let ties = numbers.ties();
    let mut entries = Vec::new(alloc);
    for tie in 0..ties {
        pack_tie(&mut entries, numbers, ties, tie)?;
    }
    Ok(entries)
}

// An index in 32 bits.
fn short(index: usize) -> Result<u32, OutOfMemory>
    ensures { IfOk result (λ short. short ≡ index) }
{
    u32::try_from(index).map_err(|_| OutOfMemory)
}

// Adds the index and the number of an entry.
fn add_apart(
    indexes: &mut Vec<u32>,
    numbers: &mut Vec<i64>,
    entry: NumberAt,
) -> Result<(), OutOfMemory>
    requires { length indexes.old.items ≡ length numbers.old.items }
    ensures { IfOk result (λ _. IsAdded indexes.old.items numbers.old.items entry
        indexes.new.items numbers.new.items) }
{
    let NumberAt { index, number } = entry;
    indexes.push(short(index)?)?;
    numbers.push(number)?;
    Ok(())
}

// The indexes of entries and their numbers, each in a list.
fn apart(alloc: Global, entries: &[NumberAt]) -> Result<(Vec<u32>, Vec<i64>), OutOfMemory>
    ensures long { IfOk result (λ lists. length lists.0.items ≡ length lists.1.items) }
    ensures same { IfOk result (λ lists. joined lists.0.items lists.1.items ≡ entries.now) }
{
    let mut indexes = Vec::with_capacity(alloc, entries.len())?;
    let mut numbers = Vec::with_capacity(alloc, entries.len())?;
    for entry in entries {
        add_apart(&mut indexes, &mut numbers, *entry)?;
    }
    Ok((indexes, numbers))
}

fn entry_at(indexes: &[u32], numbers: &[i64], at: usize) -> NumberAt
    requires index { at < length indexes.now }
    requires number { at < length numbers.now }
    ensures { result ≡ record {
      index = slice_index_or indexes.now at 0;
      number = slice_index_or numbers.now at (pos 0);
    } }
{
    NumberAt {
        index: indexes[at] as usize,
        number: numbers[at],
    }
}

// Entries of these indexes and numbers.
fn together(alloc: Global, indexes: &[u32], numbers: &[i64]) -> Result<Vec<NumberAt>, OutOfMemory>
    requires { length indexes.now ≡ length numbers.now }
    ensures { IfOk result (λ entries. entries.items ≡ joined indexes.now numbers.now) }
{
    let mut entries = Vec::with_capacity(alloc, indexes.len())?;
    for at in 0..indexes.len() {
        entries.push(entry_at(indexes, numbers, at))?;
    }
    Ok(entries)
}

// Puts a number in its place.
fn put(numbers: &mut TieNumbers, entry: NumberAt)
    requires { entry.index < length numbers.old }
    ensures { numbers.new ≡ put_number numbers.old entry }
{
    numbers.set_at(entry.index, entry.number);
}

// The numbers of all ties.
fn spread_out(alloc: Global, ties: usize, entries: &[NumberAt]) -> Result<TieNumbers, OutOfMemory>
    requires { AreWithin ties entries.now }
    ensures { IfOk result (λ numbers. numbers ≡ spread ties entries.now) }
{
    let mut numbers = TieNumbers::zeros(alloc, ties)?;
    for entry in entries {
        put(&mut numbers, *entry);
    }
    Ok(numbers)
}

impl KeptPrices {
    /// Packs prices.
    ///
    /// # Errors
    ///
    /// Where there is no memory for the numbers that are not 0. One of them at an index that 32
    /// bits don't hold is taken for that too: no sized code has it.
    pub fn of(alloc: Global, prices: Prices) -> Result<KeptPrices, OutOfMemory>
        ensures { IfOk result (λ kept. kept ≡ prices) }
    {
        let Prices { caps, mems, ties } = prices;
        let entries = packed(alloc, &ties)?;
        let (indexes, numbers) = apart(alloc, &entries)?;
        Ok(KeptPrices {
            caps,
            mems,
            ties: ties.ties(),
            indexes,
            numbers,
        })
    }

    /// The same prices, with room for the numbers of all ties.
    ///
    /// # Errors
    ///
    /// Where there is no memory for them.
    pub fn unpacked(self, alloc: Global) -> Result<Prices, OutOfMemory>
        ensures { IfOk result (λ prices. prices ≡ self) }
    {
        let KeptPrices {
            caps,
            mems,
            ties,
            indexes,
            numbers,
        } = self;
        let entries = together(alloc, &indexes, &numbers)?;
        let ties = spread_out(alloc, ties, &entries)?;
        Ok(Prices { caps, mems, ties })
    }
}
