// The numbers of ties, most of which are 0.

ghost use Rattle.std.specs.Prelude.{◌≡◌, ◌≤◌, ◌<◌, ◌+◌, ◌*◌, ◌^◌, ℕ, pos, [], length, replicate};
ghost use Rattle.std.specs.Prelude.{slice_index_or, slice_set, vec_len, vec_capacity, IsTrue, IfOk};
ghost use Rattle.net_form.specs.Sparse.{AreRowsOf, number_at};

use pra_base::OutOfMemory;
use std::alloc::Global;
use std::marker::Model;

/// How many numbers a tie has: one for each place where a variable can be at an exit.
const SLOTS: usize = 13;

/// The numbers of ties, thirteen for each, which contracts see as one list of them all. A tie whose
/// numbers are all 0 takes four bytes. There is room for the numbers of all ties from the start, so
/// that no change takes memory; room that nothing was written to costs none either.
#[derive(Debug, Drop)]
pub struct TieNumbers {
    // For each tie which row of `numbers` is its own, or 0.
    rows: Vec<u32>,
    // Thirteen zeros, and thirteen numbers for each tie that has had another number than 0.
    numbers: Vec<i64>,
}

impl Model for TieNumbers {
    ghost use Rattle.std.specs.Prelude.{List, ℤ, vec_capacity};
    ghost use Rattle.std.specs.Coded.{coded_list, coded_ℤ};

    ghost Value = { List ℤ };

    ghost coded = { coded_list coded_ℤ };

    ghost use Rattle.net_form.specs.Sparse.{flat, AreRowsOf};

    ghost view = { λ ties. flat ties.rows.items ties.numbers.items };

    ghost invariant = { λ ties.
        AreRowsOf ties.rows.items ties.numbers.items (vec_capacity ties.numbers) };
}

// For how many numbers there has to be room. An error where there are too many ties.
fn room_for(ties: usize) -> Result<usize, OutOfMemory>
    ensures room { IfOk result (λ room. room ≡ 13 + 13 * ties) }
    ensures few { IfOk result (λ _. ties < 2 ^ 32) }
{
    let ties = u32::try_from(ties).map_err(|_| OutOfMemory)?;
    Ok(SLOTS + SLOTS * ties as usize)
}

// Thirteen zeros more, for which there is room.
fn push_row(numbers: &mut Vec<i64>)
    requires { vec_len numbers.old + 13 ≤ vec_capacity numbers.old }
    ensures long { length numbers.new.items ≡ length numbers.old.items + 13 }
    ensures same { (k : ℕ) → slice_index_or numbers.new.items k (pos 0) ≡
        slice_index_or numbers.old.items k (pos 0) }
    ensures capacity { vec_capacity numbers.new ≡ vec_capacity numbers.old }
{
    for _ in 0..SLOTS {
        numbers.push_reserved(0);
    }
}

fn row_at(rows: &[u32], tie: usize) -> usize
    requires { tie < length rows.now }
    ensures { result ≡ slice_index_or rows.now tie 0 }
{
    rows[tie] as usize
}

fn number_in(numbers: &[i64], index: usize) -> i64
    requires { index < length numbers.now }
    ensures { result ≡ slice_index_or numbers.now index (pos 0) }
{
    numbers[index]
}

// Adds numbers for which there is room.
fn extend_reserved(numbers: &mut Vec<i64>, more: &[i64])
    requires none { numbers.old.items ≡ [] }
    requires room { vec_len numbers.old + length more.now ≤ vec_capacity numbers.old }
    ensures items { numbers.new.items ≡ more.now }
    ensures capacity { vec_capacity numbers.old ≤ vec_capacity numbers.new }
{
    match numbers.extend_from_slice(more) {
        Ok(()) => (),
        Err(_) => unreachable!(),
    }
}

// Sees to it that a tie has a row of its own.
fn open(rows: &mut Vec<u32>, numbers: &mut Vec<i64>, tie: usize)
    requires tie { tie < length rows.old.items }
    requires rows { AreRowsOf rows.old.items numbers.old.items (vec_capacity numbers.old) }
    ensures own { 0 < slice_index_or rows.new.items tie 0 }
    ensures long { length rows.new.items ≡ length rows.old.items }
    ensures same { (k : ℕ) → number_at rows.new.items numbers.new.items k ≡
        number_at rows.old.items numbers.old.items k }
    ensures rows { AreRowsOf rows.new.items numbers.new.items (vec_capacity numbers.new) }
{
    if row_at(rows, tie) != 0 {
        return;
    }
    let row = (numbers.len() / SLOTS) as u32;
    push_row(numbers);
    rows[tie] = row;
}

impl TieNumbers {
    /// The numbers of no ties, which take no memory.
    pub fn new(alloc: Global) -> TieNumbers
        ensures { result ≡ [] }
    {
        TieNumbers {
            rows: Vec::new(alloc),
            numbers: Vec::new(alloc),
        }
    }

    /// Zeros for so many ties.
    ///
    /// # Errors
    ///
    /// Where there is no memory for them, and where there are 2^32 ties or more.
    pub fn zeros(alloc: Global, ties: usize) -> Result<TieNumbers, OutOfMemory>
        ensures { IfOk result (λ numbers. numbers ≡ replicate (13 * ties) (pos 0)) }
    {
        let room = room_for(ties)?;
        let rows = vec![in alloc; 0u32; ties]?;
        let mut numbers = Vec::with_capacity(alloc, room)?;
        push_row(&mut numbers);
        Ok(TieNumbers { rows, numbers })
    }

    /// The same numbers once more.
    ///
    /// # Errors
    ///
    /// Where there is no memory for them.
    pub fn copy(&self, alloc: Global) -> Result<TieNumbers, OutOfMemory>
        ensures { IfOk result (λ copy. copy ≡ self.now) }
    {
        let room = room_for(self.rows.len())?;
        let rows = Vec::from_slice(alloc, self.rows.as_slice())?;
        let mut numbers = Vec::with_capacity(alloc, room)?;
        extend_reserved(&mut numbers, self.numbers.as_slice());
        Ok(TieNumbers { rows, numbers })
    }

    /// Writes the numbers of as many ties over these. It takes no memory.
    pub fn overwrite(&mut self, from: &TieNumbers)
        requires { length from.now ≡ length self.old }
        ensures { self.new ≡ from.now }
    {
        if self.rows.is_empty() {
            return;
        }
        self.rows.copy_from_slice(from.rows.as_slice());
        self.numbers.clear();
        extend_reserved(&mut self.numbers, from.numbers.as_slice());
    }

    /// How many numbers there are, thirteen for each tie.
    pub fn len(&self) -> usize
        ensures { result ≡ length self.now }
    {
        SLOTS * self.rows.len()
    }

    /// How many ties have numbers.
    pub fn ties(&self) -> usize
        ensures { 13 * result ≡ length self.now }
    {
        self.rows.len()
    }

    /// One of the thirteen numbers of a tie.
    pub fn number(&self, tie: usize, slot: usize) -> i64
        requires tie { 13 * tie + slot < length self.now }
        requires slot { slot < 13 }
        ensures { result ≡ slice_index_or self.now (13 * tie + slot) (pos 0) }
    {
        let row = row_at(&self.rows, tie);
        number_in(&self.numbers, SLOTS * row + slot)
    }

    /// Whether all numbers of a tie are known to be 0, which no number of it has to be read for.
    pub fn is_zero(&self, tie: usize) -> bool
        requires { 13 * tie < length self.now }
        ensures { IsTrue result → (slot : ℕ) → slot < 13 →
            slice_index_or self.now (13 * tie + slot) (pos 0) ≡ pos 0 }
    {
        row_at(&self.rows, tie) == 0
    }

    /// Puts a number in the place of one of the thirteen of a tie. It takes no memory.
    pub fn set(&mut self, tie: usize, slot: usize, number: i64)
        requires tie { 13 * tie + slot < length self.old }
        requires slot { slot < 13 }
        ensures { self.new ≡ slice_set self.old (13 * tie + slot) number }
    {
        if number == 0 && row_at(&self.rows, tie) == 0 {
            return;
        }
        open(&mut self.rows, &mut self.numbers, tie);
        let row = row_at(&self.rows, tie);
        self.numbers[SLOTS * row + slot] = number;
    }

    /// The number at an index of the whole list.
    pub fn at(&self, index: usize) -> i64
        requires { index < length self.now }
        ensures { result ≡ slice_index_or self.now index (pos 0) }
    {
        self.number(index / SLOTS, index % SLOTS)
    }

    /// Puts a number in the place of the one at an index of the whole list. It takes no memory.
    pub fn set_at(&mut self, index: usize, number: i64)
        requires { index < length self.old }
        ensures { self.new ≡ slice_set self.old index number }
    {
        self.set(index / SLOTS, index % SLOTS, number);
    }
}
