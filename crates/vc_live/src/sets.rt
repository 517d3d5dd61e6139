// Sets of numbers as words of 64 bits: bit v % 64 of word v / 64 stands for v.

ghost use Rattle.std.specs.Prelude.{◌≡◌, ℕ, ◌+◌, ◌*◌, ◌/◌, ◌<◌, ◌≤◌, ◌||◌, ◌&&◌, not, nat_eq};
ghost use Rattle.std.specs.Prelude.{length, IfOk, IsTrue, true, false, List, if◌then◌else◌};
ghost use Rattle.std.specs.Prelude.{◌%◌, slice_index};
ghost use Rattle.vc_live.specs.Sets.{contains, has_bit, room};

use std::alloc::{AllocError, Global};
use std::marker::Model;

/// How many bits a word has.
const BITS: usize = 64;

/// A set of numbers below a bound, which contracts see as its words.
#[derive(Debug, Drop)]
pub struct BitSet {
    words: Vec<u64>,
}

impl Model for BitSet {
    ghost use Rattle.std.specs.Prelude.{ℕ, List};

    ghost Value = { List ℕ };

    ghost view = { λ set. set.words.items };
}

impl BitSet {
    /// No numbers, and room for those below `bound`.
    pub fn empty(alloc: Global, bound: usize) -> Result<BitSet, AllocError>
        ensures none { IfOk result (λ set. (v : ℕ) → contains set v ≡ false) }
        ensures words { IfOk result (λ set. length set ≡ bound / 64 + 1) }
    {
        let count = bound / BITS + 1;
        let mut words = Vec::with_capacity(alloc, count)?;
        for _ in 0..count {
            words.push(0)?;
        }
        Ok(BitSet { words })
    }

    pub fn contains(&self, v: usize) -> bool
        ensures { result ≡ contains self.now v }
    {
        if v / BITS >= self.words.len() {
            return false;
        }
        (self.words[v / BITS] >> (v % BITS)) & 1 == 1
    }

    /// From where on there may be members: this number, or where the next word begins if its own
    /// word has none.
    pub fn skip(&self, v: usize) -> usize
        ensures from { v ≤ result }
        ensures none { (u : ℕ) → v ≤ u → u < result → contains self.now u ≡ false }
    {
        let word = v / BITS;
        if word >= self.words.len() || self.words[word] != 0 {
            return v;
        }
        (v - v % BITS).saturating_add(BITS)
    }

    pub fn insert(&mut self, v: usize)
        requires { v / 64 < length self.old }
        ensures words { length self.new ≡ length self.old }
        ensures members { (u : ℕ) → contains self.new u ≡ (nat_eq v u || contains self.old u) }
    {
        let word = self.words[v / BITS];
        self.words[v / BITS] = word | (1 << (v % BITS));
    }

    pub fn remove(&mut self, v: usize)
        requires { v / 64 < length self.old }
        ensures words { length self.new ≡ length self.old }
        ensures members { (u : ℕ) →
            contains self.new u ≡ (not (nat_eq v u) && contains self.old u) }
    {
        let word = self.words[v / BITS];
        self.words[v / BITS] = word & !(1 << (v % BITS));
    }

    /// Takes all numbers out.
    pub fn clear(&mut self)
        ensures words { length self.new ≡ length self.old }
        ensures none { (u : ℕ) → contains self.new u ≡ false }
    {
        for i in 0..self.words.len() {
            self.words[i] = 0;
        }
    }

    /// Takes over the numbers of another set.
    pub fn copy_from(&mut self, other: &BitSet)
        requires { length self.old ≡ length other.now }
        ensures { self.new ≡ other.now }
    {
        self.words.copy_from_slice(other.words.as_slice());
    }

    pub fn unite(&mut self, other: &BitSet)
        requires { length self.old ≡ length other.now }
        ensures words { length self.new ≡ length self.old }
        ensures members { (u : ℕ) →
            contains self.new u ≡ (contains self.old u || contains other.now u) }
    {
        for i in 0..self.words.len() {
            let word = self.words[i];
            self.words[i] = word | other.words[i];
        }
    }

    pub fn subtract(&mut self, other: &BitSet)
        requires { length self.old ≡ length other.now }
        ensures words { length self.new ≡ length self.old }
        ensures members { (u : ℕ) →
            contains self.new u ≡ (contains self.old u && not (contains other.now u)) }
    {
        for i in 0..self.words.len() {
            let word = self.words[i];
            self.words[i] = word & !other.words[i];
        }
    }

    /// How many words there are.
    pub fn words(&self) -> usize
        ensures { result ≡ length self.now }
    {
        self.words.len()
    }

    /// The word of this number.
    pub fn word(&self, at: usize) -> u64
        requires { at < length self.now }
        ensures { result ≡ slice_index self.now at }
    {
        self.words[at]
    }

    /// Takes in the numbers that the bits of a word stand for, and says whether one of them is new.
    pub fn grow(&mut self, at: usize, more: u64) -> bool
        requires { at < length self.old }
        ensures words { length self.new ≡ length self.old }
        ensures members { (u : ℕ) → contains self.new u ≡
            (contains self.old u || (nat_eq (u / 64) at && has_bit more (u % 64))) }
        ensures same { result ≡ false → self.new ≡ self.old }
        ensures room { room self.new + (if result then 1 else 0) ≤ room self.old }
    {
        let old = self.words[at];
        if old | more == old {
            return false;
        }
        self.words[at] = old | more;
        true
    }

    /// A set with the same numbers.
    pub fn duplicate(&self, alloc: Global) -> Result<BitSet, AllocError>
        ensures { IfOk result (λ set. set ≡ self.now) }
    {
        let words = Vec::from_slice(alloc, self.words.as_slice())?;
        Ok(BitSet { words })
    }

    /// Takes out the numbers of a second set that are not in a first.
    pub fn confine(&mut self, seen: &BitSet, bound: &BitSet)
        requires seen { length self.old ≡ length seen.now }
        requires bound { length self.old ≡ length bound.now }
        ensures words { length self.new ≡ length self.old }
        ensures members { (u : ℕ) → contains self.new u ≡ (contains self.old u
            && (contains seen.now u || not (contains bound.now u))) }
    {
        for i in 0..self.words.len() {
            let word = self.words[i];
            self.words[i] = word & (seen.words[i] | !bound.words[i]);
        }
    }
}
