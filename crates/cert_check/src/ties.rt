// What all ties together ask of each strand at its ends.

ghost use Rattle.std.specs.Prelude.{◌≡◌, ◌<◌, ◌≤◌, ◌+◌, ◌*◌, ◌^◌, pos, ◌+ℤ◌, length, IfOk};
ghost use Rattle.std.specs.Prelude.{slice_index_or, slice_set};
ghost use Rattle.net_dual.specs.Priced.{AreInRange};
ghost use Rattle.net_dual.specs.Small.{IsWithin};
ghost use Rattle.net_laws.specs.Built.{IsBuilt};
ghost use Rattle.cert_check.specs.Tolls.{AreTiesSums, AreSumsWithin, AreNumbersWithin, HasAdded};
ghost use Rattle.cert_check.specs.Tolls.{tied_strand};

use net_form::{BlockEnd, Net, Prices, Tie, TieNumbers};
use pra_base::OutOfMemory;
use pra_list::Seq;
use std::alloc::Global;

/// How many numbers a tie has: one for each place where a variable can be at an exit.
pub(crate) const TIE_NUMBERS: usize = 13;

// The strand that has this end of a tie.
fn strand_of(end: BlockEnd, tie: &Tie) -> u32
    ensures { result ≡ tied_strand end tie.now }
{
    match end {
        BlockEnd::Entry => tie.to,
        BlockEnd::Exit => tie.from,
    }
}

// Adds a number to one of the sums.
fn add_at(sums: &mut [i128], at: usize, number: i64)
    requires at { at < length sums.old }
    requires sum { IsWithin (2 ^ 105) (slice_index_or sums.old at (pos 0)) }
    ensures { sums.new ≡ slice_set sums.old at (slice_index_or sums.old at (pos 0) +ℤ number) }
{
    sums[at] += i128::from(number);
}

// Adds the numbers of a tie to those of a strand.
fn add_tie(sums: &mut [i128], strand: usize, numbers: &TieNumbers, tie: usize)
    requires strand { 13 * strand + 13 ≤ length sums.old }
    requires tie { 13 * tie + 13 ≤ length numbers.now }
    requires numbers { AreNumbersWithin numbers.now }
    requires sums { AreSumsWithin tie sums.old }
    ensures count { length sums.new ≡ length sums.old }
    ensures added { HasAdded sums.old numbers.now strand tie 13 sums.new }
    ensures within { AreSumsWithin (tie + 1) sums.new }
{
    for slot in 0..TIE_NUMBERS {
        let number = numbers.number(tie, slot);
        add_at(sums, TIE_NUMBERS * strand + slot, number);
    }
}

/// Sums of the numbers of the ties that have this end at a strand, for each strand thirteen.
pub(crate) fn ties_sums(
    alloc: Global,
    net: &Net,
    prices: &Prices,
    end: BlockEnd,
) -> Result<Seq<i128>, OutOfMemory>
    requires net { IsBuilt net.now }
    requires prices { AreInRange net.now prices.now }
    ensures { IfOk result (AreTiesSums net.now prices.now end) }
{
    let count = net
        .strands
        .len()
        .checked_mul(TIE_NUMBERS)
        .ok_or(OutOfMemory)?;
    let mut sums = vec![in alloc; 0i128; count]?;
    for tie in 0..net.ties.len() {
        let strand = strand_of(end, &net.ties[tie]) as usize;
        add_tie(&mut sums, strand, &prices.ties, tie);
    }
    Ok(Seq::from_vec(sums))
}
