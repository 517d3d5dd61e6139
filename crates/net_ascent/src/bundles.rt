// The six registers of a layer, priced at once.
//
// Strands bid for registers: what each would pay for one is what it costs it to have its way
// without any. Who gets a register is the assignment of the greatest sum of bids (one strand after
// the other, by a least augmenting path: Kuhn 1955; Jonker and Volgenant 1987). Prices at which
// nobody wants another register than his own form a lattice (Shapley and Shubik 1971; Demange, Gale
// and Sotomayor 1986): there are least ones and greatest ones, and those between on a line are such
// prices too.

use crate::lists::at;
use crate::pace::{MUST, Pace};
use crate::rows::{CLOSED, CONSTANT, MEMORY, Registers, Row, is_closed};
use std::simd::i32x8;

/// What a strand would pay for each register. The last two numbers are of no register.
pub(crate) type Bids = [i32; 8];

/// Which strand has which register.
type Holders = [usize; 8];

const NOBODY: usize = usize::MAX;

// The number of no register.
const NOWHERE: i32 = -1;

// A bid that is never taken.
const REFUSED: i32 = -CLOSED;

// Ways lead over so many registers beside the first.
const STEPS: u8 = 5;

// What the registers cost, alone or with memory, without what is paid for them.
fn without_prices(row: &Row, prices: &Registers) -> (Registers, Registers) {
    let mut whole = [CLOSED; 8];
    let mut rest = [CLOSED; 8];
    for r in 0..8usize {
        let cost = if r < MEMORY {
            row[r].min(row[8 + r])
        } else {
            CLOSED
        };
        whole[r] = cost;
        rest[r] = cost.wrapping_sub(prices[r]);
    }
    (whole, rest)
}

fn least_of(costs: &Registers) -> i32 {
    let mut least = i32::MAX;
    for r in 0..8usize {
        least = least.min(costs[r]);
    }
    least
}

/// What a strand would pay for each register at this layer, if it would pay for any. The row has
/// the least costs of the whole strand by its places here.
pub(crate) fn bids_of(row: &Row, prices: &Registers) -> Option<Bids> {
    let (whole, rest) = without_prices(row, prices);
    let mut elsewhere = row[MEMORY].min(row[CONSTANT]);
    if is_closed(elsewhere) {
        let least = least_of(&rest);
        if is_closed(least) {
            return None;
        }
        elsewhere = least.wrapping_add(MUST);
    }
    let mut bids = [REFUSED; 8];
    let mut greatest = REFUSED;
    for r in 0..8usize {
        let bid = elsewhere.wrapping_sub(rest[r]);
        greatest = greatest.max(if r < MEMORY { bid } else { REFUSED });
        bids[r] = if is_closed(whole[r]) { REFUSED } else { bid };
    }
    (greatest > 0).then_some(bids)
}

fn bids_by(bids: &[Bids], strand: usize) -> Bids {
    at(bids, strand, [0; 8])
}

// What is lost at least where a strand comes to each register, and whose register the one that
// leaves it came from: lanes of vectors, computed side by side without a condition for any of them.
#[derive(Clone, Copy)]
struct Ousting {
    lost: i32x8,
    from: i32x8,
}

// The holder of register r goes on to others, where that loses less.
#[inline(always)]
fn oust(ousting: &mut Ousting, holder: &Bids, r: usize) -> bool {
    let holder = i32x8::from_array(*holder);
    let base = (ousting.lost + holder).to_array()[r % 8];
    let lost = i32x8::splat(base) - holder;
    let is_less = lost.simd_lt(ousting.lost);
    let register = i32::try_from(r).unwrap_or(NOWHERE);
    ousting.from = is_less.select(i32x8::splat(register), ousting.from);
    ousting.lost = lost.simd_min(ousting.lost);
    is_less.any()
}

// What it loses to let a strand have each register.
fn ousting_of(bids: &[Bids], holders: &Holders, strand: usize) -> Ousting {
    let own = i32x8::from_array(bids_by(bids, strand));
    let mut ousting = Ousting {
        lost: i32x8::splat(0) - own,
        from: i32x8::splat(NOWHERE),
    };
    for _ in 0..STEPS {
        let mut changed = false;
        for r in 0..6usize {
            if holders[r] != NOBODY {
                let holder = bids_by(bids, holders[r]);
                changed |= oust(&mut ousting, &holder, r);
            }
        }
        if !changed {
            break;
        }
    }
    ousting
}

// Where the way of a strand ends that gains most: in a register that is free, or whose holder goes
// without.
fn best_end(bids: &[Bids], holders: &Holders, ousting: &Ousting) -> Option<usize> {
    let lost_at = ousting.lost.to_array();
    let mut best = 0;
    let mut end = None;
    for r in 0..6usize {
        let mut lost = lost_at[r];
        if holders[r] != NOBODY {
            lost = lost.wrapping_add(bids_by(bids, holders[r])[r]);
        }
        if lost < best {
            best = lost;
            end = Some(r);
        }
    }
    end
}

// Each on the way to that register hands its own to the next, and the strand takes the first.
fn hand_on(holders: &mut Holders, ousting: &Ousting, end: usize, strand: usize) {
    let origins = ousting.from.to_array();
    let mut register = end;
    for _ in 0..6u8 {
        let Ok(from) = usize::try_from(origins[register % 8]) else {
            break;
        };
        holders[register % 8] = holders[from % 8];
        register = from;
    }
    holders[register % 8] = strand;
}

// Who holds which register where the sum of their bids is greatest.
fn assigned(bids: &[Bids]) -> Holders {
    let mut holders = [NOBODY; 8];
    for strand in 0..bids.len() {
        let ousting = ousting_of(bids, &holders, strand);
        if let Some(end) = best_end(bids, &holders, &ousting) {
            hand_on(&mut holders, &ousting, end, strand);
        }
    }
    holders
}

// Whether a strand holds a register.
fn has_some(holders: &Holders, strand: usize) -> bool {
    let mut some = false;
    for r in 0..6usize {
        some |= holders[r] == strand;
    }
    some
}

// Nobody pays more than his bid, and who has no register finds each too dear.
fn first_limits(bids: &[Bids], holders: &Holders) -> (Registers, Registers) {
    let mut least = [0i32; 8];
    for strand in 0..bids.len() {
        if !has_some(holders, strand) {
            let bid = bids_by(bids, strand);
            for r in 0..8usize {
                least[r] = least[r].max(bid[r]);
            }
        }
    }
    let mut greatest = [CLOSED; 8];
    for r in 0..6usize {
        greatest[r] = if holders[r] == NOBODY {
            0
        } else {
            bids_by(bids, holders[r])[r].max(0)
        };
    }
    (least, greatest)
}

// No holder would rather have another register. It says whether that moved a limit.
fn limit(least: &mut Registers, greatest: &mut Registers, bid: &Bids, r: usize) -> bool {
    let mut most = i32::MAX;
    for q in 0..8usize {
        most = most.min(greatest[q].wrapping_sub(bid[q]));
    }
    let mut changed = false;
    let most = most.wrapping_add(bid[r % 8]);
    if most < greatest[r % 8] {
        greatest[r % 8] = most;
        changed = true;
    }
    let base = least[r % 8].wrapping_sub(bid[r % 8]);
    let others = i32x8::splat(base) + i32x8::from_array(*bid);
    let old = i32x8::from_array(*least);
    *least = old.simd_max(others).to_array();
    changed || others.simd_gt(old).any()
}

/// Prices of the six registers at which whoever bids is content, and the sum of their bids is
/// greatest.
pub(crate) fn prices_by(bids: &[Bids], pace: &Pace) -> Registers {
    let holders = assigned(bids);
    let (mut least, mut greatest) = first_limits(bids, &holders);
    for _ in 0..STEPS {
        let mut changed = false;
        for r in 0..6usize {
            if holders[r] != NOBODY {
                let bid = bids_by(bids, holders[r]);
                changed |= limit(&mut least, &mut greatest, &bid, r);
            }
        }
        if !changed {
            break;
        }
    }
    let mut prices = [0; 8];
    for r in 0..6usize {
        prices[r] = pace.between(least[r], greatest[r]);
    }
    prices
}
