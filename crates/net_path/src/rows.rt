// The rows of a strand, a row for each of its layers: from what is paid at each layer to what is
// paid from there on, from the last layer to the first.

ghost use Rattle.std.specs.Prelude.{◌≡◌, ◌≢◌, ◌+◌, ◌-◌, ◌*◌, ◌≤◌, ◌<◌, ◌^◌, ℕ, length};
ghost use Rattle.net_path.specs.Ways.{AreStepsWithin, AreDebts, step_by};
ghost use Rattle.net_path.specs.Rests.{Terrain, AreRows};
ghost use Rattle.net_path.specs.Rows.{costs_at, slack_at, AreCellsWithin, IsGround, AreCells};
ghost use Rattle.net_path.specs.Rows.{ArePaid, AreCostsCells, IsRowWithin, IsPaidLayer};

use crate::crossbar::{Row, Steps, debt_at, pay, pay_crossbar};

/// What is to be paid from a place from which nothing goes on.
pub(crate) const UNREACHED: i64 = 1 << 62;

/// Less than that, and more than any path costs.
pub(crate) const REACHED: i64 = 1 << 61;

// What is paid at each place before an instruction and from there on.
fn pay_across<const SECONDS: bool>(cells: &mut Row, behind: &Row)
    requires cells { AreCostsCells cells.old.costs }
    requires behind { AreDebts behind.now.costs }
    ensures { ArePaid cells.old.costs behind.now.costs cells.new.costs }
{
    for p in 0..14usize {
        pay::<SECONDS>(cells, p, debt_at::<SECONDS>(behind, p));
    }
}

// A row from the row behind it, which is that of this layer of the block.
fn pay_row(steps: &Steps, layer: u32, cells: &mut Row, behind: &Row, seconds: bool)
    requires steps { AreStepsWithin steps.now }
    requires cells { AreCostsCells cells.old.costs }
    requires behind { IsRowWithin (2 ^ 60 + 2 ^ 59) behind.now.costs }
    ensures { IsPaidLayer (step_by steps.now) layer behind.now.costs cells.old.costs cells.new.costs }
{
    match (layer % 2 == 0, seconds) {
        (true, false) => pay_across::<false>(cells, behind),
        (true, true) => pay_across::<true>(cells, behind),
        (false, false) => pay_crossbar::<false>(steps, cells, behind),
        (false, true) => pay_crossbar::<true>(steps, cells, behind),
    }
}

// The same, of two rows that stand one behind the other.
fn pay_layer(steps: &Steps, behind: u32, rows: &mut [Row], at: usize, seconds: bool)
    requires steps { AreStepsWithin steps.now }
    requires within { at + 1 < length rows.old }
    requires cells { AreCostsCells (costs_at rows.old at) }
    requires behind { IsRowWithin (2 ^ 60 + 2 ^ 59) (costs_at rows.old (at + 1)) }
    ensures long { length rows.new ≡ length rows.old }
    ensures others { (k : ℕ) → k ≢ at → costs_at rows.new k ≡ costs_at rows.old k }
    ensures paid { IsPaidLayer (step_by steps.now) behind (costs_at rows.old (at + 1)) (costs_at rows.old at)
        (costs_at rows.new at) }
{
    let (front, back) = rows.split_at_mut(at + 1);
    pay_row(steps, behind, &mut front[at], &back[0], seconds);
}

/// From what is paid at each layer of a strand, the first of which is this layer of its block, to
/// what is paid from there on. Seconds are added up only where they count.
pub(crate) fn pay_backward(steps: &Steps, first: u32, rows: &mut [Row], seconds: bool)
    requires steps { AreStepsWithin steps.now }
    requires some { 0 < length rows.old }
    requires few { first + length rows.old ≤ 2 ^ 15 }
    requires cells { AreCellsWithin rows.old }
    ensures long { length rows.new ≡ length rows.old }
    ensures debts { (k : ℕ) → k < length rows.new → AreDebts (costs_at rows.new k) }
    ensures rows { (t : Terrain) → IsGround (step_by steps.now) first (length rows.old) t →
        AreCells t rows.old →
        AreRows t (costs_at rows.new) (slack_at (length rows.old)) (length rows.old) 0 }
{
    let mut at = rows.len() - 1;
    while at > 0 {
        let behind = first + at as u32;
        at -= 1;
        pay_layer(steps, behind, rows, at, seconds);
    }
}
