// Rows: what a strand pays by its place, and how rows go through crossbars.
//
// A way through a crossbar costs as much from each register to each other one, so the least of the
// six registers alone, of the six both places, memory and the constant itself say what it costs to
// go elsewhere; beside that a value may stay in its register.

/// What is paid at a place that is closed. Costs end here; what is half as much or more counts as
/// closed.
pub(crate) const CLOSED: i32 = 1 << 29;

const NEARLY_CLOSED: i32 = 1 << 28;

/// Costs by the numbers of places. The last two are of no place, and closed.
pub(crate) type Row = [i32; 16];

/// Costs of the six registers, and two numbers more.
pub(crate) type Registers = [i32; 8];

/// No costs.
pub(crate) const NOTHING: Row = [0; 16];

/// The number of memory.
pub(crate) const MEMORY: usize = 6;

/// The number of the constant itself.
pub(crate) const CONSTANT: usize = 7;

/// How many places there are.
pub(crate) const PLACES: usize = 14;

/// What ways through a crossbar cost: a move between registers, a load, a store, and a constant
/// that is made.
#[derive(Clone, Copy)]
pub(crate) struct Ways {
    pub between: i32,
    pub load: i32,
    pub store: i32,
    pub set: i32,
}

/// Whether a place is closed.
pub(crate) fn is_closed(cost: i32) -> bool {
    cost >= NEARLY_CLOSED
}

/// The least of all costs.
pub(crate) fn least(row: &Row) -> i32 {
    let mut least = i32::MAX;
    for p in 0..16usize {
        least = least.min(row[p]);
    }
    least
}

/// The costs of both rows together.
pub(crate) fn sum(one: &Row, other: &Row) -> Row {
    let mut all = NOTHING;
    for p in 0..16usize {
        all[p] = one[p].wrapping_add(other[p]);
    }
    all
}

/// What one row costs more than another.
pub(crate) fn difference(one: &Row, other: &Row) -> Row {
    let mut all = NOTHING;
    for p in 0..16usize {
        all[p] = one[p].wrapping_sub(other[p]);
    }
    all
}

/// No more than what is paid at a closed place.
pub(crate) fn limited(row: &Row) -> Row {
    let mut all = NOTHING;
    for p in 0..16usize {
        all[p] = row[p].min(CLOSED);
    }
    all
}

/// Costs for registers are paid alone and at both places.
pub(crate) fn with_registers(row: &Row, costs: &Registers) -> Row {
    let mut all = *row;
    for r in 0..8usize {
        all[r] = all[r].wrapping_add(costs[r]);
        all[8 + r] = all[8 + r].wrapping_add(costs[r]);
    }
    all
}

// The places, as sets. The last two are in no set of places.
const SETS: [u32; 16] = [
    0x1,
    0x2,
    0x4,
    0x8,
    0x10,
    0x20,
    0x40,
    0x80,
    0x100,
    0x200,
    0x400,
    0x800,
    0x1000,
    0x2000,
    0x4000_0000,
    0x8000_0000,
];

/// Closed places cost so, others nothing more; the lower 14 bits of a set are its places.
pub(crate) fn row_of(places: u32) -> Row {
    let mut row = NOTHING;
    for p in 0..16usize {
        row[p] = if places & SETS[p] == 0 { CLOSED } else { 0 };
    }
    row
}

/// The same, where open places cost something.
pub(crate) fn row_where(places: u32, costs: &Row) -> Row {
    let mut row = NOTHING;
    for p in 0..16usize {
        row[p] = if places & SETS[p] == 0 {
            CLOSED
        } else {
            costs[p]
        };
    }
    row
}

// The least costs of registers alone and of both places.
fn least_of_registers(row: &Row) -> (i32, i32) {
    let mut alone = CLOSED;
    let mut both = CLOSED;
    for r in 0..6usize {
        alone = alone.min(row[r]);
        both = both.min(row[8 + r]);
    }
    (alone, both)
}

/// What is paid up to behind a crossbar, from what is paid up to before it, but for the least
/// number there, and that number.
pub(crate) fn behind(ways: &Ways, row: &Row) -> (Row, i32) {
    let (alone, both) = least_of_registers(row);
    let (memory, constant) = (row[MEMORY], row[CONSTANT]);
    let least = alone.min(both).min(memory).min(constant);
    let set = constant.wrapping_add(ways.set);
    let loaded = memory.wrapping_add(ways.load);
    let stored = alone.wrapping_add(ways.store);
    let a = alone
        .min(both)
        .wrapping_add(ways.between)
        .min(loaded)
        .min(set);
    let b = stored
        .min(both)
        .wrapping_add(ways.between)
        .min(loaded)
        .min(CLOSED);
    let m = stored.min(both).min(memory);
    let c = constant.min(alone);
    let goes = [a, a, a, a, a, a, m, c];
    let mut all = NOTHING;
    for r in 0..8usize {
        let here = row[r].min(row[8 + r]).min(goes[r]);
        all[r] = here.wrapping_sub(least);
        let there = row[8 + r].min(row[r].wrapping_add(ways.store)).min(b);
        all[8 + r] = there.wrapping_sub(least);
    }
    (all, least)
}

/// What is paid before a crossbar from there on, from what is paid behind it, but for the least
/// number there, and that number.
pub(crate) fn before(ways: &Ways, row: &Row) -> (Row, i32) {
    let (alone, both) = least_of_registers(row);
    let (memory, constant) = (row[MEMORY], row[CONSTANT]);
    let nearer = alone.min(both);
    let least = nearer.min(memory).min(constant);
    let stored = memory.wrapping_add(ways.store).min(constant);
    let alone_or_left = alone.min(both.wrapping_add(ways.store));
    let a = alone_or_left.wrapping_add(ways.between).min(stored);
    let b = nearer.wrapping_add(ways.between).min(memory);
    let m = memory.min(nearer.wrapping_add(ways.load));
    let c = constant.min(alone.wrapping_add(ways.set));
    let goes = [a, a, a, a, a, a, m, c];
    let mut all = NOTHING;
    for r in 0..8usize {
        let here = row[r].min(row[8 + r].wrapping_add(ways.store)).min(goes[r]);
        all[r] = here.wrapping_sub(least);
        let there = row[8 + r].min(row[r]).min(b);
        all[8 + r] = there.wrapping_sub(least);
    }
    (all, least)
}
