// Sums of numbers that are not too large.

ghost use Rattle.std.specs.Prelude.{◌≡◌, ◌↔◌, ◌≤◌, ◌*◌, ◌^◌, pos, ◌+ℤ◌, ◌-ℤ◌, ◌≤ℤ◌, IsTrue};
ghost use Rattle.net_dual.specs.Small.{IsWithin};

/// The sum of two numbers.
pub(crate) fn add(one: i128, other: i128) -> i128
    requires one { IsWithin (2 ^ 125) one }
    requires other { IsWithin (2 ^ 125) other }
    ensures { result ≡ (one +ℤ other) }
{
    one + other
}

/// What is left of a number without another.
pub(crate) fn subtract(one: i128, other: i128) -> i128
    requires one { IsWithin (2 ^ 125) one }
    requires other { IsWithin (2 ^ 125) other }
    ensures { result ≡ (one -ℤ other) }
{
    one - other
}

/// A cost in units of a price, 1/1024.
pub(crate) fn in_units(cost: u64) -> i128
    ensures { result ≡ pos (1024 * cost) }
{
    1024 * i128::from(cost)
}

/// Whether a value in units of a price, rounded up to whole units, is at least a bound.
pub(crate) fn is_carried(bound: u64, value: i128) -> bool
    ensures { IsTrue result ↔ ((pos (1024 * bound) -ℤ pos 1023) ≤ℤ value) }
{
    in_units(bound) - 1023 <= value
}
