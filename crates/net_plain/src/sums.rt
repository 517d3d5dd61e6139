// Sums of numbers that are not too large.

ghost use Rattle.std.specs.Prelude.{◌≡◌, ◌*◌, ◌^◌, pos, ◌+ℤ◌, ◌-ℤ◌};
ghost use Rattle.net_dual.specs.Small.{IsWithin, most_sum};

/// The sum of two numbers.
pub(crate) fn add(one: i128, other: i128) -> i128
    requires one { IsWithin (2 ^ 125) one }
    requires other { IsWithin (2 ^ 125) other }
    ensures { result ≡ (one +ℤ other) }
{
    one + other
}

/// What is left of a number without another.
pub(crate) fn subtract(one: i128, other: i128) -> i128
    requires one { IsWithin (2 ^ 125) one }
    requires other { IsWithin (2 ^ 125) other }
    ensures { result ≡ (one -ℤ other) }
{
    one - other
}

/// A cost in units of a price, 1/1024.
pub(crate) fn in_units(cost: u64) -> i128
    ensures { result ≡ pos (1024 * cost) }
{
    1024 * i128::from(cost)
}

/// The same number in 64 bits, which those of whole paths fit.
pub(crate) fn narrow(cost: i128) -> i64
    requires { IsWithin most_sum cost }
    ensures { result ≡ cost }
{
    cost as i64
}
