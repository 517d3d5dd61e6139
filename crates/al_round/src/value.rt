// Values in whole units, and the greatest of them.

ghost use Rattle.std.specs.Prelude.{◌≡◌, ℕ, suc, ℤ, pos, ◌≤ℤ◌, List, [], ◌∷◌, ◌++◌, length};
ghost use Rattle.std.specs.Prelude.{Some, slice_get};
ghost use Rattle.al_round.specs.Stages.{Stage, IsGreatest, IsRoundedUp};

use crate::copies::overwrite_prices;
use net_form::Prices;

/// Whole units, rounded up, of a value in units of 1/1024.
pub(crate) fn rounded_up(value: i128) -> u128
    requires { pos 0 ≤ℤ value }
    ensures { IsRoundedUp value result }
{
    (value as u128).div_ceil(1024)
}

// The greater of two values.
fn greater_of(one: i128, other: i128) -> i128
    ensures one { one ≤ℤ result }
    ensures other { other ≤ℤ result }
    ensures least { (z : ℤ) → one ≤ℤ z → other ≤ℤ z → result ≤ℤ z }
{
    if one > other { one } else { other }
}

/// Keeps the raised prices in place of the best so far, if their value is no lower than the
/// greatest so far and that of a round; else the prices of the round, if theirs is greater.
pub(crate) fn keep_greatest(
    best_value: &mut i128,
    best_prices: &mut Prices,
    value: i128,
    prices: &Prices,
    raised_value: i128,
    raised: &Prices,
)
    requires caps { length best_prices.old.caps ≡ length prices.now.caps }
    requires mems { length best_prices.old.mems ≡ length prices.now.mems }
    requires ties { length best_prices.old.ties ≡ length prices.now.ties }
    requires raised_caps { length best_prices.old.caps ≡ length raised.now.caps }
    requires raised_mems { length best_prices.old.mems ≡ length raised.now.mems }
    requires raised_ties { length best_prices.old.ties ≡ length raised.now.ties }
    ensures greatest { (stages : List Stage) (t : Stage) (k : ℕ) → suc k ≡ length stages →
        t.prices ≡ prices.now → t.value ≡ value → t.raised ≡ raised.now →
        t.raised_value ≡ raised_value →
        ((s : Stage) → slice_get stages k ≡ Some s → s.raised_value ≤ℤ t.raised_value) →
        IsGreatest stages k best_prices.old best_value.old →
        IsGreatest (stages ++ t ∷ []) (suc k) best_prices.new best_value.new }
    ensures above { best_value.old ≤ℤ best_value.new }
{
    if raised_value >= greater_of(value, *best_value) {
        *best_value = raised_value;
        overwrite_prices(best_prices, raised);
        return;
    }
    if value > *best_value {
        *best_value = value;
        overwrite_prices(best_prices, prices);
    }
}
