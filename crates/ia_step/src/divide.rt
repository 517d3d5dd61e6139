// Division.

ghost use Rattle.std.specs.Prelude.{◌≡◌, ◌≢◌, ◌≤◌, ◌^◌, pos, if◌then◌else◌};
ghost use Rattle.std.specs.Int.{CanDivide, w64};
ghost use Rattle.std.specs.Int.RustNames.{int_div, int_rem, unsigned_abs};
ghost use Rattle.pra_base.specs.Words.{fits_word};
ghost use Rattle.ia_step.specs.Arithmetic.{quotient};

fn fits(q: i64) -> Option<i32>
    ensures { result ≡ (if fits_word q then Some q else None) }
{
    i32::try_from(q).ok()
}

fn ratio(x: i64, d: i64) -> Option<i32>
    requires { d ≢ pos 0 }
    ensures { result ≡ (if fits_word (int_div x d) then Some (int_div x d) else None) }
{
    match x.checked_div(d) {
        None => None,
        Some(q) => fits(q),
    }
}

fn rest(x: i64, d: i64) -> i32
    requires can { CanDivide w64 x d }
    requires small { unsigned_abs d ≤ 2 ^ 31 }
    ensures { result ≡ int_rem x d }
{
    (x % d) as i32
}

/// Quotient and remainder, rounded toward zero, where they fit.
#[tactic(auto, unfolding(crate::specs::Arithmetic::quotient))]
pub fn divide(a: u64, by: u32) -> Option<(u32, u32)>
    ensures { result ≡ quotient a by }
{
    if by == 0 {
        return None;
    }
    let x = a.cast_signed();
    let d = i64::from(by.cast_signed());
    match ratio(x, d) {
        None => None,
        Some(q) => Some((q.cast_unsigned(), rest(x, d).cast_unsigned())),
    }
}
