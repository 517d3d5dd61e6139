// What is known of operators, and of expressions that never trap.

ghost use Rattle.std.specs.Prelude.{◌≡◌, true, false, map};
ghost use Rattle.vc_expr.specs.Division.{is_division};
ghost use Rattle.vc_expr.specs.Operators.{is_bitwise, is_relation};
ghost use Rattle.vc_select.specs.Blocks.{all_safe, has_both, needs, needs_of_step};
ghost use Rattle.vc_select.specs.Selects.{IsSafe, IsSided, AreFields};

use ob_syntax::{RExpr, ROp, RStep};

pub fn is_bitwise(op: ROp) -> bool
    ensures { result ≡ is_bitwise op }
{
    matches!(op, ROp::Both | ROp::Either)
}

pub fn is_relation(op: ROp) -> bool
    ensures { result ≡ is_relation op }
{
    matches!(
        op,
        ROp::Equal | ROp::Unequal | ROp::Less | ROp::LessEqual | ROp::Greater | ROp::GreaterEqual
    )
}

fn is_division(op: ROp) -> bool
    ensures { result ≡ is_division op }
{
    matches!(op, ROp::Div | ROp::Mod)
}

fn are_fields(steps: &[RStep]) -> bool
    ensures is { result ≡ all_safe (map needs_of_step steps.now) }
    ensures fields { result ≡ true → AreFields steps.now }
{
    for step in steps {
        match step {
            RStep::Field(_) => {}
            RStep::Index(_) => return false,
        }
    }
    true
}

/// Whether an expression has no index, no DIV and no MOD; such a one never traps.
#[cycle(safe)]
pub fn is_safe(e: &RExpr) -> bool
    ensures is { result ≡ (needs e.now).safe }
    ensures safe { result ≡ true → IsSafe e.now }
{
    match e {
        RExpr::Number(_) => true,
        RExpr::Truth(_) => true,
        RExpr::Var(v) => are_fields(v.steps.as_slice()),
        RExpr::Negate(x) => is_safe(x.get()),
        RExpr::Not(x) => is_safe(x.get()),
        RExpr::Binary(op, x, y) => {
            if is_division(*op) {
                return false;
            }
            if !is_safe(x.get()) {
                return false;
            }
            is_safe(y.get())
        }
    }
}

/// Whether both sides of an operator may be evaluated: `&` and OR then have a right side that never
/// traps.
pub fn is_sided(op: ROp, y: &RExpr) -> bool
    ensures is { result ≡ has_both op (needs y.now).safe }
    ensures sided { result ≡ true → IsSided op y.now }
    ensures bitwise { result ≡ false → is_bitwise op ≡ true }
{
    if is_bitwise(op) {
        return is_safe(y);
    }
    true
}
