ghost use Rattle.std.specs.Prelude.{◌≡◌, pos, ◌+ℤ◌, ◌-ℤ◌, neg_ℤ, ◌<ℤ◌};
ghost use Rattle.pra_base.specs.Words.{floored_quotient, floored_remainder};
ghost use Rattle.ob_syntax.specs.Operators.{number as number_of, is_true as is_true_value};
ghost use Rattle.ob_syntax.specs.Operators.{wrapped, negated, inverted, on_numbers};

use ob_syntax::{ROp, Value};
use pra_base::TrapKind;

/// The number of a value: 1 for TRUE, 0 for FALSE.
pub fn number(value: Value) -> i32
    ensures { result ≡ number_of value }
{
    match value {
        Value::Number(number) => number,
        Value::Truth(true) => 1,
        Value::Truth(false) => 0,
    }
}

/// Whether a value is not 0.
pub fn is_true(value: Value) -> bool
    ensures { result ≡ is_true_value value }
{
    number(value) != 0
}

fn add(x: i32, y: i32) -> i32
    ensures { result ≡ wrapped (x +ℤ y) }
{
    x.wrapping_add(y)
}

fn subtract(x: i32, y: i32) -> i32
    ensures { result ≡ wrapped (x -ℤ y) }
{
    x.wrapping_sub(y)
}

fn flip(x: i32) -> i32
    ensures { result ≡ wrapped (neg_ℤ x) }
{
    0i32.wrapping_sub(x)
}

/// The sign `-`: the number of 32 bits that equals the negative modulo 2^32.
pub fn negate(value: Value) -> Value
    ensures { result ≡ negated value }
{
    Value::Number(flip(number(value)))
}

/// `~`.
pub fn invert(value: Value) -> Value
    ensures { result ≡ inverted value }
{
    Value::Truth(!is_true(value))
}

/// DIV: the quotient rounded down.
fn quotient(x: i32, y: i32) -> i32
    requires { pos 0 <ℤ y }
    ensures { result ≡ floored_quotient x y }
{
    let truncated = x / y;
    if x % y < 0 { truncated - 1 } else { truncated }
}

/// MOD: the remainder that is not negative.
fn remainder(x: i32, y: i32) -> i32
    requires { pos 0 <ℤ y }
    ensures { result ≡ floored_remainder x y }
{
    let truncated = x % y;
    if truncated < 0 {
        truncated + y
    } else {
        truncated
    }
}

/// The operator on two numbers. DIV and MOD by what is not positive trap.
pub fn operate(op: ROp, x: i32, y: i32) -> Result<Value, TrapKind>
    ensures { result ≡ on_numbers op x y }
{
    match op {
        ROp::Mul => Ok(Value::Number(x.wrapping_mul(y))),
        ROp::Add => Ok(Value::Number(add(x, y))),
        ROp::Sub => Ok(Value::Number(subtract(x, y))),
        ROp::Div if y > 0 => Ok(Value::Number(quotient(x, y))),
        ROp::Mod if y > 0 => Ok(Value::Number(remainder(x, y))),
        ROp::Div | ROp::Mod => Err(TrapKind::Divide),
        ROp::Equal => Ok(Value::Truth(x == y)),
        ROp::Unequal => Ok(Value::Truth(x != y)),
        ROp::Less => Ok(Value::Truth(x < y)),
        ROp::LessEqual => Ok(Value::Truth(x <= y)),
        ROp::Greater => Ok(Value::Truth(x > y)),
        ROp::GreaterEqual => Ok(Value::Truth(x >= y)),
        ROp::Both | ROp::Either => Ok(Value::Number(y)),
    }
}
