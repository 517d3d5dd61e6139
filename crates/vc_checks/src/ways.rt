// What is known on the ways out of a block: behind a comparison a branch tells more on each arm.

ghost use Rattle.std.specs.Prelude.{◌≡◌, ℕ, ℤ, ◌≤ℤ◌, ◌<ℤ◌, [], ◌∷◌, Some, IfOk, IfSome};
ghost use Rattle.std.specs.Prelude.{true, false};
ghost use Rattle.pra_list.specs.Among.{Among};
ghost use Rattle.pra_base.specs.Code.{kind_of};
ghost use Rattle.pra_base.specs.Words.{compares};
ghost use Rattle.vc_code.specs.Selected.{read};
ghost use Rattle.vc_code.specs.Value.{Words};
ghost use Rattle.vc_code.specs.declared.value.Value.TheVariants.{Num};
ghost use Rattle.vc_checks.specs.declared.fact.Fact.{Fact as AFact};
ghost use Rattle.vc_checks.specs.Facts.{AllHold, Kinds};
ghost use Rattle.vc_checks.specs.Ways.{AreWays, Compares, IsComparison, IsWithin};

use crate::fact::Fact;
use crate::known::{find, learn, narrowed, range};
use pra_base::{Block, Cond, End, VInstr, VProc, VarId};
use std::alloc::{AllocError, Global};

/// What is known on the way to the first target of a block's end, and on that to the second.
#[derive(Debug, Drop)]
pub struct Ways {
    pub one: Vec<Fact>,
    pub other: Vec<Fact>,
}

/// The numbers of two variables compare like this.
#[derive(Clone, Copy, Debug, PartialEq)]
pub struct Comparison {
    pub one: VarId,
    pub condition: Cond,
    pub other: VarId,
}

/// Numbers from the first to the second.
#[derive(Clone, Copy, Debug, PartialEq)]
pub struct Span {
    pub low: i32,
    pub high: i32,
}

const ALL: Span = Span {
    low: i32::MIN,
    high: i32::MAX,
};

// What a branch behind a comparison asks.
fn asked(block: &Block) -> Option<Comparison>
    ensures { IfSome result (IsComparison block.now) }
{
    let count = block.code.len();
    if count == 0 {
        return None;
    }
    match (block.end, block.code[count - 1]) {
        (End::Branch(condition, _, _), VInstr::Cmp(one, other)) => Some(Comparison {
            one,
            condition,
            other,
        }),
        _ => None,
    }
}

// The condition that holds where this one doesn't, of those that tell something of signed numbers.
fn opposite(condition: Cond) -> Option<Cond>
    ensures { IfSome result (λ c. (a b : ℕ) → compares condition a b ≡ false →
        compares c a b ≡ true) }
{
    match condition {
        Cond::Ne => Some(Cond::E),
        Cond::L => Some(Cond::Ge),
        Cond::Ge => Some(Cond::L),
        Cond::Le => Some(Cond::G),
        Cond::G => Some(Cond::Le),
        _ => None,
    }
}

// The condition for the two numbers in the other order.
fn mirrored(condition: Cond) -> Option<Cond>
    ensures { IfSome result (λ c. (a b : ℕ) → compares condition a b ≡ true →
        compares c b a ≡ true) }
{
    match condition {
        Cond::E => Some(Cond::E),
        Cond::L => Some(Cond::G),
        Cond::Ge => Some(Cond::Le),
        Cond::Le => Some(Cond::Ge),
        Cond::G => Some(Cond::L),
        _ => None,
    }
}

// What the comparison tells on the arm where it does not hold.
fn failed(holds: Comparison) -> Option<Comparison>
    ensures { IfSome result (λ c. (kind : Kinds) (held : Words) →
        Compares kind held holds false → Compares kind held c true) }
{
    let condition = opposite(holds.condition)?;
    Some(Comparison {
        one: holds.one,
        condition,
        other: holds.other,
    })
}

// The same of the two variables in the other order.
fn turned(holds: Comparison) -> Option<Comparison>
    ensures { IfSome result (λ c. (kind : Kinds) (held : Words) →
        Compares kind held holds true → Compares kind held c true) }
{
    let condition = mirrored(holds.condition)?;
    Some(Comparison {
        one: holds.other,
        condition,
        other: holds.one,
    })
}

fn just_below(n: i32) -> i32
    ensures { (z : ℤ) → z <ℤ n → z ≤ℤ result }
{
    if n == i32::MIN { n } else { n - 1 }
}

fn just_above(n: i32) -> i32
    ensures { (z : ℤ) → n <ℤ z → result ≤ℤ z }
{
    if n == i32::MAX { n } else { n + 1 }
}

// Where a number lies that compares like this with one between two.
fn limits(condition: Cond, other: Span) -> Span
    ensures { (a b : ℕ) → compares condition a b ≡ true → IsWithin other b → IsWithin result a }
{
    let Span { low, high } = other;
    match condition {
        Cond::E => other,
        Cond::L => Span {
            low: i32::MIN,
            high: just_below(high),
        },
        Cond::Le => Span {
            low: i32::MIN,
            high,
        },
        Cond::G => Span {
            low: just_above(low),
            high: i32::MAX,
        },
        Cond::Ge => Span {
            low,
            high: i32::MAX,
        },
        _ => ALL,
    }
}

// Between which numbers the variable lies, as far as is known.
fn bounds(code: &VProc, known: &[Fact], v: VarId) -> Span
    ensures { (held : Words) (a : ℕ) → AllHold (kind_of code.now) held known.now →
        read (kind_of code.now) held v.0 ≡ Some (Num a) → IsWithin result a }
{
    match range(code, known, v) {
        Some(fact) => Span {
            low: fact.low,
            high: fact.high,
        },
        None => ALL,
    }
}

// Whether the variable is known to hold a word.
fn is_known(known: &[Fact], v: VarId) -> bool
    ensures { result ≡ true → (f : AFact) × Among f known.now × (f.var.0 ≡ v.0) }
{
    match find(known, v) {
        Some(_) => true,
        None => false,
    }
}

// What the comparison tells of its first variable, which is known to hold a word or holds one where
// it is not below 0.
fn told(code: &VProc, known: &[Fact], holds: Comparison) -> Option<Fact>
    ensures { IfSome result (λ f. (held : Words) → AllHold (kind_of code.now) held known.now →
        Compares (kind_of code.now) held holds true → AllHold (kind_of code.now) held (f ∷ [])) }
{
    let Span { low, high } = limits(holds.condition, bounds(code, known, holds.other));
    if low < 0 && !is_known(known, holds.one) {
        return None;
    }
    Some(narrowed(
        known,
        Fact {
            var: holds.one,
            low,
            high,
        },
    ))
}

// What is known where the comparison holds.
fn arm(
    alloc: Global,
    code: &VProc,
    wanted: &[bool],
    known: &[Fact],
    holds: Option<Comparison>,
) -> Result<Vec<Fact>, AllocError>
    ensures { IfOk result (λ new. (held : Words) → AllHold (kind_of code.now) held known.now →
        IfSome holds (λ c. Compares (kind_of code.now) held c true) →
        AllHold (kind_of code.now) held new.items) }
{
    let mut new = Vec::from_slice(alloc, known)?;
    let Some(holds) = holds else {
        return Ok(new);
    };
    learn(wanted, &mut new, told(code, known, holds))?;
    let Some(turned) = turned(holds) else {
        return Ok(new);
    };
    learn(wanted, &mut new, told(code, known, turned))?;
    Ok(new)
}

/// What is known on the ways out of a block, at whose end so much is known.
///
/// # Errors
///
/// Where there is no memory.
pub fn ways_out(
    alloc: Global,
    code: &VProc,
    wanted: &[bool],
    known: &[Fact],
    block: &Block,
) -> Result<Ways, AllocError>
    ensures { IfOk result (AreWays (kind_of code.now) block.now known.now) }
{
    let holds = asked(block);
    let fails = match holds {
        Some(holds) => failed(holds),
        None => None,
    };
    let one = arm(alloc, code, wanted, known, holds)?;
    let other = arm(alloc, code, wanted, known, fails)?;
    Ok(Ways { one, other })
}
