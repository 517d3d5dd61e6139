// What is known at a place of the code, while a block is gone through.

ghost use Rattle.std.specs.Prelude.{◌≡◌, ◌≢◌, ◌⊎◌, ℕ, ℤ, ◌≤ℤ◌, [], ◌∷◌, Some, None, IfSome, OnOk};
ghost use Rattle.std.specs.Prelude.{filter, true, false, bit_and};
ghost use Rattle.pra_list.specs.Among.{Among};
ghost use Rattle.pra_base.specs.Code.{kind_of};
ghost use Rattle.pra_base.specs.Operands.{writes, written_by};
ghost use Rattle.pra_base.specs.Words.{sum32, diff32};
ghost use Rattle.pra_base.specs.declared.code.VarKind.TheVariants.{Constant};
ghost use Rattle.pra_base.specs.declared.ids.VarId.{VarId as AVariable};
ghost use Rattle.vc_code.specs.Value.{Held};
ghost use Rattle.vc_code.specs.declared.value.Value.TheVariants.{Num};
ghost use Rattle.vc_checks.specs.declared.fact.Fact.{Fact as AFact};
ghost use Rattle.vc_checks.specs.Facts.{Bounds, CannotFail, Entail, Follow, IsBetween, IsIndex};
ghost use Rattle.vc_checks.specs.Facts.{IsPositive, Kinds, Know, is_other, listed};

use crate::fact::Fact;
use pra_base::{VInstr, VProc, VarId, VarKind};
use std::alloc::AllocError;

/// So many facts are known at one place at most. Of what there is more nothing is known.
const MAX_FACTS: usize = 32;

/// A fact of the variable.
pub fn find(known: &[Fact], v: VarId) -> Option<Fact>
    ensures { IfSome result (λ f. Among f known.now × (f.var.0 ≡ v.0)) }
{
    for fact in known {
        if fact.var.0 == v.0 {
            return Some(*fact);
        }
    }
    None
}

fn forget(known: &mut Vec<Fact>, v: VarId)
    ensures { known.new.items ≡ filter (is_other v.0) known.old.items }
{
    let mut k = 0;
    for i in 0..known.len() {
        if known[i].var.0 != v.0 {
            known.swap(k, i);
            k += 1;
        }
    }
    known.truncate(k);
}

// Whether it is worth to know something of the variable.
fn is_wanted(wanted: &[bool], v: VarId) -> bool {
    match wanted.get(v.0 as usize) {
        Some(is) => *is,
        None => false,
    }
}

/// One fact more, where there is one, in the place of those of its variable.
pub fn learn(wanted: &[bool], known: &mut Vec<Fact>, fact: Option<Fact>) -> Result<(), AllocError>
    ensures { OnOk result ((f : AFact) → Among f known.new.items →
        Among f known.old.items ⊎ (fact ≡ Some f)) }
{
    let Some(more) = fact else {
        return Ok(());
    };
    forget(known, more.var);
    if !is_wanted(wanted, more.var) || known.len() >= MAX_FACTS {
        return Ok(());
    }
    known.push(more)?;
    Ok(())
}

fn larger(a: i32, b: i32) -> i32
    ensures { (z : ℤ) → a ≤ℤ z → b ≤ℤ z → result ≤ℤ z }
{
    if a < b { b } else { a }
}

fn smaller(a: i32, b: i32) -> i32
    ensures { (z : ℤ) → z ≤ℤ a → z ≤ℤ b → z ≤ℤ result }
{
    if a < b { a } else { b }
}

// Two facts of one variable, as one.
fn joined(one: Fact, other: Fact) -> Fact
    requires { other.var.0 ≡ one.var.0 }
    ensures { (kind : Kinds) → Entail kind (one ∷ other ∷ []) (result ∷ []) }
{
    let low = larger(one.low, other.low);
    let high = smaller(one.high, other.high);
    Fact {
        var: one.var,
        low,
        high,
    }
}

/// A fact, with what is known of its variable.
pub fn narrowed(known: &[Fact], fact: Fact) -> Fact
    ensures { (kind : Kinds) → Entail kind (fact ∷ known.now) (result ∷ []) }
{
    match find(known, fact.var) {
        Some(old) => joined(fact, old),
        None => fact,
    }
}

fn constant(code: &VProc, v: VarId) -> Option<i32>
    ensures some { IfSome result (λ n. kind_of code.now v.0 ≡ Constant n) }
    ensures none { result ≡ None → (n : ℤ) → kind_of code.now v.0 ≢ Constant n }
{
    match code.vars.get(v.0 as usize) {
        Some(VarKind::Constant(n)) => Some(*n),
        _ => None,
    }
}

/// What is known of a variable, also where it is a constant.
pub fn range(code: &VProc, known: &[Fact], v: VarId) -> Option<Fact>
    ensures { IfSome result (λ f.
        Know (kind_of code.now) known.now v.0 (IsBetween f.low f.high)) }
{
    match constant(code, v) {
        Some(n) => Some(Fact {
            var: v,
            low: n,
            high: n,
        }),
        None => find(known, v),
    }
}

fn fits_index(fact: Fact, limit: i32) -> bool
    ensures { result ≡ true → (h : Held) → IsBetween fact.low fact.high h → IsIndex limit h }
{
    0 <= fact.low && fact.high < limit
}

fn fits_divisor(fact: Fact) -> bool
    ensures { result ≡ true → (h : Held) → IsBetween fact.low fact.high h → IsPositive h }
{
    0 < fact.low
}

/// Whether the instruction is a check that cannot fail by what is known.
pub fn cannot_fail(code: &VProc, known: &[Fact], instr: VInstr) -> bool
    ensures { result ≡ true → CannotFail (kind_of code.now) known.now instr }
{
    match instr {
        VInstr::Check(v, limit) => match range(code, known, v) {
            Some(fact) => fits_index(fact, limit),
            None => false,
        },
        VInstr::CheckPos(v) => match range(code, known, v) {
            Some(fact) => fits_divisor(fact),
            None => false,
        },
        _ => false,
    }
}

// The fact, unless it is of a constant.
fn changing(code: &VProc, fact: Fact) -> Option<Fact>
    ensures is { IfSome result (λ f. f ≡ fact) }
    ensures changes { IfSome result (λ f. (n : ℤ) → kind_of code.now fact.var.0 ≢ Constant n) }
{
    match constant(code, fact.var) {
        Some(_) => None,
        None => Some(fact),
    }
}

// What is known of a sum, unless it may wrap.
fn sum(var: VarId, one: Fact, other: Fact) -> Option<Fact>
    ensures { IfSome result (λ f. f.var ≡ var × Bounds sum32 one other f) }
{
    let low = one.low.checked_add(other.low)?;
    let high = one.high.checked_add(other.high)?;
    Some(Fact { var, low, high })
}

// What is known of a difference, unless it may wrap.
fn difference(var: VarId, one: Fact, other: Fact) -> Option<Fact>
    ensures { IfSome result (λ f. f.var ≡ var × Bounds diff32 one other f) }
{
    let low = one.low.checked_sub(other.high)?;
    let high = one.high.checked_sub(other.low)?;
    Some(Fact { var, low, high })
}

// What is known of the bits that a number has in common with one that has no sign.
fn common_bits(var: VarId, other: Fact) -> Option<Fact>
    ensures { IfSome result (λ f. f.var ≡ var × ((a b : ℕ) →
        IsBetween other.low other.high (Some (Num b)) →
        IsBetween f.low f.high (Some (Num (bit_and a b))))) }
{
    if other.low < 0 {
        return None;
    }
    Some(Fact {
        var,
        low: 0,
        high: other.high,
    })
}

// What is known of two variables, also where they are constants.
fn ranges(code: &VProc, known: &[Fact], v: VarId, s: VarId) -> Option<(Fact, Fact)>
    ensures { IfSome result (λ both.
        Know (kind_of code.now) known.now v.0 (IsBetween both.0.low both.0.high) ×
        Know (kind_of code.now) known.now s.0 (IsBetween both.1.low both.1.high)) }
{
    let one = range(code, known, v)?;
    let other = range(code, known, s)?;
    Some((one, other))
}

// What an operation tells of its result by what is known of its operands.
fn computed(code: &VProc, known: &[Fact], instr: VInstr) -> Option<Fact>
    ensures { IfSome result (λ f. Follow (kind_of code.now) instr known.now (f ∷ [])) }
{
    let fact = match instr {
        VInstr::Add(v, s) => {
            let (one, other) = ranges(code, known, v, s)?;
            sum(v, one, other)?
        }
        VInstr::Sub(v, s) => {
            let (one, other) = ranges(code, known, v, s)?;
            difference(v, one, other)?
        }
        VInstr::And(v, s) => {
            let other = range(code, known, s)?;
            common_bits(v, other)?
        }
        _ => return None,
    };
    changing(code, fact)
}

// What the instruction tells of a variable.
fn told(code: &VProc, known: &[Fact], instr: VInstr) -> Option<Fact>
    ensures { IfSome result (λ f. Follow (kind_of code.now) instr known.now (f ∷ [])) }
{
    match instr {
        VInstr::Set(v, n) => changing(
            code,
            Fact {
                var: v,
                low: n,
                high: n,
            },
        ),
        VInstr::Copy(v, s) => match range(code, known, s) {
            Some(fact) => changing(
                code,
                Fact {
                    var: v,
                    low: fact.low,
                    high: fact.high,
                },
            ),
            None => None,
        },
        VInstr::Check(v, limit) => {
            if limit <= 0 {
                return None;
            }
            Some(narrowed(
                known,
                Fact {
                    var: v,
                    low: 0,
                    high: limit - 1,
                },
            ))
        }
        VInstr::CheckPos(v) => Some(narrowed(
            known,
            Fact {
                var: v,
                low: 1,
                high: i32::MAX,
            },
        )),
        _ => computed(code, known, instr),
    }
}

// The variables that an instruction writes.
fn results(instr: VInstr) -> (Option<VarId>, Option<VarId>)
    ensures { listed result ≡ written_by instr }
{
    match instr {
        VInstr::Set(v, _) => (Some(v), None),
        VInstr::Copy(v, _) => (Some(v), None),
        VInstr::Add(v, _) => (Some(v), None),
        VInstr::Sub(v, _) => (Some(v), None),
        VInstr::And(v, _) => (Some(v), None),
        VInstr::Or(v, _) => (Some(v), None),
        VInstr::Xor(v, _) => (Some(v), None),
        VInstr::Mul(v, _) => (Some(v), None),
        VInstr::Neg(v) => (Some(v), None),
        VInstr::Shift(_, v, _) => (Some(v), None),
        VInstr::CmpSet(_, v, _, _) => (Some(v), None),
        VInstr::DivMod(q, r, _, _) => (Some(q), Some(r)),
        VInstr::Load(v, _) => (Some(v), None),
        VInstr::Addr(v, _) => (Some(v), None),
        VInstr::Read(v) => (Some(v), None),
        _ => (None, None),
    }
}

fn forget_some(known: &mut Vec<Fact>, variable: Option<VarId>)
    ensures { (f : AFact) → Among f known.new.items →
        Among f known.old.items × ((v : AVariable) → variable ≡ Some v → f.var.0 ≢ v.0) }
{
    if let Some(v) = variable {
        forget(known, v);
    }
}

// Nothing is known of what the instruction writes.
fn forget_results(known: &mut Vec<Fact>, instr: VInstr)
    ensures { (f : AFact) → Among f known.new.items →
        Among f known.old.items × (writes instr f.var.0 ≡ false) }
{
    let (one, other) = results(instr);
    forget_some(known, one);
    forget_some(known, other);
}

/// From what is known before an instruction to what is known behind it.
///
/// # Errors
///
/// Where there is no memory; what is known is of no use then.
pub fn pass(
    code: &VProc,
    wanted: &[bool],
    known: &mut Vec<Fact>,
    instr: VInstr,
) -> Result<(), AllocError>
    ensures { OnOk result
        (Follow (kind_of code.now) instr known.old.items known.new.items) }
{
    let news = told(code, known.as_slice(), instr);
    forget_results(known, instr);
    learn(wanted, known, news)?;
    Ok(())
}
