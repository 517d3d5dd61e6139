// Which variables meet: where an instruction has both, or overwrites one while the other is live
// behind it, and is no copy between the two. That a variable is only read where the other is live
// keeps them not apart, since then they are equal.

ghost use Rattle.std.specs.Prelude.{◌≡◌, ℕ, ◌<◌, ◌⊎◌, ◌||◌, false, true, All, Contains};
ghost use Rattle.pra_base.specs.Valid.{most_instructions};
ghost use Rattle.vc_live.specs.Equations.{named_in};
ghost use Rattle.vc_tidy.specs.Joined.{HasPlaces, IsJoinable, IsKnown, Meets, MeetsAt, NoneMeet};
ghost use Rattle.vc_tidy.specs.Joined.{SomeMeet, is_dividend, is_met};
ghost use Rattle.vc_tidy.specs.Tidy.{is_between};

use crate::places::Place;
use pra_base::{BlockId, VInstr, VProc, VarId};
use pra_list::Seq;
use vc_code::{OperandRow, Role, operands};
use vc_live::Liveness;

fn is_in(roles: &[Role], v: u32) -> bool
    ensures { result ≡ named_in roles.now v }
{
    for role in roles {
        if role.var.0 == v {
            return true;
        }
    }
    false
}

fn is_in_row(row: &OperandRow, v: u32) -> bool
    ensures { result ≡ (named_in row.now.reads.items v || named_in row.now.writes.items v) }
{
    is_in(row.reads.as_slice(), v) || is_in(row.writes.as_slice(), v)
}

// Whether the instruction copies one variable to the other or back.
fn is_between(v: u32, w: u32, instr: VInstr) -> bool
    ensures { result ≡ is_between v w instr }
{
    match instr {
        VInstr::Copy(t, s) => (t.0 == v && s.0 == w) || (t.0 == w && s.0 == v),
        _ => false,
    }
}

// Whether the instruction divides the variable. Placed code leaves nothing in the dividend's place.
fn is_dividend(instr: VInstr, v: u32) -> bool
    ensures { result ≡ is_dividend instr v }
{
    match instr {
        VInstr::DivMod(_, _, a, _) => a.0 == v,
        _ => false,
    }
}

// Whether the second variable is had by the instruction at the place, or is live behind it where
// that overwrites the first one. A copy between the two is none.
fn is_met(
    liveness: &Liveness,
    instr: VInstr,
    row: &OperandRow,
    place: Place,
    v: u32,
    w: u32,
) -> bool
    requires { place.index < most_instructions }
    ensures { result ≡ is_met liveness.now instr row.now place.block place.index v w }
{
    if is_between(v, w, instr) {
        return false;
    }
    if is_in_row(row, w) {
        return true;
    }
    let overwritten = is_in(row.writes.as_slice(), v) || is_dividend(instr, v);
    overwritten && liveness.at(VarId(w), BlockId(place.block), 2 * place.index + 2)
}

// Whether a variable meets one of the others at a place.
fn meets_at(code: &VProc, liveness: &Liveness, place: Place, v: u32, others: &[u32]) -> bool
    requires known { IsKnown code.now liveness.now }
    requires others { All (IsJoinable code.now) others.now }
    ensures some { result ≡ true → (w : ℕ) × Contains others.now w × Meets code.now v w }
    ensures none { result ≡ false →
        All (λ w. MeetsAt code.now place.block place.index v w → ⊥) others.now }
{
    let b = place.block as usize;
    let k = place.index as usize;
    if b >= code.blocks.len() {
        return false;
    }
    let instrs = code.blocks[b].code.as_slice();
    if k >= instrs.len() {
        return false;
    }
    let instr = instrs[k];
    let row = operands(&instr);
    if !is_in_row(&row, v) {
        return false;
    }
    for w in others {
        if is_met(liveness, instr, &row, place, v, *w) {
            return true;
        }
    }
    false
}

// Whether a variable meets one of the others at one of its places.
fn meets(code: &VProc, liveness: &Liveness, places: &[Place], v: u32, others: &[u32]) -> bool
    requires known { IsKnown code.now liveness.now }
    requires others { All (IsJoinable code.now) others.now }
    ensures some { result ≡ true → (w : ℕ) × Contains others.now w × Meets code.now v w }
    ensures none { result ≡ false →
        All (λ p. All (λ w. MeetsAt code.now p.block p.index v w → ⊥) others.now) places.now }
{
    for place in places {
        if meets_at(code, liveness, *place, v, others) {
            return true;
        }
    }
    false
}

// Whether a variable of one group meets one of the other.
fn groups_meet(
    code: &VProc,
    liveness: &Liveness,
    places: &[Seq<Place>],
    one: &[u32],
    other: &[u32],
) -> bool
    requires known { IsKnown code.now liveness.now }
    requires places { HasPlaces code.now places.now }
    requires one { All (IsJoinable code.now) one.now }
    requires other { All (IsJoinable code.now) other.now }
    ensures some { result ≡ true → SomeMeet code.now one.now other.now }
    ensures none { result ≡ false → NoneMeet code.now one.now other.now }
{
    for v in one {
        let at = *v as usize;
        if at >= places.len() {
            continue;
        }
        if meets(code, liveness, places[at].as_slice(), *v, other) {
            return true;
        }
    }
    false
}

/// Whether a variable of one group and one of the other meet.
pub fn either_meets(
    code: &VProc,
    liveness: &Liveness,
    places: &[Seq<Place>],
    one: &[u32],
    other: &[u32],
) -> bool
    requires known { IsKnown code.now liveness.now }
    requires places { HasPlaces code.now places.now }
    requires one { All (IsJoinable code.now) one.now }
    requires other { All (IsJoinable code.now) other.now }
    ensures some { result ≡ true →
        SomeMeet code.now one.now other.now ⊎ SomeMeet code.now other.now one.now }
    ensures there { result ≡ false → NoneMeet code.now one.now other.now }
    ensures back { result ≡ false → NoneMeet code.now other.now one.now }
{
    if groups_meet(code, liveness, places, one, other) {
        return true;
    }
    groups_meet(code, liveness, places, other, one)
}
