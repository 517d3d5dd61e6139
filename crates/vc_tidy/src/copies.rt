// Joining variables that are copied into each other.

ghost use Rattle.std.specs.Prelude.{◌≡◌, ◌≢◌, ℕ, ◌<◌, length, IfOk, MatchOption, true, false};
ghost use Rattle.vc_tidy.specs.Joined.{AreAlone, AreClasses, AreTried, HasPlaces, IsFound};
ghost use Rattle.vc_tidy.specs.Joined.{AreJoined, IsJoinable, IsJoined, IsKnown, IsNoCopy, IsPlain};
ghost use Rattle.vc_tidy.specs.Joined.{is_joined, name};
ghost use Rattle.vc_tidy.specs.Tidy.{AreApart, CanMerge, NoCopy, NoCopyAt};

use crate::classes::{Classes, all_alone};
use crate::join::joined_code;
use crate::meets::either_meets;
use crate::places::{Place, all_places};
use pra_base::{VInstr, VProc, VarKind};
use pra_list::Seq;
use std::alloc::{AllocError, Global};
use vc_live::Liveness;

fn is_plain(code: &VProc, v: u32) -> bool
    ensures plain { result ≡ true → IsPlain code.now v }
    ensures other { result ≡ false → IsPlain code.now v → ⊥ }
{
    let at = v as usize;
    if at >= code.vars.len() {
        return false;
    }
    match code.vars[at] {
        VarKind::Plain => true,
        _ => false,
    }
}

// Whether a variable is Plain or an argument's.
fn is_joinable(code: &VProc, v: u32) -> bool
    ensures joinable { result ≡ true → IsJoinable code.now v }
    ensures other { result ≡ false → IsJoinable code.now v → ⊥ }
{
    let at = v as usize;
    if at >= code.vars.len() {
        return false;
    }
    match code.vars[at] {
        VarKind::Constant(_) => false,
        _ => true,
    }
}

// Joins two classes under the name of the first one, if that may vary, the second one is named by a
// Plain variable, and no members meet. Says whether it has.
fn join_classes(
    alloc: Global,
    classes: &mut Classes,
    code: &VProc,
    liveness: &Liveness,
    places: &[Seq<Place>],
    to: u32,
    from: u32,
) -> Result<bool, AllocError>
    requires known { IsKnown code.now liveness.now }
    requires places { HasPlaces code.now places.now }
    requires classes { AreClasses code.now classes.old }
    ensures classes { IfOk result (λ joined. AreClasses code.now classes.new) }
    ensures joined { IfOk result (λ joined. joined ≡ true → AreJoined classes.old classes.new to from) }
    ensures same { IfOk result (λ joined. joined ≡ false → classes.new ≡ classes.old) }
    ensures apart { IfOk result (λ joined. joined ≡ false → AreAlone code.now classes.old →
        to ≢ from → IsJoinable code.now to → IsPlain code.now from →
        AreApart code.now to from → ⊥) }
{
    if to == from {
        return Ok(false);
    }
    if !is_joinable(code, to) {
        return Ok(false);
    }
    if !is_plain(code, from) {
        return Ok(false);
    }
    let first = classes.groups[to as usize].as_slice();
    let second = classes.groups[from as usize].as_slice();
    if either_meets(code, liveness, places, first, second) {
        return Ok(false);
    }
    classes.join(alloc, to, from)?;
    Ok(true)
}

// Joins the classes of two variables where they may be one, and says whether it has. An argument's
// number stays the name of its class.
fn join_pair(
    alloc: Global,
    classes: &mut Classes,
    code: &VProc,
    liveness: &Liveness,
    places: &[Seq<Place>],
    t: u32,
    s: u32,
) -> Result<bool, AllocError>
    requires known { IsKnown code.now liveness.now }
    requires places { HasPlaces code.now places.now }
    requires classes { AreClasses code.now classes.old }
    ensures classes { IfOk result (λ joined. AreClasses code.now classes.new) }
    ensures joined { IfOk result (λ joined. joined ≡ true →
        name classes.new.names.items t ≡ name classes.new.names.items s) }
    ensures same { IfOk result (λ joined. joined ≡ false → classes.new ≡ classes.old) }
    ensures apart { IfOk result (λ joined. joined ≡ false → AreAlone code.now classes.old → t ≢ s →
        t < length code.now.vars → s < length code.now.vars → CanMerge code.now t s →
        AreApart code.now t s → ⊥) }
{
    let count = classes.names.len();
    if t as usize >= count {
        return Ok(false);
    }
    if s as usize >= count {
        return Ok(false);
    }
    let one = classes.names[t as usize];
    let other = classes.names[s as usize];
    if is_plain(code, other) {
        let joined = join_classes(alloc, classes, code, liveness, places, one, other)?;
        return Ok(joined);
    }
    let joined = join_classes(alloc, classes, code, liveness, places, other, one)?;
    Ok(joined)
}

fn try_instr(
    alloc: Global,
    classes: &mut Classes,
    code: &VProc,
    liveness: &Liveness,
    places: &[Seq<Place>],
    instr: VInstr,
) -> Result<bool, AllocError>
    requires known { IsKnown code.now liveness.now }
    requires places { HasPlaces code.now places.now }
    requires classes { AreClasses code.now classes.old }
    ensures classes { IfOk result (λ joined. AreClasses code.now classes.new) }
    ensures joined { IfOk result (λ joined. joined ≡ true →
        is_joined classes.new.names.items instr ≡ true) }
    ensures same { IfOk result (λ joined. joined ≡ false → classes.new ≡ classes.old) }
    ensures apart { IfOk result (λ joined. joined ≡ false → AreAlone code.now classes.old →
        IsNoCopy code.now instr) }
{
    match instr {
        VInstr::Copy(t, s) => join_pair(alloc, classes, code, liveness, places, t.0, s.0),
        _ => Ok(false),
    }
}

// Tries the copies of a block, and says whether any copy has been joined.
fn try_block(
    alloc: Global,
    classes: &mut Classes,
    code: &VProc,
    liveness: &Liveness,
    places: &[Seq<Place>],
    block: usize,
    joined: bool,
) -> Result<bool, AllocError>
    requires block { block < length code.now.blocks }
    requires known { IsKnown code.now liveness.now }
    requires places { HasPlaces code.now places.now }
    requires tried { AreTried code.now classes.old joined }
    ensures tried { IfOk result (λ now. AreTried code.now classes.new now) }
    ensures before { IfOk result (λ now. now ≡ false → joined ≡ false) }
    ensures none { IfOk result (λ now. now ≡ false → (k : ℕ) → NoCopyAt code.now block k) }
{
    let mut now = joined;
    for instr in code.blocks[block].code.as_slice() {
        let tried = try_instr(alloc, classes, code, liveness, places, *instr)?;
        if tried {
            now = true;
            continue;
        }
    }
    Ok(now)
}

// Names under which variables that are copied into each other are one, or nothing where no two can
// be one.
fn choose(alloc: Global, code: &VProc, liveness: &Liveness) -> Result<Option<Vec<u32>>, AllocError>
    requires { IsKnown code.now liveness.now }
    ensures { IfOk result (λ found.
        MatchOption found (NoCopy code.now) (λ names. IsFound code.now names.items)) }
{
    let places = all_places(alloc, code)?;
    let mut classes = all_alone(alloc, code)?;
    let mut joined = false;
    for b in 0..code.blocks.len() {
        let now = try_block(
            alloc,
            &mut classes,
            code,
            liveness,
            places.as_slice(),
            b,
            joined,
        )?;
        joined = now;
    }
    if joined {
        let Classes { names, .. } = classes;
        return Ok(Some(names));
    }
    Ok(None)
}

/// The code with variables joined that are copied into each other, or nothing where no two can be
/// one.
pub fn join(alloc: Global, code: &VProc, liveness: &Liveness) -> Result<Option<VProc>, AllocError>
    requires { IsKnown code.now liveness.now }
    ensures { IfOk result (λ new. IsJoined code.now new) }
{
    let Some(names) = choose(alloc, code, liveness)? else {
        return Ok(None);
    };
    let vars = Seq::from_slice(alloc, code.vars.as_slice())?;
    let new = joined_code(alloc, names.as_slice(), vars, code)?;
    Ok(Some(new))
}
