// What holds of reduced code. Each function is a law: its contract is the statement, and it does
// nothing.

ghost use Rattle.std.specs.Prelude.{◌≡◌, ℕ, ℤ, List, slice_get, Some};
ghost use Rattle.pra_base.specs.Agreement.{Agree, Carried};
ghost use Rattle.pra_base.specs.Valid.{IsValid, IsSized};
ghost use Rattle.pra_base.specs.declared.code.VProc.{VProc};
ghost use Rattle.pra_base.specs.declared.code.VModule.{VModule};
ghost use Rattle.vc_code.specs.Selected.{vrun, RunsWell};
ghost use Rattle.vc_same.specs.Renaming.{Names};
ghost use Rattle.vc_same.specs.Reduction.{AllReduced, ParamsApart, Reduced};
ghost use Rattle.vc_same.specs.SameRuns.{Preserves, SameRuns, with_proc, with_procs};

/// Where all procedures of a module are reduced, their runs carry each run that is never stuck, and
/// are then never stuck either.
pub fn reduced_code_carries()
    ensures carried { (module_ : VModule) (news : List VProc) (to : ℕ → Names)
        (frames : List ℕ) (input : List ℤ) → AllReduced to module_.procs news →
        RunsWell module_ frames input →
        Carried (vrun module_ frames input) (vrun (with_procs module_ news) frames input) }
    ensures runs_well { (module_ : VModule) (news : List VProc) (to : ℕ → Names)
        (frames : List ℕ) (input : List ℤ) → AllReduced to module_.procs news →
        RunsWell module_ frames input → RunsWell (with_procs module_ news) frames input }
{}

/// Reduced code may stand in the place of valid and sized code, if no two of its variables stand
/// for one argument.
pub fn reduced_code_preserves()
    ensures { (to : Names) (old new : VProc) → Reduced to old new → ParamsApart new →
        IsValid old → IsSized old → Preserves old new }
{}

/// What may stand in the place of other code, one after the other.
pub fn preserving_composes()
    ensures itself { (code : VProc) → IsValid code → IsSized code → Preserves code code }
    ensures then_on { (a b c : VProc) → Preserves a b → Preserves b c → Preserves a c }
{}

/// Code in the place of other code agrees with it both ways: the same endings, events and words
/// taken, and it goes on where that goes on.
pub fn same_runs_agree()
    ensures { (old new : VProc) → SameRuns old new →
        (module_ : VModule) (p : ℕ) (frames : List ℕ) (input : List ℤ) →
        slice_get module_.procs p ≡ Some old → RunsWell module_ frames input →
        Agree (vrun module_ frames input) (vrun (with_proc module_ p new) frames input) }
{}
