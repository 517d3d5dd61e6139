// What holds of a whole module. Each function is a law: its contract is the statement, and it does
// nothing.

ghost use Rattle.std.specs.Prelude.{◌≡◌, ℕ, ◌≤◌, ℤ, List, length, slice_get, Some, true};
ghost use Rattle.pra_base.specs.Agreement.{Carried};
ghost use Rattle.pra_base.specs.declared.code.VModule.{VModule};
ghost use Rattle.pra_base.specs.declared.code.VProc.{VProc};
ghost use Rattle.ob_mean.specs.Program.{around, mean};
ghost use Rattle.ob_mean.specs.declared.store.LiveCall.{LiveCall};
ghost use Rattle.ob_syntax.specs.declared.checked.Checked.{Checked};
ghost use Rattle.vc_build.specs.Runs.{Codes};
ghost use Rattle.vc_code.specs.Selected.{vrun, RunsWell};
ghost use Rattle.vc_same.specs.SameRuns.{SameRuns, with_procs};
ghost use Rattle.vc_stmt.specs.Calls.{CallsFollow};
ghost use Rattle.vc_stmt.specs.Completes.{are_words};
ghost use Rattle.vc_stmt.specs.Procedures.{AreEmbodied};
ghost use Rattle.vc_typed.specs.TypedModules.{IsSelectable};

/// Where each procedure may stand in the place of an old one, all of them together carry each run
/// of the old module that is never stuck, and are never stuck then.
pub fn procedures_are_replaced_together()
    ensures carried { (module_ : VModule) (news : List VProc) (frames : List ℕ)
        (input : List ℤ) → length news ≡ length module_.procs →
        ((p : ℕ) (old new : VProc) → slice_get module_.procs p ≡ Some old →
        slice_get news p ≡ Some new → SameRuns old new) →
        RunsWell module_ frames input →
        Carried (vrun module_ frames input) (vrun (with_procs module_ news) frames input) }
    ensures runs_well { (module_ : VModule) (news : List VProc) (frames : List ℕ)
        (input : List ℤ) → length news ≡ length module_.procs →
        ((p : ℕ) (old new : VProc) → slice_get module_.procs p ≡ Some old →
        slice_get news p ≡ Some new → SameRuns old new) →
        RunsWell module_ frames input → RunsWell (with_procs module_ news) frames input }
{}

/// Where the code of each procedure does what its statements mean if the calls in them do, all
/// calls do what they mean, however deep they stand.
pub fn calls_follow_their_meaning()
    ensures { (program : Checked) (w : Codes) (turns deeper least : ℕ) (calls : List LiveCall) →
        IsSelectable program → AreEmbodied program w.procs → least ≤ turns → least ≤ deeper →
        CallsFollow program w least (around program w.frames turns deeper calls) }
{}

/// And the code of the module carries each step of its meaning, for all frames and every input, and
/// is never stuck.
pub fn modules_follow_their_meaning()
    ensures carried { (program : Checked) (codes : List VProc) (frames : List ℕ)
        (input : List ℤ) → IsSelectable program → AreEmbodied program codes →
        are_words input ≡ true →
        Carried (mean program frames input)
        (vrun (record { procs = codes; data_words = program.data_words }) frames input) }
    ensures runs_well { (program : Checked) (codes : List VProc) (frames : List ℕ)
        (input : List ℤ) → IsSelectable program → AreEmbodied program codes →
        are_words input ≡ true →
        RunsWell (record { procs = codes; data_words = program.data_words }) frames input }
{}
