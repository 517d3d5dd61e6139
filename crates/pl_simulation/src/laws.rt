// What correspondence gives. Each function is a law: its contract is the statement, and it does
// nothing.

ghost use Rattle.std.specs.Prelude.{◌≡◌, ◌≢◌, ◌∷◌, [], ℕ, ℤ, List, Some, map};
ghost use Rattle.pra_base.specs.Agreement.{Carried, ReachesUntil};
ghost use Rattle.pra_base.specs.RunEnd.{Wrong};
ghost use Rattle.pra_base.specs.declared.code.VModule.{VModule};
ghost use Rattle.net_form.specs.Examples.{set_add_write};
ghost use Rattle.vc_code.specs.Selected.{vrun, RunsWell};
ghost use Rattle.pl_place.specs.declared.placed.LProc.{LProc};
ghost use Rattle.pl_place.specs.Machine.{lrun};
ghost use Rattle.pl_place.specs.Placed.{frame_size};
ghost use Rattle.pl_place.specs.SampleRoutes.{in_memory};
ghost use Rattle.pl_simulation.specs.Correspondence.{AllCorrespond};

/// Placed code carries the steps of the selected code that it corresponds to, with the frames that
/// it has, where the selected code is never stuck; and then it is never stuck either. Code that may
/// get stuck is followed until then.
pub fn placed_code_carries()
    ensures carried { (module_ : VModule) (procs : List LProc) (input : List ℤ) →
        AllCorrespond module_.procs procs → RunsWell module_ (map frame_size procs) input →
        Carried (vrun module_ (map frame_size procs) input)
        (lrun procs module_.data_words input) }
    ensures never_stuck { (module_ : VModule) (procs : List LProc) (input : List ℤ) →
        AllCorrespond module_.procs procs → RunsWell module_ (map frame_size procs) input →
        (k : ℕ) → (lrun procs module_.data_words input k).ending ≢ Some Wrong }
    ensures until { (module_ : VModule) (procs : List LProc) (input : List ℤ) →
        AllCorrespond module_.procs procs →
        ReachesUntil Wrong (vrun module_ (map frame_size procs) input)
        (lrun procs module_.data_words input) }
{}

/// Some code corresponds: with a variable in memory, a constant as an immediate, and a both place.
pub fn some_code_corresponds()
    ensures { AllCorrespond (set_add_write ∷ []) (in_memory ∷ []) }
{}
