// What placed code of admitted routes does. Each function is a law: its contract is the statement,
// and it does nothing.

ghost use Rattle.std.specs.Prelude.{◌≢◌, ℕ, ℤ, List, Some, map};
ghost use Rattle.pra_base.specs.Agreement.{Carried, ReachesUntil};
ghost use Rattle.pra_base.specs.RunEnd.{Wrong};
ghost use Rattle.pra_base.specs.declared.code.VModule.{VModule};
ghost use Rattle.pra_base.specs.declared.code.VProc.{VProc};
ghost use Rattle.vc_code.specs.Selected.{vrun, RunsWell};
ghost use Rattle.pl_place.specs.declared.placed.LProc.{LProc};
ghost use Rattle.pl_place.specs.Machine.{lrun};
ghost use Rattle.pl_place.specs.Placed.{frame_size};
ghost use Rattle.pl_simulation.specs.Correspondence.{AllCorrespond};
ghost use Rattle.pl_routed.specs.Routed.{AreRouted};

/// Valid placed code that has admitted routes of the network behind it corresponds to the code.
pub fn routed_code_corresponds()
    ensures { (codes : List VProc) (procs : List LProc) → AreRouted codes procs →
        AllCorrespond codes procs }
{}

/// So it carries the steps of the selected code with the frames that it has, for any admitted
/// routes and every input, where the selected code is never stuck; and then it is never stuck
/// either. Code that may get stuck is followed until then.
pub fn placement_follows()
    ensures carried { (module_ : VModule) (procs : List LProc) (input : List ℤ) →
        AreRouted module_.procs procs → RunsWell module_ (map frame_size procs) input →
        Carried (vrun module_ (map frame_size procs) input)
        (lrun procs module_.data_words input) }
    ensures never_stuck { (module_ : VModule) (procs : List LProc) (input : List ℤ) →
        AreRouted module_.procs procs → RunsWell module_ (map frame_size procs) input →
        (k : ℕ) → (lrun procs module_.data_words input k).ending ≢ Some Wrong }
    ensures until { (module_ : VModule) (procs : List LProc) (input : List ℤ) →
        AreRouted module_.procs procs →
        ReachesUntil Wrong (vrun module_ (map frame_size procs) input)
        (lrun procs module_.data_words input) }
{}
