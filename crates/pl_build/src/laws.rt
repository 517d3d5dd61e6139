// What holds of placed code that was made of admitted routes. Each function is a law: its contract
// is the statement, and it does nothing.

ghost use Rattle.std.specs.Prelude.{◌≢◌, ◌≤◌, ℕ, ℤ, List, [], ◌∷◌, Some, map, sum_by};
ghost use Rattle.pra_base.specs.Agreement.{Carried};
ghost use Rattle.pra_base.specs.RunEnd.{Wrong};
ghost use Rattle.pra_base.specs.declared.code.VModule.{VModule};
ghost use Rattle.pra_base.specs.declared.code.VProc.{VProc};
ghost use Rattle.vc_code.specs.Selected.{vrun, RunsWell};
ghost use Rattle.net_cost.specs.Weights.{size_weights};
ghost use Rattle.net_form.specs.declared.net.Net.{Net};
ghost use Rattle.net_form.specs.declared.routes.Routes.{Routes};
ghost use Rattle.net_form.specs.Admitted.{IsAdmitted};
ghost use Rattle.net_form.specs.Cost.{way_cost};
ghost use Rattle.net_form.specs.Examples.{set_add_write};
ghost use Rattle.net_form.specs.Flow.{flow, AreRoutes};
ghost use Rattle.net_form.specs.Network.{IsNet};
ghost use Rattle.net_form.specs.Tables.{all_tables};
ghost use Rattle.pl_moves.specs.Lengths.{move_bytes};
ghost use Rattle.pl_place.specs.declared.placed.LProc.{LProc};
ghost use Rattle.pl_place.specs.Machine.{lrun};
ghost use Rattle.pl_place.specs.Placed.{frame_size};
ghost use Rattle.pl_place.specs.SampleRoutes.{in_memory};
ghost use Rattle.pl_routed.specs.Routed.{routed, AreRouted};
ghost use Rattle.pl_made.specs.Made.{IsMade};
ghost use Rattle.pl_build.specs.Placement.{ArePlacements, moves_of};

/// What `place` answers for the procedures of a module is valid placed code together, behind which
/// stand the code and admitted routes.
pub fn placements_are_routed()
    ensures { (codes : List VProc) (procs : List LProc) → ArePlacements codes procs →
        AreRouted codes procs }
{}

/// So it carries the steps of the selected code with the frames that it has, for every input, where
/// the selected code is never stuck; and then it is never stuck either.
pub fn placements_follow()
    ensures carried { (module_ : VModule) (procs : List LProc) (input : List ℤ) →
        ArePlacements module_.procs procs → RunsWell module_ (map frame_size procs) input →
        Carried (vrun module_ (map frame_size procs) input)
        (lrun procs module_.data_words input) }
    ensures never_stuck { (module_ : VModule) (procs : List LProc) (input : List ℤ) →
        ArePlacements module_.procs procs → RunsWell module_ (map frame_size procs) input →
        (k : ℕ) → (lrun procs module_.data_words input k).ending ≢ Some Wrong }
{}

/// All moves of a procedure together have at most so many bytes as the ways of the flow's edges
/// weigh by size.
pub fn all_moves_are_paid()
    ensures { (code : VProc) (net : Net) (routes : Routes) (p : LProc) → IsNet net code →
        AreRoutes net routes → IsAdmitted net (flow net routes) →
        IsMade (routed code net routes) p →
        sum_by (move_bytes p.near) (moves_of p)
        ≤ sum_by (way_cost all_tables net size_weights) (flow net routes) }
{}

/// Some code was placed: with a variable in memory, a constant as an immediate, and a both place.
/// So the premises of these laws can be met.
pub fn some_code_was_placed()
    ensures { ArePlacements (set_add_write ∷ []) (in_memory ∷ []) }
{}
