// What admitted routes give a placement, and placed code as a placement makes it. Each function is
// a law: its contract is the statement, and it does nothing.

ghost use Rattle.std.specs.Prelude.{◌+◌, ◌*◌, ◌≤◌, ℕ, IsTrue, sum_by};
ghost use Rattle.pra_base.specs.declared.code.VProc.{VProc};
ghost use Rattle.pra_base.specs.Valid.{IsSized, IsValid};
ghost use Rattle.net_form.specs.declared.net.Net.{Net};
ghost use Rattle.net_form.specs.declared.routes.Routes.{Routes};
ghost use Rattle.net_form.specs.Admitted.{IsAdmitted};
ghost use Rattle.net_form.specs.Flow.{flow, AreRoutes};
ghost use Rattle.net_form.specs.Network.{IsNet};
ghost use Rattle.pl_moves.specs.Assignment.{can_move};
ghost use Rattle.pl_moves.specs.Crossbar.{most_moves};
ghost use Rattle.pl_place.specs.declared.placed.LProc.{LProc};
ghost use Rattle.pl_place.specs.Behind.{Routed, IsBehind, pairs_at};
ghost use Rattle.pl_place.specs.SampleRoutes.{both_places_routes, in_memory, routed as sample};
ghost use Rattle.pl_place.specs.Valid.{IsPlaced, most_moves_before};
ghost use Rattle.pl_routed.specs.Routed.{routed};
ghost use Rattle.pl_made.specs.Made.{IsMade};

/// The code and the flow stand behind placed code that was made of them.
pub fn made_code_is_behind()
    ensures { (r : Routed) (p : LProc) → IsMade r p → IsBehind r p }
{}

/// Placed code that was made of valid and sized code and admitted routes of its network is valid.
pub fn made_code_is_placed()
    ensures { (code : VProc) (net : Net) (routes : Routes) (p : LProc) → IsNet net code →
        AreRoutes net routes → IsAdmitted net (flow net routes) → IsValid code → IsSized code →
        IsMade (routed code net routes) p → IsPlaced p }
{}

/// Some code is made: with a variable in memory, a constant as an immediate, and a both place.
pub fn some_code_is_made()
    ensures { IsMade (sample both_places_routes) in_memory }
{}

/// The pairs of a layer before an instruction, or before an end, can be moved at once.
pub fn layers_can_move()
    ensures { (code : VProc) (net : Net) (routes : Routes) → IsNet net code →
        AreRoutes net routes → IsAdmitted net (flow net routes) →
        (b k : ℕ) → IsTrue (can_move (pairs_at (routed code net routes) b (2 * k + 1))) }
{}

/// They need no more moves than may stand there, since each pair that moves uses a register that no
/// other pair comes from, or one that no other pair comes to.
pub fn layers_need_few_moves()
    ensures { (code : VProc) (net : Net) (routes : Routes) → IsNet net code →
        AreRoutes net routes → IsAdmitted net (flow net routes) → (b k : ℕ) →
        sum_by most_moves (pairs_at (routed code net routes) b (2 * k + 1))
        ≤ most_moves_before }
{}
