// What holds of placed code and its machine. Each function is a law: its contract is the statement,
// and it does nothing.

ghost use Rattle.std.specs.Prelude.{◌≡◌, ◌≤◌, ℕ, ℤ, Bool, List, sum_by};
ghost use Rattle.pra_base.specs.Agreement.{Keeps};
ghost use Rattle.pl_place.specs.declared.placed.LProc.{LProc};
ghost use Rattle.net_cost.specs.Weights.{size_weights};
ghost use Rattle.net_form.specs.Cost.{events_weight};
ghost use Rattle.net_form.specs.Examples.{in_register_routes};
ghost use Rattle.pl_moves.specs.Crossbar.{events, Counted};
ghost use Rattle.pl_moves.specs.Lengths.{move_bytes};
ghost use Rattle.pl_moves.specs.declared.transfer.Move.{Move};
ghost use Rattle.pl_moves.specs.declared.transfer.Pair.{Pair};
ghost use Rattle.pl_place.specs.Behind.{Routed, IsBehind, flow_frame};
ghost use Rattle.pl_place.specs.Machine.{lrun};
ghost use Rattle.pl_place.specs.Placed.{frame_size};
ghost use Rattle.pl_place.specs.Sample.{sample};
ghost use Rattle.pl_place.specs.SampleRoutes.{routed, both_places_routes, in_register, in_memory};
ghost use Rattle.pl_place.specs.Valid.{ArePlaced};

/// A longer run keeps an ending, and prolongs the events and the words taken of a run that goes on.
pub fn longer_runs_keep()
    ensures { (procs : List LProc) (data_words : ℕ) (input : List ℤ) →
        Keeps (lrun procs data_words input) }
{}

/// Code with each kind of thing that the rules of valid placed code speak of keeps them, so none of
/// them is empty.
pub fn some_code_is_placed()
    ensures { ArePlaced sample }
{}

/// The frame of placed code has the bytes that the code and the flow behind it say.
pub fn frames_are_of_the_flow()
    ensures { (r : Routed) (p : LProc) → IsBehind r p → frame_size p ≡ flow_frame r }
{}

/// Two routes of one code, each behind the code that they place.
pub fn some_code_is_behind()
    ensures in_register { IsBehind (routed in_register_routes) in_register }
    ensures in_memory { IsBehind (routed both_places_routes) in_memory }
    ensures small { flow_frame (routed in_register_routes) ≡ 20 }
    ensures with_slot { flow_frame (routed both_places_routes) ≡ 24 }
{}

/// Moves that are counted by the events of pairs have at most so many bytes as these events weigh
/// by size.
pub fn moves_are_paid()
    ensures { (near : Bool) (ms : List Move) (pairs : List Pair) → Counted near ms pairs →
        sum_by (move_bytes near) ms ≤ events_weight size_weights 0 (events near pairs) }
{}
