// What holds of code whose blocks are in another order. Each function is a law: its contract is the
// statement, and it does nothing.

ghost use Rattle.std.specs.Prelude.{◌≡◌, ◌≢◌, ℕ, suc, ◌<◌, ◌≤◌, not, List, Some, slice_get};
ghost use Rattle.pra_base.specs.Code.{block_of, end_of};
ghost use Rattle.pra_base.specs.Valid.{IsValid, PushesBeforeCalls, TakesArgs, instruction_count};
ghost use Rattle.pra_base.specs.Words.{compares};
ghost use Rattle.pra_base.specs.declared.ids.Cond.{Cond};
ghost use Rattle.pra_base.specs.declared.code.VProc.{VProc};
ghost use Rattle.pra_base.specs.declared.code.VarKind.TheVariants.{Param};
ghost use Rattle.vc_build.specs.Grow.{count, stand_in, IsOpen};
ghost use Rattle.vc_expr.specs.Readable.{Entries, Certifies};
ghost use Rattle.vc_expr.specs.Rules.{KeepsRules, IsComplete};
ghost use Rattle.vc_order.specs.Order.{Places, Reordered, depths};
ghost use Rattle.vc_order.specs.Turned.{IsTurned, opposite};
ghost use Rattle.vc_same.specs.SameRuns.{SameRuns};

/// Code with its blocks in another order carries every run of the old code that is never stuck, in
/// every module, and is never stuck then.
pub fn order_makes_no_difference()
    ensures { (to from : Places) (old new : VProc) → Reordered to from old new → SameRuns old new }
{}

/// The rules of code under construction do not know the order of its blocks, but that the last one
/// is the open one.
pub fn rules_know_no_order()
    ensures rules { (to from : Places) (old new : VProc) (counts : List ℕ) →
        Reordered to from old new → KeepsRules counts old → KeepsRules counts new }
    ensures certificates { (to from : Places) (old new : VProc) (counts : List ℕ)
        (known : Entries) → Reordered to from old new → KeepsRules counts old →
        Certifies known old → Certifies (λ b v. known (from b) v) new }
    ensures complete { (to from : Places) (old new : VProc) (counts : List ℕ) (last : ℕ) →
        Reordered to from old new → KeepsRules counts old → IsOpen old last →
        suc (to last) ≡ count old →
        ((b : ℕ) → b < count old → b ≢ last → end_of old b ≢ stand_in) →
        ((v w i : ℕ) → slice_get old.vars v ≡ Some (Param i) →
        slice_get old.vars w ≡ Some (Param i) → v ≡ w) →
        IsComplete new (to last) }
    ensures depths { (to from : Places) (old new : VProc) (most : ℕ) →
        Reordered to from old new → ((b : ℕ) → (block_of old b).depth ≤ most) →
        (b : ℕ) → (block_of new b).depth ≤ most }
{}

/// A condition holds where its opposite does not.
pub fn opposite_conditions_negate()
    ensures { (k : Cond) (a b : ℕ) → compares (opposite k) a b ≡ not (compares k a b) }
{}

/// Code with branches turned round carries every run of the old code that is never stuck, in every
/// module, and is never stuck then.
pub fn turned_branches_make_no_difference()
    ensures { (old new : VProc) → IsTurned old new → SameRuns old new }
{}

/// Code with branches turned round keeps what the old code does: it is valid, calls with as many
/// arguments, and has the depths of the blocks.
pub fn turned_code_stays_valid()
    ensures valid { (old new : VProc) → IsTurned old new → IsValid old → IsValid new }
    ensures pushes { (counts : List ℕ) (old new : VProc) → IsTurned old new →
        PushesBeforeCalls (TakesArgs counts) old.blocks →
        PushesBeforeCalls (TakesArgs counts) new.blocks }
    ensures instructions { (old new : VProc) → IsTurned old new →
        instruction_count new.blocks ≡ instruction_count old.blocks }
    ensures depths { (old new : VProc) → IsTurned old new → depths new ≡ depths old }
{}
