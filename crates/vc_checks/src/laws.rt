// What holds of code without checks that cannot fail. Each function is a law: its contract is the
// statement, and it does nothing.

ghost use Rattle.pra_base.specs.Valid.{IsValid, IsSized};
ghost use Rattle.pra_base.specs.declared.code.VProc.{VProc};
ghost use Rattle.vc_same.specs.SameRuns.{Preserves, SameRuns};
ghost use Rattle.vc_checks.specs.LeftOut.{LeavesOut};

/// Code without checks that cannot fail carries every run of the old code that is never stuck, in
/// every module, and is never stuck then.
pub fn no_check_is_missed()
    ensures { (old new : VProc) → LeavesOut old new → SameRuns old new }
{}

/// It may stand in the place of valid and sized code.
pub fn left_out_checks_preserve()
    ensures { (old new : VProc) → LeavesOut old new → IsValid old → IsSized old →
        Preserves old new }
{}
