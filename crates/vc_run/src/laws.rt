// What holds of runs of selected code. Each function is a law: its contract is the statement, and
// it does nothing.

ghost use Rattle.std.specs.Prelude.{◌≡◌, ℕ, ℤ, List};
ghost use Rattle.pra_base.specs.declared.code.VModule.{VModule};
ghost use Rattle.pra_base.specs.System.{run};
ghost use Rattle.vc_code.specs.Machine.{State, Machine, step};
ghost use Rattle.vc_code.specs.Selected.{Vars, vrun};
ghost use Rattle.vc_run.specs.Run.{ran, code_run, progress};

/// A run by counted steps is the run of the machine of selected code: it stands where so many steps
/// lead, and tells what that run tells.
pub fn runs_are_vrun()
    ensures state { (m : Machine Vars) (s : State Vars) (n : ℕ) →
        (ran m s n).state ≡ run (step m) n s }
    ensures told { (code : VModule) (frames : List ℕ) (input : List ℤ) (n : ℕ) →
        progress (code_run code frames input n) ≡ vrun code frames input n }
{}
