// The laws of runs that count units.
ghost use Rattle.std.specs.Prelude.{◌≡◌, ◌≢◌, ℕ, ℤ, List, None};
ghost use Rattle.pra_base.specs.Agreement.{IsPrefix};
ghost use Rattle.ob_syntax.specs.declared.checked.Checked.{Checked};
ghost use Rattle.ob_mean.specs.Program.{mean};
ghost use Rattle.ob_interp.specs.Units.{units_run, progress_in};

/// A run that ends within its units is the meaning's, word for word; one that stops did what the
/// meaning does first.
pub fn units_follow_the_meaning()
    ensures ends { (program : Checked) (frames : List ℕ) (input : List ℤ) (k : ℕ) →
        (progress_in (units_run program frames input k)).ending ≢ None →
        progress_in (units_run program frames input k) ≡ mean program frames input k }
    ensures goes { (program : Checked) (frames : List ℕ) (input : List ℤ) (k : ℕ) →
        IsPrefix (progress_in (units_run program frames input k)) (mean program frames input k) }
{}
