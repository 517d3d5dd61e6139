//! The laws of what trees stand for.

ghost use Rattle.std.specs.Prelude.{◌≡◌, ◌⊎◌, ℕ, List};
ghost use Rattle.ob_syntax.specs.declared.checked.Checked.{Checked};
ghost use Rattle.ob_syntax.specs.declared.token.Token.{Token};
ghost use Rattle.ob_syntax.specs.declared.tree.Module.{Module};
ghost use Rattle.ob_check.specs.declared.fault.CheckFault.{CheckFault};
ghost use Rattle.ob_check.specs.Checking.{IsChecked, IsCause};

/// A tree stands for one module, or else there is one cause why it stands for none.
pub fn one_module_or_one_cause()
    ensures either { (bytes : List ℕ) (tokens : List Token) (m : Module) →
        ((c : Checked) × IsChecked bytes tokens m c)
        ⊎ ((f : CheckFault) × IsCause bytes tokens m f) }
    ensures never_both { (bytes : List ℕ) (tokens : List Token) (m : Module)
        (c : Checked) (f : CheckFault) →
        IsChecked bytes tokens m c → IsCause bytes tokens m f → ⊥ }
    ensures one_module { (bytes : List ℕ) (tokens : List Token) (m : Module) (c d : Checked) →
        IsChecked bytes tokens m c → IsChecked bytes tokens m d → c ≡ d }
    ensures one_cause { (bytes : List ℕ) (tokens : List Token) (m : Module)
        (f g : CheckFault) →
        IsCause bytes tokens m f → IsCause bytes tokens m g → f ≡ g }
{}
