// What follows from the definitions, each law a function whose contract is its statement.

ghost use Rattle.std.specs.Prelude.{◌≡◌, ◌≢◌, ℕ, ℤ, pos, List, ◌∷◌, Bool, false, Some, slice_get};
ghost use Rattle.pra_base.specs.Agreement.{Keeps};
ghost use Rattle.ob_syntax.specs.Operators.{number};
ghost use Rattle.ob_syntax.specs.declared.checked.Checked.{Checked};
ghost use Rattle.ob_syntax.specs.declared.checked.Root.{Root};
ghost use Rattle.ob_syntax.specs.declared.checked.Root.TheVariants as root;
ghost use Rattle.ob_syntax.specs.declared.checked.Shape.{Shape};
ghost use Rattle.ob_syntax.specs.declared.checked.Value.{Value};
ghost use Rattle.ob_mean.specs.declared.store.LiveCall.{LiveCall};
ghost use Rattle.ob_mean.specs.declared.store.Location.{Location};
ghost use Rattle.ob_mean.specs.declared.store.Object.TheVariants.{Param, Local};
ghost use Rattle.ob_mean.specs.Designators.{root_location, start_of};
ghost use Rattle.ob_mean.specs.Program.{call_with, entered, mean};
ghost use Rattle.ob_mean.specs.declared.store.Argument.{Argument};
ghost use Rattle.ob_mean.specs.declared.store.Argument.TheVariants.{Passed, Lent};
ghost use Rattle.ob_mean.specs.Store.{Store, whole, part, within, read, assigned, is_at_depth};

/// A greater budget keeps an ending, and where there is none it prolongs what is written and the
/// words that are taken.
pub fn greater_budget_keeps()
    ensures { (program : Checked) (frames : List ℕ) (input : List ℤ) →
        Keeps (mean program frames input) }
{}

/// What was assigned to a location is read there, and every other location stays as it was.
pub fn assignment_changes_one()
    ensures there { (s : Store) (l : Location) (x start : Value) →
        read (assigned s l x) start l ≡ x }
    ensures others { (s : Store) (l m : Location) (x start : Value) → m ≢ l →
        read (assigned s l x) start m ≡ read s start m }
{}

/// Two fields or elements of one location have no part in common.
pub fn parts_are_apart()
    ensures { (l : Location) (j k : ℕ) (one other : List ℕ) → j ≢ k →
        within (part l j) one ≢ within (part l k) other }
{}

/// In a call that begins each value parameter has its argument and each local its start, and what
/// belongs to no call at this depth is as it was.
pub fn calls_begin_anew()
    ensures params { (s : Store) (depth k : ℕ) (args : List Argument) (x start : Value) →
        slice_get args k ≡ Some (Passed x) →
        read (entered depth args s) start (whole (Param depth k)) ≡ x }
    ensures locals { (s : Store) (depth k : ℕ) (args : List Argument) (path : List ℕ)
        (start : Value) →
        read (entered depth args s) start (within (whole (Local depth k)) path) ≡ start }
    ensures others { (s : Store) (depth : ℕ) (args : List Argument) (l : Location) (start : Value) →
        is_at_depth depth l.object ≡ false →
        read (entered depth args s) start l ≡ read s start l }
{}

/// A VAR parameter is the location that was lent to it.
pub fn lent_locations_are_named()
    ensures { (calls : List LiveCall) (proc k : ℕ) (args : List Argument) (l : Location) →
        slice_get args k ≡ Some (Lent l) →
        root_location (call_with proc args ∷ calls) (root.Param k) ≡ l }
{}

/// What a variable starts with has the number 0.
pub fn variables_start_at_zero()
    ensures { (shape : Shape) → number (start_of shape) ≡ pos 0 }
{}
