// Where calls begin. Each function is a law: its contract is the statement, and it does nothing.

ghost use Rattle.std.specs.Prelude.{◌≡◌, ℕ, suc, ◌<◌, List, [], ◌∷◌, length, Some, slice_get};
ghost use Rattle.ob_syntax.specs.declared.checked.CheckedProc.{CheckedProc};
ghost use Rattle.ob_mean.specs.Program.{call_with, entered, only_body};
ghost use Rattle.ob_mean.specs.Store.{Store, new_store};
ghost use Rattle.ob_mean.specs.declared.store.Argument.{Argument};
ghost use Rattle.ob_mean.specs.declared.store.LiveCall.{LiveCall};
ghost use Rattle.vc_call.specs.Begins.{ArePushed, HasBegun, Waits};
ghost use Rattle.vc_code.specs.Machine.{State, joined};
ghost use Rattle.vc_code.specs.Selected.{Vars};
ghost use Rattle.vc_code.specs.declared.value.Value.TheVariants.{Num};
ghost use Rattle.vc_relation.specs.Layout.{IsLaidOut};
ghost use Rattle.vc_relation.specs.Relation.{SelectedModule, Represents};

/// A call that has begun with the arguments that waited has the store in which its statements
/// begin, and the calls below it have theirs.
pub fn a_call_begins_in_the_relation()
    ensures { (t : SelectedModule) (id : ℕ) (proc : CheckedProc) (args : List Argument)
        (calls : List LiveCall) (store : Store) (old new : State Vars) →
        IsLaidOut t.program → slice_get t.program.procs id ≡ Some proc →
        Represents t calls store old → ArePushed t calls proc.params args old.pushed →
        HasBegun t id proc old.pushed new → Waits old new →
        Represents t (call_with id args ∷ calls) (entered (suc (length calls)) args store) new }
{}

/// The module's body begins with the store in which nothing is assigned yet.
pub fn a_module_begins_in_the_relation()
    ensures { (t : SelectedModule) (proc : CheckedProc) (s : State Vars) →
        IsLaidOut t.program → slice_get t.program.procs 0 ≡ Some proc → proc.params ≡ [] →
        HasBegun t 0 proc [] s → s.below ≡ [] →
        ((w : ℕ) → w < t.program.data_words → joined (slice_get s.globals w) ≡ Some (Num 0)) →
        Represents t only_body new_store s }
{}
