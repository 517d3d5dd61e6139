// Where variables are, and that runs begin. Each function is a law: its contract is the statement,
// and it does nothing.

ghost use Rattle.std.specs.Prelude.{◌≡◌, ◌≢◌, ◌<◌, ◌≤◌, ℕ, List, length, true, false};
ghost use Rattle.pra_base.specs.Code.{kind_of};
ghost use Rattle.pra_base.specs.declared.code.VProc.{VProc};
ghost use Rattle.ob_syntax.specs.declared.checked.Root.{Root};
ghost use Rattle.ob_mean.specs.Designators.{root_location, root_type};
ghost use Rattle.ob_mean.specs.Store.{Store, new_store};
ghost use Rattle.ob_mean.specs.declared.store.LiveCall.{LiveCall};
ghost use Rattle.vc_code.specs.Machine.{State};
ghost use Rattle.vc_code.specs.Selected.{Vars, code_of};
ghost use Rattle.vc_build.specs.Grow.{count, Grows, GrowsAt};
ghost use Rattle.vc_build.specs.Runs.{Codes};
ghost use Rattle.vc_expr.specs.Readable.{Entries, usable, Certifies};
ghost use Rattle.vc_expr.specs.Rules.{KeepsRules};
ghost use Rattle.vc_relation.specs.Relation.{Represents};
ghost use Rattle.vc_select.specs.declared.target.Setting.{Setting};
ghost use Rattle.vc_select.specs.Certified.{IsReady, IsContinued, Awaits, AddsNoParam};
ghost use Rattle.vc_select.specs.Sample.{IsForSample, begun, alone, one_call, at_begin};
ghost use Rattle.vc_select.specs.Selects.{IsSet, Starts, home_variables, is_constant};
ghost use Rattle.vc_select.specs.Selects.{selected_module};
ghost use Rattle.vc_select.specs.Targets.{root_target, IsNamed, above_setting};
ghost use Rattle.vc_typed.specs.Typing.{is_declared};

/// The target of a declared variable of the module, parameter or local names its location, in each
/// state that has the store: a VAR parameter's the location that was lent to it.
pub fn targets_name_locations()
    ensures { (g : Setting) (w : Codes) (calls : List LiveCall) (store : Store) (s : State Vars)
        (r : Root) → IsSet g → Represents (selected_module g.program.now w) calls store s →
        s.top.proc ≡ g.id.0 →
        ((v : ℕ) → v < home_variables g →
        is_constant (kind_of (code_of w.procs g.id.0) v) ≡ false) →
        is_declared g.program.now g.id.0 r ≡ true →
        IsNamed g.program.now w calls s
        (root_target g.program.now g.params.now g.locals.now g.id.0 r)
        (root_location calls r) (root_type g.program.now g.id.0 r) }
{}

/// While code goes on from one block to another one, with a certificate that is the same for the
/// blocks that were there, blocks that wait stay ready for more, and what a block that is to be
/// entered may read may still be read.
pub fn blocks_wait()
    ensures ready { (g : Setting) (counts : List ℕ) (known next : Entries) (old new : VProc)
        (from : ℕ) → above_setting g ≤ length old.vars → IsContinued known old next →
        GrowsAt from old new → AddsNoParam old new → KeepsRules counts new →
        Certifies next new → (b : ℕ) → b < count old → b ≢ from →
        IsReady g counts known old b → IsReady g counts next new b }
    ensures awaited { (known next : Entries) (old new : VProc) (from to : ℕ) →
        IsContinued known old next → length old.vars ≤ length new.vars →
        ((v : ℕ) → v < length old.vars → usable known old from v ≡ true →
        usable next new to v ≡ true) →
        (b : ℕ) → b < count old → Awaits known b old from → Awaits next b new to }
{}

/// The body of a module of one variable starts: whatever code is made of its first block, a run of
/// the whole stands where selection began, and has the store in which nothing is assigned yet.
pub fn a_body_starts()
    ensures { (g : Setting) (code : VProc) → IsForSample g → Grows begun code →
        Starts g (alone code) begun code 0 one_call new_store (at_begin code) }
{}
