// What the code of several blocks comes to. Each function is a law: its contract is the statement,
// and it does nothing.

ghost use Rattle.std.specs.Prelude.{◌≡◌, ◌≢◌, ◌<◌, ◌≤◌, ◌+◌, ◌*◌, ℕ, suc, true, false, List, Some};
ghost use Rattle.pra_base.specs.Code.{instr_at, kind_of};
ghost use Rattle.pra_base.specs.Live.{Live};
ghost use Rattle.pra_base.specs.declared.ids.VarId.{VarId};
ghost use Rattle.pra_base.specs.declared.code.VarKind.TheVariants.{Param, Plain};
ghost use Rattle.pra_base.specs.declared.code.End.TheVariants.{Return};
ghost use Rattle.pra_base.specs.Valid.{IsValid};
ghost use Rattle.pra_base.specs.declared.code.VInstr.TheVariants.{DivMod};
ghost use Rattle.pra_base.specs.declared.code.VProc.{VProc};
ghost use Rattle.ob_syntax.specs.Operators.{Outcome, combined, is_true};
ghost use Rattle.ob_syntax.specs.declared.checked.ROp.{ROp};
ghost use Rattle.ob_syntax.specs.declared.checked.Value.TheVariants.{Truth};
ghost use Rattle.vc_code.specs.Machine.{Activation, State, with_top};
ghost use Rattle.vc_code.specs.Selected.{Vars};
ghost use Rattle.vc_build.specs.Grow.{count, with_end};
ghost use Rattle.vc_build.specs.Runs.{Codes, Yields};
ghost use Rattle.vc_expr.specs.Operators.{is_bitwise, HasValue};
ghost use Rattle.vc_expr.specs.Branches.{Enters, chosen};
ghost use Rattle.vc_expr.specs.Rules.{IsComplete, KeepsRules};
ghost use Rattle.vc_expr.specs.Readable.{Entries, Certifies, IsClosed};
ghost use Rattle.vc_expr.specs.Choices.{decided, test_of, Arrives};
ghost use Rattle.vc_expr.specs.declared.choice.Choice.{Choice};

/// `&` and OR over blocks: where the test of the left side leads to the block of the right side or
/// to the block behind both ways, and the former gives the right side's value to the variable and
/// leads there too, the variable has what the operator gives. So the right side is evaluated only
/// where the left side does not decide.
pub fn choices_give_operators()
    ensures { (w : Codes) (id first : ℕ) (choice : Choice) (s : State Vars) (op : ROp)
        (left right : Outcome) → is_bitwise op ≡ true →
        HasValue w id choice.target.0 s.top (Truth (decided op)) → first ≤ choice.target.0 →
        Yields w s (λ x c.
        Enters (chosen (test_of op choice) (is_true x)) (suc choice.target.0) s.top c) left →
        ((c : Activation Vars) → Enters choice.right.0 (suc choice.target.0) s.top c →
        Yields w (with_top s c) (Arrives w id choice choice.target.0 c) right) →
        Yields w s (Arrives w id choice first s.top) (combined op left right) }
{}

/// Code with a certificate reads a local variable only where it has been written on every path from
/// the entry, and no dividend after its division.
pub fn certified_code_reads_what_is_written()
    ensures entry { (known : Entries) (code : VProc) (v : ℕ) → Certifies known code →
        IsClosed code → kind_of code v ≡ Plain → 0 < count code → known 0 v ≡ false →
        Live code v 0 0 → ⊥ }
    ensures dividends { (known : Entries) (code : VProc) (b k : ℕ) (q r a d : VarId) →
        Certifies known code → IsClosed code → b < count code → kind_of code a.0 ≡ Plain →
        a.0 ≢ q.0 → a.0 ≢ r.0 → instr_at code b k ≡ Some (DivMod q r a d) →
        Live code a.0 b (2 * k + 2) → ⊥ }
{}

/// A certificate is of the blocks that the code has: what it names of others may change.
pub fn certificates_name_blocks()
    ensures { (counts : List ℕ) (known other : Entries) (code : VProc) →
        KeepsRules counts code → ((b v : ℕ) → b < count code → other b v ≡ known b v) →
        Certifies known code → Certifies other code }
{}

/// Code that keeps the rules, with a certificate by which only parameters may be read at the entry,
/// is valid once its last block, the only open one, is left by Return.
pub fn finished_code_is_valid()
    ensures { (counts : List ℕ) (known : Entries) (code : VProc) (last : ℕ) →
        KeepsRules counts code → Certifies known code → IsComplete code last →
        ((v : ℕ) → known 0 v ≡ true → (i : ℕ) × (kind_of code v ≡ Param i)) →
        IsValid (with_end last Return code) }
{}
