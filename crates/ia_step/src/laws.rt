// What holds of the machine in the words of its subject. Each function is a law: its contract is
// the statement, and it does nothing.

ghost use Rattle.std.specs.Prelude.{◌≡◌, ◌≢◌, ℕ, ◌+◌, ◌*◌, ◌^◌, ◌<◌, ◌≤◌, ◌↔◌, ◌⊎◌, if◌then◌else◌};
ghost use Rattle.std.specs.Prelude.{ℤ, ◌+ℤ◌, ◌-ℤ◌, ◌*ℤ◌, int_div, Bool, IsTrue, false, ◌++◌, List};
ghost use Rattle.std.specs.Prelude.{Option, Some, None, IfSome};
ghost use Rattle.std.specs.Int.{cast_signed, w64};
ghost use Rattle.pra_base.specs.declared.event.OutEvent.{OutEvent};
ghost use Rattle.pra_base.specs.declared.ids.Cond.{Cond};
ghost use Rattle.pra_base.specs.Agreement.{Keeps};
ghost use Rattle.pra_base.specs.System.{IsMachine};
ghost use Rattle.pra_base.specs.Words.{signed, sum32, diff32, product32, fits_word, compares};
ghost use Rattle.pra_base.specs.Words.{is_positive, quotient32, remainder32, IsTruncated};
ghost use Rattle.ia_code.specs.declared.image.Image.{Image};
ghost use Rattle.ia_step.specs.declared.out.Ending.{Ending};
ghost use Rattle.ia_step.specs.declared.out.FaultKind.{FaultKind};
ghost use Rattle.ia_step.specs.declared.out.StepOut.{StepOut};
ghost use Rattle.ia_step.specs.Arithmetic.{sum_flags, diff_flags, product_flags, holds};
ghost use Rattle.ia_step.specs.Arithmetic.{has_quotient, quotient};
ghost use Rattle.ia_step.specs.Effect.{sign_word};
ghost use Rattle.ia_step.specs.Kept.{Kept};
ghost use Rattle.ia_step.specs.State.{State, over};
ghost use Rattle.ia_step.specs.Step.{step, ending_told};
ghost use Rattle.ia_step.specs.Run.{ran, advance, view, progress};

/// After CMP each condition is what the table of conditions says of the two numbers.
pub fn conditions_compare()
    ensures { (a b : ℕ) (c : Cond) → a < 2 ^ 32 → b < 2 ^ 32 →
        holds (diff_flags a b) c ≡ Some (compares c a b) }
{}

/// OF is clear exactly where the 32 bits of the result are the signed result.
pub fn overflow_tells()
    ensures sum { (a b : ℕ) → a < 2 ^ 32 → b < 2 ^ 32 →
        ((sum_flags a b).«of» ≡ Some false) ↔ (signed (sum32 a b) ≡ signed a +ℤ signed b) }
    ensures difference { (a b : ℕ) → a < 2 ^ 32 → b < 2 ^ 32 →
        ((diff_flags a b).«of» ≡ Some false) ↔ (signed (diff32 a b) ≡ signed a -ℤ signed b) }
    ensures product { (a b : ℕ) → a < 2 ^ 32 → b < 2 ^ 32 →
        ((product_flags a b).«of» ≡ Some false) ↔ (signed (product32 a b) ≡ signed a *ℤ signed b) }
{}

/// What IDIV leaves are the quotient and the remainder that are rounded toward zero.
pub fn idiv_truncates()
    ensures { (a d : ℕ) → d < 2 ^ 32 →
        IfSome (quotient a d) (λ x.
        IsTruncated (cast_signed w64 a) (signed d) (signed x.0) (signed x.1)) }
{}

/// IDIV has no answer exactly where the divisor is 0 or the quotient does not fit 32 bits.
pub fn idiv_has_no_answer()
    ensures { (a d : ℕ) → (quotient a d ≡ None) ↔
        ((d ≡ 0) ⊎ (fits_word (int_div (cast_signed w64 a) (signed d)) ≡ false)) }
{}

/// CDQ and IDIV divide a word as all layers divide words, and by a positive number there always is
/// an answer.
pub fn idiv_of_words()
    ensures equal { (a d : ℕ) → a < 2 ^ 32 → quotient (sign_word a * 2 ^ 32 + a) d ≡
        (if has_quotient (signed a) d then Some (quotient32 a d, remainder32 a d) else None) }
    ensures positive { (a d : ℕ) → a < 2 ^ 32 → d < 2 ^ 32 → IsTrue (is_positive d) →
        quotient (sign_word a * 2 ^ 32 + a) d ≡ Some (quotient32 a d, remainder32 a d) }
{}

/// The answer of a step tells the machine's ending.
pub fn step_tells_ending()
    ensures { (s : State) → (step s).0.ending ≡ ending_told (step s).1 }
{}

/// A step that faults changes nothing but the ending, and after an ending a step changes nothing.
pub fn faults_and_endings_change_nothing()
    ensures fault { (s : State) (k : FaultKind) → s.ending ≡ Ending.Going →
        (step s).1 ≡ StepOut.Fault k → (step s).0 ≡ over s (Ending.Fault k) }
    ensures ended { (s : State) → s.ending ≢ Ending.Going → (step s).0 ≡ s }
{}

/// Code and the regions' sizes never change; each step takes one input word at most, from the
/// front.
pub fn code_stays()
    ensures step { (s : State) → Kept s (step s).0 1 }
    ensures run { (s : State) (m : ℕ) → Kept s (ran s m).state m }
{}

/// A longer run has made the events of a shorter one and perhaps more, and no fewer steps; it has
/// made all its steps where the machine is still going on.
pub fn runs_grow()
    ensures events { (s : State) (m n : ℕ) → m ≤ n →
        (more : List OutEvent) × ((ran s n).events ≡ (ran s m).events ++ more) }
    ensures steps { (s : State) (m n : ℕ) → m ≤ n → (ran s m).steps ≤ (ran s n).steps }
    ensures most { (s : State) (m : ℕ) → (ran s m).steps ≤ m }
    ensures all { (s : State) (m : ℕ) →
        (ran s m).state.ending ≡ Ending.Going → (ran s m).steps ≡ m }
{}

/// Two runs in a row are one.
pub fn runs_join()
    ensures state { (s : State) (m n : ℕ) →
        (ran (ran s m).state n).state ≡ (ran s (m + n)).state }
    ensures events { (s : State) (m n : ℕ) →
        (ran s m).events ++ (ran (ran s m).state n).events ≡ (ran s (m + n)).events }
    ensures steps { (s : State) (m n : ℕ) →
        (ran s m).steps + (ran (ran s m).state n).steps ≡ (ran s (m + n)).steps }
{}

/// The machine is one of those whose runs are compared across the layers, and its longer runs keep
/// an ending.
pub fn is_a_machine()
    ensures machine { IsMachine advance view }
    ensures keeps { (image : Image) (input : List ℤ) → Keeps (progress image input) }
{}
