// The laws of token lists and first faults.

ghost use Rattle.std.specs.Prelude.{◌≡◌, ℕ, List, ◌⊎◌};
ghost use Rattle.ob_syntax.specs.Tokens.{Tokens, Fault, FirstFault, SlicesSource};
ghost use Rattle.ob_syntax.specs.declared.token.Token.{Token};

/// A text has one token list, or else one first fault.
pub fn tokens_or_first_fault()
    ensures either { (bytes : List ℕ) →
        ((list : List Token) × Tokens bytes list)
        ⊎ ((fault : Fault) × (at : ℕ) × FirstFault bytes fault at) }
    ensures never_both { (bytes : List ℕ) (list : List Token) (fault : Fault) (at : ℕ) →
        Tokens bytes list → FirstFault bytes fault at → ⊥ }
    ensures one_list { (bytes : List ℕ) (list other : List Token) →
        Tokens bytes list → Tokens bytes other → list ≡ other }
    ensures one_fault { (bytes : List ℕ) (fault other : Fault) (at place : ℕ) →
        FirstFault bytes fault at → FirstFault bytes other place →
        (fault ≡ other) × (at ≡ place) }
{}

/// The span of each token of a text slices its spelling from the text, and spans follow one
/// another.
pub fn spans_slice_source()
    ensures { (bytes : List ℕ) (list : List Token) → Tokens bytes list → SlicesSource bytes list }
{}
