//! The law of what token lists are.

ghost use Rattle.std.specs.Prelude.{◌⊎◌, ◌<◌, ◌^◌, ℕ, List, length};
ghost use Rattle.ob_syntax.specs.declared.token.Token.{Token};
ghost use Rattle.ob_syntax.specs.declared.tree.Module.{Module};
ghost use Rattle.ob_syntax.specs.Whole.{kinds, most_nesting, IsTreeOf, StopsAt, DeepensAt};

/// A token list has a tree of depth at most 64, or there is a token with which no module goes on,
/// or only deeper ones do.
pub fn tree_or_refusal()
    ensures { (tokens : List Token) → length tokens < 2 ^ 32 →
        ((tree : Module) × IsTreeOf most_nesting (kinds tokens) tree)
        ⊎ (((k : ℕ) × StopsAt (kinds tokens) k) ⊎ ((k : ℕ) × DeepensAt (kinds tokens) k)) }
{}
