// The laws of trees.

ghost use Rattle.std.specs.Prelude.{◌≡◌, ℕ, List};
ghost use Rattle.ob_syntax.specs.Grammar as grammar;
ghost use Rattle.ob_syntax.specs.Grammar.{Nonterminal};
ghost use Rattle.ob_syntax.specs.Tree.{Tree};
ghost use Rattle.ob_syntax.specs.Derives.{Derives};
ghost use Rattle.ob_syntax.specs.Numbers.{IsNumbered};
ghost use Rattle.ob_syntax.specs.Source.{IsParsed};
ghost use Rattle.ob_syntax.specs.declared.token.Kind.{Kind};
ghost use Rattle.ob_syntax.specs.declared.token.Token.{Token};
ghost use Rattle.ob_syntax.specs.declared.tree.Module.{Module};

/// Tokens derive at most one tree, and so do the bytes of a source.
pub fn at_most_one_tree()
    ensures phrase { (n : Nonterminal) (ks : List Kind) (t u : Tree n) →
        Derives n ks t → Derives n ks u → t ≡ u }
    ensures source { (bytes : List ℕ) (list other : List Token) (t u : Module) →
        IsParsed bytes list t → IsParsed bytes other u → (list ≡ other) × (t ≡ u) }
{}

/// In the tree that tokens derive, a name is the number of an identifier's token, and the tokens of
/// a phrase are in order, among those of the phrase around it.
pub fn numbers_are_of_tokens()
    ensures { (ks : List Kind) (t : Module) → Derives grammar.Module ks t → IsNumbered ks t }
{}
