// One broken rule is told, and it is the first. Each function is a law: its contract is the
// statement, and it does nothing.

ghost use Rattle.std.specs.Prelude.{◌<◌, ◌≤◌, ◌↔◌, ℕ, List, length};
ghost use Rattle.ob_syntax.specs.Declarations.{Reading};
ghost use Rattle.ob_syntax.specs.Derives.{Derives};
ghost use Rattle.ob_syntax.specs.Forms.{Form, end};
ghost use Rattle.ob_syntax.specs.Grammar as grammar;
ghost use Rattle.ob_syntax.specs.Grammar.{Action, Expression, Procedure, TypeExpression};
ghost use Rattle.ob_syntax.specs.Names.{Fault, Place};
ghost use Rattle.ob_syntax.specs.Tree.{tree};
ghost use Rattle.ob_syntax.specs.WellFormed.{IsBroken, IsWellFormed};
ghost use Rattle.ob_syntax.specs.Whole.{kinds};
ghost use Rattle.ob_syntax.specs.declared.token.Token.{Token};
ghost use Rattle.ob_syntax.specs.declared.tree.Module.{Module};
ghost use Rattle.ob_first.specs.Breaks.{Breaks, IsFirst};
ghost use Rattle.ob_first.specs.InDeclarations.{InProcedure};
ghost use Rattle.ob_first.specs.InExpressions.{InExpression};
ghost use Rattle.ob_first.specs.InStatements.{InStatement};
ghost use Rattle.ob_first.specs.InTypes.{InType};
ghost use Rattle.ob_first.specs.Sample.{broken, bytes, tokens};

/// The broken rule that is told of a module is the one at the least token, and of several there the
/// one with the least number. A module has a reading exactly where no rule is broken; and a rule is
/// broken at a token of the module.
pub fn one_is_told()
    ensures first { (bytes : List ℕ) (tokens : List Token) (m : Module) →
        Derives grammar.Module (kinds tokens) m → (k t : ℕ) →
        IsBroken bytes tokens m k t ↔ IsFirst bytes tokens m k t }
    ensures none { (bytes : List ℕ) (tokens : List Token) (m : Module) →
        Derives grammar.Module (kinds tokens) m →
        ((r : Reading) × IsWellFormed bytes tokens m r) ↔
        ((k t : ℕ) → Breaks bytes tokens m k t → ⊥) }
    ensures within { (bytes : List ℕ) (tokens : List Token) (m : Module) →
        Derives grammar.Module (kinds tokens) m → (k t : ℕ) →
        Breaks bytes tokens m k t → t < length (kinds tokens) }
{}

/// What breaks a rule in a phrase, at whatever place it stands, is told at one of its tokens.
pub fn broken_rules_lie_in_their_phrases()
    ensures expression { (f : Form Expression) (first : ℕ) (p : Place) (g : Fault) →
        InExpression p (tree Expression first f) g →
        (first ≤ g.1) × (g.1 < end Expression first f) }
    ensures statement { (f : Form Action) (first : ℕ) (p : Place) (g : Fault) →
        InStatement p (tree Action first f) g → (first ≤ g.1) × (g.1 < end Action first f) }
    ensures type_expression { (f : Form TypeExpression) (first : ℕ) (p : Place) (g : Fault) →
        InType p (tree TypeExpression first f) g →
        (first ≤ g.1) × (g.1 < end TypeExpression first f) }
    ensures procedure { (f : Form Procedure) (first : ℕ) (p : Place) (g : Fault) →
        InProcedure p (tree Procedure first f) g →
        (first ≤ g.1) × (g.1 < end Procedure first f) }
{}

/// Some module that tokens derive breaks rules at three tokens, and the first of them is told.
pub fn some_module_breaks_three_rules()
    ensures derived { Derives grammar.Module (kinds tokens) broken }
    ensures first { IsFirst bytes tokens broken 5 4 }
    ensures others { Breaks bytes tokens broken 5 6 × Breaks bytes tokens broken 1 8 }
{}
