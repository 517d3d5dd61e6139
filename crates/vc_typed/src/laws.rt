// What selection of code takes of a resolved tree. Each function is a law: its contract is the
// statement, and it does nothing.

ghost use Rattle.std.specs.Prelude.{◌≡◌, true, ℕ, List, [], map, Ok};
ghost use Rattle.ob_syntax.specs.Declarations.{Reading, beginning};
ghost use Rattle.ob_syntax.specs.Expressions.{expression};
ghost use Rattle.ob_syntax.specs.Names.{Place};
ghost use Rattle.ob_syntax.specs.Source.{IsParsed};
ghost use Rattle.ob_syntax.specs.Statements.{each, statement};
ghost use Rattle.ob_syntax.specs.WellFormed.{IsWellFormed, IsWithin, is_scalar, resolved};
ghost use Rattle.ob_syntax.specs.declared.checked.Checked.{Checked};
ghost use Rattle.ob_syntax.specs.declared.checked.RExpr.{RExpr-F, out-RExpr};
ghost use Rattle.ob_syntax.specs.declared.checked.RStmt.{RStmt};
ghost use Rattle.ob_syntax.specs.declared.checked.RVar.{RVar};
ghost use Rattle.ob_syntax.specs.declared.checked.Typed.{Typed};
ghost use Rattle.ob_syntax.specs.declared.token.Token.{Token};
ghost use Rattle.ob_syntax.specs.declared.tree.Expr.{Expr};
ghost use Rattle.ob_syntax.specs.declared.tree.Module.{Module};
ghost use Rattle.ob_syntax.specs.declared.tree.Stmt.{Stmt};
ghost use Rattle.vc_relation.specs.Layout.{IsLaidOut};
ghost use Rattle.vc_typed.specs.Fitting.{Fits};
ghost use Rattle.vc_typed.specs.Nodes.{HaveTheirNodes};
ghost use Rattle.vc_typed.specs.TypedModules.{IsTyped, IsLimited, IsSelectable};
ghost use Rattle.vc_typed.specs.TypedSample.{sample};
ghost use Rattle.vc_typed.specs.TypedStatements.{are_typed};
ghost use Rattle.vc_typed.specs.Typing.{typed, typing, variable_typing};

/// In a place that fits a checked module, an expression that breaks no rule is read as one of a
/// good typing: a scalar as an expression, and a variable as a variable, of whatever type.
pub fn expressions_are_typed()
    ensures scalar { (program : Checked) (p : Place) → Fits program p →
        (e : Expr) (x : Typed) → (expression e).judge p ≡ Ok x → is_scalar x.type_id ≡ true →
        typing program p.here x.expr ≡ typed true x.type_id }
    ensures variable { (program : Checked) (p : Place) → Fits program p →
        (e : Expr) (x : Typed) → (expression e).judge p ≡ Ok x →
        (v : RVar) → out-RExpr x.expr ≡ RExpr-F.Var v →
        variable_typing program p.here v ≡ typed true x.type_id }
{}

/// In a place that fits a checked module, statements that break no rule are read as typed ones.
pub fn statements_are_typed()
    ensures { (program : Checked) (p : Place) → Fits program p →
        (body : List Stmt) (done : List RStmt) → each p [] (map statement body) ≡ Ok done →
        are_typed program p.here done ≡ true }
{}

/// What a well-formed module within the limits stands for is laid out: its types are formed, its
/// variables and the aggregates of each procedure follow on without gaps and within their limits,
/// and its value parameters are scalars.
pub fn checked_modules_are_laid_out()
    ensures { (bytes : List ℕ) (tokens : List Token) (m : Module) (r : Reading) →
        IsWellFormed bytes tokens m r → IsWithin r → IsLaidOut (resolved m r) }
{}

/// The place where a well-formed module begins fits what the module stands for.
pub fn modules_begin_fitting()
    ensures { (bytes : List ℕ) (tokens : List Token) (m : Module) (r : Reading) →
        IsWellFormed bytes tokens m r → Fits (resolved m r) (beginning bytes tokens) }
{}

/// Each body of a well-formed module is typed, and what its statements lend has an address.
pub fn checked_modules_are_typed()
    ensures { (bytes : List ℕ) (tokens : List Token) (m : Module) (r : Reading) →
        IsWellFormed bytes tokens m r → IsTyped (resolved m r) }
{}

/// Nothing of a well-formed module within the limits is above its maximum.
pub fn checked_modules_are_limited()
    ensures { (bytes : List ℕ) (tokens : List Token) (m : Module) (r : Reading) →
        IsWellFormed bytes tokens m r → IsWithin r → IsLimited (resolved m r) }
{}

/// The body of each procedure of a well-formed module that tokens derive has at most the nodes that
/// are counted for the procedure in the text.
pub fn bodies_have_their_nodes()
    ensures { (bytes : List ℕ) (tokens : List Token) (m : Module) (r : Reading) →
        IsParsed bytes tokens m → IsWellFormed bytes tokens m r → HaveTheirNodes (resolved m r) }
{}

/// Code can be selected for what a well-formed module within the limits stands for.
pub fn modules_are_selectable()
    ensures { (bytes : List ℕ) (tokens : List Token) (m : Module) (r : Reading) →
        IsWellFormed bytes tokens m r → IsWithin r → IsSelectable (resolved m r) }
{}

/// Code can be selected for the sample, whose statements lend a parameter, a local and an element,
/// and its bodies have their nodes.
pub fn a_sample_is_selectable()
    ensures selectable { IsSelectable sample }
    ensures nodes { HaveTheirNodes sample }
{}
