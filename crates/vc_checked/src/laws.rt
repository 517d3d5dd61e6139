// The laws that join the checker with selection of code, and say how much of a module there is at
// most. Each function is a law: its contract is the statement, and it does nothing.

ghost use Rattle.std.specs.Prelude.{◌≤◌, ℕ, List, length};
ghost use Rattle.ob_check.specs.Checking.{IsChecked};
ghost use Rattle.ob_syntax.specs.Source.{IsParsed};
ghost use Rattle.ob_syntax.specs.Whole.{kinds, most_nesting, IsTreeOf};
ghost use Rattle.ob_syntax.specs.declared.checked.Checked.{Checked};
ghost use Rattle.ob_syntax.specs.declared.token.Token.{Token};
ghost use Rattle.ob_syntax.specs.declared.tree.Module.{Module};
ghost use Rattle.ob_syntax.specs.Declarations.{Reading};
ghost use Rattle.ob_syntax.specs.WellFormed.{IsWellFormed, resolved};
ghost use Rattle.vc_typed.specs.Nodes.{HaveTheirNodes};
ghost use Rattle.vc_typed.specs.TypedModules.{IsSelectable};
ghost use Rattle.vc_checked.specs.Sample.{source, tokens, tree, checked};
ghost use Rattle.vc_checked.specs.Short.{nodes_and_locals, IsShort};

/// Code can be selected for each module that the checker answers.
pub fn checked_modules_are_selectable()
    ensures { (bytes : List ℕ) (tokens : List Token) (m : Module) (c : Checked) →
        IsChecked bytes tokens m c → IsSelectable c }
{}

/// Where the tree is that of the tokens, each body of the module has at most its nodes in the text.
pub fn checked_bodies_have_their_nodes()
    ensures { (bytes : List ℕ) (tokens : List Token) (m : Module) (c : Checked) →
        IsParsed bytes tokens m → IsChecked bytes tokens m c → HaveTheirNodes c }
{}

/// There is such a module: the sample, whose tree its tokens derive.
pub fn a_sample_is_checked()
    ensures checked { IsChecked source tokens tree checked }
    ensures derived { IsTreeOf most_nesting (kinds tokens) tree }
{}

/// All procedures of a well-formed module that tokens derive have together at most as many nodes
/// and scalar locals as there are tokens.
pub fn nodes_are_tokens()
    ensures { (bytes : List ℕ) (tokens : List Token) (m : Module) (r : Reading) →
        IsParsed bytes tokens m → IsWellFormed bytes tokens m r →
        nodes_and_locals (resolved m r) ≤ length tokens }
{}

/// So the module is short.
pub fn modules_are_short()
    ensures { (bytes : List ℕ) (tokens : List Token) (m : Module) (r : Reading) →
        IsParsed bytes tokens m → IsWellFormed bytes tokens m r → IsShort (resolved m r) }
{}

/// What the checker answers for the tree of a source is short.
pub fn checked_modules_are_short()
    ensures { (bytes : List ℕ) (tokens : List Token) (m : Module) (c : Checked) →
        IsParsed bytes tokens m → IsChecked bytes tokens m c → IsShort c }
{}
