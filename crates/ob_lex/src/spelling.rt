// The tokens that have one spelling each.

ghost use Rattle.std.specs.Prelude.{Contains, MatchOption};
ghost use Rattle.ob_syntax.specs.Tokens.{fixed};
ghost use Rattle.ob_lex.specs.Spellings.{spellings};
ghost use Rattle.ob_syntax.specs.declared.token.Kind.{Kind};

use ob_syntax::Kind;

/// The keywords and symbols, each with its spelling.
static FIXED: [(Kind, &str); 41] = [
    (Kind::KwArray, "ARRAY"),
    (Kind::KwBegin, "BEGIN"),
    (Kind::KwConst, "CONST"),
    (Kind::KwDiv, "DIV"),
    (Kind::KwDo, "DO"),
    (Kind::KwElse, "ELSE"),
    (Kind::KwElsif, "ELSIF"),
    (Kind::KwEnd, "END"),
    (Kind::KwIf, "IF"),
    (Kind::KwMod, "MOD"),
    (Kind::KwModule, "MODULE"),
    (Kind::KwOf, "OF"),
    (Kind::KwOr, "OR"),
    (Kind::KwProcedure, "PROCEDURE"),
    (Kind::KwRecord, "RECORD"),
    (Kind::KwRepeat, "REPEAT"),
    (Kind::KwThen, "THEN"),
    (Kind::KwType, "TYPE"),
    (Kind::KwUntil, "UNTIL"),
    (Kind::KwVar, "VAR"),
    (Kind::KwWhile, "WHILE"),
    (Kind::Period, "."),
    (Kind::Comma, ","),
    (Kind::Semicolon, ";"),
    (Kind::Colon, ":"),
    (Kind::Becomes, ":="),
    (Kind::LeftParen, "("),
    (Kind::RightParen, ")"),
    (Kind::LeftBracket, "["),
    (Kind::RightBracket, "]"),
    (Kind::Tilde, "~"),
    (Kind::Times, "*"),
    (Kind::Amp, "&"),
    (Kind::Plus, "+"),
    (Kind::Minus, "-"),
    (Kind::Equal, "="),
    (Kind::Unequal, "#"),
    (Kind::Less, "<"),
    (Kind::LessEqual, "<="),
    (Kind::Greater, ">"),
    (Kind::GreaterEqual, ">="),
];

/// The keyword or symbol with this spelling.
pub fn fixed_kind(word: &[u8]) -> Option<Kind>
    ensures { MatchOption result
        ((kind : Kind) → ¬ Contains fixed (kind, word.now))
        (λ kind. Contains fixed (kind, word.now)) }
{
    kind_in(&FIXED, word)
}

/// The first kind among these entries with this spelling.
fn kind_in(entries: &[(Kind, &str)], word: &[u8]) -> Option<Kind>
    ensures { MatchOption result
        ((kind : Kind) → ¬ Contains (spellings entries.now) (kind, word.now))
        (λ kind. Contains (spellings entries.now) (kind, word.now)) }
{
    for (kind, spelling) in entries {
        if spelling.as_bytes() == word {
            return Some(*kind);
        }
    }
    None
}
