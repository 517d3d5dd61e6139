//! How much a statement part has in it: what the limit on nodes counts.

ghost use Rattle.std.specs.Prelude.{◌≡◌, ◌+◌, ◌-◌, Ok, drop, take};
ghost use Rattle.ob_syntax.specs.Declarations.{is_node as is_a_node, span_nodes as nodes_of_span};
ghost use Rattle.ob_syntax.specs.Declarations.{nodes_of as nodes_of_all};
ghost use Rattle.ob_check.specs.Judging.{Answers};

use crate::refusal::Refusal;
use ob_syntax::{Kind, Span, Stmt, Token};

fn is_node(kind: Kind) -> bool
    ensures { result ≡ is_a_node kind }
{
    match kind {
        Kind::Ident => true,
        Kind::Number(_) => true,
        Kind::KwDiv => true,
        Kind::KwElsif => true,
        Kind::KwIf => true,
        Kind::KwMod => true,
        Kind::KwOr => true,
        Kind::KwRepeat => true,
        Kind::KwWhile => true,
        Kind::Period => true,
        Kind::Becomes => true,
        Kind::LeftBracket => true,
        Kind::Tilde => true,
        Kind::Times => true,
        Kind::Amp => true,
        Kind::Plus => true,
        Kind::Minus => true,
        Kind::Equal => true,
        Kind::Unequal => true,
        Kind::Less => true,
        Kind::LessEqual => true,
        Kind::Greater => true,
        Kind::GreaterEqual => true,
        _ => false,
    }
}

/// The tokens of a phrase.
fn spanned(tokens: &[Token], span: Span) -> &[Token]
    ensures { result.now ≡ take (span.last + 1 - span.first) (drop span.first tokens.now) }
{
    let from = (span.first as usize).min(tokens.len());
    let to = (span.last as usize + 1).min(tokens.len());
    if from < to { &tokens[from..to] } else { &[] }
}

/// The nodes of a phrase.
fn span_nodes(tokens: &[Token], span: Span) -> usize
    ensures { result ≡ nodes_of_span tokens.now span }
{
    spanned(tokens, span)
        .iter()
        .filter(|token| is_node(token.kind))
        .count()
}

/// The nodes of a statement part.
pub fn nodes_of(tokens: &[Token], body: &[Stmt]) -> Result<u32, Refusal>
    ensures { Answers (Ok (nodes_of_all tokens.now body.now)) result }
{
    let mut nodes: u32 = 0;
    for statement in body {
        let more = u32::try_from(span_nodes(tokens, statement.span)).map_err(
            |_| Refusal::OutOfMemory,
        )?;
        nodes = nodes.checked_add(more).ok_or(Refusal::OutOfMemory)?;
    }
    Ok(nodes)
}
