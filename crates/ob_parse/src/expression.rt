//! Expressions.
//!
//! Parentheses, brackets and `~` may nest `room` deep.

ghost use Rattle.std.specs.Prelude.{◌≡◌, ◌≢◌, Some, None, MatchOption};
ghost use Rattle.ob_syntax.specs.declared.token.Kind.{Kind};
ghost use Rattle.ob_syntax.specs.Grammar as grammar;
ghost use Rattle.ob_syntax.specs.Grammar.{MulOp, mul_kind, AddOp, add_kind, RelationOp};
ghost use Rattle.ob_syntax.specs.Grammar.{relation_kind};
ghost use Rattle.ob_syntax.specs.ChosenRule.{first};
ghost use Rattle.ob_parse.specs.Reading.{left, Reads, IsRead, IsNext};

use crate::cursor::{ParseFault, Parser};
use ob_syntax::{
    Designator, Expr, Factor, FactorForm, Kind, NextFactor, NextTerm, Relation, Selector,
    SelectorForm, SimpleExpr, Term,
};
use pra_list::{Owned, Seq};

/// `selector = {"." ident | "[" expression "]"}.`
#[cycle(expression)]
pub fn selectors(p: &mut Parser, room: u32) -> Result<Seq<Selector>, ParseFault>
    ensures { Reads grammar.Selectors room p.old result p.new }
{
    let mut all = Seq::new(p.alloc);
    while p.begins_selector() {
        let selector = selector(p, room)?;
        all.push(selector)?;
    }
    Ok(all)
}

#[cycle(expression)]
fn selector(p: &mut Parser, room: u32) -> Result<Selector, ParseFault>
    ensures { Reads grammar.Selector room p.old result p.new }
{
    let start = p.at;
    let Some(kind) = p.peek() else {
        return Err(ParseFault::Grammar(start));
    };
    match kind {
        Kind::Period => {
            p.advance();
            let name = p.at;
            p.expect(Kind::Ident)?;
            let span = p.span_from(start);
            let form = SelectorForm::Field(name);
            Ok(Selector { span, form })
        }
        Kind::LeftBracket => {
            if room == 0 {
                return Err(ParseFault::TooDeep(start));
            }
            p.advance();
            let index = expression(p, room - 1)?;
            p.expect(Kind::RightBracket)?;
            let span = p.span_from(start);
            let form = SelectorForm::Index(index);
            Ok(Selector { span, form })
        }
        _ => Err(ParseFault::Grammar(start)),
    }
}

/// `factor = ident selector | integer | "(" expression ")" | "~" factor.`
#[cycle(expression)]
fn factor(p: &mut Parser, room: u32) -> Result<Factor, ParseFault>
    ensures { Reads grammar.Factor room p.old result p.new }
{
    let start = p.at;
    let Some(kind) = p.peek() else {
        return Err(ParseFault::Grammar(start));
    };
    match kind {
        Kind::Ident => {
            p.advance();
            let selectors = selectors(p, room)?;
            let span = p.span_from(start);
            let form = FactorForm::Name(Designator {
                span,
                name: start,
                selectors,
            });
            Ok(Factor { span, form })
        }
        Kind::Number(value) => {
            p.advance();
            let span = p.span_from(start);
            let form = FactorForm::Number(value);
            Ok(Factor { span, form })
        }
        Kind::LeftParen => {
            if room == 0 {
                return Err(ParseFault::TooDeep(start));
            }
            p.advance();
            let inner = expression(p, room - 1)?;
            p.expect(Kind::RightParen)?;
            let span = p.span_from(start);
            let form = FactorForm::Paren(Owned::new(p.alloc, inner)?);
            Ok(Factor { span, form })
        }
        Kind::Tilde => {
            if room == 0 {
                return Err(ParseFault::TooDeep(start));
            }
            p.advance();
            let inner = factor(p, room - 1)?;
            let span = p.span_from(start);
            let form = FactorForm::Not(Owned::new(p.alloc, inner)?);
            Ok(Factor { span, form })
        }
        _ => Err(ParseFault::Grammar(start)),
    }
}

/// `term = factor {("*" | "DIV" | "MOD" | "&") factor}.`
#[cycle(expression)]
fn term(p: &mut Parser, room: u32) -> Result<Term, ParseFault>
    ensures { Reads grammar.Term room p.old result p.new }
{
    let start = p.at;
    let first = factor(p, room)?;
    let rest = factors(p, room)?;
    let span = p.span_from(start);
    Ok(Term { span, first, rest })
}

#[cycle(expression)]
fn factors(p: &mut Parser, room: u32) -> Result<Seq<NextFactor>, ParseFault>
    ensures { Reads grammar.Factors room p.old result p.new }
{
    let mut rest = Seq::new(p.alloc);
    while let Some(op) = mul_operator(p) {
        let factor = factor(p, room)?;
        rest.push(NextFactor { op, factor })?;
    }
    Ok(rest)
}

/// `SimpleExpression = ["+" | "-"] term {("+" | "-" | "OR") term}.`
#[cycle(expression)]
fn simple_expression(p: &mut Parser, room: u32) -> Result<SimpleExpr, ParseFault>
    ensures { Reads grammar.SimpleExpression room p.old result p.new }
{
    let start = p.at;
    let sign = sign(p);
    let first = term(p, room)?;
    let rest = terms(p, room)?;
    let span = p.span_from(start);
    Ok(SimpleExpr {
        span,
        sign,
        first,
        rest,
    })
}

#[cycle(expression)]
fn terms(p: &mut Parser, room: u32) -> Result<Seq<NextTerm>, ParseFault>
    ensures { Reads grammar.Terms room p.old result p.new }
{
    let mut rest = Seq::new(p.alloc);
    while let Some(op) = add_operator(p) {
        let term = term(p, room)?;
        rest.push(NextTerm { op, term })?;
    }
    Ok(rest)
}

/// `expression = SimpleExpression [("=" | "#" | "<" | "<=" | ">" | ">=") SimpleExpression].`
#[cycle(expression)]
pub fn expression(p: &mut Parser, room: u32) -> Result<Expr, ParseFault>
    ensures { Reads grammar.Expression room p.old result p.new }
{
    let start = p.at;
    let left = simple_expression(p, room)?;
    let relation = comparison(p, room)?;
    let span = p.span_from(start);
    Ok(Expr {
        span,
        left,
        relation,
    })
}

#[cycle(expression)]
fn comparison(p: &mut Parser, room: u32) -> Result<Option<Relation>, ParseFault>
    ensures { Reads grammar.Comparison room p.old result p.new }
{
    let Some(op) = relation_operator(p) else {
        return Ok(None);
    };
    let right = simple_expression(p, room)?;
    Ok(Some(Relation { op, right }))
}

/// `ActualParameters = "(" [expression {"," expression}] ")".`, or none.
pub fn actual_parameters(p: &mut Parser, room: u32) -> Result<Seq<Expr>, ParseFault>
    ensures { Reads grammar.ActualParameters room p.old result p.new }
{
    if !p.accept(Kind::LeftParen) {
        return Ok(Seq::new(p.alloc));
    }
    let list = argument_list(p, room)?;
    p.expect(Kind::RightParen)?;
    Ok(list)
}

fn argument_list(p: &mut Parser, room: u32) -> Result<Seq<Expr>, ParseFault>
    ensures { Reads grammar.ArgumentList room p.old result p.new }
{
    let mut all = Seq::new(p.alloc);
    if !p.begins_expression() {
        return Ok(all);
    }
    if room == 0 {
        return Err(ParseFault::TooDeep(p.at));
    }
    let first = expression(p, room - 1)?;
    all.push(first)?;
    while p.accept(Kind::Comma) {
        let next = expression(p, room - 1)?;
        all.push(next)?;
    }
    Ok(all)
}

fn mul_operator(p: &mut Parser) -> Option<Kind>
    ensures { MatchOption result
        ((p.new ≡ p.old) × ((op : MulOp) → first (left p.old) ≢ Some (mul_kind op)))
        (λ kind. (op : MulOp) × (kind ≡ mul_kind op) × IsNext kind p.old p.new) }
{
    let kind = p.peek()?;
    match kind {
        Kind::Times | Kind::KwDiv | Kind::KwMod | Kind::Amp => {
            p.advance();
            Some(kind)
        }
        _ => None,
    }
}

fn add_operator(p: &mut Parser) -> Option<Kind>
    ensures { MatchOption result
        ((p.new ≡ p.old) × ((op : AddOp) → first (left p.old) ≢ Some (add_kind op)))
        (λ kind. (op : AddOp) × (kind ≡ add_kind op) × IsNext kind p.old p.new) }
{
    let kind = p.peek()?;
    match kind {
        Kind::Plus | Kind::Minus | Kind::KwOr => {
            p.advance();
            Some(kind)
        }
        _ => None,
    }
}

fn relation_operator(p: &mut Parser) -> Option<Kind>
    ensures { MatchOption result
        ((p.new ≡ p.old) × ((op : RelationOp) → first (left p.old) ≢ Some (relation_kind op)))
        (λ kind. (op : RelationOp) × (kind ≡ relation_kind op) × IsNext kind p.old p.new) }
{
    let kind = p.peek()?;
    match kind {
        Kind::Equal
        | Kind::Unequal
        | Kind::Less
        | Kind::LessEqual
        | Kind::Greater
        | Kind::GreaterEqual => {
            p.advance();
            Some(kind)
        }
        _ => None,
    }
}

fn sign(p: &mut Parser) -> Option<Kind>
    ensures { IsRead grammar.Sign 0 result p.old p.new }
{
    let kind = p.peek()?;
    match kind {
        Kind::Plus | Kind::Minus => {
            p.advance();
            Some(kind)
        }
        _ => None,
    }
}
