//! Statements.
//!
//! Statement sequences inside IF, WHILE and REPEAT, parentheses, brackets, arguments and `~` may
//! nest `room` deep.

ghost use Rattle.std.specs.Prelude.{◌≡◌, ◌≤◌, Some};
ghost use Rattle.ob_syntax.specs.declared.token.Kind.{Kind};
ghost use Rattle.ob_syntax.specs.Grammar as grammar;
ghost use Rattle.ob_syntax.specs.ChosenRule.{first};
ghost use Rattle.ob_parse.specs.Reading.{left, Reads};

use crate::cursor::{ParseFault, Parser};
use crate::expression::{actual_parameters, expression, selectors};
use crate::list::push_some;
use ob_syntax::{Arm, Designator, Kind, Stmt, StmtForm};
use pra_list::Seq;

/// `StatementSequence = statement {";" statement}.`
#[cycle(statements)]
pub fn statement_sequence(p: &mut Parser, room: u32) -> Result<Seq<Stmt>, ParseFault>
    ensures { Reads grammar.StatementSequence room p.old result p.new }
{
    let mut all = Seq::new(p.alloc);
    let first = statement(p, room)?;
    push_some(&mut all, first)?;
    while p.accept(Kind::Semicolon) {
        let next = statement(p, room)?;
        push_some(&mut all, next)?;
    }
    Ok(all)
}

/// `statement = [assignment | ProcedureCall | IfStatement | WhileStatement | RepeatStatement].`
#[cycle(statements)]
fn statement(p: &mut Parser, room: u32) -> Result<Option<Stmt>, ParseFault>
    ensures { Reads grammar.Statement room p.old result p.new }
{
    if !p.begins_statement() {
        return Ok(None);
    }
    if room == 0 {
        return Err(ParseFault::TooDeep(p.at));
    }
    let some = some_statement(p, room - 1)?;
    Ok(Some(some))
}

#[cycle(statements)]
fn some_statement(p: &mut Parser, room: u32) -> Result<Stmt, ParseFault>
    ensures { Reads grammar.Action room p.old result p.new }
{
    let Some(kind) = p.peek() else {
        return Err(ParseFault::Grammar(p.at));
    };
    match kind {
        Kind::Ident => assignment_or_call(p, room),
        Kind::KwIf => if_statement(p, room),
        Kind::KwWhile => while_statement(p, room),
        Kind::KwRepeat => repeat_statement(p, room),
        _ => Err(ParseFault::Grammar(p.at)),
    }
}

/// `assignment = ident selector ":=" expression.` `ProcedureCall = ident [ActualParameters].`
fn assignment_or_call(p: &mut Parser, room: u32) -> Result<Stmt, ParseFault>
    requires { first (left p.old) ≡ Some Kind.Ident }
    ensures { Reads grammar.Action room p.old result p.new }
{
    let start = p.at;
    p.advance();
    if p.continues_assignment() {
        let selectors = selectors(p, room)?;
        let target = Designator {
            span: p.span_from(start),
            name: start,
            selectors,
        };
        p.expect(Kind::Becomes)?;
        let value = expression(p, room)?;
        let span = p.span_from(start);
        let form = StmtForm::Assign(target, value);
        return Ok(Stmt { span, form });
    }
    let arguments = actual_parameters(p, room)?;
    let span = p.span_from(start);
    let form = StmtForm::Call(start, arguments);
    Ok(Stmt { span, form })
}

/// `IfStatement = "IF" expression "THEN" StatementSequence {"ELSIF" expression "THEN"
/// StatementSequence} ["ELSE" StatementSequence] "END".`
#[cycle(statements)]
fn if_statement(p: &mut Parser, room: u32) -> Result<Stmt, ParseFault>
    requires { first (left p.old) ≡ Some Kind.KwIf }
    ensures { Reads grammar.Action room p.old result p.new }
{
    let start = p.at;
    if room == 0 {
        return Err(ParseFault::TooDeep(start));
    }
    p.advance();
    let arms = arms(p, room)?;
    let others = otherwise(p, room)?;
    p.expect(Kind::KwEnd)?;
    let span = p.span_from(start);
    let form = StmtForm::If(arms, others);
    Ok(Stmt { span, form })
}

#[cycle(statements)]
fn arms(p: &mut Parser, room: u32) -> Result<Seq<Arm>, ParseFault>
    requires { 1 ≤ room }
    ensures { Reads grammar.Arms room p.old result p.new }
{
    let mut all = Seq::new(p.alloc);
    let first = arm(p, room)?;
    all.push(first)?;
    while p.accept(Kind::KwElsif) {
        let next = arm(p, room)?;
        all.push(next)?;
    }
    Ok(all)
}

#[cycle(statements)]
fn arm(p: &mut Parser, room: u32) -> Result<Arm, ParseFault>
    requires { 1 ≤ room }
    ensures { Reads grammar.Arm room p.old result p.new }
{
    let test = expression(p, room)?;
    p.expect(Kind::KwThen)?;
    let body = statement_sequence(p, room)?;
    Ok(Arm { test, body })
}

#[cycle(statements)]
fn otherwise(p: &mut Parser, room: u32) -> Result<Seq<Stmt>, ParseFault>
    requires { 1 ≤ room }
    ensures { Reads grammar.Else room p.old result p.new }
{
    if !p.accept(Kind::KwElse) {
        return Ok(Seq::new(p.alloc));
    }
    let body = statement_sequence(p, room)?;
    Ok(body)
}

/// `WhileStatement = "WHILE" expression "DO" StatementSequence "END".`
#[cycle(statements)]
fn while_statement(p: &mut Parser, room: u32) -> Result<Stmt, ParseFault>
    requires { first (left p.old) ≡ Some Kind.KwWhile }
    ensures { Reads grammar.Action room p.old result p.new }
{
    let start = p.at;
    if room == 0 {
        return Err(ParseFault::TooDeep(start));
    }
    p.advance();
    let test = expression(p, room)?;
    p.expect(Kind::KwDo)?;
    let body = statement_sequence(p, room)?;
    p.expect(Kind::KwEnd)?;
    let span = p.span_from(start);
    let form = StmtForm::While(test, body);
    Ok(Stmt { span, form })
}

/// `RepeatStatement = "REPEAT" StatementSequence "UNTIL" expression.`
#[cycle(statements)]
fn repeat_statement(p: &mut Parser, room: u32) -> Result<Stmt, ParseFault>
    requires { first (left p.old) ≡ Some Kind.KwRepeat }
    ensures { Reads grammar.Action room p.old result p.new }
{
    let start = p.at;
    if room == 0 {
        return Err(ParseFault::TooDeep(start));
    }
    p.advance();
    let body = statement_sequence(p, room)?;
    p.expect(Kind::KwUntil)?;
    let condition = expression(p, room)?;
    let span = p.span_from(start);
    let form = StmtForm::Repeat(body, condition);
    Ok(Stmt { span, form })
}
