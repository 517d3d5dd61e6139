//! Types.
//!
//! The elements of arrays and the fields of records may nest `room` deep.

ghost use Rattle.std.specs.Prelude.{ℕ};
ghost use Rattle.ob_syntax.specs.Grammar as grammar;
ghost use Rattle.ob_parse.specs.Reading.{Reads};

use crate::cursor::{ParseFault, Parser};
use crate::expression::expression;
use crate::list::push_some;
use ob_syntax::{Kind, NameList, TypeExpr, TypeForm};
use pra_list::{Owned, Seq};

/// `IdentList = ident {"," ident}.`
pub fn ident_list(p: &mut Parser) -> Result<Seq<u32>, ParseFault>
    ensures { (room : ℕ) → Reads grammar.IdentList room p.old result p.new }
{
    let mut names = Seq::new(p.alloc);
    let first = p.at;
    p.expect(Kind::Ident)?;
    names.push(first)?;
    while p.accept(Kind::Comma) {
        let next = p.at;
        p.expect(Kind::Ident)?;
        names.push(next)?;
    }
    Ok(names)
}

/// `IdentList ":" type`: fields of a record, or variables.
#[cycle(types)]
pub fn name_list(p: &mut Parser, room: u32) -> Result<NameList, ParseFault>
    ensures { Reads grammar.NameList room p.old result p.new }
{
    let names = ident_list(p)?;
    p.expect(Kind::Colon)?;
    let shape = type_expression(p, room)?;
    Ok(NameList { names, shape })
}

/// `type = ident | ArrayType | RecordType.` `ArrayType = "ARRAY" expression "OF" type.`
/// `RecordType = "RECORD" FieldList {";" FieldList} "END".`
#[cycle(types)]
pub fn type_expression(p: &mut Parser, room: u32) -> Result<TypeExpr, ParseFault>
    ensures { Reads grammar.TypeExpression room p.old result p.new }
{
    let start = p.at;
    let Some(kind) = p.peek() else {
        return Err(ParseFault::Grammar(start));
    };
    match kind {
        Kind::Ident => {
            p.advance();
            let span = p.span_from(start);
            let form = TypeForm::Name(start);
            Ok(TypeExpr { span, form })
        }
        Kind::KwArray => {
            if room == 0 {
                return Err(ParseFault::TooDeep(start));
            }
            p.advance();
            let length = expression(p, room)?;
            p.expect(Kind::KwOf)?;
            let element = type_expression(p, room - 1)?;
            let span = p.span_from(start);
            let owned_length = Owned::new(p.alloc, length)?;
            let owned_element = Owned::new(p.alloc, element)?;
            let form = TypeForm::Array(owned_length, owned_element);
            Ok(TypeExpr { span, form })
        }
        Kind::KwRecord => {
            p.advance();
            let fields = field_sequence(p, room)?;
            p.expect(Kind::KwEnd)?;
            let span = p.span_from(start);
            let form = TypeForm::Record(fields);
            Ok(TypeExpr { span, form })
        }
        _ => Err(ParseFault::Grammar(start)),
    }
}

#[cycle(types)]
fn field_sequence(p: &mut Parser, room: u32) -> Result<Seq<NameList>, ParseFault>
    ensures { Reads grammar.FieldSequence room p.old result p.new }
{
    let mut all = Seq::new(p.alloc);
    let first = field_list(p, room)?;
    push_some(&mut all, first)?;
    while p.accept(Kind::Semicolon) {
        let next = field_list(p, room)?;
        push_some(&mut all, next)?;
    }
    Ok(all)
}

/// `FieldList = [IdentList ":" type].`
#[cycle(types)]
fn field_list(p: &mut Parser, room: u32) -> Result<Option<NameList>, ParseFault>
    ensures { Reads grammar.FieldList room p.old result p.new }
{
    if !p.is_next(Kind::Ident) {
        return Ok(None);
    }
    if room == 0 {
        return Err(ParseFault::TooDeep(p.at));
    }
    let list = name_list(p, room - 1)?;
    Ok(Some(list))
}
