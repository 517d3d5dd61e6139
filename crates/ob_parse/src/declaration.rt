//! Declarations and the module.
//!
//! Procedures and what stands in them may nest `room` deep.

ghost use Rattle.std.specs.Prelude.{◌≡◌};
ghost use Rattle.ob_syntax.specs.Grammar as grammar;
ghost use Rattle.ob_parse.specs.Reading.{Reads};

use crate::cursor::{ParseFault, Parser};
use crate::expression::expression;
use crate::statement::statement_sequence;
use crate::types::{ident_list, name_list, type_expression};
use ob_syntax::{ConstDecl, Decls, Kind, Module, NameList, Proc, Section, Stmt, TypeDecl};
use pra_list::Seq;

/// `module = "MODULE" ident ";" declarations ["BEGIN" StatementSequence] "END" ident ".".`
pub fn whole_module(p: &mut Parser, room: u32) -> Result<Module, ParseFault>
    ensures { Reads grammar.Module room p.old result p.new }
{
    let start = p.at;
    p.expect(Kind::KwModule)?;
    let name = p.at;
    p.expect(Kind::Ident)?;
    p.expect(Kind::Semicolon)?;
    let decls = declarations(p, room)?;
    let body = body(p, room)?;
    p.expect(Kind::KwEnd)?;
    let close = p.at;
    p.expect(Kind::Ident)?;
    p.expect(Kind::Period)?;
    let span = p.span_from(start);
    Ok(Module {
        span,
        name,
        decls,
        body,
        close,
    })
}

/// `["BEGIN" StatementSequence]`
fn body(p: &mut Parser, room: u32) -> Result<Seq<Stmt>, ParseFault>
    ensures { Reads grammar.Body room p.old result p.new }
{
    if !p.accept(Kind::KwBegin) {
        return Ok(Seq::new(p.alloc));
    }
    let body = statement_sequence(p, room)?;
    Ok(body)
}

/// `declarations = ["CONST" {ident "=" expression ";"}] ["TYPE" {ident "=" type ";"}]
/// ["VAR" {IdentList ":" type ";"}] {ProcedureDeclaration ";"}.`
#[cycle(declarations)]
fn declarations(p: &mut Parser, room: u32) -> Result<Decls, ParseFault>
    ensures { Reads grammar.Declarations room p.old result p.new }
{
    let consts = constants(p, room)?;
    let types = types(p, room)?;
    let vars = variables(p, room)?;
    let procs = procedures(p, room)?;
    Ok(Decls {
        consts,
        types,
        vars,
        procs,
    })
}

/// `"CONST" {ident "=" expression ";"}`, or none.
fn constants(p: &mut Parser, room: u32) -> Result<Seq<ConstDecl>, ParseFault>
    ensures { Reads grammar.Constants room p.old result p.new }
{
    if !p.accept(Kind::KwConst) {
        return Ok(Seq::new(p.alloc));
    }
    let list = constant_list(p, room)?;
    Ok(list)
}

fn constant_list(p: &mut Parser, room: u32) -> Result<Seq<ConstDecl>, ParseFault>
    ensures { Reads grammar.ConstantList room p.old result p.new }
{
    let mut all = Seq::new(p.alloc);
    while p.is_next(Kind::Ident) {
        if room == 0 {
            return Err(ParseFault::TooDeep(p.at));
        }
        let next = constant(p, room - 1)?;
        p.expect(Kind::Semicolon)?;
        all.push(next)?;
    }
    Ok(all)
}

fn constant(p: &mut Parser, room: u32) -> Result<ConstDecl, ParseFault>
    ensures { Reads grammar.Constant room p.old result p.new }
{
    let name = p.at;
    p.expect(Kind::Ident)?;
    p.expect(Kind::Equal)?;
    let value = expression(p, room)?;
    Ok(ConstDecl { name, value })
}

/// `"TYPE" {ident "=" type ";"}`, or none.
fn types(p: &mut Parser, room: u32) -> Result<Seq<TypeDecl>, ParseFault>
    ensures { Reads grammar.Types room p.old result p.new }
{
    if !p.accept(Kind::KwType) {
        return Ok(Seq::new(p.alloc));
    }
    let list = type_list(p, room)?;
    Ok(list)
}

fn type_list(p: &mut Parser, room: u32) -> Result<Seq<TypeDecl>, ParseFault>
    ensures { Reads grammar.TypeList room p.old result p.new }
{
    let mut all = Seq::new(p.alloc);
    while p.is_next(Kind::Ident) {
        if room == 0 {
            return Err(ParseFault::TooDeep(p.at));
        }
        let next = type_declaration(p, room - 1)?;
        p.expect(Kind::Semicolon)?;
        all.push(next)?;
    }
    Ok(all)
}

fn type_declaration(p: &mut Parser, room: u32) -> Result<TypeDecl, ParseFault>
    ensures { Reads grammar.TypeDeclaration room p.old result p.new }
{
    let name = p.at;
    p.expect(Kind::Ident)?;
    p.expect(Kind::Equal)?;
    let shape = type_expression(p, room)?;
    Ok(TypeDecl { name, shape })
}

/// `"VAR" {IdentList ":" type ";"}`, or none.
fn variables(p: &mut Parser, room: u32) -> Result<Seq<NameList>, ParseFault>
    ensures { Reads grammar.Variables room p.old result p.new }
{
    if !p.accept(Kind::KwVar) {
        return Ok(Seq::new(p.alloc));
    }
    let list = variable_list(p, room)?;
    Ok(list)
}

fn variable_list(p: &mut Parser, room: u32) -> Result<Seq<NameList>, ParseFault>
    ensures { Reads grammar.VariableList room p.old result p.new }
{
    let mut all = Seq::new(p.alloc);
    while p.is_next(Kind::Ident) {
        if room == 0 {
            return Err(ParseFault::TooDeep(p.at));
        }
        let next = name_list(p, room - 1)?;
        p.expect(Kind::Semicolon)?;
        all.push(next)?;
    }
    Ok(all)
}

/// `{ProcedureDeclaration ";"}`
#[cycle(declarations)]
fn procedures(p: &mut Parser, room: u32) -> Result<Seq<Proc>, ParseFault>
    ensures { Reads grammar.Procedures room p.old result p.new }
{
    let mut all = Seq::new(p.alloc);
    while p.is_next(Kind::KwProcedure) {
        if room == 0 {
            return Err(ParseFault::TooDeep(p.at));
        }
        let next = procedure(p, room - 1)?;
        p.expect(Kind::Semicolon)?;
        all.push(next)?;
    }
    Ok(all)
}

/// `ProcedureDeclaration = ProcedureHeading ";" declarations ["BEGIN" StatementSequence] "END"
/// ident.` `ProcedureHeading = "PROCEDURE" ident [FormalParameters].`
#[cycle(declarations)]
fn procedure(p: &mut Parser, room: u32) -> Result<Proc, ParseFault>
    ensures { Reads grammar.Procedure room p.old result p.new }
{
    let start = p.at;
    p.expect(Kind::KwProcedure)?;
    let name = p.at;
    p.expect(Kind::Ident)?;
    let params = formal_parameters(p, room)?;
    p.expect(Kind::Semicolon)?;
    let decls = declarations(p, room)?;
    let body = body(p, room)?;
    p.expect(Kind::KwEnd)?;
    let close = p.at;
    p.expect(Kind::Ident)?;
    let span = p.span_from(start);
    Ok(Proc {
        span,
        name,
        params,
        decls,
        body,
        close,
    })
}

/// `FormalParameters = "(" [FPSection {";" FPSection}] ")".`, or none.
fn formal_parameters(p: &mut Parser, room: u32) -> Result<Seq<Section>, ParseFault>
    ensures { Reads grammar.FormalParameters room p.old result p.new }
{
    if !p.accept(Kind::LeftParen) {
        return Ok(Seq::new(p.alloc));
    }
    let list = section_list(p, room)?;
    p.expect(Kind::RightParen)?;
    Ok(list)
}

fn section_list(p: &mut Parser, room: u32) -> Result<Seq<Section>, ParseFault>
    ensures { Reads grammar.SectionList room p.old result p.new }
{
    let mut all = Seq::new(p.alloc);
    if !p.begins_section() {
        return Ok(all);
    }
    let first = section(p, room)?;
    all.push(first)?;
    while p.accept(Kind::Semicolon) {
        let next = section(p, room)?;
        all.push(next)?;
    }
    Ok(all)
}

/// `FPSection = ["VAR"] IdentList ":" type.`
fn section(p: &mut Parser, room: u32) -> Result<Section, ParseFault>
    ensures { Reads grammar.Section room p.old result p.new }
{
    let by_var = p.accept(Kind::KwVar);
    let names = ident_list(p)?;
    p.expect(Kind::Colon)?;
    let shape = type_expression(p, room)?;
    Ok(Section {
        by_var,
        names,
        shape,
    })
}
