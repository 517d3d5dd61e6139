//! The tree of a module.
//!
//! A name is the number of its token. A list has one entry for each phrase of its repetition that
//! is not empty, and an absent part is an empty list. Numbers of tokens count from 0.

use crate::token::Kind;
use pra_list::{Owned, Seq};

/// The first and the last token of a phrase.
#[derive(Clone, Copy, Debug, PartialEq, Eq)]
pub struct Span {
    pub first: u32,
    pub last: u32,
}

#[derive(Drop)]
pub struct Module {
    pub span: Span,
    pub name: u32,
    pub decls: Decls,
    pub body: Seq<Stmt>,
    /// The name after END.
    pub close: u32,
}

#[cycle(declarations)]
#[derive(Drop)]
pub struct Decls {
    pub consts: Seq<ConstDecl>,
    pub types: Seq<TypeDecl>,
    pub vars: Seq<NameList>,
    pub procs: Seq<Proc>,
}

#[derive(Drop)]
pub struct ConstDecl {
    pub name: u32,
    pub value: Expr,
}

#[derive(Drop)]
pub struct TypeDecl {
    pub name: u32,
    pub shape: TypeExpr,
}

/// Names of one type: variables, or fields of a record.
#[cycle(types)]
#[derive(Drop)]
pub struct NameList {
    pub names: Seq<u32>,
    pub shape: TypeExpr,
}

/// Parameters of one type, by value or by reference.
#[derive(Drop)]
pub struct Section {
    pub by_var: bool,
    pub names: Seq<u32>,
    pub shape: TypeExpr,
}

#[cycle(declarations)]
#[derive(Drop)]
pub struct Proc {
    pub span: Span,
    pub name: u32,
    pub params: Seq<Section>,
    pub decls: Decls,
    pub body: Seq<Stmt>,
    /// The name after END.
    pub close: u32,
}

#[cycle(types)]
#[derive(Drop)]
pub struct TypeExpr {
    pub span: Span,
    pub form: TypeForm,
}

#[cycle(types)]
#[derive(Drop)]
pub enum TypeForm {
    Name(u32),
    /// The length, and the type of the elements.
    Array(Owned<Expr>, Owned<TypeExpr>),
    Record(Seq<NameList>),
}

#[cycle(statements)]
#[derive(Drop)]
pub struct Stmt {
    pub span: Span,
    pub form: StmtForm,
}

#[cycle(statements)]
#[derive(Drop)]
pub enum StmtForm {
    Assign(Designator, Expr),
    /// The procedure's name and the arguments.
    Call(u32, Seq<Expr>),
    /// IF and each ELSIF, and the statements of ELSE.
    If(Seq<Arm>, Seq<Stmt>),
    While(Expr, Seq<Stmt>),
    /// The statements, and the condition of UNTIL.
    Repeat(Seq<Stmt>, Expr),
}

#[cycle(statements)]
#[derive(Drop)]
pub struct Arm {
    pub test: Expr,
    pub body: Seq<Stmt>,
}

#[cycle(expressions)]
#[derive(Drop)]
pub struct Designator {
    pub span: Span,
    pub name: u32,
    pub selectors: Seq<Selector>,
}

#[cycle(expressions)]
#[derive(Drop)]
pub struct Selector {
    pub span: Span,
    pub form: SelectorForm,
}

#[cycle(expressions)]
#[derive(Drop)]
pub enum SelectorForm {
    Field(u32),
    Index(Expr),
}

#[cycle(expressions)]
#[derive(Drop)]
pub struct Expr {
    pub span: Span,
    pub left: SimpleExpr,
    pub relation: Option<Relation>,
}

#[cycle(expressions)]
#[derive(Drop)]
pub struct Relation {
    pub op: Kind,
    pub right: SimpleExpr,
}

#[cycle(expressions)]
#[derive(Drop)]
pub struct SimpleExpr {
    pub span: Span,
    pub sign: Option<Kind>,
    pub first: Term,
    pub rest: Seq<NextTerm>,
}

#[cycle(expressions)]
#[derive(Drop)]
pub struct NextTerm {
    pub op: Kind,
    pub term: Term,
}

#[cycle(expressions)]
#[derive(Drop)]
pub struct Term {
    pub span: Span,
    pub first: Factor,
    pub rest: Seq<NextFactor>,
}

#[cycle(expressions)]
#[derive(Drop)]
pub struct NextFactor {
    pub op: Kind,
    pub factor: Factor,
}

#[cycle(expressions)]
#[derive(Drop)]
pub struct Factor {
    pub span: Span,
    pub form: FactorForm,
}

#[cycle(expressions)]
#[derive(Drop)]
pub enum FactorForm {
    Name(Designator),
    Number(i32),
    Paren(Owned<Expr>),
    Not(Owned<Factor>),
}
