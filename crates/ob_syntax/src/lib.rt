//! The syntax of Oberon-0: tokens and how bytes spell them, the tree and how tokens derive it.
//!
//! Here stand the types of the front (tokens, tree, checked module) and the definitions that
//! scanner, parser, checker and meaning share. Read first the specs `Tokens` (a text's token list
//! or its first fault), `Grammar` with `Forms` and `Tree` (productions, depth, the tree that a
//! derivation stands for), `Whole` (modules, and where tokens stop being the beginning of one) and
//! `Source` (a source with its tokens, its tree and the text of a name). The layers above may use
//! the laws in [`token_laws`] and [`tree_laws`]: one token list or one first fault, one tree, and
//! what the numbers in a tree are.
//!
//! # Well-formed modules
//!
//! The rules of the language are said as a reading, in the specs `Names`, `Expressions`, `Types`,
//! `Statements` and `Declarations`, a definition for each phrase of the grammar and in its order.
//! Such a definition looks at a phrase at a place, and gives what the phrase stands for there, or
//! the number of the first rule that is broken in it, with the token at which this is told. So a
//! rule is read where its phrase is: find the phrase, and look for the rule's number behind `Err`;
//! what stands in front of it in the `do` are the parts of the phrase, in the order of the text,
//! each of which is well formed before the phrase itself is looked at.
//!
//! A place is what is known there: the scope in which it lies, the scopes around this one, the
//! procedure in whose block it is, and the types and headings that were declared before. A scope is
//! the list of its declarations in the order of the text. A declaration has a name and a meaning
//! (a constant's value, a type, a variable with its owner, a procedure); from the name's own token
//! to the end of its declaration it has no meaning yet, so that another declaration of the same
//! name in this scope is refused at once, while a use still finds what an outer scope shows. A name
//! means what the innermost scope that shows it makes of it, and last what it is in every module
//! (INTEGER, TRUE, Write, ..).
//!
//! `WellFormed` joins the rules: `IsBroken` where the reading of the module stops at a rule,
//! `IsWellFormed` where it does not, then the limits in the order in which they are tested
//! (`first_excess`), and the checked module that is made of the reading (`resolved`).
#![tactic(auto)]

pub mod checked;
pub mod token;
pub mod token_laws;
pub mod tree;
pub mod tree_laws;

pub use checked::{
    Checked, CheckedProc, Draft, Local, Meaning, ModuleVar, Param, RArg, RArm, RExpr, ROp, RStep,
    RStmt, RVar, Root, Shape, Standard, Typed, Value,
};
pub use token::{Kind, Token};
pub use tree::{
    Arm, ConstDecl, Decls, Designator, Expr, Factor, FactorForm, Module, NameList, NextFactor,
    NextTerm, Proc, Relation, Section, Selector, SelectorForm, SimpleExpr, Span, Stmt, StmtForm,
    Term, TypeDecl, TypeExpr, TypeForm,
};
