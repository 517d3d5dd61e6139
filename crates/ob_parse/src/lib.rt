//! The parser of Oberon-0: the tree of a list of tokens, or where they stop beginning a module.
//!
//! [`parse`] gives the tree exactly where the tokens are a module of depth at most 64, and else the
//! first token that no such module has there. Read first `Grammar`, `Tree` and `Whole` in the specs
//! of ob_syntax, then `Reading`, which says what each function here promises of its phrase. The
//! layer above may use the laws of trees in ob_syntax, that there is one tree and that its numbers
//! are those of tokens, and the law here, that each token list has a tree or a refusal.
//!
//! A predictive parser, production by production in the order of the grammar: each function reads
//! the phrase of its name. It recurs only where phrases nest, and `room` says how much deeper they
//! may.
#![tactic(auto)]

ghost use Rattle.std.specs.Prelude.{◌≡◌, ◌≢◌, ◌<◌, ◌^◌, ℕ, length, IfOk, IfErr};
ghost use Rattle.ob_syntax.specs.Whole.{kinds, most_nesting, IsModule, IsTreeOf, StopsAt};
ghost use Rattle.ob_syntax.specs.Whole.{DeepensAt};

mod cursor;
mod declaration;
mod expression;
pub mod laws;
mod list;
mod statement;
mod types;

pub use cursor::ParseFault;
use cursor::Parser;
use declaration::whole_module;
use ob_syntax::{Module, Token};
use std::alloc::Global;

/// How deep declarations, statements, types and expressions of a module nest at most.
pub const MAX_NESTING: u32 = 64;

/// The tree of the tokens, where they are a module of depth at most 64 (Wirth, Compiler
/// Construction, appendix A.1).
///
/// # Errors
///
/// Otherwise the length `k` of the longest prefix of the tokens that some continuation makes such a
/// module: [`ParseFault::TooDeep`] where the first `k + 1` tokens begin a module of a greater
/// depth, else [`ParseFault::Grammar`].
pub fn parse(alloc: Global, tokens: &[Token]) -> Result<Module, ParseFault>
    requires { length tokens.now < 2 ^ 32 }

    // The tree is the one that the tokens derive.
    ensures found { IfOk result (IsTreeOf most_nesting (kinds tokens.now)) }
    // Where the tokens derive a tree, it is found, unless memory runs out.
    ensures only { IfErr result (λ e. e ≢ ParseFault.OutOfMemory →
        IsModule most_nesting (kinds tokens.now) → ⊥) }

    ensures grammar { (k : ℕ) → result ≡ Err (ParseFault.Grammar k) → StopsAt (kinds tokens.now) k }
    ensures deep { (k : ℕ) → result ≡ Err (ParseFault.TooDeep k) → DeepensAt (kinds tokens.now) k }
{
    let mut p = Parser::new(alloc, tokens);
    let tree = whole_module(&mut p, MAX_NESTING)?;
    match p.peek() {
        None => Ok(tree),
        Some(_) => Err(ParseFault::Grammar(p.at)),
    }
}
