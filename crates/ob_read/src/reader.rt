// Tokens, tree and checked module of a source, by the scanner, the parser and the checker.

ghost use Rattle.std.specs.Prelude.{◌≡◌, ◌≢◌, ◌≤◌, List, length, IfOk, IfErr, IsOkUnless};
ghost use Rattle.ob_syntax.specs.declared.checked.Checked.{Checked};
ghost use Rattle.ob_syntax.specs.declared.token.Token.{Token};
ghost use Rattle.ob_syntax.specs.declared.tree.Module.{Module};
ghost use Rattle.ob_syntax.specs.Tokens.{SlicesSource};
ghost use Rattle.ob_syntax.specs.Source.{most_bytes, byte_of, IsScanned, IsParsed};
ghost use Rattle.ob_check.specs.Checking.{IsChecked};
ghost use Rattle.ob_read.specs.declared.fault.ReadFault.{ReadFault};
ghost use Rattle.ob_read.specs.Source.{IsUnparsed, IsUnreadable, IsErrUnlessMemory};

use crate::fault::{LimitFault, ReadFault, SourceFault};
use ob_check::{CheckFault, check};
use ob_lex::{LexFault, lex};
use ob_parse::{ParseFault, parse};
use ob_syntax::{Checked, Module, Token};
use pra_base::LimitKind;
use std::alloc::Global;

/// The greatest length of a source, in bytes.
pub const MAX_SOURCE: usize = 1_048_576;

/// The tokens and the tree of a source.
#[derive(Drop)]
pub struct Parsed {
    pub tokens: Vec<Token>,
    pub tree: Module,
}

/// Reads a source of at most [`MAX_SOURCE`] bytes.
///
/// # Errors
///
/// The first thing that is wrong with it: a lexical fault, too many tokens, or the token with
/// which no module of depth at most 64 goes on. And `OutOfMemory`.
pub fn read(alloc: Global, bytes: &[u8]) -> Result<Parsed, ReadFault>
    requires { length bytes.now ≤ most_bytes }
    // The tokens and the tree are those of the bytes, and a fault is the one that they have.
    ensures found { IfOk result (λ p. IsParsed bytes.now p.tokens.items p.tree) }
    ensures spans { IfOk result (λ p. SlicesSource bytes.now p.tokens.items) }
    ensures cause { IfErr result (λ f. f ≢ ReadFault.OutOfMemory → IsUnreadable bytes.now f) }

    // And each source is answered so, unless memory is wanting.
    ensures ok_where { (tokens : List Token) (tree : Module) → IsParsed bytes.now tokens tree →
        IsOkUnless result ReadFault.OutOfMemory }
    ensures fault_where { (f : ReadFault) → IsUnparsed bytes.now f → IsErrUnlessMemory result f }
{
    text_of(alloc, bytes)
}

fn text_of(alloc: Global, bytes: &[u8]) -> Result<Parsed, ReadFault>
    requires { length bytes.now ≤ most_bytes }
    ensures found { IfOk result (λ p. IsParsed bytes.now p.tokens.items p.tree) }
    ensures spans { IfOk result (λ p. SlicesSource bytes.now p.tokens.items) }
    ensures cause { IfErr result (λ f. f ≢ ReadFault.OutOfMemory → IsUnparsed bytes.now f) }
{
    let tokens = tokens_of(alloc, bytes)?;
    let tree = tree_of(alloc, bytes, &tokens)?;
    Ok(Parsed { tokens, tree })
}

fn tokens_of(alloc: Global, bytes: &[u8]) -> Result<Vec<Token>, ReadFault>
    requires { length bytes.now ≤ most_bytes }
    ensures found { IfOk result (λ tokens. IsScanned bytes.now tokens.items) }
    ensures spans { IfOk result (λ tokens. SlicesSource bytes.now tokens.items) }
    ensures cause { IfErr result (λ f. f ≢ ReadFault.OutOfMemory → IsUnparsed bytes.now f) }
{
    match lex(alloc, bytes) {
        Ok(tokens) => Ok(tokens),
        Err(LexFault::OutOfMemory) => Err(ReadFault::OutOfMemory),
        Err(LexFault::TokensOver(count)) => Err(ReadFault::Limit(LimitFault::Count(
            LimitKind::Tokens,
            u64::from(count),
        ))),
        Err(fault) => Err(ReadFault::Source(SourceFault::Lex(fault))),
    }
}

fn tree_of(alloc: Global, bytes: &[u8], tokens: &[Token]) -> Result<Module, ReadFault>
    requires { IsScanned bytes.now tokens.now }
    ensures found { IfOk result (IsParsed bytes.now tokens.now) }
    ensures cause { IfErr result (λ f. f ≢ ReadFault.OutOfMemory → IsUnparsed bytes.now f) }
{
    match parse(alloc, tokens) {
        Ok(tree) => Ok(tree),
        Err(ParseFault::OutOfMemory) => Err(ReadFault::OutOfMemory),
        Err(ParseFault::Grammar(token)) => {
            let at = byte_of(bytes, tokens, token);
            Err(ReadFault::Source(SourceFault::Grammar(token, at)))
        }
        Err(ParseFault::TooDeep(token)) => {
            let at = byte_of(bytes, tokens, token);
            Err(ReadFault::Limit(LimitFault::Depth(token, at)))
        }
    }
}

/// Resolves the tree of a source that was read.
///
/// # Errors
///
/// The first rule that is broken, or else the first quantity above its maximum. And `OutOfMemory`.
pub fn resolve(
    alloc: Global,
    bytes: &[u8],
    tokens: &[Token],
    tree: Module,
) -> Result<Checked, ReadFault>
    requires parsed { IsParsed bytes.now tokens.now tree }
    requires spans { SlicesSource bytes.now tokens.now }
    // The checked module is that of the bytes, and a fault is the one that they have.
    ensures found { IfOk result (IsChecked bytes.now tokens.now tree) }
    ensures cause { IfErr result (λ f. f ≢ ReadFault.OutOfMemory → IsUnreadable bytes.now f) }

    // And each module is answered so, unless memory is wanting.
    ensures ok_where { (c : Checked) → IsChecked bytes.now tokens.now tree c →
        IsOkUnless result ReadFault.OutOfMemory }
    ensures fault_where { (f : ReadFault) → IsUnreadable bytes.now f → IsErrUnlessMemory result f }
{
    checked_of(alloc, bytes, tokens, tree)
}

fn checked_of(
    alloc: Global,
    bytes: &[u8],
    tokens: &[Token],
    tree: Module,
) -> Result<Checked, ReadFault>
    requires parsed { IsParsed bytes.now tokens.now tree }
    requires spans { SlicesSource bytes.now tokens.now }
    ensures found { IfOk result (IsChecked bytes.now tokens.now tree) }
    ensures cause { IfErr result (λ f. f ≢ ReadFault.OutOfMemory → IsUnreadable bytes.now f) }
{
    match check(alloc, bytes, tokens, tree) {
        Ok(checked) => Ok(checked),
        Err(CheckFault::OutOfMemory) => Err(ReadFault::OutOfMemory),
        Err(CheckFault::Rule(rule, token)) => {
            let at = byte_of(bytes, tokens, token);
            Err(ReadFault::Source(SourceFault::Rule(rule, token, at)))
        }
        Err(CheckFault::Limit(kind, count)) => {
            Err(ReadFault::Limit(LimitFault::Count(kind, count)))
        }
    }
}

// The first byte of a token; behind the last token, the number of all bytes.
fn byte_of(bytes: &[u8], tokens: &[Token], token: u32) -> u32
    requires { length bytes.now ≤ most_bytes }
    ensures { result ≡ byte_of bytes.now tokens.now token }
{
    match tokens.get(token as usize) {
        Some(found) => found.from,
        None => bytes.len() as u32,
    }
}
