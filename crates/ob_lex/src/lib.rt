//! The scanner of Oberon-0: the token list of a source text, or why it has none.
//!
//! [`lex`] gives the token list exactly where the text has one of at most 65,536 tokens, and else
//! the first lexical fault with its byte, or how many tokens there are. Read first `Tokens` in the
//! specs of ob_syntax, which says what a token list and a first fault are, then `Scanning`. The
//! layer above may use that each token slices its spelling from the source, one behind another.
#![tactic(auto)]

mod piece;
mod scanner;
mod spelling;

pub use scanner::{LexFault, MAX_TOKENS, lex};
