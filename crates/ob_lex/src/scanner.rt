// The token list of a source.

ghost use Rattle.std.specs.Prelude.{◌≡◌, ℕ, ◌<◌, ◌≤◌, List, length, vec_len, IfOk, IfErr};
ghost use Rattle.std.specs.Prelude.{IsOkUnless};
ghost use Rattle.ob_syntax.specs.declared.token.Token.{Token};
ghost use Rattle.ob_syntax.specs.Tokens.{Tokens, SlicesSource, Fault, FirstFault};
ghost use Rattle.ob_syntax.specs.Source.{most_bytes, most_tokens};
ghost use Rattle.ob_lex.specs.Scanning.{IsCause, IsErrUnlessMemory, fault_at};

use crate::piece::first_piece;
use ob_syntax::Token;
use std::alloc::Global;
use thiserror::Error;

/// The most tokens that are kept of a source.
pub const MAX_TOKENS: u32 = 65_536;

/// Why a source has no token list, or none that is kept. Places count the bytes of the source from
/// 0.
#[derive(Clone, Copy, Debug, PartialEq, Eq, Error)]
pub enum LexFault {
    /// The byte there begins no space, comment or token.
    #[error("byte {0} begins no token")]
    BadByte(u32),
    /// The comment that begins there, the outermost one, never ends.
    #[error("the comment at byte {0} has no end")]
    OpenComment(u32),
    /// The integer that begins there is above 2147483647.
    #[error("the integer at byte {0} is too large")]
    NumberTooLarge(u32),
    /// The source has a token list of this many tokens, which are more than [`MAX_TOKENS`].
    #[error("there are {0} tokens")]
    TokensOver(u32),
    #[error("out of memory")]
    OutOfMemory,
}

/// The tokens of a source, in order, in time linear in its length. A first lexical fault is told
/// wherever it stands, also behind more tokens than are kept.
pub fn lex(alloc: Global, bytes: &[u8]) -> Result<Vec<Token>, LexFault>
    requires { length bytes.now ≤ most_bytes }

    ensures tokens { IfOk result (λ list. Tokens bytes.now list.items) }
    ensures within { IfOk result (λ list. vec_len list ≤ most_tokens) }
    ensures spans { IfOk result (λ list. SlicesSource bytes.now list.items) }
    ensures cause { IfErr result (IsCause bytes.now) }

    // And each of these texts is answered so, unless memory is wanting.
    ensures ok_where { (list : List Token) → Tokens bytes.now list →
        length list ≤ most_tokens → IsOkUnless result LexFault.OutOfMemory }
    ensures over_where { (list : List Token) → Tokens bytes.now list →
        most_tokens < length list → IsErrUnlessMemory result (LexFault.TokensOver (length list)) }
    ensures fault_where { (fault : Fault) (at : ℕ) → FirstFault bytes.now fault at →
        IsErrUnlessMemory result (fault_at fault at) }
{
    let mut tokens = Vec::new(alloc);
    let mut count: u32 = 0;
    let mut rest = bytes;
    while !rest.is_empty() {
        let from = (bytes.len() - rest.len()) as u32;
        let front = first_piece(rest, from)?;
        rest = front.rest;
        if let Some(kind) = front.kind {
            if count < MAX_TOKENS {
                let to = (bytes.len() - rest.len()) as u32;
                tokens
                    .push(Token { kind, from, to })
                    .map_err(|_| LexFault::OutOfMemory)?;
            }
            count += 1;
        }
    }
    if count > MAX_TOKENS {
        return Err(LexFault::TokensOver(count));
    }
    Ok(tokens)
}
