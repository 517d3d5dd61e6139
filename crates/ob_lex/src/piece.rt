// What stands in front of a text: a space, a comment, a token or a fault.

ghost use Rattle.std.specs.Prelude.{◌≡◌, ℕ, ◌<◌, ◌≤◌, pos, IsTrue, IsFalse, ◌||◌, codes, Contains};
ghost use Rattle.std.specs.Prelude.{take, MatchOption, MatchResult, length, slice_index};
ghost use Rattle.std.specs.List.{list_all, prefix_len};
ghost use Rattle.std.specs.Char.{is_ascii_alphabetic, is_ascii_alphanumeric, is_ascii_digit};
ghost use Rattle.ob_syntax.specs.Tokens.{NeverCloses, Begins, is_space, integer_value};
ghost use Rattle.ob_syntax.specs.Tokens.{greatest_integer, number_too_large, bad_byte, BeginsFault};
ghost use Rattle.ob_syntax.specs.Tokens.{fixed};
ghost use Rattle.ob_syntax.specs.declared.token.Kind.{Kind};
ghost use Rattle.ob_lex.specs.Scanning.{BeginsPiece, ClosesBefore, TellsFault};

use crate::scanner::LexFault;
use crate::spelling::fixed_kind;
use ob_syntax::Kind;

/// The greatest integer of a source.
const GREATEST: u64 = 2_147_483_647;

/// What stands in front of a text, and the text behind it.
#[derive(Clone, Copy)]
pub struct Scanned<'a> {
    /// The token's kind, or `None` at a space or a comment.
    pub kind: Option<Kind>,
    pub rest: &'a [u8],
}

/// The first piece of a text that stands in the source from byte `at` on.
pub fn first_piece(text: &[u8], at: u32) -> Result<Scanned<'_>, LexFault>
    requires { 0 < length text.now }
    ensures { MatchResult result
        (λ s. BeginsPiece text.now s.kind s.rest.now)
        (λ e. TellsFault text.now at e) }
{
    if let Some(inside) = text.strip_prefix(b"(*") {
        return match behind_comment(inside) {
            Some(rest) => Ok(Scanned { kind: None, rest }),
            None => Err(LexFault::OpenComment(at)),
        };
    }
    let first = text[0];
    if is_space(first) {
        Ok(Scanned {
            kind: None,
            rest: &text[1..],
        })
    } else if first.is_ascii_alphabetic() {
        Ok(name(text))
    } else if first.is_ascii_digit() {
        number(text).ok_or(LexFault::NumberTooLarge(at))
    } else {
        symbol(text).ok_or(LexFault::BadByte(at))
    }
}

/// The text behind a comment, of which this is the text behind its `(*`.
fn behind_comment(inside: &[u8]) -> Option<&[u8]>
    ensures { MatchOption result
        (NeverCloses inside.now)
        (λ rest. ClosesBefore inside.now rest.now) }
{
    let mut rest = inside;
    let mut depth: usize = 1;
    while depth > 0 {
        if let Some(after) = rest.strip_prefix(b"(*") {
            depth += 1;
            rest = after;
        } else if let Some(after) = rest.strip_prefix(b"*)") {
            depth -= 1;
            rest = after;
        } else if let [_, after @ ..] = rest {
            rest = after;
        } else {
            return None;
        }
    }
    Some(rest)
}

/// The keyword or identifier in front of a text that begins with a letter.
fn name(text: &[u8]) -> Scanned<'_>
    requires { IsTrue (is_ascii_alphabetic (slice_index text.now 0)) }
    ensures { BeginsPiece text.now result.kind result.rest.now }
{
    let (word, rest) = text.split_at(name_len(text));
    let kind = fixed_kind(word).unwrap_or(Kind::Ident);
    Scanned {
        kind: Some(kind),
        rest,
    }
}

/// How many letters and digits stand in front.
fn name_len(text: &[u8]) -> usize
    ensures { result ≡ prefix_len is_ascii_alphanumeric text.now }
{
    text.iter()
        .take_while(|b| b.is_ascii_alphanumeric())
        .count()
}

/// The integer in front of a text that begins with a digit, or `None` where it is too large.
fn number(text: &[u8]) -> Option<Scanned<'_>>
    requires { IsTrue (is_ascii_digit (slice_index text.now 0)) }
    ensures { MatchOption result
        (BeginsFault number_too_large text.now)
        (λ s. BeginsPiece text.now s.kind s.rest.now) }
{
    let (digits, rest) = text.split_at(digits_len(text));
    let value = integer(digits)?;
    Some(Scanned {
        kind: Some(Kind::Number(value)),
        rest,
    })
}

/// How many digits stand in front.
fn digits_len(text: &[u8]) -> usize
    ensures { result ≡ prefix_len is_ascii_digit text.now }
{
    text.iter().take_while(|b| b.is_ascii_digit()).count()
}

/// The number that these digits write, or `None` where it is too large.
fn integer(digits: &[u8]) -> Option<i32>
    requires { IsTrue (list_all is_ascii_digit digits.now) }
    ensures { MatchOption result
        (greatest_integer < integer_value digits.now)
        (λ n. (n ≡ pos (integer_value digits.now))
        × (integer_value digits.now ≤ greatest_integer)) }
{
    let mut value: u64 = 0;
    for digit in digits {
        value = 10 * value + u64::from(*digit - b'0');
        if value > GREATEST {
            return None;
        }
    }
    Some(value as i32)
}

/// The symbol in front of a text that begins with no letter, digit or space, and with no comment.
fn symbol(text: &[u8]) -> Option<Scanned<'_>>
    requires some { 0 < length text.now }
    requires mark { let b = slice_index text.now 0 in
        IsFalse (is_ascii_alphanumeric b || is_space b) }
    requires no_comment { ¬ Begins (codes "(*") text.now }
    ensures { MatchOption result
        (BeginsFault bad_byte text.now)
        (λ s. BeginsPiece text.now s.kind s.rest.now) }
{
    if let Some(kind) = pair_kind(text) {
        return Some(Scanned {
            kind: Some(kind),
            rest: &text[2..],
        });
    }
    let kind = fixed_kind(&text[..1])?;
    Some(Scanned {
        kind: Some(kind),
        rest: &text[1..],
    })
}

/// The kind that the first two bytes spell.
fn pair_kind(text: &[u8]) -> Option<Kind>
    ensures { MatchOption result
        ((kind : Kind) → 2 ≤ length text.now → ¬ Contains fixed (kind, take 2 text.now))
        (λ kind. (2 ≤ length text.now) × Contains fixed (kind, take 2 text.now)) }
{
    if text.len() < 2 {
        None
    } else {
        fixed_kind(&text[..2])
    }
}

/// Does this byte separate tokens?
fn is_space(byte: u8) -> bool
    ensures { result ≡ is_space byte }
{
    byte == b' ' || byte == b'\t' || byte == b'\n' || byte == b'\r'
}
