// Passing over a value of a text: also what is of no form is to be JSON.

ghost use Rattle.std.specs.Prelude.{◌≡◌, ◌∷◌};
ghost use Rattle.json.specs.Reads.{token_of};
ghost use Rattle.serde_json.specs.Data.{Members};
ghost use Rattle.cert_form.specs.Streams.{values, rests, entries, Took, IsAny};

use crate::figures::figure_of;
use json::{Invalid, Reader, Token};
use std::alloc::{AllocError, AllocFailed};

/// Why no value was read.
#[derive(Clone, Copy, Debug)]
pub(crate) enum Unread {
    /// The text is no JSON.
    NotJson,
    OutOfMemory,
}

impl From<AllocError> for Unread {
    ghost use Rattle.cert_form.specs.declared.passing.Unread.TheVariants.{OutOfMemory};

    ghost from_gives = { λ _ e. e ≡ OutOfMemory };

    fn from(_: AllocError) -> Self {
        Unread::OutOfMemory
    }
}

impl<T: Drop> From<AllocFailed<T>> for Unread {
    ghost use Rattle.cert_form.specs.declared.passing.Unread.TheVariants.{OutOfMemory};

    ghost from_gives = { λ _ e. e ≡ OutOfMemory };

    fn from(_: AllocFailed<T>) -> Self {
        Unread::OutOfMemory
    }
}

impl From<Invalid> for Unread {
    ghost use Rattle.cert_form.specs.declared.passing.Unread.TheVariants.{NotJson};

    ghost from_gives = { λ _ e. e ≡ NotJson };

    fn from(_: Invalid) -> Self {
        Unread::NotJson
    }
}

/// Passes over a value.
#[cycle(pass)]
pub(crate) fn pass(reader: &mut Reader<'_>, depth: usize) -> Result<(), Unread>
    ensures { Took IsAny (values depth reader.old) result reader.new }
{
    let Some(token) = reader.next() else {
        return Err(Unread::NotJson);
    };
    pass_begun(reader, depth, token)
}

/// Passes over a value of which the first token was taken.
#[cycle(pass)]
pub(crate) fn pass_begun(
    reader: &mut Reader<'_>,
    depth: usize,
    token: Token<'_>,
) -> Result<(), Unread>
    ensures { Took IsAny (values depth (token_of token.entry ∷ reader.old)) result reader.new }
{
    match token {
        Token::String(_) => Ok(()),
        Token::Bool(_) => Ok(()),
        Token::Null => Ok(()),
        Token::Number(text) => match figure_of(text) {
            Some(_) => Ok(()),
            None => Err(Unread::NotJson),
        },
        Token::EndObject => Err(Unread::NotJson),
        Token::EndArray => Err(Unread::NotJson),
        Token::Key(_) => Err(Unread::NotJson),
        Token::Bad => Err(Unread::NotJson),
        Token::BeginArray => {
            if depth == 0 {
                return Err(Unread::NotJson);
            }
            pass_items(reader, depth - 1)
        }
        Token::BeginObject => {
            if depth == 0 {
                return Err(Unread::NotJson);
            }
            pass_members(reader, depth - 1)
        }
    }
}

/// Passes over what is left of a list.
#[cycle(pass)]
pub(crate) fn pass_items(reader: &mut Reader<'_>, depth: usize) -> Result<(), Unread>
    ensures { Took IsAny (rests depth reader.old) result reader.new }
{
    'items: while !reader.take_end_array() {
        pass(reader, depth)?;
    }
    Ok(())
}

/// Passes over what is left of an object.
#[cycle(pass)]
pub(crate) fn pass_members(reader: &mut Reader<'_>, depth: usize) -> Result<(), Unread>
    ensures { (before : Members) → Took IsAny (entries before depth reader.old) result reader.new }
{
    'members: while let Some(_) = reader.next_key()? {
        pass(reader, depth)?;
    }
    Ok(())
}
