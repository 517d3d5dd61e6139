// Objects of a text, read member by member, in any order of their keys.

ghost use Rattle.std.specs.Prelude.{◌≡◌, ◌<◌, [], length, map, slice_index_or};
ghost use Rattle.std.specs.Str.{bytes_eq};
ghost use Rattle.json.specs.Reads.{token_of};
ghost use Rattle.serde_json.specs.Data.{no_members};
ghost use Rattle.cert_form.specs.Streams.{values, entries, Took, BeginsObject, is_brace, nothing};
ghost use Rattle.cert_form.specs.Streams.{AreHeld, IsHeldBy, IsPosition};

use crate::passing::{Unread, pass, pass_begun, pass_members};
use json::{Reader, Token};
use std::alloc::Global;

/// What was found so far under each key of an object. Of equal keys the last counts.
pub(crate) trait Fields {
    ghost use Rattle.std.specs.Prelude.{◌≡◌, ◌<◌, ℕ, List, length, map, Option, true};
    ghost use Rattle.serde_json.specs.Data.{Data};
    ghost use Rattle.cert_form.specs.Streams.{values, Took, with_at, ascend};

    /// The keys, in the order of their bytes.
    ghost keys: { List (List ℕ) };

    /// What was found is what stands under the keys.
    ghost held: { Self → (ℕ → Option Data) → Type 0 };

    fn names() -> &'static [&'static str]
        ensures { map (λ s. s.now) result.now ≡ keys };

    /// Reads what stands under the key of an index.
    fn read(
        &mut self,
        alloc: Global,
        index: usize,
        reader: &mut Reader<'_>,
        depth: usize,
    ) -> Result<(), Unread>
        requires { index < length keys }
        ensures { Took (λ done d. (os : ℕ → Option Data) → held self.old os →
            held self.new (with_at index d os)) (values depth reader.old) result reader.new };

    ghost ordered: { ascend keys ≡ true };
}

/// Whether the key of an index is this one.
fn is_key_at(keys: &[&str], at: usize, key: &str) -> bool
    requires { at < length keys.now }
    ensures { result ≡ bytes_eq (slice_index_or (map (λ s. s.now) keys.now) at []) key.now }
{
    let name = keys[at];
    name.as_bytes() == key.as_bytes()
}

/// The index of a key.
fn position(keys: &[&str], key: &str) -> Option<usize>
    ensures { IsPosition (map (λ s. s.now) keys.now) key.now result }
{
    for at in 0..keys.len() {
        if is_key_at(keys, at, key) {
            return Some(at);
        }
    }
    None
}

fn is_brace(token: Token<'_>) -> bool
    ensures { result ≡ is_brace (token_of token.entry) }
{
    matches!(token, Token::BeginObject)
}

/// Takes the brace of an object, or passes over another value.
fn begins_object(reader: &mut Reader<'_>, depth: usize) -> Result<bool, Unread>
    ensures { BeginsObject depth reader.old result reader.new }
{
    let Some(token) = reader.next() else {
        return Err(Unread::NotJson);
    };
    if !is_brace(token) {
        pass_begun(reader, depth, token)?;
        return Ok(false);
    }
    if depth == 0 {
        return Err(Unread::NotJson);
    }
    Ok(true)
}

/// Whether all that is left of an object is of a form.
fn members<F: Fields>(
    alloc: Global,
    fields: &mut F,
    reader: &mut Reader<'_>,
    depth: usize,
) -> Result<bool, Unread>
    requires { F.held fields.old nothing }
    ensures { Took (AreHeld F.keys F.held fields.new) (entries no_members depth reader.old) result
        reader.new }
{
    'members: while let Some(key) = reader.next_key()? {
        let Some(index) = position(F::names(), key) else {
            pass(reader, depth)?;
            pass_members(reader, depth)?;
            return Ok(false);
        };
        fields.read(alloc, index, reader, depth)?;
    }
    Ok(true)
}

/// Whether a value is an object that has only keys of a form.
pub(crate) fn object<F: Fields>(
    alloc: Global,
    fields: &mut F,
    reader: &mut Reader<'_>,
    depth: usize,
) -> Result<bool, Unread>
    requires { F.held fields.old nothing }
    ensures { Took (IsHeldBy F.keys F.held fields.new) (values depth reader.old) result reader.new }
{
    if !begins_object(reader, depth)? {
        return Ok(false);
    }
    members(alloc, fields, reader, depth - 1)
}
