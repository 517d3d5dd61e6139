// Lists of a text, read item by item.

ghost use Rattle.std.specs.Prelude.{◌≡◌};
ghost use Rattle.json.specs.Reads.{token_of};
ghost use Rattle.cert_form.specs.Form.{list};
ghost use Rattle.cert_form.specs.Streams.{values, rests, Took, IsAnswer, IsListAnswer, AreFew};
ghost use Rattle.cert_form.specs.Streams.{BeginsList, TookItem, IsEnd, is_bracket, is_full};

use crate::passing::{Unread, pass_begun, pass_items};
use json::{Reader, Token};
use pra_list::Seq;
use std::alloc::Global;

/// A part that is read of a text.
pub(crate) trait Part: Drop {
    ghost use Rattle.std.specs.Prelude.{ℕ};
    ghost use Rattle.serde_json.specs.Data.{Data};
    ghost use Rattle.cert_form.specs.Streams.{values, Took, IsAnswer};

    ghost form: { Self → Data };

    /// Its numbers are in their types, in a list where it stands at an index.
    ghost fits: { ℕ → Self → Type 0 };

    /// The part of a number in its list, where one stands there; what stands there is passed.
    fn part(
        alloc: Global,
        number: usize,
        reader: &mut Reader<'_>,
        depth: usize,
    ) -> Result<Option<Self>, Unread>
        ensures { Took (IsAnswer form (fits number)) (values depth reader.old) result reader.new };
}

pub(crate) fn is_bracket(token: Token<'_>) -> bool
    ensures { result ≡ is_bracket (token_of token.entry) }
{
    matches!(token, Token::BeginArray)
}

/// Takes the bracket of a list, or passes over another value.
pub(crate) fn begins_list(reader: &mut Reader<'_>, depth: usize) -> Result<bool, Unread>
    ensures { BeginsList depth reader.old result reader.new }
{
    let Some(token) = reader.next() else {
        return Err(Unread::NotJson);
    };
    if !is_bracket(token) {
        pass_begun(reader, depth, token)?;
        return Ok(false);
    }
    if depth == 0 {
        return Err(Unread::NotJson);
    }
    Ok(true)
}

fn is_full(most: Option<usize>, len: usize) -> bool
    ensures { result ≡ is_full most len }
{
    match most {
        Some(most) => most <= len,
        None => false,
    }
}

/// What is left of a list, at most so many parts.
pub(crate) fn items<T: Part>(
    alloc: Global,
    reader: &mut Reader<'_>,
    depth: usize,
    most: Option<usize>,
) -> Result<Option<Seq<T>>, Unread>
    ensures { Took (IsListAnswer (list T.form) (AreFew T.fits most)) (rests depth reader.old)
        result reader.new }
{
    let mut found = Vec::new(alloc);
    'items: while !reader.take_end_array() {
        let number = found.as_slice().len();
        if is_full(most, number) {
            pass_items(reader, depth)?;
            return Ok(None);
        }
        let Some(part) = T::part(alloc, number, reader, depth)? else {
            pass_items(reader, depth)?;
            return Ok(None);
        };
        found.push(part)?;
    }
    Ok(Some(Seq::from_vec(found)))
}

/// The next item of a list. Where there is none of that kind, the list is passed.
pub(crate) fn item<T: Part>(
    alloc: Global,
    reader: &mut Reader<'_>,
    depth: usize,
) -> Result<Option<T>, Unread>
    ensures { TookItem T.form (T.fits 0) depth reader.old result reader.new }
{
    if reader.take_end_array() {
        return Ok(None);
    }
    let Some(part) = T::part(alloc, 0, reader, depth)? else {
        pass_items(reader, depth)?;
        return Ok(None);
    };
    Ok(Some(part))
}

/// Whether a list ends here; it is passed.
pub(crate) fn ends(reader: &mut Reader<'_>, depth: usize) -> Result<bool, Unread>
    ensures { Took IsEnd (rests depth reader.old) result reader.new }
{
    if reader.take_end_array() {
        return Ok(true);
    }
    pass_items(reader, depth)?;
    Ok(false)
}

/// A list of parts, at most so many.
pub(crate) fn list<T: Part>(
    alloc: Global,
    reader: &mut Reader<'_>,
    depth: usize,
    most: Option<usize>,
) -> Result<Option<Seq<T>>, Unread>
    ensures { Took (IsAnswer (list T.form) (AreFew T.fits most)) (values depth reader.old) result
        reader.new }
{
    if !begins_list(reader, depth)? {
        return Ok(None);
    }
    items(alloc, reader, depth - 1, most)
}

impl<T: Part> Part for Seq<T> {
    ghost use Rattle.std.specs.Prelude.{None};
    ghost use Rattle.cert_form.specs.Form.{list};
    ghost use Rattle.cert_form.specs.Streams.{AreFew};

    ghost form = { list T.form };

    ghost fits = { λ n xs. AreFew T.fits None xs };

    fn part(
        alloc: Global,
        _number: usize,
        reader: &mut Reader<'_>,
        depth: usize,
    ) -> Result<Option<Seq<T>>, Unread> {
        list(alloc, reader, depth, None)
    }
}
