// A part's value as a line of text, and values of texts.

ghost use Rattle.std.specs.Prelude.{◌≡◌, IfOk, OnOk};
ghost use Rattle.serde_json.specs.Read.{max_depth, read as read_text};
ghost use Rattle.cert_form.specs.Form.{line_text};
ghost use Rattle.cert_form.specs.Plain.{IsPlain};
ghost use Rattle.cert_form.specs.Whole.{IsReadAs};
ghost use Rattle.cert_form.specs.Streams.{IsPartOf, IsPartRead};

use crate::lists::Part;
use crate::passing::Unread;
use crate::writing::Written;
use json::{Reader, Scratch};
use std::alloc::{AllocError, Global};

/// How deep lists and objects of a text may nest.
const MAX_DEPTH: usize = 127;

/// The text of a part: its value without a blank, and a line feed.
pub(crate) fn line<T: Written>(alloc: Global, part: &T) -> Result<Vec<u8>, AllocError>
    ensures text { IfOk result (λ t. IsPlain max_depth (T.form part.now)
        → t.items ≡ line_text (T.form part.now)) }
    ensures back { IfOk result (λ t. IsPlain max_depth (T.form part.now)
        → IsReadAs t.items (T.form part.now)) }
    ensures range { OnOk result (T.fits part.now) }
{
    let value = part.value(alloc)?;
    let mut text = value.to_vec(alloc)?;
    text.push(b'\n')?;
    Ok(text)
}

/// The part that a text is.
fn text_part<T: Part>(alloc: Global, text: &str) -> Result<Option<T>, Unread>
    ensures { IsPartOf T.form (T.fits 0) (read_text text.now) result }
{
    let mut scratch = Scratch::new(alloc);
    let Ok(mut reader) = Reader::new(text, &mut scratch) else {
        return Err(Unread::OutOfMemory);
    };
    let found = T::part(alloc, 0, &mut reader, MAX_DEPTH)?;
    match reader.next() {
        Some(_) => Err(Unread::NotJson),
        None => Ok(found),
    }
}

/// The part that some bytes are the text of.
pub(crate) fn read<T: Part>(alloc: Global, bytes: &[u8]) -> Result<Option<T>, Unread>
    ensures { IsPartRead T.form (T.fits 0) bytes.now result }
{
    match str::from_utf8(bytes) {
        Ok(text) => text_part(alloc, text),
        Err(_) => Err(Unread::NotJson),
    }
}
