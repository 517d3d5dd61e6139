// An image as text.

ghost use Rattle.std.specs.Prelude.{◌≡◌, ℕ, ◌+◌, ◌<◌, ◌≤◌, List, ◌++◌, length, IfOk, IfErr, OnOk};
ghost use Rattle.std.specs.Prelude.{MatchResult};
ghost use Rattle.ia_code.specs.declared.ins.Ins.{Ins};
ghost use Rattle.ia_code.specs.Image.{IsImage, max_code_bytes};
ghost use Rattle.ia_list.specs.Text.{line, data_line};
ghost use Rattle.ia_list.specs.ListText.{IsListText, IsListFault, StandsAt};
ghost use Rattle.ia_list.specs.ListText.{NoneStandsAt};
ghost use Rattle.ia_list.specs.declared.listing.ListFault.TheVariants as kind;

use crate::numerals::push_decimal;
use crate::table::push_line;
use ia_code::{Image, decode};
use pra_base::OutOfMemory;
use std::alloc::{AllocError, Global};
use thiserror::Error;

/// Why an image has no text.
#[derive(Clone, Copy, Debug, PartialEq, Eq, Error)]
pub enum ListFault {
    /// At this place in the code, counted from its start, no instruction of the table begins.
    #[error("no instruction of the table stands at place {0} of the code")]
    NotInSubset(u32),
    #[error("out of memory")]
    OutOfMemory,
}

impl From<AllocError> for ListFault {
    ghost from_gives = { λ _ fault. fault ≡ kind.OutOfMemory };

    fn from(_: AllocError) -> Self {
        ListFault::OutOfMemory
    }
}

/// The first line of a text.
#[tactic(auto, unfolding(crate::specs::Text::data_line))]
pub(crate) fn push_data_line(out: &mut Vec<u8>, words: u32) -> Result<(), AllocError>
    ensures { OnOk result (out.new.items ≡ out.old.items ++ data_line words) }
{
    out.extend_from_slice(b"data ")?;
    push_decimal(out, words)?;
    out.extend_from_slice(b"\n")
}

// Writes the line of the instruction at a place in the code, and gives the place behind it.
fn push_next(out: &mut Vec<u8>, code: &[u8], place: usize) -> Result<usize, ListFault>
    requires within { place < length code.now }
    requires code { length code.now ≤ max_code_bytes }
    ensures { MatchResult result
        (λ next. (i : Ins) × (size : ℕ) × StandsAt code.now place i size × (next ≡ place + size)
        × (out.new.items ≡ out.old.items ++ line place i))
        (NoneStandsAt code.now place) }
{
    let Ok((i, size)) = decode(code, place) else {
        return Err(ListFault::NotInSubset(place as u32));
    };
    let next = place + size;
    push_line(out, place as u32, next as u32, &i)?;
    Ok(next)
}

/// The text of an image: a line with the number of its data words, then a line for each instruction
/// of its code, from the first byte on.
///
/// # Errors
///
/// `NotInSubset` where the code does not decode whole, with the first place that is of no
/// instruction. `OutOfMemory` where there is no memory for the text, which may be twenty times as
/// long as the code: `text_length` tells.
pub fn list_text(alloc: Global, image: &Image) -> Result<Vec<u8>, ListFault>
    requires { IsImage image.now }
    ensures text { IfOk result (λ text. IsListText image.now text.items) }
    ensures fault { IfErr result (IsListFault image.now) }
{
    let code = image.code.as_slice();
    let mut text = Vec::new(alloc);
    push_data_line(&mut text, image.data_words)?;
    let mut place = 0;
    'lines: while place < code.len() {
        place = push_next(&mut text, code, place)?;
    }
    Ok(text)
}

/// How many bytes the text of an image has. No more is held than one line of it.
///
/// # Errors
///
/// As of `list_text`.
pub fn text_length(alloc: Global, image: &Image) -> Result<usize, ListFault>
    requires { IsImage image.now }
    ensures count { IfOk result (λ n. (text : List ℕ) × IsListText image.now text
        × (n ≡ length text)) }
    ensures fault { IfErr result (IsListFault image.now) }
{
    let code = image.code.as_slice();
    let mut line = Vec::new(alloc);
    push_data_line(&mut line, image.data_words)?;
    let mut count = line.len();
    let mut place = 0;
    'lines: while place < code.len() {
        line.clear();
        place = push_next(&mut line, code, place)?;
        let Some(longer) = count.checked_add(line.len()) else {
            return Err(ListFault::OutOfMemory);
        };
        count = longer;
    }
    Ok(count)
}
