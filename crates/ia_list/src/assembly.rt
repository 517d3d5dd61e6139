// An image from its text. A line is read to find the one instruction that it can be of, and is
// right where that instruction is written so.

ghost use Rattle.std.specs.Prelude.{◌≡◌, ◌≤◌, ◌<◌, ◌^◌, ℕ, List, ◌++◌, length, IfOk, MatchOption};
ghost use Rattle.ia_code.specs.declared.ins.Ins.{Ins};
ghost use Rattle.ia_code.specs.DecodeTable.{IsSound, bytes_of};
ghost use Rattle.ia_code.specs.Image.{max_data_words};
ghost use Rattle.ia_list.specs.Text.{line, data_line};
ghost use Rattle.ia_list.specs.ListText.{Assembles, max_text_bytes};
ghost use Rattle.ia_list.specs.declared.assembly.AsmFault.TheVariants as kind;

use crate::listing::push_data_line;
use crate::reader::{instruction, words};
use crate::table::push_line;
use arrayvec::ArrayVec;
use ia_code::image::MAX_DATA_WORDS;
use ia_code::{Image, encode, is_sound};
use pra_list::Seq;
use std::alloc::{AllocError, Global};
use thiserror::Error;

/// 64 MiB: how many bytes `asm_text` takes at most.
pub const MAX_TEXT_BYTES: usize = 67_108_864;

/// Why some bytes are no text of an image.
#[derive(Clone, Copy, Debug, PartialEq, Eq, Error)]
pub enum AsmFault {
    /// The first line that is none of a text's, counted from 1.
    #[error("line {0} is none of a text's")]
    BadLine(u32),
    /// The first line is right, and there is no other.
    #[error("there is no instruction")]
    Empty,
    #[error("out of memory")]
    OutOfMemory,
}

impl From<AllocError> for AsmFault {
    ghost from_gives = { λ _ fault. fault ≡ kind.OutOfMemory };

    fn from(_: AllocError) -> Self {
        AsmFault::OutOfMemory
    }
}

// The bytes behind these ones, where they stand in front.
fn behind<'a>(front: &[u8], bytes: &'a [u8]) -> Option<&'a [u8]>
    ensures { MatchOption result
        ((rest : List ℕ) → bytes.now ≡ front.now ++ rest → ⊥)
        (λ rest. bytes.now ≡ front.now ++ rest.now) }
{
    bytes.strip_prefix(front)
}

// The data words of a right first line, and the bytes behind it. The vector is room for the line.
fn first_line<'a>(
    room: &mut Vec<u8>,
    bytes: &'a [u8],
) -> Result<Option<(u32, &'a [u8])>, AllocError>
    ensures { IfOk result (λ found. MatchOption found
        ((n : ℕ) (rest : List ℕ) → n ≤ max_data_words → bytes.now ≡ data_line n ++ rest → ⊥)
        (λ x. (x.0 ≤ max_data_words) × (bytes.now ≡ data_line x.0 ++ x.1.now))) }
{
    let Some(n) = words(bytes) else {
        return Ok(None);
    };
    if n > MAX_DATA_WORDS {
        return Ok(None);
    }
    room.clear();
    push_data_line(room, n)?;
    let Some(rest) = behind(room.as_slice(), bytes) else {
        return Ok(None);
    };
    Ok(Some((n, rest)))
}

// The code of a right line in front, and the bytes behind it. The vector is room for the line.
fn next_line<'a>(
    room: &mut Vec<u8>,
    place: u32,
    bytes: &'a [u8],
) -> Result<Option<(ArrayVec<u8, 16>, &'a [u8])>, AllocError>
    requires { place < 2 ^ 31 }
    ensures { IfOk result (λ found. MatchOption found
        ((i : Ins) (rest : List ℕ) → IsSound i → bytes.now ≡ line place i ++ rest → ⊥)
        (λ x. (i : Ins) × IsSound i × (x.0.items ≡ bytes_of i)
        × (bytes.now ≡ line place i ++ x.1.now))) }
{
    let Some(i) = instruction(place, bytes) else {
        return Ok(None);
    };
    if !is_sound(&i) {
        return Ok(None);
    }
    let code = encode(&i);
    room.clear();
    push_line(room, place, place + code.len() as u32, &i)?;
    let Some(rest) = behind(room.as_slice(), bytes) else {
        return Ok(None);
    };
    Ok(Some((code, rest)))
}

/// The image that some bytes are the text of. The code of so many bytes has less than half as many,
/// and at most three times as much memory is held as they take, theirs included.
///
/// # Errors
///
/// `BadLine` where a line is not as the table has it, has no end, is not at the place where the
/// code before it ends, or tells more than `MAX_DATA_WORDS`; the first line is 1, also where there
/// is no byte. `Empty` where a right first line is all. `OutOfMemory` where there is no memory for
/// the code.
pub fn asm_text(alloc: Global, bytes: &[u8]) -> Result<Image, AsmFault>
    requires { length bytes.now ≤ max_text_bytes }
    ensures { Assembles bytes.now result }
{
    let mut room = Vec::new(alloc);
    let Some((data_words, mut rest)) = first_line(&mut room, bytes)? else {
        return Err(AsmFault::BadLine(1));
    };
    let mut code = Vec::new(alloc);
    let mut number = 1;
    'lines: while !rest.is_empty() {
        number += 1;
        let Some((encoded, after)) = next_line(&mut room, code.len() as u32, rest)? else {
            return Err(AsmFault::BadLine(number));
        };
        code.extend_from_slice(encoded.as_slice())?;
        rest = after;
    }
    if code.is_empty() {
        return Err(AsmFault::Empty);
    }
    Ok(Image {
        code: Seq::from_vec(code),
        data_words,
    })
}
