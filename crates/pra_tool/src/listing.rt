// From the bytes of an image's file to its text, and from the text to the image.

ghost use Rattle.std.specs.Prelude.{◌≡◌, ◌≢◌, ◌≤◌, length, IfOk, IfErr};
ghost use Rattle.ia_asm.specs.Rules.{IsFileOf};
ghost use Rattle.ia_code.specs.Image.{IsImage};
ghost use Rattle.ia_list.specs.ListText.{IsListText, max_text_bytes};
ghost use Rattle.pra_tool.specs.Listings.{most_image, IsListed, IsUnlisted};
ghost use Rattle.pra_tool.specs.Listings.{IsUnloaded, unlisted_by, IsUnassembled};

use ia_asm::{Field, ImageFault, image_of};
use ia_code::Image;
use ia_code::image::{HEADER_BYTES, MAX_CODE_BYTES};
use ia_list::{AsmFault, ListFault, MAX_TEXT_BYTES, asm_text, list_text, text_length};
use std::alloc::Global;

/// The most bytes of an image's file.
pub const MAX_IMAGE: usize = HEADER_BYTES + MAX_CODE_BYTES as usize;

/// Why a file is not listed as the text of an image; the first two say why it is none of an image.
#[derive(Clone, Copy, Debug, PartialEq, Eq)]
pub enum Unlisted {
    /// It has more than 41,943,056 bytes.
    TooLong,
    /// This field of an image's file, at this place, is the first that breaks its rule.
    Broken(Field, u32),
    /// At this place of the code, counted from its start, no instruction begins.
    Code(u32),
    /// The text has so many bytes, more than 67,108,864.
    LongText(u64),
    OutOfMemory,
}

/// Why a file is not assembled as the text of an image.
#[derive(Clone, Copy, Debug, PartialEq, Eq)]
pub enum Unassembled {
    /// It has more than 67,108,864 bytes.
    TooLong,
    /// This line, counted from 1, is the first that is none of such a text's.
    Line(u32),
    /// Its first line is right, and there is no other.
    Empty,
    OutOfMemory,
}

/// The image that a file of at most 41,943,056 bytes holds.
///
/// # Errors
///
/// The first field that breaks its rule. And `OutOfMemory`.
pub fn image_in(alloc: Global, file: &[u8]) -> Result<Image, Unlisted>
    requires { length file.now ≤ most_image }
    ensures held { IfOk result (IsFileOf file.now) }
    ensures cause { IfErr result (λ f. f ≢ Unlisted.OutOfMemory → IsUnloaded file.now f) }
{
    match image_of(alloc, file) {
        Ok(image) => Ok(image),
        Err(ImageFault::BadImage(field, at)) => Err(Unlisted::Broken(field, at)),
        Err(ImageFault::OutOfMemory) => Err(Unlisted::OutOfMemory),
    }
}

/// The text of the image that a file of at most 41,943,056 bytes holds.
///
/// # Errors
///
/// The one thing that is wrong with the file. And `OutOfMemory`.
#[tactic(auto, using(crate::proofs::ListingModes::unloaded_is_unlisted))]
pub fn listing_of(alloc: Global, file: &[u8]) -> Result<Vec<u8>, Unlisted>
    requires { length file.now ≤ most_image }
    ensures listed { IfOk result (λ text. IsListed file.now text.items) }
    ensures few { IfOk result (λ text. length text.items ≤ max_text_bytes) }
    ensures cause { IfErr result (λ f. f ≢ Unlisted.OutOfMemory → IsUnlisted file.now f) }
{
    let image = image_in(alloc, file)?;
    match text_length(alloc, &image) {
        Ok(count) if count > MAX_TEXT_BYTES => return Err(Unlisted::LongText(count as u64)),
        Ok(_) => {}
        Err(fault) => return Err(cause_of(fault)),
    }
    match list_text(alloc, &image) {
        Ok(text) => Ok(text),
        Err(fault) => Err(cause_of(fault)),
    }
}

fn cause_of(fault: ListFault) -> Unlisted
    ensures { result ≡ unlisted_by fault }
{
    match fault {
        ListFault::NotInSubset(at) => Unlisted::Code(at),
        ListFault::OutOfMemory => Unlisted::OutOfMemory,
    }
}

/// The image whose text a file of at most 67,108,864 bytes holds.
///
/// # Errors
///
/// The one thing that is wrong with the text. And `OutOfMemory`.
pub fn image_by(alloc: Global, text: &[u8]) -> Result<Image, Unassembled>
    requires { length text.now ≤ max_text_bytes }
    ensures valid { IfOk result IsImage }
    ensures listed { IfOk result (λ image. IsListText image text.now) }
    ensures cause { IfErr result (λ f. f ≢ Unassembled.OutOfMemory → IsUnassembled text.now f) }
{
    match asm_text(alloc, text) {
        Ok(image) => Ok(image),
        Err(AsmFault::BadLine(number)) => Err(Unassembled::Line(number)),
        Err(AsmFault::Empty) => Err(Unassembled::Empty),
        Err(AsmFault::OutOfMemory) => Err(Unassembled::OutOfMemory),
    }
}
