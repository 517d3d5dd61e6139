// The bytes of an image file, and the image that they hold.

ghost use Rattle.std.specs.Prelude.{◌≡◌, ◌+◌, ◌≤◌, ℕ, List, length, IfOk, IfErr, MatchOption, Some};
ghost use Rattle.std.specs.Prelude.{None};
ghost use Rattle.std.specs.Prelude.{Err};
ghost use Rattle.ia_code.specs.declared.image.Image.{Image};
ghost use Rattle.ia_code.specs.Image.{IsImage, image_bytes_of};
ghost use Rattle.ia_asm.specs.Rules.{place_of, number_at, broken, IsFault, IsFileOf};
ghost use Rattle.ia_asm.specs.Rules.{IsReadOrNoMemory};
ghost use Rattle.ia_asm.specs.declared.image_file.Field.{Field};
ghost use Rattle.ia_asm.specs.declared.image_file.ImageFault.TheVariants as fault_kind;

use ia_code::Image;
use ia_code::image::{HEADER_BYTES, MAGIC, MAX_CODE_BYTES, MAX_DATA_WORDS, VERSION};
use pra_base::OutOfMemory;
use pra_list::Seq;
use std::alloc::Global;
use thiserror::Error;

/// The parts of an image file that have a rule, in the order in which the rules are tested.
#[derive(Clone, Copy, Debug, PartialEq, Eq, Drop)]
pub enum Field {
    /// At least the header's bytes.
    Length,
    Magic,
    Version,
    /// The number of bytes of code, which are what follows the header.
    CodeLength,
    DataWords,
}

/// Why some bytes are no image file.
#[derive(Debug, PartialEq, Eq, Drop, Error)]
pub enum ImageFault {
    /// The first field that breaks its rule, and its place.
    #[error("the {0:?} field at {1} is broken")]
    BadImage(Field, u32),
    #[error("out of memory")]
    OutOfMemory,
}

impl From<OutOfMemory> for ImageFault {
    ghost from_gives = { λ _ fault. fault ≡ fault_kind.OutOfMemory };

    fn from(_: OutOfMemory) -> Self {
        ImageFault::OutOfMemory
    }
}

/// The bytes of a valid image's file.
///
/// # Errors
///
/// Where there is no memory for them.
pub fn image_bytes(alloc: Global, image: &Image) -> Result<Vec<u8>, OutOfMemory>
    requires { IsImage image.now }
    ensures { IfOk result (λ bytes. bytes.items ≡ image_bytes_of image.now) }
{
    let code = image.code.as_slice();
    let code_bytes = code.len() as u32;
    let mut bytes = Vec::with_capacity(alloc, HEADER_BYTES + code.len())?;
    bytes.extend_from_slice(&MAGIC.to_le_bytes())?;
    bytes.extend_from_slice(&VERSION.to_le_bytes())?;
    bytes.extend_from_slice(&code_bytes.to_le_bytes())?;
    bytes.extend_from_slice(&image.data_words.to_le_bytes())?;
    bytes.extend_from_slice(code)?;
    Ok(bytes)
}

/// The image that a file's bytes hold.
///
/// # Errors
///
/// The first field that breaks its rule; else want of memory for the code.
pub fn image_of(alloc: Global, bytes: &[u8]) -> Result<Image, ImageFault>
    // What is read is a valid image, whose file's bytes these are.
    ensures found { IfOk result (IsFileOf bytes.now) }
    // The bytes of a valid image's file give it, unless there is no memory.
    ensures only { (image : Image) → IsFileOf bytes.now image → IsReadOrNoMemory image result }
    // A fault names the first broken field, and where one is broken it is named.
    ensures fault { IfErr result (IsFault bytes.now) }
    ensures broken { (field : Field) → broken bytes.now ≡ Some field →
        result ≡ Err (ImageFault.BadImage field (place_of field)) }
{
    match broken_field(bytes) {
        Some((field, place)) => Err(ImageFault::BadImage(field, place)),
        None => read_image(alloc, bytes),
    }
}

// The number of 32 bits at a place.
fn number(bytes: &[u8], place: usize) -> u32
    requires { place + 4 ≤ length bytes.now }
    ensures { result ≡ number_at place bytes.now }
{
    let (_, rest) = bytes.split_at(place);
    let (first, _) = rest.split_at(4);
    u32::from_le_bytes([first[0], first[1], first[2], first[3]])
}

// The first field that breaks its rule, and its place.
fn broken_field(bytes: &[u8]) -> Option<(Field, u32)>
    ensures { MatchOption result (broken bytes.now ≡ None) (λ x.
        (broken bytes.now ≡ Some x.0) × (x.1 ≡ place_of x.0)) }
{
    if bytes.len() < HEADER_BYTES {
        return Some((Field::Length, 0));
    }
    if number(bytes, 0) != MAGIC {
        return Some((Field::Magic, 0));
    }
    if number(bytes, 4) != VERSION {
        return Some((Field::Version, 4));
    }
    let code_bytes = number(bytes, 8);
    if code_bytes < 1
        || code_bytes > MAX_CODE_BYTES
        || bytes.len() != HEADER_BYTES + code_bytes as usize
    {
        return Some((Field::CodeLength, 8));
    }
    if number(bytes, 12) > MAX_DATA_WORDS {
        return Some((Field::DataWords, 12));
    }
    None
}

// The image that a file without a broken field holds.
fn read_image(alloc: Global, bytes: &[u8]) -> Result<Image, ImageFault>
    requires { broken bytes.now ≡ None }
    ensures found { IfOk result (IsFileOf bytes.now) }
    ensures only { (image : Image) → IsFileOf bytes.now image → IsReadOrNoMemory image result }
    ensures fault { IfErr result (λ e. e ≡ ImageFault.OutOfMemory) }
{
    let (_, code) = bytes.split_at(HEADER_BYTES);
    let code = copied(alloc, code)?;
    Ok(Image {
        code,
        data_words: number(bytes, 12),
    })
}

fn copied(alloc: Global, bytes: &[u8]) -> Result<Seq<u8>, OutOfMemory>
    ensures { IfOk result (λ copy. copy ≡ bytes.now) }
{
    Ok(Seq::from_slice(alloc, bytes)?)
}
