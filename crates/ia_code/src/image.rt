// A program as it is loaded, and as it stands in a file. `specs/Image` has the form of the file.

use pra_list::Seq;

/// The letters PRAI, 50 52 41 49, as a number whose lowest byte is first: an image file begins with
/// them.
pub const MAGIC: u32 = 0x4941_5250;
/// The version of the format, which follows them.
pub const VERSION: u32 = 1;
/// An image file has four numbers of 32 bits before the code.
pub const HEADER_BYTES: usize = 16;
/// 40 MiB: the code region may be 48 MiB long, up to the data.
pub const MAX_CODE_BYTES: u32 = 41_943_040;
/// 16 MiB of data.
pub const MAX_DATA_WORDS: u32 = 4_194_304;

/// The code and how many 32-bit words of data the program has. An image is valid where it has 1 to
/// `MAX_CODE_BYTES` bytes of code and at most `MAX_DATA_WORDS` data words.
#[derive(Debug, PartialEq, Eq, Drop)]
pub struct Image {
    pub code: Seq<u8>,
    pub data_words: u32,
}
