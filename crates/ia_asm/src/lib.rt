//! The assembler: from placed code to an image, and the image file.
//!
//! Promised: `assemble` gives a valid image whose code decodes to exactly the instructions that the
//! procedures become, one behind the other, with the distances of all jumps and calls
//! (`IsImageOf`, by `code_of` of ia_emit). It says as well that the offsets of the addresses that
//! it read have 32 bits, which the layers above need. It is made of `Assembly::begin`,
//! `Assembly::add` for each procedure and `Assembly::finish`, which callers use that have one
//! procedure at a time. `image_bytes` gives the bytes of a valid image's file, and `image_of`
//! answers an image exactly for such bytes, and else names the first field that breaks its rule.
//!
//! Read first `specs/Assembly`, which says what an assembly holds while its calls are open, and
//! `specs/Rules`; ia_emit's `specs/Code` has the instructions, and ia_code's `specs/Image` the form
//! of the file. The layer above calls these functions.
#![tactic(auto)]

pub mod assembly;
pub mod counting;
mod filling;
pub mod image_file;

pub use assembly::{Assembly, assemble};
pub use counting::CountedAssembly;
pub use image_file::{Field, ImageFault, image_bytes, image_of};
