//! The IA-32 instructions that the compiler uses and their bytes, the map of memory, the services
//! of the host, and the image.
//!
//! Promised: `decode` answers an instruction exactly where a row of the decode table begins the
//! bytes, and then that row's; `encode` gives the row's bytes; `is_sound` tells whether a row has
//! the instruction. The laws say that a list of instructions is found in its bytes again, one
//! behind the other, and that an image file holds one image.
//!
//! Read first `specs/DecodeTable`, a function from the instruction to its bytes that reads beside
//! the manual's opcode tables, then `specs/Listing`, `specs/Regions`, `specs/Services` and
//! `specs/Image`. `specs/Reading` is the same table read from left to right, as the decoder does.
//!
//! The layers above use `decode`, `encode`, the constants of `regions` and `image`, and of the
//! proofs `ReadingIsTable`, `EncodingSize` and `Listings`.
#![tactic(auto)]

pub mod decoder;
pub mod encoder;
pub mod image;
pub mod ins;
pub mod laws;
mod operands;
pub mod regions;
pub mod services;
pub mod sound;

pub use decoder::{NotInSubset, decode};
pub use encoder::encode;
pub use image::Image;
pub use ins::{AluOp, Ins, MemAddr, Reg, Rm, Width};
pub use services::Service;
pub use sound::is_sound;
