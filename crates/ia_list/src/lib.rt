//! Images as text, one instruction a line, and the image of such a text.
//!
//! Promised: `list_text` writes the text of an image, or tells where its code is none of the
//! table's; `asm_text` gives the image whose text some bytes are, or the first line that is none of
//! such a text's. The laws say that each goes back what the other came.
//!
//! Read first `specs/Parts`, the table of forms, names and operands that writing and reading share,
//! then `specs/Text`, a line of the text, and `specs/ListText`, the whole text and what the two
//! calls answer.
#![tactic(auto)]

mod assembly;
mod forms;
pub mod laws;
mod listing;
mod numerals;
mod operands;
mod reader;
mod scan;
mod table;

pub use assembly::{AsmFault, MAX_TEXT_BYTES, asm_text};
pub use listing::{ListFault, list_text, text_length};
