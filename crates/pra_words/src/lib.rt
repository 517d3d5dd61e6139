//! The words of the command line: what they ask for, and why they are refused.
//!
//! `read_words` answers exactly what `asked_of` (`specs/Words`) makes of the words: what they ask
//! for where they are a line and each value is one that its word may have, and else the first thing
//! that is wrong. `words_lines` are the lines that tell it.
//!
//! Read `specs/CommandLine` first: which lists of words are a line, word by word, with nothing of
//! how they are read. The reading is that of the library's simple command, of which
//! `specs/Command` has the description; that the two are the same on all texts is
//! `proofs/LineRead`.
#![tactic(auto)]

pub mod line;
pub mod texts;
pub mod words;

pub use texts::words_lines;
pub use words::{CostWord, FileKind, Mode, Request, Word, WordsFault, read_words};
