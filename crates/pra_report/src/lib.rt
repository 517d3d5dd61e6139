//! The texts around a compiled program: what it reads, what it writes, and the report on its
//! procedures.
//!
//! Read `specs/Texts` for what is written, `specs/Report` for the report with its rounds and
//! totals, and `specs/Input` for what an input is: the numbers of its runs, or the place of the
//! first run that is no word. [`output_text`], [`report_text`] and [`input_words`] answer exactly
//! these, as do the functions for parts of them. Totals are told where they have 128 bits
//! (`HaveTotals`); `laws` says of which procedures they have.
#![tactic(auto)]

mod input;
pub mod laws;
mod report;
mod text;

pub use input::{InputFault, input_words};
pub use report::{ProcOut, generated_line, output_line, procedure_lines, report_text, total_line};
pub use text::output_text;
