// The lines that tell why the words are refused.

ghost use Rattle.std.specs.Prelude.{◌≡◌, IfOk, string_bytes};
ghost use Rattle.pra_words.specs.Texts.{words_lines};

use crate::words::WordsFault;
use std::alloc::{AllocError, Global};
use std::fmt::Write;

/// How the program is called.
const USAGE: &str = concat!(
    "usage: pra MODE FILE [--rounds N] [--cost size|speed] [--steps M]",
    " [--gap G] [--from module|code] [--image NAME] [--seed S] [--size Z]\n"
);

/// The lines that tell why the words are refused, the usage line at the end.
///
/// # Errors
///
/// Where there is no memory for the lines.
pub fn words_lines(alloc: Global, fault: WordsFault) -> Result<String, AllocError>
    ensures { IfOk result (λ lines. string_bytes lines ≡ words_lines fault) }
{
    match fault {
        WordsFault::Words => {
            let usage = USAGE;
            let lines = format!(in alloc; "fault words\n{usage}")?;
            Ok(lines)
        }
        WordsFault::Value(word) => {
            let name = word.name();
            let usage = USAGE;
            let lines = format!(in alloc; "fault value {name}\n{usage}")?;
            Ok(lines)
        }
        WordsFault::OutOfMemory => Ok(String::new(alloc)),
    }
}
