// The text of a code file, and back.

ghost use Rattle.std.specs.Prelude.{◌≡◌, IfOk};
ghost use Rattle.cert_form.specs.CodeForm.{file_data, code_file_text};
ghost use Rattle.cert_form.specs.CodeWhole.{IsCodeFile, ReadsCode, IsCodeReadAgain};
ghost use Rattle.cert_form.specs.Whole.{IsReadAs};
ghost use Rattle.cert_form.specs.declared.code_files.CodeFault.TheVariants as fault;

use crate::codes::CodeFile;
use crate::line::{line, read};
use crate::passing::Unread;
use pra_base::OutOfMemory;
use std::alloc::{AllocError, Global};
use thiserror::Error;

/// 16 MiB: how many bytes the text of a code file has at most. Callers refuse longer ones.
pub const MAX_CODE_BYTES: usize = 16_777_216;

/// Why some bytes are no text of a code file.
#[derive(Clone, Copy, Debug, PartialEq, Eq, Error)]
pub enum CodeFault {
    /// They are no JSON.
    #[error("this is no JSON")]
    NotJson,
    /// They are JSON of something else.
    #[error("this is no code file")]
    NotCode,
    #[error("out of memory")]
    OutOfMemory,
}

impl From<AllocError> for CodeFault {
    ghost from_gives = { λ _ e. e ≡ fault.OutOfMemory };

    fn from(_: AllocError) -> Self {
        CodeFault::OutOfMemory
    }
}

/// The text of a code file: its JSON value without a blank, and a line feed. It is read again where
/// the file keeps what one keeps (`IsCodeFile`); a name that is none is written as null.
///
/// # Errors
///
/// Where there is no memory for the text or for the value.
pub fn code_text(alloc: Global, file: &CodeFile) -> Result<Vec<u8>, OutOfMemory>
    ensures text { IfOk result (λ t. t.items ≡ code_file_text file.now) }
    ensures back { IfOk result (λ t. IsReadAs t.items (file_data file.now)) }
    ensures again { IfOk result (λ t. IsCodeFile file.now → IsCodeReadAgain file.now t.items) }
{
    let text = line(alloc, file)?;
    Ok(text)
}

/// The code file that some bytes are the text of; blanks and the order of keys are free.
///
/// # Errors
///
/// `NotJson` where the bytes are no JSON; `NotCode` where they are JSON of something else, also
/// where a number is none of its type, there are too many data words or no procedure, procedure 0
/// takes arguments, or a name is none; `OutOfMemory` where there is no memory for all that.
pub fn code_read(alloc: Global, bytes: &[u8]) -> Result<CodeFile, CodeFault>
    ensures { ReadsCode bytes.now result }
{
    match read(alloc, bytes) {
        Ok(Some(found)) => Ok(found),
        Ok(None) => Err(CodeFault::NotCode),
        Err(Unread::NotJson) => Err(CodeFault::NotJson),
        Err(Unread::OutOfMemory) => Err(CodeFault::OutOfMemory),
    }
}
