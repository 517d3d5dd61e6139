// The text of a certificate, and back.

ghost use Rattle.std.specs.Prelude.{◌≡◌, ◌<◌, length, IfOk};
ghost use Rattle.cert_form.specs.Form.{certificate_data, certificate_text};
ghost use Rattle.cert_form.specs.Whole.{AreNumbered, IsReadAs, IsReadAgain, Reads};
ghost use Rattle.cert_form.specs.declared.text.CertFault.TheVariants as fault;

use crate::certificate::Certificate;
use crate::line::{line, read};
use crate::passing::Unread;
use pra_base::OutOfMemory;
use std::alloc::{AllocError, Global};
use thiserror::Error;

/// 16 MiB: how many bytes the text of a certificate has at most. Callers refuse longer ones.
pub const MAX_CERT_BYTES: usize = 16_777_216;

/// Why some bytes are no text of a certificate.
#[derive(Clone, Copy, Debug, PartialEq, Eq, Error)]
pub enum CertFault {
    /// They are no JSON.
    #[error("this is no JSON")]
    NotJson,
    /// They are JSON of something else.
    #[error("this is no certificate")]
    NotCertificate,
    #[error("out of memory")]
    OutOfMemory,
}

impl From<AllocError> for CertFault {
    ghost from_gives = { λ _ e. e ≡ fault.OutOfMemory };

    fn from(_: AllocError) -> Self {
        CertFault::OutOfMemory
    }
}

/// The text of a certificate: its JSON value without a blank, and a line feed. It is read again
/// where there is a procedure and the id of each code is its number.
///
/// # Errors
///
/// Where there is no memory for the text or for the value.
pub fn cert_text(alloc: Global, c: &Certificate) -> Result<Vec<u8>, OutOfMemory>
    ensures text { IfOk result (λ t. t.items ≡ certificate_text c.now) }
    ensures back { IfOk result (λ t. IsReadAs t.items (certificate_data c.now)) }
    ensures again { IfOk result (λ t. 0 < length c.now.procs → AreNumbered 0 c.now.procs
        → IsReadAgain c.now t.items) }
{
    let text = line(alloc, c)?;
    Ok(text)
}

/// The certificate that some bytes are the text of; blanks and the order of keys are free.
///
/// # Errors
///
/// `NotJson` where the bytes are no JSON; `NotCertificate` where they are JSON of something else,
/// also where a number is none of its type, or there is no procedure; `OutOfMemory` where there is
/// no memory for all that.
pub fn cert_read(alloc: Global, bytes: &[u8]) -> Result<Certificate, CertFault>
    ensures { Reads bytes.now result }
{
    match read(alloc, bytes) {
        Ok(Some(found)) => Ok(found),
        Ok(None) => Err(CertFault::NotCertificate),
        Err(Unread::NotJson) => Err(CertFault::NotJson),
        Err(Unread::OutOfMemory) => Err(CertFault::OutOfMemory),
    }
}
