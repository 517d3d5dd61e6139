// From what was compiled to the text of its certificate, and from such a text to the certificate
// that holds.

ghost use Rattle.std.specs.Prelude.{◌≡◌, ◌≢◌, ◌≤◌, length, IfOk, IfErr};
ghost use Rattle.pra_tool.specs.Applied.{IsCertText, IsNoCertText};
ghost use Rattle.pra_tool.specs.Certified.{cost_by, most_certificate, CertifiesMade};
ghost use Rattle.pra_tool.specs.Certified.{IsHeld, IsUncertified};

use crate::compiler::Made;
use cert_check::{CertAnswer, Reason, check_cert};
use cert_form::{CertFault, Certificate, CostWord, cert_read, cert_text};
use cert_make::certificate_of;
use pra_base::OutOfMemory;
use pra_compile::Compiled;
use std::alloc::Global;

/// Why a file is no certificate that holds.
#[derive(Clone, Copy, Debug, PartialEq, Eq)]
pub enum Uncertified {
    /// It has more than 16,777,216 bytes.
    TooLong,
    /// It is no JSON.
    NotJson,
    /// It is JSON of something else.
    NotCertificate,
    /// This procedure is the first that fails, by this reason.
    Fails(u32, Reason),
    OutOfMemory,
}

// The cost word of a certificate.
fn cost_by(word: pra_words::CostWord) -> CostWord
    ensures { result ≡ cost_by word }
{
    match word {
        pra_words::CostWord::Size => CostWord::Size,
        pra_words::CostWord::Speed => CostWord::Speed,
    }
}

/// The text of the certificate of what was compiled by these costs.
///
/// # Errors
///
/// Where there is no memory for it.
pub fn certify(alloc: Global, cost: pra_words::CostWord, made: Made) -> Result<Vec<u8>, OutOfMemory>
    ensures { IfOk result (λ text. CertifiesMade cost made text.items) }
{
    let Made { compiled, .. } = made;
    let Compiled { procs, .. } = compiled;
    let certificate = certificate_of(alloc, cost_by(cost), procs)?;
    let text = cert_text(alloc, &certificate)?;
    Ok(text)
}

/// The certificate of which at most 16,777,216 bytes are the text.
///
/// # Errors
///
/// Why they are no text of one. And `OutOfMemory`.
pub fn certificate_in(alloc: Global, text: &[u8]) -> Result<Certificate, Uncertified>
    requires { length text.now ≤ most_certificate }
    ensures is { IfOk result (IsCertText text.now) }
    ensures cause { IfErr result (λ f. f ≢ Uncertified.OutOfMemory → IsNoCertText text.now f) }
{
    match cert_read(alloc, text) {
        Ok(certificate) => Ok(certificate),
        Err(CertFault::NotJson) => Err(Uncertified::NotJson),
        Err(CertFault::NotCertificate) => Err(Uncertified::NotCertificate),
        Err(CertFault::OutOfMemory) => Err(Uncertified::OutOfMemory),
    }
}

/// The certificate of which a file of at most 16,777,216 bytes is the text, where it holds.
///
/// # Errors
///
/// The one thing that is wrong with the file. And `OutOfMemory`.
#[tactic(auto, using(crate::proofs::CertModes::held, crate::proofs::CertModes::none_fits))]
pub fn held_by(alloc: Global, file: &[u8]) -> Result<Certificate, Uncertified>
    requires { length file.now ≤ most_certificate }
    ensures held { IfOk result (IsHeld file.now) }
    ensures cause { IfErr result (λ f. f ≢ Uncertified.OutOfMemory → IsUncertified file.now f) }
{
    let certificate = certificate_in(alloc, file)?;
    match check_cert(alloc, &certificate) {
        Ok(CertAnswer::Yes) => Ok(certificate),
        Ok(CertAnswer::No(procedure, reason)) => Err(Uncertified::Fails(procedure, reason)),
        Err(OutOfMemory) => Err(Uncertified::OutOfMemory),
    }
}
