// From code and a certificate of it to the image that carries the certificate's routes.

ghost use Rattle.std.specs.Prelude.{◌≡◌, ◌≢◌, ◌≤◌, length, IfOk, IfErr, MatchOption};
ghost use Rattle.cert_check.specs.declared.check.CertAnswer.TheVariants.{Yes};
ghost use Rattle.cert_check.specs.Reasons.{IsAnswerOf, AreBounded};
ghost use Rattle.pra_compile.specs.Compiled.{IsRunnable, codes_named};
ghost use Rattle.pra_report.specs.Report.{most_procs};
ghost use Rattle.pra_tool.specs.Applied.{codes_by, codes_in, routes_in, DifferFirst};
ghost use Rattle.pra_tool.specs.Applied.{IsApplied, IsMisapplied};

use crate::same::Same;
use cert_check::{CertAnswer, Reason, check_cert};
use cert_form::{Cert, Certificate, CodeFile, NamedCode};
use pra_base::OutOfMemory;
use pra_compile::{CompileFault, Compiled, Given, GivenRoutes, compile_codes};
use std::alloc::Global;

/// Why a certificate is not applied to code.
#[derive(Clone, Copy, Debug, PartialEq, Eq)]
pub enum Misapplied {
    /// It has another number of procedures.
    Count,
    /// Of this procedure, the first such one, it has other code.
    Module(u32),
    /// It has the same codes, and this procedure is the first that fails, by this reason.
    Fails(u32, Reason),
    /// It holds, and with its routes the code has so many bytes, for which an image has no room.
    TooLong(u64),
    OutOfMemory,
}

impl From<OutOfMemory> for Misapplied {
    ghost use Rattle.pra_tool.specs.declared.applied.Misapplied.TheVariants as misapplied;

    ghost from_gives = { λ _ e. e ≡ misapplied.OutOfMemory };

    fn from(_: OutOfMemory) -> Self {
        Misapplied::OutOfMemory
    }
}

/// The code, compiled with the routes of a certificate. Nothing is made of routes before all of the
/// certificate was tested.
///
/// # Errors
///
/// The first thing by which the certificate is none of this code, or does not hold; or how long the
/// code is with its routes, where that is too long. And `OutOfMemory`.
pub fn apply(
    alloc: Global,
    file: CodeFile,
    certificate: Certificate,
) -> Result<Compiled, Misapplied>
    requires { IsRunnable file }
    ensures applied { IfOk result (IsApplied file certificate) }
    ensures cause { IfErr result (λ f. f ≢ Misapplied.OutOfMemory →
        IsMisapplied file certificate f) }
{
    if certificate.procs.len() != file.procs.len() {
        return Err(Misapplied::Count);
    }
    if let Some(number) = first_other(certificate.procs.as_slice(), file.procs.as_slice()) {
        return Err(Misapplied::Module(number));
    }
    match check_cert(alloc, &certificate)? {
        CertAnswer::Yes => carry(alloc, file, certificate),
        CertAnswer::No(procedure, reason) => Err(Misapplied::Fails(procedure, reason)),
    }
}

// The number of the first procedure of which a certificate has other code.
fn first_other(certs: &[Cert], procs: &[NamedCode]) -> Option<u32>
    requires same { length certs.now ≡ length procs.now }
    requires few { length procs.now ≤ most_procs }
    ensures { MatchOption result (codes_by certs.now ≡ codes_named procs.now)
        (DifferFirst (codes_by certs.now) (codes_named procs.now)) }
{
    for (number, cert) in certs.iter().enumerate() {
        if !cert.code.is_same(&procs[number].code) {
            return Some(number as u32);
        }
    }
    None
}

// The routes of a certificate, which are moved, with what is claimed of them.
fn routes_in(alloc: Global, certificate: Certificate) -> Result<Vec<GivenRoutes>, OutOfMemory>
    ensures { IfOk result (λ given. given.items ≡ routes_in certificate) }
{
    let mut given = Vec::new(alloc);
    for cert in certificate.procs.into_vec() {
        let Cert {
            routes,
            total,
            bound,
            ..
        } = cert;
        given.push(GivenRoutes {
            routes,
            cost: total,
            bound,
        })?;
    }
    Ok(given)
}

// Compiles code that is the certificate's too, with its routes.
fn carry(alloc: Global, file: CodeFile, certificate: Certificate) -> Result<Compiled, Misapplied>
    requires runnable { IsRunnable file }
    requires same { codes_in certificate ≡ codes_named file.procs }
    requires holds { IsAnswerOf certificate Yes }
    requires bounded { AreBounded certificate }
    ensures applied { IfOk result (IsApplied file certificate) }
    ensures cause { IfErr result (λ f. f ≢ Misapplied.OutOfMemory →
        IsMisapplied file certificate f) }
{
    let routes = routes_in(alloc, certificate)?;
    let given = Given {
        routes: routes.as_slice(),
    };
    match compile_codes(alloc, file, &given) {
        Ok(compiled) => Ok(compiled),
        Err(CompileFault::TooLong(count)) => Err(Misapplied::TooLong(count)),
        Err(CompileFault::OutOfMemory) => Err(Misapplied::OutOfMemory),
    }
}
