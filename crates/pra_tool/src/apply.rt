// The mode `apply`: FILE is compiled with the routes of the certificate that the input is.

ghost use Rattle.std.specs.Prelude.{◌≡◌, ◌≢◌, ◌⊎◌, ℕ, List};
ghost use Rattle.pra_compile.specs.Compiled.{IsRunnable};
ghost use Rattle.pra_words.specs.Written.{asked_by};
ghost use Rattle.pra_tool.specs.Applied.{certificate_texts, misapplied_status};
ghost use Rattle.pra_tool.specs.Clause.{applying};
ghost use Rattle.pra_tool.specs.Ends.{Ends};
ghost use Rattle.pra_tool.specs.Inputs.{input_fault_status, input_fault_line};
ghost use Rattle.pra_tool.specs.Modes.{Answers};
ghost use Rattle.pra_tool.specs.Outside.{stream_seen, seen_by, Told};
ghost use Rattle.pra_tool.specs.Sources.{IsSourced};
ghost use Rattle.pra_tool.specs.Texts.{misapplied_line};

use crate::applied::{Misapplied, apply};
use crate::certified::Uncertified;
use crate::input::{InputFault, read_certificate};
use crate::refusal::{refuse_cert, refuse_source};
use crate::report::{apply_report, refuse, write_report};
use crate::source::{Sourced, max_source, over_fault, read_source};
use crate::status::Status;
use crate::texts::misapplied_line;
use pra_io::{FileFault, Folder, Sink, Source};
use pra_words::Request;
use std::alloc::Global;

/// Reads FILE, and compiles it with the routes of the certificate that the input is.
pub(crate) fn apply_file<D: Folder, I: Source, O: Sink, N: Sink>(
    alloc: Global,
    request: &Request,
    folder: &mut D,
    input: &mut I,
    out: &mut O,
    notes: &mut N,
) -> Status
    ensures { let look = seen_by D.file D.read_faults D.write_faults I.left I.faults
        O.bytes O.faults N.bytes N.faults in
        let old = look folder.old input.old out.old notes.old in
        let new = look folder.new input.new out.new notes.new in
        Answers (applying (asked_by request.now)) request.now.file.now old new result }
{
    let source = match folder.read_file(alloc, request.file, max_source(request.from)) {
        Ok(source) => source,
        Err(FileFault::OutOfMemory) => return Status::NoMemory,
        Err(FileFault::TooLong) => return refuse_source(alloc, notes, over_fault(request.from)),
        Err(FileFault::Failed) => return refuse(notes, Status::Fault, "fault read file\n"),
    };
    match read_source(alloc, request.from, &source) {
        Ok(sourced) => apply_input(alloc, request, sourced, folder, input, out, notes),
        Err(fault) => refuse_source(alloc, notes, fault),
    }
}

// Reads the certificate, applies it to the code of FILE, and writes.
fn apply_input<D: Folder, I: Source, O: Sink, N: Sink>(
    alloc: Global,
    request: &Request,
    sourced: Sourced,
    folder: &mut D,
    input: &mut I,
    out: &mut O,
    notes: &mut N,
) -> Status
    requires { IsRunnable sourced.file }
    ensures { (source : List ℕ) → IsSourced request.now.from source sourced →
        let look = seen_by D.file D.read_faults D.write_faults I.left I.faults
        O.bytes O.faults N.bytes N.faults in
        let old = look folder.old input.old out.old notes.old in
        let new = look folder.new input.new out.new notes.new in
        Ends (applying (asked_by request.now)) source old new result }
{
    let certificate = match read_certificate(alloc, input) {
        Ok(certificate) => certificate,
        Err(fault) => return refuse_input_text(alloc, notes, fault),
    };
    let Sourced { file, .. } = sourced;
    let compiled = match apply(alloc, file, certificate) {
        Ok(compiled) => compiled,
        Err(fault) => return refuse_misapplied(alloc, notes, fault),
    };
    match apply_report(alloc, request, &compiled) {
        Ok(report) => write_report(alloc, &report, folder, out, notes),
        Err(_) => Status::NoMemory,
    }
}

// Writes why no certificate was read from the input.
fn refuse_input_text<N: Sink>(
    alloc: Global,
    notes: &mut N,
    fault: InputFault<Uncertified>,
) -> Status
    ensures known { (result ≡ input_fault_status certificate_texts fault) ⊎
        (result ≡ Status.NoMemory) }
    ensures told { result ≢ Status.NoMemory → Told (input_fault_line certificate_texts fault)
        (stream_seen N.bytes N.faults notes.old) (stream_seen N.bytes N.faults notes.new) }
    ensures memory { result ≡ Status.NoMemory → notes.new ≡ notes.old }
{
    match fault {
        InputFault::Wrong(wrong) => refuse_cert(alloc, notes, wrong),
        InputFault::NotRead => refuse(notes, Status::Fault, "fault read input\n"),
        InputFault::OutOfMemory => Status::NoMemory,
    }
}

// Writes why a certificate is not applied to the code of FILE.
fn refuse_misapplied<N: Sink>(alloc: Global, notes: &mut N, fault: Misapplied) -> Status
    ensures known { (result ≡ misapplied_status fault) ⊎ (result ≡ Status.NoMemory) }
    ensures told { result ≢ Status.NoMemory → Told (misapplied_line fault)
        (stream_seen N.bytes N.faults notes.old) (stream_seen N.bytes N.faults notes.new) }
    ensures memory { result ≡ Status.NoMemory → notes.new ≡ notes.old }
{
    let status = match fault {
        Misapplied::Count | Misapplied::Module(_) | Misapplied::Fails(_, _) => Status::BadSource,
        Misapplied::TooLong(_) => Status::OverLimit,
        Misapplied::OutOfMemory => return Status::NoMemory,
    };
    match misapplied_line(alloc, fault) {
        Ok(line) => refuse(notes, status, line.as_str()),
        Err(_) => Status::NoMemory,
    }
}
