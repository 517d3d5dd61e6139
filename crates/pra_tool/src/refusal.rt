// The refusals: each writes its line, and answers its status.

ghost use Rattle.std.specs.Prelude.{◌≡◌, ◌≢◌, ◌⊎◌, codes, length};
ghost use Rattle.pra_tool.specs.Outside.{stream_seen, Told};
ghost use Rattle.pra_tool.specs.Texts.{source_line, unlisted_line, unassembled_line};
ghost use Rattle.pra_tool.specs.Texts.{over_line, image_over_line, uncertified_line};
ghost use Rattle.pra_tool.specs.Inputs.{inputs, input_fault_status, input_fault_line};
ghost use Rattle.pra_tool.specs.Certified.{most_certificate, uncertified_status};
ghost use Rattle.pra_tool.specs.Listings.{unlisted_status, unassembled_status};
ghost use Rattle.pra_tool.specs.Sources.{source_status};

use crate::certified::Uncertified;
use crate::input::{InputFault, WrongInput};
use crate::listing::{Unassembled, Unlisted};
use crate::report::refuse;
use crate::source::{CodeWrong, SourceFault};
use crate::status::Status;
use crate::texts::{
    image_over_line, input_line, over_line, source_line, unassembled_line, uncertified_line,
    unlisted_line,
};
use cert_form::MAX_CERT_BYTES;
use ob_read::ReadFault;
use pra_io::Sink;
use std::alloc::Global;

/// Writes what is wrong with a source.
pub(crate) fn refuse_source<N: Sink>(alloc: Global, notes: &mut N, fault: SourceFault) -> Status
    ensures known { (result ≡ source_status fault) ⊎ (result ≡ Status.NoMemory) }
    ensures told { result ≢ Status.NoMemory → Told (source_line fault)
        (stream_seen N.bytes N.faults notes.old) (stream_seen N.bytes N.faults notes.new) }
    ensures memory { result ≡ Status.NoMemory → notes.new ≡ notes.old }
{
    let status = match fault {
        SourceFault::Module(ReadFault::Source(_))
        | SourceFault::Code(CodeWrong::NotJson | CodeWrong::NotCode | CodeWrong::Broken(_)) => {
            Status::BadSource
        }
        SourceFault::Module(ReadFault::Limit(_))
        | SourceFault::Code(CodeWrong::TooLong | CodeWrong::Procedures(_)) => Status::OverLimit,
        SourceFault::Module(ReadFault::OutOfMemory) | SourceFault::OutOfMemory => {
            return Status::NoMemory;
        }
    };
    match source_line(alloc, fault) {
        Ok(line) => refuse(notes, status, line.as_str()),
        Err(_) => Status::NoMemory,
    }
}

/// Writes why the input was not read.
pub(crate) fn refuse_input<N: Sink>(
    alloc: Global,
    notes: &mut N,
    fault: InputFault<WrongInput>,
) -> Status
    ensures known { (result ≡ input_fault_status inputs fault) ⊎ (result ≡ Status.NoMemory) }
    ensures told { result ≢ Status.NoMemory → Told (input_fault_line inputs fault)
        (stream_seen N.bytes N.faults notes.old) (stream_seen N.bytes N.faults notes.new) }
    ensures memory { result ≡ Status.NoMemory → notes.new ≡ notes.old }
{
    let wrong = match fault {
        InputFault::Wrong(wrong) => wrong,
        InputFault::NotRead => return refuse(notes, Status::Fault, "fault read input\n"),
        InputFault::OutOfMemory => return Status::NoMemory,
    };
    let status = match wrong {
        WrongInput::TooLong => Status::OverLimit,
        WrongInput::NoWord(_) => Status::BadInput,
    };
    match input_line(alloc, wrong) {
        Ok(line) => refuse(notes, status, line.as_str()),
        Err(_) => Status::NoMemory,
    }
}

/// Writes how many bytes of code an image has no room for.
pub(crate) fn refuse_code_over<N: Sink>(alloc: Global, notes: &mut N, count: u64) -> Status
    ensures known { (result ≡ Status.OverLimit) ⊎ (result ≡ Status.NoMemory) }
    ensures told { result ≢ Status.NoMemory → Told (image_over_line count)
        (stream_seen N.bytes N.faults notes.old) (stream_seen N.bytes N.faults notes.new) }
    ensures memory { result ≡ Status.NoMemory → notes.new ≡ notes.old }
{
    match image_over_line(alloc, count) {
        Ok(line) => refuse(notes, Status::OverLimit, line.as_str()),
        Err(_) => Status::NoMemory,
    }
}

/// Writes how many bytes the text of a certificate has, where they are too many.
pub(crate) fn refuse_long<N: Sink>(alloc: Global, notes: &mut N, text: &[u8]) -> Status
    ensures known { (result ≡ Status.OverLimit) ⊎ (result ≡ Status.NoMemory) }
    ensures told { result ≢ Status.NoMemory →
        Told (over_line (codes "certificate") (length text.now) most_certificate)
        (stream_seen N.bytes N.faults notes.old) (stream_seen N.bytes N.faults notes.new) }
    ensures memory { result ≡ Status.NoMemory → notes.new ≡ notes.old }
{
    match over_line(
        alloc,
        "certificate",
        text.len() as u64,
        MAX_CERT_BYTES as u64,
    ) {
        Ok(line) => refuse(notes, Status::OverLimit, line.as_str()),
        Err(_) => Status::NoMemory,
    }
}

/// Writes why an image's file is not listed, or does not run.
pub(crate) fn refuse_image<N: Sink>(alloc: Global, notes: &mut N, fault: Unlisted) -> Status
    ensures known { (result ≡ unlisted_status fault) ⊎ (result ≡ Status.NoMemory) }
    ensures told { result ≢ Status.NoMemory → Told (unlisted_line fault)
        (stream_seen N.bytes N.faults notes.old) (stream_seen N.bytes N.faults notes.new) }
    ensures memory { result ≡ Status.NoMemory → notes.new ≡ notes.old }
{
    let status = match fault {
        Unlisted::Broken(_, _) | Unlisted::Code(_) => Status::BadSource,
        Unlisted::TooLong | Unlisted::LongText(_) => Status::OverLimit,
        Unlisted::OutOfMemory => return Status::NoMemory,
    };
    match unlisted_line(alloc, fault) {
        Ok(line) => refuse(notes, status, line.as_str()),
        Err(_) => Status::NoMemory,
    }
}

/// Writes why a text is not assembled.
pub(crate) fn refuse_text<N: Sink>(alloc: Global, notes: &mut N, fault: Unassembled) -> Status
    ensures known { (result ≡ unassembled_status fault) ⊎ (result ≡ Status.NoMemory) }
    ensures told { result ≢ Status.NoMemory → Told (unassembled_line fault)
        (stream_seen N.bytes N.faults notes.old) (stream_seen N.bytes N.faults notes.new) }
    ensures memory { result ≡ Status.NoMemory → notes.new ≡ notes.old }
{
    let status = match fault {
        Unassembled::Line(_) | Unassembled::Empty => Status::BadSource,
        Unassembled::TooLong => Status::OverLimit,
        Unassembled::OutOfMemory => return Status::NoMemory,
    };
    match unassembled_line(alloc, fault) {
        Ok(line) => refuse(notes, status, line.as_str()),
        Err(_) => Status::NoMemory,
    }
}

/// Writes why a text is none of a certificate, or of one that does not hold.
pub(crate) fn refuse_cert<N: Sink>(alloc: Global, notes: &mut N, fault: Uncertified) -> Status
    ensures known { (result ≡ uncertified_status fault) ⊎ (result ≡ Status.NoMemory) }
    ensures told { result ≢ Status.NoMemory → Told (uncertified_line fault)
        (stream_seen N.bytes N.faults notes.old) (stream_seen N.bytes N.faults notes.new) }
    ensures memory { result ≡ Status.NoMemory → notes.new ≡ notes.old }
{
    let status = match fault {
        Uncertified::NotJson | Uncertified::NotCertificate | Uncertified::Fails(_, _) => {
            Status::BadSource
        }
        Uncertified::TooLong => Status::OverLimit,
        Uncertified::OutOfMemory => return Status::NoMemory,
    };
    match uncertified_line(alloc, fault) {
        Ok(line) => refuse(notes, status, line.as_str()),
        Err(_) => Status::NoMemory,
    }
}
