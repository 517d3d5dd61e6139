// What a call writes: made before the first write, and written in one order.

ghost use Rattle.std.specs.Prelude.{◌≡◌, ◌++◌, [], codes, length, map, IfOk};
ghost use Rattle.ia_code.specs.Image.{IsImage};
ghost use Rattle.pra_report.specs.Report.{HaveTotals};
ghost use Rattle.pra_words.specs.Written.{asked_by};
ghost use Rattle.pra_tool.specs.Status.{IsDone, status_of_machine, status_of_units};
ghost use Rattle.pra_tool.specs.Status.{status_of_code};
ghost use Rattle.pra_tool.specs.Outside.{StreamSeen, Seen, folder_seen, stream_seen, seen};
ghost use Rattle.pra_tool.specs.Outside.{NoneFell, Told};
ghost use Rattle.pra_tool.specs.Writes.{NamesDiffer, FilesWritten, Wrote, stop_status};
ghost use Rattle.pra_tool.specs.Writes.{image_file, text_alone};
ghost use Rattle.pra_tool.specs.Reports.{file_text, writes_of, codes_behind};
ghost use Rattle.pra_tool.specs.Clause.{run_of, run_writes, compile_writes};
ghost use Rattle.pra_tool.specs.Clause.{asm_writes, gen_writes, summary};
ghost use Rattle.pra_tool.specs.Applied.{apply_writes};
ghost use Rattle.pra_tool.specs.Executed.{exec_writes};
ghost use Rattle.pra_tool.specs.Interpreted.{units_of, units_writes, run_of_code, code_kept};
ghost use Rattle.pra_tool.specs.Interpreted.{code_writes, meant_writes, meant_status};
ghost use Rattle.pra_compile.specs.Compiled.{codes_of, frames_of};

use crate::compiler::Made;
use crate::source::Meaning;
use crate::status::Status;
use crate::texts::{applied_text, code_line, ending_line, units_line};
use ia_asm::image_bytes;
use ia_code::Image;
use ia_step::{Machine, RunOut};
use ob_interp::UnitOut;
use ob_interp::interpret::interpret;
use ob_syntax::Checked;
use pra_base::{OutOfMemory, VProc};
use pra_compile::Compiled;
use pra_io::{FileFault, Folder, Sink, write_all};
use pra_report::{
    ProcOut, generated_line, output_line, output_text, procedure_lines, report_text, total_line,
};
use pra_words::Request;
use std::alloc::Global;
use vc_run::{CodeOut, run_code};

/// A file that is to hold these bytes.
#[derive(Drop)]
pub(crate) struct NamedFile<'a> {
    name: &'a str,
    bytes: Vec<u8>,
}

/// All that a call writes, in this order, and the status of the call where all is written.
#[derive(Drop)]
pub(crate) struct Report<'a> {
    files: Vec<NamedFile<'a>>,
    out: Vec<u8>,
    notes: Vec<u8>,
    status: Status,
}

/// Runs the image on the numbers of the input and makes the texts.
pub(crate) fn run_report<'a>(
    alloc: Global,
    request: &Request<'a>,
    compiled: &Compiled,
    numbers: Vec<i32>,
) -> Result<Report<'a>, OutOfMemory>
    requires valid { IsImage compiled.now.image }
    requires totals { HaveTotals compiled.now.procs }
    ensures writes { IfOk result (λ r.
        writes_of r ≡ run_writes (asked_by request.now) compiled.now numbers.items) }
    ensures ended { IfOk result (λ r. r.status ≡ status_of_machine
        (run_of compiled.now.image numbers.items request.now.steps).ending) }
    ensures done { IfOk result (λ r. IsDone r.status) }
{
    let run = run_image(alloc, &compiled.image, numbers, request.steps)?;
    let status = Status::of_machine(run.ending);
    let out = output_text(alloc, run.events.as_slice())?;
    let code = code_length(&compiled.image);
    let mut notes = report_text(alloc, compiled.procs.as_slice(), code)?;
    let ending = ending_line(alloc, &run)?;
    notes.extend_from_slice(&ending)?;
    let files = with_image(alloc, request, Vec::new(alloc), &compiled.image)?;
    Ok(Report {
        files,
        out,
        notes,
        status,
    })
}

/// Makes the texts of a source that was only compiled.
pub(crate) fn compile_report<'a>(
    alloc: Global,
    request: &Request<'a>,
    compiled: &Compiled,
) -> Result<Report<'a>, OutOfMemory>
    requires valid { IsImage compiled.now.image }
    requires totals { HaveTotals compiled.now.procs }
    ensures writes { IfOk result (λ r.
        writes_of r ≡ compile_writes (asked_by request.now) compiled.now) }
    ensures done { IfOk result (λ r. r.status ≡ Status.Ended) }
{
    let code = code_length(&compiled.image);
    let out = report_text(alloc, compiled.procs.as_slice(), code)?;
    let files = with_image(alloc, request, Vec::new(alloc), &compiled.image)?;
    Ok(Report {
        files,
        out,
        notes: Vec::new(alloc),
        status: Status::Ended,
    })
}

/// Runs the source by its meaning on the numbers of the input and makes the texts.
pub(crate) fn interp_report<'a>(
    alloc: Global,
    request: &Request<'a>,
    made: &Made,
    numbers: &[i32],
) -> Result<Report<'a>, OutOfMemory>
    ensures writes { IfOk result (λ r. writes_of r ≡ meant_writes made.now.meaning
        (asked_by request.now) made.now.compiled numbers.now) }
    ensures ended { IfOk result (λ r. r.status ≡ meant_status made.now.meaning
        (asked_by request.now) made.now.compiled numbers.now) }
    ensures done { IfOk result (λ r. IsDone r.status) }
{
    match &made.meaning {
        Meaning::Module(checked) => {
            units_report(alloc, checked, &made.compiled, numbers, request.steps)
        }
        Meaning::Code => code_report(alloc, &made.compiled, numbers, request.steps),
    }
}

// Runs a module by its meaning.
fn units_report<'a>(
    alloc: Global,
    checked: &Checked,
    compiled: &Compiled,
    numbers: &[i32],
    units: u32,
) -> Result<Report<'a>, OutOfMemory>
    ensures writes { IfOk result (λ r. writes_of r ≡ units_writes compiled.now
        (units_of checked.now compiled.now numbers.now units)) }
    ensures ended { IfOk result (λ r. r.status ≡ status_of_units
        (units_of checked.now compiled.now numbers.now units).ending) }
    ensures done { IfOk result (λ r. IsDone r.status) }
{
    let run = run_units(alloc, checked, compiled, numbers, units)?;
    let status = Status::of_units(run.ending);
    let out = output_text(alloc, run.events.as_slice())?;
    let mut notes = procedure_lines(alloc, compiled.procs.as_slice())?;
    let ending = units_line(alloc, &run)?;
    notes.extend_from_slice(&ending)?;
    Ok(Report {
        files: Vec::new(alloc),
        out,
        notes,
        status,
    })
}

// Runs code by its meaning.
fn code_report<'a>(
    alloc: Global,
    compiled: &Compiled,
    numbers: &[i32],
    steps: u32,
) -> Result<Report<'a>, OutOfMemory>
    ensures writes { IfOk result (λ r. writes_of r ≡ code_writes compiled.now
        (run_of_code (code_kept compiled.now) compiled.now numbers.now steps)) }
    ensures ended { IfOk result (λ r. r.status ≡ status_of_code
        (run_of_code (code_kept compiled.now) compiled.now numbers.now steps).ending) }
    ensures done { IfOk result (λ r. IsDone r.status) }
{
    let run = run_kept(alloc, compiled, numbers, steps)?;
    let status = Status::of_code(run.ending);
    let out = output_text(alloc, run.events.as_slice())?;
    let mut notes = procedure_lines(alloc, compiled.procs.as_slice())?;
    let ending = code_line(alloc, &run)?;
    notes.extend_from_slice(&ending)?;
    Ok(Report {
        files: Vec::new(alloc),
        out,
        notes,
        status,
    })
}

/// Runs any image on the numbers of the input and makes the texts.
pub(crate) fn exec_report<'a>(
    alloc: Global,
    image: &Image,
    numbers: Vec<i32>,
    steps: u32,
) -> Result<Report<'a>, OutOfMemory>
    requires { IsImage image.now }
    ensures writes { IfOk result (λ r.
        writes_of r ≡ exec_writes (run_of image.now numbers.items steps)) }
    ensures ended { IfOk result (λ r. r.status
        ≡ status_of_machine (run_of image.now numbers.items steps).ending) }
    ensures done { IfOk result (λ r. IsDone r.status) }
{
    let run = run_image(alloc, image, numbers, steps)?;
    let status = Status::of_machine(run.ending);
    let out = output_text(alloc, run.events.as_slice())?;
    let notes = ending_line(alloc, &run)?;
    Ok(Report {
        files: Vec::new(alloc),
        out,
        notes,
        status,
    })
}

/// Runs the image of a module that was made, on no input, and makes the texts.
pub(crate) fn gen_report<'a>(
    alloc: Global,
    request: &Request<'a>,
    text: Vec<u8>,
    compiled: &Compiled,
) -> Result<Report<'a>, OutOfMemory>
    requires valid { IsImage compiled.now.image }
    requires totals { HaveTotals compiled.now.procs }
    ensures writes { IfOk result (λ r.
        writes_of r ≡ gen_writes (asked_by request.now) text.items compiled.now) }
    ensures ended { IfOk result (λ r. r.status ≡ status_of_machine
        (run_of compiled.now.image [] request.now.steps).ending) }
    ensures done { IfOk result (λ r. IsDone r.status) }
{
    let run = run_image(alloc, &compiled.image, Vec::new(alloc), request.steps)?;
    let status = Status::of_machine(run.ending);
    let out = summary(alloc, request, text.len(), compiled, &run)?;
    let mut files = Vec::new(alloc);
    files.push(NamedFile {
        name: request.file,
        bytes: text,
    })?;
    let files = with_image(alloc, request, files, &compiled.image)?;
    Ok(Report {
        files,
        out,
        notes: Vec::new(alloc),
        status,
    })
}

// What is told of a module that was made, whose text has so many bytes, and of its run.
fn summary(
    alloc: Global,
    request: &Request,
    bytes: usize,
    compiled: &Compiled,
    run: &RunOut,
) -> Result<Vec<u8>, OutOfMemory>
    requires valid { IsImage compiled.now.image }
    requires totals { HaveTotals compiled.now.procs }
    ensures { IfOk result (λ text.
        text.items ≡ summary (asked_by request.now) bytes compiled.now run.now) }
{
    let mut text = generated_line(alloc, request.seed, request.size, bytes)?;
    let code = code_length(&compiled.image);
    let total = total_line(alloc, compiled.procs.as_slice(), code)?;
    text.extend_from_slice(&total)?;
    let ending = ending_line(alloc, run)?;
    text.extend_from_slice(&ending)?;
    let written = output_text(alloc, run.events.as_slice())?;
    let output = output_line(alloc, written.len())?;
    text.extend_from_slice(&output)?;
    Ok(text)
}

// Runs a module by its meaning on an input, with the frames of what it was compiled to.
fn run_units(
    alloc: Global,
    checked: &Checked,
    compiled: &Compiled,
    numbers: &[i32],
    units: u32,
) -> Result<UnitOut, OutOfMemory>
    ensures { IfOk result (λ out. out ≡ units_of checked.now compiled.now numbers.now units) }
{
    let frames = frames_of(alloc, compiled.procs.as_slice())?;
    let out = interpret(alloc, checked, &frames, numbers, units)?;
    Ok(out)
}

// Runs the code that was kept by its meaning on an input, with the frames of what it was compiled
// to.
fn run_kept(
    alloc: Global,
    compiled: &Compiled,
    numbers: &[i32],
    steps: u32,
) -> Result<CodeOut, OutOfMemory>
    ensures { IfOk result (λ out.
        out ≡ run_of_code (code_kept compiled.now) compiled.now numbers.now steps) }
{
    let frames = frames_of(alloc, compiled.procs.as_slice())?;
    let codes = codes_of(alloc, compiled.procs.as_slice())?;
    let words = compiled.image.data_words;
    let out = run_code(alloc, &codes, words, &frames, numbers, steps)?;
    Ok(out)
}

// The codes of procedures, in their order.
fn codes_of<'p>(alloc: Global, procs: &'p [ProcOut]) -> Result<Vec<&'p VProc>, OutOfMemory>
    ensures { IfOk result (λ codes. codes_behind codes.items ≡ codes_of procs.now) }
{
    let mut codes = Vec::new(alloc);
    for proc in procs {
        codes.push(&proc.code)?;
    }
    Ok(codes)
}

// The frames of procedures, in their order.
fn frames_of(alloc: Global, procs: &[ProcOut]) -> Result<Vec<u32>, OutOfMemory>
    ensures { IfOk result (λ frames. frames.items ≡ frames_of procs.now) }
{
    let mut frames = Vec::new(alloc);
    for proc in procs {
        frames.push(proc.frame)?;
    }
    Ok(frames)
}

// How many bytes of code an image has.
fn code_length(image: &Image) -> u32
    requires { IsImage image.now }
    ensures { result ≡ length image.now.code }
{
    image.code.as_slice().len() as u32
}

/// Takes a text that is for out, where there is nothing else to write.
pub(crate) fn text_report<'a>(alloc: Global, text: Vec<u8>) -> Report<'a>
    ensures writes { writes_of result ≡ text_alone text.items }
    ensures done { result.status ≡ Status.Ended }
{
    Report {
        files: Vec::new(alloc),
        out: text,
        notes: Vec::new(alloc),
        status: Status::Ended,
    }
}

/// Makes the texts of what was compiled with the routes of a certificate.
pub(crate) fn apply_report<'a>(
    alloc: Global,
    request: &Request<'a>,
    compiled: &Compiled,
) -> Result<Report<'a>, OutOfMemory>
    requires valid { IsImage compiled.now.image }
    requires totals { HaveTotals compiled.now.procs }
    ensures writes { IfOk result (λ r.
        writes_of r ≡ apply_writes (asked_by request.now) compiled.now) }
    ensures done { IfOk result (λ r. r.status ≡ Status.Ended) }
{
    let code = code_length(&compiled.image);
    let out = applied_text(alloc, compiled.procs.as_slice(), code)?;
    let files = with_image(alloc, request, Vec::new(alloc), &compiled.image)?;
    Ok(Report {
        files,
        out,
        notes: Vec::new(alloc),
        status: Status::Ended,
    })
}

/// Makes the file of an image that was assembled.
pub(crate) fn asm_report<'a>(
    alloc: Global,
    request: &Request<'a>,
    image: &Image,
) -> Result<Report<'a>, OutOfMemory>
    requires { IsImage image.now }
    ensures writes { IfOk result (λ r.
        writes_of r ≡ asm_writes (asked_by request.now) image.now) }
    ensures done { IfOk result (λ r. r.status ≡ Status.Ended) }
{
    let files = with_image(alloc, request, Vec::new(alloc), image)?;
    Ok(Report {
        files,
        out: Vec::new(alloc),
        notes: Vec::new(alloc),
        status: Status::Ended,
    })
}

// The files, and the image's behind them.
fn with_image<'a>(
    alloc: Global,
    request: &Request<'a>,
    mut files: Vec<NamedFile<'a>>,
    image: &Image,
) -> Result<Vec<NamedFile<'a>>, OutOfMemory>
    requires { IsImage image.now }
    ensures { IfOk result (λ all. map file_text all.items
        ≡ map file_text files.entry.items ++ image_file request.now.image.now image.now) }
{
    let bytes = image_bytes(alloc, image)?;
    files.push(NamedFile {
        name: request.image,
        bytes,
    })?;
    Ok(files)
}

// Runs an image on an input.
fn run_image(
    alloc: Global,
    image: &Image,
    numbers: Vec<i32>,
    steps: u32,
) -> Result<RunOut, OutOfMemory>
    requires { IsImage image.now }
    ensures { IfOk result (λ out. out ≡ run_of image.now numbers.items steps) }
{
    let mut machine = Machine::load(alloc, image, numbers)?;
    let out = machine.run(alloc, steps)?;
    Ok(out)
}

// Writes the files in order.
fn write_files<D: Folder>(
    alloc: Global,
    files: &[NamedFile],
    folder: &mut D,
) -> Result<(), FileFault>
    requires { NamesDiffer (map file_text files.now) }
    ensures written { FilesWritten (map file_text files.now) result
        (folder_seen D.file D.read_faults D.write_faults folder.old)
        (folder_seen D.file D.read_faults D.write_faults folder.new) }
    ensures counts { NoneFell (folder_seen D.file D.read_faults D.write_faults folder.old)
        (folder_seen D.file D.read_faults D.write_faults folder.new) }
{
    for file in files {
        match folder.write_file(alloc, file.name, &file.bytes) {
            Ok(()) => {}
            Err(fault) => return Err(fault),
        }
    }
    Ok(())
}

/// Writes the files, out and notes, in this order.
pub(crate) fn write_report<D: Folder, O: Sink, N: Sink>(
    alloc: Global,
    report: &Report,
    folder: &mut D,
    out: &mut O,
    notes: &mut N,
) -> Status
    requires done { IsDone report.now.status }
    requires different { NamesDiffer (map file_text report.now.files.items) }
    ensures { (input_old input_new : StreamSeen) →
        let old : Seen = seen (folder_seen D.file D.read_faults D.write_faults folder.old)
        input_old (stream_seen O.bytes O.faults out.old) (stream_seen N.bytes N.faults notes.old) in
        let new : Seen = seen (folder_seen D.file D.read_faults D.write_faults folder.new)
        input_new (stream_seen O.bytes O.faults out.new) (stream_seen N.bytes N.faults notes.new) in
        Wrote (writes_of report.now) report.now.status old new result }
{
    match write_files(alloc, &report.files, folder) {
        Ok(()) => {}
        Err(fault) => return stop_at_file(notes, fault),
    }
    if write_all(out, &report.out).is_err() {
        return refuse(notes, Status::Fault, "fault write out\n");
    }
    if write_all(notes, &report.notes).is_err() {
        return Status::Fault;
    }
    report.status
}

// Writes that a file was not written, where that is not for want of memory.
fn stop_at_file<N: Sink>(notes: &mut N, fault: FileFault) -> Status
    ensures status { result ≡ stop_status fault }
    ensures told { result ≡ Status.Fault → Told (codes "fault write file\n")
        (stream_seen N.bytes N.faults notes.old) (stream_seen N.bytes N.faults notes.new) }
    ensures memory { result ≡ Status.NoMemory → notes.new ≡ notes.old }
{
    match fault {
        FileFault::OutOfMemory => Status::NoMemory,
        FileFault::Failed | FileFault::TooLong => {
            refuse(notes, Status::Fault, "fault write file\n")
        }
    }
}

/// Writes the lines of a refusal, whose status stands even where that fails.
pub(crate) fn refuse<N: Sink>(notes: &mut N, status: Status, lines: &str) -> Status
    ensures status { result ≡ status }
    ensures lines { Told lines.now (stream_seen N.bytes N.faults notes.old)
        (stream_seen N.bytes N.faults notes.new) }
{
    let _ = write_all(notes, lines.as_bytes());
    status
}
