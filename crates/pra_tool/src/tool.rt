// The call that does all that the program does.

ghost use Rattle.std.specs.Prelude.{◌≡◌, ◌≢◌, ◌≤◌, ◌⊎◌, false, ℕ, List, IsErr};
ghost use Rattle.ia_asm.specs.Rules.{IsFileOf};
ghost use Rattle.ia_code.specs.Image.{IsImage};
ghost use Rattle.pra_compile.specs.Compiled.{IsRunnable};
ghost use Rattle.pra_tool.specs.declared.tool.Then.TheVariants.{Run, Write, Interpret, Certify};
ghost use Rattle.pra_words.specs.Texts.{words_lines};
ghost use Rattle.pra_words.specs.Words.{Asked, asked_of, texts};
ghost use Rattle.pra_words.specs.Written.{asked_by};
ghost use Rattle.pra_gen.specs.Module.{module_text};
ghost use Rattle.pra_report.specs.Report.{HaveTotals};
ghost use Rattle.pra_tool.specs.Asking.{IsAnswerable};
ghost use Rattle.pra_tool.specs.Status.{exit_code};
ghost use Rattle.pra_tool.specs.Outside.{FolderSeen, StreamSeen, Seen, folder_seen, stream_seen};
ghost use Rattle.pra_tool.specs.Outside.{seen, seen_by, Told};
ghost use Rattle.pra_tool.specs.Modes.{Answers};
ghost use Rattle.pra_tool.specs.Ends.{Ends};
ghost use Rattle.pra_tool.specs.Sources.{IsSourced};
ghost use Rattle.pra_tool.specs.Compiling.{MadeOf};
ghost use Rattle.pra_tool.specs.Clause.{mode_of, reads_input, asks_input, Promise};
ghost use Rattle.pra_tool.specs.Clause.{compiling, takes_input, generating, listing, assembling};
ghost use Rattle.pra_tool.specs.Clause.{checking, executing, IsOver};
ghost use Rattle.pra_tool.specs.Certified.{IsHeld};
ghost use Rattle.pra_tool.specs.Listings.{IsListed, IsTextOf};

use crate::apply::apply_file;
use crate::certified::{Uncertified, certify, held_by};
use crate::compiler::{Made, compile_source};
use crate::input::read_numbers;
use crate::listing::{MAX_IMAGE, Unassembled, Unlisted, image_by, image_in, listing_of};
use crate::refusal::{
    refuse_cert, refuse_code_over, refuse_image, refuse_input, refuse_long, refuse_source,
    refuse_text,
};
use crate::report::{
    asm_report, compile_report, exec_report, gen_report, interp_report, refuse, run_report,
    text_report, write_report,
};
use crate::source::{Sourced, max_source, over_fault, read_source};
use crate::status::Status;
use crate::texts::held_text;
use cert_form::{Certificate, MAX_CERT_BYTES};
use ia_code::Image;
use ia_list::MAX_TEXT_BYTES;
use ob_read::MAX_SOURCE;
use pra_base::OutOfMemory;
use pra_compile::CompileFault;
use pra_gen::generate;
use pra_io::{FileFault, Folder, Sink, Source};
use pra_words::{FileKind, Mode, Request, WordsFault, read_words, words_lines};
use std::alloc::Global;

/// All that the program does. With MODE `run` it reads FILE, compiles it, reads the input, runs the
/// image, and writes the image file, the output, and the report with the ending line; with
/// `compile` it reads FILE, compiles it, and writes the image file and the report; with `interp` it
/// reads FILE and the input, runs FILE by its meaning with the frames of what it is compiled to,
/// and writes the output, and the lines of the procedures with the ending line. With `gen` it makes
/// a module, compiles it, runs the image on no input, and writes the module to FILE, the image
/// file, and to out four lines on both. With `list` it reads FILE, which is an image, and writes
/// its text to out; with `asm` it reads FILE, which is the text of an image, and writes the image
/// file. With `cert` it reads FILE, compiles it, and writes to out a certificate of its costs and
/// bounds; with `check` it reads FILE, which is a certificate, tests it, and writes to out its
/// costs and bounds. With `exec` it reads FILE, which is an image, and the input, runs the image,
/// and writes the output, and the ending line. With `apply` it reads FILE, and of the input a
/// certificate, compiles FILE with the routes of that, and writes the image file, and to out the
/// frames with the certificate's costs and bounds.
///
/// What is compiled is a module, or with `--from code` a code file: selected code of procedures
/// with names and a number of data words, as JSON. Its codes are compiled as they stand; and it
/// runs by its meaning in steps of selected code, which may get stuck.
///
/// `words` are those behind the program's name: MODE and FILE, and among them the options that
/// `read_words` of pra_words reads. The answer is the exit status:
///
/// | Status | When | Line in notes |
/// |---|---|---|
/// | 0 | the run ended within the steps | `run`, `interp`: the report, the ending line |
/// | 0 | the run ended within the steps | `exec`: the ending line |
/// | 0 | what is to be written was made and written | none |
/// | 1 | the run trapped | the same |
/// | 1 | the image came to a fault of the machine, as code that gets stuck may | the same |
/// | 1 | `interp`: the run of code is stuck | the same |
/// | 2 | the run is still going after the steps | the same as at 0 |
/// | 3 | FILE has a byte that begins no token | `fault bad-byte at A` |
/// | 3 | FILE has a comment that is not closed | `fault open-comment at A` |
/// | 3 | FILE has a number above the greatest | `fault number-too-large at A` |
/// | 3 | no module goes on with token T | `fault grammar token T at A` |
/// | 3 | FILE breaks rule K of the language | `fault rule K token T at A` |
/// | 3 | FILE is no image: this field breaks its rule | `fault image FIELD at A` |
/// | 3 | at A of the image's code no instruction begins | `fault code at A` |
/// | 3 | line N of FILE, from 1, is none of an image's text | `fault line N` |
/// | 3 | FILE is the first line of a text alone | `fault empty` |
/// | 3 | FILE of code or of a certificate, or the input of `apply`, is no JSON | `fault json` |
/// | 3 | FILE is JSON, and no code file | `fault code form` |
/// | 3 | the code of procedure P is the first that breaks a rule | `fault code procedure P` |
/// | 3 | it is JSON, and no certificate | `fault certificate form` |
/// | 3 | `apply`: it has another number of procedures than FILE | `fault certificate module` |
/// | 3 | `apply`: its code of P is not FILE's | `fault certificate procedure P module` |
/// | 3 | it is a certificate, and procedure P fails by R | `fault certificate procedure P R` |
/// | 4 | FILE is too long | `limit source count 1048577 maximum 1048576` |
/// | 4 | FILE of code is too long | `limit code count 16777217 maximum 16777216` |
/// | 4 | FILE nests too deep | `limit depth token T at A` |
/// | 4 | FILE has too much of one thing | `limit NAME count C maximum L` |
/// | 4 | FILE of code has too many procedures | `limit procedures count C maximum 65536` |
/// | 4 | an image has no room for FILE's code | `limit image count C maximum 41943040` |
/// | 4 | FILE is too long for an image | `limit image count 41943057 maximum 41943056` |
/// | 4 | FILE is too long for a text | `limit listing count 67108865 maximum 67108864` |
/// | 4 | the image's text is too long | `limit listing count C maximum 67108864` |
/// | 4 | a certificate is too long | `limit certificate count 16777217 maximum 16777216` |
/// | 4 | the certificate that was made is too long | `limit certificate count C maximum 16777216` |
/// | 4 | the input is too long | `limit input count 1048577 maximum 1048576` |
/// | 5 | reading FILE or the input failed | `fault read file`, `fault read input` |
/// | 5 | writing a file or out failed | `fault write file`, `fault write out` |
/// | 5 | writing notes failed | none |
/// | 6 | the words are no command line | `fault words` and the usage line |
/// | 6 | W is the first word with a wrong value | `fault value W` and the usage line |
/// | 7 | the input has at A what is no number | `fault input at A` |
/// | 8 | want of memory; nothing was written, but by `gen` maybe FILE | none |
///
/// A counts bytes and T tokens from 0; behind the last token A is the length of FILE.
pub fn run_tool<D: Folder, I: Source, O: Sink, N: Sink>(
    alloc: Global,
    words: &[String],
    folder: &mut D,
    input: &mut I,
    out: &mut O,
    notes: &mut N,
) -> u8
    ensures promise { let look = seen_by D.file D.read_faults D.write_faults I.left I.faults
        O.bytes O.faults N.bytes N.faults in
        let old = look folder.old input.old out.old notes.old in
        let new = look folder.new input.new out.new notes.new in
        (status : Status) × (result ≡ exit_code status) ×
        Promise (asked_of (texts words.now)) old new status }

    // Nothing is taken from the input where no mode is asked for that reads it; and after refused
    // words nothing was read or written but the lines.
    ensures input { asks_input (asked_of (texts words.now)) ≡ false → input.new ≡ input.old }
    ensures words { IsErr (asked_of (texts words.now)) →
        (folder.new ≡ folder.old) × (input.new ≡ input.old) × (out.new ≡ out.old) }
{
    let status = answer(alloc, words, folder, input, out, notes);
    status.exit_code()
}

// Reads the words, and does what they ask for.
fn answer<D: Folder, I: Source, O: Sink, N: Sink>(
    alloc: Global,
    words: &[String],
    folder: &mut D,
    input: &mut I,
    out: &mut O,
    notes: &mut N,
) -> Status
    ensures promise { let look = seen_by D.file D.read_faults D.write_faults I.left I.faults
        O.bytes O.faults N.bytes N.faults in
        let old = look folder.old input.old out.old notes.old in
        let new = look folder.new input.new out.new notes.new in
        Promise (asked_of (texts words.now)) old new result }
    ensures input { asks_input (asked_of (texts words.now)) ≡ false → input.new ≡ input.old }
    ensures words { IsErr (asked_of (texts words.now)) →
        (folder.new ≡ folder.old) × (input.new ≡ input.old) × (out.new ≡ out.old) }
{
    match read_words(alloc, words) {
        Err(fault) => refuse_words(alloc, notes, fault),
        Ok(request) => perform(alloc, &request, folder, input, out, notes),
    }
}

// Writes why the words are refused, where they were read.
fn refuse_words<N: Sink>(alloc: Global, notes: &mut N, fault: WordsFault) -> Status
    ensures known { ((result ≡ Status.BadWords) × (fault ≢ WordsFault.OutOfMemory)) ⊎
        (result ≡ Status.NoMemory) }
    ensures told { result ≡ Status.BadWords → Told (words_lines fault)
        (stream_seen N.bytes N.faults notes.old) (stream_seen N.bytes N.faults notes.new) }
    ensures memory { result ≡ Status.NoMemory → notes.new ≡ notes.old }
{
    if fault == WordsFault::OutOfMemory {
        return Status::NoMemory;
    }
    match words_lines(alloc, fault) {
        Ok(lines) => refuse(notes, Status::BadWords, lines.as_str()),
        Err(_) => Status::NoMemory,
    }
}

// Does with FILE what is asked for.
fn perform<D: Folder, I: Source, O: Sink, N: Sink>(
    alloc: Global,
    request: &Request,
    folder: &mut D,
    input: &mut I,
    out: &mut O,
    notes: &mut N,
) -> Status
    requires { IsAnswerable (asked_by request.now) }
    ensures answers { let look = seen_by D.file D.read_faults D.write_faults I.left I.faults
        O.bytes O.faults N.bytes N.faults in
        let old = look folder.old input.old out.old notes.old in
        let new = look folder.new input.new out.new notes.new in
        Answers (mode_of (asked_by request.now)) request.now.file.now old new result }
    ensures input { reads_input request.now.mode ≡ false → input.new ≡ input.old }
{
    match request.mode {
        Mode::Run => compile_file(alloc, request, Then::Run, folder, input, out, notes),
        Mode::Compile => compile_file(alloc, request, Then::Write, folder, input, out, notes),
        Mode::Gen => gen_file(alloc, request, folder, out, notes),
        Mode::List => list_file(alloc, request, folder, out, notes),
        Mode::Asm => asm_file(alloc, request, folder, out, notes),
        Mode::Interp => compile_file(alloc, request, Then::Interpret, folder, input, out, notes),
        Mode::Cert => compile_file(alloc, request, Then::Certify, folder, input, out, notes),
        Mode::Check => check_file(alloc, request, folder, out, notes),
        Mode::Exec => exec_file(alloc, request, folder, input, out, notes),
        Mode::Apply => apply_file(alloc, request, folder, input, out, notes),
    }
}

/// What is done with what was compiled.
#[derive(Clone, Copy, Debug, PartialEq, Eq)]
pub(crate) enum Then {
    /// It runs, and is written.
    Run,
    /// It is written.
    Write,
    /// Its frames are those of the source's own run.
    Interpret,
    /// Its costs and bounds are certified.
    Certify,
}

impl Then {
    // Whether the input is read before that.
    fn takes_input(self) -> bool
        ensures { result ≡ takes_input self }
    {
        match self {
            Then::Run | Then::Interpret => true,
            Then::Write | Then::Certify => false,
        }
    }
}

// Reads FILE and compiles it, and does with it what is asked for.
fn compile_file<D: Folder, I: Source, O: Sink, N: Sink>(
    alloc: Global,
    request: &Request,
    then: Then,
    folder: &mut D,
    input: &mut I,
    out: &mut O,
    notes: &mut N,
) -> Status
    requires { IsAnswerable (asked_by request.now) }
    ensures answers { let look = seen_by D.file D.read_faults D.write_faults I.left I.faults
        O.bytes O.faults N.bytes N.faults in
        let old = look folder.old input.old out.old notes.old in
        let new = look folder.new input.new out.new notes.new in
        Answers (compiling then (asked_by request.now)) request.now.file.now old new result }
    ensures input { takes_input then ≡ false → input.new ≡ input.old }
{
    let source = match folder.read_file(alloc, request.file, max_source(request.from)) {
        Ok(source) => source,
        Err(FileFault::OutOfMemory) => return Status::NoMemory,
        Err(FileFault::TooLong) => return refuse_source(alloc, notes, over_fault(request.from)),
        Err(FileFault::Failed) => return refuse(notes, Status::Fault, "fault read file\n"),
    };
    match read_source(alloc, request.from, &source) {
        Ok(sourced) => make(alloc, request, then, sourced, folder, input, out, notes),
        Err(fault) => refuse_source(alloc, notes, fault),
    }
}

// Compiles the code of FILE, and does with it what is asked for.
fn make<D: Folder, I: Source, O: Sink, N: Sink>(
    alloc: Global,
    request: &Request,
    then: Then,
    sourced: Sourced,
    folder: &mut D,
    input: &mut I,
    out: &mut O,
    notes: &mut N,
) -> Status
    requires runnable { IsRunnable sourced.file }
    requires rounds { request.now.rounds ≤ 1000 }
    ensures ends { (source : List ℕ) → IsSourced request.now.from source sourced →
        let look = seen_by D.file D.read_faults D.write_faults I.left I.faults
        O.bytes O.faults N.bytes N.faults in
        let old = look folder.old input.old out.old notes.old in
        let new = look folder.new input.new out.new notes.new in
        Ends (compiling then (asked_by request.now)) source old new result }
    ensures input { takes_input then ≡ false → input.new ≡ input.old }
{
    match compile_source(alloc, sourced, request) {
        Ok(made) => finish(alloc, request, then, made, folder, input, out, notes),
        Err(CompileFault::TooLong(count)) => refuse_over(alloc, then, count, input, notes),
        Err(CompileFault::OutOfMemory) => Status::NoMemory,
    }
}

// Reads the input, where it is read, and tells how many bytes of code an image has no room for.
fn refuse_over<I: Source, N: Sink>(
    alloc: Global,
    then: Then,
    count: u64,
    input: &mut I,
    notes: &mut N,
) -> Status
    ensures ends { (asked : Asked) (source : List ℕ) (folder : FolderSeen) (out : StreamSeen) →
        IsOver then asked source count →
        let old : Seen = seen folder (stream_seen I.left I.faults input.old) out
        (stream_seen N.bytes N.faults notes.old) in
        let new : Seen = seen folder (stream_seen I.left I.faults input.new) out
        (stream_seen N.bytes N.faults notes.new) in
        Ends (compiling then asked) source old new result }
    ensures input { takes_input then ≡ false → input.new ≡ input.old }
{
    if !then.takes_input() {
        return refuse_code_over(alloc, notes, count);
    }
    let _numbers = match read_numbers(alloc, input) {
        Ok(numbers) => numbers,
        Err(fault) => return refuse_input(alloc, notes, fault),
    };
    refuse_code_over(alloc, notes, count)
}

// Does with what was compiled what is asked for.
fn finish<D: Folder, I: Source, O: Sink, N: Sink>(
    alloc: Global,
    request: &Request,
    then: Then,
    made: Made,
    folder: &mut D,
    input: &mut I,
    out: &mut O,
    notes: &mut N,
) -> Status
    requires valid { IsImage made.compiled.image }
    requires totals { HaveTotals made.compiled.procs }
    ensures ends { (source : List ℕ) →
        MadeOf request.now.from (asked_by request.now) source made →
        let look = seen_by D.file D.read_faults D.write_faults I.left I.faults
        O.bytes O.faults N.bytes N.faults in
        let old = look folder.old input.old out.old notes.old in
        let new = look folder.new input.new out.new notes.new in
        Ends (compiling then (asked_by request.now)) source old new result }
    ensures input { takes_input then ≡ false → input.new ≡ input.old }
{
    match then {
        Then::Run => run_compiled(alloc, request, &made, folder, input, out, notes),
        Then::Write => write_compiled(alloc, request, &made, folder, out, notes),
        Then::Interpret => { interpret_made(alloc, request, &made, folder, input, out, notes) }
        Then::Certify => certify_made(alloc, request, made, folder, out, notes),
    }
}

// Reads the input, runs the image, and writes.
fn run_compiled<D: Folder, I: Source, O: Sink, N: Sink>(
    alloc: Global,
    request: &Request,
    made: &Made,
    folder: &mut D,
    input: &mut I,
    out: &mut O,
    notes: &mut N,
) -> Status
    requires valid { IsImage made.now.compiled.image }
    requires totals { HaveTotals made.now.compiled.procs }
    ensures { (source : List ℕ) →
        MadeOf request.now.from (asked_by request.now) source made.now →
        let look = seen_by D.file D.read_faults D.write_faults I.left I.faults
        O.bytes O.faults N.bytes N.faults in
        let old = look folder.old input.old out.old notes.old in
        let new = look folder.new input.new out.new notes.new in
        Ends (compiling Run (asked_by request.now)) source old new result }
{
    let numbers = match read_numbers(alloc, input) {
        Ok(numbers) => numbers,
        Err(fault) => return refuse_input(alloc, notes, fault),
    };
    match run_report(alloc, request, &made.compiled, numbers) {
        Ok(report) => write_report(alloc, &report, folder, out, notes),
        Err(OutOfMemory) => Status::NoMemory,
    }
}

// Reads the input, runs FILE by its meaning, and writes.
fn interpret_made<D: Folder, I: Source, O: Sink, N: Sink>(
    alloc: Global,
    request: &Request,
    made: &Made,
    folder: &mut D,
    input: &mut I,
    out: &mut O,
    notes: &mut N,
) -> Status
    ensures { (source : List ℕ) →
        MadeOf request.now.from (asked_by request.now) source made.now →
        let look = seen_by D.file D.read_faults D.write_faults I.left I.faults
        O.bytes O.faults N.bytes N.faults in
        let old = look folder.old input.old out.old notes.old in
        let new = look folder.new input.new out.new notes.new in
        Ends (compiling Interpret (asked_by request.now)) source old new result }
{
    let numbers = match read_numbers(alloc, input) {
        Ok(numbers) => numbers,
        Err(fault) => return refuse_input(alloc, notes, fault),
    };
    match interp_report(alloc, request, made, &numbers) {
        Ok(report) => write_report(alloc, &report, folder, out, notes),
        Err(OutOfMemory) => Status::NoMemory,
    }
}

// Writes what was compiled.
fn write_compiled<D: Folder, O: Sink, N: Sink>(
    alloc: Global,
    request: &Request,
    made: &Made,
    folder: &mut D,
    out: &mut O,
    notes: &mut N,
) -> Status
    requires valid { IsImage made.now.compiled.image }
    requires totals { HaveTotals made.now.compiled.procs }
    ensures { (source : List ℕ) (input : StreamSeen) →
        MadeOf request.now.from (asked_by request.now) source made.now →
        let old : Seen = seen (folder_seen D.file D.read_faults D.write_faults folder.old) input
        (stream_seen O.bytes O.faults out.old) (stream_seen N.bytes N.faults notes.old) in
        let new : Seen = seen (folder_seen D.file D.read_faults D.write_faults folder.new) input
        (stream_seen O.bytes O.faults out.new) (stream_seen N.bytes N.faults notes.new) in
        Ends (compiling Write (asked_by request.now)) source old new result }
{
    match compile_report(alloc, request, &made.compiled) {
        Ok(report) => write_report(alloc, &report, folder, out, notes),
        Err(OutOfMemory) => Status::NoMemory,
    }
}

// Certifies what was compiled, and writes the certificate.
fn certify_made<D: Folder, O: Sink, N: Sink>(
    alloc: Global,
    request: &Request,
    made: Made,
    folder: &mut D,
    out: &mut O,
    notes: &mut N,
) -> Status
    ensures { (source : List ℕ) (input : StreamSeen) →
        MadeOf request.now.from (asked_by request.now) source made →
        let old : Seen = seen (folder_seen D.file D.read_faults D.write_faults folder.old) input
        (stream_seen O.bytes O.faults out.old) (stream_seen N.bytes N.faults notes.old) in
        let new : Seen = seen (folder_seen D.file D.read_faults D.write_faults folder.new) input
        (stream_seen O.bytes O.faults out.new) (stream_seen N.bytes N.faults notes.new) in
        Ends (compiling Certify (asked_by request.now)) source old new result }
{
    let text = match certify(alloc, request.cost, made) {
        Ok(text) => text,
        Err(OutOfMemory) => return Status::NoMemory,
    };
    if text.len() > MAX_CERT_BYTES {
        return refuse_long(alloc, notes, &text);
    }
    let report = text_report(alloc, text);
    write_report(alloc, &report, folder, out, notes)
}

// Makes a module, compiles it, runs it on no input, and writes.
fn gen_file<D: Folder, O: Sink, N: Sink>(
    alloc: Global,
    request: &Request,
    folder: &mut D,
    out: &mut O,
    notes: &mut N,
) -> Status
    requires within { IsAnswerable (asked_by request.now) }
    requires apart { request.now.image.now ≢ request.now.file.now }
    ensures { (input : StreamSeen) →
        let old : Seen = seen (folder_seen D.file D.read_faults D.write_faults folder.old) input
        (stream_seen O.bytes O.faults out.old) (stream_seen N.bytes N.faults notes.old) in
        let new : Seen = seen (folder_seen D.file D.read_faults D.write_faults folder.new) input
        (stream_seen O.bytes O.faults out.new) (stream_seen N.bytes N.faults notes.new) in
        Answers (generating (asked_by request.now)) request.now.file.now old new result }
{
    let text = match generate(alloc, request.seed, request.size) {
        Ok(text) => text,
        Err(OutOfMemory) => return Status::NoMemory,
    };
    if text.len() > MAX_SOURCE {
        return refuse_source(alloc, notes, over_fault(FileKind::Module));
    }
    match read_source(alloc, FileKind::Module, &text) {
        Ok(sourced) => write_generated(alloc, request, text, sourced, folder, out, notes),
        Err(fault) => refuse_source(alloc, notes, fault),
    }
}

// Compiles a module that was made, runs its image, and writes module and image. An image has room
// for the code of any module.
fn write_generated<D: Folder, O: Sink, N: Sink>(
    alloc: Global,
    request: &Request,
    text: Vec<u8>,
    sourced: Sourced,
    folder: &mut D,
    out: &mut O,
    notes: &mut N,
) -> Status
    requires rounds { request.now.rounds ≤ 1000 }
    requires apart { request.now.image.now ≢ request.now.file.now }
    requires text { text.items ≡ module_text request.now.seed request.now.size }
    requires sourced { IsSourced FileKind.Module text.items sourced }
    ensures { (input : StreamSeen) →
        let old : Seen = seen (folder_seen D.file D.read_faults D.write_faults folder.old) input
        (stream_seen O.bytes O.faults out.old) (stream_seen N.bytes N.faults notes.old) in
        let new : Seen = seen (folder_seen D.file D.read_faults D.write_faults folder.new) input
        (stream_seen O.bytes O.faults out.new) (stream_seen N.bytes N.faults notes.new) in
        Ends (generating (asked_by request.now)) text.items old new result }
{
    let made = match compile_source(alloc, sourced, request) {
        Ok(made) => made,
        Err(CompileFault::TooLong(_)) => unreachable!(),
        Err(CompileFault::OutOfMemory) => return Status::NoMemory,
    };
    match gen_report(alloc, request, text, &made.compiled) {
        Ok(report) => write_report(alloc, &report, folder, out, notes),
        Err(OutOfMemory) => Status::NoMemory,
    }
}

// Reads FILE, which is an image, and lists it.
fn list_file<D: Folder, O: Sink, N: Sink>(
    alloc: Global,
    request: &Request,
    folder: &mut D,
    out: &mut O,
    notes: &mut N,
) -> Status
    ensures { (input : StreamSeen) →
        let old : Seen = seen (folder_seen D.file D.read_faults D.write_faults folder.old) input
        (stream_seen O.bytes O.faults out.old) (stream_seen N.bytes N.faults notes.old) in
        let new : Seen = seen (folder_seen D.file D.read_faults D.write_faults folder.new) input
        (stream_seen O.bytes O.faults out.new) (stream_seen N.bytes N.faults notes.new) in
        Answers listing request.now.file.now old new result }
{
    let file = match folder.read_file(alloc, request.file, MAX_IMAGE) {
        Ok(file) => file,
        Err(FileFault::OutOfMemory) => return Status::NoMemory,
        Err(FileFault::TooLong) => return refuse_image(alloc, notes, Unlisted::TooLong),
        Err(FileFault::Failed) => return refuse(notes, Status::Fault, "fault read file\n"),
    };
    match listing_of(alloc, &file) {
        Ok(text) => {
            let report = text_report(alloc, text);
            write_report(alloc, &report, folder, out, notes)
        }
        Err(fault) => refuse_image(alloc, notes, fault),
    }
}

// Reads FILE, which is an image, and runs it.
fn exec_file<D: Folder, I: Source, O: Sink, N: Sink>(
    alloc: Global,
    request: &Request,
    folder: &mut D,
    input: &mut I,
    out: &mut O,
    notes: &mut N,
) -> Status
    ensures { let look = seen_by D.file D.read_faults D.write_faults I.left I.faults
        O.bytes O.faults N.bytes N.faults in
        let old = look folder.old input.old out.old notes.old in
        let new = look folder.new input.new out.new notes.new in
        Answers (executing (asked_by request.now)) request.now.file.now old new result }
{
    let file = match folder.read_file(alloc, request.file, MAX_IMAGE) {
        Ok(file) => file,
        Err(FileFault::OutOfMemory) => return Status::NoMemory,
        Err(FileFault::TooLong) => return refuse_image(alloc, notes, Unlisted::TooLong),
        Err(FileFault::Failed) => return refuse(notes, Status::Fault, "fault read file\n"),
    };
    match image_in(alloc, &file) {
        Ok(image) => exec_image(alloc, request, &image, folder, input, out, notes),
        Err(fault) => refuse_image(alloc, notes, fault),
    }
}

// Reads the input, runs the image, and writes.
fn exec_image<D: Folder, I: Source, O: Sink, N: Sink>(
    alloc: Global,
    request: &Request,
    image: &Image,
    folder: &mut D,
    input: &mut I,
    out: &mut O,
    notes: &mut N,
) -> Status
    requires { IsImage image.now }
    ensures { (file : List ℕ) → IsFileOf file image.now →
        let look = seen_by D.file D.read_faults D.write_faults I.left I.faults
        O.bytes O.faults N.bytes N.faults in
        let old = look folder.old input.old out.old notes.old in
        let new = look folder.new input.new out.new notes.new in
        Ends (executing (asked_by request.now)) file old new result }
{
    let numbers = match read_numbers(alloc, input) {
        Ok(numbers) => numbers,
        Err(fault) => return refuse_input(alloc, notes, fault),
    };
    match exec_report(alloc, image, numbers, request.steps) {
        Ok(report) => write_report(alloc, &report, folder, out, notes),
        Err(OutOfMemory) => Status::NoMemory,
    }
}

// Reads FILE, which is the text of an image, and assembles it.
fn asm_file<D: Folder, O: Sink, N: Sink>(
    alloc: Global,
    request: &Request,
    folder: &mut D,
    out: &mut O,
    notes: &mut N,
) -> Status
    ensures { (input : StreamSeen) →
        let old : Seen = seen (folder_seen D.file D.read_faults D.write_faults folder.old) input
        (stream_seen O.bytes O.faults out.old) (stream_seen N.bytes N.faults notes.old) in
        let new : Seen = seen (folder_seen D.file D.read_faults D.write_faults folder.new) input
        (stream_seen O.bytes O.faults out.new) (stream_seen N.bytes N.faults notes.new) in
        Answers (assembling (asked_by request.now)) request.now.file.now old new result }
{
    let text = match folder.read_file(alloc, request.file, MAX_TEXT_BYTES) {
        Ok(text) => text,
        Err(FileFault::OutOfMemory) => return Status::NoMemory,
        Err(FileFault::TooLong) => return refuse_text(alloc, notes, Unassembled::TooLong),
        Err(FileFault::Failed) => return refuse(notes, Status::Fault, "fault read file\n"),
    };
    match image_by(alloc, &text) {
        Ok(image) => write_image(alloc, request, &image, folder, out, notes),
        Err(fault) => refuse_text(alloc, notes, fault),
    }
}

// Writes the image that was assembled.
fn write_image<D: Folder, O: Sink, N: Sink>(
    alloc: Global,
    request: &Request,
    image: &Image,
    folder: &mut D,
    out: &mut O,
    notes: &mut N,
) -> Status
    requires { IsImage image.now }
    ensures { (text : List ℕ) (input : StreamSeen) → IsTextOf text image.now →
        let old : Seen = seen (folder_seen D.file D.read_faults D.write_faults folder.old) input
        (stream_seen O.bytes O.faults out.old) (stream_seen N.bytes N.faults notes.old) in
        let new : Seen = seen (folder_seen D.file D.read_faults D.write_faults folder.new) input
        (stream_seen O.bytes O.faults out.new) (stream_seen N.bytes N.faults notes.new) in
        Ends (assembling (asked_by request.now)) text old new result }
{
    match asm_report(alloc, request, image) {
        Ok(report) => write_report(alloc, &report, folder, out, notes),
        Err(OutOfMemory) => Status::NoMemory,
    }
}

// Reads FILE, which is a certificate, and tests it.
fn check_file<D: Folder, O: Sink, N: Sink>(
    alloc: Global,
    request: &Request,
    folder: &mut D,
    out: &mut O,
    notes: &mut N,
) -> Status
    ensures { (input : StreamSeen) →
        let old : Seen = seen (folder_seen D.file D.read_faults D.write_faults folder.old) input
        (stream_seen O.bytes O.faults out.old) (stream_seen N.bytes N.faults notes.old) in
        let new : Seen = seen (folder_seen D.file D.read_faults D.write_faults folder.new) input
        (stream_seen O.bytes O.faults out.new) (stream_seen N.bytes N.faults notes.new) in
        Answers checking request.now.file.now old new result }
{
    let file = match folder.read_file(alloc, request.file, MAX_CERT_BYTES) {
        Ok(file) => file,
        Err(FileFault::OutOfMemory) => return Status::NoMemory,
        Err(FileFault::TooLong) => return refuse_cert(alloc, notes, Uncertified::TooLong),
        Err(FileFault::Failed) => return refuse(notes, Status::Fault, "fault read file\n"),
    };
    match held_by(alloc, &file) {
        Ok(certificate) => tell_held(alloc, &certificate, folder, out, notes),
        Err(fault) => refuse_cert(alloc, notes, fault),
    }
}

// Writes the costs and bounds of a certificate that holds.
fn tell_held<D: Folder, O: Sink, N: Sink>(
    alloc: Global,
    certificate: &Certificate,
    folder: &mut D,
    out: &mut O,
    notes: &mut N,
) -> Status
    ensures { (file : List ℕ) (input : StreamSeen) → IsHeld file certificate.now →
        let old : Seen = seen (folder_seen D.file D.read_faults D.write_faults folder.old) input
        (stream_seen O.bytes O.faults out.old) (stream_seen N.bytes N.faults notes.old) in
        let new : Seen = seen (folder_seen D.file D.read_faults D.write_faults folder.new) input
        (stream_seen O.bytes O.faults out.new) (stream_seen N.bytes N.faults notes.new) in
        Ends checking file old new result }
{
    match held_text(alloc, certificate) {
        Ok(text) => {
            let report = text_report(alloc, text);
            write_report(alloc, &report, folder, out, notes)
        }
        Err(OutOfMemory) => Status::NoMemory,
    }
}
