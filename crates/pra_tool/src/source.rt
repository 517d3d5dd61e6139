// From the bytes of FILE to the code that is compiled: that of a module, or code as it stands.

ghost use Rattle.std.specs.Prelude.{◌≡◌, ◌≢◌, ◌≤◌, length, IfOk, IfErr, MatchOption};
ghost use Rattle.ob_read.specs.Source.{IsUnreadable};
ghost use Rattle.ob_syntax.specs.Source.{most_bytes};
ghost use Rattle.pra_base.specs.Valid.{counts_of};
ghost use Rattle.pra_compile.specs.Compiled.{codes_named};
ghost use Rattle.pra_report.specs.Report.{most_procs};
ghost use Rattle.pra_tool.specs.Sources.{HaveCodeUpTo, BreaksFirst, IsModuleOf, IsSourced};
ghost use Rattle.pra_tool.specs.Sources.{IsModuleSource, IsCodeSource, IsWrongSource};
ghost use Rattle.pra_tool.specs.Sources.{most_code, most_source, over_fault};

use cert_form::{CodeFault, CodeFile, MAX_CODE_BYTES, NamedCode, code_read};
use ob_read::{LimitFault, MAX_SOURCE, Parsed, ReadFault, read, resolve};
use ob_syntax::Checked;
use pra_base::{LimitKind, OutOfMemory};
use pra_compile::code_of_module;
use pra_words::FileKind;
use std::alloc::Global;
use vc_valid::liveness_of_valid;

/// The most procedures of a code file.
pub(crate) const MAX_PROCS: usize = 65_536;

/// What a source means, beside its code.
#[derive(Drop)]
pub enum Meaning {
    /// What this module means.
    Module(Checked),
    /// Nothing: its code stands alone.
    Code,
}

/// What FILE is, as it is compiled: the code of its procedures.
#[derive(Drop)]
pub struct Sourced {
    pub meaning: Meaning,
    pub file: CodeFile,
}

/// Why a source is no text of code that can run.
#[derive(Clone, Copy, Debug, PartialEq, Eq)]
pub enum CodeWrong {
    /// It has more than 16,777,216 bytes.
    TooLong,
    /// It is no JSON.
    NotJson,
    /// It is JSON of something else.
    NotCode,
    /// It has so many procedures, more than 65,536.
    Procedures(u64),
    /// The code of this procedure is the first that breaks a rule of valid code.
    Broken(u32),
}

/// Why a source is not compiled.
#[derive(Clone, Copy, Debug, PartialEq, Eq)]
pub enum SourceFault {
    /// It is no module, for this.
    Module(ReadFault),
    /// It is no code, for this.
    Code(CodeWrong),
    OutOfMemory,
}

impl From<OutOfMemory> for SourceFault {
    ghost use Rattle.std.specs.Prelude.{◌≡◌};
    ghost use Rattle.pra_tool.specs.declared.source.SourceFault.TheVariants as source;

    ghost from_gives = { λ _ e. e ≡ source.OutOfMemory };

    fn from(_: OutOfMemory) -> Self {
        SourceFault::OutOfMemory
    }
}

// What is told of a module that is too long: the count is one byte more than it may have.
const SOURCE_OVER: ReadFault = ReadFault::Limit(LimitFault::Count(
    LimitKind::Source,
    MAX_SOURCE as u64 + 1,
));

/// The most bytes of a source of this kind.
pub(crate) fn max_source(kind: FileKind) -> usize
    ensures { result ≡ most_source kind }
{
    match kind {
        FileKind::Module => MAX_SOURCE,
        FileKind::Code => MAX_CODE_BYTES,
    }
}

/// What is told of a source that has more.
pub(crate) fn over_fault(kind: FileKind) -> SourceFault
    ensures { result ≡ over_fault kind }
{
    match kind {
        FileKind::Module => SourceFault::Module(SOURCE_OVER),
        FileKind::Code => SourceFault::Code(CodeWrong::TooLong),
    }
}

/// The code of a source that is no longer than one of its kind may be.
///
/// # Errors
///
/// The one thing that is wrong with the source. And `OutOfMemory`.
pub fn read_source(alloc: Global, kind: FileKind, bytes: &[u8]) -> Result<Sourced, SourceFault>
    requires { length bytes.now ≤ most_source kind }
    ensures sourced { IfOk result (IsSourced kind bytes.now) }
    ensures cause { IfErr result (λ f. f ≢ SourceFault.OutOfMemory →
        IsWrongSource kind bytes.now f) }
{
    match kind {
        FileKind::Module => read_module(alloc, bytes),
        FileKind::Code => read_code(alloc, bytes),
    }
}

// The code of a module.
fn read_module(alloc: Global, bytes: &[u8]) -> Result<Sourced, SourceFault>
    requires { length bytes.now ≤ most_bytes }
    ensures sourced { IfOk result (IsModuleSource bytes.now) }
    ensures cause { IfErr result (λ f. f ≢ SourceFault.OutOfMemory →
        IsWrongSource FileKind.Module bytes.now f) }
{
    let checked = match resolve_source(alloc, bytes) {
        Ok(checked) => checked,
        Err(ReadFault::OutOfMemory) => return Err(SourceFault::OutOfMemory),
        Err(fault) => return Err(SourceFault::Module(fault)),
    };
    let file = code_of_module(alloc, &checked)?;
    Ok(Sourced {
        meaning: Meaning::Module(checked),
        file,
    })
}

// The module that a source is.
fn resolve_source(alloc: Global, bytes: &[u8]) -> Result<Checked, ReadFault>
    requires { length bytes.now ≤ most_bytes }
    ensures module { IfOk result (IsModuleOf bytes.now) }
    ensures cause { IfErr result (λ f. f ≢ ReadFault.OutOfMemory → IsUnreadable bytes.now f) }
{
    let parsed = read(alloc, bytes)?;
    let Parsed { tokens, tree } = parsed;
    let checked = resolve(alloc, bytes, &tokens, tree)?;
    Ok(checked)
}

// Code that can run, as it stands.
fn read_code(alloc: Global, bytes: &[u8]) -> Result<Sourced, SourceFault>
    requires { length bytes.now ≤ most_code }
    ensures sourced { IfOk result (IsCodeSource bytes.now) }
    ensures cause { IfErr result (λ f. f ≢ SourceFault.OutOfMemory →
        IsWrongSource FileKind.Code bytes.now f) }
{
    let file = match code_read(alloc, bytes) {
        Ok(file) => file,
        Err(CodeFault::NotJson) => return Err(SourceFault::Code(CodeWrong::NotJson)),
        Err(CodeFault::NotCode) => return Err(SourceFault::Code(CodeWrong::NotCode)),
        Err(CodeFault::OutOfMemory) => return Err(SourceFault::OutOfMemory),
    };
    let count = file.procs.len();
    if count > MAX_PROCS {
        return Err(SourceFault::Code(CodeWrong::Procedures(count as u64)));
    }
    match first_broken(alloc, file.procs.as_slice())? {
        Some(number) => Err(SourceFault::Code(CodeWrong::Broken(number))),
        None => Ok(Sourced {
            meaning: Meaning::Code,
            file,
        }),
    }
}

// The number of the first procedure whose code is not what it has to be among these.
fn first_broken(alloc: Global, procs: &[NamedCode]) -> Result<Option<u32>, OutOfMemory>
    requires { length procs.now ≤ most_procs }
    ensures { IfOk result (λ found. MatchOption found
        (HaveCodeUpTo (codes_named procs.now) (length procs.now))
        (BreaksFirst (codes_named procs.now))) }
{
    let counts = counts_of(alloc, procs)?;
    for (number, named) in procs.iter().enumerate() {
        if liveness_of_valid(alloc, &counts, number as u32, &named.code)?.is_none() {
            return Ok(Some(number as u32));
        }
    }
    Ok(None)
}

// How many arguments each procedure takes.
fn counts_of(alloc: Global, procs: &[NamedCode]) -> Result<Vec<u32>, OutOfMemory>
    ensures { IfOk result (λ counts. counts.items ≡ counts_of (codes_named procs.now)) }
{
    let mut counts = Vec::with_capacity(alloc, procs.len())?;
    for named in procs {
        counts.push(named.code.args)?;
    }
    Ok(counts)
}
