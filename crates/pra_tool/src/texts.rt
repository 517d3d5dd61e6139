// The texts that the program writes.

ghost use Rattle.std.specs.Prelude.{◌≡◌, ◌++◌, codes, IfOk, string_bytes};
ghost use Rattle.std.specs.Fmt.{decimal};
ghost use Rattle.pra_tool.specs.Texts.{ending_words, ending_line, unit_ending_words, units_line};
ghost use Rattle.pra_tool.specs.Texts.{stuck_name, stuck_words, code_ending_words, code_line};
ghost use Rattle.pra_tool.specs.Texts.{lexical_line, no_code_line, source_line, image_over_line};
ghost use Rattle.pra_tool.specs.Texts.{place_text, over_line, count_line, fault_line, input_line};
ghost use Rattle.pra_tool.specs.Texts.{field_name, unlisted_line, unassembled_line};
ghost use Rattle.pra_tool.specs.Texts.{held_line, held_lines, held_text, reason_name};
ghost use Rattle.pra_tool.specs.Texts.{uncertified_line, misapplied_line, routes_line};
ghost use Rattle.pra_tool.specs.Texts.{routes_lines, applied_lines, applied_text};
ghost use Rattle.pra_report.specs.Report.{HaveTotals};
ghost use Rattle.pra_report.specs.Texts.{procedure_line};

use crate::applied::Misapplied;
use crate::certified::Uncertified;
use crate::input::WrongInput;
use crate::listing::{MAX_IMAGE, Unassembled, Unlisted};
use crate::source::{CodeWrong, MAX_PROCS, SourceFault};
use cert_check::Reason;
use cert_form::{Cert, Certificate, MAX_CERT_BYTES, MAX_CODE_BYTES};
use ia_asm::Field;
use ia_list::MAX_TEXT_BYTES;
use ia_step::{Ending, FaultKind, RunOut};
use net_form::Line;
use ob_interp::{UnitEnding, UnitOut};
use ob_lex::LexFault;
use ob_read::{LimitFault, ReadFault};
use pra_base::{LimitKind, OutOfMemory, TrapKind};
use pra_report::{ProcOut, total_line};
use std::alloc::{AllocError, Global};
use std::fmt::Write;
use vc_run::{Cause, CodeEnding, CodeOut, StuckKind};

// What is told of an input that is too long: one byte more than it may have.
const INPUT_OVER: u64 = 1_048_577;

/// The line that tells how a run ended, how many steps it made and how many input words it took.
///
/// # Errors
///
/// Where there is no memory for the line.
pub fn ending_line(alloc: Global, run: &RunOut) -> Result<Vec<u8>, OutOfMemory>
    ensures { IfOk result (λ text. text.items ≡ ending_line run.now) }
{
    let words = ending_words(run.ending);
    let line = format!(in alloc; "{words} steps {} reads {}\n", run.steps, run.reads)?;
    Ok(line.into_bytes())
}

fn ending_words(ending: Ending) -> &'static str
    ensures { result.now ≡ ending_words ending }
{
    match ending {
        Ending::Going => "going",
        Ending::Ended => "ended",
        Ending::Trap(TrapKind::Index) => "trap Index",
        Ending::Trap(TrapKind::Divide) => "trap Divide",
        Ending::Trap(TrapKind::Input) => "trap Input",
        Ending::Trap(TrapKind::Stack) => "trap Stack",
        Ending::Fault(FaultKind::Fetch) => "machine fetch",
        Ending::Fault(FaultKind::Decode) => "machine decode",
        Ending::Fault(FaultKind::Access) => "machine access",
        Ending::Fault(FaultKind::Flag) => "machine flag",
        Ending::Fault(FaultKind::Divide) => "machine divide",
        Ending::Fault(FaultKind::Service) => "machine service",
    }
}

/// The line that tells how a run by the meaning ended, how many units it began and how many input
/// words it took.
///
/// # Errors
///
/// Where there is no memory for the line.
pub fn units_line(alloc: Global, run: &UnitOut) -> Result<Vec<u8>, OutOfMemory>
    ensures { IfOk result (λ text. text.items ≡ units_line run.now) }
{
    let words = unit_ending_words(run.ending);
    let line = format!(in alloc; "{words} units {} reads {}\n", run.units, run.reads)?;
    Ok(line.into_bytes())
}

fn unit_ending_words(ending: UnitEnding) -> &'static str
    ensures { result.now ≡ unit_ending_words ending }
{
    match ending {
        UnitEnding::Going => "going",
        UnitEnding::Ended => "ended",
        UnitEnding::Trap(TrapKind::Index) => "trap Index",
        UnitEnding::Trap(TrapKind::Divide) => "trap Divide",
        UnitEnding::Trap(TrapKind::Input) => "trap Input",
        UnitEnding::Trap(TrapKind::Stack) => "trap Stack",
    }
}

/// The line that tells how a run of code by its meaning ended, how many steps it made and how many
/// input words it took; and of a run that is stuck why, and where.
///
/// # Errors
///
/// Where there is no memory for the line.
pub fn code_line(alloc: Global, run: &CodeOut) -> Result<Vec<u8>, OutOfMemory>
    ensures { IfOk result (λ text. text.items ≡ code_line run.now) }
{
    let mut line = code_ending_words(alloc, run.ending)?;
    write!(line, " steps {} reads {}\n", run.steps, run.reads)?;
    Ok(line.into_bytes())
}

fn code_ending_words(alloc: Global, ending: CodeEnding) -> Result<String, AllocError>
    ensures { IfOk result (λ words. string_bytes words ≡ code_ending_words ending) }
{
    match ending {
        CodeEnding::Going => String::from_str(alloc, "going"),
        CodeEnding::Ended => String::from_str(alloc, "ended"),
        CodeEnding::Trap(TrapKind::Index) => String::from_str(alloc, "trap Index"),
        CodeEnding::Trap(TrapKind::Divide) => String::from_str(alloc, "trap Divide"),
        CodeEnding::Trap(TrapKind::Input) => String::from_str(alloc, "trap Input"),
        CodeEnding::Trap(TrapKind::Stack) => String::from_str(alloc, "trap Stack"),
        CodeEnding::Stuck(cause) => stuck_words(alloc, cause),
    }
}

fn stuck_words(alloc: Global, cause: Cause) -> Result<String, AllocError>
    ensures { IfOk result (λ words. string_bytes words ≡ stuck_words cause) }
{
    let name = stuck_name(cause.kind);
    let mut words = format!(in alloc; "stuck {name} procedure {}", cause.proc.0)?;
    write!(words, " block {}", cause.block.0)?;
    write!(words, " instruction {}", cause.instruction)?;
    Ok(words)
}

fn stuck_name(kind: StuckKind) -> &'static str
    ensures { result.now ≡ stuck_name kind }
{
    match kind {
        StuckKind::Address => "address",
        StuckKind::Nothing => "nothing",
        StuckKind::Access => "access",
        StuckKind::Divide => "divide",
    }
}

/// The line that tells what is wrong with an input.
///
/// # Errors
///
/// Where there is no memory for the line.
pub fn input_line(alloc: Global, wrong: WrongInput) -> Result<String, AllocError>
    ensures { IfOk result (λ line. string_bytes line ≡ input_line wrong) }
{
    match wrong {
        WrongInput::TooLong => count_line(alloc, LimitKind::Input, INPUT_OVER),
        WrongInput::NoWord(at) => format!(in alloc; "fault input at {at}\n"),
    }
}

/// The line that tells what is wrong with a source.
///
/// # Errors
///
/// Where there is no memory for the line.
pub fn source_line(alloc: Global, fault: SourceFault) -> Result<String, AllocError>
    ensures { IfOk result (λ line. string_bytes line ≡ source_line fault) }
{
    match fault {
        SourceFault::Module(fault) => fault_line(alloc, fault),
        SourceFault::Code(wrong) => no_code_line(alloc, wrong),
        SourceFault::OutOfMemory => Ok(String::new(alloc)),
    }
}

fn no_code_line(alloc: Global, wrong: CodeWrong) -> Result<String, AllocError>
    ensures { IfOk result (λ line. string_bytes line ≡ no_code_line wrong) }
{
    match wrong {
        CodeWrong::TooLong => {
            let most = MAX_CODE_BYTES as u64;
            over_line(alloc, "code", most + 1, most)
        }
        CodeWrong::NotJson => String::from_str(alloc, "fault json\n"),
        CodeWrong::NotCode => String::from_str(alloc, "fault code form\n"),
        CodeWrong::Procedures(count) => over_line(alloc, "procedures", count, MAX_PROCS as u64),
        CodeWrong::Broken(procedure) => format!(in alloc; "fault code procedure {procedure}\n"),
    }
}

/// The line that tells how many bytes of code an image has no room for.
///
/// # Errors
///
/// Where there is no memory for the line.
pub fn image_over_line(alloc: Global, count: u64) -> Result<String, AllocError>
    ensures { IfOk result (λ line. string_bytes line ≡ image_over_line count) }
{
    over_line(alloc, "image", count, ia_code::image::MAX_CODE_BYTES as u64)
}

fn fault_line(alloc: Global, fault: ReadFault) -> Result<String, AllocError>
    ensures { IfOk result (λ line. string_bytes line ≡ fault_line fault) }
{
    match fault {
        ReadFault::Source(ob_read::SourceFault::Lex(fault)) => lexical_line(alloc, fault),
        ReadFault::Source(ob_read::SourceFault::Grammar(token, at)) => {
            place_line(alloc, "fault grammar token ", token, at)
        }
        ReadFault::Source(ob_read::SourceFault::Rule(rule, token, at)) => {
            rule_line(alloc, rule, token, at)
        }
        ReadFault::Limit(LimitFault::Count(kind, count)) => count_line(alloc, kind, count),
        ReadFault::Limit(LimitFault::Depth(token, at)) => {
            place_line(alloc, "limit depth token ", token, at)
        }
        ReadFault::OutOfMemory => Ok(String::new(alloc)),
    }
}

fn lexical_line(alloc: Global, fault: LexFault) -> Result<String, AllocError>
    ensures { IfOk result (λ line. string_bytes line ≡ lexical_line fault) }
{
    match fault {
        LexFault::BadByte(at) => format!(in alloc; "fault bad-byte at {at}\n"),
        LexFault::OpenComment(at) => format!(in alloc; "fault open-comment at {at}\n"),
        LexFault::NumberTooLarge(at) => format!(in alloc; "fault number-too-large at {at}\n"),
        LexFault::TokensOver(_) | LexFault::OutOfMemory => Ok(String::new(alloc)),
    }
}

fn count_line(alloc: Global, kind: LimitKind, count: u64) -> Result<String, AllocError>
    ensures { IfOk result (λ line. string_bytes line ≡ count_line kind count) }
{
    over_line(alloc, kind.name(), count, kind.maximum() as u64)
}

pub(crate) fn over_line(
    alloc: Global,
    name: &str,
    count: u64,
    maximum: u64,
) -> Result<String, AllocError>
    ensures { IfOk result (λ line. string_bytes line ≡ over_line name.now count maximum) }
{
    let line = format!(in alloc; "limit {name} count {count} maximum {maximum}\n")?;
    Ok(line)
}

fn place_line(alloc: Global, words: &str, token: u32, at: u32) -> Result<String, AllocError>
    ensures { IfOk result (λ line. string_bytes line ≡ words.now ++ place_text token at) }
{
    let line = format!(in alloc; "{words}{token} at {at}\n")?;
    Ok(line)
}

fn rule_line(alloc: Global, rule: u8, token: u32, at: u32) -> Result<String, AllocError>
    ensures { IfOk result (λ line. string_bytes line
        ≡ codes "fault rule " ++ decimal rule ++ codes " token " ++ place_text token at) }
{
    let words = format!(in alloc; "fault rule {rule} token ")?;
    place_line(alloc, words.as_str(), token, at)
}

/// The line that tells why an image's file is not listed.
///
/// # Errors
///
/// Where there is no memory for the line.
pub fn unlisted_line(alloc: Global, fault: Unlisted) -> Result<String, AllocError>
    ensures { IfOk result (λ line. string_bytes line ≡ unlisted_line fault) }
{
    match fault {
        Unlisted::TooLong => { over_line(alloc, "image", MAX_IMAGE as u64 + 1, MAX_IMAGE as u64) }
        Unlisted::Broken(field, at) => field_line(alloc, field, at),
        Unlisted::Code(at) => format!(in alloc; "fault code at {at}\n"),
        Unlisted::LongText(count) => { over_line(alloc, "listing", count, MAX_TEXT_BYTES as u64) }
        Unlisted::OutOfMemory => Ok(String::new(alloc)),
    }
}

fn field_line(alloc: Global, field: Field, at: u32) -> Result<String, AllocError>
    ensures { IfOk result (λ line. string_bytes line
        ≡ codes "fault image " ++ field_name field ++ codes " at " ++ decimal at ++ codes "\n") }
{
    let name = field_name(field);
    let line = format!(in alloc; "fault image {name} at {at}\n")?;
    Ok(line)
}

fn field_name(field: Field) -> &'static str
    ensures { result.now ≡ field_name field }
{
    match field {
        Field::Length => "Length",
        Field::Magic => "Magic",
        Field::Version => "Version",
        Field::CodeLength => "CodeLength",
        Field::DataWords => "DataWords",
    }
}

/// The line that tells why a text is not assembled.
///
/// # Errors
///
/// Where there is no memory for the line.
pub fn unassembled_line(alloc: Global, fault: Unassembled) -> Result<String, AllocError>
    ensures { IfOk result (λ line. string_bytes line ≡ unassembled_line fault) }
{
    match fault {
        Unassembled::TooLong => {
            over_line(
                alloc,
                "listing",
                MAX_TEXT_BYTES as u64 + 1,
                MAX_TEXT_BYTES as u64,
            )
        }
        Unassembled::Line(number) => format!(in alloc; "fault line {number}\n"),
        Unassembled::Empty => String::from_str(alloc, "fault empty\n"),
        Unassembled::OutOfMemory => Ok(String::new(alloc)),
    }
}

/// What is told of a certificate that holds: for each procedure its cost and its bound.
///
/// # Errors
///
/// Where there is no memory for the text.
pub fn held_text(alloc: Global, certificate: &Certificate) -> Result<Vec<u8>, OutOfMemory>
    ensures { IfOk result (λ text. text.items ≡ held_text certificate.now) }
{
    let mut text = held_lines(alloc, certificate.procs.as_slice())?;
    text.extend_from_slice(b"certificate holds\n")?;
    Ok(text)
}

fn held_lines(alloc: Global, certs: &[Cert]) -> Result<Vec<u8>, OutOfMemory>
    ensures { IfOk result (λ text. text.items ≡ held_lines 0 certs.now) }
{
    let mut text = Vec::new(alloc);
    for (number, cert) in certs.iter().enumerate() {
        let line = held_line(alloc, number, cert)?;
        text.extend_from_slice(&line)?;
    }
    Ok(text)
}

fn held_line(alloc: Global, number: usize, cert: &Cert) -> Result<Vec<u8>, OutOfMemory>
    ensures { IfOk result (λ line. line.items ≡ held_line number cert.now) }
{
    let mut line = format!(in alloc; "procedure {number} cost {}", cert.total)?;
    write!(line, " bound {}\n", cert.bound)?;
    Ok(line.into_bytes())
}

/// The line that tells why a file is no certificate that holds.
///
/// # Errors
///
/// Where there is no memory for the line.
pub fn uncertified_line(alloc: Global, fault: Uncertified) -> Result<String, AllocError>
    ensures { IfOk result (λ line. string_bytes line ≡ uncertified_line fault) }
{
    match fault {
        Uncertified::TooLong => {
            let most = MAX_CERT_BYTES as u64;
            over_line(alloc, "certificate", most + 1, most)
        }
        Uncertified::NotJson => String::from_str(alloc, "fault json\n"),
        Uncertified::NotCertificate => String::from_str(alloc, "fault certificate form\n"),
        Uncertified::Fails(procedure, reason) => reason_line(alloc, procedure, reason),
        Uncertified::OutOfMemory => Ok(String::new(alloc)),
    }
}

fn reason_line(alloc: Global, procedure: u32, reason: Reason) -> Result<String, AllocError>
    ensures { IfOk result (λ line. string_bytes line ≡ codes "fault certificate procedure "
        ++ decimal procedure ++ codes " " ++ reason_name reason ++ codes "\n") }
{
    failing_line(alloc, procedure, reason_name(reason))
}

fn failing_line(alloc: Global, procedure: u32, name: &str) -> Result<String, AllocError>
    ensures { IfOk result (λ line. string_bytes line ≡ codes "fault certificate procedure "
        ++ decimal procedure ++ codes " " ++ name.now ++ codes "\n") }
{
    let mut line = format!(in alloc; "fault certificate procedure {procedure}")?;
    write!(line, " {name}\n")?;
    Ok(line)
}

fn reason_name(reason: Reason) -> &'static str
    ensures { result.now ≡ reason_name reason }
{
    match reason {
        Reason::Code => "code",
        Reason::Routes => "routes",
        Reason::Prices => "prices",
        Reason::Total => "total",
        Reason::Bound => "bound",
    }
}

/// The line that tells why a certificate is not applied to code.
///
/// # Errors
///
/// Where there is no memory for the line.
pub fn misapplied_line(alloc: Global, fault: Misapplied) -> Result<String, AllocError>
    ensures { IfOk result (λ line. string_bytes line ≡ misapplied_line fault) }
{
    match fault {
        Misapplied::Count => String::from_str(alloc, "fault certificate module\n"),
        Misapplied::Module(procedure) => failing_line(alloc, procedure, "module"),
        Misapplied::Fails(procedure, reason) => reason_line(alloc, procedure, reason),
        Misapplied::TooLong(count) => image_over_line(alloc, count),
        Misapplied::OutOfMemory => Ok(String::new(alloc)),
    }
}

/// What is told of procedures that carry the routes of a certificate, with so many bytes of code:
/// for each its number, name and frame, and what its routes cost, and behind all of them the sums.
///
/// # Errors
///
/// Where there is no memory for the text.
pub fn applied_text(alloc: Global, procs: &[ProcOut], code: u32) -> Result<Vec<u8>, OutOfMemory>
    requires { HaveTotals procs.now }
    ensures { IfOk result (λ text. text.items ≡ applied_text procs.now code) }
{
    let mut text = applied_lines(alloc, procs)?;
    let total = total_line(alloc, procs, code)?;
    text.extend_from_slice(&total)?;
    Ok(text)
}

fn applied_lines(alloc: Global, procs: &[ProcOut]) -> Result<Vec<u8>, OutOfMemory>
    ensures { IfOk result (λ text. text.items ≡ applied_lines 0 procs.now) }
{
    let mut text = Vec::new(alloc);
    for (number, proc) in procs.iter().enumerate() {
        let line = procedure_line(alloc, number, proc.name.as_slice(), proc.frame)?;
        text.extend_from_slice(&line)?;
        let routes = routes_lines(alloc, proc.lines.as_slice())?;
        text.extend_from_slice(&routes)?;
    }
    Ok(text)
}

// The line on a procedure: its number, its name, and how many bytes its frame has.
fn procedure_line(
    alloc: Global,
    number: usize,
    name: &[u8],
    frame: u32,
) -> Result<Vec<u8>, OutOfMemory>
    ensures { IfOk result (λ line. line.items ≡ procedure_line number name.now frame) }
{
    let mut line = format!(in alloc; "procedure {number} ")?.into_bytes();
    line.extend_from_slice(name)?;
    let end = format!(in alloc; " frame {frame}\n")?;
    line.extend_from_slice(end.as_bytes())?;
    Ok(line)
}

fn routes_lines(alloc: Global, lines: &[Line]) -> Result<Vec<u8>, OutOfMemory>
    ensures { IfOk result (λ text. text.items ≡ routes_lines lines.now) }
{
    let mut text = Vec::new(alloc);
    for line in lines {
        let told = routes_line(alloc, *line)?;
        text.extend_from_slice(&told)?;
    }
    Ok(text)
}

fn routes_line(alloc: Global, line: Line) -> Result<Vec<u8>, OutOfMemory>
    ensures { IfOk result (λ text. text.items ≡ routes_line line) }
{
    let mut text = format!(in alloc; "routes cost {}", line.cost)?;
    write!(text, " bound {}\n", line.bound)?;
    Ok(text.into_bytes())
}
