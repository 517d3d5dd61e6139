// The report on the procedures of a module, and the lines on a generated one.

ghost use Rattle.std.specs.Prelude.{◌≡◌, ◌+◌, ◌<◌, ◌^◌, ◌++◌, IfOk, codes};
ghost use Rattle.std.specs.Fmt.{decimal};
ghost use Rattle.pra_report.specs.Report.{round_line, round_lines, procedures_text, last_cost};
ghost use Rattle.pra_report.specs.Report.{last_bound, total_cost, total_bound, total_line};
ghost use Rattle.pra_report.specs.Report.{report_text, generated_line, output_line, HaveTotals};
ghost use Rattle.pra_report.specs.Report.{procedure_lines};

use crate::text::procedure_line;
use net_form::{Line, Routes};
use net_kept::KeptPrices;
use pra_base::{OutOfMemory, VProc};
use pra_list::Seq;
use std::alloc::Global;
use std::fmt::Write;

/// What is kept of a procedure and told of it.
#[derive(Debug, Drop)]
pub struct ProcOut {
    /// Its name, or the module's for the module's body.
    pub name: Seq<u8>,
    /// How many bytes a call of it takes on the stack.
    pub frame: u32,
    /// Its selected code.
    pub code: VProc,
    /// The routes that the image carries.
    pub routes: Routes,
    /// The prices that the last bound stands on.
    pub prices: KeptPrices,
    /// A line for round 0, and one for each round that ran.
    pub lines: Seq<Line>,
}

/// The report on procedures in the order of their numbers, with so many bytes of code: for each its
/// number, name and frame and a line a round, and behind all of them the sums of their last costs
/// and of their last bounds.
///
/// # Errors
///
/// Where there is no memory for the text.
pub fn report_text(alloc: Global, procs: &[ProcOut], code: u32) -> Result<Vec<u8>, OutOfMemory>
    requires { HaveTotals procs.now }
    ensures { IfOk result (λ text. text.items ≡ report_text procs.now code) }
{
    let mut text = procedures_text(alloc, procs)?;
    let total = total_line(alloc, procs, code)?;
    text.extend_from_slice(&total)?;
    Ok(text)
}

/// The line on all procedures together, with so many bytes of code.
///
/// # Errors
///
/// Where there is no memory for the line.
pub fn total_line(alloc: Global, procs: &[ProcOut], code: u32) -> Result<Vec<u8>, OutOfMemory>
    requires { HaveTotals procs.now }
    ensures { IfOk result (λ line. line.items ≡ total_line procs.now code) }
{
    let cost = total_cost(procs);
    let bound = total_bound(procs);
    let mut line = format!(in alloc; "total cost {cost} bound {bound}")?;
    write!(line, " code {code}\n")?;
    Ok(line.into_bytes())
}

/// The lines on procedures in the order of their numbers, without those of their rounds.
///
/// # Errors
///
/// Where there is no memory for the lines.
pub fn procedure_lines(alloc: Global, procs: &[ProcOut]) -> Result<Vec<u8>, OutOfMemory>
    ensures { IfOk result (λ text. text.items ≡ procedure_lines 0 procs.now) }
{
    let mut text = Vec::new(alloc);
    for (number, proc) in procs.iter().enumerate() {
        let line = procedure_line(alloc, number, proc.name.as_slice(), proc.frame)?;
        text.extend_from_slice(&line)?;
    }
    Ok(text)
}

fn procedures_text(alloc: Global, procs: &[ProcOut]) -> Result<Vec<u8>, OutOfMemory>
    ensures { IfOk result (λ text. text.items ≡ procedures_text 0 procs.now) }
{
    let mut text = Vec::new(alloc);
    for (number, proc) in procs.iter().enumerate() {
        let line = procedure_line(alloc, number, proc.name.as_slice(), proc.frame)?;
        text.extend_from_slice(&line)?;
        let rounds = round_lines(alloc, proc.lines.as_slice())?;
        text.extend_from_slice(&rounds)?;
    }
    Ok(text)
}

fn round_lines(alloc: Global, lines: &[Line]) -> Result<Vec<u8>, OutOfMemory>
    ensures { IfOk result (λ text. text.items ≡ round_lines lines.now) }
{
    let mut text = Vec::new(alloc);
    for line in lines {
        let told = round_line(alloc, *line)?;
        text.extend_from_slice(&told)?;
    }
    Ok(text)
}

fn round_line(alloc: Global, line: Line) -> Result<Vec<u8>, OutOfMemory>
    ensures { IfOk result (λ text. text.items ≡ round_line line) }
{
    let Line { round, cost, bound } = line;
    let mut text = format!(in alloc; "round {round} cost {cost}")?;
    write!(text, " bound {bound}\n")?;
    Ok(text.into_bytes())
}

fn last_cost(lines: &[Line]) -> u128
    ensures { result ≡ last_cost lines.now }
{
    match lines.last() {
        Some(line) => line.cost,
        None => 0,
    }
}

fn last_bound(lines: &[Line]) -> u128
    ensures { result ≡ last_bound lines.now }
{
    match lines.last() {
        Some(line) => line.bound,
        None => 0,
    }
}

fn total_cost(procs: &[ProcOut]) -> u128
    requires { total_cost procs.now < 2 ^ 128 }
    ensures { result ≡ total_cost procs.now }
{
    let mut total = 0;
    for proc in procs {
        total += last_cost(proc.lines.as_slice());
    }
    total
}

fn total_bound(procs: &[ProcOut]) -> u128
    requires { total_bound procs.now < 2 ^ 128 }
    ensures { result ≡ total_bound procs.now }
{
    let mut total = 0;
    for proc in procs {
        total += last_bound(proc.lines.as_slice());
    }
    total
}

/// The line on a generated module: its seed and size, and how many bytes its text has.
///
/// # Errors
///
/// Where there is no memory for the line.
pub fn generated_line(
    alloc: Global,
    seed: u32,
    size: u32,
    bytes: usize,
) -> Result<Vec<u8>, OutOfMemory>
    ensures { IfOk result (λ line. line.items ≡ generated_line seed size bytes) }
{
    let mut line = format!(in alloc; "generated seed {seed} size {size}")?;
    write!(line, " bytes {bytes}\n")?;
    Ok(line.into_bytes())
}

/// The line that tells how many bytes a program wrote.
///
/// # Errors
///
/// Where there is no memory for the line.
pub fn output_line(alloc: Global, bytes: usize) -> Result<Vec<u8>, OutOfMemory>
    ensures { IfOk result (λ line. line.items ≡ output_line bytes) }
{
    let line = format!(in alloc; "output bytes {bytes}\n")?;
    Ok(line.into_bytes())
}
