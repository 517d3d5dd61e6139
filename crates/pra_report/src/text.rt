// What a program writes, and lines on procedures.

ghost use Rattle.std.specs.Prelude.{◌≡◌, ◌++◌, IfOk, OnOk, string_bytes};
ghost use Rattle.pra_report.specs.Texts.{event_text, output_text, procedure_line};

use pra_base::{OutEvent, OutOfMemory};
use std::alloc::{AllocError, Global};
use std::fmt::Write;

/// The text of a program's output: for each number one blank and its decimal digits, for each end
/// of a line one LF.
///
/// # Errors
///
/// Where there is no memory for the text.
pub fn output_text(alloc: Global, events: &[OutEvent]) -> Result<Vec<u8>, OutOfMemory>
    ensures { IfOk result (λ text. text.items ≡ output_text events.now) }
{
    let mut text = String::new(alloc);
    for event in events {
        push_event(&mut text, *event)?;
    }
    Ok(text.into_bytes())
}

fn push_event(text: &mut String, event: OutEvent) -> Result<(), AllocError>
    ensures { OnOk result
        (string_bytes text.new ≡ string_bytes text.old ++ event_text event) }
{
    match event {
        OutEvent::Number(n) => write!(text, " {n}"),
        OutEvent::Line => text.push('\n'),
    }
}

/// The line on a procedure: its number, its name, and how many bytes its frame has.
pub(crate) fn procedure_line(
    alloc: Global,
    number: usize,
    name: &[u8],
    frame: u32,
) -> Result<Vec<u8>, OutOfMemory>
    ensures { IfOk result (λ line. line.items ≡ procedure_line number name.now frame) }
{
    let mut line = format!(in alloc; "procedure {number} ")?.into_bytes();
    line.extend_from_slice(name)?;
    let end = format!(in alloc; " frame {frame}\n")?;
    line.extend_from_slice(end.as_bytes())?;
    Ok(line)
}
