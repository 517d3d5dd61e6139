// The network of a code that is read from text.

ghost use Rattle.std.specs.Prelude.{IfOk, IfSome};
ghost use Rattle.net_laws.specs.Built.{IsBuilt};

use crate::reading::field;
use net_build::build;
use net_form::Net;
use pra_base::{OutOfMemory, VModule, VProc};
use sketch::Sketch;
use std::alloc::Global;
use vc_live::{is_sized, live};
use vc_valid::is_valid;

// The network, or None where the code is not seen to be valid.
fn network(alloc: Global, code: &VProc) -> Result<Option<Net>, OutOfMemory>
    ensures { IfOk result (λ found. IfSome found IsBuilt) }
{
    if !is_sized(code) {
        return Ok(None);
    }
    let live = live(alloc, code)?;
    if !is_valid(code, &live) {
        return Ok(None);
    }
    Ok(Some(build(alloc, code, &live)?))
}

// The code of lines that stand behind one another, with a semicolon and a blank between them.
fn code(alloc: Global, text: &str) -> Result<Option<VProc>, OutOfMemory> {
    let mut sketch = Sketch::new(alloc);
    for line in text.split(';') {
        if !sketch.line(line.strip_prefix(' ').unwrap_or(line))? {
            return Ok(None);
        }
    }
    let VModule { procs, .. } = sketch.module(0)?;
    Ok(procs.into_vec().pop())
}

/// The network of a row's code, or None where that is not seen to be valid.
pub(crate) fn network_of(alloc: Global, row: &str) -> Result<Option<Net>, OutOfMemory>
    ensures { IfOk result (λ found. IfSome found IsBuilt) }
{
    let Some(code) = code(alloc, field(row, "code "))? else {
        return Ok(None);
    };
    network(alloc, &code)
}
