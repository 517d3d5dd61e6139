// Runs a module by its meaning and prints what came of it: a loop of ten million units, or behind
// the word `calls` half a million calls, one in the other. It is the work behind bench/interp.sh.

use anyhow::{anyhow, bail, ensure};
use ob_interp::interpret::interpret;
use ob_read::{MAX_SOURCE, Parsed, read, resolve};
use ob_syntax::Checked;
use std::alloc::{Alloc, Global};

/// 3333333 turns of three units, a last test, and what is written.
const LOOP: &str = "MODULE Loop; VAR i, s: INTEGER; BEGIN
  WHILE i < 3333333 DO s := s + i; i := i + 1 END; Write(s)
END Loop.";

/// 500000 calls, each with an IF, and what is written.
const CALLS: &str = "MODULE Calls;
PROCEDURE P(n: INTEGER); BEGIN IF n > 1 THEN P(n - 1) END END P;
BEGIN P(500000); Write(1) END Calls.";

/// So small that all calls stand within the stack.
const FRAMES: [u32; 2] = [20, 2];

const MOST_UNITS: u32 = 20_000_000;

/// Runs the loop, or behind the word `calls` the calls.
pub fn measure(rt: &HostRuntime, word: Option<&str>) -> anyhow::Result<()> {
    let text = if word == Some("calls") { CALLS } else { LOOP };
    let program = checked(rt.alloc(), text)?;
    let out = interpret(rt.alloc(), &program, &FRAMES, &[], MOST_UNITS).map_err(|_| anyhow!(
        "no memory"
    ))?;
    println!(rt; "{:?} after {} units", out.ending, out.units)?;
    for event in out.events.as_slice() {
        println!(rt; "{event:?}")?;
    }
    Ok(())
}

// The module that a text stands for.
fn checked(alloc: Global, text: &str) -> anyhow::Result<Checked> {
    let bytes = text.as_bytes();
    ensure!(bytes.len() <= MAX_SOURCE, "the text is too long");
    let Ok(parsed) = read(alloc, bytes) else {
        bail!("the text is no module");
    };
    let Parsed { tokens, tree } = parsed;
    match resolve(alloc, bytes, &tokens, tree) {
        Ok(checked) => Ok(checked),
        Err(_) => Err(anyhow!("the module breaks a rule")),
    }
}
