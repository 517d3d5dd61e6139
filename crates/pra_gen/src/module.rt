// The module's text.

ghost use Rattle.std.specs.Prelude.{◌≡◌, ◌≤◌, ◌<◌, ◌++◌, ◌^◌, IfOk, OnOk, string_bytes};
ghost use Rattle.pra_gen.specs.Draws.{state_after};
ghost use Rattle.pra_gen.specs.Module.{in_a_row, assignments, before_assignments};
ghost use Rattle.pra_gen.specs.Module.{behind_assignments, procedure_text, procedures, call_line};
ghost use Rattle.pra_gen.specs.Module.{module_text};

use crate::draws::Draws;
use crate::statement::Statement;
use pra_base::OutOfMemory;
use std::alloc::{AllocError, Global};
use std::fmt::Write;

/// How many assignments a procedure has.
const ASSIGNMENTS: u32 = 20;

/// The text of the module of a seed and of as many procedures as the size says.
///
/// # Errors
///
/// Where there is no memory for the text.
pub fn generate(alloc: Global, seed: u32, size: u32) -> Result<Vec<u8>, OutOfMemory>
    requires seed { seed ≤ 2147483647 }
    requires procedure { 1 ≤ size }
    requires size { size ≤ 200 }
    ensures { IfOk result (λ text. text.items ≡ module_text seed size) }
{
    let mut text = String::from_str(alloc, "MODULE G;\nVAR s: INTEGER;\n")?;
    push_procedures(&mut text, seed, size)?;
    text.push_str("BEGIN\n")?;
    push_calls(&mut text, size)?;
    text.push_str("WriteLn\nEND G.\n")?;
    Ok(text.into_bytes())
}

fn push_procedures(text: &mut String, seed: u32, size: u32) -> Result<(), AllocError>
    requires { seed < 2 ^ 31 }
    ensures { OnOk result
        (string_bytes text.new ≡ string_bytes text.old ++ procedures seed size) }
{
    let mut draws = Draws { state: seed };
    for number in 0..size {
        push_procedure(text, number, &mut draws)?;
    }
    Ok(())
}

fn push_procedure(text: &mut String, number: u32, draws: &mut Draws) -> Result<(), AllocError>
    ensures text { OnOk result
        (string_bytes text.new ≡ string_bytes text.old ++ procedure_text number draws.old.state) }
    ensures state { OnOk result (draws.new.state ≡ state_after draws.old.state 80) }
{
    write!(
        text,
        "PROCEDURE P{number}(a, b: INTEGER; VAR r: INTEGER);\n"
    )?;
    text.push_str(before_assignments())?;
    push_assignments(text, draws)?;
    text.push_str(behind_assignments())?;
    write!(text, "END P{number};\n")?;
    Ok(())
}

#[tactic(auto, unfolding(crate::specs::Module::before_assignments))]
fn before_assignments() -> &'static str
    ensures { result.now ≡ before_assignments }
{
    "VAR v0, v1, v2, v3, v4, v5, v6, v7, n: INTEGER;\n\
     BEGIN\n\
     v0 := a; v1 := b; v2 := a + b; v3 := a - b;\n\
     v4 := 1; v5 := 2; v6 := 3; v7 := 4; n := 3;\n\
     WHILE n > 0 DO\n"
}

#[tactic(auto, unfolding(crate::specs::Module::behind_assignments))]
fn behind_assignments() -> &'static str
    ensures { result.now ≡ behind_assignments }
{
    "n := n - 1\n\
     END;\n\
     r := v0 + v1 + v2 + v3 + v4 + v5 + v6 + v7\n"
}

fn push_assignments(text: &mut String, draws: &mut Draws) -> Result<(), AllocError>
    ensures text { OnOk result
        (string_bytes text.new ≡ string_bytes text.old ++ assignments draws.old.state) }
    ensures state { OnOk result (draws.new.state ≡ state_after draws.old.state 80) }
{
    for _turn in 0..ASSIGNMENTS {
        let statement = Statement::drawn(draws);
        statement.push_to(text)?;
    }
    Ok(())
}

fn push_calls(text: &mut String, size: u32) -> Result<(), AllocError>
    requires { size ≤ 200 }
    ensures { OnOk result
        (string_bytes text.new ≡ string_bytes text.old ++ in_a_row call_line size) }
{
    for number in 0..size {
        push_call(text, number)?;
    }
    Ok(())
}

fn push_call(text: &mut String, number: u32) -> Result<(), AllocError>
    requires { number < 200 }
    ensures { OnOk result
        (string_bytes text.new ≡ string_bytes text.old ++ call_line number) }
{
    let first = number + 1;
    let second = number + 2;
    write!(text, "P{number}({first}, {second}, s); Write(s);\n")?;
    Ok(())
}
