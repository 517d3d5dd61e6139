// Numbers and truth values.

ghost use Rattle.std.specs.Prelude.{◌≡◌, ◌<◌, ◌≤◌, ℕ, length, IfOk, OnOk};
ghost use Rattle.std.specs.Int.{w32};
ghost use Rattle.std.specs.Int.RustNames.{FitsSigned};
ghost use Rattle.ob_syntax.specs.Operators.{number};
ghost use Rattle.ob_syntax.specs.declared.checked.Value.TheVariants.{Truth};
ghost use Rattle.pra_base.specs.declared.code.VarKind.TheVariants.{Constant};
ghost use Rattle.vc_build.specs.Grow.{IsOpen, with_variable};

use crate::constant::constant;
use pra_base::{OutOfMemory, VProc, VarId};

/// How many variables the code has.
///
/// # Errors
///
/// Where there is no number for them.
pub fn variable_count(code: &VProc) -> Result<u32, OutOfMemory>
    ensures { IfOk result (λ n. n ≡ length code.now.vars) }
{
    let count = u32::try_from(code.vars.len()).map_err(|_| OutOfMemory)?;
    Ok(count)
}

/// A variable that is always a truth value.
///
/// # Errors
///
/// Where there is no memory for it, or no number; the code is of no use then.
pub fn truth(code: &mut VProc, b: bool) -> Result<VarId, OutOfMemory>
    ensures made { OnOk result (code.new ≡ with_variable (Constant (number (Truth b))) code.old) }
    ensures number { IfOk result (λ v. v.0 ≡ length code.old.vars) }
    ensures open { OnOk result ((b : ℕ) → IsOpen code.old b → IsOpen code.new b) }
    ensures vars { OnOk result (length code.old.vars ≤ length code.new.vars) }
    ensures named { IfOk result (λ v. v.0 < length code.new.vars) }
    ensures fits { OnOk result (FitsSigned w32 (number (Truth b))) }
{
    let v = constant(code, if b { 1 } else { 0 })?;
    Ok(v)
}
