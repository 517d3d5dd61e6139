// Constants of the code.

ghost use Rattle.std.specs.Prelude.{◌≡◌, ◌<◌, ◌≤◌, ℕ, length, IfOk, OnOk};
ghost use Rattle.std.specs.Int.{w32};
ghost use Rattle.std.specs.Int.RustNames.{FitsSigned};
ghost use Rattle.pra_base.specs.declared.code.VarKind.TheVariants.{Constant};
ghost use Rattle.vc_build.specs.Grow.{IsOpen, with_variable};

use pra_base::{OutOfMemory, VProc, VarId, VarKind};
use vc_build::declare;

/// Adds a variable that is always this number.
///
/// # Errors
///
/// Where there is no memory for it, or no number; the code is of no use then.
pub fn constant(code: &mut VProc, n: i32) -> Result<VarId, OutOfMemory>
    ensures made { OnOk result (code.new ≡ with_variable (Constant n) code.old) }
    ensures number { IfOk result (λ v. v.0 ≡ length code.old.vars) }
    ensures open { OnOk result ((b : ℕ) → IsOpen code.old b → IsOpen code.new b) }
    ensures vars { OnOk result (length code.old.vars ≤ length code.new.vars) }
    ensures named { IfOk result (λ v. v.0 < length code.new.vars) }
    ensures fits { OnOk result (FitsSigned w32 n) }
{
    let v = declare(code, VarKind::Constant(n))?;
    Ok(v)
}
