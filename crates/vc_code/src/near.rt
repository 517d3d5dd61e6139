// Whether a procedure's slots and argument cells are close to its frame pointer.

ghost use Rattle.std.specs.Prelude.{◌≡◌};
ghost use Rattle.pra_base.specs.Valid.{near};

use pra_base::code::{NEAR_ARGUMENTS, NEAR_VARIABLES};
use pra_base::{VProc, VarKind};

/// Whether every slot and argument cell of the procedure is reached by a displacement of 8 bits,
/// however many of its local variables need one.
pub fn is_near(code: &VProc) -> bool
    ensures { result ≡ near code.now.vars code.now.args }
{
    let plain = code
        .vars
        .as_slice()
        .iter()
        .filter(|kind| matches!(kind, VarKind::Plain))
        .count();
    plain <= NEAR_VARIABLES && code.args <= NEAR_ARGUMENTS
}
