// Where the variables of a procedure are in its frame, as a table.

ghost use Rattle.std.specs.Prelude.{◌≡◌, ◌≤◌, IfOk};
ghost use Rattle.pl_place.specs.Valid.{IsPlaced};
ghost use Rattle.ia_emit.specs.Operands.{IsSmall, IsTable, spot_at};
ghost use Rattle.pl_place.specs.Machine.{spot_as};

use crate::frame::{argument_at, slot_at};
use pl_place::LProc;
use pra_base::{OutOfMemory, VarKind};
use std::alloc::Global;

/// The displacement of an argument's cell; 0 for what has none.
fn argument_of(args: u32, kind: VarKind) -> i32
    requires { args ≤ 32 }
    ensures { result ≡ spot_at args (spot_as kind None) }
{
    match kind {
        VarKind::Param(i) => argument_at(args, i),
        VarKind::Plain | VarKind::Constant(_) => 0,
    }
}

/// The displacements of all variables' own memory, each variable and each slot looked at once.
///
/// # Errors
///
/// Where there is no memory for them.
pub fn table(alloc: Global, proc: &LProc) -> Result<Vec<i32>, OutOfMemory>
    requires small { IsSmall proc.now }
    requires placed { IsPlaced proc.now }
    ensures { IfOk result (λ table. IsTable proc.now table.items) }
{
    let mut table = Vec::with_capacity(alloc, proc.vars.len())?;
    for kind in proc.vars.as_slice() {
        table.push(argument_of(proc.args, *kind))?;
    }
    for (k, slot) in proc.slots.as_slice().iter().enumerate() {
        table[slot.0 as usize] = slot_at(k as u32);
    }
    Ok(table)
}
