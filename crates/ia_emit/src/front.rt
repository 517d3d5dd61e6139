// The bytes in front of the procedures.

ghost use Rattle.std.specs.Prelude.{◌≡◌, pos, ◌++◌, IfOk, OnOk};
ghost use Rattle.ia_code.specs.DecodeTable.{bytes_of};
ghost use Rattle.ia_code.specs.declared.ins.Ins.TheVariants.{MovRI, Int};
ghost use Rattle.ia_code.specs.declared.ins.Reg.TheVariants.{Eax};
ghost use Rattle.ia_code.specs.declared.services.Service.TheVariants.{Trap};
ghost use Rattle.ia_code.specs.Services.{service_number, trap_number as number_of_trap};
ghost use Rattle.ia_emit.specs.Code.{front};
ghost use Rattle.ia_emit.specs.Open.{IsOpen};

use crate::bytes::{CallSite, Piece, push};
use ia_code::services::trap_number;
use ia_code::{Ins, Reg, Service};
use pra_base::{OutOfMemory, ProcId, TrapKind};
use std::alloc::Global;

/// The code that raises a trap.
fn push_stub(bytes: &mut Vec<u8>, trap: TrapKind) -> Result<(), OutOfMemory>
    ensures { let number = bytes_of (MovRI Eax (pos (number_of_trap trap))) in
        let call = bytes_of (Int (service_number Trap)) in
        OnOk result (bytes.new.items ≡ bytes.old.items ++ number ++ call) }
{
    push(bytes, Ins::MovRI(Reg::Eax, trap_number(trap) as i32))?;
    push(bytes, Ins::Int(Service::Trap.number()))
}

/// The bytes in front of the procedures: the call of the body, which is left open, the end of the
/// program, and the code of each trap.
///
/// # Errors
///
/// Where there is no memory for them.
pub fn front_piece(alloc: Global) -> Result<Piece, OutOfMemory>
    ensures { IfOk result (λ p.
        IsOpen (λ t. 0) 0 front p.bytes.items p.calls.items) }
{
    let mut bytes = Vec::new(alloc);
    let mut calls = Vec::new(alloc);
    calls.push(CallSite {
        place: 1,
        callee: ProcId(0),
    })?;
    push(&mut bytes, Ins::Call(0))?;
    push(&mut bytes, Ins::Int(Service::End.number()))?;
    push_stub(&mut bytes, TrapKind::Index)?;
    push_stub(&mut bytes, TrapKind::Divide)?;
    push_stub(&mut bytes, TrapKind::Stack)?;
    Ok(Piece { bytes, calls })
}
