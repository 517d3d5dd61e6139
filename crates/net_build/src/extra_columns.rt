// What an operand costs more in memory or as an immediate than in a register.

ghost use Rattle.std.specs.Prelude.{◌≡◌};
ghost use Rattle.net_form.specs.Strands.{is_before};
ghost use Rattle.net_form.specs.Network.{plays};
ghost use Rattle.net_form.specs.Tables.{extra_columns, is_short, memory_event, constant_event};
ghost use Rattle.net_build.specs.ExtraColumns.{columns_of};

use crate::naming::{only_writes, reads};
use net_cost::Event;
use pra_base::{VInstr, VarKind};

/// What an operand of an instruction costs in memory, near and far, and as an immediate of 8 and of
/// 32 bits.
#[derive(Clone, Copy)]
pub(crate) struct ExtraColumns {
    pub near: Option<Event>,
    pub far: Option<Event>,
    pub short: Option<Event>,
    pub long: Option<Event>,
}

// The operand is never in memory at a cost of its own, and never an immediate.
const NOTHING: ExtraColumns = ExtraColumns {
    near: None,
    far: None,
    short: None,
    long: None,
};

// An operand that is never an immediate.
const OPERAND: ExtraColumns = ExtraColumns {
    near: Some(Event::E6),
    far: Some(Event::E7),
    short: None,
    long: None,
};

// v op= s, and a compared with b.
const ARITHMETIC: ExtraColumns = ExtraColumns {
    near: Some(Event::E6),
    far: Some(Event::E7),
    short: Some(Event::E10),
    long: Some(Event::E11),
};

// What an operand of the instruction costs.
pub(crate) fn extra_columns_of(instr: &VInstr) -> ExtraColumns
    ensures { columns_of result ≡ extra_columns instr.now }
{
    match instr {
        VInstr::Set(_, _) => ExtraColumns {
            near: Some(Event::E8),
            far: Some(Event::E9),
            short: None,
            long: None,
        },
        VInstr::Add(_, _)
        | VInstr::Sub(_, _)
        | VInstr::And(_, _)
        | VInstr::Or(_, _)
        | VInstr::Xor(_, _)
        | VInstr::Cmp(_, _)
        | VInstr::CmpSet(_, _, _, _) => ARITHMETIC,
        VInstr::Copy(_, _)
        | VInstr::Neg(_)
        | VInstr::Shift(_, _, _)
        | VInstr::DivMod(_, _, _, _)
        | VInstr::Check(_, _)
        | VInstr::CheckPos(_) => OPERAND,
        VInstr::Mul(_, _) => ExtraColumns {
            near: Some(Event::E6),
            far: Some(Event::E7),
            short: None,
            long: Some(Event::E12),
        },
        VInstr::Store(_, _) => ExtraColumns {
            near: None,
            far: None,
            short: Some(Event::E11),
            long: Some(Event::E11),
        },
        VInstr::Push(_) => ExtraColumns {
            near: Some(Event::E8),
            far: Some(Event::E9),
            short: Some(Event::E11),
            long: Some(Event::E11),
        },
        _ => NOTHING,
    }
}

// What the variable costs in memory.
pub(crate) fn memory_event(near: bool, extra: ExtraColumns) -> Option<Event>
    ensures { result ≡ memory_event near (columns_of extra) }
{
    if near { extra.near } else { extra.far }
}

// Whether the number fits the 8 bits of a short immediate.
fn is_short(number: i32) -> bool
    ensures { result ≡ is_short number }
{
    -128 <= number && number <= 127
}

// What the variable costs as an immediate.
pub(crate) fn constant_event(kind: VarKind, extra: ExtraColumns) -> Option<Event>
    ensures { result ≡ constant_event kind (columns_of extra) }
{
    match kind {
        VarKind::Constant(number) => {
            if is_short(number) {
                extra.short
            } else {
                extra.long
            }
        }
        _ => None,
    }
}

// Whether the variable is an operand that may cost more at this layer.
pub(crate) fn plays(instr: &VInstr, layer: u32, var: u32) -> bool
    ensures { result ≡ plays (is_before layer) instr.now var }
{
    if layer % 2 == 1 {
        reads(instr, var)
    } else {
        only_writes(instr, var)
    }
}
