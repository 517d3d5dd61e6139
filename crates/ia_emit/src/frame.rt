// Where the variables of a procedure are in its frame.

ghost use Rattle.std.specs.Prelude.{◌≡◌, ◌≤◌, ◌+◌, ◌*◌, pos, unsigned_abs};
ghost use Rattle.std.specs.Int.{int_rem_euclid};
ghost use Rattle.pra_base.specs.Places.{number};
ghost use Rattle.ia_emit.specs.Operands.{register_at, argument_at as argument_of};
ghost use Rattle.ia_emit.specs.Operands.{slot_at as slot_in_frame, locals as locals_of};
ghost use Rattle.ia_emit.specs.Operands.{memory_at, cell as cell_of, operand as operand_of};
ghost use Rattle.ia_emit.specs.Operands.{number_of as number_in};
ghost use Rattle.ia_emit.specs.Operands.{wrapped as wrapped_of, via_width as via_width_of};
ghost use Rattle.ia_emit.specs.Operands.{object_word as object_word_of, IsSmall, IsTable};
ghost use Rattle.net_form.specs.Tables.{is_short as short};
ghost use Rattle.pl_place.specs.Placed.{kind_of as kind_in, slot_of as slot_in};

use crate::item::Operand;
use ia_code::regions::DATA_BASE;
use ia_code::{MemAddr, Reg, Width};
use pl_place::LProc;
use pra_base::{Addr, Base, Place, VarId, VarKind};

/// A procedure of placed code, with the displacement of each variable's own memory.
#[derive(Clone, Copy)]
pub struct Frame<'a> {
    pub proc: &'a LProc,
    pub memory: &'a [i32],
    ghost small: { IsSmall proc.now },
    ghost tabled: { IsTable proc.now memory.now },
}

/// The machine's register of a place that has one; of others EDI.
pub fn register(place: Place) -> Reg
    ensures { result ≡ register_at (number place) }
{
    match place {
        Place::Eax | Place::EaxM => Reg::Eax,
        Place::Ecx | Place::EcxM => Reg::Ecx,
        Place::Edx | Place::EdxM => Reg::Edx,
        Place::Ebx | Place::EbxM => Reg::Ebx,
        Place::Esi | Place::EsiM => Reg::Esi,
        Place::Edi | Place::EdiM | Place::Mem | Place::Const => Reg::Edi,
    }
}

/// Argument i of so many, from EBP on.
pub fn argument_at(args: u32, i: u32) -> i32
    requires { args ≤ 32 }
    ensures { result ≡ argument_of args i }
{
    8 + 4 * args.saturating_sub(1).saturating_sub(i) as i32
}

/// Slot k, from EBP on.
pub fn slot_at(k: u32) -> i32
    requires { k ≤ 16383 }
    ensures { result ≡ slot_in_frame k }
{
    -(16 + 4 * k as i32)
}

/// The low 32 bits of a number.
fn low_word(n: i64) -> u32
    ensures { result ≡ unsigned_abs (int_rem_euclid n (pos 4294967296)) }
{
    n.rem_euclid(0x1_0000_0000) as u32
}

/// The number of 32 bits that is left of a number.
pub fn wrapped(n: i64) -> i32
    ensures { result ≡ wrapped_of n }
{
    low_word(n).cast_signed()
}

pub fn is_short(n: i32) -> bool
    ensures { result ≡ short n }
{
    (-128..=127).contains(&n)
}

/// In how few bytes a displacement from the address in a register is written.
fn via_width(offset: i32) -> Width
    ensures { result ≡ via_width_of offset }
{
    if offset == 0 {
        Width::D0
    } else if is_short(offset) {
        Width::D8
    } else {
        Width::D32
    }
}

impl<'a> Frame<'a> {
    /// The memory of a variable: its argument cell or its slot.
    pub fn cell(&self, var: VarId) -> MemAddr
        ensures { result ≡ cell_of self.now.proc.now var.0 }
    {
        MemAddr {
            base: Some(Reg::Ebp),
            index: None,
            disp: self.memory_at(var),
            width: if self.proc.near {
                Width::D8
            } else {
                Width::D32
            },
        }
    }

    /// What stands for a variable at a place.
    pub fn operand(&self, var: VarId, place: Place) -> Operand
        ensures { result ≡ operand_of self.now.proc.now var.0 (number place) }
    {
        if place.has_register() {
            Operand::Register(register(place))
        } else if place.is_mem() {
            Operand::Memory(self.cell(var))
        } else {
            Operand::Number(self.number_of(var))
        }
    }

    /// The address of an object's word, with the registers of its variables.
    pub fn object_word(&self, from: &Addr, via: Reg, index: Option<(Reg, u8)>) -> MemAddr
        ensures { result ≡
            object_word_of self.now.proc.now from.now.base via from.now.offset index }
    {
        let offset = i64::from(from.offset);
        match from.base {
            Base::Global(word) => MemAddr {
                base: None,
                index,
                disp: wrapped(i64::from(DATA_BASE) + 4 * i64::from(word) + offset),
                width: Width::D32,
            },
            Base::Frame(word) => MemAddr {
                base: Some(Reg::Ebp),
                index,
                disp: wrapped(4 * i64::from(word) - self.aggregates_below() + offset),
                width: Width::D32,
            },
            Base::Cell(i) => MemAddr {
                base: Some(Reg::Ebp),
                index,
                disp: wrapped(i64::from(argument_at(self.proc.args, i)) + offset),
                width: Width::D32,
            },
            Base::Via(_) => MemAddr {
                base: Some(via),
                index,
                disp: from.offset,
                width: via_width(from.offset),
            },
        }
    }

    /// How many words aggregates and slots take.
    pub fn locals(&self) -> u32
        ensures value { result ≡ locals_of self.now.proc.now }
        ensures few { result ≤ 81919 }
    {
        self.proc.aggregates + self.proc.slots.len() as u32
    }

    /// How many bytes below EBP the first aggregate word stands.
    fn aggregates_below(&self) -> i64
        ensures { result ≡ pos (12 + 4 * locals_of self.now.proc.now) }
    {
        i64::from(12 + 4 * self.locals())
    }

    fn memory_at(&self, var: VarId) -> i32
        ensures { result ≡ memory_at self.now.proc.now var.0 }
    {
        match self.memory.get(var.0 as usize) {
            Some(displacement) => *displacement,
            None => memory_of(self.proc, var),
        }
    }

    /// The number of a constant.
    fn number_of(&self, var: VarId) -> i32
        ensures { result ≡ number_in (kind_in self.now.proc.now var.0) }
    {
        match kind_of(self.proc, var) {
            VarKind::Constant(n) => n,
            VarKind::Param(_) | VarKind::Plain => 0,
        }
    }
}

fn kind_of(proc: &LProc, var: VarId) -> VarKind
    ensures { result ≡ kind_in proc.now var.0 }
{
    proc.vars
        .as_slice()
        .get(var.0 as usize)
        .copied()
        .unwrap_or(VarKind::Plain)
}

fn slot_of(proc: &LProc, var: VarId) -> Option<usize>
    ensures { result ≡ slot_in proc.now var.0 }
{
    proc.slots
        .as_slice()
        .iter()
        .position(|slot| slot.0 == var.0)
}

/// The displacement of a variable's own memory.
pub fn memory_of(proc: &LProc, var: VarId) -> i32
    requires { IsSmall proc.now }
    ensures { result ≡ memory_at proc.now var.0 }
{
    match kind_of(proc, var) {
        VarKind::Param(i) => argument_at(proc.args, i),
        VarKind::Plain => match slot_of(proc, var) {
            Some(k) => slot_at(k as u32),
            None => 0,
        },
        VarKind::Constant(_) => 0,
    }
}
