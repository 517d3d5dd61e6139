// Why a run is stuck, and where.

ghost use Rattle.std.specs.Prelude.{◌≡◌, IfOk, count_by};
ghost use Rattle.std.specs.List.{list_any};
ghost use Rattle.pra_base.specs.Operands.{read_by};
ghost use Rattle.vc_code.specs.Operation.{operate as operate_of};
ghost use Rattle.vc_code.specs.Machine.{here as here_of};
ghost use Rattle.vc_run.specs.Stuck as stuck;
ghost use Rattle.vc_run.specs.Stands.{held_in, state_of, sizes_of, machine_of};

use crate::machine::Execution;
use crate::machine::perform::instruction;
use crate::out::{Cause, StuckKind};
use crate::program::Program;
use pra_base::{Base, OutOfMemory, VInstr, VProc};
use std::alloc::Global;
use vc_code::{Action, Held, Value, operands, operate};

fn is_number(held: Held) -> bool
    ensures { result ≡ stuck.is_number held }
{
    matches!(held, Some(Value::Num(_)))
}

// How many of these hold nothing.
fn nothings(held: &[Held]) -> usize
    ensures { result ≡ count_by stuck.is_nothing held.now }
{
    held.iter().filter(|one| one.is_none()).count()
}

// How many of these are addresses.
fn addresses(held: &[Held]) -> usize
    ensures { result ≡ count_by stuck.is_address held.now }
{
    held.iter()
        .filter(|one| matches!(one, Some(Value::At(_, _))))
        .count()
}

fn any_nothing(held: &[Held]) -> bool
    ensures { result ≡ list_any stuck.is_nothing held.now }
{
    nothings(held) > 0
}

fn any_address(held: &[Held]) -> bool
    ensures { result ≡ list_any stuck.is_address held.now }
{
    addresses(held) > 0
}

fn kind_of_base(base: Base, held: &[Held]) -> StuckKind
    ensures { result ≡ stuck.kind_of_base base held.now }
{
    match base {
        Base::Via(_) => {
            if is_number(held.get(0).copied().unwrap_or(None)) {
                StuckKind::Access
            } else {
                StuckKind::Address
            }
        }
        Base::Global(_) | Base::Frame(_) | Base::Cell(_) => StuckKind::Address,
    }
}

fn kind_of_values(i: &VInstr, held: &[Held]) -> StuckKind
    ensures { result ≡ stuck.kind_of_values i.now held.now }
{
    match *i {
        VInstr::DivMod(_, _, _, _) => {
            if any_address(held) {
                StuckKind::Address
            } else {
                StuckKind::Divide
            }
        }
        VInstr::Load(_, a) => kind_of_base(a.base, held),
        VInstr::Store(a, _) => kind_of_base(a.base, held),
        VInstr::Addr(_, a) => kind_of_base(a.base, held),
        _ => StuckKind::Address,
    }
}

fn kind_of_operands(i: &VInstr, held: &[Held]) -> StuckKind
    ensures { result ≡ stuck.kind_of_operands i.now held.now }
{
    if any_nothing(held) {
        StuckKind::Nothing
    } else {
        kind_of_values(i, held)
    }
}

fn kind_of_word(word: Option<Held>) -> StuckKind
    ensures { result ≡ stuck.kind_of_word word }
{
    match word {
        None => StuckKind::Access,
        Some(None) => StuckKind::Nothing,
        Some(Some(Value::At(_, _))) => StuckKind::Address,
        Some(Some(Value::Num(_))) => StuckKind::Nothing,
    }
}

/// A count in 32 bits.
///
/// # Errors
///
/// Where it does not fit, which no run could come to.
pub fn narrow(n: usize) -> Result<u32, OutOfMemory>
    ensures { IfOk result (λ narrow. narrow ≡ n) }
{
    u32::try_from(n).map_err(|_| OutOfMemory)
}

impl Execution {
    // What the read operands of an instruction hold.
    fn operands_held(
        &self,
        alloc: Global,
        code: &VProc,
        i: &VInstr,
    ) -> Result<Vec<Held>, OutOfMemory>
        ensures { IfOk result (λ held. held.items ≡ held_in self.now code.now (read_by i.now)) }
    {
        let row = operands(i);
        let mut held = Vec::new(alloc);
        for role in row.reads.as_slice() {
            held.push(self.read(code, role.var))?;
        }
        Ok(held)
    }

    fn kind_of_action(
        &self,
        program: &Program,
        i: &VInstr,
        held: &[Held],
        action: Option<Action>,
    ) -> Result<StuckKind, OutOfMemory>
        ensures { IfOk result (λ kind. let s = state_of self.now in
            kind ≡ stuck.kind_of_action (sizes_of program.now self.now) s i.now held.now action) }
    {
        match action {
            None => Ok(kind_of_operands(i, held)),
            Some(Action::Load(x, offset)) => {
                let word = self.word(program, x, offset)?;
                Ok(kind_of_word(word))
            }
            Some(Action::Store(_, _, _)) => Ok(StuckKind::Access),
            Some(_) => Ok(StuckKind::Nothing),
        }
    }

    fn kind_of_instruction(
        &self,
        alloc: Global,
        program: &Program,
        code: &VProc,
        i: &VInstr,
    ) -> Result<StuckKind, OutOfMemory>
        ensures { IfOk result (λ kind. let s = state_of self.now in
            let sizes = sizes_of program.now self.now in
            let held = held_in self.now code.now (read_by i.now) in
            let action = operate_of (here_of sizes s) i.now held in
            kind ≡ stuck.kind_of_action sizes s i.now held action) }
    {
        let here = self.here()?;
        let held = self.operands_held(alloc, code, i)?;
        let action = operate(&here, i, &held);
        let kind = self.kind_of_action(program, i, &held, action)?;
        Ok(kind)
    }

    fn kind(&self, alloc: Global, program: &Program) -> Result<StuckKind, OutOfMemory>
        ensures { IfOk result (λ kind.
            kind ≡ stuck.kind_of_stuck (machine_of program.now self.now) (state_of self.now)) }
    {
        let code = program.procedure(self.top.proc);
        match instruction(code, self.top.block, self.top.index) {
            None => Ok(StuckKind::Nothing),
            Some(i) => {
                let kind = self.kind_of_instruction(alloc, program, code, &i)?;
                Ok(kind)
            }
        }
    }

    /// Why the run is stuck, whose next step means nothing.
    ///
    /// # Errors
    ///
    /// Where there is no memory for it.
    pub fn cause(&self, alloc: Global, program: &Program) -> Result<Cause, OutOfMemory>
        ensures { IfOk result (λ cause.
            cause ≡ stuck.cause_of (machine_of program.now self.now) (state_of self.now)) }
    {
        let kind = self.kind(alloc, program)?;
        let instruction = narrow(self.top.index)?;
        Ok(Cause {
            kind,
            proc: self.top.proc,
            block: self.top.block,
            instruction,
        })
    }
}
