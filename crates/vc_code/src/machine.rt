// The executable machine of selected code: its state, what it reads, and what it changes. What an
// action changes is in `machine/actions.rt`, and runs are in `run.rt`.

ghost use Rattle.std.specs.Prelude.{◌≡◌};
ghost use Rattle.pra_base.specs.Code.{kind_of};
ghost use Rattle.vc_code.specs.Selected.{read as read_of};
ghost use Rattle.vc_code.specs.Stands.{call_of};

use crate::arithmetic::word;
use crate::live::LiveCall;
use crate::outcome::Ending;
use crate::value::{Held, Value};
use pra_base::{OutEvent, OutOfMemory, VProc, VarId, VarKind};
use pra_list::Seq;
use std::alloc::{AllocError, AllocFailed};

mod actions;
mod addresses;
mod calls;
mod objects;
mod operands;
mod perform;

/// Why a step does not go on.
#[derive(Clone, Copy, Debug, PartialEq, Eq)]
pub enum Halt {
    Over(Ending),
    OutOfMemory,
}

const STUCK: Halt = Halt::Over(Ending::Stuck);

impl From<AllocError> for Halt {
    ghost use Rattle.std.specs.Prelude.{◌≡◌};
    ghost use Rattle.vc_code.specs.declared.machine.Halt.TheVariants.{OutOfMemory};

    ghost from_gives = { λ _ halt. halt ≡ OutOfMemory };

    fn from(error: AllocError) -> Self {
        OutOfMemory::from(error).into()
    }
}

impl<T: Drop> From<AllocFailed<T>> for Halt {
    ghost use Rattle.std.specs.Prelude.{◌≡◌};
    ghost use Rattle.vc_code.specs.declared.machine.Halt.TheVariants.{OutOfMemory};

    ghost from_gives = { λ _ halt. halt ≡ OutOfMemory };

    fn from(failed: AllocFailed<T>) -> Self {
        OutOfMemory::from(failed).into()
    }
}

impl From<OutOfMemory> for Halt {
    ghost use Rattle.std.specs.Prelude.{◌≡◌};
    ghost use Rattle.vc_code.specs.declared.machine.Halt.TheVariants as halt;

    ghost from_gives = { λ _ h. h ≡ halt.OutOfMemory };

    fn from(_: OutOfMemory) -> Self {
        Halt::OutOfMemory
    }
}

/// A module that runs.
#[derive(Drop)]
pub struct Execution {
    pub top: LiveCall,
    /// The calls that wait, the module's body first.
    pub below: Vec<LiveCall>,
    /// The pushes that wait for a `Call`, the first one first.
    pub pushed: Vec<Held>,
    /// The words of the module's variables.
    pub globals: Vec<Held>,
    /// What the last instruction compared, if that was a `Cmp`.
    pub compared: Option<(u32, u32)>,
    pub input: Vec<i32>,
    /// How many input words were taken.
    pub taken: usize,
    pub events: Seq<OutEvent>,
    pub ending: Option<Ending>,
}

fn kind(code: &VProc, var: VarId) -> VarKind
    ensures { result ≡ kind_of code.now var.0 }
{
    match code.vars.get(var.0 as usize) {
        Some(kind) => *kind,
        None => VarKind::Plain,
    }
}

impl Execution {
    /// What a variable of the running call holds.
    pub fn read(&self, code: &VProc, var: VarId) -> Held
        ensures { result ≡ read_of (kind_of code.now) (call_of self.now.top).home.held var.0 }
    {
        match kind(code, var) {
            VarKind::Constant(n) => Some(Value::Num(word(n))),
            VarKind::Param(_) | VarKind::Plain => {
                self.top.held.get(var.0 as usize).copied().unwrap_or(None)
            }
        }
    }
}
