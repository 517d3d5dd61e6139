// The executable machine of selected code: its state, and what it reads. What an action changes is
// in `machine/actions.rt`, and runs are in `run.rt`.

ghost use Rattle.std.specs.Prelude.{◌≡◌};
ghost use Rattle.pra_base.specs.Code.{kind_of};
ghost use Rattle.vc_code.specs.Selected.{read as read_of};
ghost use Rattle.vc_run.specs.Calls.{call_of};

use crate::calls::Waiting;
use crate::live::LiveCall;
use pra_base::{OutEvent, VProc, VarId, VarKind};
use pra_list::Seq;
use vc_code::arithmetic::word;
use vc_code::{Held, Value};

mod actions;
mod addresses;
mod calls;
mod objects;
mod operands;
pub mod perform;
mod quick;

/// A module that runs.
#[derive(Drop)]
pub struct Execution {
    pub top: LiveCall,
    pub below: Waiting,
    /// The pushes that wait for a `Call`, the first one first.
    pub pushed: Vec<Held>,
    /// The words of the module's variables.
    pub globals: Vec<Held>,
    /// What the last instruction compared, if that was a `Cmp`.
    pub compared: Option<(u32, u32)>,
    pub input: Vec<i32>,
    /// How many input words were taken.
    pub taken: usize,
    pub events: Seq<OutEvent>,
}

fn kind(code: &VProc, var: VarId) -> VarKind
    ensures { result ≡ kind_of code.now var.0 }
{
    match code.vars.get(var.0 as usize) {
        Some(kind) => *kind,
        None => VarKind::Plain,
    }
}

impl Execution {
    /// What a variable of the running call holds.
    pub fn read(&self, code: &VProc, var: VarId) -> Held
        ensures { result ≡ read_of (kind_of code.now) (call_of self.now.top).home.held var.0 }
    {
        match kind(code, var) {
            VarKind::Constant(n) => Some(Value::Num(word(n))),
            VarKind::Param(_) | VarKind::Plain => {
                self.top.held.get(var.0 as usize).copied().unwrap_or(None)
            }
        }
    }
}
