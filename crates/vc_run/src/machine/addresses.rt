// How addresses name the running call.

ghost use Rattle.std.specs.Prelude.{◌≡◌, IfOk, List};
ghost use Rattle.pra_base.specs.declared.code.VProc.{VProc};
ghost use Rattle.vc_code.specs.Machine.{here as here_of};
ghost use Rattle.vc_code.specs.Selected.{shape};
ghost use Rattle.vc_run.specs.Stands.{state_of};

use super::Execution;
use crate::calls::sum_of;
use pra_base::OutOfMemory;
use vc_code::Here;

impl Execution {
    /// # Errors
    ///
    /// Where the bytes of all frames do not fit 64 bits.
    pub fn here(&self) -> Result<Here, OutOfMemory>
        ensures { IfOk result (λ here. (procs : List VProc) →
            here ≡ here_of (shape procs self.now.below.frames) (state_of self.now)) }
    {
        let calls = self.below.len();
        let below = self.below.under(calls);
        let sum = sum_of(below, self.below.frame(self.top.proc))?;
        Ok(Here { calls, sum, below })
    }
}
