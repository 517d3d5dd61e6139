// The bytes of frames, and how addresses name the running call.

ghost use Rattle.std.specs.Prelude.{◌≡◌, ◌+◌, IfOk};
ghost use Rattle.vc_code.specs.Machine.{depth, here as here_of};
ghost use Rattle.vc_code.specs.Stands.{calls_of, state_of, sizes_of};

use super::Execution;
use crate::action::Here;
use crate::live::LiveCall;
use crate::program::Program;
use pra_base::OutOfMemory;

/// The sum of two counts of bytes; what does not fit 64 bits no memory could hold.
///
/// # Errors
///
/// Where it does not fit.
pub fn sum_of(bytes: u64, more: u32) -> Result<u64, OutOfMemory>
    ensures { IfOk result (λ sum. sum ≡ more + bytes) }
{
    bytes.checked_add(u64::from(more)).ok_or(OutOfMemory)
}

/// The bytes of the frames of calls.
///
/// # Errors
///
/// Where they do not fit 64 bits.
pub fn bytes_of(program: &Program, calls: &[LiveCall]) -> Result<u64, OutOfMemory>
    ensures { IfOk result (λ bytes. bytes ≡ depth (sizes_of program.now) (calls_of calls.now)) }
{
    let mut bytes = 0;
    for call in calls {
        bytes = sum_of(bytes, program.frame(call.proc))?;
    }
    Ok(bytes)
}

impl Execution {
    /// # Errors
    ///
    /// Where the bytes of all frames do not fit 64 bits.
    pub fn here(&self, program: &Program) -> Result<Here, OutOfMemory>
        ensures { IfOk result (λ here. here ≡ here_of (sizes_of program.now) (state_of self.now)) }
    {
        let below = bytes_of(program, &self.below)?;
        let sum = sum_of(below, program.frame(self.top.proc))?;
        Ok(Here {
            calls: self.below.len(),
            sum,
            below,
        })
    }
}
