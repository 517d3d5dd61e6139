// What code is compiled to.

ghost use Rattle.std.specs.Prelude.{◌≡◌};

use ia_code::Image;
use pra_base::OutOfMemory;
use pra_list::Seq;
use pra_report::ProcOut;
use std::alloc::AllocError;

/// The image of code, and what is kept of its procedures, in order of number.
#[derive(Debug, Drop)]
pub struct Compiled {
    pub image: Image,
    pub procs: Seq<ProcOut>,
}

/// Why there is no image of code.
#[derive(Clone, Copy, Debug, PartialEq, Eq)]
pub enum CompileFault {
    /// The placed code of all procedures has so many bytes, and an image has no room for them.
    TooLong(u64),
    OutOfMemory,
}

impl From<OutOfMemory> for CompileFault {
    ghost use Rattle.pra_compile.specs.declared.output.CompileFault.TheVariants as fault;

    ghost from_gives = { λ _ e. e ≡ fault.OutOfMemory };

    fn from(_: OutOfMemory) -> Self {
        CompileFault::OutOfMemory
    }
}

impl From<AllocError> for CompileFault {
    ghost use Rattle.pra_compile.specs.declared.output.CompileFault.TheVariants as fault;

    ghost from_gives = { λ _ e. e ≡ fault.OutOfMemory };

    fn from(_: AllocError) -> Self {
        CompileFault::OutOfMemory
    }
}
