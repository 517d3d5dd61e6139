// Why code is not placed.

ghost use Rattle.std.specs.Prelude.{◌≡◌};
ghost use Rattle.ia_sketch.specs.declared.refusal.Refusal.TheVariants as refusal;

use pra_base::OutOfMemory;
use std::alloc::AllocFailed;
use thiserror::Error;

/// Why code is not placed.
#[derive(Debug, PartialEq, Eq, Drop, Error)]
pub enum Refusal {
    /// A variable, block or argument is not there, or there is too much of something.
    #[error("the code is not sized")]
    Size,
    #[error("the code breaks a rule of valid code")]
    Rules,
    /// The module would have more instructions or blocks than an image holds for sure.
    #[error("the module has too much code")]
    Room,
    #[error("out of memory")]
    OutOfMemory,
}

impl From<OutOfMemory> for Refusal {
    ghost from_gives = { λ _ told. told ≡ refusal.OutOfMemory };

    fn from(_: OutOfMemory) -> Self {
        Refusal::OutOfMemory
    }
}

impl<T: Drop> From<AllocFailed<T>> for Refusal {
    ghost from_gives = { λ _ told. told ≡ refusal.OutOfMemory };

    fn from(_: AllocFailed<T>) -> Self {
        Refusal::OutOfMemory
    }
}
