//! Why a phrase has no meaning.

ghost use Rattle.std.specs.Prelude.{◌≡◌};

use crate::rules::Rule;
use pra_base::OutOfMemory;
use std::alloc::{AllocError, AllocFailed};

/// A rule that is broken at a token, or want of memory.
#[derive(Clone, Copy, Debug)]
pub enum Refusal {
    Broken(Rule, u32),
    OutOfMemory,
}

impl From<OutOfMemory> for Refusal {
    ghost use Rattle.ob_check.specs.declared.refusal.Refusal.TheVariants.{OutOfMemory};

    ghost from_gives = { λ _ e. e ≡ OutOfMemory };

    fn from(_: OutOfMemory) -> Self {
        Refusal::OutOfMemory
    }
}

impl From<AllocError> for Refusal {
    ghost use Rattle.ob_check.specs.declared.refusal.Refusal.TheVariants.{OutOfMemory};

    ghost from_gives = { λ _ e. e ≡ OutOfMemory };

    fn from(error: AllocError) -> Self {
        OutOfMemory::from(error).into()
    }
}

impl<T: Drop> From<AllocFailed<T>> for Refusal {
    ghost use Rattle.ob_check.specs.declared.refusal.Refusal.TheVariants.{OutOfMemory};

    ghost from_gives = { λ _ e. e ≡ OutOfMemory };

    fn from(failed: AllocFailed<T>) -> Self {
        OutOfMemory::from(failed).into()
    }
}
