//! Why a module can't be kept.

ghost use Rattle.std.specs.Prelude.{◌≡◌, true, false, nat_lt, MatchResult};
ghost use Rattle.pra_base.specs.Limits.{limit_maximum};

use pra_base::{LimitKind, OutOfMemory};
use std::alloc::{AllocError, AllocFailed};
use thiserror::Error;

/// A quantity above its maximum with its number, or want of memory.
#[derive(Clone, Copy, Debug, PartialEq, Eq, Error)]
pub enum MeasureFault {
    #[error("{0:?} is {1}, above its maximum")]
    Limit(LimitKind, u64),
    /// Also where a number would not fit 64 bits, which takes more parts than memory holds.
    #[error("out of memory")]
    OutOfMemory,
}

impl From<OutOfMemory> for MeasureFault {
    ghost use Rattle.ob_measure.specs.declared.fault.MeasureFault.TheVariants.{OutOfMemory};

    ghost from_gives = { λ _ e. e ≡ OutOfMemory };

    fn from(_: OutOfMemory) -> Self {
        MeasureFault::OutOfMemory
    }
}

impl From<AllocError> for MeasureFault {
    ghost use Rattle.ob_measure.specs.declared.fault.MeasureFault.TheVariants.{OutOfMemory};

    ghost from_gives = { λ _ e. e ≡ OutOfMemory };

    fn from(error: AllocError) -> Self {
        OutOfMemory::from(error).into()
    }
}

impl<T: Drop> From<AllocFailed<T>> for MeasureFault {
    ghost use Rattle.ob_measure.specs.declared.fault.MeasureFault.TheVariants.{OutOfMemory};

    ghost from_gives = { λ _ e. e ≡ OutOfMemory };

    fn from(failed: AllocFailed<T>) -> Self {
        OutOfMemory::from(failed).into()
    }
}

/// The number again, where it is at most the maximum.
pub fn within(kind: LimitKind, count: u64) -> Result<u32, MeasureFault>
    ensures { MatchResult result
        (λ n. (n ≡ count) × (nat_lt (limit_maximum kind) count ≡ false))
        (λ fault. (fault ≡ MeasureFault.Limit kind count)
        × (nat_lt (limit_maximum kind) count ≡ true)) }
{
    if u64::from(kind.maximum()) < count {
        return Err(MeasureFault::Limit(kind, count));
    }
    Ok(count as u32)
}
