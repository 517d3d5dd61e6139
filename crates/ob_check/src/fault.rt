//! Why a tree stands for no module.

use crate::refusal::Refusal;
use ob_measure::MeasureFault;
use pra_base::LimitKind;
use thiserror::Error;

/// Why a tree stands for no module that can be compiled.
#[derive(Clone, Copy, Debug, PartialEq, Eq, Error)]
pub enum CheckFault {
    /// A rule, by its number ([`Rule`](crate::Rule) names it), and the token at which it is broken.
    #[error("rule {0} is broken at token {1}")]
    Rule(u8, u32),
    /// What there is too much of, and how much there is.
    #[error("{0:?} is {1}, above its maximum")]
    Limit(LimitKind, u64),
    #[error("out of memory")]
    OutOfMemory,
}

impl From<Refusal> for CheckFault {
    ghost use Rattle.std.specs.Prelude.{◌≡◌};
    ghost use Rattle.ob_check.specs.Checking.{of_refusal};

    ghost from_gives = { λ refusal fault. fault ≡ of_refusal refusal };

    fn from(refusal: Refusal) -> CheckFault {
        match refusal {
            Refusal::Broken(rule, token) => CheckFault::Rule(rule.number(), token),
            Refusal::OutOfMemory => CheckFault::OutOfMemory,
        }
    }
}

impl From<MeasureFault> for CheckFault {
    ghost use Rattle.std.specs.Prelude.{◌≡◌};
    ghost use Rattle.ob_check.specs.Checking.{of_measure};

    ghost from_gives = { λ excess fault. fault ≡ of_measure excess };

    fn from(excess: MeasureFault) -> CheckFault {
        match excess {
            MeasureFault::Limit(kind, count) => CheckFault::Limit(kind, count),
            MeasureFault::OutOfMemory => CheckFault::OutOfMemory,
        }
    }
}
