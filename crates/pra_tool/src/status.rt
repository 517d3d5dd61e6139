// How a call ends.

ghost use Rattle.std.specs.Prelude.{◌≡◌};
ghost use Rattle.pra_tool.specs.Status.{exit_code, IsDone, status_of_machine};
ghost use Rattle.pra_tool.specs.Status.{status_of_units, status_of_code};

use ia_step::Ending;
use ob_interp::UnitEnding;
use vc_run::CodeEnding;

/// How a call ends.
#[derive(Clone, Copy, Debug, PartialEq, Eq, Drop)]
pub enum Status {
    /// The run ended within the steps, or all was done without a run.
    Ended,
    /// The run trapped, or was stuck, or the image came to a fault of the machine.
    Trapped,
    /// The run is still going after the steps.
    Going,
    /// FILE is not what its mode reads: no module and no code that is compiled, no image, no text of
    /// one, or no certificate that holds.
    BadSource,
    /// FILE, the input or what is made of FILE goes beyond a limit.
    OverLimit,
    /// Something was not read or not written.
    Fault,
    /// The words are refused.
    BadWords,
    /// The input is no list of words.
    BadInput,
    /// Memory was wanting.
    NoMemory,
}

impl Status {
    /// The number with which the program exits.
    pub fn exit_code(self) -> u8
        ensures { result ≡ exit_code self }
    {
        match self {
            Status::Ended => 0,
            Status::Trapped => 1,
            Status::Going => 2,
            Status::BadSource => 3,
            Status::OverLimit => 4,
            Status::Fault => 5,
            Status::BadWords => 6,
            Status::BadInput => 7,
            Status::NoMemory => 8,
        }
    }

    /// The status of a run of an image, by its ending.
    pub(crate) fn of_machine(ending: Ending) -> Status
        ensures is { result ≡ status_of_machine ending }
        ensures done { IsDone result }
    {
        match ending {
            Ending::Ended => Status::Ended,
            Ending::Trap(_) | Ending::Fault(_) => Status::Trapped,
            Ending::Going => Status::Going,
        }
    }

    /// The status of a run by the meaning, by its ending.
    pub(crate) fn of_units(ending: UnitEnding) -> Status
        ensures is { result ≡ status_of_units ending }
        ensures done { IsDone result }
    {
        match ending {
            UnitEnding::Ended => Status::Ended,
            UnitEnding::Trap(_) => Status::Trapped,
            UnitEnding::Going => Status::Going,
        }
    }
    /// The status of a run of code by its meaning, by its ending.
    pub(crate) fn of_code(ending: CodeEnding) -> Status
        ensures is { result ≡ status_of_code ending }
        ensures done { IsDone result }
    {
        match ending {
            CodeEnding::Ended => Status::Ended,
            CodeEnding::Trap(_) | CodeEnding::Stuck(_) => Status::Trapped,
            CodeEnding::Going => Status::Going,
        }
    }
}
