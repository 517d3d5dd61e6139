// What was fetched before: an instruction is decoded at its first step, and later steps find it
// here. A place has one entry that may hold it, and shares that with the places `ENTRIES` bytes
// away.

ghost use Rattle.std.specs.Prelude.{◌≡◌, ℕ, List, IfOk, slice_get, Some};
ghost use Rattle.ia_step.specs.Fetched.{AreFetched};
ghost use Rattle.ia_step.specs.Step.{fetch as fetch_of};

use crate::out::FaultKind;
use crate::processor::Processor;
use ia_code::ins::Ins;
use std::alloc::{AllocError, Global};

/// How many entries there are, so that loops of as many bytes of code share none.
pub const ENTRIES: usize = 4096;

/// What fetching answers where EIP is at this place.
#[derive(Clone, Copy)]
pub struct Fetched {
    pub at: u32,
    pub answer: Result<(Ins, u32), FaultKind>,
}

/// Entries for a place that is in no code.
pub fn nothing_fetched(alloc: Global) -> Result<Vec<Fetched>, AllocError>
    ensures { IfOk result (λ entries. (code : List ℕ) → AreFetched code entries.items) }
{
    let outside = Fetched {
        at: 0,
        answer: Err(FaultKind::Fetch),
    };
    vec![in alloc; outside; ENTRIES]
}

/// The number of the entry that holds what fetching answers now. Where it held another place, it is
/// filled anew.
pub fn look_up(entries: &mut [Fetched], processor: &Processor) -> usize
    requires { AreFetched processor.now.code entries.old }
    ensures kept { AreFetched processor.now.code entries.new }
    ensures found { slice_get entries.new result ≡
        Some (record { at = processor.now.eip; answer = fetch_of processor.now }) }
{
    let eip = processor.eip();
    let index = eip as usize % ENTRIES;
    if entries[index].at != eip {
        entries[index] = Fetched {
            at: eip,
            answer: processor.fetch(),
        };
    }
    index
}
