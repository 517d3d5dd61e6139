// The calls of an object that fails where it is told to.

ghost use Rattle.std.specs.Prelude.{◌≡◌, ◌≤◌, ◌+◌, ◌-◌, ◌^◌, ◌↔◌, min, OnErr, IsErr};
ghost use Rattle.pra_io.specs.Causes.{Rose};
ghost use Rattle.pra_io.specs.Calls.{FailsNext, Counts, no_calls};

use crate::streams::Failed;

/// A count after one more, which stands still at its last number.
pub(crate) fn one_more(count: u64) -> u64
    ensures value { result ≡ min (count + 1) (2 ^ 64 - 1) }
    ensures rose { Rose count result }
    ensures later { count ≤ result }
{
    count.saturating_add(1)
}

/// Calls, numbered from 1, some of which are to fail, and the faults so far.
#[derive(Debug, Drop)]
pub struct Calls {
    failing: Vec<u64>,
    made: u64,
    faults: u64,
}

impl Calls {
    /// No call was made.
    pub(crate) fn new(failing: Vec<u64>) -> Calls
        ensures { result ≡ no_calls failing }
    {
        Calls {
            failing,
            made: 0,
            faults: 0,
        }
    }

    pub(crate) fn faults(&self) -> u64
        ensures { result ≡ self.now.faults }
    {
        self.faults
    }

    /// Begins the next call, which fails where its number is listed.
    pub(crate) fn begin(&mut self) -> Result<(), Failed>
        ensures listed { IsErr result ↔ FailsNext self.old }
        ensures counted { Counts self.old self.new result }
        ensures rose { OnErr result (Rose self.old.faults self.new.faults) }
        ensures later { self.old.faults ≤ self.new.faults }
    {
        self.made = one_more(self.made);
        if self.failing.contains(&self.made) {
            return Err(self.fail());
        }
        Ok(())
    }

    /// Counts a fault of the call that has begun.
    pub(crate) fn fail(&mut self) -> Failed
        ensures counted { self.new ≡ record self.old {
          faults = min (self.old.faults + 1)
              (2 ^ 64 - 1);
        } }
        ensures rose { Rose self.old.faults self.new.faults }
        ensures later { self.old.faults ≤ self.new.faults }
    {
        self.faults = one_more(self.faults);
        Failed
    }
}
