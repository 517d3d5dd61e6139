// The code that runs.

ghost use Rattle.std.specs.Prelude.{◌≡◌, slice_get};
ghost use Rattle.std.specs.Option.{option_copied};
ghost use Rattle.vc_code.specs.Selected.{no_proc, code_of};
ghost use Rattle.vc_run.specs.Procs.{procs_of};

use pra_base::{ProcId, VProc};
use pra_list::Seq;
use std::alloc::Global;

/// The procedures, with an empty one that stands for each number past the end.
#[derive(Drop)]
pub struct Program<'a> {
    pub codes: &'a [&'a VProc],
    empty: VProc,
    ghost is_empty: { empty ≡ no_proc },
}

impl<'a> Program<'a> {
    pub fn new(alloc: Global, codes: &'a [&'a VProc]) -> Program<'a>
        ensures { result.codes.now ≡ codes.now }
    {
        Program {
            codes,
            empty: VProc {
                id: ProcId(0),
                args: 0,
                aggregates: 0,
                vars: Seq::new(alloc),
                blocks: Seq::new(alloc),
            },
        }
    }

    /// The procedure, if it is there.
    pub fn find(&self, proc: ProcId) -> Option<&VProc>
        ensures { option_copied result ≡ slice_get (procs_of self.now.codes.now) proc.0 }
    {
        match self.codes.get(proc.0 as usize) {
            Some(code) => Some(*code),
            None => None,
        }
    }

    pub fn procedure(&self, proc: ProcId) -> &VProc
        ensures { result.now ≡ code_of (procs_of self.now.codes.now) proc.0 }
    {
        match self.codes.get(proc.0 as usize) {
            Some(code) => *code,
            None => &self.empty,
        }
    }
}
