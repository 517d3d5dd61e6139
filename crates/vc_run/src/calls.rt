// The calls that wait, with the bytes of frames below each.

ghost use Rattle.std.specs.Prelude.{◌≡◌, ◌+◌, ◌++◌, ◌∷◌, [], IfOk, OnOk, List, length, reverse, take};
ghost use Rattle.std.specs.Prelude.{slice_get, slice_index_or};
ghost use Rattle.std.specs.Option.{option_copied, option_map};
ghost use Rattle.pra_base.specs.declared.code.VProc.{VProc};
ghost use Rattle.vc_code.specs.Machine.{depth, with_aggregate, with_argument};
ghost use Rattle.vc_code.specs.Numbered.{changed_at};
ghost use Rattle.vc_code.specs.Selected.{shape};
ghost use Rattle.vc_run.specs.Calls.{call_of, with_waiting, Popped};

use crate::live::LiveCall;
use pra_base::{OutOfMemory, ProcId};
use std::alloc::Global;
use std::marker::Model;
use vc_code::Held;

/// The most words that all live calls together hold.
const MAX_LIVE_WORDS: usize = 16_777_216;

/// The sum of two counts of bytes; what does not fit 64 bits no memory could hold.
///
/// # Errors
///
/// Where it does not fit.
pub fn sum_of(bytes: u64, more: u32) -> Result<u64, OutOfMemory>
    ensures { IfOk result (λ sum. sum ≡ more + bytes) }
{
    bytes.checked_add(u64::from(more)).ok_or(OutOfMemory)
}

/// The calls below the running one, the module's body first, and the bytes of each procedure's
/// frame.
#[derive(Drop)]
pub struct Waiting {
    frames: Vec<u32>,
    calls: Vec<LiveCall>,
    /// The bytes of the frames of all of them.
    bytes: u64,
    /// How many words they hold together.
    words: usize,
}

impl Model for Waiting {
    ghost use Rattle.vc_run.specs.Calls.{Below, AreSummed, below_of};

    ghost Value = { Below };

    ghost view = { λ w. below_of w.frames.items w.calls.items };

    ghost invariant = { λ w. AreSummed w.frames.items w.calls.items w.bytes };
}

impl Waiting {
    /// # Errors
    ///
    /// Where there is no memory for the frames.
    pub fn new(alloc: Global, frames: &[u32]) -> Result<Waiting, OutOfMemory>
        ensures { IfOk result (λ w. w ≡ record { frames = frames.now; calls = [] }) }
    {
        Ok(Waiting {
            frames: Vec::from_slice(alloc, frames)?,
            calls: Vec::new(alloc),
            bytes: 0,
            words: 0,
        })
    }

    pub fn len(&self) -> usize
        ensures { result ≡ length self.now.calls }
    {
        self.calls.len()
    }

    /// The bytes of a procedure's frame.
    pub fn frame(&self, proc: ProcId) -> u32
        ensures { result ≡ slice_index_or self.now.frames proc.0 0 }
    {
        match self.frames.get(proc.0 as usize) {
            Some(bytes) => *bytes,
            None => 0,
        }
    }

    /// The call with so many calls below it.
    pub fn get(&self, n: usize) -> Option<&LiveCall>
        ensures { let call = option_map call_of (option_copied result) in
            call ≡ slice_get self.now.calls n }
    {
        self.calls.get(n)
    }

    /// The bytes of the frames of so many calls.
    pub fn under(&self, n: usize) -> u64
        ensures { (procs : List VProc) →
            result ≡ depth (shape procs self.now.frames) (reverse (take n self.now.calls)) }
    {
        match self.calls.get(n) {
            Some(call) => call.under,
            None => self.bytes,
        }
    }

    /// Whether so many words more may be live, beside so many of the running call.
    pub fn has_room(&self, running: usize, more: usize) -> bool {
        self.words.saturating_add(running).saturating_add(more) <= MAX_LIVE_WORDS
    }

    /// One call more waits.
    ///
    /// # Errors
    ///
    /// Where there is no memory for it, and where the bytes of all frames do not fit 64 bits.
    pub fn push(&mut self, call: LiveCall) -> Result<(), OutOfMemory>
        ensures { OnOk result
            (self.new ≡ with_waiting self.old (self.old.calls ++ call_of call ∷ [])) }
    {
        let bytes = sum_of(self.bytes, self.frame(call.proc))?;
        let words = self.words.saturating_add(call.words());
        let mut call = call;
        call.under = self.bytes;
        self.calls.push(call)?;
        self.bytes = bytes;
        self.words = words;
        Ok(())
    }

    /// The latest call, which waits no longer.
    pub fn pop(&mut self) -> Option<LiveCall>
        ensures { Popped result self.old self.new }
    {
        let call = self.calls.pop()?;
        self.bytes = call.under;
        self.words = self.words.saturating_sub(call.words());
        Some(call)
    }

    /// Writes a word of a call's aggregates.
    pub fn set_aggregate(&mut self, n: usize, at: usize, h: Held)
        ensures { let calls = changed_at self.old.calls n (λ c. with_aggregate c at h) in
            self.new ≡ with_waiting self.old calls }
    {
        if n < self.calls.len() {
            self.calls[n].set_aggregate(at, h);
        }
    }

    /// Writes an argument cell of a call.
    pub fn set_argument(&mut self, n: usize, i: u32, h: Held)
        ensures { let calls = changed_at self.old.calls n (λ c. with_argument c i h) in
            self.new ≡ with_waiting self.old calls }
    {
        if n < self.calls.len() {
            self.calls[n].set_argument(i, h);
        }
    }
}
