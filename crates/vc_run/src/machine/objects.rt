// The words of objects.

ghost use Rattle.std.specs.Prelude.{◌≡◌, ◌/◌, IfOk, List, OnOk, Some, count_by, reverse};
ghost use Rattle.std.specs.Prelude.{slice_get};
ghost use Rattle.std.specs.List.{list_any};
ghost use Rattle.std.specs.Option.{option_copied, option_map};
ghost use Rattle.pra_base.specs.declared.code.VProc.{VProc};
ghost use Rattle.vc_code.specs.Machine.{object, word_at as word_at_of, cell, is_param};
ghost use Rattle.vc_code.specs.Machine.{with_object, with_calls, with_aggregate, with_argument};
ghost use Rattle.vc_code.specs.Numbered.{holds_at, has_sum, has_below, words_at, changed_at};
ghost use Rattle.vc_code.specs.Selected.{shape};
ghost use Rattle.vc_run.specs.Calls.{call_of};
ghost use Rattle.vc_run.specs.Stands.{calls_in, changed, state_of, whole_of, sizes_of};

use super::Execution;
use crate::calls::sum_of;
use crate::live::{LiveCall, set_word};
use crate::program::Program;
use pra_base::{OutOfMemory, VProc, VarKind};
use vc_code::{Held, Object, Value};

const WORD_BYTES: u32 = 4;

/// What the word at an offset in bytes holds, or `None` where the offset is not that of one whole
/// word of the object.
fn word_at(words: &[Held], offset: u32) -> Option<Held>
    ensures { result ≡ word_at_of words.now offset }
{
    if offset % WORD_BYTES == 0 {
        words.get((offset / WORD_BYTES) as usize).copied()
    } else {
        None
    }
}

// How many variables have the argument.
fn params_of(code: &VProc, argument: u32) -> usize
    ensures { result ≡ count_by (is_param argument) code.now.vars }
{
    code.vars
        .as_slice()
        .iter()
        .filter(|kind| matches!(kind, VarKind::Param(i) if *i == argument))
        .count()
}

// Whether a variable's value stands in the cell of the argument.
fn is_named(code: &VProc, argument: u32) -> bool
    ensures { result ≡ list_any (is_param argument) code.now.vars }
{
    params_of(code, argument) > 0
}

impl Execution {
    // The live call with so many calls below it.
    fn call_at(&self, n: usize) -> Option<&LiveCall>
        ensures { let call = option_map call_of (option_copied result) in
            call ≡ slice_get (calls_in self.now) n }
    {
        if n == self.below.len() {
            return Some(&self.top);
        }
        self.below.get(n)
    }

    // Whether the call is live, and its frame and those below have so many bytes.
    fn has_sum(&self, n: usize, sum: u64) -> Result<bool, OutOfMemory>
        ensures { IfOk result (λ has. (procs : List VProc) →
            let sizes = shape procs self.now.below.frames in
            has ≡ holds_at (calls_in self.now) n (has_sum sizes sum)) }
    {
        match self.call_at(n) {
            None => Ok(false),
            Some(call) => {
                let bytes = sum_of(self.below.under(n), self.below.frame(call.proc))?;
                Ok(sum == bytes)
            }
        }
    }

    // Whether the call is live, and the frames below it have so many bytes.
    fn has_below(&self, n: usize, below: u64) -> bool
        ensures { (procs : List VProc) →
            let sizes = shape procs self.now.below.frames in
            result ≡ holds_at (calls_in self.now) n (has_below sizes below) }
    {
        n <= self.below.len() && below == self.below.under(n)
    }
}

impl Execution {
    // A word of a call's aggregates, which are looked at where `has` says so.
    fn aggregate(&self, has: bool, n: usize, offset: u32) -> Option<Held>
        ensures { let words = words_at has (calls_in self.now) n (λ c. c.aggregates) in
            result ≡ word_at_of words offset }
    {
        match self.call_at(n) {
            Some(call) => {
                if has {
                    word_at(&call.aggregates, offset)
                } else {
                    word_at(&[], offset)
                }
            }
            None => word_at(&[], offset),
        }
    }

    // The word of an argument cell, which is looked at where `has` says so.
    fn argument(&self, program: &Program, has: bool, n: usize, i: u32, offset: u32) -> Option<Held>
        ensures { let sizes = sizes_of program.now self.now in
            let words = words_at has (calls_in self.now) n (λ c. cell sizes c i) in
            result ≡ word_at_of words offset }
    {
        match self.call_at(n) {
            Some(call) => {
                if has && !is_named(program.procedure(call.proc), i) {
                    match call.argument(i) {
                        Some(held) => word_at(&[held], offset),
                        None => word_at(&[], offset),
                    }
                } else {
                    word_at(&[], offset)
                }
            }
            None => word_at(&[], offset),
        }
    }

    /// A word of an object.
    ///
    /// # Errors
    ///
    /// Where the bytes of frames do not fit 64 bits.
    pub fn word(
        &self,
        program: &Program,
        x: Object,
        offset: u32,
    ) -> Result<Option<Held>, OutOfMemory>
        ensures { IfOk result (λ word.
            let words = object (sizes_of program.now self.now) (state_of self.now) x in
            word ≡ word_at_of words offset) }
    {
        match x {
            Object::Data => Ok(word_at(&self.globals, offset)),
            Object::Aggregates { calls, sum } => {
                let has = self.has_sum(calls, sum)?;
                Ok(self.aggregate(has, calls, offset))
            }
            Object::Cell {
                calls,
                below,
                argument,
            } => {
                let has = self.has_below(calls, below);
                Ok(self.argument(program, has, calls, argument, offset))
            }
        }
    }

    fn set_aggregate(&mut self, n: usize, at: usize, h: Held)
        ensures { let calls = changed_at (calls_in self.old) n (λ c. with_aggregate c at h) in
            whole_of self.new ≡ changed (whole_of self.old)
            (with_calls (state_of self.old) (reverse calls)) }
    {
        if n == self.below.len() {
            self.top.set_aggregate(at, h);
        } else {
            self.below.set_aggregate(n, at, h);
        }
    }

    fn set_argument(&mut self, n: usize, i: u32, h: Held)
        ensures { let calls = changed_at (calls_in self.old) n (λ c. with_argument c i h) in
            whole_of self.new ≡ changed (whole_of self.old)
            (with_calls (state_of self.old) (reverse calls)) }
    {
        if n == self.below.len() {
            self.top.set_argument(i, h);
        } else {
            self.below.set_argument(n, i, h);
        }
    }

    /// Writes a number into a word of an object.
    ///
    /// # Errors
    ///
    /// Where the bytes of frames do not fit 64 bits.
    pub fn write(
        &mut self,
        program: &Program,
        x: Object,
        offset: u32,
        n: u32,
    ) -> Result<(), OutOfMemory>
        ensures { OnOk result (let s = state_of self.old in
            let held = Some (Value.Num n) in
            let sizes = sizes_of program.now self.old in
            whole_of self.new ≡ changed (whole_of self.old)
            (with_object sizes s x (offset / 4) held)) }
    {
        let at = (offset / WORD_BYTES) as usize;
        let held = Some(Value::Num(n));
        match x {
            Object::Data => set_word(&mut self.globals, at, held),
            Object::Aggregates { calls, sum } => {
                if self.has_sum(calls, sum)? {
                    self.set_aggregate(calls, at, held);
                }
            }
            Object::Cell {
                calls,
                below,
                argument,
            } => {
                if self.has_below(calls, below) {
                    self.set_argument(calls, argument, held);
                }
            }
        }
        Ok(())
    }
}
