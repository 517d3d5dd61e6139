// A live call.

ghost use Rattle.std.specs.Prelude.{◌≡◌, ◌<◌, ◌∷◌, [], IfOk, None, Some, slice_set};
ghost use Rattle.std.specs.Bool.{OnTrue, OnFalse};
ghost use Rattle.vc_code.specs.Machine.{last_get as last_get_of, with_aggregate, with_argument};
ghost use Rattle.vc_code.specs.Machine.{with_aggregates, zeroed};
ghost use Rattle.vc_code.specs.Selected.{begun, argument as argument_of, at_point};
ghost use Rattle.vc_run.specs.Calls.{call_of, after};

use pra_base::{BlockId, ProcId, VProc, VarId, VarKind};
use std::alloc::{AllocError, Global};
use vc_code::{Held, Value};

/// Up to two variables that are written.
pub type Targets = (Option<VarId>, Option<VarId>);

/// A call that has not returned (an activation record).
#[derive(Drop)]
pub struct LiveCall {
    pub proc: ProcId,
    pub aggregates: Vec<Held>,
    /// What the argument cells hold, in the order in which they stand in memory: the last argument
    /// first.
    pub arguments: Vec<Held>,
    pub block: BlockId,
    /// How many instructions of the block are behind it.
    pub index: usize,
    /// What the variables hold.
    pub held: Vec<Held>,
    /// The bytes of the frames below, once the call waits.
    pub under: u64,
}

// What a variable holds at the begin of a call: a parameter its argument.
fn argument(kind: VarKind, arguments: &[Held]) -> Held
    ensures { result ≡ argument_of arguments.now kind }
{
    match kind {
        VarKind::Param(number) => last_get(arguments, number).unwrap_or(None),
        VarKind::Plain | VarKind::Constant(_) => None,
    }
}

// The word of this number, of words that stand with the last one first.
fn last_get(words: &[Held], i: u32) -> Option<Held>
    ensures { result ≡ last_get_of words.now i }
{
    let i = i as usize;
    if i < words.len() {
        Some(words[words.len() - 1 - i])
    } else {
        None
    }
}

// Writes a word, if there are as many.
pub fn set_word(words: &mut Vec<Held>, at: usize, h: Held)
    ensures { words.new.items ≡ slice_set words.old.items at h }
{
    if at < words.len() {
        words[at] = h;
    }
}

impl LiveCall {
    /// A call before its first instruction.
    ///
    /// # Errors
    ///
    /// Where there is no memory for its aggregates and its variables.
    pub fn begin(
        alloc: Global,
        proc: ProcId,
        code: &VProc,
        arguments: Vec<Held>,
    ) -> Result<LiveCall, AllocError>
        ensures { IfOk result (λ call. call_of call ≡ begun proc.0 code.now arguments.items) }
    {
        let mut held = Vec::new(alloc);
        for kind in code.vars.as_slice() {
            held.push(argument(*kind, &arguments))?;
        }
        Ok(LiveCall {
            proc,
            aggregates: vec![in alloc; None; code.aggregates as usize]?,
            arguments,
            block: BlockId(0),
            index: 0,
            held,
            under: 0,
        })
    }

    /// How many words it holds.
    pub fn words(&self) -> usize {
        let named = self.held.len().saturating_add(self.arguments.len());
        named.saturating_add(self.aggregates.len())
    }

    /// On to the next instruction, unless there is a variable that wants a value.
    pub fn pass(&mut self, to: Targets) -> bool
        requires { self.old.index < usize.MAX }
        ensures passed { OnTrue result (after self.old to [] ≡ Some (call_of self.new)) }
        ensures stuck { OnFalse result (after self.old to [] ≡ None) }
        ensures kept { OnFalse result (self.new ≡ self.old) }
    {
        if to.0.is_some() {
            return false;
        }
        self.index += 1;
        true
    }

    /// On, with the value in the first target, unless a target is missing or wants another value.
    pub fn give(&mut self, to: Targets, x: Value) -> bool
        requires { self.old.index < usize.MAX }
        ensures passed { OnTrue result (after self.old to (x ∷ []) ≡ Some (call_of self.new)) }
        ensures stuck { OnFalse result (after self.old to (x ∷ []) ≡ None) }
        ensures kept { OnFalse result (self.new ≡ self.old) }
    {
        match to {
            (None, _) => {
                self.index += 1;
                true
            }
            (Some(v), None) => {
                let v = v.0 as usize;
                if v < self.held.len() {
                    self.held[v] = Some(x);
                    self.index += 1;
                    true
                } else {
                    false
                }
            }
            (Some(_), Some(_)) => false,
        }
    }

    /// On, with the values in the two targets in their order, unless a target is missing.
    pub fn give_both(&mut self, to: Targets, x: Value, y: Value) -> bool
        requires { self.old.index < usize.MAX }
        ensures passed { OnTrue result (after self.old to (x ∷ y ∷ []) ≡ Some (call_of self.new)) }
        ensures stuck { OnFalse result (after self.old to (x ∷ y ∷ []) ≡ None) }
        ensures kept { OnFalse result (self.new ≡ self.old) }
    {
        match to {
            (Some(v), Some(w)) => {
                let v = v.0 as usize;
                let w = w.0 as usize;
                if v < self.held.len() && w < self.held.len() {
                    self.held[v] = Some(x);
                    self.held[w] = Some(y);
                    self.index += 1;
                    true
                } else {
                    false
                }
            }
            (Some(_), None) | (None, _) => self.give(to, x),
        }
    }

    /// Writes a word of the aggregates.
    pub fn set_aggregate(&mut self, at: usize, h: Held)
        ensures value { call_of self.new ≡ with_aggregate (call_of self.old) at h }
        ensures kept { self.new.under ≡ self.old.under }
    {
        set_word(&mut self.aggregates, at, h);
    }

    /// Writes an argument cell.
    pub fn set_argument(&mut self, i: u32, h: Held)
        ensures value { call_of self.new ≡ with_argument (call_of self.old) i h }
        ensures kept { self.new.under ≡ self.old.under }
    {
        let last = self.arguments.len().saturating_sub(1);
        set_word(&mut self.arguments, last.saturating_sub(i as usize), h);
    }

    /// What an argument cell holds, if there is one.
    pub fn argument(&self, i: u32) -> Option<Held>
        ensures { result ≡ last_get_of (call_of self.now).args i }
    {
        last_get(&self.arguments, i)
    }

    /// All aggregates hold 0.
    pub fn clear(&mut self)
        ensures { let c = call_of self.old in
            call_of self.new ≡ with_aggregates c (zeroed c.aggregates) }
    {
        self.aggregates.fill(Some(Value::Num(0)));
    }

    /// To the begin of a block.
    pub fn jump(&mut self, block: BlockId)
        ensures { let c = call_of self.old in call_of self.new ≡ at_point c block.0 0 c.home.held }
    {
        self.block = block;
        self.index = 0;
    }
}
