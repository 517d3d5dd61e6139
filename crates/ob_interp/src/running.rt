// A run while it goes on.

use crate::memory::Memory;
use ob_mean::LiveCall;
use ob_syntax::Checked;
use pra_base::{OutEvent, TrapKind};
use pra_list::Seq;
use std::alloc::Global;
use std::collections::VecDeque;

/// The live calls, the running one first, and the bytes of their frames; what was assigned; what
/// was written; and how many words of the input were taken and how many units were begun.
#[derive(Drop)]
pub struct Running {
    pub calls: VecDeque<LiveCall>,
    pub stack: u64,
    pub memory: Memory,
    pub events: Seq<OutEvent>,
    pub taken: usize,
    pub units: u32,
}

/// The number of a field or element, and its type.
#[derive(Clone, Copy)]
pub struct Followed {
    pub part: u32,
    pub type_id: u32,
}

/// What a run goes on in: the module, the frames of its procedures, the whole input, and how many
/// units are granted.
#[derive(Clone, Copy)]
pub struct Setting<'a> {
    pub alloc: Global,
    pub program: &'a Checked,
    pub frames: &'a [u32],
    pub input: &'a [i32],
    pub granted: u32,
}

/// How a run, or a part of it, comes to a halt: as it should, by a trap, or where one more unit is
/// due than was granted.
#[derive(Clone, Copy, Debug, PartialEq, Eq)]
pub enum Finish {
    Done,
    Failed(TrapKind),
    Stopped,
}
