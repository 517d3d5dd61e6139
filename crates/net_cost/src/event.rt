// What a choice of places may add to the code.

ghost use Rattle.std.specs.Prelude.{◌≡◌, ◌<◌};
ghost use Rattle.net_cost.specs.Weights.{number, event_count};

/// A move, a memory operand or an immediate. An address is near where its displacement has 8 bits,
/// and far where it has 32.
#[derive(Clone, Copy, Debug, PartialEq, Eq)]
pub enum Event {
    /// A move from a register to another register.
    E0,
    /// A move from memory to a register, near.
    E1,
    /// A move from a register to memory, near.
    E2,
    /// A move from memory to a register, far.
    E3,
    /// A move from a register to memory, far.
    E4,
    /// A move of a constant to a register.
    E5,
    /// A memory operand in place of a register, near.
    E6,
    /// A memory operand in place of a register, far.
    E7,
    /// The memory operand of a store of an immediate or of PUSH, near.
    E8,
    /// The memory operand of a store of an immediate or of PUSH, far.
    E9,
    /// An immediate of 8 bits in place of a register.
    E10,
    /// An immediate of 32 bits in place of a register.
    E11,
    /// An immediate of 32 bits in place of a register in IMUL.
    E12,
}

impl Event {
    /// The event's number, from 0.
    pub fn number(self) -> usize
        ensures value { result ≡ number self }
        ensures below { result < event_count }
    {
        match self {
            Event::E0 => 0,
            Event::E1 => 1,
            Event::E2 => 2,
            Event::E3 => 3,
            Event::E4 => 4,
            Event::E5 => 5,
            Event::E6 => 6,
            Event::E7 => 7,
            Event::E8 => 8,
            Event::E9 => 9,
            Event::E10 => 10,
            Event::E11 => 11,
            Event::E12 => 12,
        }
    }
}
