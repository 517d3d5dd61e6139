// Values and objects, as the machines of selected and of placed code have them alike.

/// What an address points into. The number of live calls keeps calls apart also where frames have
/// no bytes.
#[derive(Clone, Copy, Debug, PartialEq, Eq)]
pub enum Object {
    /// The module's data.
    Data,
    /// The aggregates of a live call, by the number of live calls below it and the bytes of its
    /// frame and of the frames below.
    Aggregates {
        calls: usize,
        sum: u64,
    },
    /// An argument of a live call, by the number of live calls below it, the bytes of the frames
    /// below it, and the argument's number.
    Cell {
        calls: usize,
        below: u64,
        argument: u32,
    },
}

/// A number of 32 bits, or an address: an object with an offset in bytes.
#[derive(Clone, Copy, Debug, PartialEq, Eq)]
pub enum Value {
    Num(u32),
    At(Object, u32),
}

/// What a register, a slot, a variable or a word has; `None` holds nothing.
pub type Held = Option<Value>;
