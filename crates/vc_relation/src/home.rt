// Where a parameter or a local of a procedure is.

use pra_base::VarId;

/// The home of a parameter or a local: a variable of the selected code, the cell of an argument of
/// the call, or the call's aggregates from a word on.
#[derive(Clone, Copy, Debug, PartialEq, Eq)]
pub enum Home {
    Var(VarId),
    Cell(u32),
    Frame(u32),
}
