// What is known of the number that a variable holds.

use pra_base::VarId;

/// The variable holds a number between two, which are among them.
#[derive(Clone, Copy, Debug, PartialEq, Eq, Drop)]
pub struct Fact {
    pub var: VarId,
    pub low: i32,
    pub high: i32,
}
