// Where values are kept while a module runs: no addresses and no words.

use ob_syntax::Value;
use pra_base::ProcId;
use pra_list::Seq;

/// A variable or a parameter that is declared as a whole. A parameter or a local belongs to a call,
/// which is named by its depth: the module's body is at depth 1, a call from there at depth 2.
#[derive(Clone, Copy)]
pub enum Object {
    /// A variable of the module, by its number.
    Module(u32),
    /// A value parameter, by the depth of its call and its number.
    Param(u32, u32),
    /// A local variable, by the depth of its call and its number.
    Local(u32, u32),
}

/// An object, or a part of one: the numbers of the fields and elements that lead to it.
#[derive(Drop)]
pub struct Location {
    pub object: Object,
    pub path: Seq<u32>,
}

/// A call that has not returned yet: its procedure, and for each of its parameters that is a VAR
/// parameter the location that was lent to it.
#[derive(Drop)]
pub struct LiveCall {
    pub proc: ProcId,
    pub lent: Seq<Option<Location>>,
}

/// What a call gives a parameter: the value that it starts with, or the location that is lent to a
/// VAR parameter.
#[derive(Drop)]
pub enum Argument {
    Passed(Value),
    Lent(Location),
}
