// What is still to be done in a run, and what a unit is due for.

use ob_syntax::{RArg, RArm, RExpr, RStmt, RVar};

/// A part of what is still to be done.
#[derive(Clone, Copy)]
pub enum Task<'a> {
    /// These statements, one after the other.
    Statements(&'a [RStmt]),
    /// The next test of a WHILE, and its turns behind it.
    While(&'a RExpr, &'a [RStmt]),
    /// The next test of a REPEAT, and its turns behind it.
    Until(&'a [RStmt], &'a RExpr),
    /// The running call ends.
    Return,
}

/// What a unit is due for: a statement that begins, or a test.
#[derive(Clone, Copy)]
pub enum Due<'a> {
    Assign(&'a RVar, &'a RExpr),
    If(&'a [RArm], &'a [RStmt]),
    Call(u32, &'a [RArg]),
    Read(&'a RVar),
    Write(&'a RExpr),
    WriteLine,
    /// The test of a WHILE.
    While(&'a RExpr, &'a [RStmt]),
    /// The test of a REPEAT.
    Until(&'a [RStmt], &'a RExpr),
}

/// How a statement begins: with a unit, or with the statements of a REPEAT.
#[derive(Clone, Copy)]
pub enum First<'a> {
    Due(Due<'a>),
    Repeat(&'a [RStmt], &'a RExpr),
}
