//! What an Oberon-0 module does: the meaning that the compiler is held to. Definitions in `specs/`,
//! and laws about them.
//!
//! # How to read it
//!
//! The meaning speaks of a checked module (`Checked` of ob_syntax), in which each name is a number.
//! Read the files of `specs/` in this order; each says one thing.
//!
//! 1. `Store`. A variable is an *object*: a variable of the module, or a value parameter or local
//!    of the call at some depth. A *location* is an object, or a part of one by a path of field and
//!    element numbers. A *store* has the values that were assigned, by location. There are no
//!    addresses and no words. A location to which nothing was assigned holds 0 or FALSE.
//! 2. `Designators`. Which location a variable with its selectors names. A VAR parameter is no
//!    object: it is the location that was lent to it, which may be a module variable, a part of
//!    one, or a variable of a call further down.
//! 3. `Expressions`. `value program e calls store` is the value of an expression, or the trap Index
//!    or Divide. What operators give on values stands in ob_syntax, `specs/Operators`: `+`, `-`,
//!    `*` and signs wrap at 32 bits, DIV and MOD are floored, `&` and OR look at the right side
//!    only where the left one does not decide.
//! 4. `Statements`. `exec program t around state` is what a statement does: Normal with the state
//!    after it, Trapped, or Going where a budget ran out. What is around a statement stands in one
//!    record: the turns that each execution of a loop may take, the live calls, and what a call
//!    does.
//! 5. `Program`. `around` says what a call does, by recursion on how much deeper calls may stand;
//!    `mean program frames input n` is the module's run, as a progress of pra_base: its ending, if
//!    it has one, what it wrote, and how many words it took.
//!
//! # An example
//!
//! ```text
//! VAR x: INTEGER; a: ARRAY 3 OF INTEGER;
//! PROCEDURE P(VAR p: INTEGER; n: INTEGER);
//! VAR t: INTEGER;
//! BEGIN t := n; p := p + t END P;
//! BEGIN P(a[1], x) END M.
//!
//! live calls, the running one first       its objects               p is the location
//! depth 2: P, lent a[1] and nothing       n: Param 2 1              Module 1, path 1
//!                                         t: Local 2 0
//! depth 1: the module's body              none
//! always                                  x: Module 0, a: Module 1
//! ```
//!
//! # What is fixed here
//!
//! - The indexes of a target are evaluated before the right side, and before Read takes its word;
//!   an index is tested before the next one is evaluated; all arguments are evaluated before the
//!   call.
//! - A turn of WHILE is a test and, where it is TRUE, the statements; so the last test is a turn
//!   too. A turn of REPEAT is the statements and a test. Each execution of a loop has the whole
//!   budget of turns.
//! - A call whose frame would take the frames of all live calls above `stack_limit` traps, also
//!   where the budget of calls is used up. The module's body is no call: its frame counts and is
//!   not tested.
//! - A tree that is not well typed means something too: operators look at the number of a value
//!   (TRUE is 1), an index of what is no array traps, and what is not declared counts as an
//!   INTEGER. A layer below that computes with words asks only what is declared, and, where it
//!   takes `&` bit by bit, that the sides are 0 or 1.
//!
//! # What the layers above use
//!
//! The laws (`laws`): a greater budget keeps an ending and prolongs the rest, so `mean` is one of
//! the machines that agreement speaks of; an assignment changes one location; parts of a location
//! are apart; calls begin anew. The lemmas behind them and one equation for each form stand in
//! `proofs/` (`Budgets`, `Stores`, `Equations`).
#![tactic(auto)]

pub mod laws;
pub mod store;

pub use store::{Argument, LiveCall, Location, Object};
