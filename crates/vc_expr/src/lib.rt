//! Expressions to selected code: operators, signs and conditions whose operands are in variables
//! already. The walk over the trees of expressions is the layer above.
//!
//! # What is promised
//!
//! An operand is in a variable that has its value's word (`HasValue` of `specs/Operators`). Each
//! call adds code at the end of the open block `at`, which stays open, and answers a variable:
//!
//! - `select_operator` for each binary operator: `Operates`, which says that running on from the
//!   end of what the block had comes to the operator's value in that variable, or to its trap. `&`
//!   and OR are asked for truth values (`Suits`), and evaluate both sides. It is made of
//!   `select_product`, `select_arithmetic`, `select_division`, `select_relation` and
//!   `select_bitwise`.
//! - `select_negation` for the sign `-`: `Converts`, the same for one operand; `select_inversion`
//!   for `~`, where it is 0 or 1: `ConvertsBit`.
//!
//! A condition closes its block: `branch_by` a relation (`BranchesBy` of `specs/Branches`),
//! `branch_on` a truth value (`BranchesOn`). Control comes to the begin of the block that the test
//! chooses.
//!
//! `&` and OR with a right side that can trap take blocks. `open_choice` (`OpensChoice` of
//! `specs/Choices`) gives a new variable what stands where the left side decides, and opens two
//! blocks; the caller selects the test of the left side from `at`, with `test_of` as its targets,
//! and then the right side from the block `right`; `close_choice` (`ClosesChoice`) gives its value
//! to the variable, and the caller goes on at the block `behind`. The law `choices_give_operators`
//! puts their runs together.
//!
//! All this holds over all code that is made later, and for every state. The value is that of the
//! meaning of expressions (ob_syntax, `specs/Operators`), and has 32 bits. Nothing but the running
//! call changes: no object, no event, no word of the input; and of its variables those below
//! `first` are as they were.
//!
//! # Valid code
//!
//! Beside its meaning each function says three static facts of what it adds:
//!
//! - `counts`, of `specs/Counts`: at most so many instructions, local variables, constants and
//!   blocks. An operation adds its start besides, which is nothing at a temporary.
//! - `valid`, `StaysValid` of `specs/Rules`: code that keeps the rules of valid and sized code as
//!   far as it has come (`KeepsRules`) still keeps them. No Push, Call, Clear or Return is added,
//!   no constant is written, every number is in range.
//! - `reads`, of `specs/Readable`: a certificate that what is read has been written is kept on
//!   (`Certifies`), where the operands may be read at the end of `at`; the result may be read then,
//!   and what might be read of the first variables still may (`Publishes`). A dividend may not.
//!
//! A certificate names for each block what it may read at its begin; of a new block anything may be
//! named until a block leads to it (law `certificates_name_blocks`). At the end it gives that no
//! local variable is live at the entry, and no dividend after its division (law
//! `certified_code_reads_what_is_written`); with the rules it makes the finished code valid (law
//! `finished_code_is_valid`). That each change of code keeps rules and certificates, and what it
//! adds, stands in `proofs/Rules`, `proofs/Certificates` and `proofs/Counting`.
//!
//! The latter two ask of an operation that no temporary is both its operands (`OperandsApart`).
//!
//! # Division
//!
//! The machine divides by a positive number, rounding toward zero. A divisor is tested (trap
//! Divide) unless it is a positive constant. Whether the remainder is negative is 0 or 1: DIV takes
//! it from the quotient; MOD makes all bits or none of it, which leaves the divisor or 0 to add.
//!
//! ```text
//! x DIV y    copy v4, x  checkpos y  divmod v5, v6, v4, y  cmpset.l v8, v6, k7 = 0  sub v5, v8
//! x MOD y    the same up to cmpset   neg v8  and v8, y  add v6, v8
//! ```
//!
//! By a constant that is a power of two the low bits of a word in two's complement are the
//! remainder, also of a number below 0. The others, shifted to the right with the sign, are the
//! quotient, rounded down, and DIV by 1 is its operand. A product by such a constant is a shift to
//! the left, where the constant takes an immediate of 32 bits (`power`).
//!
//! ```text
//! x MOD 8    copy v4, x  and v4, k5 = 7
//! x DIV 8    copy v4, x  sar v4, 3
//! x * 256    copy v4, x  shl v4, 8
//! ```
//!
//! # The start of an operation
//!
//! The processor's instructions compute in place. So an operation begins with its left or only
//! operand in a variable that may be written (`start`): a constant is set and a variable of the
//! source is copied into a new one; a temporary that was made for the operand is written itself. A
//! temporary is a local variable from number `first` on, where `first` is how many variables the
//! code had before the operands were selected.
//!
//! ```text
//! x - 12, with x in v0, a constant k3 = 12, first = 3        (x - 12) * y, with v4 and y in v1
//! copy v4, v0      sub v4, k3                                 mul v4, v1
//! ```
#![tactic(auto)]

pub mod arithmetic;
pub mod bits;
pub mod branch;
pub mod choice;
pub mod division;
pub mod laws;
pub mod operator;
pub mod power;
pub mod relation;
pub mod sign;
pub mod start;

pub use arithmetic::select_arithmetic;
pub use bits::select_bitwise;
pub use branch::{Targets, branch_by, branch_on};
pub use choice::{Choice, close_choice, open_choice, test_of};
pub use division::select_division;
pub use operator::select_operator;
pub use relation::select_relation;
pub use sign::{select_inversion, select_negation};
