//! Selected code: the operands of an instruction, whether a procedure is near, what each
//! instruction does, and the machine that runs it.
//!
//! - `operands` answers the row of the operand table (`specs/Operands` of pra_base), `is_near`
//!   whether all slots and argument cells are within 8 bits.
//! - `operate` is what an instruction does on the values of its operands (`specs/Operation`), the
//!   same for selected and for placed code.
//! - `run_selected` is the run of the machine of selected code (`specs/Selected`), for every code.
//! - The laws: longer runs keep an ending and prolong the rest (`longer_runs_keep`), and the rules
//!   of valid code are not empty (`some_code_is_valid`).
//!
//! Read `specs/Operation` first, then `specs/Machine`, a machine of live calls of which nothing is
//! said but where values stand, then `specs/Selected`. A layer above that has a machine of live
//! calls of its own takes these definitions, `operate`, the types of `value`, `action` and
//! `outcome`, and `proofs/LongerRuns`; an executable one also `arithmetic`, `specs/Numbered` and
//! `proofs/NumberedCalls`. The types behind `run_selected` (`specs/Stands`) are this crate's own.
#![tactic(auto)]

pub mod action;
pub mod arithmetic;
pub mod laws;
mod live;
mod machine;
pub mod near;
pub mod operating;
pub mod outcome;
mod program;
pub mod row;
pub mod run;
pub mod value;

pub use action::{Action, Here};
pub use near::is_near;
pub use operating::operate;
pub use outcome::{Ending, Outcome};
pub use row::{OperandRow, Role, operands};
pub use run::run_selected;
pub use value::{Held, Object, Value};
