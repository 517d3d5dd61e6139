//! Whether selected code is valid, for code that nobody has proved to be.
//!
//! Selection makes code that is valid by proof. Code from elsewhere, written by hand for a test or
//! read from a certificate, is put to `is_valid`, which tries the rules one by one: those of each
//! instruction, those of each block, and those of the whole. It answers true exactly where the code
//! is valid. How many arguments a callee takes is known of code in a list of procedures alone:
//! there `is_counted` answers true exactly where each call is of a procedure of the list, behind
//! one Push for each argument. `liveness_of_valid` asks both, and that the code keeps the limits
//! and its id, of what should be one procedure of a list (specs/Listed).
//!
//! Read specs/Rules: what of `IsValid` is said of one instruction and of one block.
#![tactic(auto)]

mod blocks;
mod instructions;
mod listed;
mod whole;

pub use blocks::is_counted;
pub use listed::liveness_of_valid;
pub use whole::is_valid;
