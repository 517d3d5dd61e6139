//! The walk over statements that selects code for them.
//!
//! # What is promised
//!
//! A run stands at the end of what the open block `from` has so far, in a state that matches that
//! of the meaning (`Matches` of `specs/Does`): the store is represented, the same is written, the
//! same words of the input are taken; no argument is pushed, and the calls that wait stand where
//! they stood, with their variables. Running on through the code that was added for statements, and
//! over all code that is made later, it completes as they do (`Does`, with the meaning's execution
//! as its last parameter, over `Completes` of `specs/Completes`):
//!
//! - where the meaning is Normal, it comes to the end of the open block `to`, in a state that
//!   matches the one after the statements;
//! - where it traps, the run traps, with the same written and as many words taken;
//! - where a budget of the meaning ran out (Going), the run goes on and has done the same, after
//!   `least` steps or more, for any `least` up to the turns of loops. So it is carried steps that
//!   are said of each statement, and a loop without statements goes on as long as its turns.
//!
//! What is asked of statements is a Bool that computes (`is_sound` of `specs/Sound`): they are
//! typed, and what they lend has an address.
//!
//! # Calls
//!
//! Of the calls in a body one thing is asked, `CallsFollow` of `specs/Calls`: from a state before
//! the Call of a procedure, with the arguments pushed (`StandsAtCall`), the run completes as the
//! meaning's `call` does, and has then returned (`HasReturned`). It speaks of the live calls and of
//! what is around the statements (`Around` of ob_mean), and of no code. So code of one procedure is
//! selected without a word on the code of others; that all calls do what they mean is an induction
//! over how much deeper calls may stand, where the step into a call makes up for one call less.
//!
//! ```text
//! program, w, least, a : Around       CallsFollow program w least a
//!   a.calls, a.call                   each call of a procedure, by a.call, for at least `least`
//!                                     steps where it goes on
//! Does g old new from to sound exec   for any w whose code of the procedure has grown from `new`
//! ```
//!
//! # Valid and sized code
//!
//! Beside its meaning each function says what the code that it adds keeps of valid and of sized
//! code, over a certificate of what each block may read (vc_expr, `specs/Readable`):
//!
//! - `counts`, of `specs/Amounts`: for each node of the statements at most 4 instructions, 3 local
//!   variables, 4 constants and 2 blocks are added, and a parameter never. It holds of any tree.
//! - `ready`, of `specs/Ready`: code that was ready for more at the end of the block `from`
//!   (`IsReady` of vc_select) is ready at the end of the block `to`, with a certificate that is the
//!   same for blocks that were there, and other blocks that were ready still are (`KeepsReady`).
//!   What is asked is the Bool `is_sound` again: so each call passes as many arguments as the
//!   procedure has parameters, by `parameter_counts` of the module.
//! - `text`, of `specs/Depths`: which blocks are added, in the order in which they are listed, and
//!   how deep each of them stands: in as many loops as what it is made for, at most 5 (`depths_of`,
//!   over `GoesOn` of vc_build).
//! - `hands_on`: as many blocks are open as before (`HandsOn` of vc_build). So where one block was
//!   open, all are closed but the block `to`.
//!
//! A block that is opened before control comes to it may read homes at its begin and nothing else
//! (`ReadsHomes`): these may be read at the end of each block that is ready, so that the end of a
//! loop's statements gives its test what its begin gave.
//!
//! # How to read it
//!
//! `specs/` in this order: `Completes`, `Calls`, `Does`, `Sound`; then `Stores` (what gives a value
//! to a variable of the source), `Passes` (arguments), `Blocks`, `Loops` and `Arms` (blocks that
//! wait, the meaning of loops, an IF arm after arm); `Amounts` and `Ready`.
//!
//! The lemmas: `Completing` puts runs together (`completes_then`, `completes_value`), `Matching`
//! says which states match on (`matches_on` behind an expression), `Jumping` and `Waiting` are for
//! blocks. Each form has a file. Of what is kept, `Entering` has the certificates of opened blocks,
//! `Proceeding` puts pieces together, and the files `Ready..` have a lemma for each form.
//!
//! # The blocks
//!
//! A loop is a block for its test, one for its statements and one behind. Blocks in a loop are one
//! deeper. An arm of an IF has a block for its statements and one where control goes that passes
//! it. What follows ELSE stands in the last of these; without ELSE the last arm leads past its
//! statements to what follows the IF, so that no block is empty. An IF without arms, which no text
//! has, is its other statements alone.
//!
//! Each block is listed when it is entered (`order` of `Ctx`). That is the order of the text, but
//! that the test of a WHILE stands behind its statements, as that of a REPEAT does (`turn`): it is
//! reached by one jump where the loop begins, and a turn of the loop needs none.
//!
//! ```text
//! WHILE a DO b END; c    entered: .. a, b, c    listed: .. jump to a    b    a, branch to b    c
//! ```
#![tactic(auto)]

pub mod blocks;
pub mod call;
pub mod select;
pub mod store;
pub mod write;

pub use blocks::{Loop, open_arm, open_loop};
pub use select::{select_statement, select_statements};
pub use store::{select_assignment, select_read};
pub use write::{select_line, select_write};
