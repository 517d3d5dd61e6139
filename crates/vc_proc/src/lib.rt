//! The selected code of one procedure of a checked module, and what holds of all of them together.
//!
//! # What is promised
//!
//! What `select_proc` answers stands in `specs/Selected`. The code embodies the procedure, as
//! vc_stmt has it: from the begin of a call to its return it does what the statements mean, if the
//! calls in them do. It keeps all rules of valid and of sized code, its Calls have the Pushes that
//! their callees take, and it has no more than so much for each node of the statements. Its blocks
//! stand in the order of the text, but that the test of a WHILE stands behind its statements; each
//! is in as many loops as what it is made for (`depths`).
//!
//! Where there is such code for each procedure, all calls do what they mean
//! (`calls_follow_their_meaning` of [`laws`]), by an induction on how much deeper calls may stand:
//! the step into a call makes up for one call less, and the call's frame is tested against the
//! stack's limit as the meaning tests it. So the module's code carries each step of its meaning,
//! for all frames and every input, and is never stuck (`modules_follow_their_meaning`). Where each
//! procedure may stand in the place of an old one, all of them together may
//! (`procedures_are_replaced_together`).
//!
//! # How the code is made
//!
//! ```text
//! PROCEDURE P(VAR p: INTEGER; n: INTEGER);   homes     v0 = p    v1 = n    v2 = t
//! VAR t: INTEGER; r: RECORD a: INTEGER END;            r is in the aggregates
//! BEGIN ..                                   block 0   clear   set v2, 0   and the statements
//! ```
//!
//! `homes` gives each parameter and local its home. `opening` makes the code at whose end the
//! statements are selected (`opened` of `specs/Opening`): one block, with the instructions after
//! which the call has begun as vc_call asks it, its aggregates and locals 0. `finish` leaves the
//! last open block by Return, and brings the blocks into the order in which they are listed
//! (`specs/Finished`).
//!
//! The opening has one open block, and behind the statements as many are open (`hands_on` of
//! vc_stmt). So there `finish` meets one open block, and answers want of memory or of a number
//! alone.
//!
//! # How the proof goes
//!
//! `Entering`: a call that begins comes through the opening to where its statements begin.
//! `Embodying`: from there what vc_stmt promises of the statements leads to the state before
//! Return. `OpenRules`: the code before the statements keeps the rules, with a certificate by which
//! at the entry the variables of parameters alone may be read. `Ordered`: the rules, the
//! certificate and the runs in the new order. `Sizes` counts, and `Answered` joins all. Of a whole
//! module: `Followed`, and `Together` for procedures in the place of others.
#![tactic(auto)]

pub mod finish;
pub mod homes;
pub mod laws;
pub mod number;
pub mod opening;
pub mod select;
pub mod words;

pub use select::select_proc;
