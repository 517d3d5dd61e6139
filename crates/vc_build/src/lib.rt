//! Selected code under construction: how it is made, and that it runs as it was made over all code
//! that is made of it later.
//!
//! # Making code
//!
//! Code grows by four changes (`build`): an instruction at the end of a block (`put`), the end of a
//! block (`close`), one more block (`open_block`) and one more variable (`declare`). A block is
//! open until it is closed: its end is a stand-in that no finished code has. What the changes are
//! stands in `specs/Grow`: `with_instr`, `with_end`, `with_open_block`, `with_variable`.
//!
//! `Grows old new` says what later code has of earlier code: the variables with their kinds, the
//! blocks, an open one perhaps longer, a closed one as it is. It is an order, so that what was made
//! by many changes is held by the code at the end. `GrowsAt b old new` says besides that of the old
//! blocks only b is another.
//!
//! How many blocks are open (`open_blocks`) is counted, since counts compose with no names of
//! blocks: code that goes on from one open block to another keeps the count (`HandsOn`), and an end
//! takes one off (`ClosesOne`). Where one block is open, all others are closed (`only_open`).
//!
//! # Running on
//!
//! A run stands behind all that a block has so far (`Stands`), in a procedure whose final code
//! holds what was made (`RunsIn`, which names the final code only as something that has grown from
//! it). There the next instruction is the one that is put, and the next end the one that is closed
//! (`added_code_runs`). Expressions change the running call alone, so what their code comes to is
//! written out, not related: `Reaches` is some steps to the same state with another running call,
//! `Traps` such steps that end in a trap, and `Yields` one of both, as a meaning is a value or a
//! trap.
//!
//! ```text
//! made:   block 3   load v4, [global 2]       <- Stands made 3: at index 1, with room for v5 = v4
//! put:    block 3   load v4, [global 2]   copy v5, v4      with_instr 3 (Copy v5 v4) made
//! later:  block 3   load v4, [global 2]   copy v5, v4   add v5, v1   jump 6
//! ```
//!
//! # What the layers above use
//!
//! The laws (`laws`), and of `proofs/` the lemmas behind them and what puts runs together: `Growth`
//! (each change: the new block, its length, where it is found in later code), `Open` (each change:
//! how many blocks are open; from one open block to another) and `Steps` (`yields_on`, which
//! carries a value of a part into the whole and a trap past it, `reaches_on`, `rests`, `performs`,
//! `leaves`, `gives`).
#![tactic(auto)]

pub mod build;
pub mod laws;

pub use build::{close, declare, open_block, put};
