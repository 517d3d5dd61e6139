//! Emission: the instructions of the machine that placed code becomes.
//!
//! Read first `specs/Emission`, which says for each instruction, move, end and procedure of placed
//! code what it becomes; a jump or a call there names what it goes to. `specs/Operands` says what
//! an operand at a place is for the machine, and where the frame of a call keeps arguments, slots
//! and aggregates. `specs/Code` lays the procedures of a module out one behind the other, and gives
//! jumps and calls their distances.
//!
//! The functions here answer exactly these definitions for one instruction, one end, and the
//! beginning of a procedure; where the variables are is asked once a procedure (`Frame`). The laws
//! say that what valid placed code becomes is in the table of bytes (`specs/Sound`), that an image
//! holds it where there are no more instructions and blocks than a module has (`specs/Counts`), and
//! where the code of the traps stands.
//!
//! `piece_of` gives the bytes of a whole procedure from a place on, in linear time: its
//! instructions, then the places of its blocks, then its bytes with each jump aimed. Where a callee
//! begins need not be known: the distances of calls are noted, and whatever they are, filling them
//! in gives the bytes of the procedure's instructions (`specs/Open`). `front_piece` gives what
//! stands before the procedures.
//!
//! `specs/Carries` says of an image's bytes alone which selected code and which flows they carry.
#![tactic(auto)]

mod body;
mod bytes;
mod emission;
mod frame;
mod front;
mod item;
pub mod laws;
mod layout;
mod operation;
mod piece;
mod table;

pub use bytes::{CallSite, Piece};
pub use emission::{Items, emit, emit_end, prologue};
pub use frame::{Frame, memory_of};
pub use front::front_piece;
pub use item::{Item, Operand, Target};
pub use layout::distance;
pub use piece::piece_of;
