//! Parallel moves: values change their places all at once, done by MOV and XCHG one after the
//! other.
//!
//! `moves` promises the simultaneous assignment of its pairs, with no scratch register and no more
//! moves than the pairs have events. Read `specs/Meaning` first, which says what a move does to
//! anything that holds values, then `specs/Assignment` for what pairs assign. The layers above cite
//! both: the machine of placed code runs moves by `moved`, and so does whoever reads them back from
//! code.
#![tactic(auto)]

mod bring;
mod order;
mod transfer;

pub use order::moves;
pub use transfer::{Move, Pair, can_move};
