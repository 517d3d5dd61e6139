//! Placed code of admitted routes does what the selected code does, however the routes were found.
//!
//! `specs/Routed` says what is asked: the code is valid and sized, the routes are admitted in its
//! network, code and flow stand behind the placed code, and that is valid. `laws` says what
//! follows: it corresponds to the selected code, so its machine carries every step of the selected
//! code's, of code that gets stuck until then.
//!
//! The proof goes from the network to values: a variable that is present at a layer is in one
//! strand there (`proofs/Strands`), which one edge brings to one place (`proofs/Present`); what
//! masks and liveness say of the place is in `proofs/Masks` and `proofs/Lives`; the moves of a
//! layer transfer one layer's places to the next (`proofs/Transferred`), and each instruction fits
//! (`proofs/Fitted`).
#![tactic(auto)]

pub mod laws;
