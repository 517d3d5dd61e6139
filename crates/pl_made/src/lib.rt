//! Placed code as a placement makes it: the code and the flow of admitted routes stand behind it,
//! and it is valid.
//!
//! `specs/Made` says how it is made: block for block the code's instructions at the places of the
//! flow, and before each of them and before the end what `moves` of pl_moves answers for the pairs
//! of that layer. [`laws`] says what follows. Admitted routes allow it: the pairs of each layer
//! before an instruction or an end can be moved at once, as `moves` asks, and they need at most the
//! moves that may stand there (`layers_can_move`, `layers_need_few_moves`). With pl_routed it runs
//! as the selected code does.
#![tactic(auto)]

pub mod laws;
