//! Two machines of live calls beside each other, as a simulation between them takes it.
//!
//! `specs/Coupled` says what a relation of live calls owes, and when two states are the same but
//! for the homes of their calls. One instruction whose operands hold the same leaves two such
//! states (`proofs/Applied`, `performed`), where the first of them is not stuck.
#![tactic(auto)]
