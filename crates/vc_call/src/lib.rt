//! The begin of a call: what the caller's arguments, and the code at the begin of a procedure, have
//! to leave so that the state of selected code has the store of the call that begins.
//!
//! `specs/Begins` says when the pushes that wait are the arguments of a procedure
//! (`ArePushed`), when the running call has begun (`HasBegun`: parameters have their arguments,
//! locals and aggregates are 0), and when its caller waits below it (`Waits`). The laws join that
//! to the relation of vc_relation: from the state before the call, and from nothing where the
//! module begins.
#![tactic(auto)]

pub mod laws;
