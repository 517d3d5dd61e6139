//! The broken rule of a module that is told is the first of all that are broken.
//!
//! ob_syntax says what a module is read as, or at which rule its reading stops (`IsBroken`). Here
//! stands which rules it breaks at all: for each phrase, what breaks a rule in it at a place,
//! whatever else is broken there. Read the specs `Faults` (the words), `InExpressions`,
//! `InStatements`, `InTypes` and `InDeclarations` (a line for each part of a phrase and for each
//! test of it, where the tests are those of ob_syntax), and `Breaks` (the module). The laws in
//! [`laws`] say that the reading stops at the least of these.
#![tactic(auto)]

pub mod laws;
