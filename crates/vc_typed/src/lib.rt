//! A checked module is laid out, typed and within the limits: what selection of code takes of it.
//!
//! # What is promised
//!
//! The laws are in [`laws`]. Of what a well-formed module within the limits stands for,
//! `modules_are_selectable` says all in one word, `IsSelectable` of `specs/TypedModules`:
//!
//! - storage is laid out (`IsLaidOut` of vc_relation);
//! - each procedure stands at its number, its statements are typed, and what they lend whole to VAR
//!   parameters has an address; the module's body is procedure 0, without parameters and locals;
//! - nothing is above its maximum.
//!
//! `bodies_have_their_nodes` says besides, of a tree that tokens derive, that each body has at most
//! the nodes that the limit counts in the text, so that code of so much for a node keeps within
//! bounds. Both are met: `a_sample_is_selectable` has a module with each kind of variable.
//!
//! # What to read
//!
//! `specs/Typing` has the type of each expression and variable of a resolved tree, and whether all
//! in it is as it must be; `TypedStatements` the same of statements; `TypedModules` what is said of
//! all procedures; `Nodes` the nodes of resolved trees; `Fitting` what a place of a reading has of
//! a checked module: its types and procedures are the module's, and each variable in its scopes is
//! declared there with that type.
//!
//! # How it is proved
//!
//! The reading of a tree knows a place only, and not yet the module. So one pass over declarations
//! (`proofs/DeclarationTrees`, `ProcedureTrees`) gives what each place has of the one before it,
//! and that in any checked module that has what was declared, the place behind fits where the one
//! before does. The module that the whole stands for has it (`Bodies`). Statements in a place that
//! fits are typed (`StatementTrees`). The nodes go by the forms of the grammar, a line for each
//! production (`TreeNodes`).
//!
//! Layers above find the equations of the words in `proofs/Equations`, `StatementEquations` and
//! `NodeEquations`.
#![tactic(auto)]

pub mod laws;
