//! What the checker answers is what selection of code takes: laid out, typed, within the limits and
//! short.
//!
//! [`laws`] joins the clauses of ob_check's `check`, and of ob_read's `read` and `resolve`, which
//! say that the answer `IsChecked` and that the tree `IsParsed`, with the words of vc_typed:
//! `IsSelectable` (`specs/TypedModules` there) says that storage is laid out, each body is typed,
//! what is lent to VAR parameters has an address, and nothing is above its maximum;
//! `HaveTheirNodes` (`specs/Nodes` there), that each body has at most the nodes of the text. A
//! compiler that has the one cites the laws for the other. There are such modules: that of
//! `specs/Sample` is one.
//!
//! The limits on a procedure alone would allow a module of many great procedures, whose code is
//! longer than an image may be. The limit on tokens does not: all procedures together have at most
//! as many nodes and scalar locals as the source has tokens (`nodes_are_tokens`), so at most
//! 65,536, which is `IsShort` of `specs/Short` (`modules_are_short`). Of what the checker answers
//! this is `checked_modules_are_short`.
//!
//! # How it is proved
//!
//! What a tree has of nodes and of names of variables is within its tokens, a line for each
//! production (`proofs/TreeTokens`). The bodies that are read are those of the tree, which vc_typed
//! has; the variables that are read are as many as the names (`proofs/ReadVariables`).
#![tactic(auto)]

pub mod laws;
