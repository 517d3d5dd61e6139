//! Tests of the public calls of single layers that no word of the tool reaches.
//!
//! Of the front `lexical` and `grammar`. Of selection `operands` and `liveness`. Of the network
//! `networks`, `network_routes` with `verdicts`, and `moves`. Of the machine `instructions`. And
//! `lists` has lists and owned values.
//!
//! Each module has tables, in which a row costs no proof, and the functions that read them. They
//! stand in one crate because each crate of tests proves and builds the layers below anew. Nothing
//! here is used by another crate.
#![tactic(auto)]

#[cfg(test)]
mod grammar;
#[cfg(test)]
mod instructions;
#[cfg(test)]
mod lexical;
#[cfg(test)]
mod lists;
#[cfg(test)]
mod liveness;
#[cfg(test)]
mod moves;
#[cfg(test)]
mod network_routes;
#[cfg(test)]
mod networks;
#[cfg(test)]
mod operands;
#[cfg(test)]
mod verdicts;
