//! Tests of what no word of the tool reaches.
//!
//! `calls` has whole calls over objects in memory that move few bytes at once or fail in
//! mid-stream, `kept` prices as they are kept of a procedure, and `texts` costs that no module has,
//! a certificate with each kind of part, and drawn numbers. What words reach stands in the rows of
//! tests/, outside of the crates. Nothing here is used by another crate.
#![tactic(auto)]

#[cfg(test)]
mod calls;
#[cfg(test)]
mod kept;
#[cfg(test)]
mod texts;
