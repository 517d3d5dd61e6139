//! Whether a certificate holds: its costs and its bounds, tested without the rounds that made them.
//!
//! `check_cert` answers Yes exactly where no reason against the certificate holds, and else the
//! first procedure of which one holds, with the first one. From Yes follows, for each procedure of
//! the certificate, that its routes are admitted in the network of its code and cost its total, and
//! that no flow that is admitted there costs less than its bound: by the law of duality, since the
//! bound is no more than the value at the prices that are listed.
//!
//! That value is computed here by a pass over the layers of each strand (`pass`), from the first to
//! the last: a row has for each place of a layer what it costs at least to come there, and the next
//! row tries each place from each place. It shares the definitions with the search that made the
//! certificate, and no code. What ties ask is summed up once for all strands (`ties`), what else is
//! paid at a place is asked layer by layer (`tolls`).
//!
//! A text may be small and its network large. So the places of routes are counted against the code
//! before a network is made (net_build, `has_places`), and a network is no larger than its text.
//!
//! Read specs/Reasons: what is claimed of a procedure, and the answer; then specs/Listed and, for
//! the pass, specs/Tolls and specs/Pass.
#![tactic(auto)]

mod check;
mod code;
mod listed;
mod pass;
mod places;
mod routes;
mod sums;
mod ties;
mod tolls;
mod value;

pub use check::{CertAnswer, Reason, check_cert};
