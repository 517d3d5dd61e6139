//! Prices as they are kept of a procedure once it is compiled.
//!
//! A module can have millions of ties, and the numbers of each are kept until all of it is
//! compiled. So here stand only those that are not 0, where `net_form` has room for all. Contracts
//! see the prices that were packed, and `unpacked` gives them back.
#![tactic(auto)]

mod prices;

pub use prices::KeptPrices;
