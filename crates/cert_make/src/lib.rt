//! The certificate of what code was compiled to.
//!
//! `certificate_of` makes it of what the compiler keeps of each procedure: the code, the routes
//! that the image carries, an entry for each price of the last bound that is not 0, and the cost
//! and the bound of the last line. Codes and routes are moved; prices are unpacked.
//!
//! Promised is what it has of each procedure (`IsCertificateOf` of `specs/Made`). The law
//! `certificates_hold` says that such a certificate of compiled code holds: no reason against it is
//! there, so a check of it answers Yes or wants memory, and its costs and bounds are so. By
//! `certificates_are_whole` its text is read again.
//!
//! Read first `specs/Made`, then `laws`. The layer above uses `certificate_of` and the two laws.
#![tactic(auto)]

pub mod laws;
mod making;

pub use making::certificate_of;
