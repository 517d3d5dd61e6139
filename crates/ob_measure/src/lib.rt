//! The limits on a module whose names are resolved, and its storage: how many words its types,
//! variables and procedures have, and where each variable stands.
//!
//! [`measure`] gives the checked module exactly where every quantity is at most its maximum, and
//! else the first that is above, with its number. Read first `WellFormed` in the specs of
//! ob_syntax, which says what the quantities are, in which order they are tested and where
//! variables stand; then `Measuring`. The layer above may use that both answers are those of its
//! own reading, of which [`DraftModule`] has what matters here.
#![tactic(auto)]

mod draft;
mod fault;
mod lent;
mod procedure;
mod quantities;
mod storage;
mod types;

pub use draft::{DraftModule, measure};
pub use fault::MeasureFault;
