//! The compiler behind the code of procedures, whoever made it, and behind the checker.
//!
//! What is compiled is a `CodeFile` of cert_form: codes with names and a number of data words.
//! `compile_codes` takes the procedures in order of number: it asks an [`Allocator`] for routes
//! through the network of the code, and placed code is made of both and assembled. Only one
//! procedure's network stands at a time. What is kept of a procedure is its name, its frame, its
//! code, the routes that the image carries, and what the allocator leaves beside them.
//!
//! There are two allocators. `Granted` finds routes by rounds and leaves a line for each, and the
//! prices of the last bound; `compile` is `compile_codes` with it. `Given` has routes that anybody
//! may have found, which the network has to admit; it leaves one line, with the cost and the bound
//! that were given with them, and no prices.
//!
//! A module goes the same way: `code_of_module` has the code of each procedure selected and made
//! tidy, and `compile_module` compiles that.
//!
//! `specs/Compiled` says what is promised for any allocator. Of code that can run (`IsRunnable`) the
//! image follows the code until it gets stuck, with the frames that are kept; it carries the codes
//! and the flows of the routes, which are admitted; and of routes, prices and lines stands what the
//! allocator says of them (`IsBuiltBy`). Of a module the image does what the module means, on every
//! input of words, both ways and never at a fault (`IsCompiledBy`). For rounds that is `IsGranted`,
//! and `IsBuilt` and `IsCompiled` are the whole; for routes that are given it is `IsGiven`
//! (`specs/Given`). `laws` has what the lines say.
#![tactic(auto)]

mod allocator;
mod compiling;
mod given;
mod granted;
pub mod laws;
mod module;
mod output;
mod visits;

pub use allocator::{Allocated, Allocator};
pub use compiling::{compile, compile_codes};
pub use given::{Given, GivenRoutes};
pub use granted::Granted;
pub use module::{code_of_module, compile_module, compile_module_codes};
pub use output::{CompileFault, Compiled};
