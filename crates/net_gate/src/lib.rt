//! What a network admits and what routes cost, both exact and without memory.
//!
//! `admitted` is Ok exactly where the flow of the routes is admitted by the network, and else tells
//! the first rule that they break: rules come by kind (masks, edges across instructions, registers,
//! memory pairs, ties) and within a kind by their numbers. `cost` is what the flow of the routes
//! costs. Both walk the routes place by place and never make the list of edges that the definitions
//! speak of.
//!
//! Read specs/Broken: what is broken, and which of it comes first. What is admitted, what a flow
//! costs and how registers in use are marked are definitions of the crate of networks. specs/InUse
//! says which of the registers that are used twice comes first; that is inner.
//!
//! A layer above may use both calls on the network of sized code and on routes with a place for
//! each layer of each strand, and may use the room again after `admitted`, which says nothing of
//! what it left there.
#![tactic(auto)]

mod admission;
mod broken;
mod bundles;
mod edges;
mod pairs;
mod places;
mod weigh;

pub use admission::admitted;
pub use broken::Broken;
pub use weigh::cost;
