//! The allocator's rounds: after each there is a cost, which never rises, and a bound that no
//! allocation beats.
//!
//! [`start`](Rounds::start) begins with home routes and prices of nothing. Each
//! [`round`](Rounds::round) changes the prices of registers, memory pairs and ties by how often a
//! family of least paths wants them, and makes routes by these prices: a greedy plan for the ties,
//! the strands in the order of what they pay, each laid through what those before it left. From the
//! cheapest routes seen a search goes on that lets strands overlap for a while (al_kick), led by the
//! prices of the bound. What is cheapest then is settled, so that no change of one strand or one variable makes it cheaper, and
//! kept where it costs no more than what was before. The Lagrange value of prices bounds the cost
//! of every admitted flow. Beside the prices that routes are made by, a round raises others, for the
//! sake of that value alone (net_ascent), and keeps them where it is no lower. The line of a round
//! has the greatest value of all these so far, rounded up.
//! [`grant`](Rounds::grant) makes so many rounds, or as many as a [`Watch`] wants.
//!
//! `specs/Ascents` says when prices are raised, `specs/Stages` has the prices of rounds and the
//! bounds that they give, `specs/Tried` what a round tried, `specs/Lines` what a line says,
//! `specs/Watches` how many rounds are made, and `specs/Allocations` what is left at the end. Read
//! them in this order. `specs/Rounds` says what one [`Rounds`] keeps and how it goes on, and `laws`
//! has what follows. `specs/Candidates` is inner.
#![tactic(auto)]

mod allocation;
mod copies;
mod improving;
pub mod laws;
mod raised;
mod room;
mod rounds;
mod sweeps;
mod tried;
mod trying;
mod value;
mod watch;

pub use allocation::Allocation;
pub use rounds::Rounds;
pub use tried::{Outcome, Tried};
pub use watch::{Verdict, Watch};
