//! Where an allocator begins: home routes, which hold for the network of any valid code, and greedy
//! plans, which give each tie group a place.
//!
//! # Home routes
//!
//! `home` puts each strand at home wherever it may be there, in memory, or nowhere for a constant,
//! and elsewhere into a register. Its answer is admitted. A strand that is no constant is away from
//! memory for one of three causes alone: its mask has no memory there; or it stays in its place
//! across an instruction, and its mask has none on the other side; or it is an end of the
//! instruction's memory pair, whose other end is in memory.
//!
//! Strands are taken one after the other, and each is given the first register that it may have and
//! that no strand before it has where it is. That there is always one is a law of the networks of
//! valid code (`HasRoom` of net_laws), which `home` asks for beside that the network is formed.
//!
//! Most strands have their home in all their masks and give way nowhere. These are at home
//! throughout, and neither their layers nor what is in use is asked (`stays_home` in `yielding`).
//!
//! Read specs/HomeRoutes: `AreHome` and its causes are what a layer above may use. specs/Choice,
//! Yielding and Placed are inner: the place that is chosen, the table of who gives way in a memory
//! pair, and what holds while strands are given their paths.
//!
//! # Plans
//!
//! `plan` goes over the tie groups by rising number and keeps for each layer of all blocks the
//! registers that earlier groups have there. A place is open to a group where the mask of each of
//! its ends has it and its register is not used at any end's layer; masks and registers are asked
//! of all ends before any path is looked for. What an open place costs is the sum over the strands
//! with an end in the group of a least path with these ends at the place: each strand once, alone
//! in the network (`costs_at` in `weights`). A strand with one end in the group takes one search
//! for all places; one with both, as in a block that is its own loop, takes one for each open
//! place. The open place that costs least is taken, and of equal ones the first. Memory is open to
//! every group, so there is always one. Where it is the only one, as once the registers are in use,
//! it is taken and no path is looked for.
//!
//! ```text
//!   block 0 ends at its exit           block 1 begins at its entry
//!
//!      strand 0, of v   --- tie ---   strand 2, of v      group 0:  Eax     both ends at Eax
//!      strand 1, of u   --- tie ---   strand 3, of u      group 1:  Ecx     Eax is used there
//! ```
//!
//! What is promised is `IsGreedy` of al_laws, and `laws` has what a layer above may conclude:
//! places are in the masks of their ends, and two groups at one layer are in two registers.
//! specs/GroupEnds, OpenPlaces, Weighed, Totals, Cheapest and Planned are inner.
#![tactic(auto)]

mod cheapest;
mod choice;
pub mod laws;
mod members;
mod planning;
mod routing;
mod side;
mod weights;
mod yielding;

pub use planning::{plan, plan_in};
pub use routing::home;
