//! Prices that are raised by blocks, so that the bound comes near the optimum in some ten sweeps.
//!
//! [`ascend`] changes prices so that the network is worth more at them. A strand alone is a chain
//! of steps, and a search forwards and one backwards tell at each step what the whole strand costs
//! at least by its place there: its min-marginals. The difference between two places is what the
//! strand would pay to have its way. So with all else fixed the six registers of a layer are priced
//! at once: strands bid, and prices lie between the least and the greatest ones at which whoever
//! has a register and whoever has none are content (`bundles`; Demange, Gale and Sotomayor,
//! Multi-item auctions, Journal of Political Economy 94, 1986). A memory pair is two strands and
//! one place (`steps`). A tie is two strands and thirteen numbers: what one side would pay at each
//! place is handed to the other (`ties`). None of these steps lowers the value, since what some pay
//! more then is what others would have paid: this is ascent of a dual by blocks of its coordinates
//! (Wainwright, Jaakkola and Willsky, MAP estimation via agreement on trees, IEEE Transactions on
//! Information Theory 51, 2005; Globerson and Jaakkola, Fixing max-product, NIPS 2007), in sweeps
//! that carry their rows along (Kolmogorov, Convergent tree-reweighted message passing, IEEE PAMI
//! 28, 2006, and A new look at reweighted message passing, IEEE PAMI 37, 2015).
//!
//! # A sweep
//!
//! Rows (`rows`, `strands`) say what a strand pays up to a step, or from there on. A sweep goes
//! through blocks and steps in order or against it (`sweep`, `steps`) and turns the rows of one
//! kind into rows of the other in place, one row for the two layers of an instruction: 64 bytes for
//! each place of a strand between two crossbars. Ties hand on before a block is swept. At the back
//! edge of a loop the rows of one strand are made anew, and both sides get half.
//!
//! A sweep that takes all that strands would pay where it meets the first full layer leaves nothing
//! where registers are shorter still. So sweeps forwards set prices only at pressed layers
//! (`pressed`), of several ties of a strand the last takes the rest, and prices move by multiples
//! of a power of two that gets finer (`pace`).
//!
//! # What is promised
//!
//! That prices stay in range, nothing else: by the law of duality any such prices give a bound,
//! and the value of a network at prices is `lagrange` of net_price. So a number that leads nowhere
//! is read as nothing, sums of 32 bits may wrap, and costs end at `CLOSED`. The ascent's own sum of
//! the value is exact where none was cut short. An [`AscentRoom`] is all memory that it takes.
#![tactic(auto)]

mod bundles;
mod costs;
mod layout;
mod lists;
mod pace;
mod pressed;
mod prices;
mod raise;
mod room;
mod rows;
mod steps;
mod strands;
mod sweep;
mod ties;

pub use raise::ascend;
pub use room::AscentRoom;
