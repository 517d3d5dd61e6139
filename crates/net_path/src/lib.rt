//! Least priced paths of a strand: where a strand is at each of its layers so that what its places
//! and the ways between them cost, with the prices of registers, memory pairs and ties, is least.
//!
//! [`least`] finds such a path from the place and to the place that it is asked for, past all that
//! other strands have taken, or says that there is none. [`renew`] finds one that is free to begin
//! and end anywhere, and puts it into the family of paths that a [`Work`] keeps: the family that
//! the Lagrange value of a network is read from, and that prices follow. [`costs_from`] tells by
//! one search what a least path costs from each place at the strand's first layer, and [`costs_to`]
//! what one costs to each place at its last. All do what they say for each network that `net_build`
//! makes; they take no memory, since [`Work::reserve`] took it before.
//!
//! # Rows
//!
//! A row is sixteen numbers, one for each place at one layer: the six registers, memory, the
//! constant's place, the six both places, and two that are no place. Forwards the numbers would be
//! what it costs to come there; here they are the rest: what the cheapest way from there to the end
//! costs, with the place's own cost. So the rows are filled from the last layer to the first, each
//! in place over what its places cost alone, and the path is read from the first layer to the last:
//! at each the next place is the one whose rest makes up for what is left.
//!
//! ```text
//!   layer    0          1          2          3
//!          row 0  ←   row 1  ←   row 2  ←   row 3     what is left to pay, from the last
//!            Eax   →    Eax   →    Mem   →    Mem      the places, from the first
//! ```
//!
//! What no path reaches is `UNREACHED`, 2^62, and stays above `REACHED`, 2^61, whatever is added to
//! it: the costs of one path stay below 2^60. A number is therefore never tested before it is added
//! to, and nothing overflows.
//!
//! # Crossbars
//!
//! Between instructions a strand may move from any place to any place. Its step of a row does not
//! try all 14 times 14 ways. The cost of a move depends on five things only: whether it leaves a
//! register, a both place, memory or the constant's place, and to which of these it goes; and
//! staying, or taking the same register's other form, is cheaper than changing register. So a step
//! takes the least number of the six registers and of the six both places, and makes each number of
//! the next row from two minima: of staying, and of the best way on. The weights of the events are
//! asked once for each strand, at its block's depth.
//!
//! ```text
//!   row of the layer after    Eax .. Edi     Mem    Const   EaxM .. EdiM
//!                                |             |      |          |
//!                             least          number  number    least      four numbers
//!                                \_____________|______|__________/
//!                                      + what the way costs
//!   row of the layer before   each place: the lesser of that and of staying
//! ```
//!
//! # Against the order of the layers
//!
//! What it costs to come to each place of the last layer would want rows that are filled forwards.
//! [`costs_to`] turns the rows round instead, so that the first layer stands last, and fills them
//! as ever: a path read against its order costs what it costs read in its order, if a step pays
//! what it pays to have come from there. So the crossbar is handed what steps cost, from each class
//! of places to each and where a value stays in its register, and there are two such tables:
//! `forwards` and `backwards`.
//!
//! # Which of the least paths
//!
//! A strand has many least paths, and any is right; but prices follow the family, so that paths
//! which all lie in one register make that dear and then all leave it together. So `renew` compares
//! pairs: the cost first, and where costs are equal a second sum, which rows carry beside them. It
//! is what the path adds to the overload of the family: each register at a layer with l other paths
//! in it counts 2 l - 1, the growth of a sum of squares. `least` passes over seconds: the functions
//! that work on rows are made twice, with them and without.
//!
//! # What a layer of a strand takes
//!
//! What all places of a layer share is asked once: the set of those that are open, made of the
//! mask, the registers in use and the wanted ends as one number, and the prices of the six
//! registers. Then the row is filled by a bit and a price for each place, and the extras that are
//! there, mostly none or one, are paid at their places. Rows are moved by `costs_to` alone, which
//! turns them round.
//!
//! # Strands that pass by
//!
//! Most strands of a large procedure have nothing to do in most of its blocks. Where a strand is no
//! constant, no extra and no memory pair concerns it, memory is in each of its masks, and its ties
//! ask no more of memory than of other places, the path that stays in memory is a least one, at
//! the price of its ties: all other costs are at least 0. It is then written without any row. It
//! is the path that the rows would lead to, since they begin in memory, and stay, where that is as
//! good; in `renew` too, unless an end may be drawn to a register that costs nothing. Other seconds
//! below 0 are of registers with a price, through which no path goes at that cost.
//!
//! All of that but the ties depends on the network alone, and [`Work::reserve`] notes it of each
//! strand. So a search asks for a note and for the ties, which mostly have no number but 0.
//!
//! # Where it is
//!
//! `ways` of the crossbar's moves and the step over rows are in `crossbar`, what steps cost in
//! either direction in `directions`; the costs of the places of one layer (masks, ends, what is
//! taken, prices, extras) in `cells`, with the pairs' in `pairs` and the ties' in `ties`; `spread`
//! has the seconds and the counts that they come from; `rows` goes over the layers, `path` reads
//! the path, `passing` finds the paths that need no rows, `search` puts them together, `family`
//! renews one path of a family, `starts` has the costs from each place and `stops` those to each.
//! No cost of an edge is ever stored.
#![tactic(auto)]

mod cells;
mod crossbar;
mod directions;
mod family;
mod pairs;
mod passing;
mod path;
mod rows;
mod search;
mod spread;
mod starts;
mod stops;
mod ties;
mod work;

pub use family::renew;
pub use search::{NoPath, least};
pub use starts::costs_from;
pub use stops::costs_to;
pub use work::Work;
