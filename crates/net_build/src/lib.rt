//! The network of a procedure, made from its selected code and its liveness.
//!
//! `build` makes it, exactly as the definition has it (net_form, specs/Network), in three steps.
//!
//! `lists_of` makes the lists: blocks, strands with their masks, extras (what operands cost more at
//! a place than in a register), memory pairs and ties. A strand begins at a block's entry or where
//! its variable has a role, a law on what is live (proofs/Begun), so only variables with roles are
//! looked at after the entry. The strand of an operand is looked for among the strands of its
//! block. Strands are in order (proofs/InOrder), so the strand that a tie goes to is found by
//! bisection among those of its block, where it does not stand as far behind the first of them as
//! the one that the tie comes from does in its own block. Most variables have no role at most
//! layers: there the operand table is not asked for its masks (`naming`). What is live behind an
//! instruction is so before the next one (proofs/LiveAt), so liveness is asked once for both.
//!
//! Then the tie groups. Ends that ties join are put under each other, always the greater under the
//! lesser, and each end that is looked up is put under its grandparent; so the top of a group is
//! its least end (Tarjan, Efficiency of a good but not linear set union algorithm, JACM 1975). What
//! an end stands under never changes its label, the least end of its group, and that is all that
//! the proofs need (specs/Labels). Groups are numbered in one pass by their least ends.
//!
//! Last the index, in time linear in the lists. Where each strand's items begin is counted. Strands
//! by their variables, ties by the strands that they go to, ends of memory pairs by their strands
//! and ends of strands by their tie groups are then put in one pass, each behind those of its owner
//! (specs/Owners, `ArePut`). Memory pairs are in the order of their instructions
//! (proofs/PairsInOrder), so the ends of one strand come by their layers.
//!
//! `has_places` tells whether lists of places fit the strands without making these, in the order in
//! which they would be made (specs/Fitting).
//!
//! Read specs/Lists first, then specs/Labels, Grouped and Owners. A layer above hands in sized code
//! with its liveness, and gets the network of the code.
#![tactic(auto)]

mod beside;
mod extra_columns;
mod extras;
mod fitting;
mod groups;
mod index;
mod labels;
mod lists;
mod members;
mod naming;
mod network;
mod order;
mod owners;
mod pairs;
mod strands;
mod ties;

pub use extras::extras_of;
pub use fitting::has_places;
pub use lists::{Lists, lists_of};
pub use network::build;
pub use pairs::pairs_of;
pub use strands::strands_of;
pub use ties::ties_of;
