//! What the networks of valid code have room for.
//!
//! A network made from any masks may admit no flow at all. That of valid code always does: each
//! strand can be at home (in memory, or nowhere for a constant) at all layers but those beside an
//! instruction that wants it elsewhere, and there are registers for all that are wanted elsewhere
//! at once. `networks_have_room` is that law, with `HasRoom` as its words:
//!
//! - at an instruction a strand that can't be at home has fewer rivals than registers that it may
//!   be in, so whoever gives registers to strands in any order finds one for each;
//! - of a memory pair the left end may stay in memory and the right end then gives way, and no
//!   strand would have to do both;
//! - where blocks begin and end, all strands can be at home, so ties hold.
//!
//! `networks_are_in_order` is the law that the lists of a network stand in order: extras by strand,
//! layer and place, ties by the strands that they join, each of a strand that is there. With the
//! beginnings in the network's index it gives a path's extras, layer by layer, without a search.
//!
//! `networks_are_built` gives all that calls above ask of a network in one record, `IsBuilt`: that
//! it is in bounds, in order and with room; that its strands stand by block, first layer and
//! variable, and that two of one variable in one block share no layer; that a strand has one end of
//! a memory pair at a layer at most, and a pair two variables; and that a tie goes from the exit of
//! a block to the entry of one that follows, two at most from a strand, and to a strand one at most
//! from each block.
//!
//! `clean_copies_lose_nothing` compares with plain spilling, where a value is in a register or in
//! memory and never in both at once: what the network of those eight places admits, the network of
//! all fourteen admits at the same cost, so the both places can only make code cheaper.
//!
//! Read specs/Homes, specs/Ordered for the order, and specs/Built. A layer above that makes routes
//! may ask for `HasRoom` of its network, since it has that of every valid code by the law. Of
//! proofs/ it may use the lemmas too: `Runs` (a strand is a run of layers at which its variable is
//! present, and a variable has one strand at most at two layers side by side), `Found` (where a
//! variable is present, `strand_of` is its strand), `Pairs` (the ends of memory pairs are operands
//! of one instruction), `Ties` (what ties join), `Rows` (the shapes of the operand table's rows).
#![tactic(auto)]

pub mod laws;
