//! The network of a procedure: which places its variables may be at, what going from place to place
//! costs, and what two variables may not do at once. To choose places for all variables is to find
//! a flow in it of least cost (Koes and Goldstein, A Global Progressive Register Allocator, PLDI
//! 2006).
//!
//! # Layers, strands, places
//!
//! A block of n instructions has 2 n + 2 layers: its entry, one before and one after each
//! instruction, and its exit. A variable is present at a layer where it is live, or has just been
//! written. A strand is a run of layers of one block at which one variable is present; strands are
//! the commodities of the network. At each of its layers a strand is at one place: a register, its
//! own memory, both at once, or, for a constant, nowhere. Its mask says which places it may be at
//! there: those that the instruction beside the layer can use, without registers that it destroys.
//!
//! Here is the block `v := 3; v := v + k; Write v`, where k is the constant 4. R are the six
//! registers.
//!
//! ```text
//!  layer                      strand 0, of v        strand 1, of k
//!    0   entry
//!    |                                                         crossbar: places may change
//!    1   before  Set v, 3
//!    |                                                         across: each stays in its place
//!    2   after   Set v, 3     R Mem
//!    |                        \ | /                            crossbar
//!    3   before  Add v, k     R Mem  ---- pair ----  R Const
//!    |                        | |                              across
//!    4   after   Add v, k     R Mem
//!    |                        \ | /                            crossbar
//!    5   before  Write v      EAX EaxM                         EaxM is EAX and memory at once
//!    |
//!    6   after   Write v
//!    |
//!    7   exit
//! ```
//!
//! Between instructions moves may stand: such an edge is a crossbar's, and goes from any place to
//! any place. Across an instruction nothing moves. Both operands of Add are in its memory pair,
//! since an instruction has one memory operand at most. An extra stands where an operand costs more
//! than a register would: here for v in memory at layers 2 and 3, and for k as an immediate at
//! layer 3. Where a strand reaches the exit of its block and the variable is live at the entry of a
//! block that follows, a tie demands that both are at one place there; ends that ties join are a
//! tie group.
//!
//! # Flows
//!
//! A flow is a list of edges (strand, place before, layer, place there). It conserves where each
//! strand has one edge from Start, and as many of its edges come to a place as go on from there. So
//! its edges are, in some order, those of one path for each strand: its routes. It is admitted
//! where besides each edge comes to a place of the mask, and stays across an instruction, no
//! register at a layer is used twice, of a memory pair one end at most is in memory, and the ends
//! of each tie agree. Two flows of the block above that are admitted, and what they cost by size,
//! edge by edge:
//!
//! ```text
//!  v in a register               v in memory for as long as it may be
//!   strand 0
//!    (Start, 2, Eax)     0        (Start, 2, Mem)     2   Set to memory, an extra
//!    (Eax, 3, Eax)       0        (Mem, 3, Mem)       1   Add to memory, an extra
//!    (Eax, 4, Eax)       0        (Mem, 4, Mem)       0   across Add
//!    (Eax, 5, Eax)       0        (Mem, 5, Eax)       3   a load, in the crossbar before Write
//!   strand 1
//!    (Start, 3, Const)   1        (Start, 3, Const)   1   an immediate of 8 bits, an extra
//!                       ---                          ---
//!                        1                            7
//! ```
//!
//! An edge pays the events of the way that it goes, and an extra is paid by the edge that comes to
//! its place. Each event weighs what the cost model says at the loop depth of the block.
//!
//! # What is promised
//!
//! `specs/Network` has the network as a function of the code, of what is live where, and of which
//! end is the least of its tie group; the latter two are what relations say of the code, so code
//! has one network. `laws` has what is proved: that, that the network of sized code is in bounds
//! (`IsFormed`, which calls above require), that an admitted flow is the flow of admitted routes,
//! that the flow of routes conserves, that routes cost what their flow costs, and that a flow costs
//! what its edges cost. `Taken::empty` and `Spare::empty` make rooms with nothing in use, and
//! `Net::entry_layer` counts the layers of all blocks together.
//!
//! What an edge costs is asked of a cost model for one layer at a time: `way_cost` for its way,
//! `extras_cost` for the extras at the place that it comes to. `Net::first_extra` and `next_extra`
//! lead to the extras of a strand layer by layer.
//!
//! `Taken` keeps what is in use: `take_path` and `release_path` of a strand's path, and the laws in
//! `taken_stands_for_flows` lead from its marks to flows and back (specs/InUse).
//!
//! What depends on which places there are stands in one record, `PlaceTables`: masks of operands,
//! places of a variable, extras, and the crossbar's events. Networks and costs are made from it;
//! nothing else knows the number of a place. `all_tables` are those of the fourteen places, and
//! specs/EightTables has those without the both places.
//!
//! # What lies where
//!
//! Least paths ask for the mask and the extras of one strand layer by layer, for every strand,
//! round after round. So the masks of a strand lie together, in the strand itself where they are no
//! more than eight, and `NetIndex` leads from a strand to its extras, its ends of memory pairs and
//! its ties, from a block to its first layer and its first strand, from a variable to its strands,
//! and from a tie group to its ends, without a search. The places of all paths of routes lie in one
//! list, one strand's behind the other's.
//!
//! Read specs/Strands, Network, Flow, Admitted and Cost, in this order.
#![tactic(auto)]

mod extras;
pub mod laws;
mod marks;
mod net;
mod prices;
mod routes;
mod taken;
mod tie_numbers;
mod ways;

pub use extras::extras_cost;
pub use net::{
    BlockEnd, Extra, Masks, MemPair, Net, NetBlock, NetIndex, PairEnd, Strand, Tie, TieEnd,
};
pub use prices::{Line, Prices};
pub use routes::{Ends, Plan, Routes};
pub use taken::{Spare, Taken};
pub use tie_numbers::TieNumbers;
pub use ways::{begun_cost, crossbar_cost, way_cost};
