//! A search for cheaper routes in which strands may overlap for a while and pay for it.
//!
//! To settle routes (al_iter) is to change them until no change of one strand or one variable makes
//! them cheaper. Most settled routes still cost some per cent more than they need, because several
//! strands would have to change at once. So [`kick`] lets strands overlap: one goes where it would
//! be best off alone, those that it meets there make room, and each pays for coming to a register
//! at a layer where others are, more the longer they overlap there (`congestion`). Where all find
//! room and the whole costs no more, the change stays. Wires are routed so (McMurchie and Ebeling,
//! PathFinder, FPGA 1995).
//!
//! Who comes to a register or to memory pays its price too, whoever is there: the search is led by
//! the multipliers of the Lagrangian relaxation that the bound is of (`prices`). By them each strand
//! alone goes nearly where it is in the best routes.
//!
//! `negotiate` makes routes from nothing, with which rounds begin: kicks change little, and from
//! other routes they lead elsewhere. `kicks` has pieces and windows and how others make room,
//! `pieces` and `reroute` have the least paths of pieces and strands past what is paid, `settling`
//! what is settled around a change, and `draws` the random numbers.
//!
//! Nothing is proved of overlaps and penalties, but that the search ends and is safe: a number that
//! leads nowhere is read as nothing. What it found is asked of the gate (net_gate), so routes that
//! [`kick`] says it found are routes of the network and admitted. A [`SearchRoom`] is the
//! room for one network, and a round takes no memory.
#![tactic(auto)]

mod congestion;
mod draws;
mod found;
mod kicks;
mod lanes;
mod lists;
mod negotiate;
mod pieces;
mod prices;
mod rates;
mod reroute;
mod round;
mod rows;
mod search;
mod settling;
mod spans;
mod strands;

pub use round::{SearchRoom, kick};
