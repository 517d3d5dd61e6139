//! Prices for what strands share, and the bound that no allocation beats.
//!
//! To choose paths for all strands at once is hard, because they share registers, memory operands
//! and the places where blocks meet. To choose the least path of one strand alone is easy. So the
//! constraints that strands share are relaxed: whoever uses a register at a layer, or a memory
//! pair, pays a price for it, and a tie pays or takes a number for each place (Koes and Goldstein,
//! A Global Progressive Register Allocator, PLDI 2006, section 3). Each strand then goes its least
//! way at these prices. What all of them cost, less what is paid where all is used once, is the
//! value: by the law of duality no admitted flow costs less, whatever the prices. Prices that are
//! well chosen make the value rise; a step of prices follows what the least paths want.
//!
//! There is no code here: `specs/` has the definitions that calls above promise, and `laws` what is
//! proved of them. Read specs/Priced, Paths, Value and Step, in this order, specs/Small for how
//! large sums get, and specs/Leasts for the least of a row of costs. What an edge costs is a
//! function that definitions of paths take, so one record, `IsLeast`, serves least paths with
//! prices and without, with ends that are fixed, and through what others leave.
#![tactic(auto)]

pub mod laws;
