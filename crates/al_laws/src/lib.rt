//! What changes of paths do to a flow, and what the words of the allocator mean.
//!
//! An allocator that improves routes takes the paths of some strands out and puts others in. This
//! crate says when the whole stays admitted: a flow has two parts, of the strands that change and
//! of all others (specs/Parts), and it is enough that what is put in uses nothing of the others and
//! that ties agree. For one strand that keeps its places at the entry and the exit of its block
//! nothing more is asked, and for all strands of one variable only that it is at one place wherever
//! it is tied.
//!
//! specs/ has the words of what is promised: routes are settled where no change of one strand or
//! one variable makes them cheaper (Settled), laid where each path is least through what those
//! before it left (Laid), a plan is greedy (Greedy), an order is that of falling prices (Order).
//!
//! `laws` has what shows them, and what a search for them may rely on. A strand is settled where it
//! has no cheaper way past the others, and a variable where at no place its strands have; who is
//! settled stays so until something that it could use comes free. What is laid for a plan with a
//! place for each tie group is admitted. Each strand has a path, also with any places of the masks
//! at its ends, and memory is open to every group: so a plan finds a place, and the costs that it
//! asks for.
#![tactic(auto)]

pub mod laws;
