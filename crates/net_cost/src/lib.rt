//! What moves, memory operands and immediates cost: events, their weights, and a cost function that
//! is kept beside the weights that it answers.
//!
//! An event is one thing that a choice of places adds to the code. A list of thirteen weights and a
//! factor say what each costs in a block of each loop depth. A `CostModel` is made only of a
//! function that answers such weights, so whoever asks a model knows the answer: `ask` gives
//! exactly the weight. Read specs/Weights first: it has the table of the events with both built-in
//! lists.
#![tactic(auto)]

mod event;
mod model;
mod weights;

pub use event::Event;
pub use model::CostModel;
pub use weights::Weights;
