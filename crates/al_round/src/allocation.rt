// What rounds leave.

use net_form::{Line, Prices, Routes};
use pra_list::Seq;

/// What rounds leave of a network: the best routes, the prices of the bound, and the lines.
#[derive(Debug, Drop)]
pub struct Allocation {
    pub routes: Routes,
    pub prices: Prices,
    pub lines: Seq<Line>,
}
