// What a certificate holds.

use net_form::Routes;
use pra_base::VProc;
use pra_list::Seq;

/// By which weights costs are counted.
#[derive(Clone, Copy, Debug, PartialEq, Eq)]
pub enum CostWord {
    /// Bytes of code.
    Size,
    /// Time, where a loop is taken for eight turns.
    Speed,
}

/// Costs and bounds of a module's allocation, with all that it takes to test them.
#[derive(Debug, PartialEq, Eq, Drop)]
pub struct Certificate {
    pub cost: CostWord,
    /// The procedures, each at the index that its id is.
    pub procs: Seq<Cert>,
}

/// The cost and the bound of one procedure: its code, a way for each of its strands, and the prices
/// that show the bound. A price that is not listed is 0.
#[derive(Debug, PartialEq, Eq, Drop)]
pub struct Cert {
    pub code: VProc,
    pub routes: Routes,
    /// Of registers at layers.
    pub caps: Seq<CapAt>,
    /// Of memory pairs.
    pub mems: Seq<CapAt>,
    pub ties: Seq<TieAt>,
    /// What the routes cost.
    pub total: u64,
    /// No admitted routes cost less.
    pub bound: u64,
}

/// A price at an index of a list of prices, in units of 1/1024 of a weight.
#[derive(Clone, Copy, Debug, PartialEq, Eq, Drop)]
pub struct CapAt {
    pub at: u32,
    pub price: u64,
}

/// A number at an index of the list of those of ties, in the same units.
#[derive(Clone, Copy, Debug, PartialEq, Eq, Drop)]
pub struct TieAt {
    pub at: u32,
    pub number: i64,
}
