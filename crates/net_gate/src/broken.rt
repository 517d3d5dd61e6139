// What routes may break.

use pra_base::Place;

/// A rule of the network that routes break.
#[derive(Clone, Copy, Debug, PartialEq, Eq)]
pub enum Broken {
    /// A strand and a layer, where it is at a place outside its mask.
    Mask(u32, u32),
    /// A strand and the layer after an instruction, across which it does not stay in its place.
    Edge(u32, u32),
    /// A layer, counted over all blocks, and a register that two strands are in there.
    Bundle(u32, Place),
    /// A memory pair, of which both ends are in memory.
    Memory(u32),
    /// A tie whose ends are at two places.
    Tie(u32),
}

// The rules that an edge keeps or breaks by itself.
#[derive(Clone, Copy)]
pub(crate) enum EdgeRule {
    InMask,
    StaysAcross,
}
