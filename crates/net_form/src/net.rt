// The network of a procedure.

ghost use Rattle.std.specs.Prelude.{◌≡◌, ◌+◌, ◌<◌, ◌≤◌, length};
ghost use Rattle.net_cost.specs.Weights.{deepest};
ghost use Rattle.net_form.specs.Admitted.{strand_at};
ghost use Rattle.net_form.specs.Cost.{depth_at};
ghost use Rattle.net_form.specs.Formed.{IsFormed};
ghost use Rattle.net_form.specs.Index.{first_layer};
ghost use Rattle.net_form.specs.Rooms.{layer_total};

use net_cost::Event;
use pra_base::{BlockId, Mask, Place, VarId};
use pra_list::Seq;
use pra_packed::Few;

/// A block, as the network sees it.
#[derive(Clone, Copy, Debug, PartialEq, Eq, Drop)]
pub struct NetBlock {
    /// How many loops the block stands in, at most 5.
    pub depth: u32,
    /// How many layers it has: two for each instruction, its entry and its exit.
    pub layers: u32,
}

/// Where a strand may be, for each of its layers from the first on.
pub type Masks = Few<Mask, 8>;

/// A variable at consecutive layers of one block, at each of which it is present.
#[derive(Debug, PartialEq, Eq, Drop)]
pub struct Strand {
    pub var: VarId,
    pub block: BlockId,
    /// Its first and its last layer, within the block.
    pub first: u32,
    pub last: u32,
    /// Whether the variable is a constant.
    pub constant: bool,
    /// Where it may be, for each of its layers from the first on.
    pub masks: Masks,
    /// The tie group of its end at the block's entry.
    pub entry_group: Option<u32>,
    /// The tie group of its end at the block's exit.
    pub exit_group: Option<u32>,
}

/// What the code costs more where a strand is at this place at this layer.
#[derive(Clone, Copy, Debug, PartialEq, Eq, Drop)]
pub struct Extra {
    pub strand: u32,
    pub layer: u32,
    pub place: Place,
    pub event: Event,
}

/// Two operands of one instruction, of which one at most is in memory.
#[derive(Clone, Copy, Debug, PartialEq, Eq, Drop)]
pub struct MemPair {
    pub left: u32,
    pub left_layer: u32,
    pub right: u32,
    pub right_layer: u32,
}

/// A strand that reaches its block's exit, and the strand that goes on at the entry of a block that
/// follows.
#[derive(Clone, Copy, Debug, PartialEq, Eq, Drop)]
pub struct Tie {
    pub from: u32,
    pub to: u32,
}

/// An end of a memory pair: the layer, and the number of the pair.
#[derive(Clone, Copy, Debug, PartialEq, Eq, Drop)]
pub struct PairEnd {
    pub layer: u32,
    pub pair: u32,
}

/// Where a strand meets the border of its block.
#[derive(Clone, Copy, Debug, PartialEq, Eq)]
pub enum BlockEnd {
    Entry,
    Exit,
}

/// An end of a strand that ties join with others.
#[derive(Clone, Copy, Debug, PartialEq, Eq, Drop)]
pub struct TieEnd {
    pub strand: u32,
    pub end: BlockEnd,
}

/// Where the lists of a network begin for each block, strand, variable and tie group. Each list of
/// beginnings has one entry more, the length of what it leads into, so what belongs to number k
/// lies between entries k and k + 1.
#[derive(Debug, PartialEq, Eq, Drop)]
pub struct NetIndex {
    /// For each block the number of its layer 0, where the layers of all blocks are counted
    /// together.
    pub layers: Seq<u32>,
    /// For each block its first strand.
    pub strands: Seq<u32>,
    /// For each variable, up to the greatest that has a strand, its first strand, in `of_vars`.
    pub vars: Seq<u32>,
    /// The numbers of the strands, by variable.
    pub of_vars: Seq<u32>,
    /// For each strand its first extra.
    pub extras: Seq<u32>,
    /// For each strand its first end of a memory pair, in `ends`.
    pub pairs: Seq<u32>,
    /// The ends of memory pairs, by strand, then layer.
    pub ends: Seq<PairEnd>,
    /// For each strand the first tie that goes from it.
    pub exits: Seq<u32>,
    /// For each strand the first tie that goes to it, in `arrivals`.
    pub entries: Seq<u32>,
    /// The numbers of the ties, by the strand that they go to.
    pub arrivals: Seq<u32>,
    /// For each tie group its first end, in `members`.
    pub groups: Seq<u32>,
    /// The ends of strands that ties join, by their group.
    pub members: Seq<TieEnd>,
}

/// The network: strands are the commodities, places at layers the nodes.
#[derive(Debug, PartialEq, Eq, Drop)]
pub struct Net {
    /// Whether memory is reached by displacements of 8 bits.
    pub near: bool,
    pub blocks: Seq<NetBlock>,
    /// By block, then first layer, then variable.
    pub strands: Seq<Strand>,
    /// By strand, then layer, then place.
    pub extras: Seq<Extra>,
    /// By block, then instruction.
    pub pairs: Seq<MemPair>,
    /// By the strand that they go from, then the one that they go to.
    pub ties: Seq<Tie>,
    /// How many tie groups there are.
    pub groups: u32,
    pub index: NetIndex,
}

impl Net {
    /// The entry of a strand's block, among the layers of all blocks.
    pub fn entry_layer(&self, strand: usize) -> u32
        requires net { IsFormed self.now }
        requires strand { strand < length self.now.strands }
        ensures value { result ≡ first_layer self.now.blocks (strand_at self.now strand).block.0 }
        ensures within { result + (strand_at self.now strand).last < layer_total self.now.blocks }
    {
        let block = self.strands[strand].block;
        self.index.layers[block.0 as usize]
    }

    /// The loop depth of a strand's block.
    pub fn depth(&self, strand: usize) -> u32
        requires net { IsFormed self.now }
        requires strand { strand < length self.now.strands }
        ensures value { result ≡ depth_at self.now strand }
        ensures small { result ≤ deepest }
    {
        let block = self.strands[strand].block;
        self.blocks[block.0 as usize].depth
    }
}
