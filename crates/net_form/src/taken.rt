// What is in use, and room to work in.

ghost use Rattle.std.specs.Prelude.{◌≡◌, ◌≤◌, ◌<◌, ◌+◌, ℕ, [], false, min, nat_eq, length, None};
ghost use Rattle.std.specs.Prelude.{slice_index_or, IfOk, IfSome};
ghost use Rattle.net_form.specs.declared.net.Net.{Net as AnyNet};
ghost use Rattle.net_form.specs.Admitted.{strand_at};
ghost use Rattle.net_form.specs.Flow.{edges};
ghost use Rattle.net_form.specs.Formed.{IsFormed};
ghost use Rattle.net_form.specs.InUse.{mark, lands_in, Takes, Releases, StandsFor};
ghost use Rattle.net_form.specs.Rooms.{layer_total, empty_taken, zero_prices, some_routes};
ghost use Rattle.net_form.specs.Rooms.{empty_spare, IsRoomOf};

use crate::marks::{mark_pairs, mark_path, mark_place};
use crate::net::Net;
use crate::prices::Prices;
use crate::routes::Routes;
use crate::tie_numbers::TieNumbers;
use pra_base::{OutOfMemory, Place};
use pra_list::Seq;
use pra_packed::Packed;
use std::alloc::Global;

/// What is in use.
#[derive(Debug, PartialEq, Eq, Drop)]
pub struct Taken {
    /// For each layer of all blocks a byte, whose bit r says that register r is in use.
    pub regs: Seq<u8>,
    /// For each memory pair whether one of its ends is in memory.
    pub mems: Seq<bool>,
}

/// Room to work in.
#[derive(Debug, Drop)]
pub struct Spare {
    pub taken: Taken,
    pub routes: Routes,
    pub zero: Prices,
}

// How many layers all blocks have together. None where that is more than any memory holds.
fn layer_total(net: &Net) -> Option<usize>
    ensures { IfSome result (λ total. total ≡ layer_total net.now.blocks) }
{
    let mut total = 0usize;
    let mut rest = net.blocks.as_slice();
    while let [block, others @ ..] = rest {
        total = total.checked_add(block.layers as usize)?;
        rest = others;
    }
    Some(total)
}

impl Taken {
    /// Nothing is in use.
    ///
    /// # Errors
    ///
    /// Where there is no memory for it.
    pub fn empty(alloc: Global, net: &Net) -> Result<Taken, OutOfMemory>
        ensures value { IfOk result (λ taken. taken ≡ empty_taken net.now) }
        ensures room { IfOk result (IsRoomOf net.now) }
        ensures nothing { IfOk result (λ taken. StandsFor net.now taken []) }
    {
        let total = layer_total(net).ok_or(OutOfMemory)?;
        Ok(Taken {
            regs: Seq::from_vec(vec![in alloc; 0u8; total]?),
            mems: Seq::from_vec(vec![in alloc; false; net.pairs.len()]?),
        })
    }

    /// Whether a register is in use at a layer, counted over all blocks.
    pub fn uses_register(&self, layer: u32, register: u8) -> bool
        requires layer { layer < length self.now.regs }
        requires register { register < 8 }
        ensures { result ≡ nat_eq (mark self.now.regs layer register) 1 }
    {
        (self.regs[layer as usize] >> register) & 1 == 1
    }

    /// Whether a memory pair is in use.
    pub fn uses_pair(&self, pair: u32) -> bool
        requires { pair < length self.now.mems }
        ensures { result ≡ slice_index_or self.now.mems pair false }
    {
        self.mems[pair as usize]
    }

    /// Marks the register of a place at a layer, counted over all blocks, as used.
    pub fn take_place(&mut self, layer: u32, to: Place)
        requires { layer < length self.old.regs }
        ensures long { length self.new.regs ≡ length self.old.regs }
        ensures mems { self.new.mems ≡ self.old.mems }
        ensures marks { (n r : ℕ) → mark self.new.regs n r ≡
            min 1 (mark self.old.regs n r + lands_in layer to n r) }
    {
        mark_place(&mut self.regs, layer as usize, to, true);
    }

    /// Takes all that the path of a strand uses: its registers, and the memory pairs of which it
    /// brings an end to memory.
    pub fn take_path(&mut self, net: &Net, strand: usize, path: &[Place])
        requires room { IsRoomOf net.now self.old }
        requires net { IsFormed net.now }
        requires strand { strand < length net.now.strands }
        requires path { (strand_at net.now strand).first + length path.now ≡
            (strand_at net.now strand).last + 1 }
        ensures room { IsRoomOf net.now self.new }
        ensures takes { Takes net.now
            (edges strand (strand_at net.now strand).first None path.now) self.old self.new }
    {
        mark_path(&mut self.regs, net, strand, path, true);
        mark_pairs(&mut self.mems, net, strand, path, true);
    }

    /// Releases all that the path of a strand uses.
    pub fn release_path(&mut self, net: &Net, strand: usize, path: &[Place])
        requires room { IsRoomOf net.now self.old }
        requires net { IsFormed net.now }
        requires strand { strand < length net.now.strands }
        requires path { (strand_at net.now strand).first + length path.now ≡
            (strand_at net.now strand).last + 1 }
        ensures room { IsRoomOf net.now self.new }
        ensures releases { Releases net.now
            (edges strand (strand_at net.now strand).first None path.now) self.old self.new }
    {
        mark_path(&mut self.regs, net, strand, path, false);
        mark_pairs(&mut self.mems, net, strand, path, false);
    }

    /// Releases all.
    pub fn clear(&mut self)
        ensures regs { length self.new.regs ≡ length self.old.regs }
        ensures mems { length self.new.mems ≡ length self.old.mems }
        ensures nothing { (net : AnyNet) → StandsFor net self.new [] }
    {
        for layer in 0..self.regs.len() {
            self.regs.set(layer, 0);
        }
        for pair in 0..self.mems.len() {
            self.mems.set(pair, false);
        }
    }
}

impl Prices {
    /// Prices of nothing.
    ///
    /// # Errors
    ///
    /// Where there is no memory for them.
    pub fn zero(alloc: Global, net: &Net) -> Result<Prices, OutOfMemory>
        ensures { IfOk result (λ prices. prices ≡ zero_prices net.now) }
    {
        let total = layer_total(net).ok_or(OutOfMemory)?;
        let caps = total.checked_mul(6).ok_or(OutOfMemory)?;
        Ok(Prices {
            caps: Seq::from_vec(vec![in alloc; 0u64; caps]?),
            mems: Seq::from_vec(vec![in alloc; 0u64; net.pairs.len()]?),
            ties: TieNumbers::zeros(alloc, net.ties.len())?,
        })
    }
}

// Some place for each layer of each strand.
fn some_routes(alloc: Global, net: &Net) -> Result<Routes, OutOfMemory>
    ensures { IfOk result (λ routes. routes ≡ some_routes net.now) }
{
    let mut places = Packed::with_capacity(alloc, net.strands.len())?;
    for strand in net.strands.as_slice() {
        places.push_filled(Place::Eax, strand.masks.len())?;
    }
    Ok(Routes { places })
}

impl Spare {
    /// Nothing is in use, each layer of each strand has some place, and all prices are 0.
    ///
    /// # Errors
    ///
    /// Where there is no memory for it.
    pub fn empty(alloc: Global, net: &Net) -> Result<Spare, OutOfMemory>
        ensures { IfOk result (λ spare. spare ≡ empty_spare net.now) }
    {
        Ok(Spare {
            taken: Taken::empty(alloc, net)?,
            routes: some_routes(alloc, net)?,
            zero: Prices::zero(alloc, net)?,
        })
    }
}
