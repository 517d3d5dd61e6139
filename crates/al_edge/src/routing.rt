// Home routes, a strand after the other.

ghost use Rattle.std.specs.Prelude.{◌≡◌, ◌<◌, ◌+◌, ◌++◌, [], ◌∷◌, true, length, replicate};
ghost use Rattle.std.specs.Prelude.{IfOk, OnOk};
ghost use Rattle.net_form.specs.Admitted.{strand_at, IsAdmitted};
ghost use Rattle.net_form.specs.Flow.{flow, AreRoutes};
ghost use Rattle.net_form.specs.Formed.{IsFormed};
ghost use Rattle.net_form.specs.Rooms.{layer_total, IsRoomOf};
ghost use Rattle.net_laws.specs.Homes.{HasRoom, home_of, is_there};
ghost use Rattle.al_edge.specs.Choice.{busy_at, place_for, path_for};
ghost use Rattle.al_edge.specs.HomeRoutes.{AreHome};
ghost use Rattle.al_edge.specs.HomePaths.{IsSoFar};
ghost use Rattle.al_edge.specs.Yielding.{IsTable};

use crate::choice::pick;
use crate::side::{across, allowed, home_of, passes};
use crate::yielding::{needs_register, stays_home, yielding};
use net_form::{Net, Routes, Taken};
use pra_base::{OutOfMemory, Place};
use pra_list::Seq;
use pra_packed::Packed;
use std::alloc::Global;

// The registers in use where the strand would be.
fn busy_at(net: &Net, regs: &Seq<u8>, strand: usize, layer: u32) -> u8
    requires net { IsFormed net.now }
    requires regs { length regs.now ≡ layer_total net.now.blocks }
    requires strand { strand < length net.now.strands }
    requires there { is_there (strand_at net.now strand) layer ≡ true }
    ensures { result ≡ busy_at net.now regs.now strand layer }
{
    let base = net.entry_layer(strand);
    let here = regs[(base + layer) as usize];
    if passes(&net.strands[strand], layer) {
        here | regs[(base + across(layer)) as usize]
    } else {
        here
    }
}

// The place that the strand is given at a layer.
fn place_for(net: &Net, regs: &Seq<u8>, table: &[Seq<bool>], strand: usize, layer: u32) -> Place
    requires net { IsFormed net.now }
    requires regs { length regs.now ≡ layer_total net.now.blocks }
    requires table { IsTable net.now (length net.now.pairs) table.now }
    requires strand { strand < length net.now.strands }
    requires there { is_there (strand_at net.now strand) layer ≡ true }
    ensures { result ≡ place_for net.now regs.now strand layer }
{
    let t = &net.strands[strand];
    if needs_register(net, table, strand, layer) {
        pick(allowed(t, layer), busy_at(net, regs, strand, layer))
    } else {
        home_of(t)
    }
}

// Its places, layer by layer.
fn path_for(
    alloc: Global,
    net: &Net,
    regs: &Seq<u8>,
    table: &[Seq<bool>],
    strand: usize,
) -> Result<Seq<Place>, OutOfMemory>
    requires net { IsFormed net.now }
    requires regs { length regs.now ≡ layer_total net.now.blocks }
    requires table { IsTable net.now (length net.now.pairs) table.now }
    requires strand { strand < length net.now.strands }
    ensures { IfOk result (λ path. path ≡ path_for net.now regs.now strand) }
{
    let first = net.strands[strand].first;
    let count = net.strands[strand].masks.len() as u32;
    let mut path = Seq::from_vec(Vec::with_capacity(alloc, count as usize)?);
    for j in 0..count {
        path.push(place_for(net, regs, table, strand, first + j))?;
    }
    Ok(path)
}

// The path of a strand that is at home at all its layers.
fn add_home(net: &Net, paths: &mut Packed<Place>, strand: usize) -> Result<(), OutOfMemory>
    requires strand { strand < length net.now.strands }
    ensures { OnOk result (paths.new ≡ paths.old ++
        replicate (length (strand_at net.now strand).masks) (home_of (strand_at net.now strand))
        ∷ []) }
{
    let t = &net.strands[strand];
    paths.push_filled(home_of(t), t.masks.len())?;
    Ok(())
}

// The path of one strand more. One that is at home throughout uses no register.
fn add_path(
    alloc: Global,
    net: &Net,
    table: &[Seq<bool>],
    taken: &mut Taken,
    paths: &mut Packed<Place>,
    strand: usize,
) -> Result<(), OutOfMemory>
    requires net { IsFormed net.now }
    requires room { HasRoom net.now }
    requires table { IsTable net.now (length net.now.pairs) table.now }
    requires strand { strand < length net.now.strands }
    requires taken { IsRoomOf net.now taken.old }
    requires paths { IsSoFar net.now taken.old.regs paths.old strand }
    ensures taken { OnOk result (IsRoomOf net.now taken.new) }
    ensures paths { OnOk result (IsSoFar net.now taken.new.regs paths.new (strand + 1)) }
{
    if stays_home(net, table, strand) {
        add_home(net, paths, strand)?;
        return Ok(());
    }
    let path = path_for(alloc, net, &taken.regs, table, strand)?;
    taken.take_path(net, strand, path.as_slice());
    paths.push(path.as_slice())?;
    Ok(())
}

/// Routes that put each strand at home wherever it may be there: in memory, or nowhere for a
/// constant. Elsewhere it is in a register.
///
/// # Errors
///
/// Where there is no memory for them.
pub fn home(alloc: Global, net: &Net) -> Result<Routes, OutOfMemory>
    requires net { IsFormed net.now }
    requires room { HasRoom net.now }
    ensures routes { IfOk result (λ routes. AreRoutes net.now routes) }
    ensures admitted { IfOk result (λ routes. IsAdmitted net.now (flow net.now routes)) }
    ensures home { IfOk result (λ routes. AreHome net.now routes) }
{
    let table = yielding(alloc, net)?;
    let mut taken = Taken::empty(alloc, net)?;
    let mut paths = Packed::with_capacity(alloc, net.strands.len())?;
    for strand in 0..net.strands.len() {
        add_path(alloc, net, table.as_slice(), &mut taken, &mut paths, strand)?;
    }
    Ok(Routes { places: paths })
}
