// Where the lists of a network begin for each block and each strand.

ghost use Rattle.std.specs.Prelude.{◌≡◌, ℕ, ◌+◌, ◌*◌, ◌<◌, ◌≤◌, ◌^◌, length, map, All, IfOk};
ghost use Rattle.std.specs.Prelude.{IfSome};
ghost use Rattle.std.specs.List.{range_with_len, flat_map};
ghost use Rattle.net_form.specs.Formed.{IsStrandOf};
ghost use Rattle.net_form.specs.Index.{beginnings, first_layer, index_of, var_count, members};
ghost use Rattle.net_form.specs.Index.{ends_in, by_owner as strands_by};
ghost use Rattle.net_form.specs.Rooms.{layer_total};
ghost use Rattle.net_build.specs.Owners.{owner_of, by_owner, end_owners, pair_end, ArePairs};

use crate::lists::Lists;
use crate::members::{Members, ends_in_order, members_of};
use crate::owners::{beginnings, by_owner, owners_in};
use net_form::{Extra, MemPair, NetBlock, NetIndex, PairEnd, Strand, Tie, TieEnd};
use pra_base::OutOfMemory;
use pra_list::Seq;
use std::alloc::{AllocError, Global};

// For each block, and at the end, how many layers there are before its own.
fn first_layers(alloc: Global, blocks: &Seq<NetBlock>) -> Result<Seq<u32>, AllocError>
    requires { layer_total blocks.now < 2 ^ 32 }
    ensures { IfOk result (λ made. made ≡
        map (first_layer blocks.now) (range_with_len 0 (length blocks.now + 1))) }
{
    let mut made = Seq::new(alloc);
    let mut total = 0u32;
    for block in blocks.as_slice() {
        made.push(total)?;
        total += block.layers;
    }
    made.push(total)?;
    Ok(made)
}

// Where the items of each strand begin, in a list of items by strand.
fn strand_beginnings(
    alloc: Global,
    owners: &Seq<u32>,
    strands: u32,
) -> Result<Seq<u32>, OutOfMemory>
    ensures { IfOk result (λ made. made ≡ beginnings (λ o. o) owners.now strands) }
{
    let _few = u32::try_from(owners.len()).map_err(|_| OutOfMemory)?;
    Ok(beginnings(alloc, owners, strands)?)
}

fn extra_owners(alloc: Global, extras: &Seq<Extra>) -> Result<Seq<u32>, AllocError>
    ensures { IfOk result (λ owners. owners ≡ map (λ x. x.strand) extras.now) }
{
    let owners: Vec<u32> = extras.as_slice().iter().map(|x| x.strand).collect(alloc)?;
    Ok(Seq::from_vec(owners))
}

fn tie_sources(alloc: Global, ties: &Seq<Tie>) -> Result<Seq<u32>, AllocError>
    ensures { IfOk result (λ owners. owners ≡ map (λ t. t.from) ties.now) }
{
    let owners: Vec<u32> = ties.as_slice().iter().map(|t| t.from).collect(alloc)?;
    Ok(Seq::from_vec(owners))
}

fn tie_targets(alloc: Global, ties: &Seq<Tie>) -> Result<Seq<u32>, AllocError>
    ensures { IfOk result (λ owners. owners ≡ map (λ t. t.to) ties.now) }
{
    let owners: Vec<u32> = ties.as_slice().iter().map(|t| t.to).collect(alloc)?;
    Ok(Seq::from_vec(owners))
}

fn strand_blocks(alloc: Global, strands: &Seq<Strand>) -> Result<Seq<u32>, AllocError>
    ensures { IfOk result (λ owners. owners ≡ map (λ t. t.block.0) strands.now) }
{
    let owners: Vec<u32> = strands.as_slice().iter().map(|t| t.block.0).collect(alloc)?;
    Ok(Seq::from_vec(owners))
}

fn strand_vars(alloc: Global, strands: &Seq<Strand>) -> Result<Seq<u32>, AllocError>
    ensures { IfOk result (λ owners. owners ≡ map (λ t. t.var.0) strands.now) }
{
    let owners: Vec<u32> = strands.as_slice().iter().map(|t| t.var.0).collect(alloc)?;
    Ok(Seq::from_vec(owners))
}

// One more than the greatest number of a variable; None where 32 bits do not count it.
fn var_count(strands: &Seq<Strand>) -> Option<u32>
    ensures { IfSome result (λ count. count ≡ var_count strands.now) }
{
    let mut count = 0u32;
    let mut rest = strands.as_slice();
    while let [strand, others @ ..] = rest {
        count = count.max(strand.var.0.checked_add(1)?);
        rest = others;
    }
    Some(count)
}

// Where the strands of each block begin, and those of each variable by their numbers.
#[derive(Drop)]
struct ByPlace {
    blocks: Seq<u32>,
    vars: Seq<u32>,
    of_vars: Seq<u32>,
}

fn by_place(
    alloc: Global,
    blocks: &Seq<NetBlock>,
    strands: &Seq<Strand>,
) -> Result<ByPlace, OutOfMemory>
    requires few { length strands.now < 2 ^ 32 }
    ensures blocks { IfOk result (λ made. made.blocks ≡
        beginnings (λ t. t.block.0) strands.now (length blocks.now)) }
    ensures vars { IfOk result (λ made. made.vars ≡
        beginnings (λ t. t.var.0) strands.now (var_count strands.now)) }
    ensures of_vars { IfOk result (λ made. made.of_vars ≡
        strands_by (λ t. t.var.0) strands.now (var_count strands.now)) }
{
    let block_count = u32::try_from(blocks.len()).map_err(|_| OutOfMemory)?;
    let Some(count) = var_count(strands) else {
        return Err(OutOfMemory);
    };
    let owners = strand_blocks(alloc, strands)?;
    let blocks = strand_beginnings(alloc, &owners, block_count)?;
    let owners = strand_vars(alloc, strands)?;
    let vars = strand_beginnings(alloc, &owners, count)?;
    let of_vars = items_by_owner(alloc, &owners, &vars, count)?;
    Ok(ByPlace {
        blocks,
        vars,
        of_vars,
    })
}

// The strands of the ends of memory pairs, of each the left one and the right one.
fn end_owners(alloc: Global, pairs: &Seq<MemPair>) -> Result<Seq<u32>, AllocError>
    ensures { IfOk result (λ owners. owners ≡ end_owners pairs.now) }
{
    let mut owners = Seq::new(alloc);
    for pair in pairs.as_slice() {
        owners.push(pair.left)?;
        owners.push(pair.right)?;
    }
    Ok(owners)
}

// An end of a memory pair, by its number among all ends.
fn pair_end(pairs: &Seq<MemPair>, end: u32) -> PairEnd
    requires { end < 2 * length pairs.now }
    ensures { result ≡ pair_end pairs.now end }
{
    let pair = end / 2;
    let both = pairs[pair as usize];
    PairEnd {
        layer: if end % 2 == 0 {
            both.left_layer
        } else {
            both.right_layer
        },
        pair,
    }
}

// Ends of memory pairs, in some order.
fn pair_ends(
    alloc: Global,
    pairs: &Seq<MemPair>,
    order: &Seq<u32>,
) -> Result<Seq<PairEnd>, AllocError>
    requires { All (λ e. e < 2 * length pairs.now) order.now }
    ensures { IfOk result (λ ends. ends ≡ map (pair_end pairs.now) order.now) }
{
    let mut ends = Seq::from_vec(Vec::with_capacity(alloc, order.len())?);
    for end in order.as_slice() {
        ends.push(pair_end(pairs, *end))?;
    }
    Ok(ends)
}

// The ends of memory pairs by strand, then layer, and where those of each strand begin.
#[derive(Drop)]
struct Ends {
    first: Seq<u32>,
    ends: Seq<PairEnd>,
}

fn ends_of(alloc: Global, pairs: &Seq<MemPair>, strands: u32) -> Result<Ends, OutOfMemory>
    ensures first { IfOk result (λ made. made.first ≡ beginnings (λ o. o)
        (map (owner_of (end_owners pairs.now)) (by_owner (end_owners pairs.now) strands))
        strands) }
    ensures ends { IfOk result (λ made. made.ends ≡
        map (pair_end pairs.now) (by_owner (end_owners pairs.now) strands)) }
{
    let owners = end_owners(alloc, pairs)?;
    let first = strand_beginnings(alloc, &owners, strands)?;
    let order = items_by_owner(alloc, &owners, &first, strands)?;
    let owners = owners_in(alloc, &owners, &order)?;
    Ok(Ends {
        first: strand_beginnings(alloc, &owners, strands)?,
        ends: pair_ends(alloc, pairs, &order)?,
    })
}

// The numbers of items by their owners, of which there are so many, and whose items begin there.
fn items_by_owner(
    alloc: Global,
    owners: &Seq<u32>,
    first: &Seq<u32>,
    count: u32,
) -> Result<Seq<u32>, OutOfMemory>
    requires { first.now ≡ beginnings (λ o. o) owners.now count }
    ensures { IfOk result (λ made. made ≡ by_owner owners.now count) }
{
    let _few = u32::try_from(owners.len()).map_err(|_| OutOfMemory)?;
    Ok(by_owner(alloc, owners, first, count)?)
}

// The ends that ties join, by their groups, and where those of each group begin.
#[derive(Drop)]
struct Grouped {
    first: Seq<u32>,
    ends: Seq<TieEnd>,
}

fn by_group(alloc: Global, strands: &Seq<Strand>, groups: u32) -> Result<Grouped, OutOfMemory>
    requires few { length strands.now < 2 ^ 32 }
    ensures first { IfOk result (λ made. made.first ≡
        beginnings (λ m. m.group) (members strands.now) groups) }
    ensures ends { IfOk result (λ made. made.ends ≡
        flat_map (ends_in (members strands.now)) (range_with_len 0 groups)) }
{
    let members = members_of(alloc, strands)?;
    let Members { owners, ends } = members;
    let first = strand_beginnings(alloc, &owners, groups)?;
    let order = items_by_owner(alloc, &owners, &first, groups)?;
    Ok(Grouped {
        first,
        ends: ends_in_order(alloc, &ends, &order)?,
    })
}

/// Where the lists of a network begin for each block and each strand.
///
/// # Errors
///
/// Where there is no memory for it, or a list has more elements than 32 bits count.
pub(crate) fn index_of(alloc: Global, lists: &Lists, groups: u32) -> Result<NetIndex, OutOfMemory>
    requires few { length lists.now.strands < 2 ^ 32 }
    requires layers { layer_total lists.now.blocks < 2 ^ 32 }
    requires strands { All (IsStrandOf lists.now.blocks) lists.now.strands }
    requires pairs { ArePairs lists.now.strands lists.now.pairs }
    ensures { IfOk result (λ made. made ≡ index_of lists.now.blocks lists.now.strands
        lists.now.extras lists.now.pairs lists.now.ties groups) }
{
    let strands = lists.strands.len() as u32;
    let layers = first_layers(alloc, &lists.blocks)?;
    let places = by_place(alloc, &lists.blocks, &lists.strands)?;
    let owners = extra_owners(alloc, &lists.extras)?;
    let extras = strand_beginnings(alloc, &owners, strands)?;
    let ends = ends_of(alloc, &lists.pairs, strands)?;
    let sources = tie_sources(alloc, &lists.ties)?;
    let exits = strand_beginnings(alloc, &sources, strands)?;
    let targets = tie_targets(alloc, &lists.ties)?;
    let entries = strand_beginnings(alloc, &targets, strands)?;
    let arrivals = items_by_owner(alloc, &targets, &entries, strands)?;
    let members = by_group(alloc, &lists.strands, groups)?;
    Ok(NetIndex {
        layers,
        strands: places.blocks,
        vars: places.vars,
        of_vars: places.of_vars,
        extras,
        pairs: ends.first,
        ends: ends.ends,
        exits,
        entries,
        arrivals,
        groups: members.first,
        members: members.ends,
    })
}
