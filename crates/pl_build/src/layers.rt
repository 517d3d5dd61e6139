// What moves into each layer: one pass over the paths of all strands.

ghost use Rattle.std.specs.Prelude.{◌≡◌, ◌+◌, ◌<◌, ◌++◌, ◌∷◌, ℕ, [], None, length, slice_set};
ghost use Rattle.std.specs.Prelude.{IfOk, OnOk};
ghost use Rattle.pra_base.specs.Code.{kind_of};
ghost use Rattle.net_form.specs.Admitted.{strand_at};
ghost use Rattle.net_form.specs.Flow.{edges, flow, AreRoutes};
ghost use Rattle.net_form.specs.Formed.{IsFormed};
ghost use Rattle.net_form.specs.Index.{first_layer};
ghost use Rattle.net_form.specs.Rooms.{layer_total};
ghost use Rattle.pl_place.specs.Behind.{constant};
ghost use Rattle.pl_build.specs.Layers.{layer, pairs_into};

use net_form::{Net, Routes};
use pl_moves::Pair;
use pra_base::{OutOfMemory, Place, VProc, VarId, VarKind};
use pra_list::Seq;
use std::alloc::{AllocError, Global};

fn kind_of(code: &VProc, var: VarId) -> VarKind
    ensures { result ≡ kind_of code.now var.0 }
{
    code.vars
        .as_slice()
        .get(var.0 as usize)
        .copied()
        .unwrap_or(VarKind::Plain)
}

// The number of a Constant variable.
fn constant(kind: VarKind) -> Option<i32>
    ensures { result ≡ constant kind }
{
    match kind {
        VarKind::Constant(number) => Some(number),
        VarKind::Param(_) | VarKind::Plain => None,
    }
}

// A list of no pairs for each layer.
fn empty_layers(alloc: Global, net: &Net) -> Result<Vec<Seq<Pair>>, OutOfMemory>
    requires { IsFormed net.now }
    ensures long { IfOk result (λ layers. length layers.items ≡ layer_total net.now.blocks) }
    ensures empty { IfOk result (λ layers. (n : ℕ) → layer layers.items n ≡ []) }
{
    let total = net.index.layers[net.blocks.len()] as usize;
    let mut layers = Vec::with_capacity(alloc, total)?;
    while layers.len() < total {
        layers.push(Seq::new(alloc))?;
    }
    Ok(layers)
}

// One pair more at a layer.
fn put(layers: &mut Vec<Seq<Pair>>, at: usize, pair: Pair) -> Result<(), AllocError>
    requires { at < length layers.old.items }
    ensures { OnOk result (layers.new.items ≡
        slice_set layers.old.items at (layer layers.old.items at ++ pair ∷ [])) }
{
    layers[at].push(pair)
}

// What the path of a strand brings into its layers.
fn add_path(
    code: &VProc,
    net: &Net,
    layers: &mut Vec<Seq<Pair>>,
    strand: usize,
    path: &[Place],
) -> Result<(), OutOfMemory>
    requires net { IsFormed net.now }
    requires layers { length layers.old.items ≡ layer_total net.now.blocks }
    requires strand { strand < length net.now.strands }
    requires path { let t = strand_at net.now strand in t.first + length path.now ≡ t.last + 1 }
    ensures long { OnOk result (length layers.new.items ≡ length layers.old.items) }
    ensures adds { OnOk result ((n : ℕ) → layer layers.new.items n ≡ layer layers.old.items n ++
        pairs_into code.now net.now n
        (edges strand (strand_at net.now strand).first None path.now)) }
{
    let var = net.strands[strand].var;
    let constant = constant(kind_of(code, var));
    let mut at = net.entry_layer(strand) + net.strands[strand].first;
    let mut from = None;
    let mut rest = path;
    while let [to, others @ ..] = rest {
        let pair = Pair {
            var,
            from: from.unwrap_or(Place::Const),
            to: *to,
            constant,
        };
        put(layers, at as usize, pair)?;
        at += 1;
        from = Some(*to);
        rest = others;
    }
    Ok(())
}

/// What moves into each layer, where the layers of all blocks are counted together.
pub(crate) fn layers_of(
    alloc: Global,
    code: &VProc,
    net: &Net,
    routes: &Routes,
) -> Result<Vec<Seq<Pair>>, OutOfMemory>
    requires net { IsFormed net.now }
    requires routes { AreRoutes net.now routes.now }
    ensures long { IfOk result (λ layers. length layers.items ≡ layer_total net.now.blocks) }
    ensures pairs { IfOk result (λ layers. (n : ℕ) →
        layer layers.items n ≡ pairs_into code.now net.now n (flow net.now routes.now)) }
{
    let mut layers = empty_layers(alloc, net)?;
    for strand in 0..net.strands.len() {
        let path = routes.places.at(strand);
        add_path(code, net, &mut layers, strand, path)?;
    }
    Ok(layers)
}
