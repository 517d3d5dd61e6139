//! A whole module, read at the place where it begins.

ghost use Rattle.std.specs.Prelude.{◌≡◌, ◌<◌, ◌≤◌, length, All, IfOk};
ghost use Rattle.ob_syntax.specs.Declarations.{beginning as beginning_of, reading as reading_of};
ghost use Rattle.ob_check.specs.Judging.{known_at, Reads};

use crate::node::nodes_of;
use crate::place::{FieldNames, Place};
use crate::procedure::{begun, closed, declarations};
use crate::refusal::Refusal;
use crate::rules::Rule;
use crate::scope::Scope;
use crate::statement::statements;
use ob_syntax::{Draft, Module, Shape, Token};
use pra_list::Seq;
use std::alloc::{AllocError, Global};

/// A module whose names are resolved: the place behind it, the types of its variables, its body and
/// then its procedures.
#[derive(Drop)]
pub struct Reading<'a> {
    pub place: Place<'a>,
    pub vars: Seq<u32>,
    pub procs: Vec<Draft>,
}

/// The place where a module begins.
fn beginning<'a>(
    alloc: Global,
    bytes: &'a [u8],
    tokens: &'a [Token],
) -> Result<Place<'a>, AllocError>
    requires { All (λ t. (t.from < t.to) × (t.to ≤ length bytes.now)) tokens.now }
    ensures { IfOk result (λ place. known_at place ≡ beginning_of bytes.now tokens.now) }
{
    let types = vec![in alloc; Shape::Integer, Shape::Boolean]?;
    let fields = vec![in alloc; FieldNames::new(alloc), FieldNames::new(alloc)]?;
    let headings = vec![in alloc; Seq::new(alloc)]?;
    Ok(Place {
        alloc,
        bytes,
        tokens,
        here: 0,
        scope: Scope::new(alloc),
        outer: Vec::new(alloc),
        types,
        fields,
        lengths: Vec::new(alloc),
        headings,
        nodes: Vec::new(alloc),
    })
}

/// Reads a whole module.
pub fn read_module<'a>(
    alloc: Global,
    bytes: &'a [u8],
    tokens: &'a [Token],
    tree: &Module,
) -> Result<Reading<'a>, Refusal>
    requires { All (λ t. (t.from < t.to) × (t.to ≤ length bytes.now)) tokens.now }
    ensures { Reads (reading_of bytes.now tokens.now tree.now) result }
{
    let mut place = beginning(alloc, bytes, tokens)?;
    let mut procs = vec![in alloc; begun(alloc, 0, tree.name)]?;
    let vars = declarations(&mut place, &mut procs, &tree.decls)?;
    let body = statements(&place, tree.body.as_slice())?;
    closed(&place, Rule::ModuleEndsWithItsName, tree.name, tree.close)?;
    let nodes = nodes_of(tokens, tree.body.as_slice())?;
    procs[0] = Draft {
        id: 0,
        name: tree.name,
        params: Seq::new(alloc),
        vars: Seq::new(alloc),
        nodes,
        body,
    };
    place.nodes.push(nodes)?;
    Ok(Reading { place, vars, procs })
}
