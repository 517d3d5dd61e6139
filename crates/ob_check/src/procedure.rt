//! Declarations with the procedures in them, in the order of the grammar.

ghost use Rattle.std.specs.Prelude.{◌≡◌, []};
ghost use Rattle.ob_syntax.specs.Declarations.{drafted, heading as heading_at, closed as closed_at};
ghost use Rattle.ob_syntax.specs.Declarations.{declarations as declarations_of};
ghost use Rattle.ob_syntax.specs.Declarations.{procedure as procedure_of};
ghost use Rattle.ob_check.specs.Judging.{known_at, Gives, Widens, Declares, Drafts};
ghost use Rattle.ob_check.specs.Rules.{rule_number};

use crate::declaration::{constants, sections, types, variables};
use crate::node::nodes_of;
use crate::place::Place;
use crate::refusal::Refusal;
use crate::rules::Rule;
use crate::scope::Scope;
use crate::statement::statements;
use ob_syntax::{Decls, Draft, Param, Proc, Section};
use pra_list::Seq;
use std::alloc::Global;

/// Reads a procedure's heading, and gives its parameters. The place moves behind it, into the
/// procedure; from there on the procedure's name is visible.
fn heading<'a>(place: &mut Place<'a>, name: u32, list: &[Section]) -> Result<Seq<Param>, Refusal>
    ensures { Gives (heading_at (known_at place.old) name list.now) result place.new }
{
    place.announce(name)?;
    let around = place.here;
    let id = place.next_procedure()?;
    place.enter(id, Scope::new(place.alloc))?;
    let params = sections(place, list)?;
    let shown = Seq::from_slice(place.alloc, &params)?;
    let scope = place.leave(around);
    place.add_heading(name, shown)?;
    place.enter(id, scope)?;
    Ok(Seq::from_vec(params))
}

/// The name after END is the name in front; else this rule is broken.
pub fn closed(place: &Place, rule: Rule, name: u32, close: u32) -> Result<(), Refusal>
    ensures { Widens (closed_at (rule_number rule) (known_at place.now) name close) result
        (known_at place.now) }
{
    if place.name(close) == place.name(name) {
        Ok(())
    } else {
        Err(Refusal::Broken(rule, close))
    }
}

/// A procedure, or the module's body, of which no more is known than its name: the first of those
/// that its declarations give, so that its place is kept.
pub fn begun(alloc: Global, id: u32, name: u32) -> Draft
    ensures { result ≡ drafted id name [] [] 0 [] }
{
    Draft {
        id,
        name,
        params: Seq::new(alloc),
        vars: Seq::new(alloc),
        nodes: 0,
        body: Seq::new(alloc),
    }
}

/// The types of the variables of a block; its procedures come behind those before.
#[cycle(declarations)]
pub fn declarations<'a>(
    place: &mut Place<'a>,
    procs: &mut Vec<Draft>,
    decls: &Decls,
) -> Result<Seq<u32>, Refusal>
    ensures { Declares (declarations_of decls.now (known_at place.old)) procs.old.items result
        (known_at place.new) procs.new.items }
{
    constants(place, decls.consts.as_slice())?;
    types(place, decls.types.as_slice())?;
    let vars = variables(place, decls.vars.as_slice())?;
    for proc in decls.procs.as_slice() {
        procedure(place, procs, proc)?;
    }
    Ok(vars)
}

/// Reads a procedure, which comes in front of those that it declares.
#[cycle(declarations)]
fn procedure<'a>(place: &mut Place<'a>, procs: &mut Vec<Draft>, proc: &Proc) -> Result<(), Refusal>
    ensures { Drafts (procedure_of proc.now (known_at place.old)) procs.old.items result
        (known_at place.new) procs.new.items }
{
    let around = place.here;
    let number = procs.len();
    let params = heading(place, proc.name, proc.params.as_slice())?;
    procs.push(begun(place.alloc, place.here, proc.name))?;
    let vars = declarations(place, procs, &proc.decls)?;
    let body = statements(place, proc.body.as_slice())?;
    closed(place, Rule::ProcedureEndsWithItsName, proc.name, proc.close)?;
    let nodes = nodes_of(place.tokens, proc.body.as_slice())?;
    procs[number] = Draft {
        id: place.here,
        name: proc.name,
        params,
        vars,
        nodes,
        body,
    };
    place.leave(around);
    place.nodes.push(nodes)?;
    Ok(())
}
