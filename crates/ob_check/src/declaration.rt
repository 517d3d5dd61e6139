//! Declared constants, types, variables and parameters, in the order of the grammar.

ghost use Rattle.std.specs.Prelude.{◌≡◌, [], Ok};
ghost use Rattle.ob_syntax.specs.Declarations.{all_announced};
ghost use Rattle.ob_syntax.specs.Declarations.{constant_declaration as constant_declaration_at};
ghost use Rattle.ob_syntax.specs.Declarations.{all_constants};
ghost use Rattle.ob_syntax.specs.Declarations.{type_declaration as type_declaration_at};
ghost use Rattle.ob_syntax.specs.Declarations.{all_type_declarations, own_root as own_root_of};
ghost use Rattle.ob_syntax.specs.Declarations.{with_variables, variable_list as variable_list_at};
ghost use Rattle.ob_syntax.specs.Declarations.{all_variables, parameter_type as parameter_type_of};
ghost use Rattle.ob_syntax.specs.Declarations.{with_parameters, section as section_at};
ghost use Rattle.ob_syntax.specs.Declarations.{all_sections};
ghost use Rattle.ob_check.specs.Judging.{known_at, Answers, Gives, GivesItems, Moves, Widens};

use crate::constant::constant;
use crate::expression::{BOOLEAN, INTEGER};
use crate::place::Place;
use crate::refusal::Refusal;
use crate::rules::Rule;
use crate::type_expression::type_expression;
use ob_syntax::{ConstDecl, Meaning, NameList, Param, Root, Section, TypeDecl};
use pra_list::Seq;

/// Declares the names of a list, which are not visible yet.
fn announce_all<'a>(place: &mut Place<'a>, names: &[u32]) -> Result<(), Refusal>
    ensures { Moves (all_announced (known_at place.old) names.now) result place.new }
{
    for token in names {
        place.announce(*token)?;
    }
    Ok(())
}

fn constant_declaration<'a>(place: &mut Place<'a>, decl: &ConstDecl) -> Result<(), Refusal>
    ensures { Moves (constant_declaration_at (known_at place.old) decl.now) result place.new }
{
    place.announce(decl.name)?;
    let value = constant(place, &decl.value)?;
    place.show(decl.name, Meaning::Constant(value))
}

pub fn constants<'a>(place: &mut Place<'a>, decls: &[ConstDecl]) -> Result<(), Refusal>
    ensures { Moves (all_constants (known_at place.old) decls.now) result place.new }
{
    for decl in decls {
        constant_declaration(place, decl)?;
    }
    Ok(())
}

fn type_declaration<'a>(place: &mut Place<'a>, decl: &TypeDecl) -> Result<(), Refusal>
    ensures { Moves (type_declaration_at (known_at place.old) decl.now) result place.new }
{
    place.announce(decl.name)?;
    let type_id = type_expression(place, &decl.shape)?;
    place.show(decl.name, Meaning::TypeName(type_id))
}

pub fn types<'a>(place: &mut Place<'a>, decls: &[TypeDecl]) -> Result<(), Refusal>
    ensures { Moves (all_type_declarations (known_at place.old) decls.now) result place.new }
{
    for decl in decls {
        type_declaration(place, decl)?;
    }
    Ok(())
}

/// The variable of this number, of the module or of the procedure here.
fn own_root(here: u32, number: u32) -> Root
    ensures { result ≡ own_root_of here number }
{
    if here == 0 {
        Root::Module(number)
    } else {
        Root::Local(number)
    }
}

/// Variables of one type, behind those whose types are given.
fn variable_list<'a>(
    place: &mut Place<'a>,
    vars: &mut Vec<u32>,
    list: &NameList,
) -> Result<(), Refusal>
    ensures { Widens (variable_list_at (known_at place.old) vars.old.items list.now) result
        (known_at place.new, vars.new.items) }
{
    announce_all(place, list.names.as_slice())?;
    let type_id = type_expression(place, &list.shape)?;
    show_variables(place, vars, type_id, list.names.as_slice())
}

fn show_variables<'a>(
    place: &mut Place<'a>,
    vars: &mut Vec<u32>,
    type_id: u32,
    names: &[u32],
) -> Result<(), Refusal>
    ensures { Widens (Ok (with_variables (known_at place.old) vars.old.items type_id names.now))
        result (known_at place.new, vars.new.items) }
{
    for token in names {
        let number = u32::try_from(vars.len()).map_err(|_| Refusal::OutOfMemory)?;
        let root = own_root(place.here, number);
        place.show(*token, Meaning::Variable(place.here, root, type_id))?;
        vars.push(type_id)?;
    }
    Ok(())
}

/// The types of the variables of a block.
pub fn variables<'a>(place: &mut Place<'a>, lists: &[NameList]) -> Result<Seq<u32>, Refusal>
    ensures { Gives (all_variables (known_at place.old) [] lists.now) result place.new }
{
    let mut vars = Vec::new(place.alloc);
    for list in lists {
        variable_list(place, &mut vars, list)?;
    }
    Ok(Seq::from_vec(vars))
}

fn parameter_type(by_var: bool, token: u32, type_id: u32) -> Result<u32, Refusal>
    ensures { Answers (parameter_type_of by_var token type_id) result }
{
    if by_var || type_id == INTEGER || type_id == BOOLEAN {
        Ok(type_id)
    } else {
        Err(Refusal::Broken(Rule::ValueParameterIsScalar, token))
    }
}

/// Parameters of one type, behind the ones before.
fn section<'a>(
    place: &mut Place<'a>,
    params: &mut Vec<Param>,
    section: &Section,
) -> Result<(), Refusal>
    ensures { Widens (section_at (known_at place.old) params.old.items section.now) result
        (known_at place.new, params.new.items) }
{
    announce_all(place, section.names.as_slice())?;
    let type_id = type_expression(place, &section.shape)?;
    let type_id = parameter_type(section.by_var, section.shape.span.last, type_id)?;
    show_parameters(
        place,
        params,
        section.by_var,
        type_id,
        section.names.as_slice(),
    )
}

fn show_parameters<'a>(
    place: &mut Place<'a>,
    params: &mut Vec<Param>,
    by_var: bool,
    type_id: u32,
    names: &[u32],
) -> Result<(), Refusal>
    ensures { Widens
        (Ok (with_parameters (known_at place.old) params.old.items by_var type_id names.now)) result
        (known_at place.new, params.new.items) }
{
    for token in names {
        let number = u32::try_from(params.len()).map_err(|_| Refusal::OutOfMemory)?;
        let meaning = Meaning::Variable(place.here, Root::Param(number), type_id);
        place.show(*token, meaning)?;
        params.push(Param {
            by_var,
            type_id,
            addressed: false,
        })?;
    }
    Ok(())
}

/// The parameters of a procedure.
pub fn sections<'a>(place: &mut Place<'a>, list: &[Section]) -> Result<Vec<Param>, Refusal>
    ensures { GivesItems (all_sections (known_at place.old) [] list.now) result place.new }
{
    let mut params = Vec::new(place.alloc);
    for one in list {
        section(place, &mut params, one)?;
    }
    Ok(params)
}
