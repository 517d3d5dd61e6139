//! Type expressions.

ghost use Rattle.std.specs.Prelude.{◌≡◌, Ok, map};
ghost use Rattle.ob_syntax.specs.Types.{type_expression as type_expression_of, all_fields};
ghost use Rattle.ob_syntax.specs.Types.{fields_of, with_types};
ghost use Rattle.ob_check.specs.Fields.{record_at};
ghost use Rattle.ob_check.specs.Judging.{known_at, fields_at, Gives, Widens};

use crate::constant::array_length;
use crate::place::{FieldNames, Place};
use crate::refusal::Refusal;
use crate::rules::Rule;
use ob_syntax::{Meaning, NameList, Shape, TypeExpr, TypeForm};
use pra_list::Seq;

/// The number of the type that a type expression stands for.
#[cycle(types)]
pub fn type_expression<'a>(place: &mut Place<'a>, shape: &TypeExpr) -> Result<u32, Refusal>
    ensures { Gives (type_expression_of shape.now (known_at place.old)) result place.new }
{
    match &shape.form {
        TypeForm::Name(name) => match place.used(*name)? {
            Meaning::TypeName(type_id) => Ok(type_id),
            _ => Err(Refusal::Broken(Rule::NameIsType, *name)),
        },
        TypeForm::Array(count, item) => {
            let count = array_length(place, count.get())?;
            place.lengths.push(count)?;
            let item = type_expression(place, item.get())?;
            let none = FieldNames::new(place.alloc);
            place.add_type(Shape::Array(count, item), none)
        }
        TypeForm::Record(lists) => record_type(place, lists.as_slice()),
    }
}

/// The number of a record type with these fields.
#[cycle(types)]
fn record_type<'a>(place: &mut Place<'a>, lists: &[NameList]) -> Result<u32, Refusal>
    ensures { Gives (record_at (known_at place.old) lists.now) result place.new }
{
    let mut names = FieldNames::new(place.alloc);
    let mut types = Vec::new(place.alloc);
    field_lists(place, &mut names, &mut types, lists)?;
    place.add_type(Shape::Record(Seq::from_vec(types)), names)
}

/// More fields of a record.
#[cycle(types)]
fn field_lists<'a>(
    place: &mut Place<'a>,
    names: &mut FieldNames<'a>,
    types: &mut Vec<u32>,
    lists: &[NameList],
) -> Result<(), Refusal>
    ensures { Widens
        (all_fields (fields_at place.old names.old types.old.items) (map fields_of lists.now))
        result (fields_at place.new names.new types.new.items) }
{
    for list in lists {
        field_list(place, names, types, list)?;
    }
    Ok(())
}

/// More fields of a record, which have one type.
#[cycle(types)]
fn field_list<'a>(
    place: &mut Place<'a>,
    names: &mut FieldNames<'a>,
    types: &mut Vec<u32>,
    list: &NameList,
) -> Result<(), Refusal>
    ensures { Widens (fields_of list.now (fields_at place.old names.old types.old.items)) result
        (fields_at place.new names.new types.new.items) }
{
    for token in list.names.as_slice() {
        let name = place.name(*token);
        if !names.declare(name)? {
            return Err(Refusal::Broken(Rule::FieldNameIsNew, *token));
        }
    }
    let type_id = type_expression(place, &list.shape)?;
    repeat_type(types, type_id, list.names.as_slice())
}

/// One type for each of the names.
fn repeat_type(types: &mut Vec<u32>, type_id: u32, names: &[u32]) -> Result<(), Refusal>
    ensures { Widens (Ok (with_types types.old.items type_id names.now)) result types.new.items }
{
    for _token in names {
        types.push(type_id)?;
    }
    Ok(())
}
