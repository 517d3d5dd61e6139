// Types and the roots of variables, by their numbers.

ghost use Rattle.std.specs.Prelude.{◌≡◌, ◌<◌, ◌^◌, [], IfOk, length, Some};
ghost use Rattle.std.specs.Option.{option_copied};
ghost use Rattle.ob_interp.specs.Running.{element_of};
ghost use Rattle.ob_mean.specs.Designators.{shape_of, array_length as array_length_of};
ghost use Rattle.ob_mean.specs.Designators.{element_type as element_type_of};
ghost use Rattle.ob_mean.specs.Designators.{field_types as field_types_of};
ghost use Rattle.ob_mean.specs.Designators.{field_type as field_type_of};
ghost use Rattle.ob_mean.specs.Designators.{start_of as start_of_shape, running, lent_to};
ghost use Rattle.ob_mean.specs.Designators.{type_in as type_in_proc, root_type as root_type_of};
ghost use Rattle.ob_mean.specs.Designators.{root_location as root_location_of, picked};

use crate::running::Followed;
use ob_mean::{LiveCall, Location, Object};
use ob_syntax::{Checked, CheckedProc, Root, Shape, Value};
use pra_base::TrapKind;
use pra_list::Seq;
use std::alloc::{AllocError, Global};
use std::collections::VecDeque;

/// The length of an array type, or 0.
pub fn array_length(shapes: &[Shape], type_id: u32) -> u32
    ensures { result ≡ array_length_of (shape_of shapes.now type_id) }
{
    match shapes.get(type_id as usize) {
        Some(shape) => match shape {
            Shape::Array(count, _) => *count,
            _ => 0,
        },
        None => 0,
    }
}

/// The type of the elements of an array type, or 0.
pub fn element_type(shapes: &[Shape], type_id: u32) -> u32
    ensures { result ≡ element_type_of (shape_of shapes.now type_id) }
{
    match shapes.get(type_id as usize) {
        Some(shape) => match shape {
            Shape::Array(_, element) => *element,
            _ => 0,
        },
        None => 0,
    }
}

/// The types of the fields of a record type, or none.
fn field_types(shapes: &[Shape], type_id: u32) -> &[u32]
    ensures { result.now ≡ field_types_of (shape_of shapes.now type_id) }
{
    match shapes.get(type_id as usize) {
        Some(shape) => match shape {
            Shape::Record(fields) => fields.as_slice(),
            _ => &[],
        },
        None => &[],
    }
}

/// The type of a field of a record type, or 0.
pub fn field_type(shapes: &[Shape], type_id: u32, field: u32) -> u32
    ensures { result ≡ field_type_of (shape_of shapes.now type_id) field }
{
    match field_types(shapes, type_id).get(field as usize) {
        Some(found) => *found,
        None => 0,
    }
}

/// What a variable of a type starts with.
pub fn start_of(shapes: &[Shape], type_id: u32) -> Value
    ensures { result ≡ start_of_shape (shape_of shapes.now type_id) }
{
    match shapes.get(type_id as usize) {
        Some(shape) => match shape {
            Shape::Boolean => Value::Truth(false),
            _ => Value::Number(0),
        },
        None => Value::Number(0),
    }
}

/// An index that is tested against the length of its array.
pub fn pick(count: u32, index: i32) -> Result<u32, TrapKind>
    ensures { result ≡ picked count index }
{
    if 0 <= index && (index as u32) < count {
        Ok(index as u32)
    } else {
        Err(TrapKind::Index)
    }
}

/// The element of an index that is tested, and its type.
pub fn element(shapes: &[Shape], type_id: u32, index: i32) -> Result<Followed, TrapKind>
    ensures { result ≡ element_of (shape_of shapes.now type_id) index }
{
    let part = pick(array_length(shapes, type_id), index)?;
    Ok(Followed {
        part,
        type_id: element_type(shapes, type_id),
    })
}

/// The procedure of the running call, or 0.
pub fn running_proc(calls: &VecDeque<LiveCall>) -> u32
    ensures { result ≡ running calls.now.items }
{
    match calls.front() {
        Some(call) => call.proc.0,
        None => 0,
    }
}

fn type_in(proc: &CheckedProc, root: Root) -> u32
    ensures { result ≡ type_in_proc (Some proc.now) root }
{
    match root {
        Root::Module(_) => 0,
        Root::Param(k) => match proc.params.get(k as usize) {
            Some(param) => param.type_id,
            None => 0,
        },
        Root::Local(k) => match proc.locals.get(k as usize) {
            Some(local) => local.type_id,
            None => 0,
        },
    }
}

/// The type of the root of a variable, or 0.
pub fn root_type(program: &Checked, proc: u32, root: Root) -> u32
    ensures { result ≡ root_type_of program.now proc root }
{
    match root {
        Root::Module(n) => match program.vars.get(n as usize) {
            Some(var) => var.type_id,
            None => 0,
        },
        _ => match program.procs.get(proc as usize) {
            Some(found) => type_in(found, root),
            None => 0,
        },
    }
}

fn whole(alloc: Global, object: Object) -> Location
    ensures { result ≡ record { object = object; path = [] } }
{
    Location {
        object,
        path: Seq::new(alloc),
    }
}

/// A copy of a location.
pub fn copied(alloc: Global, l: &Location) -> Result<Location, AllocError>
    ensures { IfOk result (λ copy. copy ≡ l.now) }
{
    let path = Seq::from_slice(alloc, l.path.as_slice())?;
    Ok(Location {
        object: l.object,
        path,
    })
}

/// What was lent to a parameter of the running call, if anything was.
fn lent(calls: &VecDeque<LiveCall>, k: u32) -> Option<&Location>
    ensures { option_copied result ≡ lent_to calls.now.items k }
{
    match calls.front() {
        Some(call) => match call.lent.get(k as usize) {
            Some(given) => given.as_ref(),
            None => None,
        },
        None => None,
    }
}

/// The location of the root of a variable. At most 2^32 - 1 calls are live.
pub fn root_location(
    alloc: Global,
    calls: &VecDeque<LiveCall>,
    root: Root,
) -> Result<Location, AllocError>
    requires { length calls.now.items < 2 ^ 32 }
    ensures { IfOk result (λ l. l ≡ root_location_of calls.now.items root) }
{
    let depth = calls.len() as u32;
    match root {
        Root::Module(n) => Ok(whole(alloc, Object::Module(n))),
        Root::Param(k) => match lent(calls, k) {
            Some(location) => copied(alloc, location),
            None => Ok(whole(alloc, Object::Param(depth, k))),
        },
        Root::Local(k) => Ok(whole(alloc, Object::Local(depth, k))),
    }
}
