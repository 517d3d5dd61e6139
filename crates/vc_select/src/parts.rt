// The parts of a variable: its fields, and its elements by constant indexes.

ghost use Rattle.std.specs.Prelude.{◌≡◌, ◌*◌, ◌+ℤ◌, pos, IfOk, take, sum, map, slice_index};
ghost use Rattle.ob_mean.specs.Designators.{shape_of, array_length as array_length_of};
ghost use Rattle.ob_mean.specs.Designators.{element_type as element_type_of};
ghost use Rattle.ob_mean.specs.Designators.{field_types as field_types_of};
ghost use Rattle.ob_mean.specs.Designators.{field_type as field_type_of};
ghost use Rattle.vc_select.specs.Targets.{shifted as shifted_target, words_to_field};

use crate::target::Target;
use ob_syntax::Shape;
use pra_base::{Addr, OutOfMemory};

/// The length of an array type, or 0.
pub fn array_length(shapes: &[Shape], type_id: u32) -> u32
    ensures { result ≡ array_length_of (shape_of shapes.now type_id) }
{
    match shapes.get(type_id as usize) {
        Some(shape) => match shape {
            Shape::Array(count, _) => *count,
            _ => 0,
        },
        None => 0,
    }
}

/// The type of the elements of an array type, or 0.
pub fn element_type(shapes: &[Shape], type_id: u32) -> u32
    ensures { result ≡ element_type_of (shape_of shapes.now type_id) }
{
    match shapes.get(type_id as usize) {
        Some(shape) => match shape {
            Shape::Array(_, element) => *element,
            _ => 0,
        },
        None => 0,
    }
}

/// The types of the fields of a record type, or none.
pub fn field_types(shapes: &[Shape], type_id: u32) -> &[u32]
    ensures { result.now ≡ field_types_of (shape_of shapes.now type_id) }
{
    match shapes.get(type_id as usize) {
        Some(shape) => match shape {
            Shape::Record(fields) => fields.as_slice(),
            _ => &[],
        },
        None => &[],
    }
}

/// The type of a field of a record type, or 0.
pub fn field_type(shapes: &[Shape], type_id: u32, field: u32) -> u32
    ensures { result ≡ field_type_of (shape_of shapes.now type_id) field }
{
    match field_types(shapes, type_id).get(field as usize) {
        Some(found) => *found,
        None => 0,
    }
}

/// The words of a type; none where there is no such type.
pub fn words_at(words: &[u32], type_id: u32) -> u32
    ensures { result ≡ slice_index words.now type_id }
{
    words.get(type_id as usize).copied().unwrap_or(0)
}

fn sum_of(words: &[u32], type_ids: &[u32]) -> Result<u32, OutOfMemory>
    ensures { IfOk result (λ n. n ≡ sum (map (slice_index words.now) type_ids.now)) }
{
    let mut total: u32 = 0;
    for type_id in type_ids {
        total = total
            .checked_add(words_at(words, *type_id))
            .ok_or(OutOfMemory)?;
    }
    Ok(total)
}

fn front(type_ids: &[u32], k: u32) -> &[u32]
    ensures { result.now ≡ take k type_ids.now }
{
    if (k as usize) < type_ids.len() {
        &type_ids[..k as usize]
    } else {
        type_ids
    }
}

/// How many words lie in a record before a field.
///
/// # Errors
///
/// Where there is no number for them.
pub fn field_words(words: &[u32], fields: &[u32], k: u32) -> Result<u32, OutOfMemory>
    ensures { IfOk result (λ n. n ≡ words_to_field words.now fields.now k) }
{
    let total = sum_of(words, front(fields, k))?;
    Ok(total)
}

fn offset_by(offset: i32, words: u32) -> Result<i32, OutOfMemory>
    ensures { IfOk result (λ n. n ≡ offset +ℤ pos (4 * words)) }
{
    let bytes = i64::from(offset) + 4 * i64::from(words);
    let offset = i32::try_from(bytes).map_err(|_| OutOfMemory)?;
    Ok(offset)
}

/// The target so many words further on.
///
/// # Errors
///
/// Where there is no number for the offset.
pub fn shifted(words: u32, target: Target) -> Result<Target, OutOfMemory>
    ensures { IfOk result (λ t. t ≡ shifted_target words target) }
{
    match target {
        Target::Var(v) => Ok(Target::Var(v)),
        Target::Memory(address) => {
            let offset = offset_by(address.offset, words)?;
            Ok(Target::Memory(Addr {
                base: address.base,
                offset,
                index: address.index,
            }))
        }
    }
}
