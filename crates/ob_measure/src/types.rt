//! The words of types.

ghost use Rattle.std.specs.Prelude.{◌≡◌, ◌+◌, map, sum, slice_index};
ghost use Rattle.pra_base.specs.declared.limit.LimitKind.TheVariants.{TypeWords};
ghost use Rattle.ob_syntax.specs.Storage.{all_words, shape_words as words_of_shape, type_words};
ghost use Rattle.ob_syntax.specs.WellFormed.{first_above, data_words as data_words_of};
ghost use Rattle.ob_measure.specs.Measuring.{Tests, Counts};

use crate::fault::{MeasureFault, within};
use ob_syntax::Shape;
use pra_base::LimitKind;
use pra_list::Seq;
use std::alloc::Global;

/// A sum, where it fits 64 bits.
pub fn plus(total: u64, count: u32) -> Result<u64, MeasureFault>
    ensures { Counts (total + count) result }
{
    total
        .checked_add(u64::from(count))
        .ok_or(MeasureFault::OutOfMemory)
}

/// The words of the type of this number; none where there is no such type.
fn words_at(words: &[u32], type_id: u32) -> u32
    ensures { result ≡ slice_index words.now type_id }
{
    words.get(type_id as usize).copied().unwrap_or(0)
}

/// The words of values of these types together.
fn sum_of(words: &[u32], type_ids: &[u32]) -> Result<u64, MeasureFault>
    ensures { Counts (sum (map (slice_index words.now) type_ids.now)) result }
{
    let mut total: u64 = 0;
    for type_id in type_ids {
        total = plus(total, words_at(words, *type_id))?;
    }
    Ok(total)
}

/// The words of a type, from those of the types before it.
fn shape_words(words: &[u32], shape: &Shape) -> Result<u64, MeasureFault>
    ensures { Counts (words_of_shape words.now shape.now) result }
{
    match shape {
        Shape::Integer => Ok(1),
        Shape::Boolean => Ok(1),
        Shape::Array(count, element) => {
            Ok(u64::from(*count) * u64::from(words_at(words, *element)))
        }
        Shape::Record(fields) => sum_of(words, fields.as_slice()),
    }
}

/// The types of a module, with the words of each.
#[derive(Drop)]
pub struct Types {
    pub shapes: Seq<Shape>,
    words: Vec<u32>,
    ghost counted: { words.items ≡ all_words shapes },
}

impl Types {
    /// The types, of which none has too many words.
    pub fn new(alloc: Global, shapes: Seq<Shape>) -> Result<Types, MeasureFault>
        ensures { Tests (first_above TypeWords (all_words shapes)) result
            (λ types. types.shapes ≡ shapes) }
    {
        let words = words_within(alloc, shapes.as_slice())?;
        Ok(Types { shapes, words })
    }

    /// The words of the type of this number.
    pub fn words_of(&self, type_id: u32) -> u32
        ensures { result ≡ type_words self.now.shapes type_id }
    {
        words_at(self.words.as_slice(), type_id)
    }

    /// The types alone.
    pub fn into_shapes(self) -> Seq<Shape>
        ensures { result ≡ self.shapes }
    {
        let Types { shapes, .. } = self;
        shapes
    }

    /// The words of variables of these types.
    pub fn data_words(&self, type_ids: &[u32]) -> Result<u64, MeasureFault>
        ensures { Counts (data_words_of self.now.shapes type_ids.now) result }
    {
        sum_of(self.words.as_slice(), type_ids)
    }
}

/// The words of each type, of which none has too many.
fn words_within(alloc: Global, shapes: &[Shape]) -> Result<Vec<u32>, MeasureFault>
    ensures { Tests (first_above TypeWords (all_words shapes.now)) result
        (λ words. words.items ≡ all_words shapes.now) }
{
    let mut words = Vec::new(alloc);
    for shape in shapes {
        let count = shape_words(words.as_slice(), shape)?;
        words.push(within(LimitKind::TypeWords, count)?)?;
    }
    Ok(words)
}
