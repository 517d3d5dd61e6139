// The words of types.

ghost use Rattle.std.specs.Prelude.{◌≡◌, IfOk};
ghost use Rattle.ob_syntax.specs.Storage.{all_words, shape_words as words_of_shape};

use crate::number::number_of;
use ob_syntax::Shape;
use pra_base::OutOfMemory;
use std::alloc::Global;
use vc_select::parts::{field_words, words_at};

/// The words of a type, from those of the types before it.
fn shape_words(words: &[u32], shape: &Shape) -> Result<u32, OutOfMemory>
    ensures { IfOk result (λ n. n ≡ words_of_shape words.now shape.now) }
{
    match shape {
        Shape::Integer => Ok(1),
        Shape::Boolean => Ok(1),
        Shape::Array(count, element) => count
            .checked_mul(words_at(words, *element))
            .ok_or(OutOfMemory),
        Shape::Record(fields) => {
            let count = number_of(fields.len())?;
            let total = field_words(words, fields.as_slice(), count)?;
            Ok(total)
        }
    }
}

/// The words of each type, by its number.
///
/// # Errors
///
/// Where there is no memory, or no number for them.
pub fn words_of_types(alloc: Global, shapes: &[Shape]) -> Result<Vec<u32>, OutOfMemory>
    ensures { IfOk result (λ words. words.items ≡ all_words shapes.now) }
{
    let mut words = Vec::new(alloc);
    for shape in shapes {
        let count = shape_words(words.as_slice(), shape)?;
        words.push(count)?;
    }
    Ok(words)
}
