//! Lists of phrases that may be empty.

ghost use Rattle.std.specs.Prelude.{◌≡◌, ◌++◌, OnOk, option_to_list};

use pra_list::Seq;
use std::alloc::AllocError;

/// Adds an item at the end, if there is one.
pub fn push_some<T: Drop>(all: &mut Seq<T>, item: Option<T>) -> Result<(), AllocError>
    ensures { OnOk result (all.new ≡ all.old ++ option_to_list item) }
{
    match item {
        Some(item) => all.push(item),
        None => Ok(()),
    }
}
