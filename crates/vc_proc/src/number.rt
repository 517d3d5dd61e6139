// Numbers of 32 bits.

ghost use Rattle.std.specs.Prelude.{◌≡◌, IfOk};

use pra_base::OutOfMemory;

/// A count, where 32 bits hold it.
pub fn number_of(count: usize) -> Result<u32, OutOfMemory>
    ensures { IfOk result (λ n. n ≡ count) }
{
    u32::try_from(count).map_err(|_| OutOfMemory)
}
