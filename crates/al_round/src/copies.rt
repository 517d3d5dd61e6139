// Prices and routes written over others, in their memory.

ghost use Rattle.std.specs.Prelude.{◌≡◌, length, IfOk};
ghost use Rattle.net_form.specs.Flow.{AreRoutes};

use net_form::{Net, Prices, Routes};
use pra_base::OutOfMemory;
use pra_list::Seq;
use std::alloc::Global;

/// A copy of prices.
///
/// # Errors
///
/// Where there is no memory for it.
pub(crate) fn copy_prices(alloc: Global, prices: &Prices) -> Result<Prices, OutOfMemory>
    ensures { IfOk result (λ copy. copy ≡ prices.now) }
{
    Ok(Prices {
        caps: Seq::from_slice(alloc, prices.caps.as_slice())?,
        mems: Seq::from_slice(alloc, prices.mems.as_slice())?,
        ties: prices.ties.copy(alloc)?,
    })
}

/// Writes prices over others, as many.
pub(crate) fn overwrite_prices(to: &mut Prices, from: &Prices)
    requires caps { length to.old.caps ≡ length from.now.caps }
    requires mems { length to.old.mems ≡ length from.now.mems }
    requires ties { length to.old.ties ≡ length from.now.ties }
    ensures { to.new ≡ from.now }
{
    to.caps.overwrite(from.caps.as_slice());
    to.mems.overwrite(from.mems.as_slice());
    to.ties.overwrite(&from.ties);
}

/// Writes the routes of a network over others.
pub(crate) fn overwrite_routes(to: &mut Routes, net: &Net, from: &Routes)
    requires to { AreRoutes net.now to.old }
    requires from { AreRoutes net.now from.now }
    ensures { to.new ≡ from.now }
{
    to.places.overwrite_all(&from.places);
}
