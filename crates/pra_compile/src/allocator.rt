// Where the routes of procedures come from.

ghost use Rattle.std.specs.Prelude.{ℕ, IfOk};
ghost use Rattle.net_form.specs.Network.{IsNet};
ghost use Rattle.pra_base.specs.Valid.{IsSized, IsValid};
ghost use Rattle.pra_follow.specs.Codes.{AreAdmittedIn};

use net_build::build;
use net_form::{Line, Net, Prices, Routes};
use pra_base::{OutOfMemory, VProc};
use pra_list::Seq;
use std::alloc::Global;
use vc_live::live;

/// The network of a procedure's code, routes that it admits, and what is kept beside them.
#[derive(Debug, Drop)]
pub struct Allocated {
    pub net: Net,
    pub routes: Routes,
    pub prices: Prices,
    pub lines: Seq<Line>,
}

/// Where the routes of procedures come from.
pub trait Allocator {
    ghost use Rattle.pra_base.specs.declared.code.VProc.{VProc};
    ghost use Rattle.pra_compile.specs.Leaving.{Leaving};

    /// What has to hold of the code of a procedure, by its number, before routes are asked for it.
    ghost takes: { Self → ℕ → VProc → Type 0 };

    /// What is known of what is left of a procedure.
    ghost leaves: { Self → Leaving };

    /// Routes for the code of the procedure of this number.
    ///
    /// # Errors
    ///
    /// Where there is no memory for them.
    fn allocate(&self, alloc: Global, number: u32, code: &VProc) -> Result<Allocated, OutOfMemory>
        requires valid { IsValid code.now }
        requires sized { IsSized code.now }
        requires takes { takes self.now number code.now }
        ensures routes { IfOk result (λ a. AreAdmittedIn code.now a.net a.routes) }
        ensures left { IfOk result (λ a. leaves self.now number a.net a.routes a.prices a.lines) };
}

/// The network of code.
pub(crate) fn network_of(alloc: Global, code: &VProc) -> Result<Net, OutOfMemory>
    requires sized { IsSized code.now }
    ensures { IfOk result (λ net. IsNet net code.now) }
{
    let liveness = live(alloc, code)?;
    let net = build(alloc, code, &liveness)?;
    Ok(net)
}
