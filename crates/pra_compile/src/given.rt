// Routes that are given.

ghost use Rattle.std.specs.Prelude.{◌≡◌, ◌<◌, ◌^◌, IfOk, OnOk};
ghost use Rattle.pra_compile.specs.Given.{IsLeftWith};
ghost use Rattle.pra_compile.specs.Leaving.{no_prices, lines_of};

use crate::allocator::{Allocated, Allocator, network_of};
use net_form::{Line, Net, Prices, Routes, TieNumbers};
use pra_base::{OutOfMemory, VProc};
use pra_list::Seq;
use std::alloc::Global;

/// Routes of a procedure that were found elsewhere, with what is said there of their cost and of a
/// bound.
#[derive(Debug, Drop)]
pub struct GivenRoutes {
    pub routes: Routes,
    pub cost: u64,
    pub bound: u64,
}

/// Routes that are given, those of a procedure at its number.
#[derive(Drop)]
pub struct Given<'a> {
    pub routes: &'a [GivenRoutes],
}

fn copied(alloc: Global, routes: &Routes) -> Result<Routes, OutOfMemory>
    ensures { IfOk result (λ copy. copy ≡ routes.now) }
{
    Ok(Routes {
        places: routes.places.copy(alloc)?,
    })
}

// Whoever gave the routes has the prices too.
fn no_prices(alloc: Global) -> Prices
    ensures { result ≡ no_prices }
{
    Prices {
        caps: Seq::new(alloc),
        mems: Seq::new(alloc),
        ties: TieNumbers::new(alloc),
    }
}

// One line, as if no round had been made.
fn lines_of(alloc: Global, cost: u64, bound: u64) -> Result<Seq<Line>, OutOfMemory>
    ensures is { IfOk result (λ lines. lines ≡ lines_of cost bound) }
    ensures small { OnOk result ((cost < 2 ^ 64) × (bound < 2 ^ 64)) }
{
    let mut lines = Seq::new(alloc);
    lines.push(Line {
        round: 0,
        cost: u128::from(cost),
        bound: u128::from(bound),
    })?;
    Ok(lines)
}

// What is left with these routes, which the network admits.
fn left_with(alloc: Global, net: Net, given: &GivenRoutes) -> Result<Allocated, OutOfMemory>
    ensures net { IfOk result (λ a. a.net ≡ net) }
    ensures left { IfOk result (λ a. IsLeftWith given.now a.routes a.prices a.lines) }
{
    let routes = copied(alloc, &given.routes)?;
    let lines = lines_of(alloc, given.cost, given.bound)?;
    let prices = no_prices(alloc);
    Ok(Allocated {
        net,
        routes,
        prices,
        lines,
    })
}

impl<'a> Allocator for Given<'a> {
    ghost use Rattle.pra_compile.specs.Given.{AdmitsGiven, given_by};

    ghost takes = { λ given. AdmitsGiven given.routes.now };

    ghost leaves = { λ given. given_by given.routes.now };

    fn allocate(&self, alloc: Global, number: u32, code: &VProc) -> Result<Allocated, OutOfMemory> {
        let own = &self.routes[number as usize];
        let net = network_of(alloc, code)?;
        let allocated = left_with(alloc, net, own)?;
        Ok(allocated)
    }
}
