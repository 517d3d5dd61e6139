// Paths of a row: whether they are laid by a plan and an order, and if not, which is the first that
// is wrong.

ghost use Rattle.std.specs.Prelude.{◌≡◌, ◌<◌, ◌+◌, length, IsTrue};
ghost use Rattle.net_cost.specs.Models.{Keeps};
ghost use Rattle.net_dual.specs.Priced.{AreInRange};
ghost use Rattle.net_form.specs.Admitted.{strand_at};
ghost use Rattle.net_form.specs.Rooms.{IsRoomOf};
ghost use Rattle.net_laws.specs.Built.{IsBuilt};
ghost use Rattle.net_path.specs.Desk.{IsReservedFor};

use crate::planned::{Found, ends_of};
use crate::reading::paths;
use net_cost::{CostModel, Event};
use net_form::{Net, Plan, Prices, Routes, Taken};
use net_path::{Work, least};
use net_plain::price_plain;
use pra_base::{OutOfMemory, Place};
use std::alloc::Global;

fn put_cost(alloc: Global, text: &mut String, cost: Option<i64>) -> Result<(), OutOfMemory> {
    match cost {
        Some(cost) => text.push_str(&format!(in alloc; " {cost}")?)?,
        None => text.push_str(" none")?,
    }
    Ok(())
}

// Whether a path has a place for each layer of its strand.
fn is_long(net: &Net, strand: u32, path: &[Place]) -> bool
    requires { strand < length net.now.strands }
    ensures { IsTrue result → (strand_at net.now strand).first + length path.now ≡
        (strand_at net.now strand).last + 1 }
{
    let strand = &net.strands[strand as usize];
    let behind = u128::from(strand.first) + path.len() as u128;
    if behind == 0 || behind - 1 != u128::from(strand.last) {
        return false;
    }
    true
}

// Why the next path is not laid past what is taken, or nothing where it is, and is taken then: its
// strand, what it costs, and what its strand would pay at least.
fn lay_path<F: Fn(Event, u32) -> u32>(
    alloc: Global,
    work: &mut Work,
    net: &Net,
    model: &CostModel<F>,
    prices: &Prices,
    plan: &Plan,
    taken: &mut Taken,
    strand: u32,
    path: &[Place],
) -> Result<Option<String>, OutOfMemory>
    requires kept { Keeps F.Fn model.now }
    requires net { IsBuilt net.now }
    requires work { IsReservedFor net.now work.old }
    requires prices { AreInRange net.now prices.now }
    requires taken { IsRoomOf net.now taken.old }
    requires strand { strand < length net.now.strands }
    requires path { (strand_at net.now strand).first + length path.now ≡
        (strand_at net.now strand).last + 1 }
    ensures reserved { IsReservedFor net.now work.new }
    ensures taken { IsRoomOf net.now taken.new }
{
    let ends = ends_of(net, plan, strand);
    let cost = price_plain(net, model, prices, strand, ends, taken, path);
    let least = least(work, net, model, prices, strand, ends, taken).ok();
    taken.take_path(net, strand as usize, path);
    if cost.is_some() && cost == least {
        return Ok(None);
    }
    let mut text = format!(in alloc; "{strand}")?;
    put_cost(alloc, &mut text, cost)?;
    put_cost(alloc, &mut text, least)?;
    Ok(Some(text))
}

// What is said of paths that go through an order: that they are laid, or which is the first that is
// not.
fn verdict<F: Fn(Event, u32) -> u32>(
    alloc: Global,
    net: &Net,
    model: &CostModel<F>,
    prices: &Prices,
    found: &Found,
    routes: &Routes,
) -> Result<String, OutOfMemory>
    requires kept { Keeps F.Fn model.now }
    requires net { IsBuilt net.now }
    requires prices { AreInRange net.now prices.now }
{
    let mut work = Work::reserve(alloc, net, model)?;
    let mut taken = Taken::empty(alloc, net)?;
    for strand in found.order.as_slice() {
        let strand = *strand;
        if strand as usize >= routes.places.len() {
            return Ok(String::from_str(alloc, "no path")?);
        }
        let path = routes.places.at(strand as usize);
        if strand as usize >= net.strands.len() || !is_long(net, strand, path) {
            return Ok(String::from_str(alloc, "another strand")?);
        }
        if let Some(why) = lay_path(
            alloc,
            &mut work,
            net,
            model,
            prices,
            &found.plan,
            &mut taken,
            strand,
            path,
        )? {
            return Ok(why);
        }
    }
    Ok(String::from_str(alloc, "laid")?)
}

/// What is found in place of the first line of paths of a row that is not right.
pub(crate) fn differs_on_paths<F: Fn(Event, u32) -> u32>(
    alloc: Global,
    net: &Net,
    model: &CostModel<F>,
    prices: &Prices,
    found: &Found,
    at: &str,
) -> Result<Option<String>, OutOfMemory>
    requires kept { Keeps F.Fn model.now }
    requires net { IsBuilt net.now }
    requires prices { AreInRange net.now prices.now }
{
    for line in at.lines() {
        if let Some(said) = line.strip_prefix("paths ") {
            let (said, text) = said.split_once('=').unwrap_or((said, ""));
            let routes = paths(alloc, text)?;
            let told = verdict(alloc, net, model, prices, found, &routes)?;
            if told.as_str() != said {
                return Ok(Some(told));
            }
        }
    }
    Ok(None)
}
