// The answer on a certificate.

ghost use Rattle.std.specs.Prelude.{◌≡◌, ◌<◌, length, IfOk};
ghost use Rattle.net_cost.specs.Models.{Keeps, weights_of};
ghost use Rattle.net_laws.specs.Built.{IsBuilt};
ghost use Rattle.cert_check.specs.Reasons.{weights_by, counts_in, IsFirstIn, IsFirstOf};
ghost use Rattle.cert_check.specs.Reasons.{IsAnswerOf, AreBounded};

use crate::code::{Found, counts_of, network_of};
use crate::listed::has_prices;
use crate::routes::has_routes;
use crate::value::has_bound;
use cert_form::{Cert, Certificate, CostWord};
use net_cost::{CostModel, Event, Weights};
use net_form::{Net, Spare};
use net_gate::cost;
use pra_base::OutOfMemory;
use std::alloc::Global;

/// What a check answers.
#[derive(Clone, Copy, Debug, PartialEq, Eq, Drop)]
pub enum CertAnswer {
    /// All that the certificate claims is so.
    Yes,
    /// The procedure of this number is the first of which something is not so, for this reason.
    No(u32, Reason),
}

/// What is not so of a procedure, in the order in which it is looked for.
#[derive(Clone, Copy, Debug, PartialEq, Eq, Drop)]
pub enum Reason {
    /// Its id is not its number, or its code is not valid, calls a procedure that is not there, or
    /// is not sized.
    Code,
    /// Its routes have not one place for each strand and layer, or are not admitted.
    Routes,
    /// An index or a value of a price is out of its range, an entry is 0, or indexes do not rise.
    Prices,
    /// Its routes cost another number than the total.
    Total,
    /// Its bound is above the value at its prices.
    Bound,
}

// The first reason that holds on the network of a procedure, by the weights of the model.
fn first_in<F: Fn(Event, u32) -> u32>(
    alloc: Global,
    model: &CostModel<F>,
    net: &Net,
    cert: &Cert,
) -> Result<Option<Reason>, OutOfMemory>
    requires kept { Keeps F.Fn model.now }
    requires net { IsBuilt net.now }
    ensures { IfOk result (IsFirstIn (weights_of model.now) net.now cert.now) }
{
    let Spare {
        mut taken,
        zero,
        ..
    } = Spare::empty(alloc, net)?;
    if !has_routes(&mut taken, net, &cert.routes) {
        return Ok(Some(Reason::Routes));
    }
    if !has_prices(&zero, cert) {
        return Ok(Some(Reason::Prices));
    }
    if cost(net, model, &cert.routes) != u128::from(cert.total) {
        return Ok(Some(Reason::Total));
    }
    if !has_bound(alloc, model, net, zero, cert)? {
        return Ok(Some(Reason::Bound));
    }
    Ok(None)
}

// The first reason that holds of a procedure.
fn first_of<F: Fn(Event, u32) -> u32>(
    alloc: Global,
    model: &CostModel<F>,
    c: &Certificate,
    counts: &[u32],
    number: u32,
) -> Result<Option<Reason>, OutOfMemory>
    requires kept { Keeps F.Fn model.now }
    requires weights { weights_of model.now ≡ weights_by c.now.cost }
    requires counts { counts.now ≡ counts_in c.now.procs }
    requires number { number < length c.now.procs }
    ensures { IfOk result (IsFirstOf c.now number) }
{
    let cert = &c.procs[number as usize];
    match network_of(alloc, counts, number, cert)? {
        Found::Fails(reason) => Ok(Some(reason)),
        Found::Made(net) => first_in(alloc, model, &net, cert),
    }
}

// The answer by a model.
fn check_by<F: Fn(Event, u32) -> u32>(
    alloc: Global,
    model: &CostModel<F>,
    c: &Certificate,
) -> Result<CertAnswer, OutOfMemory>
    requires kept { Keeps F.Fn model.now }
    requires weights { weights_of model.now ≡ weights_by c.now.cost }
    ensures { IfOk result (IsAnswerOf c.now) }
{
    let count = u32::try_from(c.procs.len()).map_err(|_| OutOfMemory)?;
    let counts = counts_of(alloc, c.procs.as_slice())?;
    for number in 0..count {
        if let Some(reason) = first_of(alloc, model, c, counts.as_slice(), number)? {
            return Ok(CertAnswer::No(number, reason));
        }
    }
    Ok(CertAnswer::Yes)
}

/// Whether a certificate holds, or the first procedure of which it does not and why.
///
/// # Errors
///
/// Where there is no memory for it, or the certificate or one of its networks has a list with more
/// elements than 32 bits count.
pub fn check_cert(alloc: Global, c: &Certificate) -> Result<CertAnswer, OutOfMemory>
    ensures answer { IfOk result (IsAnswerOf c.now) }
    ensures bounded { IfOk result (λ answer. answer ≡ CertAnswer.Yes → AreBounded c.now) }
{
    match c.cost {
        CostWord::Size => {
            let model = CostModel::keep(Weights::size(), |event: Event, depth: u32| {
                Weights::size().weight(event, depth)
            });
            check_by(alloc, &model, c)
        }
        CostWord::Speed => {
            let model = CostModel::keep(Weights::speed(), |event: Event, depth: u32| {
                Weights::speed().weight(event, depth)
            });
            check_by(alloc, &model, c)
        }
    }
}
