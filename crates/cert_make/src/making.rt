// A certificate is made of what is kept of procedures.

ghost use Rattle.std.specs.Prelude.{◌≡◌, IfOk};
ghost use Rattle.pra_report.specs.Report.{last_cost, last_bound};
ghost use Rattle.cert_make.specs.Made.{caps_from, numbers_from, IsCertOf, IsCertificateOf};

use cert_form::{CapAt, Cert, Certificate, CostWord, TieAt};
use net_form::{Line, TieNumbers};
use pra_base::OutOfMemory;
use pra_list::Seq;
use pra_report::ProcOut;
use std::alloc::Global;

fn caps_of(alloc: Global, prices: &[u64]) -> Result<Seq<CapAt>, OutOfMemory>
    ensures { IfOk result (λ caps. caps ≡ caps_from 0 prices.now) }
{
    let mut caps = Seq::new(alloc);
    for (index, price) in prices.iter().enumerate() {
        if *price == 0 {
            continue;
        }
        let at = u32::try_from(index).map_err(|_| OutOfMemory)?;
        caps.push(CapAt { at, price: *price })?;
    }
    Ok(caps)
}

fn numbers_of(alloc: Global, numbers: &TieNumbers) -> Result<Seq<TieAt>, OutOfMemory>
    ensures { IfOk result (λ ties. ties ≡ numbers_from 0 numbers.now) }
{
    let mut ties = Seq::new(alloc);
    for index in 0..numbers.len() {
        let number = numbers.at(index);
        if number == 0 {
            continue;
        }
        let at = u32::try_from(index).map_err(|_| OutOfMemory)?;
        ties.push(TieAt { at, number })?;
    }
    Ok(ties)
}

// The last line; of no lines it is one of nothing.
fn last_of(lines: &[Line]) -> Line
    ensures cost { result.cost ≡ last_cost lines.now }
    ensures bound { result.bound ≡ last_bound lines.now }
{
    match lines.last() {
        Some(line) => *line,
        None => Line {
            round: 0,
            cost: 0,
            bound: 0,
        },
    }
}

fn cert_of(alloc: Global, out: ProcOut) -> Result<Cert, OutOfMemory>
    ensures { IfOk result (IsCertOf out) }
{
    let ProcOut {
        code,
        routes,
        prices,
        lines,
        ..
    } = out;
    let prices = prices.unpacked(alloc)?;
    let caps = caps_of(alloc, prices.caps.as_slice())?;
    let mems = caps_of(alloc, prices.mems.as_slice())?;
    let ties = numbers_of(alloc, &prices.ties)?;
    let last = last_of(lines.as_slice());
    let total = u64::try_from(last.cost).map_err(|_| OutOfMemory)?;
    let bound = u64::try_from(last.bound).map_err(|_| OutOfMemory)?;
    Ok(Cert {
        code,
        routes,
        caps,
        mems,
        ties,
        total,
        bound,
    })
}

/// The certificate of these procedures, whose costs are counted by these weights. Codes and
/// routes are moved, prices unpacked, and all else is made in one pass over the prices.
///
/// # Errors
///
/// Where there is no memory for prices or their entries. A price at an index that 32 bits
/// don't hold, and a cost or a bound that 64 bits don't hold, are taken for that too: no sized code
/// has them.
pub fn certificate_of(
    alloc: Global,
    cost: CostWord,
    procs: Seq<ProcOut>,
) -> Result<Certificate, OutOfMemory>
    ensures { IfOk result (IsCertificateOf cost procs) }
{
    let mut certs = Vec::new(alloc);
    for out in procs.into_vec() {
        certs.push(cert_of(alloc, out)?)?;
    }
    Ok(Certificate {
        cost,
        procs: Seq::from_vec(certs),
    })
}
