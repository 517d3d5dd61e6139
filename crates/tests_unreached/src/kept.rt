// What is kept of a procedure comes back as it was.

use net_form::{Prices, TieNumbers};
use net_kept::KeptPrices;
use pra_list::Seq;
use std::alloc::Global;
use std::process::Abort;
use std::test::Fail;

// Keeps prices of so many ties, after numbers were put at indexes one by one.
fn check_prices(
    rt: &impl Abort,
    alloc: Global,
    ties: usize,
    put: &[(usize, i64)],
) -> Result<(), Fail> {
    let mut numbers = TieNumbers::zeros(alloc, ties)?;
    for (index, number) in put {
        if *index < numbers.len() {
            numbers.set_at(*index, *number);
        }
    }
    let before = numbers.copy(alloc)?;
    let prices = Prices {
        caps: Seq::from_slice(alloc, &[1, 2])?,
        mems: Seq::from_slice(alloc, &[3])?,
        ties: numbers,
    };
    let prices = KeptPrices::of(alloc, prices)?.unpacked(alloc)?;
    assert_eq!(rt; prices.caps.as_slice(), [1, 2].as_slice());
    assert_eq!(rt; prices.mems.as_slice(), [3].as_slice());
    assert_eq!(rt; prices.ties.ties(), ties);
    for index in 0..before.len().min(prices.ties.len()) {
        assert_eq!(rt; prices.ties.at(index), before.at(index), "at {index}");
    }
    Ok(())
}

#[test]
fn prices(rt: HostRuntime) -> Result<(), Fail> {
    let alloc = rt.alloc();
    check_prices(&rt, alloc, 0, &[])?;
    check_prices(&rt, alloc, 3, &[])?;
    check_prices(&rt, alloc, 1, &[(0, 7), (12, -1)])?;
    check_prices(&rt, alloc, 4, &[(13, -5), (25, 1 << 40), (51, i64::MIN)])?;
    check_prices(
        &rt,
        alloc,
        4,
        &[(14, 6), (14, 0), (30, 0), (50, 2), (50, 3)],
    )
}
