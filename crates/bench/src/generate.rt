// Prints the module that is generated of a seed and a size, as the mode gen writes it.

use anyhow::{anyhow, ensure};
use pra_gen::generate;
use std::alloc::{Alloc, Global};
use std::str;

const LARGEST_SEED: u32 = 2_147_483_647;

const LARGEST_SIZE: u32 = 200;

/// Prints the module of a seed and a size.
pub fn measure(rt: &HostRuntime, seed: u32, size: u32) -> anyhow::Result<()> {
    let text = generated(rt.alloc(), seed, size)?;
    print!(rt; "{}", str::from_utf8(&text)?)?;
    Ok(())
}

fn generated(alloc: Global, seed: u32, size: u32) -> anyhow::Result<Vec<u8>> {
    ensure!(seed <= LARGEST_SEED, "a seed is at most {LARGEST_SEED}");
    ensure!(
        1 <= size && size <= LARGEST_SIZE,
        "a size is 1 to {LARGEST_SIZE}"
    );
    generate(alloc, seed, size).map_err(|_| anyhow!("no memory"))
}
