// Measurements, a word for each: the work that the scripts of bench/ time.
//
//     live, tidy                 of the largest procedures that are sized
//     network [PART]             the network of the largest, and what is asked of it up to PART
//     assemble                   200 procedures, a hundred times
//     list [BYTES [listed]]      an image whose text is so long, and back unless it is only listed
//     step, interp [calls]       a loop on the machine; a loop or calls by the meaning
//     generate SEED SIZE         the text of a module
//     all                        each of them once, with no words or those that make it short
#![tactic(auto)]

mod assemble;
mod generate;
mod interp;
mod list;
mod live;
mod network;
mod step;
mod tidy;

use anyhow::{anyhow, bail};
use std::env;

fn main(rt: HostRuntime) -> anyhow::Result<()> {
    let mut words = env::args(&rt)?.skip(1);
    let name = words.next().unwrap_or(String::new(rt.alloc()));
    let first = words.next();
    let second = words.next();
    if name.as_str() == "all" {
        return each(&rt);
    }
    measure(&rt, &name, first, second)
}

fn measure(
    rt: &HostRuntime,
    name: &str,
    first: Option<String>,
    second: Option<String>,
) -> anyhow::Result<()> {
    if name == "live" {
        return live::measure(rt);
    }
    if name == "tidy" {
        return tidy::measure(rt);
    }
    if name == "assemble" {
        return assemble::measure(rt);
    }
    if name == "step" {
        return step::measure(rt);
    }
    if name == "network" {
        return network::measure(rt, first);
    }
    if name == "list" {
        return list::measure(rt, first, second.is_none());
    }
    if name == "interp" {
        return interp::measure(rt, first.as_deref());
    }
    if name == "generate" {
        return generate::measure(rt, number(first)?, number(second)?);
    }
    bail!("no measurement has this name");
}

fn number(word: Option<String>) -> anyhow::Result<u32> {
    let word = word.ok_or_else(|| anyhow!("the words are a seed and a size"))?;
    Ok(word.parse::<u32>()?)
}

fn each(rt: &HostRuntime) -> anyhow::Result<()> {
    live::measure(rt)?;
    tidy::measure(rt)?;
    network::measure(rt, None)?;
    assemble::measure(rt)?;
    list::measure(rt, None, true)?;
    step::measure(rt)?;
    interp::measure(rt, Some("calls"))?;
    generate::measure(rt, 1, 2)
}
