//! Runs the modules of examples/ by the tool's own call, and prints of each what it writes, what is
//! noted of its procedures and its ending, and the status.
//!
//! `data` holds a copy of each module of examples/, equal to the byte, and the input that it is run
//! on. What the modules write was worked out apart from the program; frames and steps are those
//! that it told once, so that a change of them is seen.
#![tactic(auto)]

use anyhow::anyhow;
use pra_base::OutOfMemory;
use pra_io::{Folder, HostFolder, MemSink, MemSource};
use pra_tool::run_tool;
use std::alloc::Global;
use std::str;

/// The modules, each in the file NAME.ob, with its input in NAME.in; behind the name stand the
/// options that it is run with.
const EXAMPLES: &str = "\
first
sums
samples
sort
primes
permutations
ackermann
matrix
magic
queue
overflow
eight
endless --steps 400";

/// The most bytes of an input, of an output and of notes.
const ROOM: usize = 4_096;

/// What a run writes, and its status.
#[derive(Drop)]
struct Ran {
    out: MemSink,
    notes: MemSink,
    status: u8,
}

fn main(rt: HostRuntime) -> anyhow::Result<()> {
    let alloc = rt.alloc();
    for line in EXAMPLES.lines() {
        let mut folder = HostFolder::new(alloc, &rt);
        let (name, options) = line.split_once(' ').unwrap_or((line, ""));
        let words = words(alloc, name, options).map_err(|_| anyhow!("no memory"))?;
        let input = input(alloc, &mut folder, name)?;
        let ran = run(alloc, &words, &mut folder, input).map_err(|_| anyhow!("no memory"))?;
        println!(rt; "{line}")?;
        println!(rt; "{}", str::from_utf8(ran.out.bytes())?)?;
        print!(rt; "{}", str::from_utf8(ran.notes.bytes())?)?;
        println!(rt; "status {}", ran.status)?;
    }
    Ok(())
}

// The words of the call that runs NAME.ob.
fn words(alloc: Global, name: &str, options: &str) -> Result<Vec<String>, OutOfMemory> {
    let mut words = Vec::new(alloc);
    words.push(String::from_str(alloc, "run")?)?;
    words.push(format!(in alloc; "{name}.ob")?)?;
    for option in options.split_ascii_whitespace() {
        words.push(String::from_str(alloc, option)?)?;
    }
    Ok(words)
}

// What NAME.in holds.
fn input<D: Folder>(alloc: Global, folder: &mut D, name: &str) -> anyhow::Result<MemSource> {
    let name = format!(in alloc; "{name}.in")?;
    let bytes = folder.read_file(alloc, &name, ROOM);
    let bytes = bytes.map_err(|_| anyhow!("an input can't be read"))?;
    Ok(MemSource::new(bytes, ROOM, Vec::new(alloc)))
}

// What the call leaves that reads the given input.
fn run<D: Folder>(
    alloc: Global,
    words: &[String],
    folder: &mut D,
    mut input: MemSource,
) -> Result<Ran, OutOfMemory> {
    let mut out = MemSink::new(alloc, ROOM, ROOM, Vec::new(alloc))?;
    let mut notes = MemSink::new(alloc, ROOM, ROOM, Vec::new(alloc))?;
    let status = run_tool(alloc, words, folder, &mut input, &mut out, &mut notes);
    Ok(Ran { out, notes, status })
}
