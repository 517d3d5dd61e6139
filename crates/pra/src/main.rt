//! The program `pra`: the command line over files, standard input, standard output and standard
//! error.
#![tactic(auto)]

use pra_base::OutOfMemory;
use pra_io::{HostFolder, HostSink, HostSource};
use pra_tool::run_tool;
use std::alloc::Alloc;
use std::env::Env;
use std::process::ExitCode;
use std::{env, io};

/// The exit status where there is no memory for the words.
const NO_MEMORY: u8 = 8;

fn main(rt: HostRuntime) -> ExitCode {
    let Ok(words) = words(&rt) else {
        return ExitCode::from(NO_MEMORY);
    };
    let mut folder = HostFolder::new(rt.alloc(), &rt);
    let mut input = HostSource::new(rt.stdin());
    let mut out = HostSink::new(rt.stdout());
    let mut notes = HostSink::new(rt.stderr());
    ExitCode::from(run_tool(
        rt.alloc(),
        &words,
        &mut folder,
        &mut input,
        &mut out,
        &mut notes,
    ))
}

// The words behind the program's name. Where one of them is no UTF-8 text they are all left out:
// the tool refuses that list as it refuses every faulty command line.
fn words(rt: &HostRuntime) -> Result<Vec<String>, OutOfMemory> {
    let mut words = Vec::new(rt.alloc());
    match env::args(rt) {
        Ok(args) => {
            for word in args.skip(1) {
                words.push(word)?;
            }
        }
        Err(error) if error.kind() == io::ErrorKind::InvalidData => {}
        Err(_) => return Err(OutOfMemory),
    }
    Ok(words)
}
