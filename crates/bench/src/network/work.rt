// How far the work goes, and how long its parts take.

use std::time::CpuClock;

/// Why the work goes no further.
#[derive(Copy, Clone, Debug, Drop)]
pub enum Stop {
    /// The last part is done.
    Done,
    NoMemory,
    NotSized,
    NotValid,
    NotAdmitted,
    /// No clock, or nowhere to write.
    NoHost,
}

impl Stop {
    /// What the program says of it. Nothing where the last part is done.
    pub fn told(self) -> Option<&'static str> {
        match self {
            Stop::Done => None,
            Stop::NoMemory => Some("no memory"),
            Stop::NotSized => Some("not sized"),
            Stop::NotValid => Some("not valid"),
            Stop::NotAdmitted => Some("not admitted"),
            Stop::NoHost => Some("no clock, or nowhere to write"),
        }
    }
}

/// The last part that is to be done, and the processor time when a part began.
#[derive(Drop)]
pub struct Work {
    last: String,
    is_noted: bool,
    begun: u128,
}

fn now(rt: &HostRuntime) -> Result<u128, Stop> {
    Ok(rt.process_cpu_time().map_err(|_| Stop::NoHost)?.as_millis())
}

/// The word says how far; with none it goes until the network is made.
pub fn begin(rt: &HostRuntime, word: Option<String>) -> anyhow::Result<Work> {
    let is_noted = word.is_some();
    let last = match word {
        Some(word) => word,
        None => String::from_str(rt.alloc(), "build")?,
    };
    Ok(Work {
        last,
        is_noted,
        begun: 0,
    })
}

impl Work {
    /// A part begins.
    pub fn start(&mut self, rt: &HostRuntime) -> Result<(), Stop> {
        self.begun = now(rt)?;
        Ok(())
    }

    /// A part is done, and the next one begins if there is one.
    pub fn done(&mut self, rt: &HostRuntime, part: &str) -> Result<(), Stop> {
        let now = now(rt)?;
        if self.is_noted {
            let time = now.saturating_sub(self.begun);
            eprintln!(rt; "{part} {time} ms").map_err(|_| Stop::NoHost)?;
        }
        if self.last.as_str() == part {
            return Err(Stop::Done);
        }
        self.begun = now;
        Ok(())
    }
}
