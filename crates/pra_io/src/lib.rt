//! The outside of the compiler: a folder, a source and a sink, each with what it is told to hold
//! and a count of its faults.
//!
//! Contracts see what an object holds, where it tells that, and how often it has failed. A call
//! answers `Failed` only where that count rose, so a caller can say of each fault of its own whose
//! fault it was.
#![tactic(auto)]

mod calls;
pub mod files;
pub mod host;
pub mod memory;
pub mod quiet;
pub mod streams;

pub use files::{FileFault, Folder};
pub use host::{HostFolder, HostSink, HostSource};
pub use memory::{MemFolder, MemSink, MemSource};
pub use quiet::{QuietFolder, QuietSink, QuietSource};
pub use streams::{Failed, LONGEST_READ, ReadAll, Sink, Source, WriteFault, read_all, write_all};
