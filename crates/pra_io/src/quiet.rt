// A folder, a source and a sink that never fail.

ghost use Rattle.std.specs.Prelude.{◌≡◌, ◌≤◌, ◌+◌, ◌-◌, ◌^◌, ℕ, List, None, Some, Ok, min, vec_len};
ghost use Rattle.std.specs.Prelude.{length};

use crate::files::{FileFault, Folder};
use crate::memory::{Entry, copied, copy_front, find, put_first};
use crate::streams::{Failed, Sink, Source};
use std::alloc::Global;

/// A folder over one file: a name that was never written reads that file, and a written one what
/// was last written to it.
#[derive(Debug, Drop)]
pub struct QuietFolder {
    given: Vec<u8>,
    written: Vec<Entry>,
}

impl QuietFolder {
    /// A folder in which each name holds these bytes.
    pub fn new(bytes: Vec<u8>) -> QuietFolder
        ensures files { (n : List ℕ) → ⟦<QuietFolder as Folder>⟧.file result n ≡ Some
            (Some bytes.items) }
        ensures read_faults { (n : List ℕ) → ⟦<QuietFolder as Folder>⟧.read_faults result n ≡ 0 }
        ensures write_faults { (n : List ℕ) → ⟦<QuietFolder as Folder>⟧.write_faults result n ≡ 0 }
    {
        let written = Vec::new(*bytes.allocator());
        QuietFolder {
            given: bytes,
            written,
        }
    }

    /// What a name holds.
    pub fn file(&self, name: &str) -> &[u8]
        ensures { ⟦<QuietFolder as Folder>⟧.file self.now name.now ≡ Some (Some result.now) }
    {
        find(&self.written, name).unwrap_or(&self.given)
    }
}

impl Folder for QuietFolder {
    ghost use Rattle.pra_io.specs.Quiet.{quiet_file};

    ghost file = { λ folder name. Some (Some (quiet_file folder name)) };

    ghost read_faults = { λ _ _. 0 };

    ghost write_faults = { λ _ _. 0 };

    fn read_file(&mut self, alloc: Global, name: &str, max: usize) -> Result<Vec<u8>, FileFault> {
        let bytes = self.file(name);
        if bytes.len() > max {
            return Err(FileFault::TooLong);
        }
        Ok(copied(alloc, bytes)?)
    }

    fn write_file(&mut self, alloc: Global, name: &str, bytes: &[u8]) -> Result<(), FileFault> {
        Ok(put_first(alloc, &mut self.written, name, bytes)?)
    }
}

/// A source that never fails.
#[derive(Debug, Drop)]
pub struct QuietSource {
    bytes: Vec<u8>,
    at: usize,
    ghost within: { at ≤ vec_len bytes },
}

impl QuietSource {
    /// A source of these bytes.
    pub fn new(bytes: Vec<u8>) -> QuietSource
        ensures left { ⟦<QuietSource as Source>⟧.left result ≡ Some bytes.items }
        ensures faults { ⟦<QuietSource as Source>⟧.faults result ≡ 0 }
    {
        QuietSource { bytes, at: 0 }
    }

    /// The bytes that are left.
    pub fn left(&self) -> &[u8]
        ensures { ⟦<QuietSource as Source>⟧.left self.now ≡ Some result.now }
    {
        &self.bytes[self.at..]
    }
}

impl Source for QuietSource {
    ghost use Rattle.pra_io.specs.Quiet.{quiet_left};

    ghost left = { λ source. Some (quiet_left source) };

    ghost faults = { λ _. 0 };

    fn take(&mut self, buf: &mut [u8]) -> Result<usize, Failed> {
        let count = copy_front(&self.bytes[self.at..], buf, usize::MAX);
        self.at += count;
        Ok(count)
    }
}

/// A sink that never fails, and tells only how many bytes were put.
#[derive(Debug, Drop)]
pub struct QuietSink {
    count: u64,
}

impl QuietSink {
    ghost use Rattle.pra_io.specs.Quiet.{quiet_count};

    /// A sink to which nothing was put.
    pub fn new() -> QuietSink
        ensures count { quiet_count result ≡ 0 }
        ensures faults { ⟦<QuietSink as Sink>⟧.faults result ≡ 0 }
    {
        QuietSink { count: 0 }
    }

    /// How many bytes were put. The count stands still at its last number.
    pub fn count(&self) -> u64
        ensures { result ≡ quiet_count self.now }
    {
        self.count
    }
}

impl Sink for QuietSink {
    ghost use Rattle.pra_io.specs.Quiet.{quiet_count};

    ghost bytes = { λ _. None };

    ghost faults = { λ _. 0 };

    fn put(&mut self, piece: &[u8]) -> Result<usize, Failed>
        ensures whole { result ≡ Ok (length piece.now) }
        ensures count { quiet_count self.new ≡ min (quiet_count self.old + length piece.now)
            (2 ^ 64 - 1) }
    {
        self.count = self.count.saturating_add(piece.len() as u64);
        Ok(piece.len())
    }
}
