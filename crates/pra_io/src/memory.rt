// A folder, a source and a sink in memory, which fail at listed calls.

ghost use Rattle.std.specs.Option.{option_copied};
ghost use Rattle.std.specs.Prelude.{◌⊎◌, ◌↔◌, ◌-◌, min, IsErr, IsErrOf, ◌≡◌, ◌≢◌, List, OnErr, ◌≤◌};
ghost use Rattle.std.specs.Prelude.{◌<◌, ℕ, [], None, Some, vec_len, vec_capacity, length, take};
ghost use Rattle.std.specs.Prelude.{drop, OnOk, IfOk, IsSomeAnd, string_bytes};
ghost use Rattle.std.specs.Io.{ReadsAtMost, WritesAtMost};
ghost use Rattle.std.specs.Io.KnownBytes.{ReadConsumes, WriteAppends};
ghost use Rattle.pra_io.specs.Calls.{no_calls, FailsNext, Counts, CountsFile};
ghost use Rattle.pra_io.specs.Causes.{HasCause, FileCause};
ghost use Rattle.pra_io.specs.Entries.{held_at, AreDifferent};

use crate::calls::Calls;
use crate::files::{FileFault, Folder};
use crate::streams::{Failed, Sink, Source};
use pra_base::OutOfMemory;
use std::alloc::Global;

/// A name and what it holds.
pub(crate) type Entry = (String, Vec<u8>);

/// What the first entry of this name holds.
pub(crate) fn find<'a>(files: &'a [Entry], name: &str) -> Option<&'a [u8]>
    ensures { option_copied result ≡ held_at name.now files.now }
{
    let mut rest = files;
    while let [entry, others @ ..] = rest {
        if entry.0.as_str() == name {
            return Some(&entry.1);
        }
        rest = others;
    }
    None
}

/// Puts an entry in front of the others, which hides older ones of its name.
pub(crate) fn put_first(
    alloc: Global,
    files: &mut Vec<Entry>,
    name: &str,
    bytes: &[u8],
) -> Result<(), OutOfMemory>
    ensures ok { OnOk result (held_at name.now files.new.items ≡ Some bytes.now) }
    ensures others { (n : List ℕ) → n ≢ name.now →
        held_at n files.new.items ≡ held_at n files.old.items }
    ensures err { OnErr result (files.new.items ≡ files.old.items) }
{
    let entry = (String::from_str(alloc, name)?, bytes.to_vec(alloc)?);
    files.insert(0, entry)?;
    Ok(())
}

/// A copy of the bytes.
pub(crate) fn copied(alloc: Global, bytes: &[u8]) -> Result<Vec<u8>, OutOfMemory>
    ensures { IfOk result (λ v. v.items ≡ bytes.now) }
{
    Ok(bytes.to_vec(alloc)?)
}

/// A folder in memory.
///
/// Its calls are numbered from 1, reads and writes together, and it fails at the listed ones and
/// where an absent name is read. It has one count of faults for all names, for reading and for
/// writing.
#[derive(Debug, Drop)]
pub struct MemFolder {
    files: Vec<Entry>,
    calls: Calls,
}

impl MemFolder {
    ghost use Rattle.pra_io.specs.Memory.{folder_file, folder_calls, folder_faults};

    /// A folder of these names with what they hold, no two of them equal.
    pub fn new(files: Vec<(String, Vec<u8>)>, failing: Vec<u64>) -> MemFolder
        requires { AreDifferent files.items }
        ensures files { (n : List ℕ) → ⟦<MemFolder as Folder>⟧.file result n ≡ Some
            (held_at n files.items) }
        ensures read_faults { (n : List ℕ) → ⟦<MemFolder as Folder>⟧.read_faults result n ≡ 0 }
        ensures write_faults { (n : List ℕ) → ⟦<MemFolder as Folder>⟧.write_faults result n ≡ 0 }
        ensures calls { folder_calls result ≡ no_calls failing }
    {
        MemFolder {
            files,
            calls: Calls::new(failing),
        }
    }

    /// What a name holds, or `None` where it is absent.
    pub fn file(&self, name: &str) -> Option<&[u8]>
        ensures { ⟦<MemFolder as Folder>⟧.file self.now name.now ≡ Some (option_copied result) }
    {
        find(&self.files, name)
    }

    /// How many calls have failed.
    pub fn faults(&self) -> u64
        ensures reading { (n : List ℕ) → ⟦<MemFolder as Folder>⟧.read_faults self.now n ≡ result }
        ensures writing { (n : List ℕ) → ⟦<MemFolder as Folder>⟧.write_faults self.now n ≡ result }
    {
        self.calls.faults()
    }
}

impl Folder for MemFolder {
    ghost use Rattle.pra_io.specs.Memory.{folder_file, folder_calls, folder_faults};

    ghost file = { λ folder name. Some (folder_file folder name) };

    ghost read_faults = { folder_faults };

    ghost write_faults = { folder_faults };

    fn read_file(&mut self, alloc: Global, name: &str, max: usize) -> Result<Vec<u8>, FileFault>
        ensures bytes { IfOk result (λ v. folder_file self.old name.now ≡ Some v.items) }
        ensures size { IfOk result (λ v. vec_len v ≤ max) }
        ensures too_long { IsErrOf result FileFault.TooLong → IsSomeAnd
            (folder_file self.old name.now) (λ held. max < length held) }
        ensures same { (n : List ℕ) → folder_file self.new n ≡ folder_file self.old n }
        ensures cause { FileCause name.now (folder_faults self.old) (folder_faults self.new)
            (folder_faults self.old) (folder_faults self.new) result }

        // It fails at the listed calls and where the name is absent, and only there.
        ensures failed { IsErrOf result FileFault.Failed ↔ (FailsNext (folder_calls self.old) ⊎
            (folder_file self.old name.now ≡ None)) }
        ensures counted { CountsFile (folder_calls self.old) (folder_calls self.new) result }
    {
        self.calls.begin()?;
        match find(&self.files, name) {
            Some(bytes) if bytes.len() > max => Err(FileFault::TooLong),
            Some(bytes) => Ok(copied(alloc, bytes)?),
            None => Err(self.calls.fail().into()),
        }
    }

    fn write_file(&mut self, alloc: Global, name: &str, bytes: &[u8]) -> Result<(), FileFault>
        ensures written { OnOk result (folder_file self.new name.now ≡ Some bytes.now) }
        ensures others { (n : List ℕ) → n ≢ name.now →
            folder_file self.new n ≡ folder_file self.old n }
        ensures never_long { IsErrOf result FileFault.TooLong → ⊥ }
        ensures memory { IsErrOf result FileFault.OutOfMemory → (n : List ℕ) →
            folder_file self.new n ≡ folder_file self.old n }
        ensures cause { FileCause name.now (folder_faults self.old) (folder_faults self.new)
            (folder_faults self.old) (folder_faults self.new) result }

        // It fails at the listed calls, and only there, and changes no file then.
        ensures failed { IsErrOf result FileFault.Failed ↔ FailsNext (folder_calls self.old) }
        ensures unchanged { IsErrOf result FileFault.Failed → (n : List ℕ) →
            folder_file self.new n ≡ folder_file self.old n }
        ensures counted { CountsFile (folder_calls self.old) (folder_calls self.new) result }
    {
        self.calls.begin()?;
        Ok(put_first(alloc, &mut self.files, name, bytes)?)
    }
}

/// Copies the front of the bytes to the front of the buffer, at most a piece of them, and answers
/// how many.
pub(crate) fn copy_front(rest: &[u8], buf: &mut [u8], piece: usize) -> usize
    requires { 0 < piece }
    ensures bound { result ≤ length buf.new }
    ensures short { result ≤ length rest.now }
    ensures front { take result buf.new ≡ take result rest.now }
    ensures end { result ≡ 0 → 0 < length buf.new → length rest.now ≡ 0 }
    ensures count { result ≡ min (min (length rest.now) (length buf.old)) piece }
{
    let count = rest.len().min(buf.len()).min(piece);
    buf[..count].copy_from_slice(&rest[..count]);
    count
}

/// A source in memory, which gives at most a piece at a time and fails at the listed calls,
/// numbered from 1.
#[derive(Debug, Drop)]
pub struct MemSource {
    bytes: Vec<u8>,
    at: usize,
    piece: usize,
    calls: Calls,
    ghost within: { at ≤ vec_len bytes },
    ghost some: { 0 < piece },
}

impl MemSource {
    ghost use Rattle.pra_io.specs.Memory.{source_left, source_piece, source_calls};

    /// A source of these bytes.
    pub fn new(bytes: Vec<u8>, piece: usize, failing: Vec<u64>) -> MemSource
        requires { 0 < piece }
        ensures left { ⟦<MemSource as Source>⟧.left result ≡ Some bytes.items }
        ensures faults { ⟦<MemSource as Source>⟧.faults result ≡ 0 }
        ensures piece { source_piece result ≡ piece }
        ensures calls { source_calls result ≡ no_calls failing }
    {
        MemSource {
            bytes,
            at: 0,
            piece,
            calls: Calls::new(failing),
        }
    }

    /// The bytes that are left.
    pub fn left(&self) -> &[u8]
        ensures { ⟦<MemSource as Source>⟧.left self.now ≡ Some result.now }
    {
        &self.bytes[self.at..]
    }

    /// How many calls have failed.
    pub fn faults(&self) -> u64
        ensures { ⟦<MemSource as Source>⟧.faults self.now ≡ result }
    {
        self.calls.faults()
    }
}

impl Source for MemSource {
    ghost use Rattle.pra_io.specs.Memory.{source_left, source_piece, source_calls};

    ghost left = { λ source. Some (source_left source) };

    ghost faults = { λ source. (source_calls source).faults };

    fn take(&mut self, buf: &mut [u8]) -> Result<usize, Failed>
        ensures bound { ReadsAtMost result buf.new }
        ensures bytes { ReadConsumes (Some (source_left self.old)) (Some
            (source_left self.new)) result buf.new }
        ensures cause { HasCause (source_calls self.old).faults
            (source_calls self.new).faults result }

        // It fails at the listed calls, and only there, and gives as much as it has, up to a piece.
        ensures failed { IsErr result ↔ FailsNext (source_calls self.old) }
        ensures counted { Counts (source_calls self.old) (source_calls self.new) result }
        ensures count { IfOk result (λ n. n ≡ min (min (length (source_left self.old))
            (length buf.old)) (source_piece self.old)) }
        ensures piece { source_piece self.new ≡ source_piece self.old }
    {
        self.calls.begin()?;
        let count = copy_front(&self.bytes[self.at..], buf, self.piece);
        self.at += count;
        Ok(count)
    }
}

/// A sink in memory, which takes at most a piece at a time, and no more than its capacity in all.
/// It fails at the listed calls, numbered from 1, and where it is full.
#[derive(Debug, Drop)]
pub struct MemSink {
    bytes: Vec<u8>,
    capacity: usize,
    piece: usize,
    calls: Calls,
    ghost within: { vec_len bytes ≤ capacity },
    ghost room: { capacity ≤ vec_capacity bytes },
    ghost some: { 0 < piece },
}

impl MemSink {
    ghost use Rattle.pra_io.specs.Memory.{sink_bytes, sink_piece, sink_capacity, sink_calls};

    /// An empty sink. All the memory that it will need is taken here.
    pub fn new(
        alloc: Global,
        capacity: usize,
        piece: usize,
        failing: Vec<u64>,
    ) -> Result<MemSink, OutOfMemory>
        requires { 0 < piece }
        ensures bytes { IfOk result (λ sink. ⟦<MemSink as Sink>⟧.bytes sink ≡ Some []) }
        ensures faults { IfOk result (λ sink. ⟦<MemSink as Sink>⟧.faults sink ≡ 0) }
        ensures capacity { IfOk result (λ sink. sink_capacity sink ≡ capacity) }
        ensures piece { IfOk result (λ sink. sink_piece sink ≡ piece) }
        ensures calls { IfOk result (λ sink. sink_calls sink ≡ no_calls failing) }
    {
        Ok(MemSink {
            bytes: Vec::with_capacity(alloc, capacity)?,
            capacity,
            piece,
            calls: Calls::new(failing),
        })
    }

    /// The bytes that were put.
    pub fn bytes(&self) -> &[u8]
        ensures { ⟦<MemSink as Sink>⟧.bytes self.now ≡ Some result.now }
    {
        &self.bytes
    }

    /// How many calls have failed.
    pub fn faults(&self) -> u64
        ensures { ⟦<MemSink as Sink>⟧.faults self.now ≡ result }
    {
        self.calls.faults()
    }
}

impl Sink for MemSink {
    ghost use Rattle.pra_io.specs.Memory.{sink_bytes, sink_piece, sink_capacity, sink_calls};

    ghost bytes = { λ sink. Some (sink_bytes sink) };

    ghost faults = { λ sink. (sink_calls sink).faults };

    fn put(&mut self, piece: &[u8]) -> Result<usize, Failed>
        ensures bound { WritesAtMost result piece.now }
        ensures some { IfOk result (λ n. n ≡ 0 → piece.now ≡ []) }
        ensures bytes { WriteAppends (Some (sink_bytes self.old)) (Some
            (sink_bytes self.new)) result piece.now }
        ensures cause { HasCause (sink_calls self.old).faults (sink_calls self.new).faults result }

        // It fails at the listed calls and where it is full, and only there, and takes as much as
        // it has room for, up to a piece.
        ensures failed { IsErr result ↔ (FailsNext (sink_calls self.old) ⊎ ((length
            (sink_bytes self.old) ≡ sink_capacity self.old) × (0 < length piece.now))) }
        ensures counted { Counts (sink_calls self.old) (sink_calls self.new) result }
        ensures count { IfOk result (λ n. n ≡ min (min (length piece.now)
            (sink_capacity self.old - length (sink_bytes self.old))) (sink_piece self.old)) }
        ensures piece { sink_piece self.new ≡ sink_piece self.old }
        ensures capacity { sink_capacity self.new ≡ sink_capacity self.old }
    {
        self.calls.begin()?;
        let room = self.capacity - self.bytes.len();
        let count = piece.len().min(room).min(self.piece);
        if count == 0 && !piece.is_empty() {
            return Err(self.calls.fail());
        }
        self.bytes.extend_from_slice(&piece[..count]).unwrap();
        Ok(count)
    }
}
