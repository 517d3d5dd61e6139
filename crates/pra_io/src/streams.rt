// Bytes to be taken, and a place for bytes, piece by piece.

ghost use Rattle.std.specs.Prelude.{◌≡◌, ◌⊎◌, ◌≤◌, ◌+◌, ◌++◌, ℕ, List, [], vec_len, IsSome, IfOk};
ghost use Rattle.std.specs.Prelude.{◌<◌, length, OnOk, OnErr, IsErr, IsErrOf};
ghost use Rattle.std.specs.declared.option.Option.{Option};
ghost use Rattle.std.specs.Io.{ReadsAtMost, WritesAtMost};
ghost use Rattle.std.specs.Io.KnownBytes.{ReadConsumes, WriteAppends, Appends, Consumes, IsAtEnd};
ghost use Rattle.pra_io.specs.declared.streams.ReadAll.TheVariants.{ReadFault, OutOfMemory};
ghost use Rattle.pra_io.specs.Causes.{Rose, HasCause};
ghost use Rattle.pra_io.specs.Contents.{IsAllOf, Takes, TakesAtMost, AppendsFront, most_read};

use pra_base::OutOfMemory;
use std::alloc::Global;

/// A source, a sink or a folder failed, and counts that as a fault.
#[derive(Clone, Copy, Debug, PartialEq, Eq)]
pub struct Failed;

/// Bytes to be taken, with a count of faults.
pub trait Source {
    /// The bytes that are left, where the source tells them.
    ghost left: { Self → Option (List ℕ) };

    /// How often a take has failed.
    ghost faults: { Self → ℕ };

    /// Puts bytes at the front of the buffer and answers how many: 0 of a buffer with room is the
    /// end of the input.
    ///
    /// # Errors
    ///
    /// Where the source failed: nothing was taken then.
    fn take(&mut self, buf: &mut [u8]) -> Result<usize, Failed>
        ensures bound { ReadsAtMost result buf.new }
        ensures bytes { ReadConsumes (left self.old) (left self.new) result buf.new }
        ensures cause { HasCause (faults self.old) (faults self.new) result };
}

/// A place for bytes, with a count of faults.
pub trait Sink {
    /// The bytes that were put, where the sink tells them.
    ghost bytes: { Self → Option (List ℕ) };

    /// How often a put has failed.
    ghost faults: { Self → ℕ };

    /// Takes bytes from the front of the piece and answers how many: at least one of a piece that
    /// is not empty.
    ///
    /// # Errors
    ///
    /// Where the sink failed, or could take no byte: nothing was taken then.
    fn put(&mut self, piece: &[u8]) -> Result<usize, Failed>
        ensures bound { WritesAtMost result piece.now }
        ensures some { IfOk result (λ n. n ≡ 0 → piece.now ≡ []) }
        ensures bytes { WriteAppends (bytes self.old) (bytes self.new) result piece.now }
        ensures cause { HasCause (faults self.old) (faults self.new) result };
}

/// A sink failed before it had taken all the bytes.
#[derive(Clone, Copy, Debug, PartialEq, Eq)]
pub struct WriteFault;

impl From<Failed> for WriteFault {
    fn from(_: Failed) -> Self {
        WriteFault
    }
}

/// Why not all bytes of a source were read.
#[derive(Clone, Copy, Debug, PartialEq, Eq)]
pub enum ReadAll {
    /// The source failed.
    ReadFault,
    /// There are more bytes than were asked for at most.
    TooLong,
    /// A growth of memory was refused.
    OutOfMemory,
}

impl From<Failed> for ReadAll {
    ghost from_gives = { λ _ fault. fault ≡ ReadFault };

    fn from(_: Failed) -> Self {
        ReadAll::ReadFault
    }
}

impl From<OutOfMemory> for ReadAll {
    ghost from_gives = { λ _ fault. fault ≡ OutOfMemory };

    fn from(_: OutOfMemory) -> Self {
        ReadAll::OutOfMemory
    }
}

/// The most that one call of `read_all` may be asked for: 64 MiB.
pub const LONGEST_READ: usize = 67_108_864;

/// [`LONGEST_READ`] is the number of the definition.
pub fn longest_read()
    ensures { LONGEST_READ ≡ most_read }
{}

/// How many bytes `read_all` asks for at a time.
const PIECE: usize = 4096;

/// Puts a piece behind the bytes.
pub(crate) fn append(all: &mut Vec<u8>, piece: &[u8]) -> Result<(), OutOfMemory>
    ensures { OnOk result (all.new.items ≡ all.old.items ++ piece.now) }
{
    all.extend_from_slice(piece)?;
    Ok(())
}

/// All the bytes that are left, of which there are at most `max`.
///
/// # Errors
///
/// `TooLong` where `max + 1` bytes were taken. `ReadFault` where the source failed; what was taken
/// before is lost.
pub fn read_all<I: Source>(alloc: Global, source: &mut I, max: usize) -> Result<Vec<u8>, ReadAll>
    requires { max ≤ most_read }

    // The answer is all that was left, and nothing is left afterwards.
    ensures all { IfOk result (λ v. IsAllOf (I.left source.old) v.items) }
    ensures end { OnOk result (IsAtEnd (I.left source.new)) }
    ensures size { IfOk result (λ v. vec_len v ≤ max) }

    // How many bytes were taken, by the answer.
    ensures taken { IfOk result (λ v. Consumes (I.left source.old) (I.left source.new) v.items) }
    ensures too_long { IsErrOf result ReadAll.TooLong → Takes (I.left source.old)
        (I.left source.new) (max + 1) }
    ensures before_fault { IsErrOf result ReadAll.ReadFault → TakesAtMost (I.left source.old)
        (I.left source.new) max }
    ensures memory { IsErrOf result ReadAll.OutOfMemory → TakesAtMost (I.left source.old)
        (I.left source.new) (max + 1) }
    ensures exact { IsSome (I.left source.old) → Takes (I.left source.old) (I.left source.new)
        (max + 1) →
        IsErrOf result ReadAll.TooLong ⊎ IsErrOf result ReadAll.OutOfMemory }

    // The count never falls, and a fault is told only where it rose.
    ensures later { I.faults source.old ≤ I.faults source.new }
    ensures fault { IsErrOf result ReadAll.ReadFault → Rose (I.faults source.old)
        (I.faults source.new) }
{
    let mut all = Vec::new(alloc);
    let mut piece = [0u8; PIECE];
    while all.len() <= max {
        let room = (max + 1 - all.len()).min(PIECE);
        match source.take(&mut piece[..room])? {
            0 => return Ok(all),
            count => append(&mut all, &piece[..count])?,
        }
    }
    Err(ReadAll::TooLong)
}

/// Puts all the bytes. It takes no memory.
///
/// # Errors
///
/// Where the sink failed, which is not asked for no bytes: a front of the bytes was put before.
pub fn write_all<O: Sink>(sink: &mut O, bytes: &[u8]) -> Result<(), WriteFault>
    ensures all { OnOk result (Appends (O.bytes sink.old) (O.bytes sink.new) bytes.now) }
    ensures front { AppendsFront (O.bytes sink.old) (O.bytes sink.new) bytes.now }
    ensures cause { HasCause (O.faults sink.old) (O.faults sink.new) result }
    ensures some { IsErr result → 0 < length bytes.now }
{
    let mut at = 0;
    while at < bytes.len() {
        at += sink.put(&bytes[at..])?;
    }
    Ok(())
}
