// The files and streams of the system, which tell nothing of what they hold.
//
// Nothing here is proved of bytes, since no contract can say what a file or a stream gives or
// takes.

ghost use Rattle.std.specs.Prelude.{◌≡◌, ◌≢◌, ◌≤◌, ℕ, List, [], None, IfOk, OnOk, IsErrOf, vec_len};
ghost use Rattle.std.specs.Io.{ReadsAtMost, WritesAtMost};
ghost use Rattle.pra_io.specs.Causes.{HasCause, FileCause};
ghost use Rattle.pra_io.specs.Contents.{Holds, IsLonger, Becomes};
ghost use Rattle.pra_io.specs.Host.{untold, CountsFault, CountsFileFault};

use crate::calls::one_more;
use crate::files::{FileFault, Folder};
use crate::streams::{Failed, Sink, Source, append};
use pra_base::OutOfMemory;
use std::alloc::Global;
use std::fs;
use std::fs::{OpenFile, Permissions};
use std::io::{ErrorKind, Read, Write};
use std::os::unix::fs::MetadataExt;
use std::rt::Files;

// Reads once, and again where the call was interrupted.
fn read_some<R: Read>(reader: &mut R, buf: &mut [u8]) -> Result<usize, Failed>
    ensures { ReadsAtMost result buf.new }
{
    for _ in 0..u64::MAX {
        match reader.read(buf) {
            Ok(count) => return Ok(count),
            Err(error) if error.kind() == ErrorKind::Interrupted => {}
            Err(_) => return Err(Failed),
        }
    }
    Err(Failed)
}

// Writes once, and again where the call was interrupted. That no byte of a piece was taken is a
// fault.
fn write_some<W: Write>(writer: &mut W, piece: &[u8]) -> Result<usize, Failed>
    ensures bound { WritesAtMost result piece.now }
    ensures some { IfOk result (λ n. n ≡ 0 → piece.now ≡ []) }
{
    for _ in 0..u64::MAX {
        match writer.write(piece) {
            Ok(count) if count > 0 || piece.is_empty() => return Ok(count),
            Err(error) if error.kind() == ErrorKind::Interrupted => {}
            _ => return Err(Failed),
        }
    }
    Err(Failed)
}

/// A source over any reader.
#[derive(Drop)]
pub struct HostSource<R> {
    inner: R,
    faults: u64,
}

impl<R: Read> HostSource<R> {
    /// A source of what the reader gives.
    pub fn new(inner: R) -> HostSource<R>
        ensures { ⟦<HostSource<R> as Source>⟧.faults result ≡ 0 }
    {
        HostSource { inner, faults: 0 }
    }

    /// How many calls have failed.
    pub fn faults(&self) -> u64
        ensures { ⟦<HostSource<R> as Source>⟧.faults self.now ≡ result }
    {
        self.faults
    }
}

impl<R: Read> Source for HostSource<R> {
    ghost left = { λ _. None };

    ghost faults = { λ source. source.faults };

    fn take(&mut self, buf: &mut [u8]) -> Result<usize, Failed>
        ensures bound { ReadsAtMost result buf.new }
        ensures cause { HasCause self.old.faults self.new.faults result }
        ensures counted { CountsFault self.old.faults self.new.faults result }
    {
        let result = read_some(&mut self.inner, buf);
        if result.is_err() {
            self.faults = one_more(self.faults);
        }
        result
    }
}

/// A sink over any writer.
#[derive(Drop)]
pub struct HostSink<W> {
    inner: W,
    faults: u64,
}

impl<W: Write> HostSink<W> {
    /// A sink into the writer.
    pub fn new(inner: W) -> HostSink<W>
        ensures { ⟦<HostSink<W> as Sink>⟧.faults result ≡ 0 }
    {
        HostSink { inner, faults: 0 }
    }

    /// How many calls have failed.
    pub fn faults(&self) -> u64
        ensures { ⟦<HostSink<W> as Sink>⟧.faults self.now ≡ result }
    {
        self.faults
    }
}

impl<W: Write> Sink for HostSink<W> {
    ghost bytes = { λ _. None };

    ghost faults = { λ sink. sink.faults };

    fn put(&mut self, piece: &[u8]) -> Result<usize, Failed>
        ensures bound { WritesAtMost result piece.now }
        ensures some { IfOk result (λ n. n ≡ 0 → piece.now ≡ []) }
        ensures cause { HasCause self.old.faults self.new.faults result }
        ensures counted { CountsFault self.old.faults self.new.faults result }
    {
        let result = write_some(&mut self.inner, piece);
        if result.is_err() {
            self.faults = one_more(self.faults);
        }
        result
    }
}

/// Which file of the system a name stands for, whatever its path is and through all links.
#[derive(Clone, Copy, PartialEq, Eq, Drop)]
struct FileId {
    device: u64,
    inode: u64,
}

/// The folder in which the program runs, with one count of faults for all names, for reading and
/// for writing. A file that was read is never written over, under whatever name, nor is the one
/// that standard input comes from, nor the one that was written last: that is a fault. So it is of
/// each file that is there, where the system does not tell which one standard input comes from.
#[derive(Drop)]
pub struct HostFolder<'a, R> {
    rt: &'a R,
    read: Vec<FileId>,
    written: Option<FileId>,
    faults: u64,
}

impl<'a, R: Files> HostFolder<'a, R> {
    /// The files that the runtime opens and creates.
    pub fn new(alloc: Global, rt: &'a R) -> HostFolder<'a, R>
        ensures read_faults { (n : List ℕ) →
            ⟦<HostFolder<'a, R> as Folder>⟧.read_faults result n ≡ 0 }
        ensures write_faults { (n : List ℕ) →
            ⟦<HostFolder<'a, R> as Folder>⟧.write_faults result n ≡ 0 }
    {
        HostFolder {
            rt,
            read: Vec::new(alloc),
            written: None,
            faults: 0,
        }
    }

    /// How many calls have failed.
    pub fn faults(&self) -> u64
        ensures reading { (n : List ℕ) →
            ⟦<HostFolder<'a, R> as Folder>⟧.read_faults self.now n ≡ result }
        ensures writing { (n : List ℕ) →
            ⟦<HostFolder<'a, R> as Folder>⟧.write_faults self.now n ≡ result }
    {
        self.faults
    }

    // Whether the name stands for a file that is not to be written over.
    fn is_kept(&self, name: &str) -> bool {
        match found_at(self.rt, name) {
            Some((id, is_regular)) => {
                self.read.contains(&id)
                    || self.written == Some(id)
                    || (is_regular && may_be_input(self.rt, id))
            }
            None => false,
        }
    }

    // Makes the named file hold the bytes, where it may be written over, and says which file that
    // is. A regular one is whole at each moment, the old one or the new one, if its folder can have
    // another file beside it.
    fn write_named(&self, alloc: Global, name: &str, bytes: &[u8]) -> Result<FileId, Failed> {
        if self.is_kept(name) {
            return Err(Failed);
        }
        if let Some(like) = replaceable(self.rt, name)?
            && let Ok(path) = self.rt.canonicalize(alloc, name)
            && let Some(id) = replace(self.rt, alloc, path.as_path().as_str(), like, bytes)?
        {
            return Ok(id);
        }
        overwrite(self.rt, name, bytes)
    }
}

/// How many bytes of a file are read at a time.
const PIECE: usize = 4096;

// The bytes of a reader, of which there are at most max.
fn read_whole<R: Read>(alloc: Global, reader: &mut R, max: usize) -> Result<Vec<u8>, FileFault>
    ensures { IfOk result (λ v. vec_len v ≤ max) }
{
    let mut all = Vec::new(alloc);
    let mut piece = [0u8; PIECE];
    for _ in 0..u64::MAX {
        match read_some(reader, &mut piece)? {
            0 => return Ok(all),
            count if count > max - all.len() => return Err(FileFault::TooLong),
            count => append(&mut all, &piece[..count])?,
        }
    }
    Err(FileFault::Failed)
}

// Writes all the bytes.
fn write_whole<W: Write>(writer: &mut W, bytes: &[u8]) -> Result<(), Failed> {
    let mut at = 0;
    while at < bytes.len() {
        at += write_some(writer, &bytes[at..])?;
    }
    Ok(())
}

// Which file an opened one is.
fn id_of<F: OpenFile>(file: &F) -> Result<FileId, Failed> {
    match file.metadata() {
        Ok(found) => Ok(FileId {
            device: found.dev(),
            inode: found.ino(),
        }),
        Err(_) => Err(Failed),
    }
}

// The bytes of the named file, of which there are at most max, and which file that is.
fn read_named<R: Files>(
    rt: &R,
    alloc: Global,
    name: &str,
    max: usize,
) -> Result<(FileId, Vec<u8>), FileFault>
    ensures { IfOk result (λ found. vec_len found.1 ≤ max) }
{
    match fs::open(rt, name) {
        Ok(mut file) => {
            let id = id_of(&file)?;
            let bytes = read_whole(alloc, &mut file, max)?;
            Ok((id, bytes))
        }
        Err(_) => Err(FileFault::Failed),
    }
}

// One file more was read.
fn remember(read: &mut Vec<FileId>, id: FileId) -> Result<(), OutOfMemory> {
    read.push(id)?;
    Ok(())
}

/// The folder in which a process finds the files that its open streams come from.
const STREAMS: &str = "/proc/self/fd";

/// The one of these that is its standard input.
const STANDARD_INPUT: &str = "/proc/self/fd/0";

/// What is appended to a name, before a number, for the file that is to take that name's place.
const PART: &str = ".part";

// The file that the name stands for, through all links, and whether it is a regular one.
fn found_at<R: Files>(rt: &R, name: &str) -> Option<(FileId, bool)> {
    match fs::metadata(rt, name) {
        Ok(found) => {
            let id = FileId {
                device: found.dev(),
                inode: found.ino(),
            };
            Some((id, found.is_file()))
        }
        Err(_) => None,
    }
}

// Whether this may be the file that standard input comes from: where the system tells which one
// that is, only that one, and none where it tells of the other streams but not of this one, which
// is closed then.
fn may_be_input<R: Files>(rt: &R, id: FileId) -> bool {
    match found_at(rt, STANDARD_INPUT) {
        Some((input, is_regular)) => is_regular && input == id,
        None => fs::metadata(rt, STREAMS).is_err(),
    }
}

// Writes the bytes to a file that was just made.
fn fill<F: OpenFile + Write>(
    file: &mut F,
    like: Permissions,
    bytes: &[u8],
) -> Result<FileId, Failed> {
    if file.set_permissions(like).is_err() {
        return Err(Failed);
    }
    write_whole(file, bytes)?;
    id_of(file)
}

// A new file beside the one of this path, under a name that no other call has, and that name; or
// none, where the folder can't have another file.
fn beside<R: Files>(rt: &R, alloc: Global, path: &str) -> Option<(String, R::File)> {
    for number in 0..u64::MAX {
        let Ok(part) = format!(in alloc; "{path}{PART}{number}") else {
            return None;
        };
        match fs::File::create_new(rt, part.as_str()) {
            Ok(file) => return Some((part, file)),
            Err(error) if error.kind() == ErrorKind::AlreadyExists => {}
            Err(_) => return None,
        }
    }
    None
}

// Puts a file with these bytes in the place of the one of this path, which may be used for the same
// and stays whole until then, and says which file that is; or none, where the folder can't have
// another file beside it.
fn replace<R: Files>(
    rt: &R,
    alloc: Global,
    path: &str,
    like: Permissions,
    bytes: &[u8],
) -> Result<Option<FileId>, Failed> {
    let Some((part, mut file)) = beside(rt, alloc, path) else {
        return Ok(None);
    };
    match fill(&mut file, like, bytes) {
        Ok(id) if fs::rename(rt, part.as_str(), path).is_ok() => Ok(Some(id)),
        _ => {
            let _ = fs::remove_file(rt, part.as_str());
            Err(Failed)
        }
    }
}

// What the regular file may be used for that the name stands for, through all links, which is made
// where it is not there; or none, where the name is that of something else.
//
// Where that file may not be written this is a fault.
fn replaceable<R: Files>(rt: &R, name: &str) -> Result<Option<Permissions>, Failed> {
    if let Some((_, false)) = found_at(rt, name) {
        return Ok(None);
    }
    let opened = fs::File::options().write(true).create(true).open(rt, name);
    match opened.and_then(|file| file.metadata()) {
        Ok(found) => Ok(Some(found.permissions()).filter(|_| found.is_file())),
        Err(_) => Err(Failed),
    }
}

// Writes the bytes over what the name stands for.
fn overwrite<R: Files>(rt: &R, name: &str, bytes: &[u8]) -> Result<FileId, Failed> {
    match fs::create(rt, name) {
        Ok(mut file) => {
            write_whole(&mut file, bytes)?;
            id_of(&file)
        }
        Err(_) => Err(Failed),
    }
}

impl<'a, R: Files> Folder for HostFolder<'a, R> {
    ghost file = { λ _. untold };

    ghost read_faults = { λ folder _. folder.faults };

    ghost write_faults = { λ folder _. folder.faults };

    fn read_file(&mut self, alloc: Global, name: &str, max: usize) -> Result<Vec<u8>, FileFault>
        ensures bytes { IfOk result (λ v. Holds (untold name.now) v.items) }
        ensures size { IfOk result (λ v. vec_len v ≤ max) }
        ensures too_long { IsErrOf result FileFault.TooLong → IsLonger (untold name.now) max }
        ensures same { (n : List ℕ) → untold n ≡ untold n }
        ensures cause { FileCause name.now (λ _. self.old.faults) (λ _. self.new.faults)
            (λ _. self.old.faults) (λ _. self.new.faults) result }
        ensures counted { CountsFileFault self.old.faults self.new.faults result }
    {
        match read_named(self.rt, alloc, name, max) {
            Ok((id, bytes)) => {
                remember(&mut self.read, id)?;
                Ok(bytes)
            }
            Err(FileFault::Failed) => {
                self.faults = one_more(self.faults);
                Err(FileFault::Failed)
            }
            Err(fault) => Err(fault),
        }
    }

    fn write_file(&mut self, alloc: Global, name: &str, bytes: &[u8]) -> Result<(), FileFault>
        ensures written { OnOk result (Becomes (untold name.now) (untold name.now) bytes.now) }
        ensures others { (n : List ℕ) → n ≢ name.now → untold n ≡ untold n }
        ensures never_long { IsErrOf result FileFault.TooLong → ⊥ }
        ensures memory { IsErrOf result FileFault.OutOfMemory → ⊥ }
        ensures cause { FileCause name.now (λ _. self.old.faults) (λ _. self.new.faults)
            (λ _. self.old.faults) (λ _. self.new.faults) result }
        ensures counted { CountsFileFault self.old.faults self.new.faults result }
    {
        match self.write_named(alloc, name, bytes) {
            Ok(id) => {
                self.written = Some(id);
                Ok(())
            }
            Err(Failed) => {
                self.faults = one_more(self.faults);
                Err(FileFault::Failed)
            }
        }
    }
}
