// A folder of the system whose reads and writes are answered from lists, under every name.

use crate::fake_streams::{Answer, FakeReader, moved};
use std::alloc::Allocator;
use std::cell::Cell;
use std::fs::{Metadata, OpenFile, OpenOptions};
use std::io;
use std::io::{ErrorKind, Read, Seek, SeekFrom, Write};
use std::rt::Files;

/// Each name holds these bytes. Of some names the system tells that they are there, all as one
/// regular file. How many bytes were written to all files is counted.
#[derive(Drop)]
pub(crate) struct FakeFiles<'a> {
    pub told: &'a [&'a str],
    pub bytes: &'a [u8],
    pub reads: &'a [Answer],
    pub writes: &'a [Answer],
    pub written: &'a Cell<usize>,
}

/// An opened file.
#[derive(Drop)]
pub(crate) struct FakeFile<'a> {
    reader: FakeReader<'a>,
    writes: &'a [Answer],
    written: &'a Cell<usize>,
}

impl<'a> Read for FakeFile<'a> {
    fn read(&mut self, buf: &mut [u8]) -> io::Result<usize> {
        self.reader.read(buf)
    }
}

impl<'a> Write for FakeFile<'a> {
    fn write(&mut self, piece: &[u8]) -> io::Result<usize> {
        let count = moved(&mut self.writes, piece.len())?.min(piece.len());
        self.written.set(self.written.get().saturating_add(count));
        Ok(count)
    }

    fn flush(&mut self) -> io::Result<()> {
        Ok(())
    }
}

// What no test asks for.
fn unsupported<T>() -> io::Result<T> {
    Err(io::Error::from(ErrorKind::Unsupported))
}

impl<'a> Seek for FakeFile<'a> {
    fn seek(&mut self, _: SeekFrom) -> io::Result<u64> {
        unsupported()
    }
}

impl<'a> OpenFile for FakeFile<'a> {
    fn metadata(&self) -> io::Result<Metadata> {
        Ok(Metadata::of_file(0))
    }

    fn set_len(&self, _: u64) -> io::Result<()> {
        unsupported()
    }

    fn sync_all(&self) -> io::Result<()> {
        unsupported()
    }

    fn sync_data(&self) -> io::Result<()> {
        unsupported()
    }
}

impl<'a> Files for FakeFiles<'a> {
    type File = FakeFile<'a>;

    type Dir = FakeReader<'a>;

    fn open_file(&self, _: &OpenOptions, _: &str) -> io::Result<FakeFile<'a>> {
        Ok(FakeFile {
            reader: FakeReader {
                bytes: self.bytes,
                answers: self.reads,
            },
            writes: self.writes,
            written: self.written,
        })
    }

    fn open_dir(&self, _: &str) -> io::Result<FakeReader<'a>> {
        unsupported()
    }

    fn metadata(&self, name: &str) -> io::Result<Metadata> {
        if self.told.contains(&name) {
            return Ok(Metadata::of_file(0));
        }
        Err(io::Error::from(ErrorKind::NotFound))
    }

    fn symlink_metadata(&self, _: &str) -> io::Result<Metadata> {
        unsupported()
    }

    fn copy(&self, _: &str, _: &str) -> io::Result<u64> {
        unsupported()
    }

    fn rename(&self, _: &str, _: &str) -> io::Result<()> {
        unsupported()
    }

    fn remove_file(&self, _: &str) -> io::Result<()> {
        unsupported()
    }

    fn create_dir(&self, _: &str) -> io::Result<()> {
        unsupported()
    }

    fn remove_dir(&self, _: &str) -> io::Result<()> {
        unsupported()
    }

    fn remove_dir_all<B: Allocator>(&self, _: B, _: &str) -> io::Result<()> {
        unsupported()
    }
}
