// A reader and a writer whose calls are answered from a list.

use std::io;
use std::io::{ErrorKind, Read, Write};

/// How one call is answered. Past a list of answers a call moves all that it can.
#[derive(Clone, Copy, Drop)]
pub(crate) enum Answer {
    /// It moves at most so many bytes.
    AtMost(usize),
    /// It was interrupted.
    Interrupted,
    /// It failed.
    Failed,
}

/// How many bytes the next call moves, of those that it could move.
pub(crate) fn moved(answers: &mut &[Answer], most: usize) -> io::Result<usize> {
    let [answer, rest @ ..] = *answers else {
        return Ok(most);
    };
    *answers = rest;
    match *answer {
        Answer::AtMost(count) => Ok(count.min(most)),
        Answer::Interrupted => Err(io::Error::from(ErrorKind::Interrupted)),
        Answer::Failed => Err(io::Error::from(ErrorKind::Other)),
    }
}

/// Gives its bytes from the front.
#[derive(Drop)]
pub(crate) struct FakeReader<'a> {
    pub bytes: &'a [u8],
    pub answers: &'a [Answer],
}

impl<'a> Read for FakeReader<'a> {
    fn read(&mut self, buf: &mut [u8]) -> io::Result<usize> {
        let most = self.bytes.len().min(buf.len());
        let count = moved(&mut self.answers, most)?.min(most);
        buf[..count].copy_from_slice(&self.bytes[..count]);
        self.bytes = &self.bytes[count..];
        Ok(count)
    }
}

/// Keeps what it takes.
#[derive(Drop)]
pub(crate) struct FakeWriter<'a> {
    pub taken: Vec<u8>,
    pub answers: &'a [Answer],
}

impl<'a> Write for FakeWriter<'a> {
    fn write(&mut self, piece: &[u8]) -> io::Result<usize> {
        let count = moved(&mut self.answers, piece.len())?.min(piece.len());
        self.taken.extend_from_slice(&piece[..count])?;
        Ok(count)
    }

    fn flush(&mut self) -> io::Result<()> {
        Ok(())
    }
}
